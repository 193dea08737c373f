//! The steps that count.
ghost use Rattle.std.specs.Prelude.{◌≡◌, ◌⊎◌, ℕ, true, Some, reverse, slice_get, IfOk};
ghost use Rattle.std.specs.Bool.{OnTrue};
ghost use Rattle.uset_steps.specs.Steps.{MakeSame};

use crate::step::{Operation, Step};
use cp_invlist::NoMemory;
use std::alloc::Global;
use std::mem::replace;

/// Which of the sets that are kept are named in the steps behind a place.
struct Seen {
    /// Those that are joined or taken away: each step decides what becomes of all that their set has.
    inside: Vec<bool>,
    /// Those of which alone members are kept: each step decides what becomes of all that their set lacks.
    outside: Vec<bool>,
}

// By hand, so that letting a value go is one call in each proof.
impl Drop for Seen {
    fn drop(self) {
        let Self {
            inside: _,
            outside: _,
        } = self;
    }
}

/// Marks the place, where there is one. The answer is true where it was marked already.
fn mark(flags: &mut Vec<bool>, place: usize) -> bool
    ensures before { OnTrue result (slice_get flags.old.items place ≡ Some true) }
    ensures marked { (i : ℕ) → slice_get flags.new.items i ≡ Some true →
        (slice_get flags.old.items i ≡ Some true) ⊎ (i ≡ place) }
{
    match flags.get_mut(place) {
        Some(flag) => replace(flag, true),
        None => false,
    }
}

impl Seen {
    ghost use Rattle.std.specs.Prelude.{◌≡◌, ℕ, Bool, true, false, IfOk};
    ghost use Rattle.std.specs.Bool.{OnTrue};
    ghost use Rattle.uset_steps.specs.Seen.{IsSeen, IsRepeated, MarksOnly};

    /// None of so many sets.
    fn new(alloc: Global, sets: usize) -> Result<Seen, NoMemory>
        ensures { IfOk result (λ seen. (outside : Bool) (place : ℕ) → IsSeen seen outside place → false ≡ true) }
    {
        Ok(Seen {
            inside: vec![in alloc; false; sets]?,
            outside: vec![in alloc; false; sets]?,
        })
    }

    /// Marks what the step names. The answer is true where a step behind names the same, so that this one has no effect.
    fn note(&mut self, step: &Step) -> bool
        ensures before { OnTrue result (IsRepeated self.old step.now) }
        ensures marked { MarksOnly self.old step.now self.new }
    {
        match step {
            Step::Named(Operation::Retain, place) => mark(&mut self.outside, *place),
            Step::Named(Operation::Join | Operation::Remove, place) => mark(
                &mut self.inside,
                *place,
            ),
            Step::Range(_) | Step::Text(_) | Step::Set(_, _) => false,
        }
    }
}

/// The steps that have an effect, the last in front: one that gathers a set that is kept is passed over where a step behind it
/// decides about the same members.
pub(crate) fn counting(
    alloc: Global,
    mut steps: Vec<Step>,
    sets: usize,
) -> Result<Vec<Step>, NoMemory>
    ensures { IfOk result (λ kept. MakeSame (reverse kept.items) steps.items) }
{
    let mut seen = Seen::new(alloc, sets)?;
    let mut kept = Vec::new(alloc);
    while let Some(step) = steps.pop() {
        if !seen.note(&step) {
            kept.push(step)?;
        }
    }
    Ok(kept)
}
