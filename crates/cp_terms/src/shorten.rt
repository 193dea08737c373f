//! Terms without what constant sets decide.
use crate::step::{SetOperation, Step};
use cp_invlist::{NoMemory, Window};
use std::alloc::Global;

/// A set on the stack, as far as it is known on a stretch of code points.
#[derive(Clone, Copy)]
enum Part {
    /// It has none of them.
    Empty,
    /// It has all of them.
    Full,
    /// The steps from this place on make it.
    Mixed(usize),
}

impl Part {
    ghost use Rattle.std.specs.Prelude.{◌≡◌};
    ghost use Rattle.cp_terms.specs.ShortenParts.{part_of, constant_of};

    fn of_constant(inside: bool) -> Part
        ensures { result ≡ part_of inside }
    {
        if inside { Part::Full } else { Part::Empty }
    }

    /// Whether it has all or none, where either is known.
    fn constant(self) -> Option<bool>
        ensures { result ≡ constant_of self }
    {
        match self {
            Part::Empty => Some(false),
            Part::Full => Some(true),
            Part::Mixed(_) => None,
        }
    }
}

/// What a term comes down to on a stretch of code points.
#[derive(Clone, Copy)]
pub(crate) enum Outcome {
    /// All of them are members, or none is.
    Constant(bool),
    /// The members are those of one set, or where it is complemented the others.
    Set {
        /// The index of the set.
        index: usize,
        /// Whether the members are the others.
        complemented: bool,
    },
    /// The members are those that the steps make.
    Mixed,
}

impl Outcome {
    ghost use Rattle.std.specs.Prelude.{◌≡◌, ℕ, Bool};
    ghost use Rattle.cp_terms.specs.Terms.{value_of};
    ghost use Rattle.cp_terms.specs.Outcome.{outcome_value};

    /// What steps come down to by themselves.
    fn of_steps(steps: &[Step]) -> Outcome
        ensures { (w : ℕ → Bool) → value_of w steps.now ≡ outcome_value w result steps.now }
    {
        match steps {
            [Step::Push(index)] => Outcome::Set {
                index: *index,
                complemented: false,
            },
            [Step::Push(index), Step::Complement] => Outcome::Set {
                index: *index,
                complemented: true,
            },
            _ => Outcome::Mixed,
        }
    }
}

/// A term that is shortened, and the sets on its stack.
pub(crate) struct Shortened {
    pub(crate) steps: Vec<Step>,
    stack: Vec<Part>,
}

// By hand, so that letting a value go is one call in each proof.
impl Drop for Shortened {
    fn drop(self) {
        let Self { steps: _, stack: _ } = self;
    }
}

impl Shortened {
    ghost use Rattle.std.specs.Prelude.{◌≡◌, ℕ, ◌∷◌, Bool, List, [], OnOk, IfSome, IfNone};
    ghost use Rattle.cp_terms.specs.Terms.{combined, both_done, step_done, steps_done, top, value_of};
    ghost use Rattle.cp_terms.specs.declared.shorten.Part.{Part};
    ghost use Rattle.cp_terms.specs.Outcome.{outcome_value};
    ghost use Rattle.cp_terms.specs.Shorten.{Agree, FitsTerm, FitsUnder, FitsUnderBoth, changed, changed_top};

    /// No steps.
    pub(crate) fn new(alloc: Global) -> Shortened
        ensures { (w : ℕ → Bool) → FitsTerm w result [] }
    {
        Shortened {
            steps: Vec::new(alloc),
            stack: Vec::new(alloc),
        }
    }

    /// Puts down a set that has all or none.
    fn put_constant(&mut self, inside: bool) -> Result<(), NoMemory>
        ensures { OnOk result ((w : ℕ → Bool) (stack : List Bool) →
            FitsTerm w self.old stack → FitsTerm w self.new (inside ∷ stack)) }
    {
        self.stack.push(Part::of_constant(inside))?;
        Ok(())
    }

    /// Puts down what the set that the steps from the start on make is made into.
    fn put_mixed(&mut self, start: usize, at_member: bool, at_other: bool) -> Result<(), NoMemory>
        ensures { OnOk result ((w : ℕ → Bool) (b : Bool) (stack : List Bool) →
            FitsUnder w (Part.Mixed start) self.old (b ∷ stack) →
            FitsTerm w self.new (changed at_member at_other b ∷ stack)) }
    {
        if at_member == at_other {
            self.steps.truncate(start);
            return self.put_constant(at_member);
        }
        if at_other {
            self.steps.push(Step::Complement)?;
        }
        self.stack.push(Part::Mixed(start))?;
        Ok(())
    }

    /// Puts down what the set is made into, by whether the result has what the set has and whether it has what the set lacks.
    fn put_changed(&mut self, part: Part, at_member: bool, at_other: bool) -> Result<(), NoMemory>
        ensures { OnOk result ((w : ℕ → Bool) (b : Bool) (stack : List Bool) →
            FitsUnder w part self.old (b ∷ stack) → FitsTerm w self.new (changed at_member at_other b ∷ stack)) }
    {
        match part {
            Part::Empty => self.put_constant(at_other),
            Part::Full => self.put_constant(at_member),
            Part::Mixed(start) => self.put_mixed(start, at_member, at_other),
        }
    }

    /// Does a step to the set on top.
    fn change_top(&mut self, at_member: bool, at_other: bool) -> Result<(), NoMemory>
        ensures { OnOk result ((w : ℕ → Bool) (stack : List Bool) →
            FitsTerm w self.old stack → FitsTerm w self.new (changed_top at_member at_other stack)) }
    {
        match self.stack.pop() {
            Some(part) => self.put_changed(part, at_member, at_other),
            None => Ok(()),
        }
    }

    /// Makes one set of two.
    fn put_both(
        &mut self,
        operation: SetOperation,
        lower: Part,
        upper: Part,
    ) -> Result<(), NoMemory>
        ensures { OnOk result ((w : ℕ → Bool) (a b : Bool) (stack : List Bool) →
            FitsUnderBoth w upper lower self.old (b ∷ a ∷ stack) → FitsTerm w self.new (combined operation a b ∷ stack)) }
    {
        if let Some(inside) = upper.constant() {
            return self.put_changed(
                lower,
                operation.combine(true, inside),
                operation.combine(false, inside),
            );
        }
        if let Some(inside) = lower.constant() {
            return self.put_changed(
                upper,
                operation.combine(inside, true),
                operation.combine(inside, false),
            );
        }
        self.steps.push(Step::Both(operation))?;
        self.stack.push(lower)?;
        Ok(())
    }

    /// Makes one set of the two on top.
    fn merge_top(&mut self, operation: SetOperation) -> Result<(), NoMemory>
        ensures { OnOk result ((w : ℕ → Bool) (stack : List Bool) →
            FitsTerm w self.old stack → FitsTerm w self.new (both_done operation stack)) }
    {
        let Some(upper) = self.stack.pop() else {
            return Ok(());
        };
        let Some(lower) = self.stack.pop() else {
            self.stack.push(upper)?;
            return Ok(());
        };
        self.put_both(operation, lower, upper)
    }

    /// Puts down a set that is neither.
    fn put_set(&mut self, index: usize) -> Result<(), NoMemory>
        ensures { OnOk result ((w : ℕ → Bool) (stack : List Bool) →
            FitsTerm w self.old stack → FitsTerm w self.new (w index ∷ stack)) }
    {
        let start = self.steps.len();
        self.steps.push(Step::Push(index))?;
        self.stack.push(Part::Mixed(start))?;
        Ok(())
    }

    /// Puts down the set with the index.
    fn put_down(&mut self, windows: &[Window], end: u32, index: usize) -> Result<(), NoMemory>
        ensures { OnOk result ((v w : ℕ → Bool) (stack : List Bool) →
            Agree windows.now end v w → FitsTerm w self.old stack → FitsTerm w self.new (v index ∷ stack)) }
    {
        match windows.get(index) {
            None => self.put_constant(false),
            Some(window) if window.next >= end => self.put_constant(window.is_inside()),
            Some(_) => self.put_set(index),
        }
    }

    /// Does the step.
    fn take(&mut self, windows: &[Window], end: u32, step: Step) -> Result<(), NoMemory>
        ensures { OnOk result ((v w : ℕ → Bool) (stack : List Bool) →
            Agree windows.now end v w → FitsTerm w self.old stack → FitsTerm w self.new (step_done v step stack)) }
    {
        match step {
            Step::Push(index) => self.put_down(windows, end, index),
            Step::Both(operation) => self.merge_top(operation),
            Step::Complement => self.change_top(false, true),
            Step::Clear => self.change_top(false, false),
        }
    }

    /// Shortens the steps for the code points up to the end. What was there before goes.
    pub(crate) fn shorten(
        &mut self,
        windows: &[Window],
        end: u32,
        steps: &[Step],
    ) -> Result<(), NoMemory>
        ensures { OnOk result ((v w : ℕ → Bool) →
            Agree windows.now end v w → FitsTerm w self.new (steps_done v steps.now [])) }
    {
        self.steps.clear();
        self.stack.clear();
        for step in steps {
            self.take(windows, end, *step)?;
        }
        Ok(())
    }

    /// Whether the set on top has all or none, where either is known.
    fn constant(&self) -> Option<bool>
        ensures constant { IfSome result
            (λ inside. (w : ℕ → Bool) (stack : List Bool) → FitsTerm w self.now stack → top stack ≡ inside) }
        ensures mixed { IfNone result
            ((w : ℕ → Bool) (stack : List Bool) → FitsTerm w self.now stack →
            top stack ≡ value_of w self.now.steps.items) }
    {
        match self.stack.last() {
            Some(part) => part.constant(),
            None => Some(false),
        }
    }

    /// What the set on top comes down to.
    pub(crate) fn outcome(&self) -> Outcome
        ensures { (w : ℕ → Bool) (stack : List Bool) →
            FitsTerm w self.now stack → top stack ≡ outcome_value w result self.now.steps.items }
    {
        match self.constant() {
            Some(inside) => Outcome::Constant(inside),
            None => Outcome::of_steps(&self.steps),
        }
    }
}
