//! Steps that are put off, with the named sets that they gather.
ghost use Rattle.std.specs.Prelude.{◌≡◌, ◌++◌, ◌∷◌, [], OnOk};

use crate::closed::Closed;
use crate::counting::counting;
use crate::growing::Growing;
use crate::named_set::Named;
use crate::places::Places;
use crate::step::{Operation, Step};
use cp_invlist::NoMemory;
use std::alloc::Global;
use uset_gather::Gathered;
use uset_read::Query;

/// What a set that is kept takes with its name, or what another bracket gathered with its step, in ranges.
const SHARE: usize = 32;

/// From so many ranges on the steps are done before more are put off: one property has names without number, since names that are
/// spelled otherwise may be one, and each is kept here.
const FULL: usize = 1 << 20;

/// Steps that are put off, the first in front, and the sets that they name, each once.
pub(crate) struct Later<'a> {
    places: Places,
    sets: Vec<Named<'a>>,
    steps: Vec<Step>,
    /// About how much memory the sets and the inner brackets take, in ranges. Ranges, strings and names said again aren't counted:
    /// they take a few bytes for each byte of their text.
    kept: usize,
    /// Whether one of the sets is so large that the set of the bracket becomes a term.
    huge: bool,
}

// By hand, so that letting a value go is one call in each proof.
impl Drop for Later<'_> {
    fn drop(self) {
        let Self {
            places: _,
            sets: _,
            steps: _,
            kept: _,
            huge: _,
        } = self;
    }
}

/// Puts the set behind the others. Most brackets keep one, and a list's first room would be for four.
fn push_set<'a>(sets: &mut Vec<Named<'a>>, named: Named<'a>) -> Result<(), NoMemory>
    ensures { OnOk result (sets.new.items ≡ sets.old.items ++ named.entry ∷ []) }
{
    if sets.is_empty() {
        sets.reserve_exact(1)?;
    }
    sets.push(named)?;
    Ok(())
}

impl<'a> Later<'a> {
    ghost use Rattle.std.specs.Prelude.{◌≡◌, Bool, true, [], None, reverse, slice_get, IfSome, IfNone, IfOk, OnOk, OnErr};
    ghost use Rattle.uset_grammar.specs.Tree.{Member};
    ghost use Rattle.uset_gather.specs.Gathered.{gathered_in};
    ghost use Rattle.uset_read.specs.Queries.{query_seen};
    ghost use Rattle.uset_steps.specs.Names.{property, Sets, name_seen};
    ghost use Rattle.uset_steps.specs.Operations.{operated};
    ghost use Rattle.uset_steps.specs.Steps.{step_done, MakeSame, names_none};
    ghost use Rattle.uset_steps.specs.Terms.{closed_in};
    ghost use Rattle.uset_steps.specs.Places.{IsPlaceIn, HasNoPlace, HasPlace};
    ghost use Rattle.uset_steps.specs.Later.{later_done, LaterFits, Keeps, GathersNamed, GathersAgain, Stays};

    /// No steps yet.
    pub(crate) fn new(alloc: Global) -> Later<'a>
        ensures members { (sets : Sets) (m : Member) (b : Bool) → later_done sets result m b ≡ b }
        ensures names { (sets : Sets) → LaterFits sets result }
    {
        Later {
            places: Places::new(alloc),
            sets: Vec::new(alloc),
            steps: Vec::new(alloc),
            kept: 0,
            huge: false,
        }
    }

    /// Puts off a step that names no set.
    #[tactic(auto, using(crate::proofs::KeptLemmas::stays))]
    #[cold]
    pub(crate) fn put_off(&mut self, step: Step) -> Result<(), NoMemory>
        requires { names_none step ≡ true }
        ensures members { OnOk result ((sets : Sets) (m : Member) (b : Bool) →
            later_done sets self.new m b ≡ step_done sets [] step m (later_done sets self.old m b)) }
        ensures names { OnOk result ((sets : Sets) → LaterFits sets self.old → LaterFits sets self.new) }
        ensures places { self.new.places ≡ self.old.places }
        ensures err { OnErr result (Stays self.old self.new) }
    {
        self.steps.push(step)?;
        Ok(())
    }

    /// Puts off the gathering of the set of another bracket.
    #[cold]
    pub(crate) fn put_off_set(
        &mut self,
        alloc: Global,
        operation: Operation,
        set: Closed,
    ) -> Result<(), NoMemory>
        ensures members { OnOk result ((sets : Sets) (m : Member) (b : Bool) →
            later_done sets self.new m b ≡ operated operation (closed_in sets set m) (later_done sets self.old m b)) }
        ensures names { OnOk result ((sets : Sets) → LaterFits sets self.old → LaterFits sets self.new) }
    {
        self.kept = self.kept.saturating_add(SHARE);
        self.huge = self.huge || set.is_term();
        self.put_off(Step::Set(operation, Box::new(alloc, set)?))
    }

    /// Whether so much is kept that the steps are better done.
    pub(crate) fn is_full(&self) -> bool {
        self.kept >= FULL
    }

    /// The place of the set of a property, if it is kept.
    pub(crate) fn place_of(&self, query: &Query) -> Option<usize>
        ensures found { IfSome result (IsPlaceIn self.now.places (property (query_seen query.now))) }
        ensures absent { IfNone result (HasNoPlace self.now.places (property (query_seen query.now))) }
    {
        self.places.of_property(query)
    }

    /// The place of the set with this name, which is kept from now on where it was not before.
    fn keep(&mut self, alloc: Global, named: Named<'a>) -> Result<usize, NoMemory>
        ensures kept { IfOk result (Keeps named.entry self.old self.new) }
        ensures steps { self.new.steps ≡ self.old.steps }
        ensures placed { OnOk result (HasPlace self.new.places (name_seen named.entry.name)) }
    {
        if let Some(place) = self.places.of(&named.name) {
            return Ok(place);
        }
        let place = self.sets.len();
        self.kept = self.kept.saturating_add(SHARE);
        self.huge = self.huge || named.set.is_huge();
        let name = named.name.copy(alloc)?;
        push_set(&mut self.sets, named)?;
        self.places.add(name, place)?;
        Ok(place)
    }

    /// Puts off the gathering of a set with a name. A set that was named before is kept, and this one is forgotten.
    pub(crate) fn put_off_named(
        &mut self,
        alloc: Global,
        operation: Operation,
        named: Named<'a>,
    ) -> Result<(), NoMemory>
        ensures gathers { OnOk result (GathersNamed operation named.entry self.old self.new) }
        ensures placed { OnOk result (HasPlace self.new.places (name_seen named.entry.name)) }
    {
        let place = self.keep(alloc, named)?;
        self.steps.push(Step::Named(operation, place))?;
        Ok(())
    }

    /// Puts off the gathering of the set at this place once more, if one is kept there.
    #[tactic(auto, using(crate::proofs::KeptLemmas::stays))]
    pub(crate) fn put_off_again(
        &mut self,
        operation: Operation,
        place: usize,
    ) -> Result<(), NoMemory>
        ensures gathers { OnOk result (GathersAgain operation place self.old self.new) }
        ensures elsewhere { slice_get self.old.sets.items place ≡ None → self.new ≡ self.old }
        ensures places { self.new.places ≡ self.old.places }
        ensures err { OnErr result (Stays self.old self.new) }
    {
        if place < self.sets.len() {
            self.steps.push(Step::Named(operation, place))?;
        }
        Ok(())
    }

    /// The set of the bracket once the steps are done. It is a term where one of the sets is so large, or was one.
    #[cold]
    pub(crate) fn closed(self, alloc: Global, gathered: Gathered) -> Result<Closed, NoMemory>
        ensures { IfOk result (λ s. (sets : Sets) → LaterFits sets self.entry → (m : Member) →
            closed_in sets s m ≡ later_done sets self.entry m (gathered_in gathered m)) }
    {
        let Later {
            places: _,
            sets,
            steps,
            kept: _,
            huge,
        } = self;
        let mut left = counting(alloc, steps, sets.len())?;
        let mut growing = Growing::Plain(gathered);
        while let Some(step) = left.pop() {
            growing = growing.with_step(alloc, step, &sets, huge)?;
        }
        growing.finish(alloc)
    }
}
