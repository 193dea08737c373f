//! Terms whose sets have numbers.
use crate::name::Name;
use crate::places::Places;
use crate::term::{Term, TermStep};
use cp_invlist::NoMemory;
use cp_strset::CodePointInversionListAndStringList;
use cp_terms::Step;
use std::alloc::Global;
use uset_gather::Gathered;

/// A set that a term puts down.
#[derive(Drop)]
pub enum TermSet {
    /// The set with this name.
    Named(Name),
    /// What a bracket gathered.
    Gathered(CodePointInversionListAndStringList),
}

/// A term whose sets have numbers.
#[derive(Drop)]
pub struct NumberedTerm {
    /// The sets. Their numbers are their indices.
    pub sets: Vec<TermSet>,
    /// The steps, over a stack. The set that they leave on top is that of the term. A complement forgets the strings of its set.
    pub steps: Vec<Step>,
}

/// Sets and steps that were numbered.
struct Numbering {
    /// The number of each name.
    places: Places,
    term: NumberedTerm,
}

// By hand, so that letting a value go is one call in each proof.
impl Drop for Numbering {
    fn drop(self) {
        let Self { places: _, term: _ } = self;
    }
}

impl Numbering {
    ghost use Rattle.std.specs.Prelude.{[], IfOk, OnOk};
    ghost use Rattle.std.specs.Prelude.{◌≡◌};
    ghost use Rattle.uset_gather.specs.Gathered.{gathered_in};
    ghost use Rattle.uset_steps.specs.Names.{name_seen, in_meant};
    ghost use Rattle.uset_steps.specs.Numbering.{AreNumbered, Numbers, TakesStep};

    /// None yet.
    fn new(alloc: Global) -> Numbering
        ensures numbered { AreNumbered result }
        ensures steps { result.term.steps.items ≡ [] }
    {
        Numbering {
            places: Places::new(alloc),
            term: NumberedTerm {
                sets: Vec::new(alloc),
                steps: Vec::new(alloc),
            },
        }
    }

    /// The number of a name, which has one from now on.
    fn of_name(&mut self, alloc: Global, name: Name) -> Result<usize, NoMemory>
        ensures { IfOk result (Numbers (λ sets. in_meant sets (name_seen name)) self.old self.new) }
    {
        if let Some(number) = self.places.of(&name) {
            return Ok(number);
        }
        let number = self.term.sets.len();
        self.places.add(name.copy(alloc)?, number)?;
        self.term.sets.push(TermSet::Named(name))?;
        Ok(number)
    }

    /// The number of what was gathered.
    fn of_gathered(&mut self, alloc: Global, set: Gathered) -> Result<usize, NoMemory>
        ensures { IfOk result (Numbers (λ sets. gathered_in set) self.old self.new) }
    {
        let number = self.term.sets.len();
        let set = set.into_set(alloc)?;
        self.term.sets.push(TermSet::Gathered(set))?;
        Ok(number)
    }

    /// Numbers the step, behind the others.
    fn take(&mut self, alloc: Global, step: TermStep) -> Result<(), NoMemory>
        ensures { OnOk result (TakesStep step self.old self.new) }
    {
        let step = match step {
            TermStep::Plain(set) => Step::Push(self.of_gathered(alloc, Box::into_inner(set))?),
            TermStep::Named(name) => Step::Push(self.of_name(alloc, Box::into_inner(name))?),
            TermStep::Both(operation) => Step::Both(operation),
            TermStep::Negate => Step::Complement,
        };
        self.term.steps.push(step)?;
        Ok(())
    }

    /// The term.
    fn into_term(self) -> NumberedTerm
        ensures { result ≡ self.term }
    {
        let Self { places: _, term } = self;
        term
    }
}

impl Term {
    ghost use Rattle.std.specs.Prelude.{◌≡◌, IfOk};
    ghost use Rattle.uset_grammar.specs.Tree.{Member};
    ghost use Rattle.uset_steps.specs.Names.{Sets};
    ghost use Rattle.uset_steps.specs.Terms.{term_in};
    ghost use Rattle.uset_steps.specs.NumberedTerms.{numbered_in};

    /// The term, with numbers for its sets. `NoMemory` says that a request for memory was refused.
    pub fn into_numbered(self, alloc: Global) -> Result<NumberedTerm, NoMemory>
        ensures { IfOk result (λ term. (sets : Sets) (m : Member) → numbered_in sets term m ≡ term_in sets self m) }
    {
        let mut numbering = Numbering::new(alloc);
        for step in self.steps {
            numbering.take(alloc, step)?;
        }
        Ok(numbering.into_term())
    }
}
