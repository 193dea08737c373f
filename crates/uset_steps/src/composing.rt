//! Terms that are made of others.
use crate::name::Name;
use crate::step::Operation;
use crate::term::{Term, TermStep};
use cp_invlist::NoMemory;
use cp_terms::SetOperation;
use std::alloc::Global;
use uset_gather::Gathered;

impl Operation {
    ghost use Rattle.std.specs.Prelude.{◌≡◌, Bool};
    ghost use Rattle.cp_terms.specs.Terms.{combined};
    ghost use Rattle.uset_steps.specs.Operations.{operated};

    /// How the upper of two sets is gathered into the lower.
    fn of_upper(self) -> SetOperation
        ensures { (lower upper : Bool) → combined result lower upper ≡ operated self upper lower }
    {
        match self {
            Operation::Join => SetOperation::Union,
            Operation::Remove => SetOperation::Difference,
            Operation::Retain => SetOperation::Intersection,
        }
    }

    /// How the lower of two sets is gathered into the upper.
    fn of_lower(self) -> SetOperation
        ensures { (lower upper : Bool) → combined result lower upper ≡ operated self lower upper }
    {
        match self {
            Operation::Join => SetOperation::Union,
            Operation::Remove => SetOperation::ReverseDifference,
            Operation::Retain => SetOperation::Intersection,
        }
    }
}

impl Term {
    ghost use Rattle.std.specs.Prelude.{◌≡◌, IfOk};
    ghost use Rattle.cp_terms.specs.Terms.{combined};
    ghost use Rattle.uset_grammar.specs.Tree.{Member, negation};
    ghost use Rattle.uset_gather.specs.Gathered.{gathered_in};
    ghost use Rattle.uset_steps.specs.Names.{Sets, name_seen, in_meant};
    ghost use Rattle.uset_steps.specs.Operations.{operated};
    ghost use Rattle.uset_steps.specs.TermSteps.{put_down, PutsDown};
    ghost use Rattle.uset_steps.specs.Terms.{term_in};

    /// The term of one step that puts a set down.
    fn of_step(alloc: Global, step: TermStep) -> Result<Term, NoMemory>
        requires { PutsDown step }
        ensures { IfOk result (λ term. (sets : Sets) (m : Member) → term_in sets term m ≡ put_down sets step m) }
    {
        let mut steps = Vec::new(alloc);
        steps.push(step)?;
        Ok(Term { steps })
    }

    /// What a bracket gathered.
    pub(crate) fn of_gathered(alloc: Global, set: Gathered) -> Result<Term, NoMemory>
        ensures { IfOk result (λ term. (sets : Sets) (m : Member) → term_in sets term m ≡ gathered_in set m) }
    {
        Term::of_step(alloc, TermStep::Plain(Box::new(alloc, set)?))
    }

    /// The set with this name.
    pub(crate) fn of_name(alloc: Global, name: Name) -> Result<Term, NoMemory>
        ensures { IfOk result
            (λ term. (sets : Sets) (m : Member) → term_in sets term m ≡ in_meant sets (name_seen name) m) }
    {
        Term::of_step(alloc, TermStep::Named(Box::new(alloc, name)?))
    }

    /// Both, the other above this one.
    fn below(self, operation: SetOperation, upper: Term) -> Result<Term, NoMemory>
        ensures { IfOk result (λ term. (sets : Sets) (m : Member) →
            term_in sets term m ≡ combined operation (term_in sets self m) (term_in sets upper m)) }
    {
        let mut steps = self.steps;
        let mut more = upper.steps;
        steps.append(&mut more)?;
        steps.push(TermStep::Both(operation))?;
        Ok(Term { steps })
    }

    /// This set, into which the other was gathered. The shorter term is put behind the longer.
    pub(crate) fn with(self, operation: Operation, other: Term) -> Result<Term, NoMemory>
        ensures { IfOk result (λ term. (sets : Sets) (m : Member) →
            term_in sets term m ≡ operated operation (term_in sets other m) (term_in sets self m)) }
    {
        if self.steps.len() < other.steps.len() {
            other.below(operation.of_lower(), self)
        } else {
            self.below(operation.of_upper(), other)
        }
    }

    /// The other code points, and no strings.
    pub(crate) fn negated(self) -> Result<Term, NoMemory>
        ensures { IfOk result
            (λ term. (sets : Sets) (m : Member) → term_in sets term m ≡ negation m (term_in sets self m)) }
    {
        let mut steps = self.steps;
        steps.push(TermStep::Negate)?;
        Ok(Term { steps })
    }
}
