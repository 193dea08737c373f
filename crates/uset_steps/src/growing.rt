//! Sets that grow by the steps that were put off.
ghost use Rattle.std.specs.Prelude.{◌≡◌, ◌||◌, Bool, IfOk};
ghost use Rattle.std.specs.Bool.{OnTrue};
ghost use Rattle.uset_grammar.specs.Tree.{Member};
ghost use Rattle.uset_gather.specs.Gathered.{gathered_in, operand_in};
ghost use Rattle.uset_steps.specs.Operations.{operated};

use crate::closed::Closed;
use crate::literal::{Span, Spelled};
use crate::named_set::Named;
use crate::step::{Operation, Step, gather};
use crate::term::Term;
use cp_invlist::NoMemory;
use std::alloc::Global;
use uset_gather::{Gathered, Operand};

/// A set that grows by the steps of a bracket. What names no very large set is gathered at once, as long as it's gathered alike.
#[derive(Drop)]
pub(crate) enum Growing {
    /// All was gathered.
    Plain(Gathered),
    /// A term.
    Term(Term),
    /// A term, into which what was gathered behind it is gathered so.
    Both(Term, Operation, Gathered),
}

/// Whether gathering one set and then another so is gathering all that either has.
fn joins(first: Operation, second: Operation) -> bool
    ensures { OnTrue result ((a b c : Bool) → operated second b (operated first a c) ≡ operated first (a || b) c) }
{
    matches!(
        (first, second),
        (Operation::Join, Operation::Join) | (Operation::Remove, Operation::Remove)
    )
}

/// What the operand has.
fn alone(alloc: Global, operand: Operand<'_>) -> Result<Gathered, NoMemory>
    ensures { IfOk result (λ set. (m : Member) → gathered_in set m ≡ operand_in operand.entry m) }
{
    let mut set = Gathered::new(alloc);
    set.join(alloc, operand)?;
    Ok(set)
}

impl Growing {
    ghost use Rattle.std.specs.Prelude.{◌≡◌, ◌||◌, All, IfOk};
    ghost use Rattle.std.specs.String.{string_bytes};
    ghost use Rattle.uset_grammar.specs.Tree.{Member, in_range};
    ghost use Rattle.uset_gather.specs.Gathered.{operand_in, is_string};
    ghost use Rattle.uset_steps.specs.Names.{Sets, IsSetOf, named_in};
    ghost use Rattle.uset_steps.specs.Operations.{operated};
    ghost use Rattle.uset_steps.specs.Steps.{step_done};
    ghost use Rattle.uset_steps.specs.Terms.{term_in, closed_in, growing_in};

    /// The set as a term.
    fn into_term(self, alloc: Global) -> Result<Term, NoMemory>
        ensures { IfOk result (λ term. (sets : Sets) (m : Member) → term_in sets term m ≡ growing_in sets self m) }
    {
        match self {
            Growing::Plain(set) => Term::of_gathered(alloc, set),
            Growing::Term(term) => Ok(term),
            Growing::Both(term, operation, set) => term.with(
                operation,
                Term::of_gathered(alloc, set)?,
            ),
        }
    }

    /// Gathers a term.
    fn with_term(self, alloc: Global, operation: Operation, term: Term) -> Result<Growing, NoMemory>
        ensures { IfOk result (λ new. (sets : Sets) (m : Member) →
            growing_in sets new m ≡ operated operation (term_in sets term m) (growing_in sets self m)) }
    {
        let whole = self.into_term(alloc)?.with(operation, term)?;
        Ok(Growing::Term(whole))
    }

    /// Gathers what names no very large set.
    fn with_plain(
        self,
        alloc: Global,
        operation: Operation,
        operand: Operand<'_>,
    ) -> Result<Growing, NoMemory>
        ensures { IfOk result (λ new. (sets : Sets) (m : Member) →
            growing_in sets new m ≡ operated operation (operand_in operand.entry m) (growing_in sets self m)) }
    {
        match self {
            Growing::Plain(mut set) => {
                gather(alloc, &mut set, operation, operand)?;
                Ok(Growing::Plain(set))
            }
            Growing::Both(term, before, mut set) if joins(before, operation) => {
                set.join(alloc, operand)?;
                Ok(Growing::Both(term, before, set))
            }
            growing => {
                let term = growing.into_term(alloc)?;
                Ok(Growing::Both(term, operation, alone(alloc, operand)?))
            }
        }
    }

    /// Adds the range.
    fn with_range(self, alloc: Global, span: Span) -> Result<Growing, NoMemory>
        ensures { IfOk result (λ new. (sets : Sets) (m : Member) →
            growing_in sets new m ≡ (growing_in sets self m || in_range span.range.start span.range.end m)) }
    {
        match self {
            Growing::Plain(mut set) => {
                set.add_range(span.range)?;
                Ok(Growing::Plain(set))
            }
            growing => {
                let mut set = Gathered::new(alloc);
                set.add_range(span.range)?;
                growing.with_plain(alloc, Operation::Join, Operand::Gathered(set))
            }
        }
    }

    /// Adds the string.
    fn with_text(self, alloc: Global, spelled: Spelled) -> Result<Growing, NoMemory>
        ensures { IfOk result (λ new. (sets : Sets) (m : Member) →
            growing_in sets new m ≡ (growing_in sets self m || is_string (string_bytes spelled.text) m)) }
    {
        match self {
            Growing::Plain(mut set) => {
                set.add_text(spelled.text)?;
                Ok(Growing::Plain(set))
            }
            growing => {
                let mut set = Gathered::new(alloc);
                set.add_text(spelled.text)?;
                growing.with_plain(alloc, Operation::Join, Operand::Gathered(set))
            }
        }
    }

    /// Gathers the set of another bracket.
    fn with_closed(
        self,
        alloc: Global,
        operation: Operation,
        set: Closed,
    ) -> Result<Growing, NoMemory>
        ensures { IfOk result (λ new. (sets : Sets) (m : Member) →
            growing_in sets new m ≡ operated operation (closed_in sets set m) (growing_in sets self m)) }
    {
        match set {
            Closed::Plain(set) => self.with_plain(alloc, operation, Operand::Gathered(set)),
            Closed::Term(term) => self.with_term(alloc, operation, Box::into_inner(term)),
        }
    }

    /// Gathers a set that is kept. With `named` it becomes the leaf of a term.
    fn with_kept(
        self,
        alloc: Global,
        operation: Operation,
        set: &Named<'_>,
        named: bool,
    ) -> Result<Growing, NoMemory>
        ensures { IfOk result (λ new. (meant : Sets) → IsSetOf meant set.now → (m : Member) →
            growing_in meant new m ≡ operated operation (named_in set.now.set m) (growing_in meant self m)) }
    {
        if named {
            let term = Term::of_name(alloc, set.name.copy(alloc)?)?;
            self.with_term(alloc, operation, term)
        } else {
            self.with_plain(alloc, operation, set.set.operand())
        }
    }

    /// Does the step. With `named` the sets that it names become leaves of a term.
    pub(crate) fn with_step(
        self,
        alloc: Global,
        step: Step,
        sets: &[Named<'_>],
        named: bool,
    ) -> Result<Growing, NoMemory>
        ensures { IfOk result (λ new. (meant : Sets) → All (IsSetOf meant) sets.now → (m : Member) →
            growing_in meant new m ≡ step_done meant sets.now step m (growing_in meant self m)) }
    {
        match step {
            Step::Range(span) => self.with_range(alloc, span),
            Step::Text(spelled) => self.with_text(alloc, Box::into_inner(spelled)),
            Step::Set(operation, set) => self.with_closed(alloc, operation, Box::into_inner(set)),
            Step::Named(operation, place) => match sets.get(place) {
                Some(set) => self.with_kept(alloc, operation, set, named),
                None => Ok(self),
            },
        }
    }

    /// The set, which is a term where one was gathered.
    pub(crate) fn finish(self, alloc: Global) -> Result<Closed, NoMemory>
        ensures { IfOk result (λ set. (sets : Sets) (m : Member) → closed_in sets set m ≡ growing_in sets self m) }
    {
        match self {
            Growing::Plain(set) => Ok(Closed::Plain(set)),
            growing => Ok(Closed::Term(Box::new(alloc, growing.into_term(alloc)?)?)),
        }
    }
}
