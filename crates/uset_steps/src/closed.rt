//! Sets of brackets that are closed.
use crate::term::Term;
use cp_invlist::NoMemory;
use std::alloc::Global;
use uset_gather::Gathered;

/// The set of a bracket that is closed.
#[derive(Drop)]
pub enum Closed {
    /// As it was gathered.
    Plain(Gathered),
    /// As a term, since sets with so many ranges or strings are named in it that each is gathered once for the whole pattern.
    Term(Box<Term>),
}

impl Closed {
    ghost use Rattle.std.specs.Prelude.{◌≡◌, IfOk};
    ghost use Rattle.uset_grammar.specs.Tree.{Member, negation};
    ghost use Rattle.uset_steps.specs.Names.{Sets};
    ghost use Rattle.uset_steps.specs.Terms.{closed_in};

    /// Whether the set is left as a term.
    pub(crate) fn is_term(&self) -> bool {
        matches!(self, Closed::Term(_))
    }

    /// The other code points, and no strings.
    pub(crate) fn negated(self, alloc: Global) -> Result<Closed, NoMemory>
        ensures { IfOk result
            (λ set. (sets : Sets) (m : Member) → closed_in sets set m ≡ negation m (closed_in sets self m)) }
    {
        match self {
            Closed::Plain(mut set) => {
                set.negate(alloc);
                Ok(Closed::Plain(set))
            }
            Closed::Term(term) => {
                let term = Box::into_inner(term).negated()?;
                Ok(Closed::Term(Box::new(alloc, term)?))
            }
        }
    }
}
