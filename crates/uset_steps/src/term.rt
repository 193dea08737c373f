//! Terms: sets of brackets that name very large sets, which are not gathered before the whole pattern is read.
ghost use Rattle.uset_steps.specs.TermSteps.{MakesOne};

use crate::name::Name;
use cp_terms::SetOperation;
use uset_gather::Gathered;

/// A step of a term, over a stack of sets.
#[derive(Drop)]
pub(crate) enum TermStep {
    /// Puts down what a bracket gathered.
    Plain(Box<Gathered>),
    /// Puts down the set with this name.
    Named(Box<Name>),
    /// Makes one of the two sets on top.
    Both(SetOperation),
    /// Exchanges the members of the set on top and the other code points, and forgets its strings.
    Negate,
}

/// A set as steps over a stack, on which they leave it above what was there.
#[derive(Drop)]
pub struct Term {
    pub(crate) steps: Vec<TermStep>,
    ghost one: { MakesOne steps.items },
}
