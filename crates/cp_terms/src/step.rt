//! The steps of a term.

/// How one set is made of the two on top of the stack, the lower and the upper.
#[derive(Clone, Copy)]
pub enum SetOperation {
    /// The members of either.
    Union,
    /// The lower without the upper.
    Difference,
    /// The members of both.
    Intersection,
    /// The upper without the lower.
    ReverseDifference,
}

impl SetOperation {
    ghost use Rattle.std.specs.Prelude.{◌≡◌, ℕ, ◌<◌};
    ghost use Rattle.cp_terms.specs.Terms.{combined};
    ghost use Rattle.cp_invlist.specs.Words.{has_bit};

    /// Whether the set that is made has a member, by whether the two have it.
    pub(crate) fn combine(self, lower: bool, upper: bool) -> bool
        ensures { result ≡ combined self lower upper }
    {
        match self {
            SetOperation::Union => lower || upper,
            SetOperation::Difference => lower && !upper,
            SetOperation::Intersection => lower && upper,
            SetOperation::ReverseDifference => upper && !lower,
        }
    }

    /// The same for the 64 numbers that words stand for.
    pub(crate) fn combine_words(self, lower: u64, upper: u64) -> u64
        ensures { (j : ℕ) → j < 64 → has_bit result j ≡ combined self (has_bit lower j) (has_bit upper j) }
    {
        match self {
            SetOperation::Union => lower | upper,
            SetOperation::Difference => lower & !upper,
            SetOperation::Intersection => lower & upper,
            SetOperation::ReverseDifference => upper & !lower,
        }
    }
}

/// A step of a term, over a stack of sets (reverse Polish notation).
#[derive(Clone, Copy)]
pub enum Step {
    /// Puts down the set with this index, the empty set where there is none.
    Push(usize),
    /// Makes one set of the two on top. Where there are fewer, nothing is done.
    Both(SetOperation),
    /// Exchanges the members of the set on top and the other code points. Where there is none, nothing is done.
    Complement,
    /// Empties the set on top. Where there is none, nothing is done.
    Clear,
}
