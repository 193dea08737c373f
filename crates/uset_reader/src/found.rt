//! Sets of terms that were looked up.
ghost use Rattle.std.specs.Prelude.{◌≡◌, ℕ, List};
ghost use Rattle.cp_strset_terms.specs.Leaves.{FitsNumbers};
ghost use Rattle.uset_reader.specs.Evaluation.{lists_of_leaf, lists_of_named};

use cp_invlist::CodePointInversionList;
use cp_strset::CodePointInversionListAndStringList;
use cp_strset_terms::{Leaf, NumberSet};
use uset_steps::NamedSet;

/// A set that a term puts down, once its name was looked up.
pub(crate) enum FoundSet<'v> {
    /// The set that a name stands for.
    Named(NamedSet<'v>),
    /// The set of a variable, with the numbers of its strings.
    Numbered(&'v CodePointInversionListAndStringList, &'v NumberSet),
    /// A set without a name.
    Gathered(CodePointInversionListAndStringList),
}

// By hand, so that letting a value go is one call in each proof.
impl Drop for FoundSet<'_> {
    fn drop(self) {
        match self {
            FoundSet::Named(_) => {}
            FoundSet::Numbered(_, _) => {}
            FoundSet::Gathered(_) => {}
        }
    }
}

/// The lists of the set, or of the one whose other code points it has.
fn leaf_of_named<'f>(set: &'f NamedSet<'_>) -> Leaf<'f>
    ensures lists { lists_of_leaf result ≡ lists_of_named set.now }
    ensures fits { (all : List (List ℕ)) → FitsNumbers all result }
{
    match set {
        NamedSet::Set(set) => Leaf::WithStrings(set),
        NamedSet::CodePoints(source) | NamedSet::Complement(source) => Leaf::CodePoints(
            source.list(),
        ),
    }
}

impl FoundSet<'_> {
    ghost use Rattle.std.specs.Prelude.{◌≡◌, ℕ, List};
    ghost use Rattle.cp_invlist.specs.InversionList.{IsInversionList};
    ghost use Rattle.cp_strset_terms.specs.Leaves.{FitsNumbers};
    ghost use Rattle.uset_reader.specs.Evaluation.{lists_of_leaf, lists_of_found, is_complement, FoundFits};

    /// The code points of the set, or of the one whose other code points it has.
    fn code_points(&self) -> &CodePointInversionList
        ensures list { result.now ≡ (lists_of_found self.now).code_points }
    {
        match self {
            FoundSet::Named(NamedSet::Set(set)) => set.code_points(),
            FoundSet::Named(NamedSet::CodePoints(source) | NamedSet::Complement(source)) =>
                source.list(),
            FoundSet::Numbered(set, _) => set.code_points(),
            FoundSet::Gathered(set) => set.code_points(),
        }
    }

    /// The lists of the set, or of the one whose other code points it has.
    pub(crate) fn leaf(&self) -> Leaf<'_>
        ensures lists { lists_of_leaf result ≡ lists_of_found self.now }
        ensures canonical { IsInversionList (lists_of_found self.now).code_points }
        ensures fits { (all : List (List ℕ)) → FoundFits all self.now → FitsNumbers all result }
    {
        // Only the list's own call says that it is canonical.
        let _ = self.code_points().get_inversion_list();
        match self {
            FoundSet::Named(set) => leaf_of_named(set),
            FoundSet::Numbered(set, numbers) => Leaf::Numbered(set, numbers),
            FoundSet::Gathered(set) => Leaf::WithStrings(set),
        }
    }

    /// Whether the set has the other code points.
    pub(crate) fn is_complement(&self) -> bool
        ensures { result ≡ is_complement self.now }
    {
        matches!(self, FoundSet::Named(NamedSet::Complement(_)))
    }
}
