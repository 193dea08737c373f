//! The sets that a term names.
ghost use Rattle.std.specs.Prelude.{◌≡◌, IfOk, map};
ghost use Rattle.std.specs.String.{string_bytes};
ghost use Rattle.cp_strset.specs.StringList.{AreCanonical};
ghost use Rattle.cp_strset_terms.specs.Leaves.{code_points_of, strings_of, is_numbered};

use crate::number_set::NumberSet;
use cp_invlist::{CodePointInversionList, NoMemory};
use cp_strset::CodePointInversionListAndStringList;
use std::alloc::Global;

/// A set that a term names by its index.
#[derive(Clone, Copy)]
pub enum Leaf<'a> {
    /// Code points, and no strings.
    CodePoints(&'a CodePointInversionList),
    /// Code points and strings.
    WithStrings(&'a CodePointInversionListAndStringList),
    /// The same, with the numbers of the strings.
    Numbered(&'a CodePointInversionListAndStringList, &'a NumberSet),
}

impl<'a> Leaf<'a> {
    /// The code points.
    fn code_points(&self) -> &'a CodePointInversionList
        ensures { result.now ≡ code_points_of self.now }
    {
        match *self {
            Leaf::CodePoints(list) => list,
            Leaf::WithStrings(set) | Leaf::Numbered(set, _) => set.code_points(),
        }
    }

    /// The strings, in order.
    pub(crate) fn strings(&self) -> &'a [String]
        ensures bytes { map string_bytes result.now ≡ strings_of self.now }
        ensures canonical { AreCanonical (strings_of self.now) }
    {
        match *self {
            Leaf::CodePoints(_) => &[],
            Leaf::WithStrings(set) | Leaf::Numbered(set, _) => set.strings(),
        }
    }

    /// Whether the strings have numbers.
    pub(crate) fn is_numbered(&self) -> bool
        ensures { result ≡ is_numbered self.now }
    {
        matches!(self, Leaf::Numbered(_, _))
    }
}

/// The code points of each leaf.
pub(crate) fn code_point_lists<'a>(
    alloc: Global,
    leaves: &[Leaf<'a>],
) -> Result<Vec<&'a CodePointInversionList>, NoMemory>
    ensures { IfOk result (λ lists. map (λ list. list.now) lists.items ≡ map code_points_of leaves.now) }
{
    let mut lists = Vec::with_capacity(alloc, leaves.len())?;
    for leaf in leaves {
        lists.push(leaf.code_points())?;
    }
    Ok(lists)
}
