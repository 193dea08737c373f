//! All strings of some leaves.
ghost use Rattle.std.specs.Prelude.{◌≡◌, ◌≢◌, ◌++◌, ℕ, List, All, IfOk, OnOk, length, map};
ghost use Rattle.std.specs.List.{flat_map};
ghost use Rattle.std.specs.Str.{chars};
ghost use Rattle.std.specs.String.{string_bytes};
ghost use Rattle.cp_strset.specs.StringList.{AreCanonical, holds};
ghost use Rattle.cp_strset_terms.specs.Leaves.{strings_of};
ghost use Rattle.cp_strset_terms.specs.Places.{texts};

use crate::leaf::Leaf;
use cp_invlist::NoMemory;
use std::alloc::Global;

/// All strings of the leaves, each once, in order.
pub(crate) fn string_table<'a>(alloc: Global, leaves: &[Leaf<'a>]) -> Result<Vec<&'a str>, NoMemory>
    ensures canonical { IfOk result (λ table. AreCanonical (texts table.items)) }
    ensures complete { IfOk result (λ table. (bytes : List ℕ) →
        holds (texts table.items) bytes ≡ holds (flat_map strings_of leaves.now) bytes) }
{
    Ok(in_order(gathered_strings(alloc, leaves)?))
}

/// The texts in order, each once.
pub(crate) fn in_order(mut table: Vec<&str>) -> Vec<&str>
    requires { All (λ s. length (chars s) ≢ 1) (texts table.items) }
    ensures canonical { AreCanonical (texts result.items) }
    ensures same { (bytes : List ℕ) → holds (texts result.items) bytes ≡ holds (texts table.entry.items) bytes }
{
    table.sort_unstable();
    table.dedup();
    table
}

/// The strings of each leaf, one leaf behind another.
pub(crate) fn gathered_strings<'a>(
    alloc: Global,
    leaves: &[Leaf<'a>],
) -> Result<Vec<&'a str>, NoMemory>
    ensures strings { IfOk result (λ table. texts table.items ≡ flat_map strings_of leaves.now) }
    ensures none_of_one { OnOk result (All (λ s. length (chars s) ≢ 1) (flat_map strings_of leaves.now)) }
{
    let mut table = Vec::new(alloc);
    for leaf in leaves {
        push_strings(&mut table, leaf.strings())?;
    }
    Ok(table)
}

/// Puts the strings behind the others.
pub(crate) fn push_strings<'a>(
    table: &mut Vec<&'a str>,
    strings: &'a [String],
) -> Result<(), NoMemory>
    ensures { OnOk result (texts table.new.items ≡
        texts table.old.items ++ map string_bytes strings.now) }
{
    for string in strings {
        table.push(string.as_str())?;
    }
    Ok(())
}
