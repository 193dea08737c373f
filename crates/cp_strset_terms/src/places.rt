//! The strings of a leaf as a set of their places in a list of strings.
ghost use Rattle.std.specs.Prelude.{◌≡◌, ◌<◌, ◌≤◌, ◌↔◌, ℕ, List, All, Some, IfOk, length, map};
ghost use Rattle.std.specs.String.{string_bytes};
ghost use Rattle.cp_invlist.specs.InversionList.{contains};
ghost use Rattle.cp_strset.specs.StringList.{AreCanonical, holds};
ghost use Rattle.cp_terms.specs.Terms.{holds_at};
ghost use Rattle.cp_strset_terms.specs.Leaves.{leaf_holds};
ghost use Rattle.cp_strset_terms.specs.Cut.{IsNotBelow};
ghost use Rattle.cp_strset_terms.specs.Places.{texts, IsAt};

use crate::cut::{strings_among, strings_from};
use crate::leaf::Leaf;
use cp_invlist::{CodePointInversionList, CodePointInversionListBuilder, NoMemory};
use std::alloc::Global;

/// The place of the text in the list.
fn place_of(list: &[&str], text: &str) -> Option<usize>
    requires { AreCanonical (texts list.now) }
    ensures { (place : ℕ) → (result ≡ Some place) ↔ IsAt (texts list.now) place text.now }
{
    list.binary_search(&text).ok()
}

/// Whether the text is the first of the strings, none of which is below it.
fn begins_with(strings: &[String], text: &str) -> bool
    requires canonical { AreCanonical (map string_bytes strings.now) }
    requires behind { All (IsNotBelow text.now) strings.now }
    ensures { result ≡ holds (map string_bytes strings.now) text.now }
{
    match strings.first() {
        Some(first) => first.as_str() == text,
        None => false,
    }
}

/// The places in the list of those of the strings that it has, each looked up in the list.
fn places_by_strings(
    alloc: Global,
    list: &[&str],
    strings: &[String],
) -> Result<CodePointInversionList, NoMemory>
    requires canonical { AreCanonical (texts list.now) }
    requires numbered { length list.now ≤ 0x11_0000 }
    ensures { IfOk result (λ places. (place : ℕ) (text : List ℕ) →
        IsAt (texts list.now) place text →
        contains places place ≡ holds (map string_bytes strings.now) text) }
{
    let mut places = CodePointInversionListBuilder::new(alloc);
    for string in strings {
        if let Some(place) = place_of(list, string.as_str()) {
            places.add32(place as u32)?;
        }
    }
    Ok(places.build())
}

/// The places of those texts of the list that are among the strings. It goes along both.
fn places_by_texts(
    alloc: Global,
    list: &[&str],
    strings: &[String],
) -> Result<CodePointInversionList, NoMemory>
    requires list { AreCanonical (texts list.now) }
    requires strings { AreCanonical (map string_bytes strings.now) }
    requires numbered { length list.now ≤ 0x11_0000 }
    ensures { IfOk result (λ places. (place : ℕ) (text : List ℕ) →
        IsAt (texts list.now) place text →
        contains places place ≡ holds (map string_bytes strings.now) text) }
{
    let mut places = CodePointInversionListBuilder::new(alloc);
    let mut rest = strings;
    for (index, text) in list.iter().enumerate() {
        rest = strings_from(rest, text);
        if begins_with(rest, text) {
            places.add32(index as u32)?;
        }
    }
    Ok(places.build())
}

/// How many times longer a list is that is not gone along, since looking each string up takes less.
const LOOKED_UP: usize = 16;

/// The places in the list of those of the strings that it has. Few strings are looked up in it.
fn places_of(
    alloc: Global,
    list: &[&str],
    strings: &[String],
) -> Result<CodePointInversionList, NoMemory>
    requires list { AreCanonical (texts list.now) }
    requires strings { AreCanonical (map string_bytes strings.now) }
    requires numbered { length list.now ≤ 0x11_0000 }
    ensures { IfOk result (λ places. (place : ℕ) (text : List ℕ) →
        IsAt (texts list.now) place text →
        contains places place ≡ holds (map string_bytes strings.now) text) }
{
    let among = strings_among(list, strings);
    if among.len() < list.len() / LOOKED_UP {
        places_by_strings(alloc, list, among)
    } else {
        places_by_texts(alloc, list, among)
    }
}

/// For each leaf the places of its strings.
pub(crate) fn places_of_leaves(
    alloc: Global,
    list: &[&str],
    leaves: &[Leaf<'_>],
) -> Result<Vec<CodePointInversionList>, NoMemory>
    requires canonical { AreCanonical (texts list.now) }
    requires numbered { length list.now ≤ 0x11_0000 }
    ensures { IfOk result (λ sets. (place : ℕ) (text : List ℕ) → IsAt (texts list.now) place text →
        (index : ℕ) → holds_at sets.items place index ≡ leaf_holds leaves.now text index) }
{
    let mut sets = Vec::with_capacity(alloc, leaves.len())?;
    for leaf in leaves {
        sets.push(places_of(alloc, list, leaf.strings())?)?;
    }
    Ok(sets)
}
