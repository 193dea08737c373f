//! Texts among which are all strings of a term: where numbers tell that it has few, these and those of leaves without numbers.
ghost use Rattle.std.specs.Prelude.{◌≡◌, ◌≢◌, ◌/◌, ◌%◌, ℕ, true, false, List, All, IfOk, OnOk, length, map};
ghost use Rattle.std.specs.List.{flat_map};
ghost use Rattle.std.specs.Str.{chars};
ghost use Rattle.std.specs.String.{string_bytes};
ghost use Rattle.cp_invlist.specs.InversionList.{contains};
ghost use Rattle.cp_invlist.specs.Ranges.{in_range};
ghost use Rattle.cp_strset.specs.StringList.{AreCanonical, holds};
ghost use Rattle.cp_terms.specs.Terms.{value_of};
ghost use Rattle.cp_strset_terms.specs.Leaves.{leaf_holds, strings_of, FitsNumbers};
ghost use Rattle.cp_strset_terms.specs.NumberSets.{has_number};
ghost use Rattle.cp_strset_terms.specs.Places.{texts, IsAt};

use crate::leaf::Leaf;
use crate::leaf_numbers::numbers_of_term;
use crate::number_set::{NumberSet, PIECE};
use crate::string_numbers::StringNumbers;
use crate::table::{gathered_strings, in_order, push_strings, string_table};
use cp_invlist::laws::ranges_hold_members;
use cp_invlist::{CodePointInversionList, CodePointRange, NoMemory};
use cp_terms::Step;
use std::alloc::Global;

/// A term has few strings where its candidates have so many times as many, or where it has no more than so many.
const FEW: usize = 16;

/// How many strings the leaves have together.
fn count_strings(leaves: &[Leaf<'_>]) -> usize {
    leaves.iter().fold(
        0,
        |count: usize, leaf| count.saturating_add(leaf.strings().len()),
    )
}

/// How many strings the leaves without numbers have together.
fn count_looked_up(leaves: &[Leaf<'_>]) -> usize {
    leaves.iter().filter(|leaf| !leaf.is_numbered()).fold(
        0,
        |count: usize, leaf| count.saturating_add(leaf.strings().len()),
    )
}

/// The leaves without numbers.
fn unnumbered<'a>(alloc: Global, leaves: &[Leaf<'a>]) -> Result<Vec<Leaf<'a>>, NoMemory>
    ensures { IfOk result (λ rest. (all : List (List ℕ)) (bytes : List ℕ) → All (FitsNumbers all) leaves.now →
        holds all bytes ≡ false → holds (flat_map strings_of leaves.now) bytes ≡ true →
        holds (flat_map strings_of rest.items) bytes ≡ true) }
{
    let mut rest = Vec::new(alloc);
    for leaf in leaves {
        if !leaf.is_numbered() {
            rest.push(*leaf)?;
        }
    }
    Ok(rest)
}

/// Whether numbers are worth a look: some candidate has them, and no more strings are to be looked up than gone along else.
fn are_worth(leaves: &[Leaf<'_>], candidates: &[Leaf<'_>]) -> bool {
    candidates.iter().any(Leaf::is_numbered) && count_looked_up(leaves) <= count_strings(candidates)
}

/// The strings at the places of the range, as far as there are any.
fn stretch(strings: &[String], range: CodePointRange) -> &[String]
    ensures held { (number : ℕ) (text : List ℕ) → IsAt (map string_bytes strings.now) number text →
        in_range range number ≡ true → holds (map string_bytes result.now) text ≡ true }
    ensures none_of_one { All (λ s. length (chars s) ≢ 1) (map string_bytes strings.now) →
        All (λ s. length (chars s) ≢ 1) (map string_bytes result.now) }
{
    let end = strings.len().min(range.end as usize + 1);
    let start = end.min(range.start as usize);
    &strings[start..end]
}

/// Puts the strings at these places behind the others.
fn push_placed<'a>(
    table: &mut Vec<&'a str>,
    strings: &'a [String],
    places: &CodePointInversionList,
) -> Result<(), NoMemory>
    ensures held { OnOk result ((text : List ℕ) →
        holds (texts table.old.items) text ≡ true → holds (texts table.new.items) text ≡ true) }
    ensures placed { OnOk result ((place : ℕ) (text : List ℕ) → IsAt (map string_bytes strings.now) place text →
        contains places.now place ≡ true → holds (texts table.new.items) text ≡ true) }
    ensures none_of_one { OnOk result (All (λ s. length (chars s) ≢ 1) (texts table.old.items) →
        All (λ s. length (chars s) ≢ 1) (map string_bytes strings.now) →
        All (λ s. length (chars s) ≢ 1) (texts table.new.items)) }
{
    ranges_hold_members();
    for range in places.iter_ranges() {
        push_strings(table, stretch(strings, range))?;
    }
    Ok(())
}

/// The strings from the front of the piece with the index on.
fn strings_from_piece(strings: &[String], index: usize) -> &[String]
    ensures numbered { (number : ℕ) (text : List ℕ) → number / 0x11_0000 ≡ index →
        IsAt (map string_bytes strings.now) number text →
        IsAt (map string_bytes result.now) (number % 0x11_0000) text }
    ensures none_of_one { All (λ s. length (chars s) ≢ 1) (map string_bytes strings.now) →
        All (λ s. length (chars s) ≢ 1) (map string_bytes result.now) }
{
    let start = index.saturating_mul(PIECE).min(strings.len());
    &strings[start..]
}

/// Puts the strings with these numbers behind the others.
fn push_numbered<'a>(
    table: &mut Vec<&'a str>,
    strings: &'a [String],
    numbers: &NumberSet,
) -> Result<(), NoMemory>
    ensures held { OnOk result ((text : List ℕ) →
        holds (texts table.old.items) text ≡ true → holds (texts table.new.items) text ≡ true) }
    ensures numbered { OnOk result ((number : ℕ) (text : List ℕ) → IsAt (map string_bytes strings.now) number text →
        has_number numbers.now number ≡ true → holds (texts table.new.items) text ≡ true) }
    ensures none_of_one { OnOk result (All (λ s. length (chars s) ≢ 1) (texts table.old.items) →
        All (λ s. length (chars s) ≢ 1) (map string_bytes strings.now) →
        All (λ s. length (chars s) ≢ 1) (texts table.new.items)) }
{
    for (index, piece) in numbers.pieces().iter().enumerate() {
        push_placed(table, strings_from_piece(strings, index), piece)?;
    }
    Ok(())
}

/// Whether the term with these numbers has few strings. These are cheap to gather, however long those of the candidates are.
fn are_few(numbers: &NumberSet, candidates: &[Leaf<'_>]) -> bool {
    let count = numbers.size();
    count <= FEW || count < count_strings(candidates) / FEW
}

/// Texts in order among which are all strings of the term, where all of these are among those of the candidates.
pub(crate) fn table_of_term<'a>(
    alloc: Global,
    all: &'a StringNumbers,
    leaves: &[Leaf<'a>],
    candidates: &[Leaf<'a>],
    steps: &[Step],
) -> Result<Vec<&'a str>, NoMemory>
    requires leaves { All (FitsNumbers all.now) leaves.now }
    requires candidates { All (FitsNumbers all.now) candidates.now }
    ensures canonical { IfOk result (λ table. AreCanonical (texts table.items)) }
    ensures complete { IfOk result (λ table. (text : List ℕ) →
        value_of (leaf_holds leaves.now text) steps.now ≡ true →
        holds (flat_map strings_of candidates.now) text ≡ true → holds (texts table.items) text ≡ true) }
{
    if !are_worth(leaves, candidates) {
        return string_table(alloc, candidates);
    }
    let numbers = numbers_of_term(alloc, all, leaves, steps)?;
    if !are_few(&numbers, candidates) {
        return string_table(alloc, candidates);
    }
    let mut table = gathered_strings(alloc, &unnumbered(alloc, candidates)?)?;
    push_numbered(&mut table, all.texts(), &numbers)?;
    Ok(in_order(table))
}
