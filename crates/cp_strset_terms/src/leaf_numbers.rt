//! The strings of a term as a set of numbers, by the numbers of the strings of its leaves.
ghost use Rattle.std.specs.Prelude.{◌≡◌, ◌<◌, ◌/◌, ◌%◌, ℕ, All, List, [], IfOk, map};
ghost use Rattle.std.specs.String.{string_bytes};
ghost use Rattle.cp_invlist.specs.InversionList.{contains};
ghost use Rattle.cp_strset.specs.StringList.{holds};
ghost use Rattle.cp_terms.specs.Terms.{value_of};
ghost use Rattle.cp_strset_terms.specs.LeafNumbers.{numbers_seen, pieces_seen, has_number_at};
ghost use Rattle.cp_strset_terms.specs.Leaves.{leaf_holds, strings_of, FitsNumbers};
ghost use Rattle.cp_strset_terms.specs.NumberSets.{has_number};
ghost use Rattle.cp_strset_terms.specs.Places.{IsAt};

use crate::leaf::Leaf;
use crate::number_set::NumberSet;
use crate::string_numbers::StringNumbers;
use cp_invlist::{CodePointInversionList, CodePointInversionListBuilder, NoMemory};
use cp_terms::Step;
use std::alloc::Global;

/// The numbers of the strings of a leaf.
#[derive(Drop)]
enum LeafNumbers<'a> {
    /// Those that the leaf has.
    Kept(&'a NumberSet),
    /// Those of its strings that have one, each looked up.
    LookedUp(NumberSet),
}

impl LeafNumbers<'_> {
    fn set(&self) -> &NumberSet
        ensures { result.now ≡ numbers_seen self.now }
    {
        match self {
            LeafNumbers::Kept(set) => set,
            LeafNumbers::LookedUp(set) => set,
        }
    }
}

/// The numbers of those of the strings that have one.
fn numbers_of_strings(
    alloc: Global,
    all: &StringNumbers,
    strings: &[String],
) -> Result<NumberSet, NoMemory>
    ensures { IfOk result (λ numbers. (number : ℕ) (text : List ℕ) → IsAt all.now number text →
        has_number numbers number ≡ holds (map string_bytes strings.now) text) }
{
    let mut numbers = Vec::new(alloc);
    for string in strings {
        if let Some(number) = all.get(string.as_str()) {
            numbers.push(number)?;
        }
    }
    NumberSet::from_numbers(alloc, numbers)
}

/// The numbers of the strings of the leaf.
fn numbers_of_leaf<'a>(
    alloc: Global,
    all: &StringNumbers,
    leaf: &Leaf<'a>,
) -> Result<LeafNumbers<'a>, NoMemory>
    requires { FitsNumbers all.now leaf.now }
    ensures { IfOk result (λ numbers. (number : ℕ) (text : List ℕ) → IsAt all.now number text →
        has_number (numbers_seen numbers) number ≡ holds (strings_of leaf.now) text) }
{
    match *leaf {
        Leaf::Numbered(_, set) => Ok(LeafNumbers::Kept(set)),
        _ => Ok(LeafNumbers::LookedUp(numbers_of_strings(alloc, all, leaf.strings())?)),
    }
}

/// The numbers of the strings of each leaf.
fn numbers_of_leaves<'a>(
    alloc: Global,
    all: &StringNumbers,
    leaves: &[Leaf<'a>],
) -> Result<Vec<LeafNumbers<'a>>, NoMemory>
    requires { All (FitsNumbers all.now) leaves.now }
    ensures { IfOk result (λ numbers. (number : ℕ) (text : List ℕ) → IsAt all.now number text → (index : ℕ) →
        has_number_at numbers.items number index ≡ leaf_holds leaves.now text index) }
{
    let mut numbers = Vec::with_capacity(alloc, leaves.len())?;
    for leaf in leaves {
        numbers.push(numbers_of_leaf(alloc, all, leaf)?)?;
    }
    Ok(numbers)
}

/// The piece with the index of each of the sets, for which the empty one stands where there is none.
fn pieces<'a>(
    alloc: Global,
    numbers: &'a [LeafNumbers<'_>],
    index: usize,
    empty: &'a CodePointInversionList,
) -> Result<Vec<&'a CodePointInversionList>, NoMemory>
    requires { empty.now ≡ [] }
    ensures { IfOk result (λ pieces. map (λ piece. piece.now) pieces.items ≡ pieces_seen index numbers.now) }
{
    let mut pieces = Vec::with_capacity(alloc, numbers.len())?;
    for each in numbers {
        pieces.push(each.set().piece(index, empty))?;
    }
    Ok(pieces)
}

/// The piece with the index of the set of numbers that the term makes of those of its leaves.
fn piece_of_term(
    alloc: Global,
    numbers: &[LeafNumbers<'_>],
    index: usize,
    steps: &[Step],
) -> Result<CodePointInversionList, NoMemory>
    ensures { IfOk result (λ piece. (number : ℕ) → number / 0x11_0000 ≡ index →
        contains piece (number % 0x11_0000) ≡ value_of (has_number_at numbers.now number) steps.now) }
{
    let empty = CodePointInversionListBuilder::new(alloc).build();
    let pieces = pieces(alloc, numbers, index, &empty)?;
    cp_terms::evaluate(alloc, &pieces, steps)
}

/// The set of numbers that the term makes of those of its leaves, as far as so many pieces go.
fn set_of_term(
    alloc: Global,
    numbers: &[LeafNumbers<'_>],
    count: usize,
    steps: &[Step],
) -> Result<NumberSet, NoMemory>
    ensures { IfOk result (λ set. (number : ℕ) → number / 0x11_0000 < count →
        has_number set number ≡ value_of (has_number_at numbers.now number) steps.now) }
{
    let mut pieces = Vec::with_capacity(alloc, count)?;
    for index in 0..count {
        pieces.push(piece_of_term(alloc, numbers, index, steps)?)?;
    }
    Ok(NumberSet::new(pieces))
}

/// The numbers of those of the strings with a number that the term has.
pub(crate) fn numbers_of_term(
    alloc: Global,
    all: &StringNumbers,
    leaves: &[Leaf<'_>],
    steps: &[Step],
) -> Result<NumberSet, NoMemory>
    requires { All (FitsNumbers all.now) leaves.now }
    ensures { IfOk result (λ numbers. (number : ℕ) (text : List ℕ) → IsAt all.now number text →
        has_number numbers number ≡ value_of (leaf_holds leaves.now text) steps.now) }
{
    let numbers = numbers_of_leaves(alloc, all, leaves)?;
    set_of_term(alloc, &numbers, all.count_pieces(), steps)
}
