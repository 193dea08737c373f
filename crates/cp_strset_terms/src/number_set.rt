//! Sets of numbers of strings.
ghost use Rattle.std.specs.Prelude.{◌≡◌, ◌<◌, ◌==◌, ◌/◌, ◌%◌, ℕ, All, IfOk};
ghost use Rattle.std.specs.List.{list_any};
ghost use Rattle.cp_invlist.specs.InversionList.{contains};
ghost use Rattle.cp_strset_terms.specs.NumberSets.{has_number, piece_at};

use cp_invlist::{
    CodePointInversionList, CodePointInversionListBuilder, LAST_CODE_POINT, NoMemory,
};
use std::alloc::Global;
use std::marker::Model;

/// How many numbers a piece of a set has room for: as many as there are code points.
pub(crate) const PIECE: usize = LAST_CODE_POINT as usize + 1;

/// A set of numbers of strings, in pieces of 1,114,112 numbers each, which are sets of code points: the number `n` is
/// in the set where its piece `n / 1114112` has the code point `n % 1114112`. A contract sees it as the list of the
/// pieces, each by its inversion list.
#[derive(Drop)]
pub struct NumberSet {
    pieces: Vec<CodePointInversionList>,
}

impl Model for NumberSet {
    ghost use Rattle.std.specs.Prelude.{ℕ, List};

    ghost Value = { List (List ℕ) };

    ghost view = { λ s. s.pieces.items };
}

impl NumberSet {
    ghost use Rattle.std.specs.Prelude.{[]};

    /// The set of the pieces.
    pub(crate) fn new(pieces: Vec<CodePointInversionList>) -> NumberSet
        ensures { result ≡ pieces.items }
    {
        NumberSet { pieces }
    }

    /// The set of the numbers. A piece of many ranges has an index.
    pub(crate) fn from_numbers(
        alloc: Global,
        mut numbers: Vec<usize>,
    ) -> Result<NumberSet, NoMemory>
        ensures { IfOk result (λ set. (number : ℕ) →
            has_number set number ≡ list_any (λ n. n == number) numbers.items) }
    {
        numbers.sort_unstable();
        Ok(NumberSet::new(pieces_of(alloc, &numbers)?))
    }

    /// Whether the number is in the set.
    pub fn contains(&self, number: usize) -> bool
        ensures { result ≡ has_number self.now number }
    {
        match self.pieces.get(number / PIECE) {
            Some(piece) => piece.contains32((number % PIECE) as u32),
            None => false,
        }
    }

    /// How many numbers the set has. No answer depends on it.
    pub(crate) fn size(&self) -> usize {
        let mut size: usize = 0;
        for piece in &self.pieces {
            size = size.saturating_add(piece.size());
        }
        size
    }

    /// The pieces.
    pub(crate) fn pieces(&self) -> &[CodePointInversionList]
        ensures { result.now ≡ self.now }
    {
        &self.pieces
    }

    /// The piece with the index, or else the empty one.
    pub(crate) fn piece<'a>(
        &'a self,
        index: usize,
        empty: &'a CodePointInversionList,
    ) -> &'a CodePointInversionList
        requires { empty.now ≡ [] }
        ensures { result.now ≡ piece_at self.now index }
    {
        self.pieces.get(index).unwrap_or(empty)
    }
}

/// How many pieces the numbers take.
fn count_pieces(numbers: &[usize]) -> usize
    ensures { All (λ number. number / 0x11_0000 < result) numbers.now }
{
    match numbers.iter().max() {
        Some(most) => *most / PIECE + 1,
        None => 0,
    }
}

/// The piece with this index of the set of the numbers, itself with an index where it is long.
fn piece_of(
    alloc: Global,
    numbers: &[usize],
    index: usize,
) -> Result<CodePointInversionList, NoMemory>
    ensures { IfOk result (λ piece. (number : ℕ) → number / 0x11_0000 ≡ index →
        contains piece (number % 0x11_0000) ≡ list_any (λ n. n == number) numbers.now) }
{
    let mut builder = CodePointInversionListBuilder::new(alloc);
    for number in numbers {
        if *number / PIECE == index {
            builder.add32((*number % PIECE) as u32)?;
        }
    }
    let mut piece = builder.build();
    piece.index_if_long(alloc)?;
    Ok(piece)
}

/// The pieces of the set of the numbers.
fn pieces_of(alloc: Global, numbers: &[usize]) -> Result<Vec<CodePointInversionList>, NoMemory>
    ensures { IfOk result (λ pieces. (number : ℕ) →
        has_number pieces.items number ≡ list_any (λ n. n == number) numbers.now) }
{
    let mut pieces = Vec::new(alloc);
    for index in 0..count_pieces(numbers) {
        pieces.push(piece_of(alloc, numbers, index)?)?;
    }
    Ok(pieces)
}
