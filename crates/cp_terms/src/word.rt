//! Words, whose bits say which of 64 code points are members.
ghost use Rattle.std.specs.Prelude.{◌≡◌, ℕ, ◌<◌, true, false, not};
ghost use Rattle.std.specs.Int.{trailing_zeros, w64};
ghost use Rattle.cp_invlist.specs.InversionList.{differ};
ghost use Rattle.cp_invlist.specs.Words.{has_bit};

use cp_invlist::words::filled;

/// The bits that the word lacks.
#[inline]
pub(crate) fn complement(word: u64) -> u64
    ensures { (j : ℕ) → j < 64 → has_bit result j ≡ not (has_bit word j) }
{
    !word
}

/// The bits that are other than the constant.
pub(crate) fn difference(word: u64, inside: bool) -> u64
    ensures { (j : ℕ) → j < 64 → has_bit result j ≡ differ inside (has_bit word j) }
{
    if inside { complement(word) } else { word }
}

/// The first bit that the word has.
pub(crate) fn first_bit(word: u64) -> u32
    requires { 0 < word }
    ensures zeros { result ≡ trailing_zeros w64 word }
    ensures within { result < 64 }
    ensures before { (j : ℕ) → j < result → has_bit word j ≡ false }
    ensures there { has_bit word result ≡ true }
{
    word.trailing_zeros()
}

/// The bits that one of the two words has, and not both.
pub(crate) fn differing(word: u64, other: u64) -> u64
    ensures { (j : ℕ) → j < 64 → has_bit result j ≡ differ (has_bit other j) (has_bit word j) }
{
    word ^ other
}

/// The word of all bits where the word has the last one, else of none.
pub(crate) fn last_bits(word: u64) -> u64
    ensures { (j : ℕ) → j < 64 → has_bit result j ≡ has_bit word 63 }
{
    filled((word >> 63) % 2 == 1)
}
