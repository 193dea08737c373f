//! Blocks of words: which of 16,384 code points are members.
use crate::step::SetOperation;
use crate::word::{complement, differing, last_bits};
use cp_invlist::words::{filled, turned};

/// 256 words, whose bits say which of 64 code points each are members.
#[derive(Clone, Copy)]
pub(crate) struct Block {
    pub(crate) words: [u64; 256],
}

impl Block {
    ghost use Rattle.std.specs.Prelude.{◌≡◌, ℕ, ◌+◌, ◌/◌, ◌%◌, ◌<◌, ◌==◌, ◌&&◌, nat_le, Bool, not};
    ghost use Rattle.std.specs.Bool.{OnTrue};
    ghost use Rattle.cp_invlist.specs.InversionList.{differ};
    ghost use Rattle.cp_terms.specs.Terms.{combined};
    ghost use Rattle.cp_terms.specs.Blocks.{word_has, block_has};

    /// The block of no members.
    pub(crate) const EMPTY: Block = Block { words: [0; 256] };

    /// Exchanges the members and the others from the offset on, as far as its word goes.
    pub(crate) fn turn_word(&mut self, offset: u32)
        requires { offset < 0x4000 }
        ensures { (i j : ℕ) → i < 256 → j < 64 →
            block_has self.new i j ≡ differ (offset / 64 == i && nat_le (offset % 64) j) (block_has self.old i j) }
    {
        let index = offset as usize / 64;
        self.words[index] = turned(self.words[index], offset % 64);
    }

    /// Exchanges the members and the others of each word in front of which the last code point is a member, and of the first
    /// word with `inside`.
    pub(crate) fn carry(&mut self, inside: bool)
        ensures { (starts : ℕ → Bool) (m : ℕ → ℕ → Bool) → starts 0 ≡ inside →
            ((i j : ℕ) → i < 256 → j < 64 → m i j ≡ differ (starts i) (block_has self.old i j)) →
            ((i : ℕ) → i < 256 → starts (i + 1) ≡ m i 63) →
            (i j : ℕ) → i < 256 → j < 64 → block_has self.new i j ≡ m i j }
    {
        let mut turning = filled(inside);
        for index in 0..256 {
            let word = self.words[index];
            self.words[index] = differing(word, turning);
            turning = differing(last_bits(word), turning);
        }
    }

    /// Makes it what is made of it as the lower one and of the words of the upper.
    #[inline]
    pub(crate) fn combine(&mut self, operation: SetOperation, upper: &[u64; 256])
        ensures { (i j : ℕ) → i < 256 → j < 64 →
            block_has self.new i j ≡ combined operation (block_has self.old i j) (word_has upper.now i j) }
    {
        for index in 0..256 {
            self.words[index] = operation.combine_words(self.words[index], upper[index]);
        }
    }

    /// Whether all are members, or with `false` none is.
    #[inline]
    pub(crate) fn is_filled(&self, inside: bool) -> bool
        ensures { OnTrue result ((i j : ℕ) → i < 256 → j < 64 → block_has self.now i j ≡ inside) }
    {
        self.words == [filled(inside); 256]
    }

    /// Exchanges the members and the others.
    #[inline]
    pub(crate) fn complement(&mut self)
        ensures { (i j : ℕ) → i < 256 → j < 64 → block_has self.new i j ≡ not (block_has self.old i j) }
    {
        for index in 0..256 {
            self.words[index] = complement(self.words[index]);
        }
    }
}
