//! Sets on a stretch of 16,384 code points.
ghost use Rattle.cp_terms.specs.Windows.{AreKnown};

use crate::block::Block;
use crate::step::SetOperation;
use crate::windows::{read_block, stretch_words};
use cp_invlist::{CodePointInversionList, Window};

/// How many code points are looked at with one shortened term.
pub(crate) const STRETCH: u32 = 256 * 64;

/// The sets of a term on a stretch, each with a window that is moved on to its start, or towards it.
#[derive(Clone, Copy)]
pub(crate) struct Stretch<'a> {
    pub(crate) sets: &'a [&'a CodePointInversionList],
    pub(crate) windows: &'a [Window],
    pub(crate) start: u32,
    ghost known: { AreKnown sets.now windows.now start },
}

impl Stretch<'_> {
    ghost use Rattle.std.specs.Prelude.{◌≡◌, ℕ, ◌<◌, IfSome};
    ghost use Rattle.cp_terms.specs.Terms.{combined};
    ghost use Rattle.cp_terms.specs.Blocks.{block_has, word_has};
    ghost use Rattle.cp_terms.specs.Stretches.{stretch_has};

    /// The words of the set with the index, where the set has an index of its own.
    fn words(&self, index: usize) -> Option<&[u64; 256]>
        ensures { IfSome result (λ words. (i j : ℕ) → i < 256 → j < 64 →
            word_has words.now i j ≡ stretch_has self.now i j index) }
    {
        stretch_words(self.sets.get(index)?, self.start)
    }

    /// The block of the set with the index, the empty one where there is none.
    pub(crate) fn block(&self, index: usize) -> Block
        ensures { (i j : ℕ) → i < 256 → j < 64 → block_has result i j ≡ stretch_has self.now i j index }
    {
        if let Some(words) = self.words(index) {
            return Block { words: *words };
        }
        match self.sets.get(index) {
            Some(set) => {
                let window = self.windows[index].moved(set, self.start);
                read_block(set, window, self.start)
            }
            None => Block::EMPTY,
        }
    }

    /// Makes of the block as the lower set and of the set with the index what is made of both.
    pub(crate) fn combine(&self, lower: &mut Block, operation: SetOperation, index: usize)
        ensures { (i j : ℕ) → i < 256 → j < 64 →
            block_has lower.new i j ≡ combined operation (block_has lower.old i j) (stretch_has self.now i j index) }
    {
        match self.words(index) {
            Some(words) => lower.combine(operation, words),
            None => lower.combine(operation, &self.block(index).words),
        }
    }
}
