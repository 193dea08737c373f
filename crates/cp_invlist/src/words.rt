//! Words, whose bits say which of 64 code points are members.
ghost use Rattle.std.specs.Prelude.{◌≡◌, ℕ, ◌<◌, Bool, nat_le, length, IfOk};
ghost use Rattle.cp_invlist.specs.InversionList.{differ};
ghost use Rattle.cp_invlist.specs.Words.{has_bit, AreWords};

use crate::error::NoMemory;
use crate::ranges::LAST_CODE_POINT;
use crate::set::CodePointInversionList;
use crate::window::Window;
use std::alloc::Global;

/// How many words all code points have.
const WORDS: u32 = (LAST_CODE_POINT + 1) / 64;

/// The word with the bits from the offset on, which is below 64, exchanged for their opposites.
pub fn turned(word: u64, offset: u32) -> u64
    requires { offset < 64 }
    ensures { (j : ℕ) → j < 64 → has_bit result j ≡ differ (nat_le offset j) (has_bit word j) }
{
    word ^ (u64::MAX << offset)
}

/// The word with all bits where `inside` is true, and with none elsewhere.
pub fn filled(inside: bool) -> u64
    ensures { (j : ℕ) → j < 64 → has_bit result j ≡ inside }
{
    if inside { u64::MAX } else { 0 }
}

/// Whether the word has the bit with this offset.
pub(crate) fn has_member(word: u64, offset: u32) -> bool
    requires { offset < 64 }
    ensures { result ≡ has_bit word offset }
{
    (word >> offset) % 2 == 1
}

/// The words of all code points.
pub(crate) fn all_words(alloc: Global, set: &CodePointInversionList) -> Result<Vec<u64>, NoMemory>
    ensures members { IfOk result (λ words. AreWords set.now words.items) }
    ensures sized { IfOk result (λ words. length words.items ≡ 17408) }
{
    let mut words = Vec::with_capacity(alloc, WORDS as usize)?;
    let mut window = Window::UNKNOWN;
    for index in 0..WORDS {
        words.push(window.word(set, 64 * index))?;
    }
    Ok(words)
}
