//! Emoji sets.
ghost use Rattle.std.specs.Prelude.{ℕ};

use crate::table::EmojiTable;

/// A set of emoji characters and sequences (UTS 51, section 1.4.6).
pub trait EmojiSet {
    /// The number of the table.
    ghost TABLE: { ℕ };

    /// The long name of the set.
    const NAME: &'static [u8];

    /// The short name of the set.
    const SHORT_NAME: &'static [u8];

    /// The table of the set.
    const TABLE: EmojiTable;
}

/// The emoji that show as pictures by themselves, and those that a variation selector makes so.
#[derive(Debug)]
pub struct BasicEmoji;

impl EmojiSet for BasicEmoji {
    ghost TABLE = { 0 };

    const NAME: &'static [u8] = b"Basic_Emoji";

    const SHORT_NAME: &'static [u8] = b"Basic_Emoji";

    const TABLE: EmojiTable = EmojiTable::BASIC_EMOJI;
}
