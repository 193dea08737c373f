//! Blocks.
ghost use Rattle.std.specs.Prelude.{◌≡◌};
ghost use Rattle.cp_trie.specs.Values.{below};
ghost use Rattle.cp_trie.specs.ValueLaws.{below-again, nat_eq-same};
ghost use Rattle.prop_values.specs.NumberedLaws.{below-is_some};

use crate::property::{EnumeratedProperty, ParseableEnumeratedProperty};
use crate::tables::{MapTable, NamesTable};
use cp_trie::{TrieValue, ValueError};
use std::marker::Model;

/// The block of a code point (UAX 44, section 5.3).
#[derive(Clone, Copy, Debug, PartialEq, Eq, PartialOrd, Ord, Hash)]
pub struct Block(u16);

impl Model for Block {
    ghost use Rattle.std.specs.Prelude.{ℕ};

    ghost Value = { ℕ };

    ghost view = { λ value. value.0 };

    ghost inverse = { λ number. record { 0 = number } };
}

impl Block {
    /// `No_Block` (`NB`).
    pub const NoBlock: Block = Block(0);
}

impl Default for Block {
    ghost is_default = { λ value. value ≡ 0 };

    fn default() -> Block {
        Block::NoBlock
    }
}

impl TrieValue for Block {
    ghost unpacked = { below 65536 };

    ghost packed = { λ value. value };

    ghost unpacks_again = { below-again 65536 };

    ghost eq_is_same = { nat_eq-same };

    fn try_from_u32(i: u32) -> Result<Block, ValueError> {
        Ok(Block(u16::try_from_u32(i)?))
    }

    fn to_u32(self) -> u32 {
        u32::from(self.0)
    }
}

impl EnumeratedProperty for Block {
    ghost TABLE = { 1 };

    const NAME: &'static [u8] = b"Block";

    const SHORT_NAME: &'static [u8] = b"blk";

    const TABLE: MapTable = MapTable::BLOCK;

    ghost accepted = { λ n _. below-is_some 65536 n };

    ghost default_packed = { λ _ is. is };
}

impl ParseableEnumeratedProperty for Block {
    ghost NAMES = { 1 };

    const NAMES: NamesTable = NamesTable::BLOCK;

    ghost names_accepted = { λ n _. below-is_some 65536 n };
}
