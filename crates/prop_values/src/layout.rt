//! Width and orientation.
ghost use Rattle.std.specs.Prelude.{◌≡◌};
ghost use Rattle.cp_trie.specs.Values.{below};
ghost use Rattle.cp_trie.specs.ValueLaws.{below-again, nat_eq-same};
ghost use Rattle.prop_values.specs.NumberedLaws.{below-is_some};

use crate::property::{EnumeratedProperty, ParseableEnumeratedProperty};
use crate::tables::{MapTable, NamesTable};
use cp_trie::{TrieValue, ValueError};
use std::marker::Model;

/// The width of a character in East Asian text (UAX 11).
#[derive(Clone, Copy, Debug, PartialEq, Eq, PartialOrd, Ord, Hash)]
pub struct EastAsianWidth(u8);

impl Model for EastAsianWidth {
    ghost use Rattle.std.specs.Prelude.{ℕ};

    ghost Value = { ℕ };

    ghost view = { λ value. value.0 };

    ghost inverse = { λ number. record { 0 = number } };
}

impl EastAsianWidth {
    /// `Neutral` (`N`).
    pub const Neutral: EastAsianWidth = EastAsianWidth(0);

    /// The number of the value.
    pub fn to_icu4c_value(self) -> u8
        ensures { result ≡ self }
    {
        self.0
    }

    /// The value of the number.
    pub fn from_icu4c_value(value: u8) -> EastAsianWidth
        ensures { result ≡ value }
    {
        EastAsianWidth(value)
    }
}

impl Default for EastAsianWidth {
    ghost is_default = { λ value. value ≡ 0 };

    fn default() -> EastAsianWidth {
        EastAsianWidth::Neutral
    }
}

impl TrieValue for EastAsianWidth {
    ghost unpacked = { below 256 };

    ghost packed = { λ value. value };

    ghost unpacks_again = { below-again 256 };

    ghost eq_is_same = { nat_eq-same };

    fn try_from_u32(i: u32) -> Result<EastAsianWidth, ValueError> {
        Ok(EastAsianWidth(u8::try_from_u32(i)?))
    }

    fn to_u32(self) -> u32 {
        u32::from(self.0)
    }
}

impl EnumeratedProperty for EastAsianWidth {
    ghost TABLE = { 6 };

    const NAME: &'static [u8] = b"East_Asian_Width";

    const SHORT_NAME: &'static [u8] = b"ea";

    const TABLE: MapTable = MapTable::EAST_ASIAN_WIDTH;

    ghost accepted = { λ n _. below-is_some 256 n };

    ghost default_packed = { λ _ is. is };
}

impl ParseableEnumeratedProperty for EastAsianWidth {
    ghost NAMES = { 6 };

    const NAMES: NamesTable = NamesTable::EAST_ASIAN_WIDTH;

    ghost names_accepted = { λ n _. below-is_some 256 n };
}

/// The orientation of a character in vertical text (UAX 50).
#[derive(Clone, Copy, Debug, PartialEq, Eq, PartialOrd, Ord, Hash)]
pub struct VerticalOrientation(u8);

impl Model for VerticalOrientation {
    ghost use Rattle.std.specs.Prelude.{ℕ};

    ghost Value = { ℕ };

    ghost view = { λ value. value.0 };

    ghost inverse = { λ number. record { 0 = number } };
}

impl VerticalOrientation {
    /// `Rotated` (`R`).
    pub const Rotated: VerticalOrientation = VerticalOrientation(0);

    /// The number of the value.
    pub fn to_icu4c_value(self) -> u8
        ensures { result ≡ self }
    {
        self.0
    }

    /// The value of the number.
    pub fn from_icu4c_value(value: u8) -> VerticalOrientation
        ensures { result ≡ value }
    {
        VerticalOrientation(value)
    }
}

impl Default for VerticalOrientation {
    ghost is_default = { λ value. value ≡ 0 };

    fn default() -> VerticalOrientation {
        VerticalOrientation::Rotated
    }
}

impl TrieValue for VerticalOrientation {
    ghost unpacked = { below 256 };

    ghost packed = { λ value. value };

    ghost unpacks_again = { below-again 256 };

    ghost eq_is_same = { nat_eq-same };

    fn try_from_u32(i: u32) -> Result<VerticalOrientation, ValueError> {
        Ok(VerticalOrientation(u8::try_from_u32(i)?))
    }

    fn to_u32(self) -> u32 {
        u32::from(self.0)
    }
}

impl EnumeratedProperty for VerticalOrientation {
    ghost TABLE = { 16 };

    const NAME: &'static [u8] = b"Vertical_Orientation";

    const SHORT_NAME: &'static [u8] = b"vo";

    const TABLE: MapTable = MapTable::VERTICAL_ORIENTATION;

    ghost accepted = { λ n _. below-is_some 256 n };

    ghost default_packed = { λ _ is. is };
}

impl ParseableEnumeratedProperty for VerticalOrientation {
    ghost NAMES = { 16 };

    const NAMES: NamesTable = NamesTable::VERTICAL_ORIENTATION;

    ghost names_accepted = { λ n _. below-is_some 256 n };
}
