//! The numeric type.
ghost use Rattle.std.specs.Prelude.{◌≡◌};
ghost use Rattle.cp_trie.specs.Values.{below};
ghost use Rattle.cp_trie.specs.ValueLaws.{below-again, nat_eq-same};
ghost use Rattle.prop_values.specs.NumberedLaws.{below-is_some};

use crate::property::{EnumeratedProperty, ParseableEnumeratedProperty};
use crate::tables::{MapTable, NamesTable};
use cp_trie::{TrieValue, ValueError};
use std::marker::Model;

/// The numeric type of a character (UAX 44, section 5.3).
#[derive(Clone, Copy, Debug, PartialEq, Eq, PartialOrd, Ord, Hash)]
pub struct NumericType(u8);

impl Model for NumericType {
    ghost use Rattle.std.specs.Prelude.{ℕ};

    ghost Value = { ℕ };

    ghost view = { λ value. value.0 };

    ghost inverse = { λ number. record { 0 = number } };
}

impl NumericType {
    /// `None`.
    pub const None: NumericType = NumericType(0);

    /// The number of the value.
    pub fn to_icu4c_value(self) -> u8
        ensures { result ≡ self }
    {
        self.0
    }

    /// The value of the number.
    pub fn from_icu4c_value(value: u8) -> NumericType
        ensures { result ≡ value }
    {
        NumericType(value)
    }
}

impl Default for NumericType {
    ghost is_default = { λ value. value ≡ 0 };

    fn default() -> NumericType {
        NumericType::None
    }
}

impl TrieValue for NumericType {
    ghost unpacked = { below 256 };

    ghost packed = { λ value. value };

    ghost unpacks_again = { below-again 256 };

    ghost eq_is_same = { nat_eq-same };

    fn try_from_u32(i: u32) -> Result<NumericType, ValueError> {
        Ok(NumericType(u8::try_from_u32(i)?))
    }

    fn to_u32(self) -> u32 {
        u32::from(self.0)
    }
}

impl EnumeratedProperty for NumericType {
    ghost TABLE = { 2 };

    const NAME: &'static [u8] = b"Numeric_Type";

    const SHORT_NAME: &'static [u8] = b"nt";

    const TABLE: MapTable = MapTable::NUMERIC_TYPE;

    ghost accepted = { λ n _. below-is_some 256 n };

    ghost default_packed = { λ _ is. is };
}

impl ParseableEnumeratedProperty for NumericType {
    ghost NAMES = { 2 };

    const NAMES: NamesTable = NamesTable::NUMERIC_TYPE;

    ghost names_accepted = { λ n _. below-is_some 256 n };
}
