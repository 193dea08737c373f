//! The combining class.
ghost use Rattle.std.specs.Prelude.{◌≡◌};
ghost use Rattle.cp_trie.specs.Values.{below};
ghost use Rattle.cp_trie.specs.ValueLaws.{below-again, nat_eq-same};
ghost use Rattle.prop_values.specs.NumberedLaws.{below-is_some};

use crate::property::{EnumeratedProperty, ParseableEnumeratedProperty};
use crate::tables::{MapTable, NamesTable};
use cp_trie::{TrieValue, ValueError};
use std::marker::Model;

/// The canonical combining class of a character (UAX 44, section 5.7.4).
#[derive(Clone, Copy, Debug, PartialEq, Eq, PartialOrd, Ord, Hash)]
pub struct CanonicalCombiningClass(pub u8);

impl Model for CanonicalCombiningClass {
    ghost use Rattle.std.specs.Prelude.{ℕ};

    ghost Value = { ℕ };

    ghost view = { λ value. value.0 };

    ghost inverse = { λ number. record { 0 = number } };
}

impl CanonicalCombiningClass {
    /// `Not_Reordered` (`NR`).
    pub const NotReordered: CanonicalCombiningClass = CanonicalCombiningClass(0);

    /// The number of the value.
    pub fn to_icu4c_value(self) -> u8
        ensures { result ≡ self }
    {
        self.0
    }

    /// The value of the number.
    pub fn from_icu4c_value(value: u8) -> CanonicalCombiningClass
        ensures { result ≡ value }
    {
        CanonicalCombiningClass(value)
    }
}

impl Default for CanonicalCombiningClass {
    ghost is_default = { λ value. value ≡ 0 };

    fn default() -> CanonicalCombiningClass {
        CanonicalCombiningClass::NotReordered
    }
}

impl TrieValue for CanonicalCombiningClass {
    ghost unpacked = { below 256 };

    ghost packed = { λ value. value };

    ghost unpacks_again = { below-again 256 };

    ghost eq_is_same = { nat_eq-same };

    fn try_from_u32(i: u32) -> Result<CanonicalCombiningClass, ValueError> {
        Ok(CanonicalCombiningClass(u8::try_from_u32(i)?))
    }

    fn to_u32(self) -> u32 {
        u32::from(self.0)
    }
}

impl EnumeratedProperty for CanonicalCombiningClass {
    ghost TABLE = { 11 };

    const NAME: &'static [u8] = b"Canonical_Combining_Class";

    const SHORT_NAME: &'static [u8] = b"ccc";

    const TABLE: MapTable = MapTable::CANONICAL_COMBINING_CLASS;

    ghost accepted = { λ n _. below-is_some 256 n };

    ghost default_packed = { λ _ is. is };
}

impl ParseableEnumeratedProperty for CanonicalCombiningClass {
    ghost NAMES = { 11 };

    const NAMES: NamesTable = NamesTable::CANONICAL_COMBINING_CLASS;

    ghost names_accepted = { λ n _. below-is_some 256 n };
}
