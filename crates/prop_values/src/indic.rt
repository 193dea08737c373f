//! The classes of Indic scripts.
ghost use Rattle.std.specs.Prelude.{◌≡◌};
ghost use Rattle.cp_trie.specs.Values.{below};
ghost use Rattle.cp_trie.specs.ValueLaws.{below-again, nat_eq-same};
ghost use Rattle.prop_values.specs.NumberedLaws.{below-is_some};

use crate::property::{EnumeratedProperty, ParseableEnumeratedProperty};
use crate::tables::{MapTable, NamesTable};
use cp_trie::{TrieValue, ValueError};
use std::marker::Model;

/// The part that a character has in an Indic conjunct (UAX 44, section 5.3).
#[derive(Clone, Copy, Debug, PartialEq, Eq, PartialOrd, Ord, Hash)]
pub struct IndicConjunctBreak(u8);

impl Model for IndicConjunctBreak {
    ghost use Rattle.std.specs.Prelude.{ℕ};

    ghost Value = { ℕ };

    ghost view = { λ value. value.0 };

    ghost inverse = { λ number. record { 0 = number } };
}

impl IndicConjunctBreak {
    /// `None`.
    pub const None: IndicConjunctBreak = IndicConjunctBreak(0);

    /// The number of the value.
    pub fn to_icu4c_value(self) -> u8
        ensures { result ≡ self }
    {
        self.0
    }

    /// The value of the number.
    pub fn from_icu4c_value(value: u8) -> IndicConjunctBreak
        ensures { result ≡ value }
    {
        IndicConjunctBreak(value)
    }
}

impl Default for IndicConjunctBreak {
    ghost is_default = { λ value. value ≡ 0 };

    fn default() -> IndicConjunctBreak {
        IndicConjunctBreak::None
    }
}

impl TrieValue for IndicConjunctBreak {
    ghost unpacked = { below 256 };

    ghost packed = { λ value. value };

    ghost unpacks_again = { below-again 256 };

    ghost eq_is_same = { nat_eq-same };

    fn try_from_u32(i: u32) -> Result<IndicConjunctBreak, ValueError> {
        Ok(IndicConjunctBreak(u8::try_from_u32(i)?))
    }

    fn to_u32(self) -> u32 {
        u32::from(self.0)
    }
}

impl EnumeratedProperty for IndicConjunctBreak {
    ghost TABLE = { 12 };

    const NAME: &'static [u8] = b"Indic_Conjunct_Break";

    const SHORT_NAME: &'static [u8] = b"InCB";

    const TABLE: MapTable = MapTable::INDIC_CONJUNCT_BREAK;

    ghost accepted = { λ n _. below-is_some 256 n };

    ghost default_packed = { λ _ is. is };
}

impl ParseableEnumeratedProperty for IndicConjunctBreak {
    ghost NAMES = { 12 };

    const NAMES: NamesTable = NamesTable::INDIC_CONJUNCT_BREAK;

    ghost names_accepted = { λ n _. below-is_some 256 n };
}

/// The structural category of a syllabic component in Indic scripts (UAX 44, section 5.3).
#[derive(Clone, Copy, Debug, PartialEq, Eq, PartialOrd, Ord, Hash)]
pub struct IndicSyllabicCategory(u8);

impl Model for IndicSyllabicCategory {
    ghost use Rattle.std.specs.Prelude.{ℕ};

    ghost Value = { ℕ };

    ghost view = { λ value. value.0 };

    ghost inverse = { λ number. record { 0 = number } };
}

impl IndicSyllabicCategory {
    /// `Other`.
    pub const Other: IndicSyllabicCategory = IndicSyllabicCategory(0);

    /// The number of the value.
    pub fn to_icu4c_value(self) -> u8
        ensures { result ≡ self }
    {
        self.0
    }

    /// The value of the number.
    pub fn from_icu4c_value(value: u8) -> IndicSyllabicCategory
        ensures { result ≡ value }
    {
        IndicSyllabicCategory(value)
    }
}

impl Default for IndicSyllabicCategory {
    ghost is_default = { λ value. value ≡ 0 };

    fn default() -> IndicSyllabicCategory {
        IndicSyllabicCategory::Other
    }
}

impl TrieValue for IndicSyllabicCategory {
    ghost unpacked = { below 256 };

    ghost packed = { λ value. value };

    ghost unpacks_again = { below-again 256 };

    ghost eq_is_same = { nat_eq-same };

    fn try_from_u32(i: u32) -> Result<IndicSyllabicCategory, ValueError> {
        Ok(IndicSyllabicCategory(u8::try_from_u32(i)?))
    }

    fn to_u32(self) -> u32 {
        u32::from(self.0)
    }
}

impl EnumeratedProperty for IndicSyllabicCategory {
    ghost TABLE = { 13 };

    const NAME: &'static [u8] = b"Indic_Syllabic_Category";

    const SHORT_NAME: &'static [u8] = b"InSC";

    const TABLE: MapTable = MapTable::INDIC_SYLLABIC_CATEGORY;

    ghost accepted = { λ n _. below-is_some 256 n };

    ghost default_packed = { λ _ is. is };
}

impl ParseableEnumeratedProperty for IndicSyllabicCategory {
    ghost NAMES = { 13 };

    const NAMES: NamesTable = NamesTable::INDIC_SYLLABIC_CATEGORY;

    ghost names_accepted = { λ n _. below-is_some 256 n };
}
