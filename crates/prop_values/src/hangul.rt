//! The type of Hangul syllables.
ghost use Rattle.std.specs.Prelude.{◌≡◌};
ghost use Rattle.cp_trie.specs.Values.{below};
ghost use Rattle.cp_trie.specs.ValueLaws.{below-again, nat_eq-same};
ghost use Rattle.prop_values.specs.NumberedLaws.{below-is_some};

use crate::property::{EnumeratedProperty, ParseableEnumeratedProperty};
use crate::tables::{MapTable, NamesTable};
use cp_trie::{TrieValue, ValueError};
use std::marker::Model;

/// The type of a Hangul syllable or jamo (UAX 44, section 5.3).
#[derive(Clone, Copy, Debug, PartialEq, Eq, PartialOrd, Ord, Hash)]
pub struct HangulSyllableType(u8);

impl Model for HangulSyllableType {
    ghost use Rattle.std.specs.Prelude.{ℕ};

    ghost Value = { ℕ };

    ghost view = { λ value. value.0 };

    ghost inverse = { λ number. record { 0 = number } };
}

impl HangulSyllableType {
    /// `Not_Applicable` (`NA`).
    pub const NotApplicable: HangulSyllableType = HangulSyllableType(0);

    /// `Leading_Jamo` (`L`).
    pub const LeadingJamo: HangulSyllableType = HangulSyllableType(1);

    /// `Vowel_Jamo` (`V`).
    pub const VowelJamo: HangulSyllableType = HangulSyllableType(2);

    /// `Trailing_Jamo` (`T`).
    pub const TrailingJamo: HangulSyllableType = HangulSyllableType(3);

    /// `LV_Syllable` (`LV`).
    pub const LVSyllable: HangulSyllableType = HangulSyllableType(4);

    /// `LVT_Syllable` (`LVT`).
    pub const LVTSyllable: HangulSyllableType = HangulSyllableType(5);

    /// `LV_Syllable` (`LV`).
    pub const LeadingVowelSyllable: HangulSyllableType = HangulSyllableType::LVSyllable;

    /// `LVT_Syllable` (`LVT`).
    pub const LeadingVowelTrailingSyllable: HangulSyllableType = HangulSyllableType::LVTSyllable;

    /// The number of the value.
    pub fn to_icu4c_value(self) -> u8
        ensures { result ≡ self }
    {
        self.0
    }

    /// The value of the number.
    pub fn from_icu4c_value(value: u8) -> HangulSyllableType
        ensures { result ≡ value }
    {
        HangulSyllableType(value)
    }
}

impl Default for HangulSyllableType {
    ghost is_default = { λ value. value ≡ 0 };

    fn default() -> HangulSyllableType {
        HangulSyllableType::NotApplicable
    }
}

impl TrieValue for HangulSyllableType {
    ghost unpacked = { below 256 };

    ghost packed = { λ value. value };

    ghost unpacks_again = { below-again 256 };

    ghost eq_is_same = { nat_eq-same };

    fn try_from_u32(i: u32) -> Result<HangulSyllableType, ValueError> {
        Ok(HangulSyllableType(u8::try_from_u32(i)?))
    }

    fn to_u32(self) -> u32 {
        u32::from(self.0)
    }
}

impl EnumeratedProperty for HangulSyllableType {
    ghost TABLE = { 5 };

    const NAME: &'static [u8] = b"Hangul_Syllable_Type";

    const SHORT_NAME: &'static [u8] = b"hst";

    const TABLE: MapTable = MapTable::HANGUL_SYLLABLE_TYPE;

    ghost accepted = { λ n _. below-is_some 256 n };

    ghost default_packed = { λ _ is. is };
}

impl ParseableEnumeratedProperty for HangulSyllableType {
    ghost NAMES = { 5 };

    const NAMES: NamesTable = NamesTable::HANGUL_SYLLABLE_TYPE;

    ghost names_accepted = { λ n _. below-is_some 256 n };
}
