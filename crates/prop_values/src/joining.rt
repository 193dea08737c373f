//! The classes of cursive joining.
ghost use Rattle.std.specs.Prelude.{◌≡◌};
ghost use Rattle.cp_trie.specs.Values.{below};
ghost use Rattle.cp_trie.specs.ValueLaws.{below-again, nat_eq-same};
ghost use Rattle.prop_values.specs.NumberedLaws.{below-is_some};

use crate::property::{EnumeratedProperty, ParseableEnumeratedProperty};
use crate::tables::{MapTable, NamesTable};
use cp_trie::{TrieValue, ValueError};
use std::marker::Model;

/// The joining group of a character in Arabic and Syriac (UAX 44, section 5.3).
#[derive(Clone, Copy, Debug, PartialEq, Eq, PartialOrd, Ord, Hash)]
pub struct JoiningGroup(u8);

impl Model for JoiningGroup {
    ghost use Rattle.std.specs.Prelude.{ℕ};

    ghost Value = { ℕ };

    ghost view = { λ value. value.0 };

    ghost inverse = { λ number. record { 0 = number } };
}

impl JoiningGroup {
    /// `No_Joining_Group`.
    pub const NoJoiningGroup: JoiningGroup = JoiningGroup(0);

    /// The number of the value.
    pub fn to_icu4c_value(self) -> u8
        ensures { result ≡ self }
    {
        self.0
    }

    /// The value of the number.
    pub fn from_icu4c_value(value: u8) -> JoiningGroup
        ensures { result ≡ value }
    {
        JoiningGroup(value)
    }
}

impl Default for JoiningGroup {
    ghost is_default = { λ value. value ≡ 0 };

    fn default() -> JoiningGroup {
        JoiningGroup::NoJoiningGroup
    }
}

impl TrieValue for JoiningGroup {
    ghost unpacked = { below 256 };

    ghost packed = { λ value. value };

    ghost unpacks_again = { below-again 256 };

    ghost eq_is_same = { nat_eq-same };

    fn try_from_u32(i: u32) -> Result<JoiningGroup, ValueError> {
        Ok(JoiningGroup(u8::try_from_u32(i)?))
    }

    fn to_u32(self) -> u32 {
        u32::from(self.0)
    }
}

impl EnumeratedProperty for JoiningGroup {
    ghost TABLE = { 14 };

    const NAME: &'static [u8] = b"Joining_Group";

    const SHORT_NAME: &'static [u8] = b"jg";

    const TABLE: MapTable = MapTable::JOINING_GROUP;

    ghost accepted = { λ n _. below-is_some 256 n };

    ghost default_packed = { λ _ is. is };
}

impl ParseableEnumeratedProperty for JoiningGroup {
    ghost NAMES = { 14 };

    const NAMES: NamesTable = NamesTable::JOINING_GROUP;

    ghost names_accepted = { λ n _. below-is_some 256 n };
}

/// The joining type of a character (UAX 44, section 5.3).
#[derive(Clone, Copy, Debug, PartialEq, Eq, PartialOrd, Ord, Hash)]
pub struct JoiningType(u8);

impl Model for JoiningType {
    ghost use Rattle.std.specs.Prelude.{ℕ};

    ghost Value = { ℕ };

    ghost view = { λ value. value.0 };

    ghost inverse = { λ number. record { 0 = number } };
}

impl JoiningType {
    /// `Non_Joining` (`U`).
    pub const NonJoining: JoiningType = JoiningType(0);

    /// The number of the value.
    pub fn to_icu4c_value(self) -> u8
        ensures { result ≡ self }
    {
        self.0
    }

    /// The value of the number.
    pub fn from_icu4c_value(value: u8) -> JoiningType
        ensures { result ≡ value }
    {
        JoiningType(value)
    }
}

impl Default for JoiningType {
    ghost is_default = { λ value. value ≡ 0 };

    fn default() -> JoiningType {
        JoiningType::NonJoining
    }
}

impl TrieValue for JoiningType {
    ghost unpacked = { below 256 };

    ghost packed = { λ value. value };

    ghost unpacks_again = { below-again 256 };

    ghost eq_is_same = { nat_eq-same };

    fn try_from_u32(i: u32) -> Result<JoiningType, ValueError> {
        Ok(JoiningType(u8::try_from_u32(i)?))
    }

    fn to_u32(self) -> u32 {
        u32::from(self.0)
    }
}

impl EnumeratedProperty for JoiningType {
    ghost TABLE = { 15 };

    const NAME: &'static [u8] = b"Joining_Type";

    const SHORT_NAME: &'static [u8] = b"jt";

    const TABLE: MapTable = MapTable::JOINING_TYPE;

    ghost accepted = { λ n _. below-is_some 256 n };

    ghost default_packed = { λ _ is. is };
}

impl ParseableEnumeratedProperty for JoiningType {
    ghost NAMES = { 15 };

    const NAMES: NamesTable = NamesTable::JOINING_TYPE;

    ghost names_accepted = { λ n _. below-is_some 256 n };
}
