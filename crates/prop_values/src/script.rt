//! Scripts.
ghost use Rattle.std.specs.Prelude.{◌≡◌, ◌%◌, ◌==◌, nat_lt};
ghost use Rattle.cp_trie.specs.Values.{below};
ghost use Rattle.cp_trie.specs.ValueLaws.{below-again, nat_eq-same};
ghost use Rattle.prop_values.specs.NumberedLaws.{below-is_some};
ghost use Rattle.prop_values.specs.ScriptWithExt.{kind_of, with_extensions};

use crate::property::{EnumeratedProperty, ParseableEnumeratedProperty};
use crate::tables::{MapTable, NamesTable};
use cp_trie::{TrieValue, ValueError};
use std::marker::Model;

/// The script of a character (UAX 24).
#[derive(Clone, Copy, Debug, PartialEq, Eq, PartialOrd, Ord, Hash)]
pub struct Script(u16);

impl Model for Script {
    ghost use Rattle.std.specs.Prelude.{ℕ};

    ghost Value = { ℕ };

    ghost view = { λ value. value.0 };

    ghost inverse = { λ number. record { 0 = number } };
}

impl Script {
    /// `Common` (`Zyyy`).
    pub const Common: Script = Script(0);

    /// `Inherited` (`Zinh`).
    pub const Inherited: Script = Script(1);

    /// `Bengali` (`Beng`).
    pub const Bengali: Script = Script(4);

    /// `Cyrillic` (`Cyrl`).
    pub const Cyrillic: Script = Script(8);

    /// `Devanagari` (`Deva`).
    pub const Devanagari: Script = Script(10);

    /// `Ethiopic` (`Ethi`).
    pub const Ethiopic: Script = Script(11);

    /// `Ethiopic` (`Ethi`).
    pub const Ethiopian: Script = Script::Ethiopic;

    /// `Han` (`Hani`).
    pub const Han: Script = Script(17);

    /// `Latin` (`Latn`).
    pub const Latin: Script = Script(25);

    /// `Thai`.
    pub const Thai: Script = Script(38);

    /// `Unknown` (`Zzzz`).
    pub const Unknown: Script = Script(103);

    /// `Lisu`.
    pub const Lisu: Script = Script(131);

    /// `Chisoi`, by a number that stands for the one to come.
    pub const Chisoi: Script = Script(60000);

    /// The number of the value.
    pub fn to_icu4c_value(self) -> u16
        ensures { result ≡ self }
    {
        self.0
    }

    /// The value of the number.
    pub fn from_icu4c_value(value: u16) -> Script
        ensures { result ≡ value }
    {
        Script(value)
    }
}

impl Default for Script {
    ghost is_default = { λ value. value ≡ 103 };

    fn default() -> Script {
        Script::Unknown
    }
}

impl TrieValue for Script {
    ghost unpacked = { below 65536 };

    ghost packed = { λ value. value };

    ghost unpacks_again = { below-again 65536 };

    ghost eq_is_same = { nat_eq-same };

    fn try_from_u32(i: u32) -> Result<Script, ValueError> {
        Ok(Script(u16::try_from_u32(i)?))
    }

    fn to_u32(self) -> u32 {
        u32::from(self.0)
    }
}

impl EnumeratedProperty for Script {
    ghost TABLE = { 4 };

    const NAME: &'static [u8] = b"Script";

    const SHORT_NAME: &'static [u8] = b"sc";

    const TABLE: MapTable = MapTable::SCRIPT;

    ghost accepted = { λ n _. below-is_some 65536 n };

    ghost default_packed = { λ _ is. is };
}

impl ParseableEnumeratedProperty for Script {
    ghost NAMES = { 4 };

    const NAMES: NamesTable = NamesTable::SCRIPT;

    ghost names_accepted = { λ n _. below-is_some 65536 n };
}

/// A script, or the place of a list of scripts, as the map of script extensions (UAX 24, section 2.8) keeps it for a
/// code point. The kind stands above the low ten bits: 0 for a script alone, 1 for Common, 2 for Inherited and 3 for
/// another script, each with a list at the index in the low ten bits. Above 3 the whole number is a script.
#[derive(Clone, Copy, Debug, PartialEq, Eq)]
pub struct ScriptWithExt(pub u16);

impl Model for ScriptWithExt {
    ghost use Rattle.std.specs.Prelude.{ℕ};

    ghost Value = { ℕ };

    ghost view = { λ value. value.0 };

    ghost inverse = { λ number. record { 0 = number } };
}

/// The low ten bits are below this number, which the kind counts.
const KIND_UNIT: u16 = 1024;

impl ScriptWithExt {
    /// The script Unknown alone.
    pub const Unknown: ScriptWithExt = ScriptWithExt(103);

    /// The low ten bits of the script's number, which are a script alone.
    pub fn single(script: Script) -> ScriptWithExt
        ensures { result ≡ script % 1024 }
    {
        ScriptWithExt(script.0 % KIND_UNIT)
    }

    /// Extensions of a script, whose list has the low ten bits of the number as its index.
    pub fn new(script: Script, extensions: u16) -> ScriptWithExt
        ensures { result ≡ with_extensions script extensions }
    {
        let kind = if script == Script::Common {
            1
        } else if script == Script::Inherited {
            2
        } else {
            3
        };
        ScriptWithExt(kind * KIND_UNIT + extensions % KIND_UNIT)
    }

    /// Whether the script is Common with a list of extensions.
    pub fn is_common(&self) -> bool
        ensures { result ≡ (kind_of self.now == 1) }
    {
        self.0 / KIND_UNIT == 1
    }

    /// Whether the script is Inherited with a list of extensions.
    pub fn is_inherited(&self) -> bool
        ensures { result ≡ (kind_of self.now == 2) }
    {
        self.0 / KIND_UNIT == 2
    }

    /// Whether the script is another one, which is the first of the list.
    pub fn is_other(&self) -> bool
        ensures { result ≡ (kind_of self.now == 3) }
    {
        self.0 / KIND_UNIT == 3
    }

    /// The index in the low ten bits, of a list where the kind is 1, 2 or 3.
    pub fn list_index(self) -> u16
        ensures { result ≡ self % 1024 }
    {
        self.0 % KIND_UNIT
    }

    /// Whether the kind is above 0.
    pub fn has_extensions(&self) -> bool
        ensures { result ≡ nat_lt 0 (kind_of self.now) }
    {
        self.0 / KIND_UNIT > 0
    }
}

impl From<ScriptWithExt> for u32 {
    ghost from_gives = { λ value number. number ≡ value };

    fn from(value: ScriptWithExt) -> u32 {
        u32::from(value.0)
    }
}

impl From<ScriptWithExt> for Script {
    ghost from_gives = { λ value script. script ≡ value };

    fn from(value: ScriptWithExt) -> Script {
        Script(value.0)
    }
}

impl TrieValue for ScriptWithExt {
    ghost unpacked = { below 65536 };

    ghost packed = { λ value. value };

    ghost unpacks_again = { below-again 65536 };

    ghost eq_is_same = { nat_eq-same };

    fn try_from_u32(i: u32) -> Result<ScriptWithExt, ValueError> {
        Ok(ScriptWithExt(u16::try_from_u32(i)?))
    }

    fn to_u32(self) -> u32 {
        u32::from(self.0)
    }
}
