//! The bidirectional class.
ghost use Rattle.std.specs.Prelude.{◌≡◌};
ghost use Rattle.cp_trie.specs.Values.{below};
ghost use Rattle.cp_trie.specs.ValueLaws.{below-again, nat_eq-same};
ghost use Rattle.prop_values.specs.NumberedLaws.{below-is_some};

use crate::property::{EnumeratedProperty, ParseableEnumeratedProperty};
use crate::tables::{MapTable, NamesTable};
use cp_trie::{TrieValue, ValueError};
use std::marker::Model;

/// The bidirectional class of a character (UAX 9; UAX 44, section 5.7.2).
#[derive(Clone, Copy, Debug, PartialEq, Eq, PartialOrd, Ord, Hash)]
pub struct BidiClass(u8);

impl Model for BidiClass {
    ghost use Rattle.std.specs.Prelude.{ℕ};

    ghost Value = { ℕ };

    ghost view = { λ value. value.0 };

    ghost inverse = { λ number. record { 0 = number } };
}

impl BidiClass {
    /// `Left_To_Right` (`L`).
    pub const LeftToRight: BidiClass = BidiClass(0);

    /// `Right_To_Left` (`R`).
    pub const RightToLeft: BidiClass = BidiClass(1);

    /// `European_Number` (`EN`).
    pub const EuropeanNumber: BidiClass = BidiClass(2);

    /// `European_Separator` (`ES`).
    pub const EuropeanSeparator: BidiClass = BidiClass(3);

    /// `European_Terminator` (`ET`).
    pub const EuropeanTerminator: BidiClass = BidiClass(4);

    /// `Arabic_Number` (`AN`).
    pub const ArabicNumber: BidiClass = BidiClass(5);

    /// `Common_Separator` (`CS`).
    pub const CommonSeparator: BidiClass = BidiClass(6);

    /// `Paragraph_Separator` (`B`).
    pub const ParagraphSeparator: BidiClass = BidiClass(7);

    /// `Segment_Separator` (`S`).
    pub const SegmentSeparator: BidiClass = BidiClass(8);

    /// `White_Space` (`WS`).
    pub const WhiteSpace: BidiClass = BidiClass(9);

    /// `Other_Neutral` (`ON`).
    pub const OtherNeutral: BidiClass = BidiClass(10);

    /// `Left_To_Right_Embedding` (`LRE`).
    pub const LeftToRightEmbedding: BidiClass = BidiClass(11);

    /// `Left_To_Right_Override` (`LRO`).
    pub const LeftToRightOverride: BidiClass = BidiClass(12);

    /// `Arabic_Letter` (`AL`).
    pub const ArabicLetter: BidiClass = BidiClass(13);

    /// `Right_To_Left_Embedding` (`RLE`).
    pub const RightToLeftEmbedding: BidiClass = BidiClass(14);

    /// `Right_To_Left_Override` (`RLO`).
    pub const RightToLeftOverride: BidiClass = BidiClass(15);

    /// `Pop_Directional_Format` (`PDF`).
    pub const PopDirectionalFormat: BidiClass = BidiClass(16);

    /// `Nonspacing_Mark` (`NSM`).
    pub const NonspacingMark: BidiClass = BidiClass(17);

    /// `Boundary_Neutral` (`BN`).
    pub const BoundaryNeutral: BidiClass = BidiClass(18);

    /// `First_Strong_Isolate` (`FSI`).
    pub const FirstStrongIsolate: BidiClass = BidiClass(19);

    /// `Left_To_Right_Isolate` (`LRI`).
    pub const LeftToRightIsolate: BidiClass = BidiClass(20);

    /// `Right_To_Left_Isolate` (`RLI`).
    pub const RightToLeftIsolate: BidiClass = BidiClass(21);

    /// `Pop_Directional_Isolate` (`PDI`).
    pub const PopDirectionalIsolate: BidiClass = BidiClass(22);

    /// The number of the value.
    pub fn to_icu4c_value(self) -> u8
        ensures { result ≡ self }
    {
        self.0
    }

    /// The value of the number.
    pub fn from_icu4c_value(value: u8) -> BidiClass
        ensures { result ≡ value }
    {
        BidiClass(value)
    }
}

impl Default for BidiClass {
    ghost is_default = { λ value. value ≡ 0 };

    fn default() -> BidiClass {
        BidiClass::LeftToRight
    }
}

impl TrieValue for BidiClass {
    ghost unpacked = { below 256 };

    ghost packed = { λ value. value };

    ghost unpacks_again = { below-again 256 };

    ghost eq_is_same = { nat_eq-same };

    fn try_from_u32(i: u32) -> Result<BidiClass, ValueError> {
        Ok(BidiClass(u8::try_from_u32(i)?))
    }

    fn to_u32(self) -> u32 {
        u32::from(self.0)
    }
}

impl EnumeratedProperty for BidiClass {
    ghost TABLE = { 0 };

    const NAME: &'static [u8] = b"Bidi_Class";

    const SHORT_NAME: &'static [u8] = b"bc";

    const TABLE: MapTable = MapTable::BIDI_CLASS;

    ghost accepted = { λ n _. below-is_some 256 n };

    ghost default_packed = { λ _ is. is };
}

impl ParseableEnumeratedProperty for BidiClass {
    ghost NAMES = { 0 };

    const NAMES: NamesTable = NamesTable::BIDI_CLASS;

    ghost names_accepted = { λ n _. below-is_some 256 n };
}
