//! The classes of the break algorithms.
ghost use Rattle.std.specs.Prelude.{◌≡◌};
ghost use Rattle.cp_trie.specs.Values.{below};
ghost use Rattle.cp_trie.specs.ValueLaws.{below-again, nat_eq-same};
ghost use Rattle.prop_values.specs.NumberedLaws.{below-is_some};

use crate::property::{EnumeratedProperty, ParseableEnumeratedProperty};
use crate::tables::{MapTable, NamesTable};
use cp_trie::{TrieValue, ValueError};
use std::marker::Model;

/// The line breaking class of a character (UAX 14).
#[derive(Clone, Copy, Debug, PartialEq, Eq, PartialOrd, Ord, Hash)]
pub struct LineBreak(u8);

impl Model for LineBreak {
    ghost use Rattle.std.specs.Prelude.{ℕ};

    ghost Value = { ℕ };

    ghost view = { λ value. value.0 };

    ghost inverse = { λ number. record { 0 = number } };
}

impl LineBreak {
    /// `Unknown` (`XX`).
    pub const Unknown: LineBreak = LineBreak(0);

    /// The number of the value.
    pub fn to_icu4c_value(self) -> u8
        ensures { result ≡ self }
    {
        self.0
    }

    /// The value of the number.
    pub fn from_icu4c_value(value: u8) -> LineBreak
        ensures { result ≡ value }
    {
        LineBreak(value)
    }
}

impl Default for LineBreak {
    ghost is_default = { λ value. value ≡ 0 };

    fn default() -> LineBreak {
        LineBreak::Unknown
    }
}

impl TrieValue for LineBreak {
    ghost unpacked = { below 256 };

    ghost packed = { λ value. value };

    ghost unpacks_again = { below-again 256 };

    ghost eq_is_same = { nat_eq-same };

    fn try_from_u32(i: u32) -> Result<LineBreak, ValueError> {
        Ok(LineBreak(u8::try_from_u32(i)?))
    }

    fn to_u32(self) -> u32 {
        u32::from(self.0)
    }
}

impl EnumeratedProperty for LineBreak {
    ghost TABLE = { 7 };

    const NAME: &'static [u8] = b"Line_Break";

    const SHORT_NAME: &'static [u8] = b"lb";

    const TABLE: MapTable = MapTable::LINE_BREAK;

    ghost accepted = { λ n _. below-is_some 256 n };

    ghost default_packed = { λ _ is. is };
}

impl ParseableEnumeratedProperty for LineBreak {
    ghost NAMES = { 7 };

    const NAMES: NamesTable = NamesTable::LINE_BREAK;

    ghost names_accepted = { λ n _. below-is_some 256 n };
}

/// The class of a character in the breaking of grapheme clusters (UAX 29, section 3).
#[derive(Clone, Copy, Debug, PartialEq, Eq, PartialOrd, Ord, Hash)]
pub struct GraphemeClusterBreak(u8);

impl Model for GraphemeClusterBreak {
    ghost use Rattle.std.specs.Prelude.{ℕ};

    ghost Value = { ℕ };

    ghost view = { λ value. value.0 };

    ghost inverse = { λ number. record { 0 = number } };
}

impl GraphemeClusterBreak {
    /// `Other` (`XX`).
    pub const Other: GraphemeClusterBreak = GraphemeClusterBreak(0);

    /// The number of the value.
    pub fn to_icu4c_value(self) -> u8
        ensures { result ≡ self }
    {
        self.0
    }

    /// The value of the number.
    pub fn from_icu4c_value(value: u8) -> GraphemeClusterBreak
        ensures { result ≡ value }
    {
        GraphemeClusterBreak(value)
    }
}

impl Default for GraphemeClusterBreak {
    ghost is_default = { λ value. value ≡ 0 };

    fn default() -> GraphemeClusterBreak {
        GraphemeClusterBreak::Other
    }
}

impl TrieValue for GraphemeClusterBreak {
    ghost unpacked = { below 256 };

    ghost packed = { λ value. value };

    ghost unpacks_again = { below-again 256 };

    ghost eq_is_same = { nat_eq-same };

    fn try_from_u32(i: u32) -> Result<GraphemeClusterBreak, ValueError> {
        Ok(GraphemeClusterBreak(u8::try_from_u32(i)?))
    }

    fn to_u32(self) -> u32 {
        u32::from(self.0)
    }
}

impl EnumeratedProperty for GraphemeClusterBreak {
    ghost TABLE = { 8 };

    const NAME: &'static [u8] = b"Grapheme_Cluster_Break";

    const SHORT_NAME: &'static [u8] = b"GCB";

    const TABLE: MapTable = MapTable::GRAPHEME_CLUSTER_BREAK;

    ghost accepted = { λ n _. below-is_some 256 n };

    ghost default_packed = { λ _ is. is };
}

impl ParseableEnumeratedProperty for GraphemeClusterBreak {
    ghost NAMES = { 8 };

    const NAMES: NamesTable = NamesTable::GRAPHEME_CLUSTER_BREAK;

    ghost names_accepted = { λ n _. below-is_some 256 n };
}

/// The class of a character in the breaking of words (UAX 29, section 4).
#[derive(Clone, Copy, Debug, PartialEq, Eq, PartialOrd, Ord, Hash)]
pub struct WordBreak(u8);

impl Model for WordBreak {
    ghost use Rattle.std.specs.Prelude.{ℕ};

    ghost Value = { ℕ };

    ghost view = { λ value. value.0 };

    ghost inverse = { λ number. record { 0 = number } };
}

impl WordBreak {
    /// `Other` (`XX`).
    pub const Other: WordBreak = WordBreak(0);

    /// The number of the value.
    pub fn to_icu4c_value(self) -> u8
        ensures { result ≡ self }
    {
        self.0
    }

    /// The value of the number.
    pub fn from_icu4c_value(value: u8) -> WordBreak
        ensures { result ≡ value }
    {
        WordBreak(value)
    }
}

impl Default for WordBreak {
    ghost is_default = { λ value. value ≡ 0 };

    fn default() -> WordBreak {
        WordBreak::Other
    }
}

impl TrieValue for WordBreak {
    ghost unpacked = { below 256 };

    ghost packed = { λ value. value };

    ghost unpacks_again = { below-again 256 };

    ghost eq_is_same = { nat_eq-same };

    fn try_from_u32(i: u32) -> Result<WordBreak, ValueError> {
        Ok(WordBreak(u8::try_from_u32(i)?))
    }

    fn to_u32(self) -> u32 {
        u32::from(self.0)
    }
}

impl EnumeratedProperty for WordBreak {
    ghost TABLE = { 9 };

    const NAME: &'static [u8] = b"Word_Break";

    const SHORT_NAME: &'static [u8] = b"WB";

    const TABLE: MapTable = MapTable::WORD_BREAK;

    ghost accepted = { λ n _. below-is_some 256 n };

    ghost default_packed = { λ _ is. is };
}

impl ParseableEnumeratedProperty for WordBreak {
    ghost NAMES = { 9 };

    const NAMES: NamesTable = NamesTable::WORD_BREAK;

    ghost names_accepted = { λ n _. below-is_some 256 n };
}

/// The class of a character in the breaking of sentences (UAX 29, section 5).
#[derive(Clone, Copy, Debug, PartialEq, Eq, PartialOrd, Ord, Hash)]
pub struct SentenceBreak(u8);

impl Model for SentenceBreak {
    ghost use Rattle.std.specs.Prelude.{ℕ};

    ghost Value = { ℕ };

    ghost view = { λ value. value.0 };

    ghost inverse = { λ number. record { 0 = number } };
}

impl SentenceBreak {
    /// `Other` (`XX`).
    pub const Other: SentenceBreak = SentenceBreak(0);

    /// The number of the value.
    pub fn to_icu4c_value(self) -> u8
        ensures { result ≡ self }
    {
        self.0
    }

    /// The value of the number.
    pub fn from_icu4c_value(value: u8) -> SentenceBreak
        ensures { result ≡ value }
    {
        SentenceBreak(value)
    }
}

impl Default for SentenceBreak {
    ghost is_default = { λ value. value ≡ 0 };

    fn default() -> SentenceBreak {
        SentenceBreak::Other
    }
}

impl TrieValue for SentenceBreak {
    ghost unpacked = { below 256 };

    ghost packed = { λ value. value };

    ghost unpacks_again = { below-again 256 };

    ghost eq_is_same = { nat_eq-same };

    fn try_from_u32(i: u32) -> Result<SentenceBreak, ValueError> {
        Ok(SentenceBreak(u8::try_from_u32(i)?))
    }

    fn to_u32(self) -> u32 {
        u32::from(self.0)
    }
}

impl EnumeratedProperty for SentenceBreak {
    ghost TABLE = { 10 };

    const NAME: &'static [u8] = b"Sentence_Break";

    const SHORT_NAME: &'static [u8] = b"SB";

    const TABLE: MapTable = MapTable::SENTENCE_BREAK;

    ghost accepted = { λ n _. below-is_some 256 n };

    ghost default_packed = { λ _ is. is };
}

impl ParseableEnumeratedProperty for SentenceBreak {
    ghost NAMES = { 10 };

    const NAMES: NamesTable = NamesTable::SENTENCE_BREAK;

    ghost names_accepted = { λ n _. below-is_some 256 n };
}
