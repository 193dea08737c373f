//! The tables of values and of names of the enumerated properties.
ghost use Rattle.std.specs.Prelude.{◌≡◌, ◌<◌, Some, ℕ, slice_get};
ghost use Rattle.std.specs.List.{position};
ghost use Rattle.std.specs.Str.{bytes_eq};
ghost use Rattle.prop_values.specs.Tables.{map_table_names, names_table_names, accepts, default_number, accepts_name_of};

use crate::glyph::is_glyph_number;
use crate::script::Script;
use cp_trie::TrieValue;
use std::marker::Model;

const BIDI_CLASS: &[u8] = b"Bidi_Class";

const BLOCK: &[u8] = b"Block";

const NUMERIC_TYPE: &[u8] = b"Numeric_Type";

const GENERAL_CATEGORY: &[u8] = b"General_Category";

const SCRIPT: &[u8] = b"Script";

const HANGUL_SYLLABLE_TYPE: &[u8] = b"Hangul_Syllable_Type";

const EAST_ASIAN_WIDTH: &[u8] = b"East_Asian_Width";

const LINE_BREAK: &[u8] = b"Line_Break";

const GRAPHEME_CLUSTER_BREAK: &[u8] = b"Grapheme_Cluster_Break";

const WORD_BREAK: &[u8] = b"Word_Break";

const SENTENCE_BREAK: &[u8] = b"Sentence_Break";

const CANONICAL_COMBINING_CLASS: &[u8] = b"Canonical_Combining_Class";

const INDIC_CONJUNCT_BREAK: &[u8] = b"Indic_Conjunct_Break";

const INDIC_SYLLABIC_CATEGORY: &[u8] = b"Indic_Syllabic_Category";

const JOINING_GROUP: &[u8] = b"Joining_Group";

const JOINING_TYPE: &[u8] = b"Joining_Type";

const VERTICAL_ORIENTATION: &[u8] = b"Vertical_Orientation";

const BIDI_MIRRORING_GLYPH: &[u8] = b"Bidi_Mirroring_Glyph";

const GENERAL_CATEGORY_MASK: &[u8] = b"General_Category_Mask";

const MAP_TABLE_NAMES: [&[u8]; 18] = [
    BIDI_CLASS,
    BLOCK,
    NUMERIC_TYPE,
    GENERAL_CATEGORY,
    SCRIPT,
    HANGUL_SYLLABLE_TYPE,
    EAST_ASIAN_WIDTH,
    LINE_BREAK,
    GRAPHEME_CLUSTER_BREAK,
    WORD_BREAK,
    SENTENCE_BREAK,
    CANONICAL_COMBINING_CLASS,
    INDIC_CONJUNCT_BREAK,
    INDIC_SYLLABIC_CATEGORY,
    JOINING_GROUP,
    JOINING_TYPE,
    VERTICAL_ORIENTATION,
    BIDI_MIRRORING_GLYPH,
];

const NAMES_TABLE_NAMES: [&[u8]; 18] = [
    BIDI_CLASS,
    BLOCK,
    NUMERIC_TYPE,
    GENERAL_CATEGORY,
    SCRIPT,
    HANGUL_SYLLABLE_TYPE,
    EAST_ASIAN_WIDTH,
    LINE_BREAK,
    GRAPHEME_CLUSTER_BREAK,
    WORD_BREAK,
    SENTENCE_BREAK,
    CANONICAL_COMBINING_CLASS,
    INDIC_CONJUNCT_BREAK,
    INDIC_SYLLABIC_CATEGORY,
    JOINING_GROUP,
    JOINING_TYPE,
    VERTICAL_ORIENTATION,
    GENERAL_CATEGORY_MASK,
];

/// The table of values of a property, as a number from 0 to 17. A contract sees it as that number.
#[derive(Clone, Copy, Debug, PartialEq, Eq)]
pub struct MapTable {
    number: u8,
}

impl Model for MapTable {
    ghost Value = { ℕ };

    ghost view = { λ table. table.number };

    ghost invariant = { λ table. table.number < 18 };

    ghost inverse = { λ number. record { number = number } };
}

impl MapTable {
    /// The table of `Bidi_Class`.
    pub const BIDI_CLASS: MapTable = MapTable { number: 0 };

    /// The table of `Block`.
    pub const BLOCK: MapTable = MapTable { number: 1 };

    /// The table of `Numeric_Type`.
    pub const NUMERIC_TYPE: MapTable = MapTable { number: 2 };

    /// The table of `General_Category`.
    pub const GENERAL_CATEGORY: MapTable = MapTable { number: 3 };

    /// The table of `Script`.
    pub const SCRIPT: MapTable = MapTable { number: 4 };

    /// The table of `Hangul_Syllable_Type`.
    pub const HANGUL_SYLLABLE_TYPE: MapTable = MapTable { number: 5 };

    /// The table of `East_Asian_Width`.
    pub const EAST_ASIAN_WIDTH: MapTable = MapTable { number: 6 };

    /// The table of `Line_Break`.
    pub const LINE_BREAK: MapTable = MapTable { number: 7 };

    /// The table of `Grapheme_Cluster_Break`.
    pub const GRAPHEME_CLUSTER_BREAK: MapTable = MapTable { number: 8 };

    /// The table of `Word_Break`.
    pub const WORD_BREAK: MapTable = MapTable { number: 9 };

    /// The table of `Sentence_Break`.
    pub const SENTENCE_BREAK: MapTable = MapTable { number: 10 };

    /// The table of `Canonical_Combining_Class`.
    pub const CANONICAL_COMBINING_CLASS: MapTable = MapTable { number: 11 };

    /// The table of `Indic_Conjunct_Break`.
    pub const INDIC_CONJUNCT_BREAK: MapTable = MapTable { number: 12 };

    /// The table of `Indic_Syllabic_Category`.
    pub const INDIC_SYLLABIC_CATEGORY: MapTable = MapTable { number: 13 };

    /// The table of `Joining_Group`.
    pub const JOINING_GROUP: MapTable = MapTable { number: 14 };

    /// The table of `Joining_Type`.
    pub const JOINING_TYPE: MapTable = MapTable { number: 15 };

    /// The table of `Vertical_Orientation`.
    pub const VERTICAL_ORIENTATION: MapTable = MapTable { number: 16 };

    /// The table of `Bidi_Mirroring_Glyph`.
    pub const BIDI_MIRRORING_GLYPH: MapTable = MapTable { number: 17 };

    /// The number of the table.
    pub fn number(self) -> u8
        ensures value { result ≡ self }
        ensures small { result < 18 }
    {
        self.number
    }

    /// The name of the table, which is the long name of its property (UAX 44, section 5.1).
    pub fn name(self) -> &'static [u8]
        ensures { slice_get map_table_names self ≡ Some result.now }
    {
        MAP_TABLE_NAMES[usize::from(self.number)]
    }

    /// The table of this name, compared byte for byte. `None` where no table has it.
    pub fn from_name(name: &[u8]) -> Option<MapTable>
        ensures { result ≡ position (λ known. bytes_eq known name.now) map_table_names }
    {
        let number = place_of(&MAP_TABLE_NAMES, name)?;
        Some(MapTable {
            number: number as u8,
        })
    }

    /// Whether the number unpacks to a value of the property.
    pub fn accepts(self, n: u32) -> bool
        ensures { result ≡ accepts self n }
    {
        if self == MapTable::GENERAL_CATEGORY {
            n < 30
        } else if self == MapTable::BLOCK || self == MapTable::SCRIPT {
            n < 0x1_0000
        } else if self == MapTable::BIDI_MIRRORING_GLYPH {
            is_glyph_number(n)
        } else {
            n < 0x100
        }
    }

    /// The number of the property's default.
    pub fn default_number(self) -> u32
        ensures { result ≡ default_number self }
    {
        if self == MapTable::SCRIPT {
            Script::Unknown.to_u32()
        } else {
            0
        }
    }
}

/// The table of the names of a property's values, as a number from 0 to 17: the tables 0 to 16 are those of the properties
/// whose tables of values have these numbers, and 17 is that of the groups of categories. A contract sees it as its number.
#[derive(Clone, Copy, Debug, PartialEq, Eq)]
pub struct NamesTable {
    number: u8,
}

impl Model for NamesTable {
    ghost Value = { ℕ };

    ghost view = { λ table. table.number };

    ghost invariant = { λ table. table.number < 18 };

    ghost inverse = { λ number. record { number = number } };
}

impl NamesTable {
    /// The table of the names of `Bidi_Class`.
    pub const BIDI_CLASS: NamesTable = NamesTable { number: 0 };

    /// The table of the names of `Block`.
    pub const BLOCK: NamesTable = NamesTable { number: 1 };

    /// The table of the names of `Numeric_Type`.
    pub const NUMERIC_TYPE: NamesTable = NamesTable { number: 2 };

    /// The table of the names of `General_Category`.
    pub const GENERAL_CATEGORY: NamesTable = NamesTable { number: 3 };

    /// The table of the names of `Script`.
    pub const SCRIPT: NamesTable = NamesTable { number: 4 };

    /// The table of the names of `Hangul_Syllable_Type`.
    pub const HANGUL_SYLLABLE_TYPE: NamesTable = NamesTable { number: 5 };

    /// The table of the names of `East_Asian_Width`.
    pub const EAST_ASIAN_WIDTH: NamesTable = NamesTable { number: 6 };

    /// The table of the names of `Line_Break`.
    pub const LINE_BREAK: NamesTable = NamesTable { number: 7 };

    /// The table of the names of `Grapheme_Cluster_Break`.
    pub const GRAPHEME_CLUSTER_BREAK: NamesTable = NamesTable { number: 8 };

    /// The table of the names of `Word_Break`.
    pub const WORD_BREAK: NamesTable = NamesTable { number: 9 };

    /// The table of the names of `Sentence_Break`.
    pub const SENTENCE_BREAK: NamesTable = NamesTable { number: 10 };

    /// The table of the names of `Canonical_Combining_Class`.
    pub const CANONICAL_COMBINING_CLASS: NamesTable = NamesTable { number: 11 };

    /// The table of the names of `Indic_Conjunct_Break`.
    pub const INDIC_CONJUNCT_BREAK: NamesTable = NamesTable { number: 12 };

    /// The table of the names of `Indic_Syllabic_Category`.
    pub const INDIC_SYLLABIC_CATEGORY: NamesTable = NamesTable { number: 13 };

    /// The table of the names of `Joining_Group`.
    pub const JOINING_GROUP: NamesTable = NamesTable { number: 14 };

    /// The table of the names of `Joining_Type`.
    pub const JOINING_TYPE: NamesTable = NamesTable { number: 15 };

    /// The table of the names of `Vertical_Orientation`.
    pub const VERTICAL_ORIENTATION: NamesTable = NamesTable { number: 16 };

    /// The table of the names of `General_Category_Mask`.
    pub const GENERAL_CATEGORY_MASK: NamesTable = NamesTable { number: 17 };

    /// The number of the table.
    pub fn number(self) -> u8
        ensures value { result ≡ self }
        ensures small { result < 18 }
    {
        self.number
    }

    /// The name of the table: the long name of its property, or `General_Category_Mask`.
    pub fn name(self) -> &'static [u8]
        ensures { slice_get names_table_names self ≡ Some result.now }
    {
        NAMES_TABLE_NAMES[usize::from(self.number)]
    }

    /// The table of this name, compared byte for byte. `None` where no table has it.
    pub fn from_name(name: &[u8]) -> Option<NamesTable>
        ensures { result ≡ position (λ known. bytes_eq known name.now) names_table_names }
    {
        let number = place_of(&NAMES_TABLE_NAMES, name)?;
        Some(NamesTable {
            number: number as u8,
        })
    }

    /// Whether the number, 16 bits wide, stands for a value of the property. In the table of `General_Category_Mask` each stands
    /// for a group of categories.
    pub fn accepts(self, n: u16) -> bool
        ensures { result ≡ accepts_name_of self n }
    {
        self == NamesTable::GENERAL_CATEGORY_MASK
            || MapTable {
                number: self.number,
            }
            .accepts(u32::from(n))
    }
}

/// The index of the first of the names that equals the text.
fn place_of(names: &[&[u8]], text: &[u8]) -> Option<usize>
    ensures { result ≡ position (λ name. bytes_eq name.now text.now) names.now }
{
    names.iter().position(|name| *name == text)
}
