//! The tables of the sets of binary properties and of the emoji sets.
ghost use Rattle.std.specs.Prelude.{◌≡◌, ◌<◌, ℕ, Some, IfSome, length, slice_get};
ghost use Rattle.std.specs.List.{position};
ghost use Rattle.std.specs.Str.{bytes_eq};
ghost use Rattle.prop_binary.specs.Tables.{set_table_names, emoji_table_names};

use crate::names::{PropertyNames, property_names};
use std::marker::Model;

/// The table of the set of a binary property, as a number from 0 to 68. A contract sees it as that number.
#[derive(Clone, Copy, Debug, PartialEq, Eq)]
pub struct SetTable {
    number: u8,
}

impl Model for SetTable {
    ghost Value = { ℕ };

    ghost view = { λ table. table.number };

    ghost invariant = { λ table. table.number < 69 };

    ghost inverse = { λ number. record { number = number } };
}

impl SetTable {
    /// The table of `ASCII_Hex_Digit`.
    pub const ASCII_HEX_DIGIT: SetTable = SetTable { number: 0 };

    /// The table of `alnum`.
    pub const ALNUM: SetTable = SetTable { number: 1 };

    /// The table of `Alphabetic`.
    pub const ALPHABETIC: SetTable = SetTable { number: 2 };

    /// The table of `Bidi_Control`.
    pub const BIDI_CONTROL: SetTable = SetTable { number: 3 };

    /// The table of `Bidi_Mirrored`.
    pub const BIDI_MIRRORED: SetTable = SetTable { number: 4 };

    /// The table of `blank`.
    pub const BLANK: SetTable = SetTable { number: 5 };

    /// The table of `Cased`.
    pub const CASED: SetTable = SetTable { number: 6 };

    /// The table of `Case_Ignorable`.
    pub const CASE_IGNORABLE: SetTable = SetTable { number: 7 };

    /// The table of `Full_Composition_Exclusion`.
    pub const FULL_COMPOSITION_EXCLUSION: SetTable = SetTable { number: 8 };

    /// The table of `Changes_When_Casefolded`.
    pub const CHANGES_WHEN_CASEFOLDED: SetTable = SetTable { number: 9 };

    /// The table of `Changes_When_Casemapped`.
    pub const CHANGES_WHEN_CASEMAPPED: SetTable = SetTable { number: 10 };

    /// The table of `Changes_When_NFKC_Casefolded`.
    pub const CHANGES_WHEN_NFKC_CASEFOLDED: SetTable = SetTable { number: 11 };

    /// The table of `Changes_When_Lowercased`.
    pub const CHANGES_WHEN_LOWERCASED: SetTable = SetTable { number: 12 };

    /// The table of `Changes_When_Titlecased`.
    pub const CHANGES_WHEN_TITLECASED: SetTable = SetTable { number: 13 };

    /// The table of `Changes_When_Uppercased`.
    pub const CHANGES_WHEN_UPPERCASED: SetTable = SetTable { number: 14 };

    /// The table of `Dash`.
    pub const DASH: SetTable = SetTable { number: 15 };

    /// The table of `Deprecated`.
    pub const DEPRECATED: SetTable = SetTable { number: 16 };

    /// The table of `Default_Ignorable_Code_Point`.
    pub const DEFAULT_IGNORABLE_CODE_POINT: SetTable = SetTable { number: 17 };

    /// The table of `Diacritic`.
    pub const DIACRITIC: SetTable = SetTable { number: 18 };

    /// The table of `Emoji_Modifier_Base`.
    pub const EMOJI_MODIFIER_BASE: SetTable = SetTable { number: 19 };

    /// The table of `Emoji_Component`.
    pub const EMOJI_COMPONENT: SetTable = SetTable { number: 20 };

    /// The table of `Emoji_Modifier`.
    pub const EMOJI_MODIFIER: SetTable = SetTable { number: 21 };

    /// The table of `Emoji`.
    pub const EMOJI: SetTable = SetTable { number: 22 };

    /// The table of `Emoji_Presentation`.
    pub const EMOJI_PRESENTATION: SetTable = SetTable { number: 23 };

    /// The table of `Extender`.
    pub const EXTENDER: SetTable = SetTable { number: 24 };

    /// The table of `Extended_Pictographic`.
    pub const EXTENDED_PICTOGRAPHIC: SetTable = SetTable { number: 25 };

    /// The table of `graph`.
    pub const GRAPH: SetTable = SetTable { number: 26 };

    /// The table of `Grapheme_Base`.
    pub const GRAPHEME_BASE: SetTable = SetTable { number: 27 };

    /// The table of `Grapheme_Extend`.
    pub const GRAPHEME_EXTEND: SetTable = SetTable { number: 28 };

    /// The table of `Grapheme_Link`.
    pub const GRAPHEME_LINK: SetTable = SetTable { number: 29 };

    /// The table of `Hex_Digit`.
    pub const HEX_DIGIT: SetTable = SetTable { number: 30 };

    /// The table of `Hyphen`.
    pub const HYPHEN: SetTable = SetTable { number: 31 };

    /// The table of `ID_Compat_Math_Continue`.
    pub const ID_COMPAT_MATH_CONTINUE: SetTable = SetTable { number: 32 };

    /// The table of `ID_Compat_Math_Start`.
    pub const ID_COMPAT_MATH_START: SetTable = SetTable { number: 33 };

    /// The table of `ID_Continue`.
    pub const ID_CONTINUE: SetTable = SetTable { number: 34 };

    /// The table of `Ideographic`.
    pub const IDEOGRAPHIC: SetTable = SetTable { number: 35 };

    /// The table of `ID_Start`.
    pub const ID_START: SetTable = SetTable { number: 36 };

    /// The table of `IDS_Binary_Operator`.
    pub const IDS_BINARY_OPERATOR: SetTable = SetTable { number: 37 };

    /// The table of `IDS_Trinary_Operator`.
    pub const IDS_TRINARY_OPERATOR: SetTable = SetTable { number: 38 };

    /// The table of `IDS_Unary_Operator`.
    pub const IDS_UNARY_OPERATOR: SetTable = SetTable { number: 39 };

    /// The table of `Join_Control`.
    pub const JOIN_CONTROL: SetTable = SetTable { number: 40 };

    /// The table of `Logical_Order_Exception`.
    pub const LOGICAL_ORDER_EXCEPTION: SetTable = SetTable { number: 41 };

    /// The table of `Lowercase`.
    pub const LOWERCASE: SetTable = SetTable { number: 42 };

    /// The table of `Math`.
    pub const MATH: SetTable = SetTable { number: 43 };

    /// The table of `Modifier_Combining_Mark`.
    pub const MODIFIER_COMBINING_MARK: SetTable = SetTable { number: 44 };

    /// The table of `Noncharacter_Code_Point`.
    pub const NONCHARACTER_CODE_POINT: SetTable = SetTable { number: 45 };

    /// The table of `NFC_Inert`.
    pub const NFC_INERT: SetTable = SetTable { number: 46 };

    /// The table of `NFD_Inert`.
    pub const NFD_INERT: SetTable = SetTable { number: 47 };

    /// The table of `NFKC_Inert`.
    pub const NFKC_INERT: SetTable = SetTable { number: 48 };

    /// The table of `NFKD_Inert`.
    pub const NFKD_INERT: SetTable = SetTable { number: 49 };

    /// The table of `Pattern_Syntax`.
    pub const PATTERN_SYNTAX: SetTable = SetTable { number: 50 };

    /// The table of `Pattern_White_Space`.
    pub const PATTERN_WHITE_SPACE: SetTable = SetTable { number: 51 };

    /// The table of `Prepended_Concatenation_Mark`.
    pub const PREPENDED_CONCATENATION_MARK: SetTable = SetTable { number: 52 };

    /// The table of `print`.
    pub const PRINT: SetTable = SetTable { number: 53 };

    /// The table of `Quotation_Mark`.
    pub const QUOTATION_MARK: SetTable = SetTable { number: 54 };

    /// The table of `Radical`.
    pub const RADICAL: SetTable = SetTable { number: 55 };

    /// The table of `Regional_Indicator`.
    pub const REGIONAL_INDICATOR: SetTable = SetTable { number: 56 };

    /// The table of `Soft_Dotted`.
    pub const SOFT_DOTTED: SetTable = SetTable { number: 57 };

    /// The table of `Segment_Starter`.
    pub const SEGMENT_STARTER: SetTable = SetTable { number: 58 };

    /// The table of `Case_Sensitive`.
    pub const CASE_SENSITIVE: SetTable = SetTable { number: 59 };

    /// The table of `Sentence_Terminal`.
    pub const SENTENCE_TERMINAL: SetTable = SetTable { number: 60 };

    /// The table of `Terminal_Punctuation`.
    pub const TERMINAL_PUNCTUATION: SetTable = SetTable { number: 61 };

    /// The table of `Unified_Ideograph`.
    pub const UNIFIED_IDEOGRAPH: SetTable = SetTable { number: 62 };

    /// The table of `Uppercase`.
    pub const UPPERCASE: SetTable = SetTable { number: 63 };

    /// The table of `Variation_Selector`.
    pub const VARIATION_SELECTOR: SetTable = SetTable { number: 64 };

    /// The table of `White_Space`.
    pub const WHITE_SPACE: SetTable = SetTable { number: 65 };

    /// The table of `xdigit`.
    pub const XDIGIT: SetTable = SetTable { number: 66 };

    /// The table of `XID_Continue`.
    pub const XID_CONTINUE: SetTable = SetTable { number: 67 };

    /// The table of `XID_Start`.
    pub const XID_START: SetTable = SetTable { number: 68 };

    /// The number of the table.
    pub fn number(self) -> u8
        ensures value { result ≡ self }
        ensures small { result < 69 }
    {
        self.number
    }

    /// The name of the table, which is the long name of its property.
    pub fn name(self) -> &'static [u8]
        ensures { slice_get set_table_names self ≡ Some result.now }
    {
        property_names()[usize::from(self.number)].long.as_bytes()
    }

    /// The table of this name, compared byte for byte. `None` where no table has it.
    pub fn from_name(name: &[u8]) -> Option<SetTable>
        ensures { result ≡ position (λ known. bytes_eq known name.now) set_table_names }
    {
        let number = place_of(property_names(), name)?;
        Some(SetTable::of_number(number as u8))
    }

    pub(crate) fn of_number(number: u8) -> SetTable
        requires { number < 69 }
        ensures { result ≡ number }
    {
        SetTable { number }
    }
}

/// The index of the first row with this long name.
fn place_of(rows: &[PropertyNames], name: &[u8]) -> Option<usize>
    ensures place { result ≡ position (λ row. bytes_eq row.long.now name.now) rows.now }
    ensures within { IfSome result (λ place. place < length rows.now) }
{
    rows.iter().position(|row| row.long.as_bytes() == name)
}

/// The table of an emoji set (UTS 51, section 1.4.6), as a number. There is one table, with the number 0. A contract sees
/// it as that number.
#[derive(Clone, Copy, Debug, PartialEq, Eq)]
pub struct EmojiTable {
    number: u8,
}

impl Model for EmojiTable {
    ghost Value = { ℕ };

    ghost view = { λ table. table.number };

    ghost invariant = { λ table. table.number < 1 };

    ghost inverse = { λ number. record { number = number } };
}

impl EmojiTable {
    /// The table of `Basic_Emoji`.
    pub const BASIC_EMOJI: EmojiTable = EmojiTable { number: 0 };

    /// The number of the table.
    pub fn number(self) -> u8
        ensures value { result ≡ self }
        ensures small { result < 1 }
    {
        self.number
    }

    /// The name of the table.
    pub fn name(self) -> &'static [u8]
        ensures { slice_get emoji_table_names self ≡ Some result.now }
    {
        b"Basic_Emoji"
    }

    /// The table of this name, compared byte for byte. `None` where no table has it.
    pub fn from_name(name: &[u8]) -> Option<EmojiTable>
        ensures { result ≡ position (λ known. bytes_eq known name.now) emoji_table_names }
    {
        if name == EmojiTable::BASIC_EMOJI.name() {
            Some(EmojiTable::BASIC_EMOJI)
        } else {
            None
        }
    }
}
