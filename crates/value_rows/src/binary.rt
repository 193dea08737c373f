//! The rows of the binary properties.
use crate::fixtures::{assert_equal, assert_names, assert_pairs};
use prop_binary::{EmojiTable, SetTable, ecma262_table, laws};

/// The long name of each binary property, in the order of the tables' numbers.
const NAMES: [&str; 69] = [
    "ASCII_Hex_Digit",
    "alnum",
    "Alphabetic",
    "Bidi_Control",
    "Bidi_Mirrored",
    "blank",
    "Cased",
    "Case_Ignorable",
    "Full_Composition_Exclusion",
    "Changes_When_Casefolded",
    "Changes_When_Casemapped",
    "Changes_When_NFKC_Casefolded",
    "Changes_When_Lowercased",
    "Changes_When_Titlecased",
    "Changes_When_Uppercased",
    "Dash",
    "Deprecated",
    "Default_Ignorable_Code_Point",
    "Diacritic",
    "Emoji_Modifier_Base",
    "Emoji_Component",
    "Emoji_Modifier",
    "Emoji",
    "Emoji_Presentation",
    "Extender",
    "Extended_Pictographic",
    "graph",
    "Grapheme_Base",
    "Grapheme_Extend",
    "Grapheme_Link",
    "Hex_Digit",
    "Hyphen",
    "ID_Compat_Math_Continue",
    "ID_Compat_Math_Start",
    "ID_Continue",
    "Ideographic",
    "ID_Start",
    "IDS_Binary_Operator",
    "IDS_Trinary_Operator",
    "IDS_Unary_Operator",
    "Join_Control",
    "Logical_Order_Exception",
    "Lowercase",
    "Math",
    "Modifier_Combining_Mark",
    "Noncharacter_Code_Point",
    "NFC_Inert",
    "NFD_Inert",
    "NFKC_Inert",
    "NFKD_Inert",
    "Pattern_Syntax",
    "Pattern_White_Space",
    "Prepended_Concatenation_Mark",
    "print",
    "Quotation_Mark",
    "Radical",
    "Regional_Indicator",
    "Soft_Dotted",
    "Segment_Starter",
    "Case_Sensitive",
    "Sentence_Terminal",
    "Terminal_Punctuation",
    "Unified_Ideograph",
    "Uppercase",
    "Variation_Selector",
    "White_Space",
    "xdigit",
    "XID_Continue",
    "XID_Start",
];

/// Whether a table has this name, and this number.
fn is_found(name: &[u8], number: usize) -> bool {
    match SetTable::from_name(name) {
        Some(table) => usize::from(table.number()) == number && table.name() == name,
        None => false,
    }
}

#[test]
fn tables_are_found_by_the_names_that_they_have(rt: HostRuntime) {
    laws::numbers_of_tables();
    for (number, name) in NAMES.iter().enumerate() {
        assert!(rt; is_found(name.as_bytes(), number), "for {name}");
    }
}

#[test]
fn types_have_their_names(rt: HostRuntime) {
    let (long, short) = laws::names_of_basic_emoji();
    let names = &[
        (laws::names_from_ascii_hex_digit()[2].1, "Alpha"),
        (laws::names_from_changes_when_uppercased()[10].1, "Ext"),
        (laws::names_from_grapheme_extend()[2].1, "Hex"),
        (laws::names_from_lowercase()[0].1, "Lower"),
        (laws::names_from_regional_indicator()[9].1, "WSpace"),
        (long, "Basic_Emoji"),
        (short, "Basic_Emoji"),
        (EmojiTable::BASIC_EMOJI.name(), "Basic_Emoji"),
    ];
    assert_names(&rt, names);
    assert_equal(&rt, EmojiTable::BASIC_EMOJI.number(), 0);
}

#[test]
fn tables_are_found_by_their_exact_long_names(rt: HostRuntime) {
    let found = &[
        (SetTable::from_name(b"XID_Start"), Some(SetTable::XID_START)),
        (SetTable::from_name(b"XIDS"), None),
        (SetTable::from_name(b"xid_start"), None),
    ];
    assert_pairs(&rt, found);
    assert_names(&rt, &[(SetTable::GRAPHEME_LINK.name(), "Grapheme_Link")]);
}

#[test]
fn the_emoji_table_is_found_by_its_exact_name(rt: HostRuntime) {
    let found = &[
        (
            EmojiTable::from_name(b"Basic_Emoji"),
            Some(EmojiTable::BASIC_EMOJI),
        ),
        (EmojiTable::from_name(b"basic_emoji"), None),
        (EmojiTable::from_name(b"Emoji"), None),
    ];
    assert_pairs(&rt, found);
}

/// Names that ECMA-262 does not have.
const UNKNOWN: &[&str] = &[
    "ahex", "space", "Any", "ASCII", "Assigned", "Hyphen", "Gr_Link", "",
];

/// The first of the names that ECMA-262 has.
fn first_known(names: &[&'static str]) -> Option<&'static str> {
    for name in names {
        if ecma262_table(name.as_bytes()).is_some() {
            return Some(*name);
        }
    }
    None
}

#[test]
fn names_of_ecma_262_are_long_or_short(rt: HostRuntime) {
    let known = &[
        (ecma262_table(b"AHex"), Some(SetTable::ASCII_HEX_DIGIT)),
        (
            ecma262_table(b"ASCII_Hex_Digit"),
            Some(SetTable::ASCII_HEX_DIGIT),
        ),
        (ecma262_table(b"Emoji"), Some(SetTable::EMOJI)),
        (ecma262_table(b"WSpace"), Some(SetTable::WHITE_SPACE)),
    ];
    assert_pairs(&rt, known);
    assert_equal(&rt, first_known(UNKNOWN), None);
}
