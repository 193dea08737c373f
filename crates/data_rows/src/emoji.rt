//! Tables of emoji: code points and strings.
use crate::fixtures::{Faulty, Row, assert_faults, assert_rows};
use prop_data::{EmojiTable, PropertyDatabase, TableErrorKind};
use row_fixtures::EVERY_KIND;

/// What is expected of the table.
#[derive(Clone, Copy)]
enum Expected {
    /// Whether it has the text.
    Contains(&'static str, bool),
    /// Its code points, as an inversion list.
    CodePoints(&'static [u32]),
    /// How many code points and strings it has.
    Size(usize),
    /// That it is not there.
    Absent,
}

impl Row for Expected {
    fn holds(&self, database: &PropertyDatabase) -> bool {
        let Some(set) = database.emoji(EmojiTable::BASIC_EMOJI) else {
            return matches!(self, Expected::Absent);
        };
        match *self {
            Expected::Contains(text, is_member) => set.contains_str(text) == is_member,
            Expected::CodePoints(list) => set.code_points().get_inversion_list() == list,
            Expected::Size(size) => set.size() == size,
            Expected::Absent => false,
        }
    }
}

const EMOJI: &str = "emoji Basic_Emoji\n231A-231B\n{61_62}\n{00A9_FE0F}\n{} # the empty string\n\
    231D\n{000061_63}\nend";

const TEXTS: &[Expected] = &[
    Expected::Contains("\u{231A}", true),
    Expected::Contains("\u{231C}", false),
    Expected::Contains("", true),
    Expected::Contains("ab", true),
    Expected::Contains("ac", true),
    Expected::Contains("\u{A9}\u{FE0F}", true),
    Expected::Contains("\u{A9}", false),
    Expected::Contains("abc", false),
];

#[test]
fn texts_of_emoji_sets_are_found(rt: HostRuntime) {
    assert_rows(&rt, rt.alloc(), EMOJI, TEXTS);
}

const EVERY_TEXT: &[Expected] = &[
    Expected::Contains("\u{231B}", true),
    Expected::Contains("\u{A9}\u{FE0F}", true),
    Expected::Contains("\u{FE0F}", false),
];

#[test]
fn emoji_of_a_text_of_every_kind_are_found(rt: HostRuntime) {
    assert_rows(&rt, rt.alloc(), EVERY_KIND, EVERY_TEXT);
}

const CODE_POINTS: &[Expected] = &[Expected::CodePoints(&[0x231A, 0x231C, 0x231D, 0x231E])];

#[test]
fn code_points_of_emoji_sets_are_joined(rt: HostRuntime) {
    assert_rows(&rt, rt.alloc(), EMOJI, CODE_POINTS);
}

/// Texts, and the size of their table, if they have it.
const SIZES: &[(&str, Expected)] = &[
    (EMOJI, Expected::Size(7)),
    ("emoji Basic_Emoji\nend", Expected::Size(0)),
    ("set Emoji\nend", Expected::Absent),
];

#[test]
fn emoji_sets_have_a_size(rt: HostRuntime) {
    for (text, expected) in SIZES {
        assert_rows(&rt, rt.alloc(), text, &[*expected]);
    }
}

/// Rows that are no range and no string, and strings of one character or twice.
const FAULTS: &[Faulty] = &[
    ("emoji Basic_Emoji\n41 42\n", 2, TableErrorKind::UnknownLine),
    (
        "emoji Basic_Emoji\n{41 _42}\n",
        2,
        TableErrorKind::UnknownLine,
    ),
    ("emoji Basic_Emoji\n4G\n", 2, TableErrorKind::BadNumber),
    ("emoji Basic_Emoji\n{41_42\n", 2, TableErrorKind::BadNumber),
    ("emoji Basic_Emoji\n41_42}\n", 2, TableErrorKind::BadNumber),
    ("emoji Basic_Emoji\n{\n", 2, TableErrorKind::BadNumber),
    ("emoji Basic_Emoji\n{_}\n", 2, TableErrorKind::BadNumber),
    ("emoji Basic_Emoji\n{41_}\n", 2, TableErrorKind::BadNumber),
    (
        "emoji Basic_Emoji\n{41__42}\n",
        2,
        TableErrorKind::BadNumber,
    ),
    ("emoji Basic_Emoji\n{41-42}\n", 2, TableErrorKind::BadNumber),
    (
        "emoji Basic_Emoji\n{0000041_42}\n",
        2,
        TableErrorKind::BadNumber,
    ),
    (
        "emoji Basic_Emoji\n{110000_D800}\n",
        2,
        TableErrorKind::BadNumber,
    ),
    ("emoji Basic_Emoji\n{DFFF}\n", 2, TableErrorKind::BadNumber),
    ("emoji Basic_Emoji\n{110000}\n", 2, TableErrorKind::TooLarge),
    (
        "emoji Basic_Emoji\n{41_FFFFFF}\n",
        2,
        TableErrorKind::TooLarge,
    ),
    ("emoji Basic_Emoji\n110000\n", 2, TableErrorKind::TooLarge),
    (
        "emoji Basic_Emoji\n42\n{41_42}\n{}\n42\n",
        5,
        TableErrorKind::RangeOrder,
    ),
    (
        "emoji Basic_Emoji\n{0041}\n",
        2,
        TableErrorKind::StringOfOne,
    ),
    (
        "emoji Basic_Emoji\n{D7FF}\n",
        2,
        TableErrorKind::StringOfOne,
    ),
    (
        "emoji Basic_Emoji\n{10FFFF}\n",
        2,
        TableErrorKind::StringOfOne,
    ),
    (
        "emoji Basic_Emoji\n{}\n{}\n",
        3,
        TableErrorKind::StringTwice,
    ),
    (
        "emoji Basic_Emoji\n{41_42}\n43\n{0041_042}\n",
        4,
        TableErrorKind::StringTwice,
    ),
];

/// Headers of no table, or of one above.
const HEADERS: &[Faulty] = &[
    ("emoji", 1, TableErrorKind::UnknownLine),
    ("emoji Basic_Emoji 0", 1, TableErrorKind::UnknownLine),
    ("emoji basic_emoji", 1, TableErrorKind::UnknownTable),
    ("emoji Emoji", 1, TableErrorKind::UnknownTable),
    (
        "emoji Basic_Emoji\nset Dash\nemoji Basic_Emoji",
        3,
        TableErrorKind::TableTwice,
    ),
    ("end\nemoji Basic_Emoji", 2, TableErrorKind::AfterEnd),
    ("end\n{}", 2, TableErrorKind::UnknownLine),
    ("set Dash\n{}", 2, TableErrorKind::BadNumber),
];

#[test]
fn faults_of_emoji_sets_are_told(rt: HostRuntime) {
    assert_faults(&rt, rt.alloc(), FAULTS);
}

#[test]
fn faults_of_emoji_headers_are_told(rt: HostRuntime) {
    assert_faults(&rt, rt.alloc(), HEADERS);
}
