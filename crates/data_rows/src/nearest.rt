//! For each kind of fault a text that has it, and the nearest text that is accepted.
use crate::fixtures::{assert_fault, at};
use prop_data::TableErrorKind;
use std::alloc::Global;
use std::process::Abort;

/// A text that is accepted, and one beside it that is refused with this fault, at the number of its line.
type Nearest = (&'static str, &'static str, usize, TableErrorKind);

/// Faults of the structure of a text.
const STRUCTURE: &[Nearest] = &[
    (
        "set Dash\n41\nend",
        "41\nend",
        1,
        TableErrorKind::UnknownLine,
    ),
    (
        "set Dash\n41\nend",
        "set Dash\n41 0\nend",
        2,
        TableErrorKind::UnknownLine,
    ),
    (
        "set Dash\nend",
        "set Dash Dash\nend",
        1,
        TableErrorKind::UnknownLine,
    ),
    (
        "set Dash\nend",
        "set dash\nend",
        1,
        TableErrorKind::UnknownTable,
    ),
    (
        "map Bidi_Mirroring_Glyph 0\nend",
        "names Bidi_Mirroring_Glyph\nend",
        1,
        TableErrorKind::UnknownTable,
    ),
    (
        "names General_Category_Mask\nend",
        "long General_Category_Mask\nend",
        1,
        TableErrorKind::UnknownTable,
    ),
    (
        "names Script\nlong Script\nshort Script\nend",
        "names Script\nlong Script\nlong Script\nend",
        3,
        TableErrorKind::TableTwice,
    ),
    (
        "ext 0\n20\next 01\n20\nend",
        "ext 0\n20\next 00\n20\nend",
        3,
        TableErrorKind::TableTwice,
    ),
    ("set Dash\nend", "set Dash", 2, TableErrorKind::NoEnd),
    ("end\n #end", "end\n end", 2, TableErrorKind::AfterEnd),
];

/// Faults of a row's numbers.
const NUMBERS: &[Nearest] = &[
    (
        "set Dash\n00002D\nend",
        "set Dash\n000002D\nend",
        2,
        TableErrorKind::BadNumber,
    ),
    (
        "map Script 0000000103\nend",
        "map Script 00000000103\nend",
        1,
        TableErrorKind::BadNumber,
    ),
    (
        "emoji Basic_Emoji\n{D7FF_41}\nend",
        "emoji Basic_Emoji\n{D800_41}\nend",
        2,
        TableErrorKind::BadNumber,
    ),
    (
        "set Dash\n10FFFF\nend",
        "set Dash\n110000\nend",
        2,
        TableErrorKind::TooLarge,
    ),
    (
        "ext 1023\nend",
        "ext 1024\nend",
        1,
        TableErrorKind::TooLarge,
    ),
    (
        "set Dash\n2D\n2E\nend",
        "set Dash\n2D\n2D\nend",
        3,
        TableErrorKind::RangeOrder,
    ),
    (
        "set Dash\n2D-2D\nend",
        "set Dash\n2D-2C\nend",
        2,
        TableErrorKind::RangeOrder,
    ),
    (
        "map General_Category 29\nend",
        "map General_Category 30\nend",
        1,
        TableErrorKind::ValueOutOfType,
    ),
    (
        "names Script\n65535 Last\nend",
        "names Script\n65536 Last\nend",
        2,
        TableErrorKind::ValueOutOfType,
    ),
    (
        "scx 65535\nend",
        "scx 65536\nend",
        1,
        TableErrorKind::ValueOutOfType,
    ),
];

/// Faults of names, and of what the syntax of patterns needs.
const NAMES: &[Nearest] = &[
    (
        "names Script\n25 La-t_1n\nend",
        "names Script\n25 La.tin\nend",
        2,
        TableErrorKind::BadName,
    ),
    (
        "short Script\n25 Latn\nend",
        "short Script\n25 Latin\nend",
        2,
        TableErrorKind::BadName,
    ),
    (
        "names Script\n25 Latin\n25 LA_TIN\nend",
        "names Script\n25 Latin\n20 LA_TIN\nend",
        3,
        TableErrorKind::NamesClash,
    ),
    (
        "names Script\n25 Latin\n20 LA-TIN\nend",
        "names Script\n25 Latin\n20 LATIN\nend",
        3,
        TableErrorKind::NamesClash,
    ),
    (
        "long Script\n25 Latin\n20 Latin\nend",
        "long Script\n25 Latin\n25 Latin\nend",
        3,
        TableErrorKind::NamesClash,
    ),
    (
        "set XID_Start\n5F\nend",
        "set XID_Start\n5E\nend",
        2,
        TableErrorKind::SyntaxAscii,
    ),
    (
        "set Pattern_White_Space\n7F\nend",
        "set Pattern_White_Space\n7E\nend",
        2,
        TableErrorKind::SyntaxAscii,
    ),
];

/// Faults of lists of scripts and of strings.
const LISTS: &[Nearest] = &[
    (
        "ext 0\n20\n21\nend",
        "ext 0\n20\n20\nend",
        3,
        TableErrorKind::ExtensionOrder,
    ),
    (
        "emoji Basic_Emoji\n{0041_FE0F}\nend",
        "emoji Basic_Emoji\n{0041}\nend",
        2,
        TableErrorKind::StringOfOne,
    ),
    (
        "emoji Basic_Emoji\n{}\n0041\nend",
        "emoji Basic_Emoji\n{}\n{0041}\nend",
        3,
        TableErrorKind::StringOfOne,
    ),
    (
        "emoji Basic_Emoji\n{0041_42}\n{42_0041}\nend",
        "emoji Basic_Emoji\n{0041_42}\n{41_0042}\nend",
        3,
        TableErrorKind::StringTwice,
    ),
    (
        "scx 1024\next 0\nend",
        "scx 1024\next 0 25\nend",
        3,
        TableErrorKind::ExtensionMissing,
    ),
    (
        "scx 3072\next 0 25\nend",
        "scx 3072\next 0\nend",
        3,
        TableErrorKind::ExtensionMissing,
    ),
    (
        "scx 4096\nend",
        "scx 3072\nend",
        2,
        TableErrorKind::ExtensionMissing,
    ),
];

/// Asserts that of each pair the one text is accepted, and the other has its fault.
fn assert_nearest(rt: &impl Abort, alloc: Global, rows: &[Nearest]) {
    for (accepted, refused, line, kind) in rows {
        assert_fault(rt, alloc, accepted, None);
        assert_fault(rt, alloc, refused, at(*line, *kind));
    }
}

#[test]
fn the_nearest_structure_is_accepted(rt: HostRuntime) {
    assert_nearest(&rt, rt.alloc(), STRUCTURE);
}

#[test]
fn the_nearest_number_is_accepted(rt: HostRuntime) {
    assert_nearest(&rt, rt.alloc(), NUMBERS);
}

#[test]
fn the_nearest_name_is_accepted(rt: HostRuntime) {
    assert_nearest(&rt, rt.alloc(), NAMES);
}

#[test]
fn the_nearest_list_is_accepted(rt: HostRuntime) {
    assert_nearest(&rt, rt.alloc(), LISTS);
}
