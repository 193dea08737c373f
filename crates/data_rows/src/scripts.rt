//! Scripts with extensions, and their lists.
use crate::fixtures::{Faulty, Row, assert_faults, assert_rows};
use prop_data::{PropertyDatabase, TableErrorKind};
use prop_values::Script;
use row_fixtures::EVERY_KIND;
use std::alloc::Global;

/// What is expected of the scripts of a text.
#[derive(Clone, Copy)]
enum Expected {
    /// A code point and its number.
    Number(u32, u16),
    /// An index, and the numbers of the scripts in its list.
    List(u16, &'static [u16]),
    /// An index that has no list.
    NoList(u16),
    /// That the text has no scripts.
    Absent,
    /// That a copy has the number of a code point, and a list of scripts with these numbers at 0.
    Copied(Global, u32, u16, &'static [u16]),
}

/// The number at the code point.
fn number(database: &PropertyDatabase, code_point: u32) -> Option<u16> {
    Some(database.scripts()?.script_trie().get32(code_point).0)
}

/// The list at the index.
fn list(database: &PropertyDatabase, index: u16) -> Option<&[Script]> {
    database.scripts()?.extensions(index)
}

/// Whether the scripts have these numbers.
fn have_numbers(scripts: Option<&[Script]>, numbers: &[u16]) -> bool {
    let Some(scripts) = scripts else {
        return false;
    };
    for (script, number) in scripts.iter().zip(numbers) {
        if script.to_icu4c_value() != *number {
            return false;
        }
    }
    scripts.len() == numbers.len()
}

/// Whether a copy of the scripts has this number at the code point, and in its list at 0 these numbers.
fn has_copied(
    alloc: Global,
    database: &PropertyDatabase,
    code_point: u32,
    number: u16,
    numbers: &[u16],
) -> bool {
    let Some(scripts) = database.scripts() else {
        return false;
    };
    let Ok(copy) = scripts.copy(alloc) else {
        return false;
    };
    copy.script_trie().get32(code_point).0 == number && have_numbers(copy.extensions(0), numbers)
}

impl Row for Expected {
    fn holds(&self, database: &PropertyDatabase) -> bool {
        match *self {
            Expected::Number(code_point, expected) => {
                number(database, code_point) == Some(expected)
            }
            Expected::List(index, numbers) => have_numbers(list(database, index), numbers),
            Expected::NoList(index) => list(database, index).is_none(),
            Expected::Absent => database.scripts().is_none(),
            Expected::Copied(alloc, code_point, expected, numbers) => {
                has_copied(alloc, database, code_point, expected, numbers)
            }
        }
    }
}

const SCRIPTS: &str =
    "ext 6\n1\n3\nscx 103\n41-5A 25\n30FC 1024\n30FD 03077\n30FE 2054\n30FF 65535\n\
    ext 0\n20\n22\next 00005 25\n0\n65535\next 1023\nend";

const NUMBERS: &[Expected] = &[
    Expected::Number(0x40, 103),
    Expected::Number(0x5A, 25),
    Expected::Number(0x30FC, 1024),
    Expected::Number(0x30FD, 3077),
    Expected::Number(0x30FE, 2054),
    Expected::Number(0x30FF, 65535),
    Expected::Number(0x10_FFFF, 103),
    Expected::Number(0x11_0000, 103),
];

#[test]
fn scripts_with_extensions_are_read(rt: HostRuntime) {
    assert_rows(&rt, rt.alloc(), SCRIPTS, NUMBERS);
}

const EVERY_NUMBER: &[Expected] = &[
    Expected::Number(0x61, 25),
    Expected::Number(0x30FA, 22),
    Expected::Number(0x30FB, 103),
    Expected::Number(0x30FC, 1024),
];

#[test]
fn scripts_of_a_text_of_every_kind_are_read(rt: HostRuntime) {
    assert_rows(&rt, rt.alloc(), EVERY_KIND, EVERY_NUMBER);
}

const LAST_NUMBERS: &[Expected] = &[
    Expected::Number(0x10_FFFF, 7),
    Expected::Number(0x11_0000, 103),
];

#[test]
fn past_the_last_code_point_a_script_is_unknown(rt: HostRuntime) {
    assert_rows(&rt, rt.alloc(), "scx 7\nend", LAST_NUMBERS);
}

const LISTED: &[Expected] = &[
    Expected::List(0, &[20, 22]),
    Expected::List(5, &[25, 0, 65535]),
    Expected::List(6, &[1, 3]),
    Expected::List(1023, &[]),
];

#[test]
fn lists_are_found_by_their_indices(rt: HostRuntime) {
    assert_rows(&rt, rt.alloc(), SCRIPTS, LISTED);
}

const UNLISTED: &[Expected] = &[Expected::NoList(1), Expected::NoList(1024)];

#[test]
fn other_indices_have_no_list(rt: HostRuntime) {
    assert_rows(&rt, rt.alloc(), SCRIPTS, UNLISTED);
}

#[test]
fn lists_alone_are_no_scripts(rt: HostRuntime) {
    assert_rows(&rt, rt.alloc(), "ext 0\n20\nend", &[Expected::Absent]);
}

#[test]
fn a_copy_of_scripts_answers_alike(rt: HostRuntime) {
    let rows = [Expected::Copied(rt.alloc(), 0x30FC, 1024, &[20, 22])];
    assert_rows(&rt, rt.alloc(), SCRIPTS, &rows);
}

/// Headers and rows that are none, tables that are there, and misspelled numbers.
const FAULTS: &[Faulty] = &[
    ("scx", 1, TableErrorKind::UnknownLine),
    ("scx 103 0", 1, TableErrorKind::UnknownLine),
    ("ext", 1, TableErrorKind::UnknownLine),
    ("ext 0 25 1", 1, TableErrorKind::UnknownLine),
    ("scx 103\n41", 2, TableErrorKind::UnknownLine),
    ("ext 0\n20 21", 2, TableErrorKind::UnknownLine),
    ("scx 103\nset Dash\nscx 0", 3, TableErrorKind::TableTwice),
    ("scx 103\nscx x", 2, TableErrorKind::TableTwice),
    ("ext 0\next 00", 2, TableErrorKind::TableTwice),
    ("ext 0\next 0 25", 2, TableErrorKind::TableTwice),
    ("ext 0 25\next 0 x", 2, TableErrorKind::TableTwice),
    ("scx x", 1, TableErrorKind::BadNumber),
    ("ext x", 1, TableErrorKind::BadNumber),
    ("ext 1024 x", 1, TableErrorKind::BadNumber),
    ("ext 12345678901", 1, TableErrorKind::BadNumber),
    ("scx 103\n4G 65536", 2, TableErrorKind::BadNumber),
    ("scx 103\n41 x", 2, TableErrorKind::BadNumber),
    ("ext 0\n2A", 2, TableErrorKind::BadNumber),
    (
        "ext 5\n1\n3\nscx 103\n41-5A 25\n30FC 1024\n30FD 03077\n30FE 1029\next 0\n20\n22\next 00005 25\nend",
        12,
        TableErrorKind::TableTwice,
    ),
];

/// Indices, code points and numbers of no script, and scripts out of order.
const OUT_OF_BOUNDS: &[Faulty] = &[
    ("ext 1024", 1, TableErrorKind::TooLarge),
    ("ext 1024 65536", 1, TableErrorKind::TooLarge),
    ("ext 4294967296", 1, TableErrorKind::TooLarge),
    ("scx 103\n110000 65536", 2, TableErrorKind::TooLarge),
    ("scx 103\n41 0\n41 65536", 3, TableErrorKind::RangeOrder),
    ("scx 65536", 1, TableErrorKind::ValueOutOfType),
    ("ext 0 65536", 1, TableErrorKind::ValueOutOfType),
    ("scx 103\n41 65536", 2, TableErrorKind::ValueOutOfType),
    ("ext 0\n20\n65536", 3, TableErrorKind::ValueOutOfType),
    ("ext 0\n20\n20", 3, TableErrorKind::ExtensionOrder),
    ("ext 0\n20\n19", 3, TableErrorKind::ExtensionOrder),
    ("ext 0 25\n0\n25\n24", 4, TableErrorKind::ExtensionOrder),
];

/// Numbers whose list is not there at `end`.
const MISSING: &[Faulty] = &[
    ("scx 1024\nend", 2, TableErrorKind::ExtensionMissing),
    ("scx 0\n41 2049\nend", 3, TableErrorKind::ExtensionMissing),
    (
        "scx 0\n41 3073\n42 7\next 1\nend",
        5,
        TableErrorKind::ExtensionMissing,
    ),
    (
        "ext 1 25\nscx 1025\nend",
        3,
        TableErrorKind::ExtensionMissing,
    ),
    ("scx 4095\nend", 2, TableErrorKind::ExtensionMissing),
    ("scx 4096\nend\nend", 3, TableErrorKind::AfterEnd),
    ("end\nscx 0", 2, TableErrorKind::AfterEnd),
    ("end\next 0", 2, TableErrorKind::AfterEnd),
    ("scx 103\nend\n41 0", 3, TableErrorKind::UnknownLine),
    ("scx 1024", 2, TableErrorKind::NoEnd),
];

#[test]
fn faults_of_scripts_with_extensions_are_told(rt: HostRuntime) {
    assert_faults(&rt, rt.alloc(), FAULTS);
}

#[test]
fn numbers_of_scripts_out_of_bounds_are_told(rt: HostRuntime) {
    assert_faults(&rt, rt.alloc(), OUT_OF_BOUNDS);
}

#[test]
fn missing_lists_of_scripts_are_told(rt: HostRuntime) {
    assert_faults(&rt, rt.alloc(), MISSING);
}
