//! Tables of sets.
use crate::fixtures::{Faulty, Row, assert_fault, assert_faults, assert_rows};
use prop_data::{PropertyDatabase, SetTable, TableErrorKind};
use row_fixtures::EVERY_KIND;

/// A text with each table; XID_Continue has no row.
const SYNTAX: &str = "# tables\nset XID_Start # letters\n41-5A\r\n  5F\n\n61-7a\n7B0-7b1 # two\n\
    set\tXID_Continue\nset Pattern_White_Space\n9-D\n000020\n10FFFF\nend # all\n\n# no more";

/// The members of the table, as an inversion list.
fn members(database: &PropertyDatabase, table: SetTable) -> Option<&[u32]> {
    Some(database.set(table)?.get_inversion_list())
}

/// A table, and its members, if the text has it.
type Members = (SetTable, Option<&'static [u32]>);

impl Row for Members {
    fn holds(&self, database: &PropertyDatabase) -> bool {
        let (table, expected) = *self;
        members(database, table) == expected
    }
}

#[test]
fn tables_are_read(rt: HostRuntime) {
    let rows: [Members; 4] = [
        (
            SetTable::XID_START,
            Some(&[0x41, 0x5B, 0x5F, 0x60, 0x61, 0x7B, 0x7B0, 0x7B2]),
        ),
        (SetTable::XID_CONTINUE, Some(&[])),
        (
            SetTable::PATTERN_WHITE_SPACE,
            Some(&[9, 0xE, 0x20, 0x21, 0x10_FFFF, 0x11_0000]),
        ),
        (SetTable::EMOJI, None),
    ];
    assert_rows(&rt, rt.alloc(), SYNTAX, &rows);
}

#[test]
fn neighbouring_rows_are_joined(rt: HostRuntime) {
    let text = "set XID_Continue\n41-5A\nset XID_Start\n41-4F\n50\n51-5A\nend";
    let rows: [Members; 2] = [
        (SetTable::XID_START, Some(&[0x41, 0x5B])),
        (SetTable::PATTERN_WHITE_SPACE, None),
    ];
    assert_rows(&rt, rt.alloc(), text, &rows);
}

#[test]
fn sets_of_a_text_of_every_kind_are_read(rt: HostRuntime) {
    let rows: [Members; 3] = [
        (
            SetTable::ASCII_HEX_DIGIT,
            Some(&[0x30, 0x3A, 0x41, 0x47, 0x61, 0x67]),
        ),
        (SetTable::XID_START, Some(&[0x41, 0x5B, 0x61, 0x7B])),
        (SetTable::DASH, None),
    ];
    assert_rows(&rt, rt.alloc(), EVERY_KIND, &rows);
}

#[test]
fn a_text_of_end_alone_has_no_table(rt: HostRuntime) {
    let rows: [Members; 2] = [(SetTable::XID_START, None), (SetTable::XID_CONTINUE, None)];
    assert_rows(&rt, rt.alloc(), "end", &rows);
}

#[test]
fn other_sets_may_hold_any_ascii(rt: HostRuntime) {
    let text = "set Dash\n2D\nset Pattern_Syntax\n21-2F\nset White_Space\n20\nend";
    let rows: [Members; 3] = [
        (SetTable::DASH, Some(&[0x2D, 0x2E])),
        (SetTable::PATTERN_SYNTAX, Some(&[0x21, 0x30])),
        (SetTable::WHITE_SPACE, Some(&[0x20, 0x21])),
    ];
    assert_rows(&rt, rt.alloc(), text, &rows);
}

/// Rows that are no range.
const MISSPELLED: &[Faulty] = &[
    (
        "set XID_Start\n0000041\nend\n",
        2,
        TableErrorKind::BadNumber,
    ),
    ("set XID_Start\n41-\nend\n", 2, TableErrorKind::BadNumber),
    ("set XID_Start\n-41\nend\n", 2, TableErrorKind::BadNumber),
    ("set XID_Start\n4G\nend\n", 2, TableErrorKind::BadNumber),
    (
        "set XID_Start\n41-42-43\nend\n",
        2,
        TableErrorKind::BadNumber,
    ),
    ("set XID_Start\nU+41\nend\n", 2, TableErrorKind::BadNumber),
    ("set XID_Start\nends\nend\n", 2, TableErrorKind::BadNumber),
];

/// Rows above the last code point, and those that are not behind the row above.
const OUT_OF_BOUNDS: &[Faulty] = &[
    (
        "set XID_Start\n41-5A\n\n110000\nend\n",
        4,
        TableErrorKind::TooLarge,
    ),
    (
        "set XID_Start\n41-5A\n\n61-110000\nend\n",
        4,
        TableErrorKind::TooLarge,
    ),
    (
        "set XID_Start\n41-5A\n\n7A-61\nend\n",
        4,
        TableErrorKind::RangeOrder,
    ),
    (
        "set XID_Start\n41-5A\n\n5A-61\nend\n",
        4,
        TableErrorKind::RangeOrder,
    ),
    (
        "set XID_Start\n41-5A\n\n5A\nend\n",
        4,
        TableErrorKind::RangeOrder,
    ),
    (
        "set XID_Start\n41-5A\n\n30\nend\n",
        4,
        TableErrorKind::RangeOrder,
    ),
];

/// Rows with ASCII that the syntax of patterns needs.
const SYNTAX_ASCII: &[Faulty] = &[
    (
        "set Pattern_White_Space\n0021\nend\n",
        2,
        TableErrorKind::SyntaxAscii,
    ),
    (
        "set Pattern_White_Space\n20-21\nend\n",
        2,
        TableErrorKind::SyntaxAscii,
    ),
    (
        "set Pattern_White_Space\n61\nend\n",
        2,
        TableErrorKind::SyntaxAscii,
    ),
    (
        "set Pattern_White_Space\n7E\nend\n",
        2,
        TableErrorKind::SyntaxAscii,
    ),
    ("set XID_Start\n0\nend\n", 2, TableErrorKind::SyntaxAscii),
    (
        "set XID_Start\n2F-30\nend\n",
        2,
        TableErrorKind::SyntaxAscii,
    ),
    ("set XID_Start\n3A\nend\n", 2, TableErrorKind::SyntaxAscii),
    ("set XID_Start\n40\nend\n", 2, TableErrorKind::SyntaxAscii),
    (
        "set XID_Start\n5B-5E\nend\n",
        2,
        TableErrorKind::SyntaxAscii,
    ),
    ("set XID_Start\n60\nend\n", 2, TableErrorKind::SyntaxAscii),
    ("set XID_Start\n7B\nend\n", 2, TableErrorKind::SyntaxAscii),
    ("set XID_Start\n7F\nend\n", 2, TableErrorKind::SyntaxAscii),
    ("set XID_Continue\n0\nend\n", 2, TableErrorKind::SyntaxAscii),
    (
        "set XID_Continue\n2F-30\nend\n",
        2,
        TableErrorKind::SyntaxAscii,
    ),
    (
        "set XID_Continue\n3A\nend\n",
        2,
        TableErrorKind::SyntaxAscii,
    ),
    (
        "set XID_Continue\n40\nend\n",
        2,
        TableErrorKind::SyntaxAscii,
    ),
    (
        "set XID_Continue\n5B-5E\nend\n",
        2,
        TableErrorKind::SyntaxAscii,
    ),
    (
        "set XID_Continue\n60\nend\n",
        2,
        TableErrorKind::SyntaxAscii,
    ),
    (
        "set XID_Continue\n7B\nend\n",
        2,
        TableErrorKind::SyntaxAscii,
    ),
    (
        "set XID_Continue\n7F\nend\n",
        2,
        TableErrorKind::SyntaxAscii,
    ),
];

#[test]
fn misspelled_rows_are_told(rt: HostRuntime) {
    assert_faults(&rt, rt.alloc(), MISSPELLED);
}

#[test]
fn rows_out_of_bounds_or_order_are_told(rt: HostRuntime) {
    assert_faults(&rt, rt.alloc(), OUT_OF_BOUNDS);
}

#[test]
fn ascii_that_the_syntax_needs_is_told(rt: HostRuntime) {
    assert_faults(&rt, rt.alloc(), SYNTAX_ASCII);
}

#[test]
fn ascii_beside_the_syntax_is_read(rt: HostRuntime) {
    for text in [
        "set Pattern_White_Space\n0-20\n7F\nend\n",
        "set XID_Start\n30-39\n41-5A\n5F\n61-7A\n80\nend\n",
        "set XID_Continue\n30-39\n41-5A\n5F\n61-7A\n80\nend\n",
    ] {
        assert_fault(&rt, rt.alloc(), text, None);
    }
}
