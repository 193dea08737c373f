//! Faults of the lines of a table text, whatever kind of table they belong to.
use crate::fixtures::{Faulty, assert_faults};
use prop_data::TableErrorKind;

/// Lines that are none, headers of no table, what stands behind `end`, and a missing `end`.
const LINES: &[Faulty] = &[
    ("41\nend\n", 1, TableErrorKind::UnknownLine),
    ("#\n\n41 42\nend\n", 3, TableErrorKind::UnknownLine),
    ("set\nend\n", 1, TableErrorKind::UnknownLine),
    ("set XID_Start x\nend\n", 1, TableErrorKind::UnknownLine),
    ("map XID_Start\nend\n", 1, TableErrorKind::UnknownLine),
    ("map Script\nend\n", 1, TableErrorKind::UnknownLine),
    ("map Script 0 0\nend\n", 1, TableErrorKind::UnknownLine),
    ("map Script 103\n41\nend\n", 2, TableErrorKind::UnknownLine),
    ("set Dash\n2D 1\nend\n", 2, TableErrorKind::UnknownLine),
    (
        "map Script 103\nend\n41 25\n",
        3,
        TableErrorKind::UnknownLine,
    ),
    ("map script 103\nend\n", 1, TableErrorKind::UnknownTable),
    ("end\nmap Script 103\n", 2, TableErrorKind::AfterEnd),
    ("end\nmap Script x\n", 2, TableErrorKind::BadNumber),
    ("end end\n", 1, TableErrorKind::UnknownLine),
    ("set XID_Start\nend\n41\n", 3, TableErrorKind::UnknownLine),
    ("set xid_start\nend\n", 1, TableErrorKind::UnknownTable),
    ("end\nset ASCII\n", 2, TableErrorKind::UnknownTable),
    ("", 1, TableErrorKind::NoEnd),
    ("set XID_Start\n41", 3, TableErrorKind::NoEnd),
    ("set XID_Start\n41\n", 3, TableErrorKind::NoEnd),
    ("end\n\nend\n", 3, TableErrorKind::AfterEnd),
    ("end\nset XID_Start\n", 2, TableErrorKind::AfterEnd),
];

/// A table whose name a table above has.
const TWICE: &[Faulty] = &[
    (
        "set XID_Start\nset XID_Start\nend\n",
        2,
        TableErrorKind::TableTwice,
    ),
    (
        "set XID_Start\nset XID_Continue\n41\nset XID_Start\nend\n",
        4,
        TableErrorKind::TableTwice,
    ),
    (
        "set XID_Start\nend\nset XID_Start\n",
        3,
        TableErrorKind::TableTwice,
    ),
];

/// Lines that fail several tests, of which the first is told.
const FIRST: &[Faulty] = &[
    ("set XID_Start\n4G\n110000\n", 2, TableErrorKind::BadNumber),
    (
        "set XID_Start\n21\n\n4G\nend\n",
        2,
        TableErrorKind::SyntaxAscii,
    ),
    (
        "set XID_Start\n110000-0000041\nend\n",
        2,
        TableErrorKind::BadNumber,
    ),
    (
        "set XID_Start\n110000-41\nend\n",
        2,
        TableErrorKind::TooLarge,
    ),
    ("set XID_Start\n2F-2E\nend\n", 2, TableErrorKind::RangeOrder),
];

#[test]
fn faults_of_lines_are_told(rt: HostRuntime) {
    assert_faults(&rt, rt.alloc(), LINES);
}

#[test]
fn a_second_table_of_a_name_is_told(rt: HostRuntime) {
    assert_faults(&rt, rt.alloc(), TWICE);
}

#[test]
fn the_first_fault_is_told(rt: HostRuntime) {
    assert_faults(&rt, rt.alloc(), FIRST);
}
