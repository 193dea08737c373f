//! How many tables of each kind a text has.
use crate::fixtures::{assert_holds, is_answered, words_of};
use row_fixtures::EVERY_KIND;
use std::alloc::{AllocError, Global};
use std::process::Abort;

/// Whether the table text has this answer, and the run over it ends with the status of this number.
fn is_counted(alloc: Global, tables: &str, expected: &str, code: u8) -> Result<bool, AllocError> {
    let words = words_of(alloc, &["tables"])?;
    let input = tables.as_bytes().to_vec(alloc)?;
    Ok(is_answered(alloc, &words, input, expected, code))
}

/// Each table text has the answer beside it, and the run over it ends with the status of this number.
fn assert_counted(rt: &impl Abort, alloc: Global, rows: &[(&str, &str)], code: u8) {
    for (tables, expected) in rows {
        let holds = is_counted(alloc, tables, expected, code);
        assert_holds(rt, holds, tables, expected);
    }
}

/// The counts of a text with one table, of a set.
const ONE_SET: &str = "set 1\nmap 0\nnames 0\nlong 0\nshort 0\nscx 0\next 0\nemoji 0\n";

/// Texts without a fault, and their counts.
const COUNTED: &[(&str, &str)] = &[
    (
        EVERY_KIND,
        "set 4\nmap 3\nnames 3\nlong 1\nshort 1\nscx 1\next 1\nemoji 1\n",
    ),
    (
        "end\n",
        "set 0\nmap 0\nnames 0\nlong 0\nshort 0\nscx 0\next 0\nemoji 0\n",
    ),
    ("set Dash\n2D\r\nend\r\n", ONE_SET),
];

/// Texts with a fault at their end.
const FAULTY: &[(&str, &str)] = &[
    ("end\npat [a]\n", "tables line 2: UnknownLine\n"),
    ("set XID_Start\n", "tables line 2: NoEnd\n"),
    // A CR that no LF follows belongs to its line.
    ("set Dash\n2D\nend\r", "tables line 3: BadNumber\n"),
];

#[test]
fn tables_are_counted_by_their_kinds(rt: HostRuntime) {
    assert_counted(&rt, rt.alloc(), COUNTED, 0);
    assert_counted(&rt, rt.alloc(), FAULTY, 3);
}

/// A text for each kind of fault, and its answer.
const DAMAGED: &[(&str, &str)] = &[
    ("hello", "tables line 1: UnknownLine\n"),
    ("set Nothing", "tables line 1: UnknownTable\n"),
    ("set Dash\nset Dash", "tables line 2: TableTwice\n"),
    ("set Dash\n2G", "tables line 2: BadNumber\n"),
    ("set Dash\n110000", "tables line 2: TooLarge\n"),
    ("set Dash\n2D\n2D", "tables line 3: RangeOrder\n"),
    ("map General_Category 30", "tables line 1: ValueOutOfType\n"),
    ("names Script\n25 La.tin", "tables line 2: BadName\n"),
    (
        "names Script\n25 Latin\n20 LA_TIN",
        "tables line 3: NamesClash\n",
    ),
    ("set XID_Start\n5D", "tables line 2: SyntaxAscii\n"),
    ("ext 0\n20\n20", "tables line 3: ExtensionOrder\n"),
    ("emoji Basic_Emoji\n{0041}", "tables line 2: StringOfOne\n"),
    ("emoji Basic_Emoji\n{}\n{}", "tables line 3: StringTwice\n"),
    ("scx 1024\nend", "tables line 2: ExtensionMissing\n"),
    ("set Dash", "tables line 2: NoEnd\n"),
    ("end\nend", "tables line 2: AfterEnd\n"),
];

#[test]
fn a_damaged_text_is_answered_with_its_first_fault(rt: HostRuntime) {
    assert_counted(&rt, rt.alloc(), DAMAGED, 3);
}
