//! Tables of names: values by their names.
use crate::fixtures::{Faulty, Row, assert_faults, assert_rows};
use prop_data::{NamesTable, PropertyDatabase, TableErrorKind};
use row_fixtures::EVERY_KIND;
use std::alloc::Global;

/// What is expected of the tables of names.
#[derive(Clone, Copy)]
enum Expected {
    /// A name, and the number of its script by its spelling and by its folding.
    Script(&'static [u8], Option<u16>, Option<u16>),
    /// The same of a group of general categories.
    Group(&'static [u8], Option<u16>, Option<u16>),
    /// The same of a combining class.
    Class(&'static [u8], Option<u16>, Option<u16>),
    /// That the table of blocks is not there.
    NoBlocks,
    /// That a copy of the names of scripts finds a value by a spelling, and by another with the same folding.
    Copied(Global, &'static [u8], &'static [u8], u16),
}

/// Whether the table finds these numbers by the spelling and by the folding of the name.
fn finds(
    database: &PropertyDatabase,
    table: NamesTable,
    name: &[u8],
    by_spelling: Option<u16>,
    by_folding: Option<u16>,
) -> bool {
    let Some(names) = database.names(table) else {
        return false;
    };
    names.get_strict_u16(name) == by_spelling && names.get_loose_u16(name) == by_folding
}

/// Whether a copy of the names of scripts has the number by a spelling and by a folding.
fn finds_in_copy(
    alloc: Global,
    database: &PropertyDatabase,
    spelling: &[u8],
    folding: &[u8],
    number: u16,
) -> bool {
    let Some(names) = database.names(NamesTable::SCRIPT) else {
        return false;
    };
    let Ok(copy) = names.copy(alloc) else {
        return false;
    };
    copy.get_strict_u16(spelling) == Some(number) && copy.get_loose_u16(folding) == Some(number)
}

impl Row for Expected {
    fn holds(&self, database: &PropertyDatabase) -> bool {
        match *self {
            Expected::Script(name, by_spelling, by_folding) => {
                finds(database, NamesTable::SCRIPT, name, by_spelling, by_folding)
            }
            Expected::Group(name, by_spelling, by_folding) => {
                let table = NamesTable::GENERAL_CATEGORY_MASK;
                finds(database, table, name, by_spelling, by_folding)
            }
            Expected::Class(name, by_spelling, by_folding) => {
                let table = NamesTable::CANONICAL_COMBINING_CLASS;
                finds(database, table, name, by_spelling, by_folding)
            }
            Expected::NoBlocks => database.names(NamesTable::BLOCK).is_none(),
            Expected::Copied(alloc, spelling, folding, number) => {
                finds_in_copy(alloc, database, spelling, folding, number)
            }
        }
    }
}

const SCRIPTS: &str = "names Script\n25 Latn\n25 Latin\n20 Hira\n7 A-b\n5 _\n25 latin\n\
    names General_Category_Mask\n65534 L\nend";

/// How the names of scripts are found: white space, hyphens and `_` of a query, and `_` of a name, don't count loosely.
const FOUND: &[Expected] = &[
    Expected::Script(b"Latn", Some(25), Some(25)),
    Expected::Script(b"latn", None, Some(25)),
    Expected::Script(b"la-TN", None, Some(25)),
    Expected::Script(b" L_A\x0bt i\tn\r\n", None, Some(25)),
    Expected::Script(b"Hira", Some(20), Some(20)),
    Expected::Script(b"A-b", Some(7), None),
    Expected::Script(b"a-b", None, None),
    Expected::Script(b"_", Some(5), Some(5)),
    Expected::Script(b"-- ", None, Some(5)),
    Expected::Script(b"", None, Some(5)),
    Expected::Script(b"Lat", None, None),
    Expected::Script(b"Latini", None, None),
    Expected::Script(b"\xc3\xa9", None, None),
    Expected::Script(b"\xff", None, None),
];

#[test]
fn names_are_found(rt: HostRuntime) {
    assert_rows(&rt, rt.alloc(), SCRIPTS, FOUND);
}

const GROUPS: &[Expected] = &[
    Expected::Group(b"l", None, Some(65534)),
    Expected::Group(b"Latn", None, None),
];

#[test]
fn groups_have_names_of_their_own(rt: HostRuntime) {
    assert_rows(&rt, rt.alloc(), SCRIPTS, GROUPS);
}

#[test]
fn an_absent_table_finds_nothing(rt: HostRuntime) {
    assert_rows(&rt, rt.alloc(), SCRIPTS, &[Expected::NoBlocks]);
}

/// How names of combining classes are found in a text of every kind.
const CLASSES: &[Expected] = &[
    Expected::Class(b"Above", Some(230), Some(230)),
    Expected::Class(b"a", None, Some(230)),
    Expected::Class(b"B", None, None),
];

#[test]
fn names_of_a_text_of_every_kind_are_found(rt: HostRuntime) {
    assert_rows(&rt, rt.alloc(), EVERY_KIND, CLASSES);
}

#[test]
fn a_copy_of_names_answers_alike(rt: HostRuntime) {
    let rows = [Expected::Copied(rt.alloc(), b"La_tn", b"LATN", 25)];
    assert_rows(&rt, rt.alloc(), "names Script\n25 La_tn\nend", &rows);
}

/// Names that are none, that clash by their foldings, and numbers of no value.
const FAULTS: &[Faulty] = &[
    ("names", 1, TableErrorKind::UnknownLine),
    ("names Script 0", 1, TableErrorKind::UnknownLine),
    ("names Script\n25", 2, TableErrorKind::UnknownLine),
    (
        "names Bidi_Mirroring_Glyph",
        1,
        TableErrorKind::UnknownTable,
    ),
    ("names script", 1, TableErrorKind::UnknownTable),
    ("names Script\nnames Script", 2, TableErrorKind::TableTwice),
    ("end\nnames Script", 2, TableErrorKind::AfterEnd),
    ("names Script\n2A Latn", 2, TableErrorKind::BadNumber),
    (
        "names Script\n65536 La.tn",
        2,
        TableErrorKind::ValueOutOfType,
    ),
    ("names Line_Break\n256 A", 2, TableErrorKind::ValueOutOfType),
    (
        "names General_Category\n30 A",
        2,
        TableErrorKind::ValueOutOfType,
    ),
    ("names Script\n25 La.tin", 2, TableErrorKind::BadName),
    ("names Script\n25 Lat\u{ef}n", 2, TableErrorKind::BadName),
    (
        "names Script\n25 Latin\n20 LA_TIN",
        3,
        TableErrorKind::NamesClash,
    ),
    (
        "names Script\n25 A\n20 B\n25 C\n21 _b",
        5,
        TableErrorKind::NamesClash,
    ),
];

#[test]
fn faults_of_names_are_told(rt: HostRuntime) {
    assert_faults(&rt, rt.alloc(), FAULTS);
}
