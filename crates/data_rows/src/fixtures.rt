//! What a table text is refused with, and what tests of several subjects share.
use prop_data::{
    LoadError, MapTable, PropertyDatabase, PropertyEnumToValueNameLookup, TableError,
    TableErrorKind,
};
use std::alloc::Global;
use std::fmt;
use std::process::Abort;

/// Asserts that both values are the same. An assertion is proved slowly wherever it stands, so that tests share those of this
/// file.
pub(crate) fn assert_equal<T: PartialEq + fmt::Debug + Drop>(
    rt: &impl Abort,
    found: T,
    expected: T,
) {
    assert_eq!(rt; found, expected);
}

/// A text, the line of its first fault and the kind of that.
pub(crate) type Faulty = (&'static str, usize, TableErrorKind);

/// The fault of the text, if it has one.
pub(crate) fn fault_of(alloc: Global, text: &str) -> Option<LoadError> {
    PropertyDatabase::from_text(alloc, text).err()
}

/// The fault of a line.
pub(crate) fn at(line: usize, kind: TableErrorKind) -> Option<LoadError> {
    Some(LoadError::Table(TableError { line, kind }))
}

/// Asserts the fault of the text.
pub(crate) fn assert_fault(
    rt: &impl Abort,
    alloc: Global,
    text: &str,
    expected: Option<LoadError>,
) {
    assert_equal(rt, (text, fault_of(alloc, text)), (text, expected));
}

/// Asserts that each text has its fault.
pub(crate) fn assert_faults(rt: &impl Abort, alloc: Global, rows: &[Faulty]) {
    for (text, line, kind) in rows {
        assert_fault(rt, alloc, text, at(*line, *kind));
    }
}

/// A map's table, as constants can have it.
#[derive(Clone, Copy)]
pub(crate) enum Map {
    Script,
    Category,
    Class,
    Block,
    Glyph,
}

/// The table of the map.
pub(crate) fn table_of(map: Map) -> MapTable {
    match map {
        Map::Script => MapTable::SCRIPT,
        Map::Category => MapTable::GENERAL_CATEGORY,
        Map::Class => MapTable::CANONICAL_COMBINING_CLASS,
        Map::Block => MapTable::BLOCK,
        Map::Glyph => MapTable::BIDI_MIRRORING_GLYPH,
    }
}

/// The name of the number, if there is a table that has one.
pub(crate) fn name_in<L: PropertyEnumToValueNameLookup>(
    table: Option<&L>,
    number: u32,
) -> Option<&str> {
    table?.get(number)
}

/// Whether the number has the name in a copy of the table.
pub(crate) fn is_named_in_copy<L: PropertyEnumToValueNameLookup + Drop>(
    alloc: Global,
    table: Option<&L>,
    number: u32,
    name: &str,
) -> bool {
    let Some(table) = table else {
        return false;
    };
    let Ok(copy) = table.copy(alloc) else {
        return false;
    };
    copy.get(number) == Some(name)
}

/// A question to a database, with the answer that is expected.
pub(crate) trait Row {
    /// Whether the database gives this answer.
    fn holds(&self, database: &PropertyDatabase) -> bool;
}

/// The index of the first row that does not hold.
fn first_wrong<R: Row>(database: &PropertyDatabase, rows: &[R]) -> Option<usize> {
    rows.iter().position(|row| !row.holds(database))
}

/// The index of the first row that does not hold of the text's database. This function alone owns a database, since it
/// is proved slowly where it is owned.
fn first_wrong_of<R: Row>(
    alloc: Global,
    text: &str,
    rows: &[R],
) -> Result<Option<usize>, LoadError> {
    let database = PropertyDatabase::from_text(alloc, text)?;
    Ok(first_wrong(&database, rows))
}

/// Asserts that each row holds of the text's database. A failure tells the index of the first that does not.
pub(crate) fn assert_rows<R: Row>(rt: &impl Abort, alloc: Global, text: &str, rows: &[R]) {
    let wrong = first_wrong_of(alloc, text, rows);
    assert_equal(rt, (text, wrong), (text, Ok(None)));
}
