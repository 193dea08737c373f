//! What tests of several subjects share.
use cp_invlist::CodePointRange;
use prop_data::{DataError, LoadError, PropertyDatabase, TableName};
use prop_values::Script;
use std::alloc::Global;
use std::process::Abort;

/// No table.
pub(crate) const EMPTY: &str = "end";

/// A script, as constants can have it.
#[derive(Clone, Copy)]
pub(crate) enum Known {
    Latin,
    Thai,
    Unknown,
}

/// The script of this name.
pub(crate) fn script_of(known: Known) -> Script {
    match known {
        Known::Latin => Script::Latin,
        Known::Thai => Script::Thai,
        Known::Unknown => Script::Unknown,
    }
}

/// A question to a database, with the answer that is expected.
pub(crate) trait Row {
    /// Whether the database gives this answer, also by copies of its tables where there are such.
    fn holds(&self, alloc: Global, database: &PropertyDatabase) -> bool;
}

/// The index of the first row that does not hold.
fn first_wrong<R: Row>(alloc: Global, database: &PropertyDatabase, rows: &[R]) -> Option<usize> {
    rows.iter().position(|row| !row.holds(alloc, database))
}

/// The index of the first row that does not hold of the text's database. This function alone owns a database, since it
/// is proved slowly where it is owned.
fn first_wrong_of<R: Row>(
    alloc: Global,
    text: &str,
    rows: &[R],
) -> Result<Option<usize>, LoadError> {
    let database = PropertyDatabase::from_text(alloc, text)?;
    Ok(first_wrong(alloc, &database, rows))
}

/// Asserts that each row holds of the text's database. A failure tells the index of the first that does not.
pub(crate) fn assert_rows<R: Row>(rt: &(impl Abort + AllocGlobal), text: &str, rows: &[R]) {
    assert_eq!(rt;
        first_wrong_of(rt.alloc(), text, rows),
        Ok(None),
        "at {text}"
    );
}

/// Whether the answer is that the database has no such table.
pub(crate) fn lacks<T: Drop>(answer: Result<T, DataError>, table: TableName) -> bool {
    answer.err() == Some(DataError::Absent { table })
}

/// The first and the last code point of a range.
pub(crate) type Ends = (u32, u32);

/// Whether the range has these ends, or there is none where none is expected.
pub(crate) fn is_range(found: Option<CodePointRange>, expected: Option<Ends>) -> bool {
    match (found, expected) {
        (Some(CodePointRange { start, end }), Some(ends)) => (start, end) == ends,
        (found, expected) => found.is_none() && expected.is_none(),
    }
}
