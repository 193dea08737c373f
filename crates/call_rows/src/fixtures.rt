//! What tests of several subjects share.
use cp_invlist::CodePointInversionList;
use cp_strset::CodePointInversionListAndStringList;
use prop_data::{LoadError, PropertyDatabase};
use std::alloc::Global;
use std::fmt;
use std::process::Abort;
use uset_fault::ParseError;

/// Asserts that both values are the same. An assertion is proved slowly wherever it stands, so that tests share those of this
/// file.
pub(crate) fn assert_equal<T: PartialEq + fmt::Debug + Drop>(
    rt: &impl Abort,
    found: T,
    expected: T,
) {
    assert_eq!(rt; found, expected);
}

/// No table.
pub(crate) const NO_TABLES: &str = "end\n";

/// A question, with the answer that is expected. What the question needs is lent to it.
pub(crate) trait Row<T> {
    /// Whether the answer is this one.
    fn holds(&self, alloc: Global, lent: &T) -> bool;
}

/// The index of the first row that does not hold.
pub(crate) fn first_wrong<T, R: Row<T>>(alloc: Global, lent: &T, rows: &[R]) -> Option<usize> {
    rows.iter().position(|row| !row.holds(alloc, lent))
}

/// Asserts that each row holds, with nothing lent to it. A failure tells the index of the first that does not.
pub(crate) fn assert_rows<R: Row<()>>(rt: &impl Abort, alloc: Global, rows: &[R]) {
    assert_equal(rt, first_wrong(alloc, &(), rows), None);
}

/// The index of the first row that does not hold of the text's database. This function alone owns a database, since it
/// is proved slowly where it is owned.
fn first_wrong_of_text<R: Row<PropertyDatabase>>(
    alloc: Global,
    text: &str,
    rows: &[R],
) -> Result<Option<usize>, LoadError> {
    let database = PropertyDatabase::from_text(alloc, text)?;
    Ok(first_wrong(alloc, &database, rows))
}

/// Asserts that each row holds of the text's database. A failure tells the index of the first that does not.
pub(crate) fn assert_rows_of_text<R: Row<PropertyDatabase>>(
    rt: &impl Abort,
    alloc: Global,
    text: &str,
    rows: &[R],
) {
    let wrong = first_wrong_of_text(alloc, text, rows);
    assert_equal(rt, (text, wrong), (text, Ok(None)));
}

/// The index of the first row that does not hold of the set of an inversion list and strings.
fn first_wrong_of_set<R: Row<CodePointInversionListAndStringList>>(
    alloc: Global,
    list: &[u32],
    texts: &[&str],
    rows: &[R],
) -> Option<Option<usize>> {
    let set = set_of(alloc, list, texts)?;
    Some(first_wrong(alloc, &set, rows))
}

/// Asserts that each row holds of the set of an inversion list and strings. A failure tells the index of the first that
/// does not.
pub(crate) fn assert_rows_of_set<R: Row<CodePointInversionListAndStringList>>(
    rt: &impl Abort,
    alloc: Global,
    list: &[u32],
    texts: &[&str],
    rows: &[R],
) {
    let wrong = first_wrong_of_set(alloc, list, texts, rows);
    assert_equal(rt, wrong, Some(None));
}

/// A string of this text.
pub(crate) fn string_of(alloc: Global, text: &str) -> Option<String> {
    String::from_str(alloc, text).ok()
}

/// Strings of these texts.
fn strings_of(alloc: Global, texts: &[&str]) -> Option<Vec<String>> {
    let mut strings = Vec::new(alloc);
    for text in texts {
        let string = string_of(alloc, text)?;
        let Ok(()) = strings.push(string) else {
            return None;
        };
    }
    Some(strings)
}

/// A set by its inversion list and its strings.
pub(crate) fn set_of(
    alloc: Global,
    list: &[u32],
    texts: &[&str],
) -> Option<CodePointInversionListAndStringList> {
    let Ok(code_points) = CodePointInversionList::try_from_inversion_list(alloc, list) else {
        return None;
    };
    let strings = strings_of(alloc, texts)?;
    CodePointInversionListAndStringList::try_from(code_points, strings).ok()
}

/// The numbers from the start up to the end, with four digits each.
fn numerals(alloc: Global, start: u32, end: u32) -> Option<Vec<String>> {
    let mut strings = Vec::new(alloc);
    for number in start..end {
        let Ok(numeral) = format!(in alloc; "{number:04}") else {
            return None;
        };
        let Ok(()) = strings.push(numeral) else {
            return None;
        };
    }
    Some(strings)
}

/// The set of an inversion list and of the numbers from the start up to the end, with four digits each.
pub(crate) fn set_of_numerals(
    alloc: Global,
    list: &[u32],
    start: u32,
    end: u32,
) -> Option<CodePointInversionListAndStringList> {
    let Ok(code_points) = CodePointInversionList::try_from_inversion_list(alloc, list) else {
        return None;
    };
    let strings = numerals(alloc, start, end)?;
    CodePointInversionListAndStringList::try_from(code_points, strings).ok()
}

/// Whether the strings are these texts, in order.
fn are_texts(strings: &[String], texts: &[&str]) -> bool {
    if strings.len() != texts.len() {
        return false;
    }
    for (string, text) in strings.iter().zip(texts) {
        if string.as_str() != *text {
            return false;
        }
    }
    true
}

/// Whether the set has this inversion list and these strings.
pub(crate) fn is_set(
    set: &CodePointInversionListAndStringList,
    list: &[u32],
    texts: &[&str],
) -> bool {
    set.code_points().get_inversion_list() == list && are_texts(set.strings(), texts)
}

/// Whether the error is shown so with the source.
pub(crate) fn is_shown(alloc: Global, error: ParseError, source: &str, shown: &str) -> bool {
    match error.fmt_with_source(alloc, source) {
        Ok(text) => text.as_str() == shown,
        Err(_) => false,
    }
}
