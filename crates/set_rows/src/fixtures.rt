//! What tests of several subjects share.
use cp_invlist::{CodePointInversionList, NoMemory};
use cp_strset::{CodePointInversionListAndStringList, StringListError};
use cp_terms::{Step, evaluate};
use std::alloc::{AllocError, Global};
use std::fmt;
use std::process::Abort;

/// How two sets are combined.
#[derive(Clone, Copy)]
pub(crate) enum Operation {
    /// The union.
    Add,
    /// The difference.
    Remove,
    /// The intersection.
    Retain,
}

/// Asserts that both values are the same. An assertion is proved slowly wherever it stands, so that tests share this one.
pub(crate) fn assert_equal<T: PartialEq + fmt::Debug + Drop>(
    rt: &impl Abort,
    found: T,
    expected: T,
) {
    assert_eq!(rt; found, expected);
}

/// What is expected of a set.
pub(crate) trait Row<T> {
    /// Whether the set is so.
    fn holds(&self, alloc: Global, set: &T) -> bool;
}

/// The index of the first row that does not hold.
pub(crate) fn first_wrong<T, R: Row<T>>(alloc: Global, set: &T, rows: &[R]) -> Option<usize> {
    rows.iter().position(|row| !row.holds(alloc, set))
}

/// Whether the steps make the set with this list, of the sets that are given.
pub(crate) fn makes(
    alloc: Global,
    sets: &[CodePointInversionList],
    steps: &[Step],
    list: &[u32],
) -> Result<bool, NoMemory> {
    let mut references = Vec::new(alloc);
    for set in sets {
        references.push(set)?;
    }
    let set = evaluate(alloc, &references, steps)?;
    Ok(set.get_inversion_list() == list)
}

/// Copies of the texts.
fn strings(alloc: Global, texts: &[&str]) -> Result<Vec<String>, AllocError> {
    let mut strings = Vec::new(alloc);
    for text in texts {
        strings.push(String::from_str(alloc, text)?)?;
    }
    Ok(strings)
}

/// What becomes of the inversion list with these strings.
pub(crate) fn try_set_of(
    alloc: Global,
    list: &[u32],
    texts: &[&str],
) -> Option<Result<CodePointInversionListAndStringList, StringListError>> {
    let list = CodePointInversionList::try_from_inversion_list(alloc, list).ok()?;
    let strings = strings(alloc, texts).ok()?;
    Some(CodePointInversionListAndStringList::try_from(list, strings))
}

/// The set of the inversion list and of the strings.
pub(crate) fn set_of(
    alloc: Global,
    list: &[u32],
    texts: &[&str],
) -> Option<CodePointInversionListAndStringList> {
    try_set_of(alloc, list, texts)?.ok()
}
