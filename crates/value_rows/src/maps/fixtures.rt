//! Maps by the numbers at which their values begin.
use crate::fixtures::assert_equal;
use cp_invlist::CodePointRange;
use cp_trie::{CodePointMapRange, CodePointTrie, TrieError, TrieValue};
use std::alloc::{AllocError, Global};
use std::process::Abort;

pub(crate) fn run<T>(start: u32, end: u32, value: T) -> CodePointMapRange<T> {
    CodePointMapRange {
        range: CodePointRange { start, end },
        value,
    }
}

/// The runs whose values begin at these numbers, the first at 0.
fn runs_of<T: TrieValue>(
    alloc: Global,
    starts: &[(u32, T)],
) -> Result<Vec<CodePointMapRange<T>>, AllocError> {
    let mut runs = Vec::new(alloc);
    let mut end = 0x10_FFFF;
    for (start, value) in starts.iter().rev() {
        runs.push(run(*start, end, *value))?;
        end = start.saturating_sub(1);
    }
    runs.reverse();
    Ok(runs)
}

/// The map whose values begin at these numbers, the first at 0, with this value past the end.
pub(crate) fn map_of<T: TrieValue>(
    alloc: Global,
    starts: &[(u32, T)],
    error_value: T,
) -> Result<CodePointTrie<T>, TrieError> {
    CodePointTrie::try_from_runs(alloc, runs_of(alloc, starts)?, error_value)
}

/// The first of these numbers at which the map has another value.
pub(crate) fn first_wrong<T: TrieValue>(map: &CodePointTrie<T>, rows: &[(u32, T)]) -> Option<u32> {
    for (c, value) in rows {
        if map.get32(*c) != *value {
            return Some(*c);
        }
    }
    None
}

/// The same of the map whose values begin at these numbers, with this value past the end.
fn first_wrong_of<T: TrieValue>(
    alloc: Global,
    starts: &[(u32, T)],
    error_value: T,
    rows: &[(u32, T)],
) -> Result<Option<u32>, TrieError> {
    let map = map_of(alloc, starts, error_value)?;
    Ok(first_wrong(&map, rows))
}

/// Asserts that this map has these values. A failure tells the first number at which it has another.
pub(crate) fn assert_values<T: TrieValue>(
    rt: &impl Abort,
    alloc: Global,
    starts: &[(u32, T)],
    error_value: T,
    rows: &[(u32, T)],
) {
    let wrong = first_wrong_of(alloc, starts, error_value, rows);
    assert_equal(rt, wrong, Ok(None));
}
