//! Maps that are converted to another type of values.
use crate::fixtures::assert_equal;
use crate::maps::fixtures::map_of;
use cp_trie::{ConvertError, TrieValue};
use std::alloc::Global;
use std::fmt;
use std::process::Abort;

/// Values at 41 and past the end of a map of another type, or why there is none.
type Converted<T> = Result<(T, T), ConvertError>;

/// What comes of converting the map whose values begin at these numbers, with this value past the end.
fn converted<T: TrieValue>(
    alloc: Global,
    starts: &[(u32, u32)],
    error_value: u32,
) -> Option<Converted<T>> {
    let map = map_of(alloc, starts, error_value).ok()?;
    let converted = map.try_into_converted::<T>(alloc);
    Some(converted.map(|map| (map.get32(0x41), map.error_value())))
}

/// Asserts that this comes of it.
fn assert_converts<T: TrieValue + fmt::Debug>(
    rt: &impl Abort,
    alloc: Global,
    starts: &[(u32, u32)],
    error_value: u32,
    expected: Converted<T>,
) {
    let found = converted::<T>(alloc, starts, error_value);
    assert_equal(rt, found, Some(expected));
}

#[test]
fn values_convert_one_by_one(rt: HostRuntime) {
    let starts = &[(0, 0), (0x41, 97), (0x5B, 0)];
    assert_converts(&rt, rt.alloc(), starts, 0, Ok(('a', '\0')));
}

#[test]
fn the_first_value_that_does_not_convert_is_named(rt: HostRuntime) {
    let starts = &[(0, 0), (0x41, 300), (0x5B, 0)];
    let refused = Err(ConvertError::Value { index: 1 });
    assert_converts::<u8>(&rt, rt.alloc(), starts, 0, refused);
}

#[test]
fn an_error_value_that_does_not_convert_is_named_behind_the_runs(rt: HostRuntime) {
    let refused = Err(ConvertError::Value { index: 1 });
    assert_converts::<char>(&rt, rt.alloc(), &[(0, 0)], 0xD800, refused);
}
