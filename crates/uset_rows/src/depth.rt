//! Patterns of a million sets inside one another.
use crate::fixtures::{assert_holds, is_evaluated};
use row_fixtures::EVERY_KIND;
use std::alloc::{AllocError, Global};
use std::process::Abort;

const DEPTH: usize = 1_000_000;

/// Whether the pattern has this answer, and the run the status of this number.
fn has_answer(alloc: Global, pattern: &str, expected: &str, code: u8) -> Result<bool, AllocError> {
    let input = format!(in alloc; "{EVERY_KIND}pat {pattern}\n")?;
    is_evaluated(alloc, input.into_bytes(), expected, code)
}

/// Whether the pattern is answered with its end as its fault.
fn is_cut_short(alloc: Global, pattern: &str) -> Result<bool, AllocError> {
    let expected = format!(in alloc; "err {pattern}← error: unexpected end of input\n")?;
    has_answer(alloc, pattern, &expected, 1)
}

/// Whether the sets, closed, have the answer, and without what closes them are cut short.
fn are_nested(
    alloc: Global,
    opening: &str,
    innermost: &str,
    expected: &str,
) -> Result<bool, AllocError> {
    let open = opening.repeat(alloc, DEPTH)?;
    let closing = "]".repeat(alloc, DEPTH)?;
    let closed = format!(in alloc; "{open}{innermost}{closing}")?;
    Ok(is_cut_short(alloc, &open)? && has_answer(alloc, &closed, expected, 0)?)
}

/// The sets, closed, have the answer; without what closes them they are cut short.
fn assert_nested(rt: &impl Abort, alloc: Global, opening: &str, innermost: &str, expected: &str) {
    let holds = are_nested(alloc, opening, innermost, expected);
    assert_holds(rt, holds, opening, expected);
}

#[test]
fn a_million_sets_inside_one_another_are_read(rt: HostRuntime) {
    assert_nested(&rt, rt.alloc(), "[", "", "ok 2000000\n");
}

/// The second complement from inside has the letter, and so on by twos.
#[test]
fn a_million_complements_inside_one_another_are_read(rt: HostRuntime) {
    assert_nested(&rt, rt.alloc(), "[^", "b", "ok 3000001 0062\n");
}

/// Each set is the letter without the one inside it: the first from inside is empty, the second has the letter.
#[test]
fn a_million_differences_inside_one_another_are_read(rt: HostRuntime) {
    assert_nested(&rt, rt.alloc(), "[[a]-", "[a]", "ok 6000003 0061\n");
}
