//! Patterns that a number tells, and the sizes of their sets.
use crate::fixtures::{SYNTAX, assert_holds, is_answered, words_of};
use std::alloc::{AllocError, Global};
use std::process::Abort;

/// Whether the words over the input are answered with this text, and the run ends with the status of this number.
fn ends(
    alloc: Global,
    words: &[&str],
    input: &str,
    expected: &str,
    code: u8,
) -> Result<bool, AllocError> {
    let words = words_of(alloc, words)?;
    let input = input.as_bytes().to_vec(alloc)?;
    Ok(is_answered(alloc, &words, input, expected, code))
}

/// The same over the tables of the pattern syntax.
fn ends_over_syntax(
    alloc: Global,
    words: &[&str],
    expected: &str,
    code: u8,
) -> Result<bool, AllocError> {
    let tables = format!(in alloc; "{SYNTAX}end\n")?;
    ends(alloc, words, &tables, expected, code)
}

/// Over the tables of the pattern syntax the words are answered with this text, and the run ends with the status of this
/// number.
fn assert_answered(rt: &impl Abort, alloc: Global, words: &[&str], expected: &str, code: u8) {
    let holds = ends_over_syntax(alloc, words, expected, code) == Ok(true);
    assert!(rt; holds, "for {words:?}, expected {expected}");
}

/// Numbers, the last of them the greatest, and the sizes of their patterns' sets.
const SIZES: &[(&str, &str)] = &[
    // The pattern is `[[\u{c67ea}-\u{c67ea}]]`.
    ("1", "bytes 23\nranges 1\npoints 1\n"),
    // 8CCD1 alone, and 214B5 to 214B6.
    ("2", "bytes 44\nranges 2\npoints 3\n"),
    // By a model of its own.
    ("10000", "bytes 208638\nranges 9503\npoints 43955\n"),
];

#[test]
fn patterns_are_measured(rt: HostRuntime) {
    for (number, expected) in SIZES {
        assert_answered(&rt, rt.alloc(), &["gen", number], expected, 0);
    }
}

/// Words that are no known list.
const UNKNOWN: &[&[&str]] = &[
    &["gen", "0"],
    &["gen", "01"],
    &["gen", "10001"],
    &["gen", "100000"],
    &["gen", "+1"],
    &["gen", "1a"],
    &["gen", ""],
    &["gen"],
    &["gen", "1", "2"],
    &["tables", "1"],
];

#[test]
fn words_that_are_no_known_list_are_answered_with_the_usage(rt: HostRuntime) {
    for words in UNKNOWN {
        assert_answered(&rt, rt.alloc(), words, "usage: uset COMMAND\n", 2);
    }
}

/// Inputs without the tables of the pattern syntax or with a fault, each with its answer and the number of its status.
const REFUSED: &[(&str, &str, u8)] = &[
    ("end\n", "err error: internal error\n", 1),
    ("end\npat [a]\n", "tables line 2: UnknownLine\n", 3),
];

#[test]
fn a_table_is_absent_or_has_a_fault(rt: HostRuntime) {
    for (input, expected, code) in REFUSED {
        let holds = ends(rt.alloc(), &["gen", "1"], input, expected, *code);
        assert_holds(&rt, holds, input, expected);
    }
}
