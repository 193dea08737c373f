//! Strings of variables that are so long that brackets which name them are terms.
use crate::fixtures::{assert_holds, have_answer};
use std::alloc::{AllocError, Global};

/// How many letters `a` the string `s` has. The string `t` has a `b` behind as many.
const LENGTH: usize = 4096;

/// Which of the two a set has.
#[derive(Clone, Copy)]
enum Has {
    Neither,
    S,
    T,
    Both,
}

/// Patterns over both strings, each with the ranges that it denotes, and which of the strings.
const DENOTED: &[(&str, &str, Has)] = &[
    ("[$s]", "", Has::S),
    ("[$s$s$s]", "", Has::S),
    ("[$t$s]", "", Has::Both),
    ("[a$s b$t]", " 0061-0062", Has::Both),
    ("[$s-]", " 002D", Has::S),
    ("[$s$]", " FFFF", Has::S),
    ("[[$s]&[$t]]", "", Has::Neither),
    ("[[$s$t]&[a$t]]", "", Has::T),
    ("[[$s$t a]-[$t]]", " 0061", Has::S),
    ("[[$s]-[$s]b]", " 0062", Has::Neither),
    ("[^$s]", " 0000-10FFFF", Has::Neither),
    ("[[^$s]$t]", " 0000-10FFFF", Has::T),
    ("[[$s{ab}]-[{ab}]]", "", Has::S),
    ("[$u]", " 0061", Has::T),
    ("[$u-[$t]$s]", " 0061", Has::S),
];

/// Patterns over the string, each with what is said of it.
const REFUSED: &[(&str, &str)] = &[
    ("[$s-[a]]", "[$s-[← error: unexpected character '['"),
    ("[$s&[a]]", "[$s&← error: unexpected character '&'"),
    ("[a-$s]", "[a-$s← error: unexpected variable"),
    ("[[a]-$s]", "[[a]-$s← error: unexpected variable"),
    ("[[a]&$s]", "[[a]&$s← error: unexpected variable"),
    ("$s", "$s← error: unexpected variable"),
    ("[$s", "[$s← error: unexpected end of input"),
];

/// The answer to the line with the pattern has this text and this status.
fn answered(alloc: Global, pattern: &str, expected: &str, code: u8) -> Result<bool, AllocError> {
    let letters = " 61".repeat(alloc, LENGTH)?;
    let lines = format!(in alloc;
        "let s str{letters}\nlet t str{letters} 62\nlet u set [a$t]\npat {pattern}"
    )?;
    let answer = format!(in alloc; "bound s\nbound t\nbound u\n{expected}\n")?;
    have_answer(alloc, &lines, &answer, code)
}

/// The strings as they stand in an answer.
fn strings(alloc: Global, has: Has) -> Result<String, AllocError> {
    let letters = "_0061".repeat(alloc, LENGTH - 1)?;
    match has {
        Has::Neither => Ok(String::new(alloc)),
        Has::S => format!(in alloc; " {{0061{letters}}}"),
        Has::T => format!(in alloc; " {{0061{letters}_0062}}"),
        Has::Both => format!(in alloc; " {{0061{letters}}} {{0061{letters}_0062}}"),
    }
}

/// Whether the pattern denotes these ranges and strings.
fn denotes(alloc: Global, pattern: &str, ranges: &str, has: Has) -> Result<bool, AllocError> {
    let length = pattern.len();
    let strings = strings(alloc, has)?;
    let expected = format!(in alloc; "ok {length}{ranges}{strings}")?;
    answered(alloc, pattern, &expected, 0)
}

/// Whether the pattern is refused with these words.
fn refused(alloc: Global, pattern: &str, words: &str) -> Result<bool, AllocError> {
    let expected = format!(in alloc; "err {words}")?;
    answered(alloc, pattern, &expected, 1)
}

#[test]
fn a_long_string_counts_where_it_stands(rt: HostRuntime) {
    for (pattern, ranges, has) in DENOTED {
        let holds = denotes(rt.alloc(), pattern, ranges, *has);
        assert_holds(&rt, holds, pattern, ranges);
    }
}

#[test]
fn a_long_string_is_no_set(rt: HostRuntime) {
    for (pattern, words) in REFUSED {
        let holds = refused(rt.alloc(), pattern, words);
        assert_holds(&rt, holds, pattern, words);
    }
}
