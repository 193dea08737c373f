//! The tables and the calls that the rows share.
use crate::run_in_memory;
use row_fixtures::EVERY_KIND;
use std::alloc::{AllocError, Global};
use std::fmt;
use std::process::Abort;

/// Asserts that both values are the same. An assertion is proved slowly wherever it stands, so that tests share this one and
/// the next.
pub(crate) fn assert_equal<T: PartialEq + fmt::Debug + Drop>(
    rt: &impl Abort,
    found: T,
    expected: T,
) {
    assert_eq!(rt; found, expected);
}

/// Asserts that the text has the answer that is expected. A failure tells both.
pub(crate) fn assert_holds(
    rt: &impl Abort,
    holds: Result<bool, AllocError>,
    text: &str,
    expected: &str,
) {
    assert!(rt; holds == Ok(true), "at {text}, expected {expected}");
}

/// The tables of the pattern syntax, without an end: their white space as in Unicode, of the rest what is ASCII.
pub(crate) const SYNTAX: &str =
    "set XID_Start\n41-5A\n61-7A\nset XID_Continue\n30-39\n41-5A\n5F\n61-7A\nset Pattern_White_Space\n9-D\n20\n85\n200E-200F\n2028-2029\n";

/// Lines that bind a character, a string and a set.
const BINDINGS: &str = "let a char 61\nlet v str 61 62\nlet s set [a-z{bc}]\n";

/// What these lines are answered with.
const BOUND: &str = "bound a\nbound v\nbound s\n";

/// The words of the command line.
pub(crate) fn words_of(alloc: Global, texts: &[&str]) -> Result<Vec<String>, AllocError> {
    let mut words = Vec::new(alloc);
    for text in texts {
        words.push(String::from_str(alloc, text)?)?;
    }
    Ok(words)
}

/// The one word `eval`.
pub(crate) fn eval(alloc: Global) -> Result<Vec<String>, AllocError> {
    words_of(alloc, &["eval"])
}

/// Whether a run with these words over the input writes the answer and no more, and ends with the status of this number.
pub(crate) fn is_answered(
    alloc: Global,
    words: &Vec<String>,
    input: Vec<u8>,
    expected: &str,
    code: u8,
) -> bool {
    let (status, sink) = run_in_memory(alloc, words, input);
    sink.written() == expected.as_bytes() && status.code() == code
}

/// The same of a run with the word `eval`.
pub(crate) fn is_evaluated(
    alloc: Global,
    input: Vec<u8>,
    expected: &str,
    code: u8,
) -> Result<bool, AllocError> {
    let words = eval(alloc)?;
    Ok(is_answered(alloc, &words, input, expected, code))
}

/// Whether the lines, behind the tables, have the answers, and the run ends with the status of this number.
pub(crate) fn have_answer(
    alloc: Global,
    lines: &str,
    expected: &str,
    code: u8,
) -> Result<bool, AllocError> {
    let input = format!(in alloc; "{EVERY_KIND}{lines}\n")?;
    is_evaluated(alloc, input.into_bytes(), expected, code)
}

/// The lines, behind the tables, have the answers, and the run ends with the status of this number.
pub(crate) fn assert_answer(rt: &impl Abort, alloc: Global, lines: &str, expected: &str, code: u8) {
    let holds = have_answer(alloc, lines, expected, code);
    assert_holds(rt, holds, lines, expected);
}

/// Each of the lines has the answer beside it, and each run ends with the status of this number.
pub(crate) fn assert_answers(rt: &impl Abort, alloc: Global, rows: &[(&str, &str)], code: u8) {
    for (lines, expected) in rows {
        assert_answer(rt, alloc, lines, expected, code);
    }
}

/// Whether the pattern, behind the line that binds this name, is read whole, with these members.
pub(crate) fn denotes(
    alloc: Global,
    line: &str,
    name: &str,
    pattern: &str,
    members: &str,
) -> Result<bool, AllocError> {
    let length = pattern.len();
    let lines = format!(in alloc; "{line}\npat {pattern}")?;
    let space = if members.is_empty() { "" } else { " " };
    let answer = format!(in alloc; "bound {name}\nok {length}{space}{members}\n")?;
    have_answer(alloc, &lines, &answer, 0)
}

/// Whether the pattern, behind the bindings, is read with this length and these members.
fn is_read(alloc: Global, pattern: &str, expected: &str) -> Result<bool, AllocError> {
    let lines = format!(in alloc; "{BINDINGS}pat {pattern}")?;
    let answer = format!(in alloc; "{BOUND}ok {expected}\n")?;
    have_answer(alloc, &lines, &answer, 0)
}

/// Each pattern, behind the bindings, is read with the length and the members beside it.
pub(crate) fn assert_read(rt: &impl Abort, alloc: Global, rows: &[(&str, &str)]) {
    for (pattern, expected) in rows {
        let holds = is_read(alloc, pattern, expected);
        assert_holds(rt, holds, pattern, expected);
    }
}

/// Whether the pattern, behind the bindings, is refused with these words behind this front.
pub(crate) fn is_refused(
    alloc: Global,
    pattern: &str,
    front: &str,
    words: &str,
) -> Result<bool, AllocError> {
    let lines = format!(in alloc; "{BINDINGS}pat {pattern}")?;
    let answer = format!(in alloc; "{BOUND}err {front}← error: {words}\n")?;
    have_answer(alloc, &lines, &answer, 1)
}

/// The pattern, behind the bindings, is refused with these words behind this front.
pub(crate) fn assert_fault(
    rt: &impl Abort,
    alloc: Global,
    pattern: &str,
    front: &str,
    words: &str,
) {
    let holds = is_refused(alloc, pattern, front, words);
    assert_holds(rt, holds, pattern, words);
}

/// Each pattern, behind the bindings, is refused with these words behind the front beside it.
pub(crate) fn assert_faults(rt: &impl Abort, alloc: Global, rows: &[(&str, &str)], words: &str) {
    for (pattern, front) in rows {
        assert_fault(rt, alloc, pattern, front, words);
    }
}

/// Whether the pattern, behind the bindings, is refused at the last character of this front, which is unexpected.
fn is_unexpected(alloc: Global, pattern: &str, front: &str) -> Result<bool, AllocError> {
    let Some(last) = front.chars().next_back() else {
        return Ok(false);
    };
    let words = format!(in alloc; "unexpected character '{last}'")?;
    is_refused(alloc, pattern, front, &words)
}

/// Each pattern, behind the bindings, is refused at the last character of the front beside it, which is unexpected.
pub(crate) fn assert_unexpected(rt: &impl Abort, alloc: Global, rows: &[(&str, &str)]) {
    for (pattern, front) in rows {
        let holds = is_unexpected(alloc, pattern, front);
        assert_holds(rt, holds, pattern, front);
    }
}
