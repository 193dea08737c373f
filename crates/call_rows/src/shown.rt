//! Faults shown with their sources.
use crate::fixtures::{Row, assert_rows, is_shown};
use std::alloc::Global;
use std::fmt;
use uset_fault::{ParseError, ParseErrorKind};

/// The kind and the place of a fault, if it has one, a source, and what both are shown as.
type Shown = (ParseErrorKind, Option<usize>, &'static str, &'static str);

/// The fault of the kind, at the place if it has one.
fn fault(kind: ParseErrorKind, offset: Option<usize>) -> ParseError {
    match offset {
        Some(offset) => ParseError::at(kind, offset),
        None => ParseError::from(kind),
    }
}

impl Row<()> for Shown {
    fn holds(&self, alloc: Global, _lent: &()) -> bool {
        let (kind, offset, source, shown) = *self;
        let error = fault(kind, offset);
        error.kind() == kind && error.offset() == offset && is_shown(alloc, error, source, shown)
    }
}

const BEHIND_FRONTS: &[Shown] = &[
    (
        ParseErrorKind::UnexpectedChar('a'),
        Some(4),
        "[é-a]",
        "[é-a← error: unexpected character 'a'",
    ),
    (
        ParseErrorKind::UnknownProperty,
        Some(3),
        "[:zz:]",
        "[:zz← error: unknown property",
    ),
    (
        ParseErrorKind::UnknownVariable,
        Some(1),
        "$é",
        "$é← error: unknown variable",
    ),
    (
        ParseErrorKind::UnexpectedVariable,
        Some(0),
        "𝄞x",
        "𝄞← error: unexpected variable",
    ),
    (
        ParseErrorKind::InvalidEscape,
        Some(1),
        "ab",
        "ab← error: invalid escape sequence",
    ),
    (
        ParseErrorKind::Eof,
        Some(0),
        "[a",
        "[a← error: unexpected end of input",
    ),
    (
        ParseErrorKind::Eof,
        None,
        "",
        "← error: unexpected end of input",
    ),
    (
        ParseErrorKind::NoMemory,
        Some(0),
        "[a",
        "[← error: out of memory",
    ),
];

#[test]
fn a_fault_is_shown_behind_the_front_of_its_source(rt: HostRuntime) {
    assert_rows(&rt, rt.alloc(), BEHIND_FRONTS);
}

const ALONE: &[Shown] = &[
    (
        ParseErrorKind::Internal,
        None,
        "[a]",
        "error: internal error",
    ),
    (
        ParseErrorKind::Internal,
        Some(2),
        "ab",
        "error: internal error",
    ),
    (
        ParseErrorKind::Unimplemented,
        Some(0),
        "",
        "error: unimplemented",
    ),
];

#[test]
fn a_fault_without_a_place_in_its_source_is_shown_alone(rt: HostRuntime) {
    assert_rows(&rt, rt.alloc(), ALONE);
}

/// A character that is unexpected, and what that is shown as with no source.
type Escaped = (char, &'static str);

impl Row<()> for Escaped {
    fn holds(&self, alloc: Global, _lent: &()) -> bool {
        let (c, shown) = *self;
        is_shown(
            alloc,
            ParseError::from(ParseErrorKind::UnexpectedChar(c)),
            "",
            shown,
        )
    }
}

const ESCAPED: &[Escaped] = &[
    ('\0', "error: unexpected character '\\0'"),
    ('\t', "error: unexpected character '\\t'"),
    ('\r', "error: unexpected character '\\r'"),
    ('\n', "error: unexpected character '\\n'"),
    ('\'', "error: unexpected character '\\''"),
    ('"', "error: unexpected character '\\\"'"),
    ('\\', "error: unexpected character '\\\\'"),
    ('\u{1}', "error: unexpected character '\\u{1}'"),
    ('\u{f}', "error: unexpected character '\\u{f}'"),
    ('\u{1f}', "error: unexpected character '\\u{1f}'"),
    ('\u{7f}', "error: unexpected character '\\u{7f}'"),
    ('\u{80}', "error: unexpected character '\u{80}'"),
    (' ', "error: unexpected character ' '"),
    ('é', "error: unexpected character 'é'"),
];

#[test]
fn quotes_and_controls_are_escaped(rt: HostRuntime) {
    assert_rows(&rt, rt.alloc(), ESCAPED);
}

/// Whether the error displays these words.
fn has_words<E: fmt::Display>(alloc: Global, error: &E, words: &str) -> bool {
    match error.to_string(alloc) {
        Ok(text) => text.as_str() == words,
        Err(_) => false,
    }
}

/// A kind, and the words of it and of a fault of that kind.
type Words = (ParseErrorKind, &'static str);

impl Row<()> for Words {
    fn holds(&self, alloc: Global, _lent: &()) -> bool {
        let (kind, words) = *self;
        has_words(alloc, &kind, words) && has_words(alloc, &ParseError::from(kind), words)
    }
}

const WORDS: &[Words] = &[
    (
        ParseErrorKind::UnexpectedChar('a'),
        "An unexpected character was encountered",
    ),
    (
        ParseErrorKind::UnknownProperty,
        "The property name or value is unknown",
    ),
    (
        ParseErrorKind::UnknownVariable,
        "A reference to an unknown variable.",
    ),
    (
        ParseErrorKind::UnexpectedVariable,
        "A variable of a certain type occurring in an unexpected context.",
    ),
    (
        ParseErrorKind::Eof,
        "The source is an incomplete unicode set.",
    ),
    (
        ParseErrorKind::Internal,
        "Something unexpected went wrong with our code. Please file a bug report on GitHub.",
    ),
    (
        ParseErrorKind::Unimplemented,
        "The provided syntax is not supported by us.",
    ),
    (
        ParseErrorKind::InvalidEscape,
        "The provided escape sequence is not a valid Unicode code point or represents too many code points.",
    ),
    (ParseErrorKind::NoMemory, "Out of memory"),
];

#[test]
fn errors_have_their_words(rt: HostRuntime) {
    assert_rows(&rt, rt.alloc(), WORDS);
}
