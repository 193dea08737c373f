//! Faults of a pattern.
use crate::shown::{front_past, push_words};
use cp_invlist::NoMemory;
use std::alloc::{AllocFailed, Global};
use thiserror::Error;

/// What is wrong with a pattern.
#[derive(Clone, Copy, Debug, Drop, PartialEq, Eq, Error)]
pub enum ParseErrorKind {
    /// The character can't stand there; or it ends a range that is reversed, U+FFFD for a surrogate.
    #[error("An unexpected character was encountered")]
    UnexpectedChar(char),
    /// The property resolves to nothing.
    #[error("The property name or value is unknown")]
    UnknownProperty,
    /// The variable's name is bound to nothing.
    #[error("A reference to an unknown variable.")]
    UnknownVariable,
    /// What the variable is bound to can't stand there.
    #[error("A variable of a certain type occurring in an unexpected context.")]
    UnexpectedVariable,
    /// The source ends where more is due.
    #[error("The source is an incomplete unicode set.")]
    Eof,
    /// A table is absent from the database: one of the syntax; or, where a property asks Block for a value, that of the
    /// names of blocks, or the map of blocks, where the value is the name of one or a decimal number of at most 65535.
    #[error("Something unexpected went wrong with our code. Please file a bug report on GitHub.")]
    Internal,
    /// `\N`, which isn't read.
    #[error("The provided syntax is not supported by us.")]
    Unimplemented,
    /// An escape's number is no code point, or a surrogate in a string.
    #[error("The provided escape sequence is not a valid Unicode code point or represents too many code points.")]
    InvalidEscape,
    /// A request for memory was refused.
    #[error("Out of memory")]
    NoMemory,
}

/// The fault of a pattern: its kind, and its place where it has one.
#[derive(Clone, Copy, Debug, Drop, PartialEq, Eq, Error)]
#[error("{kind}")]
pub struct ParseError {
    kind: ParseErrorKind,
    offset: Option<usize>,
}

impl ParseError {
    ghost use Rattle.std.specs.Prelude.{◌≡◌, ◌++◌, Some, IfOk, OnOk, encode_utf8_all, option_map};
    ghost use Rattle.std.specs.Str.{chars};
    ghost use Rattle.std.specs.String.{string_bytes};
    ghost use Rattle.uset_fault.specs.Errors.{kind_of, offset_in, front_shown, with_arrow, shown_with};

    /// A fault at a place, a byte offset into the source.
    pub fn at(kind: ParseErrorKind, offset: usize) -> ParseError
        ensures kind { kind_of result ≡ kind }
        ensures place { offset_in result ≡ Some offset }
    {
        ParseError {
            kind,
            offset: Some(offset),
        }
    }

    /// The kind of the fault.
    pub fn kind(&self) -> ParseErrorKind
        ensures { result ≡ kind_of self.now }
    {
        self.kind
    }

    /// The place of the fault, as a byte offset into the source. What `at` made has one, and what was made of a kind
    /// alone has none. An error of the reader has none where more is due at the end, where a table of the syntax is
    /// absent, and where memory was refused.
    pub fn offset(&self) -> Option<usize>
        ensures { result ≡ offset_in self.now }
    {
        self.offset
    }

    /// The front of the source that is shown: all of it where more is due at its end, and else up to the first end of
    /// a character behind the place, where that is within the source.
    fn front<'a>(&self, source: &'a str) -> Option<&'a str>
        ensures { option_map (λ front. front.now) result ≡
            option_map encode_utf8_all (front_shown self.now (chars source.now)) }
    {
        if let ParseErrorKind::Eof = self.kind {
            return Some(source);
        }
        let offset = self.offset?;
        if offset < source.len() {
            Some(front_past(source, offset))
        } else {
            None
        }
    }

    /// Appends the front of the source that is shown, and an arrow behind it.
    fn push_front(&self, text: &mut String, source: &str) -> Result<(), NoMemory>
        ensures { OnOk result (string_bytes text.new ≡
            string_bytes text.old ++ encode_utf8_all (with_arrow (front_shown self.now (chars source.now)))) }
    {
        if let Some(front) = self.front(source) {
            text.push_str(front)?;
            text.push_str("← ")?;
        }
        Ok(())
    }

    /// The fault in words, behind the front of the source through the character at its place and an arrow; where more is due at
    /// the end, behind all of the source. The source may be any: of another fault whose place is past its end, none of it is
    /// shown. No character is cut. `NoMemory` says that a request for memory was refused.
    pub fn fmt_with_source(&self, alloc: Global, source: &str) -> Result<String, NoMemory>
        ensures { IfOk result (λ text. string_bytes text ≡ encode_utf8_all (shown_with self.now (chars source.now))) }
    {
        let mut text = String::new(alloc);
        self.push_front(&mut text, source)?;
        text.push_str("error: ")?;
        push_words(&mut text, self.kind)?;
        Ok(text)
    }
}

impl From<ParseErrorKind> for ParseError {
    ghost use Rattle.std.specs.Prelude.{◌≡◌, None};
    ghost use Rattle.uset_fault.specs.Errors.{kind_of, offset_in};

    ghost from_gives = { λ kind error. (kind_of error ≡ kind) × (offset_in error ≡ None) };

    fn from(kind: ParseErrorKind) -> ParseError {
        ParseError { kind, offset: None }
    }
}

impl From<NoMemory> for ParseError {
    ghost use Rattle.std.specs.Prelude.{◌≡◌, None};
    ghost use Rattle.uset_fault.specs.declared.error.ParseErrorKind.TheVariants.{NoMemory as OutOfMemory};
    ghost use Rattle.uset_fault.specs.Errors.{kind_of, offset_in};

    ghost from_gives = { λ _ error. (kind_of error ≡ OutOfMemory) × (offset_in error ≡ None) };

    fn from(_error: NoMemory) -> ParseError {
        ParseErrorKind::NoMemory.into()
    }
}

impl<T: Drop> From<AllocFailed<T>> for ParseError {
    ghost use Rattle.std.specs.Prelude.{◌≡◌, None};
    ghost use Rattle.uset_fault.specs.declared.error.ParseErrorKind.TheVariants.{NoMemory as OutOfMemory};
    ghost use Rattle.uset_fault.specs.Errors.{kind_of, offset_in};

    ghost from_gives = { λ _ error. (kind_of error ≡ OutOfMemory) × (offset_in error ≡ None) };

    fn from(_error: AllocFailed<T>) -> ParseError {
        ParseErrorKind::NoMemory.into()
    }
}
