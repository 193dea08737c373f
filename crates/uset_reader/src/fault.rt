//! Faults with their places.
ghost use Rattle.std.specs.Prelude.{◌≡◌, ◌≤◌, ◌<◌, length};
ghost use Rattle.uset_read.specs.Cursors.{left_of};
ghost use Rattle.uset_read.specs.Stops.{left_at};
ghost use Rattle.uset_fault.specs.Errors.{kind_of, offset_in};
ghost use Rattle.uset_reader.specs.Faults.{IsAt, IsBefore, IsStop};

use uset_fault::{ParseError, ParseErrorKind};
use uset_read::{Cursor, Kind, Stop};

/// A fault at the front of the rest.
pub(crate) fn fault_at(cursor: Cursor<'_>, kind: ParseErrorKind, rest: &str) -> ParseError
    requires { length rest.now ≤ length (left_of cursor) }
    ensures kind { kind_of result ≡ kind }
    ensures place { IsAt cursor.entry rest.now (offset_in result) }
{
    ParseError::at(kind, cursor.at(rest).offset())
}

/// A fault at the last character in front of the rest.
pub(crate) fn fault_before(cursor: Cursor<'_>, kind: ParseErrorKind, rest: &str) -> ParseError
    requires { length rest.now < length (left_of cursor) }
    ensures kind { kind_of result ≡ kind }
    ensures place { IsBefore cursor.entry rest.now (offset_in result) }
{
    ParseError::at(kind, cursor.at(rest).last_offset())
}

/// Why a unit isn't read, as a fault of the source. What a property misses is missed at its end mark, and the place is
/// the byte before that.
pub(crate) fn stopped(cursor: Cursor<'_>, stop: Stop<'_>) -> ParseError
    requires { left_at stop ≤ length (left_of cursor) }
    ensures { IsStop cursor.entry stop.entry result }
{
    let (kind, rest) = match stop {
        Stop::Fault(kind, rest) => (kind, rest),
        Stop::Ended => return ParseErrorKind::Eof.into(),
        Stop::NoMemory => return ParseErrorKind::NoMemory.into(),
    };
    let offset = cursor.at(rest).offset();
    match kind {
        Kind::UnexpectedChar(c) => ParseError::at(ParseErrorKind::UnexpectedChar(c), offset),
        Kind::Unimplemented => ParseError::at(ParseErrorKind::Unimplemented, offset),
        Kind::InvalidEscape => ParseError::at(ParseErrorKind::InvalidEscape, offset),
        Kind::UnknownProperty => ParseError::at(
            ParseErrorKind::UnknownProperty,
            offset.saturating_sub(1),
        ),
        Kind::Internal => ParseError::at(ParseErrorKind::Internal, offset.saturating_sub(1)),
    }
}
