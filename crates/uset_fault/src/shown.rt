//! Faults as text, with their sources.
ghost use Rattle.std.specs.Prelude.{◌≡◌, ◌++◌, ◌<◌, length, encode_utf8_all, OnOk, option_map};
ghost use Rattle.std.specs.Char.{is_ascii_control};
ghost use Rattle.std.specs.Str.{chars};
ghost use Rattle.std.specs.String.{string_bytes};
ghost use Rattle.uset_grammar.specs.Shown.{quoted, front_past};
ghost use Rattle.uset_fault.specs.Errors.{escape_of, numbered, words_told};

use crate::error::ParseErrorKind;
use cp_invlist::NoMemory;
use std::fmt::Write;

/// How a character is written that isn't written as itself nor by its number.
fn escape_of(c: char) -> Option<&'static str>
    ensures { option_map (λ s. s.now) result ≡ escape_of c }
{
    match c {
        '\0' => Some("\\0"),
        '\t' => Some("\\t"),
        '\r' => Some("\\r"),
        '\n' => Some("\\n"),
        '\'' => Some("\\'"),
        '"' => Some("\\\""),
        '\\' => Some("\\\\"),
        _ => None,
    }
}

/// Appends the character as it stands between quotes: quotes, the backslash and ASCII's controls are escaped.
fn push_quoted(text: &mut String, c: char) -> Result<(), NoMemory>
    ensures { OnOk result (string_bytes text.new ≡ string_bytes text.old ++ encode_utf8_all (quoted c)) }
{
    if let Some(escape) = escape_of(c) {
        text.push_str(escape)?;
        return Ok(());
    }
    if c.is_ascii_control() {
        return push_number(text, c as u32);
    }
    text.push(c)?;
    Ok(())
}

/// Appends the number in hexadecimal digits and braces.
fn push_number(text: &mut String, number: u32) -> Result<(), NoMemory>
    ensures { OnOk result (string_bytes text.new ≡ string_bytes text.old ++ numbered number) }
{
    write!(text, "\\u{{{number:x}}}")?;
    Ok(())
}

/// Appends what is wrong, in words.
pub(crate) fn push_words(text: &mut String, kind: ParseErrorKind) -> Result<(), NoMemory>
    ensures { OnOk result (string_bytes text.new ≡ string_bytes text.old ++ encode_utf8_all (words_told kind)) }
{
    let words = match kind {
        ParseErrorKind::UnexpectedChar(c) => return push_unexpected(text, c),
        ParseErrorKind::UnknownProperty => "unknown property",
        ParseErrorKind::UnknownVariable => "unknown variable",
        ParseErrorKind::UnexpectedVariable => "unexpected variable",
        ParseErrorKind::Eof => "unexpected end of input",
        ParseErrorKind::Internal => "internal error",
        ParseErrorKind::Unimplemented => "unimplemented",
        ParseErrorKind::InvalidEscape => "invalid escape sequence",
        ParseErrorKind::NoMemory => "out of memory",
    };
    text.push_str(words)?;
    Ok(())
}

fn push_unexpected(text: &mut String, c: char) -> Result<(), NoMemory>
    ensures { OnOk result (string_bytes text.new ≡
        string_bytes text.old ++ encode_utf8_all (words_told (ParseErrorKind.UnexpectedChar c))) }
{
    text.push_str("unexpected character '")?;
    push_quoted(text, c)?;
    text.push_str("'")?;
    Ok(())
}

/// The front of the source up to the first end of a character behind the byte offset.
pub(crate) fn front_past(source: &str, offset: usize) -> &str
    requires { offset < length source.now }
    ensures { result.now ≡ encode_utf8_all (front_past offset (chars source.now)) }
{
    &source[..source.ceil_char_boundary(offset + 1)]
}
