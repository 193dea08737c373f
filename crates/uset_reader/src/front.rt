//! What stands in front of a text.
ghost use Rattle.std.specs.Prelude.{◌≡◌, ◌≤◌, ◌<◌, length, IfSome};
ghost use Rattle.std.specs.Bool.{OnTrue};
ghost use Rattle.std.specs.Str.{chars};
ghost use Rattle.uset_grammar.specs.Text.{optional_code};
ghost use Rattle.uset_grammar.specs.Front.{front, first};
ghost use Rattle.uset_grammar.specs.Reached.{is_short};
ghost use Rattle.uset_reader.specs.Syntaxes.{language_seen};
ghost use Rattle.uset_reader.specs.Fronts.{front_seen, first_seen, IsBehindFront, IsBehindFirst, IsOpening, IsPlain};

use crate::bracket::Opening;
use crate::code_point::CodePoint;
use crate::item::Single;
use crate::syntax::Syntax;
use uset_read::{read_name, split_first};

/// What stands in front of a text in a bracket.
#[derive(Clone, Copy)]
pub(crate) enum Front<'a> {
    Nothing,
    /// A `]`, and the text behind it.
    Closing(&'a str),
    /// A bracket with what it begins with, and the text behind that.
    Opening(Opening, &'a str),
    /// An item of one character, and the text behind it.
    Single(Single, &'a str),
    /// A name behind a `$`, and the text behind the name.
    Name(&'a str, &'a str),
    /// An escape, a string or a property.
    Unit,
    /// A `^`, which is no item.
    Caret,
}

/// What a source begins with.
#[derive(Clone, Copy)]
pub(crate) enum First<'a> {
    /// Nothing, or a `$` alone.
    TooShort,
    /// A character that begins no set.
    Stray(char),
    /// A `$` without a name.
    Bare,
    /// A name behind a `$`, and the text behind the name.
    Variable(&'a str, &'a str),
    /// A bracket with what it begins with, and the text behind that.
    Bracket(Opening, &'a str),
    /// A property.
    Property,
}

/// The bytes of a character are no more.
const MOST_BYTES: usize = 4;

/// Whether nothing is left, or one last character other than `]`. The length alone tells where more than a character is left.
pub(crate) fn is_short(text: &str) -> bool
    ensures { result ≡ is_short (chars text.now) }
{
    if text.len() > MOST_BYTES {
        return false;
    }
    match split_first(text) {
        Some((first, rest)) => first != ']' && rest.is_empty(),
        None => true,
    }
}

/// What stands in front of the text, white space aside, that is the rest of a bracket.
#[tactic(auto, unfolding(uset_grammar::specs::Front::sign))]
pub(crate) fn look_ahead<'a>(syntax: &Syntax<'_>, text: &'a str) -> Front<'a>
    ensures front { front_seen result ≡ front (language_seen syntax.now) (chars text.now) }
    ensures behind { IsBehindFront result text.now }
{
    let Some((first, rest)) = split_first(text) else {
        return Front::Nothing;
    };
    match first {
        '[' => match read_opening(syntax, rest) {
            Some((opening, inner)) => Front::Opening(opening, inner),
            None => Front::Unit,
        },
        ']' => Front::Closing(rest),
        '-' => Front::Single(Single::Minus, rest),
        '&' => Front::Single(Single::Ampersand, rest),
        '$' => match read_name(syntax.start, syntax.continuing, rest) {
            Some((name, behind)) => Front::Name(name, behind),
            None => Front::Single(Single::Dollar, rest),
        },
        '\\' | '{' => Front::Unit,
        '^' => Front::Caret,
        _ => Front::Single(Single::Other(CodePoint::from_char(first)), rest),
    }
}

/// What the source begins with.
#[tactic(auto, unfolding(uset_grammar::specs::Front::sign))]
pub(crate) fn look_at_first<'a>(syntax: &Syntax<'_>, source: &'a str) -> First<'a>
    ensures first { first_seen result ≡ first (language_seen syntax.now) (chars source.now) }
    ensures behind { IsBehindFirst result source.now }
{
    let Some((first, rest)) = split_first(source) else {
        return First::TooShort;
    };
    match first {
        '[' => match read_opening(syntax, rest) {
            Some((opening, inner)) => First::Bracket(opening, inner),
            None => First::Property,
        },
        '$' => match read_name(syntax.start, syntax.continuing, rest) {
            Some((name, behind)) => First::Variable(name, behind),
            None if split_first(rest).is_none() => First::TooShort,
            None => First::Bare,
        },
        '\\' => First::Property,
        _ => First::Stray(first),
    }
}

/// Whether the text begins with a visible ASCII character other than those that mean something behind a `[` alone. Its byte
/// tells, and nothing is decoded.
fn is_plain(text: &str) -> bool
    ensures { OnTrue result (IsPlain (chars text.now)) }
{
    let Some(first) = text.as_bytes().first() else {
        return false;
    };
    if *first == b':' || *first == b'^' || *first == b'-' {
        return false;
    }
    first.is_ascii_graphic()
}

/// Reads what stands behind the `[` of a bracket and in front of its items. `None` where a `:` follows at once.
fn read_opening<'a>(syntax: &Syntax<'_>, text: &'a str) -> Option<(Opening, &'a str)>
    ensures parts { IsOpening (language_seen syntax.now) (chars text.now) result }
    ensures within { IfSome result (λ p. length p.1.now ≤ length text.now) }
{
    if is_plain(text) {
        return Some((Opening::NONE, text));
    }
    if let Some((':', _)) = split_first(text) {
        return None;
    }
    let (negated, inner) = strip_optional(text, '^');
    let (leading, inner) = strip_optional(syntax.skip_white_space(inner), '-');
    Some((Opening { negated, leading }, inner))
}

/// Whether the character is the first, and the text without it there.
fn strip_optional(text: &str, c: char) -> (bool, &str)
    ensures parts { (result.0, chars result.1.now) ≡ optional_code c (chars text.now) }
    ensures within { length result.1.now ≤ length text.now }
{
    match split_first(text) {
        Some((first, rest)) if first == c => (true, rest),
        _ => (false, text),
    }
}
