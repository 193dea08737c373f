//! Escapes.
ghost use Rattle.std.specs.Prelude.{◌≡◌, ◌<◌, ◌≤◌, ◌∷◌, length, max, IfOk, IfErr};
ghost use Rattle.std.specs.Str.{chars};
ghost use Rattle.uset_grammar.specs.Escape.{is_hex, is_surrogate, plain};
ghost use Rattle.uset_read.specs.Stops.{left_at, with_rest, Tells};
ghost use Rattle.uset_read.specs.Spelled.{spelled_read, next_seen, behind_next, sole_at, all_at, number_behind_at, behind_white_at, next_at, braced_at, digits_at, six_at, letters_at, EscapeIs, EscapeStops};

use crate::digits::{Digits, read_digits, read_number, read_six_digits};
use crate::stop::{Kind, Stop};
use crate::text::{read_char, skip_white_space, take_first};
use cp_invlist::CodePointInversionList;
use std::alloc::Global;
use uset_grammar::laws::units_by_parts;

/// Where an escape stands.
#[derive(Clone, Copy, Drop)]
pub enum Around {
    /// In a string, where no surrogate can stand.
    String,
    /// In a bracket.
    Bracket {
        /// Whether an escape of several numbers fits there.
        several: bool,
    },
}

/// What an escape spells.
#[derive(Drop)]
pub enum Spelled {
    /// A character, by itself or by its letter.
    Itself(char),
    /// Numbers: the first, and those behind it.
    Numbers(u32, Vec<u32>),
}

/// Whether the number is a surrogate.
#[tactic(auto, unfolding(uset_grammar::specs::Escape::is_surrogate))]
fn is_surrogate(number: u32) -> bool
    ensures { result ≡ is_surrogate number }
{
    0xD800 <= number && number <= 0xDFFF
}

/// The only number of an escape that begins there. In a string it is no surrogate.
fn end_sole<'a>(
    alloc: Global,
    around: Around,
    begin: &'a str,
    number: u32,
    rest: &'a str,
) -> Result<(Spelled, &'a str), Stop<'a>>
    ensures parts { Tells (sole_at around begin.now number rest.now) spelled_read result }
    ensures rest { IfOk result (λ p. p.1.now ≡ rest.now) }
    ensures place { IfErr result (λ stop. left_at stop ≤ length begin.now) }
{
    match around {
        Around::String if is_surrogate(number) => Err(Stop::Fault(Kind::InvalidEscape, begin)),
        _ => Ok((Spelled::Numbers(number, Vec::new(alloc)), rest)),
    }
}

/// The numbers of an escape that begins there, behind its closing brace.
fn end_numbers<'a>(
    alloc: Global,
    around: Around,
    begin: &'a str,
    first: u32,
    more: Vec<u32>,
    rest: &'a str,
) -> Result<(Spelled, &'a str), Stop<'a>>
    ensures parts { Tells (all_at around begin.now (first ∷ more.items) rest.now) spelled_read result }
    ensures rest { IfOk result (λ p. p.1.now ≡ rest.now) }
    ensures place { IfErr result (λ stop. left_at stop ≤ length begin.now) }
{
    if more.is_empty() {
        return end_sole(alloc, around, begin, first, rest);
    }
    Ok((Spelled::Numbers(first, more), rest))
}

/// Whether the character is a hexadecimal digit.
#[tactic(auto, unfolding(uset_grammar::specs::Escape::is_hex))]
fn is_hex(c: char) -> bool
    ensures { result ≡ is_hex c }
{
    c.to_digit(16).is_some()
}

/// Reads a number behind the numbers of an escape that begins there. Where it is the second, the first
/// is judged once a digit of it is seen. In a string it is no surrogate.
#[tactic(auto, unfolding(uset_grammar::specs::Escape::is_hex))]
fn read_number_behind<'a>(
    around: Around,
    begin: &'a str,
    first: u32,
    more: &[u32],
    text: &'a str,
) -> Result<(u32, &'a str), Stop<'a>>
    ensures parts { Tells (number_behind_at around begin.now (first ∷ more.now) text.now) with_rest result }
    ensures shorter { IfOk result (λ p. length p.1.now < length text.now) }
    ensures fewer { IfOk result (λ p. length (chars p.1.now) < length (chars text.now)) }
    ensures place { IfErr result (λ stop. left_at stop ≤ max (length begin.now) (length text.now)) }
{
    let (c, _) = take_first(text)?;
    if more.is_empty() && is_hex(c) {
        match around {
            Around::String => {
                if is_surrogate(first) {
                    return Err(Stop::Fault(Kind::InvalidEscape, begin));
                }
            }
            Around::Bracket { several } => {
                if !several {
                    return Err(Stop::Fault(Kind::UnexpectedChar('\\'), begin));
                }
            }
        }
    }
    let (number, rest) = read_number(text)?;
    match around {
        Around::String if is_surrogate(number) => Err(Stop::Fault(Kind::InvalidEscape, text)),
        _ => Ok((number, rest)),
    }
}

/// What follows the numbers of an escape in braces.
#[derive(Drop)]
enum Next<'a> {
    /// The closing brace, with the text behind it.
    Closed(&'a str),
    /// A further number, with the text behind it.
    Number(u32, &'a str),
}

/// Reads the closing brace, or a number behind those.
fn read_next_at<'a>(
    around: Around,
    begin: &'a str,
    first: u32,
    more: &[u32],
    text: &'a str,
) -> Result<Next<'a>, Stop<'a>>
    ensures parts { Tells (behind_white_at around begin.now (first ∷ more.now) text.now) next_seen result }
    ensures shorter { IfOk result (λ next. length (behind_next next) < length text.now) }
    ensures fewer { IfOk result (λ next. length (chars (behind_next next)) < length (chars text.now)) }
    ensures place { IfErr result (λ stop. left_at stop ≤ max (length begin.now) (length text.now)) }
{
    let (c, behind) = take_first(text)?;
    if c == '}' {
        return Ok(Next::Closed(behind));
    }
    let (number, behind) = read_number_behind(around, begin, first, more, text)?;
    Ok(Next::Number(number, behind))
}

/// Reads the closing brace, or white space and what follows it, behind numbers.
fn read_next<'a>(
    white_space: &CodePointInversionList,
    around: Around,
    begin: &'a str,
    first: u32,
    more: &[u32],
    text: &'a str,
) -> Result<Next<'a>, Stop<'a>>
    ensures parts { Tells (next_at white_space.now around begin.now (first ∷ more.now) text.now) next_seen result }
    ensures shorter { IfOk result (λ next. length (behind_next next) < length text.now) }
    ensures fewer { IfOk result (λ next. length (chars (behind_next next)) < length (chars text.now)) }
    ensures place { IfErr result (λ stop. left_at stop ≤ max (length begin.now) (length text.now)) }
{
    let (c, behind) = take_first(text)?;
    if c == '}' {
        return Ok(Next::Closed(behind));
    }
    if is_hex(c) || !white_space.contains(c) {
        return Err(Stop::Fault(Kind::UnexpectedChar(c), text));
    }
    read_next_at(
        around,
        begin,
        first,
        more,
        skip_white_space(white_space, behind),
    )
}

/// Reads the numbers in braces of an escape that begins there, and the closing brace.
fn read_braced<'a>(
    alloc: Global,
    white_space: &CodePointInversionList,
    around: Around,
    begin: &'a str,
    text: &'a str,
) -> Result<(Spelled, &'a str), Stop<'a>>
    ensures parts { Tells (braced_at white_space.now around begin.now text.now) spelled_read result }
    ensures shorter { IfOk result (λ p. length p.1.now < length text.now) }
    ensures fewer { IfOk result (λ p. length (chars p.1.now) < length (chars text.now)) }
    ensures place { IfErr result (λ stop. left_at stop ≤ max (length begin.now) (length text.now)) }
{
    let (first, mut rest) = read_number(skip_white_space(white_space, text))?;
    let mut more = Vec::new(alloc);
    loop {
        match read_next(white_space, around, begin, first, &more, rest)? {
            Next::Closed(behind) => {
                return end_numbers(alloc, around, begin, first, more, behind);
            }
            Next::Number(number, behind) => {
                more.push(number)?;
                rest = behind;
            }
        }
    }
}

/// Reads numbers in braces or so many digits, behind the letter of an escape that begins there.
fn read_braced_or_digits<'a>(
    alloc: Global,
    white_space: &CodePointInversionList,
    around: Around,
    begin: &'a str,
    digits: Digits,
    text: &'a str,
) -> Result<(Spelled, &'a str), Stop<'a>>
    ensures parts { Tells (digits_at white_space.now around begin.now digits text.now) spelled_read result }
    ensures shorter { IfOk result (λ p. length p.1.now < length text.now) }
    ensures place { IfErr result (λ stop. left_at stop ≤ max (length begin.now) (length text.now)) }
{
    let (c, inner) = take_first(text)?;
    if c == '{' {
        return read_braced(alloc, white_space, around, begin, inner);
    }
    let (number, rest) = read_digits(digits, text)?;
    end_sole(alloc, around, begin, number, rest)
}

/// Reads what follows the `U` of an escape that begins there.
fn read_six<'a>(
    alloc: Global,
    around: Around,
    begin: &'a str,
    text: &'a str,
) -> Result<(Spelled, &'a str), Stop<'a>>
    ensures parts { Tells (six_at around begin.now text.now) spelled_read result }
    ensures shorter { IfOk result (λ p. length p.1.now < length text.now) }
    ensures place { IfErr result (λ stop. left_at stop ≤ max (length begin.now) (length text.now)) }
{
    let (number, rest) = read_six_digits(read_char('0', read_char('0', text)?)?)?;
    end_sole(alloc, around, begin, number, rest)
}

/// What a character behind a backslash stands for.
#[tactic(auto, unfolding(uset_grammar::specs::Escape::plain))]
fn plain(c: char) -> char
    ensures { result ≡ plain c }
{
    match c {
        'a' => '\u{7}',
        'b' => '\u{8}',
        't' => '\t',
        'n' => '\n',
        'v' => '\u{b}',
        'f' => '\u{c}',
        'r' => '\r',
        _ => c,
    }
}

/// Reads what follows the backslash of an escape that begins there.
#[tactic(auto, unfolding(uset_grammar::specs::Escape::letter))]
pub(crate) fn read_letter<'a>(
    alloc: Global,
    white_space: &CodePointInversionList,
    around: Around,
    begin: &'a str,
    text: &'a str,
) -> Result<(Spelled, &'a str), Stop<'a>>
    ensures parts { Tells (letters_at white_space.now around begin.now text.now) spelled_read result }
    ensures shorter { IfOk result (λ p. length p.1.now < length text.now) }
    ensures place { IfErr result (λ stop. left_at stop ≤ max (length begin.now) (length text.now)) }
{
    let (c, rest) = take_first(text)?;
    match c {
        'x' => read_braced_or_digits(alloc, white_space, around, begin, Digits::Two, rest),
        'u' => read_braced_or_digits(alloc, white_space, around, begin, Digits::Four, rest),
        'U' => read_six(alloc, around, begin, rest),
        'N' => Err(Stop::Fault(Kind::Unimplemented, text)),
        _ => Ok((Spelled::Itself(plain(c)), rest)),
    }
}

/// Reads the escape at the front of the text, which begins with its backslash. The answer is what it spells and the text behind
/// it. `Stop` says at which rest of the text which fault is, that the text ends inside the escape, or that memory was refused.
/// The grammar is kept to where the text begins so and white space has no hexadecimal digit, no `}` and no backslash, as that of
/// patterns hasn't; elsewhere only the places and lengths are told.
pub fn read_escape<'a>(
    alloc: Global,
    white_space: &CodePointInversionList,
    around: Around,
    text: &'a str,
) -> Result<(Spelled, &'a str), Stop<'a>>
    ensures read { IfOk result (λ p. EscapeIs white_space.now around text.now p.0 p.1.now) }
    ensures stopped { IfErr result (EscapeStops white_space.now around text.now) }
    ensures shorter { IfOk result (λ p. length p.1.now < length text.now) }
    ensures place { IfErr result (λ stop. left_at stop ≤ length text.now) }
{
    units_by_parts();
    let (_, inner) = take_first(text)?;
    read_letter(alloc, white_space, around, text, inner)
}
