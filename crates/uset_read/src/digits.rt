//! Numbers in hexadecimal digits.
ghost use Rattle.std.specs.Prelude.{◌<◌, ◌≤◌, ◌*◌, ◌+◌, ◌^◌, length, IfErr, IfOk};
ghost use Rattle.std.specs.Str.{chars};
ghost use Rattle.uset_read.specs.Stops.{left_at, with_rest, Tells};
ghost use Rattle.uset_grammar.specs.EscapeParts.{digit_in, two_digits_in, four_digits_in, last_digit_in, six_digits_in, further_digits_in, number_in};
ghost use Rattle.uset_read.specs.Spelled.{digits_in};

use crate::stop::{Kind, Stop};
use crate::text::take_first;

/// How many digits an escape without braces has behind `x` or `u`.
#[derive(Clone, Copy, Drop)]
pub(crate) enum Digits {
    /// Behind `x`.
    Two,
    /// Behind `u`.
    Four,
}

/// Reads a hexadecimal digit onto the number.
#[tactic(auto, unfolding(uset_grammar::specs::EscapeParts::digit_in, uset_grammar::specs::Escape::is_hex))]
fn read_digit(number: u32, text: &str) -> Result<(u32, &str), Stop<'_>>
    requires { number < 2 ^ 24 }
    ensures parts { Tells (digit_in number (chars text.now)) with_rest result }
    ensures bound { IfOk result (λ p. p.0 < number * 16 + 16) }
    ensures shorter { IfOk result (λ p. length p.1.now < length text.now) }
    ensures fewer { IfOk result (λ p. length (chars p.1.now) < length (chars text.now)) }
    ensures place { IfErr result (λ stop. left_at stop ≤ length text.now) }
{
    let (first, rest) = take_first(text)?;
    match first.to_digit(16) {
        Some(digit) => Ok((number * 16 + digit, rest)),
        None => Err(Stop::Fault(Kind::UnexpectedChar(first), text)),
    }
}

/// Reads two hexadecimal digits onto the number.
#[tactic(auto, unfolding(uset_grammar::specs::EscapeParts::two_digits_in))]
fn read_two_digits(number: u32, text: &str) -> Result<(u32, &str), Stop<'_>>
    requires { number < 2 ^ 16 }
    ensures parts { Tells (two_digits_in number (chars text.now)) with_rest result }
    ensures bound { IfOk result (λ p. p.0 < number * 256 + 256) }
    ensures shorter { IfOk result (λ p. length p.1.now < length text.now) }
    ensures fewer { IfOk result (λ p. length (chars p.1.now) < length (chars text.now)) }
    ensures place { IfErr result (λ stop. left_at stop ≤ length text.now) }
{
    let (number, rest) = read_digit(number, text)?;
    read_digit(number, rest)
}

/// Reads four hexadecimal digits onto the number.
#[tactic(auto, unfolding(uset_grammar::specs::EscapeParts::four_digits_in))]
fn read_four_digits(number: u32, text: &str) -> Result<(u32, &str), Stop<'_>>
    requires { number < 2 ^ 8 }
    ensures parts { Tells (four_digits_in number (chars text.now)) with_rest result }
    ensures bound { IfOk result (λ p. p.0 < number * 65536 + 65536) }
    ensures shorter { IfOk result (λ p. length p.1.now < length text.now) }
    ensures fewer { IfOk result (λ p. length (chars p.1.now) < length (chars text.now)) }
    ensures place { IfErr result (λ stop. left_at stop ≤ length text.now) }
{
    let (number, rest) = read_two_digits(number, text)?;
    read_two_digits(number, rest)
}

/// Reads a number of so many hexadecimal digits.
pub(crate) fn read_digits(digits: Digits, text: &str) -> Result<(u32, &str), Stop<'_>>
    ensures parts { Tells (digits_in digits 0 (chars text.now)) with_rest result }
    ensures shorter { IfOk result (λ p. length p.1.now < length text.now) }
    ensures place { IfErr result (λ stop. left_at stop ≤ length text.now) }
{
    match digits {
        Digits::Two => read_two_digits(0, text),
        Digits::Four => read_four_digits(0, text),
    }
}

/// Reads the sixth hexadecimal digit of a number.
#[tactic(auto, unfolding(uset_grammar::specs::EscapeParts::last_digit_in, uset_grammar::specs::Escape::is_above))]
fn read_last_digit(number: u32, text: &str) -> Result<(u32, &str), Stop<'_>>
    requires { number < 2 ^ 24 }
    ensures parts { Tells (last_digit_in number (chars text.now)) with_rest result }
    ensures shorter { IfOk result (λ p. length p.1.now < length text.now) }
    ensures fewer { IfOk result (λ p. length (chars p.1.now) < length (chars text.now)) }
    ensures place { IfErr result (λ stop. left_at stop ≤ length text.now) }
{
    let (number, rest) = read_digit(number, text)?;
    if number > 0x10_FFFF {
        return Err(Stop::Fault(Kind::InvalidEscape, text));
    }
    Ok((number, rest))
}

/// Reads a number of six hexadecimal digits.
#[tactic(auto, unfolding(uset_grammar::specs::EscapeParts::six_digits_in))]
pub(crate) fn read_six_digits(text: &str) -> Result<(u32, &str), Stop<'_>>
    ensures parts { Tells (six_digits_in (chars text.now)) with_rest result }
    ensures shorter { IfOk result (λ p. length p.1.now < length text.now) }
    ensures fewer { IfOk result (λ p. length (chars p.1.now) < length (chars text.now)) }
    ensures place { IfErr result (λ stop. left_at stop ≤ length text.now) }
{
    let (number, rest) = read_four_digits(0, text)?;
    let (number, rest) = read_digit(number, rest)?;
    read_last_digit(number, rest)
}

/// Reads at most five digits more of a number that begins with this digit.
#[tactic(auto, unfolding(uset_grammar::specs::Escape::is_hex, uset_grammar::specs::Escape::is_above))]
fn read_further_digits(first: u32, text: &str) -> Result<(u32, &str), Stop<'_>>
    requires { first < 16 }
    ensures parts { Tells (further_digits_in 5 first (chars text.now)) with_rest result }
    ensures within { IfOk result (λ p. length p.1.now ≤ length text.now) }
    ensures no_more { IfOk result (λ p. length (chars p.1.now) ≤ length (chars text.now)) }
    ensures place { IfErr result (λ stop. left_at stop ≤ length text.now) }
{
    let mut number = first;
    let mut rest = text;
    let mut left: u32 = 5;
    loop {
        let (c, behind) = take_first(rest)?;
        let Some(digit) = c.to_digit(16) else {
            return Ok((number, rest));
        };
        number = number * 16 + digit;
        if left == 1 {
            if number > 0x10_FFFF {
                return Err(Stop::Fault(Kind::InvalidEscape, rest));
            }
            return Ok((number, behind));
        }
        left -= 1;
        rest = behind;
    }
}

/// Reads a number of one to six digits.
#[tactic(auto, unfolding(uset_grammar::specs::EscapeParts::digit_in, uset_grammar::specs::Escape::is_hex))]
pub(crate) fn read_number(text: &str) -> Result<(u32, &str), Stop<'_>>
    ensures parts { Tells (number_in (chars text.now)) with_rest result }
    ensures shorter { IfOk result (λ p. length p.1.now < length text.now) }
    ensures fewer { IfOk result (λ p. length (chars p.1.now) < length (chars text.now)) }
    ensures place { IfErr result (λ stop. left_at stop ≤ length text.now) }
{
    let (digit, rest) = read_digit(0, text)?;
    read_further_digits(digit, rest)
}
