//! What stands in front of a text.
ghost use Rattle.std.specs.Prelude.{◌≡◌, ◌≢◌, ◌<◌, ◌≤◌, ◌∷◌, ◌++◌, ℕ, List, [], Err, encode_utf8, length, IfSome, IfErr, IfOk, MatchOption};
ghost use Rattle.std.specs.Str.{chars};
ghost use Rattle.std.specs.String.{string_bytes};
ghost use Rattle.cp_invlist.specs.InversionList.{contains};
ghost use Rattle.uset_grammar.specs.Text.{skip};
ghost use Rattle.uset_grammar.specs.Outcome.{got};
ghost use Rattle.uset_grammar.specs.Parts.{char_in};
ghost use Rattle.uset_read.specs.Pieces.{Appended};
ghost use Rattle.uset_read.specs.Stops.{left_at, Tells};
ghost use Rattle.uset_read.specs.declared.stop.Stop.TheVariants.{Ended as IsEnded};

use crate::stop::{Kind, Stop};
use cp_invlist::laws::members_are_below_the_last;
use cp_invlist::{CodePointInversionList, NoMemory};

/// The first character, and the text behind it.
pub fn split_first(text: &str) -> Option<(char, &str)>
    ensures parts { MatchOption result (chars text.now ≡ []) (λ p. chars text.now ≡ p.0 ∷ chars p.1.now) }
    ensures shorter { IfSome result (λ p. length p.1.now < length text.now) }
    ensures fewer { IfSome result (λ p. length (chars p.1.now) < length (chars text.now)) }
    ensures bytes { IfSome result (λ p. text.now ≡ encode_utf8 p.0 ++ p.1.now) }
{
    let mut characters = text.chars();
    let first = characters.next()?;
    Some((first, characters.as_str()))
}

/// The first character, and the text behind it, where the text hasn't ended.
pub(crate) fn take_first(text: &str) -> Result<(char, &str), Stop<'_>>
    ensures parts { IfOk result (λ p. chars text.now ≡ p.0 ∷ chars p.1.now) }
    ensures ended { IfErr result (λ stop. (stop ≡ IsEnded) × (chars text.now ≡ [])) }
    ensures place { IfErr result (λ stop. left_at stop ≡ 0) }
    ensures shorter { IfOk result (λ p. length p.1.now < length text.now) }
    ensures fewer { IfOk result (λ p. length (chars p.1.now) < length (chars text.now)) }
{
    split_first(text).ok_or(Stop::Ended)
}

/// Reads this character.
pub(crate) fn read_char(due: char, text: &str) -> Result<&str, Stop<'_>>
    ensures parts { Tells (char_in due (chars text.now)) (λ rest. got tt (chars rest.now)) result }
    ensures place { IfErr result (λ stop. left_at stop ≤ length text.now) }
    ensures shorter { IfOk result (λ rest. length rest.now < length text.now) }
    ensures memory { result ≢ Err Stop.NoMemory }
{
    let (c, rest) = take_first(text)?;
    if c == due {
        Ok(rest)
    } else {
        Err(Stop::Fault(Kind::UnexpectedChar(c), text))
    }
}

/// Appends the character.
pub(crate) fn push_char(string: &mut String, c: char) -> Result<(), NoMemory>
    ensures appended { IfOk result (λ _. Appended (string_bytes string.old) (string_bytes string.new) (c ∷ [])) }
{
    string.push(c)?;
    Ok(())
}

/// Whether the set has the character. Most characters stand behind all that white space has, where no search is needed.
fn has_character(set: &CodePointInversionList, c: char) -> bool
    ensures { result ≡ contains set.now c }
{
    members_are_below_the_last();
    let Some(end) = set.get_inversion_list().last() else {
        return false;
    };
    (c as u32) < *end && set.contains(c)
}

/// The text without the characters of the set in front.
pub(crate) fn skip_all<'a>(set: &CodePointInversionList, text: &'a str) -> &'a str
    ensures skipped { chars result.now ≡ skip (contains set.now) (chars text.now) }
    ensures front { (front : List ℕ) × (text.now ≡ front ++ result.now) }
    ensures within { length result.now ≤ length text.now }
    ensures no_more { length (chars result.now) ≤ length (chars text.now) }
{
    let mut rest = text;
    while let Some((c, behind)) = split_first(rest) {
        if !has_character(set, c) {
            break;
        }
        rest = behind;
    }
    rest
}

/// The text without the white space in front.
pub fn skip_white_space<'a>(white_space: &CodePointInversionList, text: &'a str) -> &'a str
    ensures skipped { chars result.now ≡ skip (contains white_space.now) (chars text.now) }
    ensures within { length result.now ≤ length text.now }
    ensures no_more { length (chars result.now) ≤ length (chars text.now) }
{
    skip_all(white_space, text)
}
