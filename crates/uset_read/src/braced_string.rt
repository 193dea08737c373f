//! Strings in braces.
ghost use Rattle.std.specs.Prelude.{◌≡◌, ◌<◌, ◌≤◌, ◌∷◌, [], true, length, IfOk, IfErr};
ghost use Rattle.std.specs.List.{list_all};
ghost use Rattle.std.specs.Str.{chars};
ghost use Rattle.std.specs.String.{string_bytes};
ghost use Rattle.cp_invlist.specs.InversionList.{contains};
ghost use Rattle.uset_grammar.specs.EscapeSlips.{in_string, allowed};
ghost use Rattle.uset_read.specs.Spelled.{spelled_codes, spelled_seen};
ghost use Rattle.uset_read.specs.Stops.{left_at, Tells};
ghost use Rattle.uset_grammar.specs.StringParts.{piece_in};
ghost use Rattle.uset_read.specs.Pieces.{Pushed, is_character, piece_seen, behind_piece, PiecesAre, PiecesStop, StringIs, StringStops};

use crate::escape::{Around, Spelled, read_letter};
use crate::stop::{Kind, Stop};
use crate::text::{push_char, take_first};
use cp_invlist::{CodePointInversionList, NoMemory};
use std::alloc::Global;
use uset_grammar::laws::units_by_parts;

/// What stands in a string in braces.
#[derive(Drop)]
enum Piece<'a> {
    /// The closing brace, with the text behind it.
    Closed(&'a str),
    /// White space, which adds nothing, with the text behind it.
    Space(&'a str),
    /// A character or an escape, with the text behind it.
    Spelled(Spelled, &'a str),
}

/// Reads one piece of a string.
fn read_piece<'a>(
    alloc: Global,
    white_space: &CodePointInversionList,
    text: &'a str,
) -> Result<Piece<'a>, Stop<'a>>
    ensures parts { Tells (piece_in (contains white_space.now) (chars text.now)) piece_seen result }
    ensures shorter { IfOk result (λ piece. length (behind_piece piece) < length text.now) }
    ensures place { IfErr result (λ stop. left_at stop ≤ length text.now) }
{
    let (c, behind) = take_first(text)?;
    if c == '}' {
        return Ok(Piece::Closed(behind));
    }
    if white_space.contains(c) {
        return Ok(Piece::Space(behind));
    }
    if c == '\\' {
        let (spelled, behind) = read_letter(alloc, white_space, Around::String, text, behind)?;
        return Ok(Piece::Spelled(spelled, behind));
    }
    Ok(Piece::Spelled(Spelled::Itself(c), behind))
}

/// Appends the character of the number. The answer is false where it is no character's.
#[tactic(auto, unfolding(uset_grammar::specs::Escape::is_above, uset_grammar::specs::Escape::is_surrogate))]
fn push_number(string: &mut String, number: u32) -> Result<bool, NoMemory>
    ensures character { IfOk result (λ pushed. pushed ≡ is_character number) }
    ensures appended { IfOk result (λ pushed. Pushed pushed string.old string.new (number ∷ [])) }
{
    match char::from_u32(number) {
        Some(c) => {
            push_char(string, c)?;
            Ok(true)
        }
        None => Ok(false),
    }
}

/// Appends the characters of the numbers. The answer is false where one of them is no character's.
fn push_numbers(string: &mut String, first: u32, more: &[u32]) -> Result<bool, NoMemory>
    ensures characters { IfOk result (λ pushed. pushed ≡ list_all is_character (first ∷ more.now)) }
    ensures appended { IfOk result (λ pushed. Pushed pushed string.old string.new (first ∷ more.now)) }
{
    if !push_number(string, first)? {
        return Ok(false);
    }
    for number in more {
        if !push_number(string, *number)? {
            return Ok(false);
        }
    }
    Ok(true)
}

/// Appends what an escape or a character spells. The answer is false where a number is no character's.
fn push_spelled(string: &mut String, spelled: &Spelled) -> Result<bool, NoMemory>
    ensures characters { IfOk result (λ pushed. pushed ≡ allowed in_string (spelled_seen spelled.now)) }
    ensures appended { IfOk result (λ pushed. Pushed pushed string.old string.new (spelled_codes spelled.now)) }
{
    match spelled {
        Spelled::Itself(c) => {
            push_char(string, *c)?;
            Ok(true)
        }
        Spelled::Numbers(first, more) => push_numbers(string, *first, more),
    }
}

/// Reads the pieces of a string and the closing brace.
fn read_pieces<'a>(
    alloc: Global,
    white_space: &CodePointInversionList,
    text: &'a str,
) -> Result<(String, &'a str), Stop<'a>>
    ensures read { IfOk result (λ p. PiecesAre white_space.now text.now (string_bytes p.0) p.1.now) }
    ensures stopped { IfErr result (PiecesStop white_space.now text.now) }
    ensures within { IfOk result (λ p. length p.1.now ≤ length text.now) }
    ensures place { IfErr result (λ stop. left_at stop ≤ length text.now) }
{
    units_by_parts();
    let mut string = String::new(alloc);
    let mut rest = text;
    loop {
        match read_piece(alloc, white_space, rest)? {
            Piece::Closed(behind) => return Ok((string, behind)),
            Piece::Space(behind) => rest = behind,
            Piece::Spelled(spelled, behind) => {
                if !push_spelled(&mut string, &spelled)? {
                    return Err(Stop::Fault(Kind::InvalidEscape, rest));
                }
                rest = behind;
            }
        }
    }
}

/// Reads the string at the front of the text, which begins with its opening brace. The answer is the string and the text behind
/// its closing brace. `Stop` says at which rest of the text which fault is, that the text ends inside the string, or that memory
/// was refused. The grammar is kept to where the text begins so and white space has no hexadecimal digit, no `}` and no
/// backslash, as that of patterns hasn't; elsewhere only the places and lengths are told.
pub fn read_string<'a>(
    alloc: Global,
    white_space: &CodePointInversionList,
    text: &'a str,
) -> Result<(String, &'a str), Stop<'a>>
    ensures read { IfOk result (λ p. StringIs white_space.now text.now (string_bytes p.0) p.1.now) }
    ensures stopped { IfErr result (StringStops white_space.now text.now) }
    ensures shorter { IfOk result (λ p. length p.1.now < length text.now) }
    ensures place { IfErr result (λ stop. left_at stop ≤ length text.now) }
{
    units_by_parts();
    let (_, inner) = take_first(text)?;
    read_pieces(alloc, white_space, inner)
}
