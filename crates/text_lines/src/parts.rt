//! A text cut behind one of its lines.
ghost use Rattle.std.specs.Prelude.{◌≡◌, ◌++◌};
ghost use Rattle.std.specs.Str.Lines.{lines};
ghost use Rattle.text_lines.specs.Fields.{is_sole, through, past};

use crate::fields::{before_comment, split_field};
use crate::lines::split_line;

/// Whether the line has one field, and it is this word.
#[tactic(auto, unfolding(crate::specs::Fields::is_sole))]
fn is_sole(line: &[u8], word: &[u8]) -> bool
    ensures { result ≡ is_sole word.now line.now }
{
    let Some((field, rest)) = split_field(before_comment(line)) else {
        return false;
    };
    split_field(rest).is_none() && field == word
}

/// Cuts the text behind its first line whose one field is the word. Where there is none, the first
/// part is the whole text.
pub fn split_behind<'a>(text: &'a str, word: &[u8]) -> (&'a str, &'a str)
    ensures joined { text.now ≡ result.0.now ++ result.1.now }
    ensures front { lines result.0.now ≡ through word.now (lines text.now) }
    ensures rest { lines result.1.now ≡ past word.now (lines text.now) }
{
    let mut rest = text;
    while let Some((line, behind)) = split_line(rest) {
        rest = behind;
        if is_sole(line.as_bytes(), word) {
            return text.split_at(text.len() - rest.len());
        }
    }
    (text, "")
}
