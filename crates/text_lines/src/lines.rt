//! Lines of a text.
ghost use Rattle.std.specs.Prelude.{◌≡◌, ◌<◌, ◌∷◌, [], length, IfSome, MatchOption};
ghost use Rattle.std.specs.Str.Lines.{lines};
ghost use Rattle.text_lines.specs.Lines.{IsCut};

/// The first line without its ending, and the text behind that ending. `None` where the text is
/// empty. A line ends at LF, CR LF, or the end of the text.
pub(crate) fn split_line(text: &str) -> Option<(&str, &str)>
    ensures parts { MatchOption result (text.now ≡ []) (λ p. lines text.now ≡ p.0.now ∷ lines p.1.now) }
    ensures cut { IfSome result (λ p. IsCut text.now p.1.now) }
    ensures shorter { IfSome result (λ p. length p.1.now < length text.now) }
{
    if text.is_empty() {
        return None;
    }
    match text.split_once('\n') {
        Some((line, rest)) => Some((line.strip_suffix('\r').unwrap_or(line), rest)),
        None => Some((text, "")),
    }
}
