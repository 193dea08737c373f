//! Fields of a line.
ghost use Rattle.std.specs.Prelude.{◌≡◌, ◌==◌, ◌∷◌, [], ◌≤◌, length, IfSome, MatchOption};
ghost use Rattle.std.specs.List.{before_first, position_or_len, prefix_len};
ghost use Rattle.text_lines.specs.Fields.{runs, behind_run, is_blank};

/// What stands before the first `#` of the line.
pub fn before_comment(line: &[u8]) -> &[u8]
    ensures { result.now ≡ before_first (λ b. b == 0x23) line.now }
{
    line.split_at(comment_start(line)).0
}

fn comment_start(line: &[u8]) -> usize
    ensures place { result ≡ position_or_len (λ b. b == 0x23) line.now }
    ensures within { result ≤ length line.now }
{
    line.iter().take_while(|byte| **byte != b'#').count()
}

fn is_blank(byte: u8) -> bool
    ensures { result ≡ is_blank byte }
{
    byte == b' ' || byte == b'\t'
}

/// How many blanks stand in front.
fn blank_len(bytes: &[u8]) -> usize
    ensures count { result ≡ prefix_len is_blank bytes.now }
    ensures within { result ≤ length bytes.now }
{
    bytes.iter().take_while(|byte| is_blank(**byte)).count()
}

/// How many bytes stand before the first blank.
fn word_len(bytes: &[u8]) -> usize
    ensures count { result ≡ position_or_len is_blank bytes.now }
    ensures within { result ≤ length bytes.now }
{
    bytes.iter().take_while(|byte| !is_blank(**byte)).count()
}

/// The first field, a maximal run of bytes other than space and tab, and what stands behind it.
/// `None` where there is none.
pub fn split_field(bytes: &[u8]) -> Option<(&[u8], &[u8])>
    ensures parts { MatchOption result (runs bytes.now ≡ []) (λ p. runs bytes.now ≡ p.0.now ∷ runs p.1.now) }
    ensures rest { IfSome result (λ p. p.1.now ≡ behind_run bytes.now) }
{
    let (_, text) = bytes.split_at(blank_len(bytes));
    let (field, rest) = text.split_at(word_len(text));
    if field.is_empty() {
        return None;
    }
    Some((field, rest))
}
