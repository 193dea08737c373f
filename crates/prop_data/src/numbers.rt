//! Ranges of code points as they are spelled.
ghost use Rattle.std.specs.Prelude.{◌≡◌, option_map};
ghost use Rattle.std.specs.List.{position};
ghost use Rattle.prop_data.specs.Numbers.{is_hyphen, hyphen_parts, range};

use cp_invlist::CodePointRange;
use text_lines::hex;

fn hyphen_place(field: &[u8]) -> Option<usize>
    ensures { result ≡ position is_hyphen field.now }
{
    field.iter().position(|byte| *byte == b'-')
}

#[tactic(auto, unfolding(crate::specs::Numbers::hyphen_parts))]
fn split_at_hyphen(field: &[u8]) -> Option<(&[u8], &[u8])>
    ensures { option_map (λ parts. (parts.0.now, parts.1.now)) result ≡ hyphen_parts field.now }
{
    let place = hyphen_place(field)?;
    Some((&field[..place], &field[place + 1..]))
}

/// The range that `HEX` or `HEX-HEX` spells.
#[tactic(auto, unfolding(crate::specs::Numbers::range))]
pub(crate) fn range(field: &[u8]) -> Option<CodePointRange>
    ensures { option_map (λ r. (r.start, r.end)) result ≡ range field.now }
{
    let Some((start, end)) = split_at_hyphen(field) else {
        let only = hex(field)?;
        return Some(CodePointRange {
            start: only,
            end: only,
        });
    };
    Some(CodePointRange {
        start: hex(start)?,
        end: hex(end)?,
    })
}
