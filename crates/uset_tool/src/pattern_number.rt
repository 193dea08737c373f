//! The numbers that tell patterns, as words spell them.
ghost use Rattle.std.specs.Prelude.{◌≡◌, ◌≤◌, option_map};
ghost use Rattle.uset_tool.specs.Words.{as_pattern_number, pattern_number_of};

use text_lines::decimal_number;

/// The number that tells a pattern, which is how many elements this has: from 1 to 10000.
#[derive(Clone, Copy, Drop)]
pub(crate) struct PatternNumber {
    pub(crate) value: u32,
    ghost some: { 1 ≤ value },
    ghost few: { value ≤ 10000 },
}

fn as_pattern_number(number: u64) -> Option<PatternNumber>
    ensures { option_map (λ n. n.value) result ≡ as_pattern_number number }
{
    match number {
        1..=10_000 => Some(PatternNumber {
            value: number as u32,
        }),
        _ => None,
    }
}

/// The number that tells a pattern, where the word spells it.
#[tactic(auto, unfolding(crate::specs::Words::pattern_number_of))]
pub(crate) fn pattern_number_of(word: &str) -> Option<PatternNumber>
    ensures { option_map (λ n. n.value) result ≡ pattern_number_of word.now }
{
    let digits = word.as_bytes();
    if digits.is_empty() || digits[0] == b'0' || digits.len() > 5 {
        return None;
    }
    as_pattern_number(decimal_number(digits)?)
}
