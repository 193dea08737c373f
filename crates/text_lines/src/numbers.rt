//! Numbers as they are spelled.
ghost use Rattle.std.specs.Prelude.{◌≡◌, ◌≤◌, ◌<◌, ◌^◌, IfSome};
ghost use Rattle.text_lines.specs.Numbers.{digit, spelled, hex, decimal_number};

const DECIMAL: u32 = 10;

const HEXADECIMAL: u32 = 16;

fn digit(byte: u8, base: u32) -> Option<u32>
    requires low { 2 ≤ base }
    requires high { base ≤ 16 }
    ensures value { result ≡ digit base byte }
    ensures small { IfSome result (λ value. value < base) }
{
    char::from(byte).to_digit(base)
}

/// The number that one to `most` digits of the base spell.
#[tactic(auto, unfolding(crate::specs::Numbers::spelled))]
fn spelled(digits: &[u8], base: u32, most: usize) -> Option<u64>
    requires low { 2 ≤ base }
    requires high { base ≤ 16 }
    requires few { most ≤ 10 }
    ensures value { result ≡ spelled base most digits.now }
    ensures small { IfSome result (λ number. number < 16 ^ most) }
{
    if digits.is_empty() || digits.len() > most {
        return None;
    }
    let mut value = 0;
    for byte in digits {
        value = value * u64::from(base) + u64::from(digit(*byte, base)?);
    }
    Some(value)
}

/// The number that one to six hexadecimal digits spell, `None` where the bytes are anything else.
pub fn hex(digits: &[u8]) -> Option<u32>
    ensures { result ≡ hex digits.now }
{
    let number = spelled(digits, HEXADECIMAL, 6)?;
    Some(number as u32)
}

/// The number that one to ten decimal digits spell, `None` where the bytes are anything else.
pub fn decimal_number(digits: &[u8]) -> Option<u64>
    ensures { result ≡ decimal_number digits.now }
{
    spelled(digits, DECIMAL, 10)
}
