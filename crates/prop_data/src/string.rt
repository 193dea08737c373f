//! Strings as they are spelled in braces.
ghost use Rattle.std.specs.Prelude.{◌≡◌, IfOk, option_map};
ghost use Rattle.std.specs.List.{list_any, slice_split};
ghost use Rattle.std.specs.Option.{option_copied};
ghost use Rattle.std.specs.String.{string_bytes};
ghost use Rattle.prop_names.specs.Folding.{is_underscore};
ghost use Rattle.prop_data.specs.Strings.{braced, numbers_of, spelled_numbers, is_surrogate, text_spelled};

use cp_invlist::NoMemory;
use std::alloc::Global;
use text_lines::hex;

/// What stands between a `{` at the front and a `}` at the end.
#[tactic(auto, unfolding(crate::specs::Strings::braced))]
pub(crate) fn braced(field: &[u8]) -> Option<&[u8]>
    ensures { option_copied result ≡ braced field.now }
{
    let (first, rest) = field.split_first()?;
    let (last, inner) = rest.split_last()?;
    if *first == b'{' && *last == b'}' {
        Some(inner)
    } else {
        None
    }
}

/// The numbers of the parts between `_`.
fn numbers_of(alloc: Global, text: &[u8]) -> Result<Option<Vec<u32>>, NoMemory>
    ensures { IfOk result
        (λ numbers. option_map (λ v. v.items) numbers ≡ numbers_of (slice_split is_underscore text.now)) }
{
    let mut numbers = Vec::new(alloc);
    for part in text.split(|byte| *byte == b'_') {
        let Some(number) = hex(part) else {
            return Ok(None);
        };
        numbers.push(number)?;
    }
    Ok(Some(numbers))
}

/// The numbers that stand between braces: none, or some with `_` between them.
#[tactic(auto, unfolding(crate::specs::Strings::spelled_numbers))]
pub(crate) fn spelled_numbers(alloc: Global, inner: &[u8]) -> Result<Option<Vec<u32>>, NoMemory>
    ensures { IfOk result (λ numbers. option_map (λ v. v.items) numbers ≡ spelled_numbers inner.now) }
{
    if inner.is_empty() {
        return Ok(Some(Vec::new(alloc)));
    }
    numbers_of(alloc, inner)
}

/// Whether one of the numbers is a surrogate.
pub(crate) fn has_surrogate(numbers: &[u32]) -> bool
    ensures { result ≡ list_any is_surrogate numbers.now }
{
    numbers
        .iter()
        .any(|number| 0xD800 <= *number && *number <= 0xDFFF)
}

/// The text of the characters with these numbers, `None` where one of them is no character.
pub(crate) fn text_of(alloc: Global, numbers: &[u32]) -> Result<Option<String>, NoMemory>
    ensures { IfOk result (λ text. option_map string_bytes text ≡ text_spelled numbers.now) }
{
    let mut text = String::new(alloc);
    for number in numbers {
        let Some(c) = char::from_u32(*number) else {
            return Ok(None);
        };
        text.push(c)?;
    }
    Ok(Some(text))
}
