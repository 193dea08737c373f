//! The characters of names.
ghost use Rattle.std.specs.Prelude.{◌≡◌, true, Some, IfOk, IfSome, option_map};
ghost use Rattle.std.specs.String.{string_bytes};
ghost use Rattle.prop_names.specs.ValueNames.{subtag_of};
ghost use Rattle.prop_data.specs.LineFault.{is_name_character, is_name, kept_of};

use cp_invlist::NoMemory;
use prop_names::ascii_text;
use prop_values::Subtag;
use std::alloc::Global;

fn is_name_character(byte: u8) -> bool
    ensures { result ≡ is_name_character byte }
{
    byte.is_ascii_alphanumeric() || byte == b'_' || byte == b'-'
}

/// Whether the text is made of ASCII letters, digits, `_` and hyphens.
pub(crate) fn is_name(text: &[u8]) -> bool
    ensures { result ≡ is_name text.now }
{
    text.iter().all(|byte| is_name_character(*byte))
}

/// The name as a table of one name for each value keeps it: a script's short name as the subtag of its four letters. `None`
/// where it is no such name.
pub(crate) fn kept_name(
    alloc: Global,
    is_subtag: bool,
    text: &[u8],
) -> Result<Option<String>, NoMemory>
    ensures kept { IfOk result (λ name. option_map string_bytes name ≡ kept_of is_subtag text.now) }
    ensures subtag { is_subtag ≡ true → IfOk result (λ name.
        IfSome name (λ n. subtag_of (string_bytes n) ≡ Some (string_bytes n))) }
{
    if text.is_empty() || !is_name(text) {
        return Ok(None);
    }
    let name = ascii_text(alloc, text)?;
    if !is_subtag {
        return Ok(Some(name));
    }
    let Some(subtag) = Subtag::try_from_str(name.as_str()) else {
        return Ok(None);
    };
    Ok(Some(String::from_str(alloc, subtag.as_str())?))
}
