//! The text of a set as a pattern.
ghost use Rattle.std.specs.Prelude.{◌≡◌, OnOk, ◌++◌, map};
ghost use Rattle.std.specs.List.{flat_map};
ghost use Rattle.std.specs.String.{string_bytes};
ghost use Rattle.cp_strset.specs.PatternText.{escaped, range_text, string_text};

use cp_invlist::{CodePointRange, InversionListRanges, NoMemory};
use std::fmt::Write;

/// Writes each of the ranges.
pub(crate) fn push_ranges(
    text: &mut String,
    ranges: InversionListRanges<'_>,
) -> Result<(), NoMemory>
    ensures { OnOk result (string_bytes text.new ≡ string_bytes text.old ++ flat_map range_text ranges.entry) }
{
    for range in ranges {
        push_range(text, range)?;
    }
    Ok(())
}

/// Writes each of the strings.
pub(crate) fn push_strings(text: &mut String, strings: &[String]) -> Result<(), NoMemory>
    ensures { OnOk result
        (string_bytes text.new ≡ string_bytes text.old ++ flat_map string_text (map string_bytes strings.now)) }
{
    for string in strings {
        push_string(text, string.as_str())?;
    }
    Ok(())
}

fn push_range(text: &mut String, range: CodePointRange) -> Result<(), NoMemory>
    ensures { OnOk result (string_bytes text.new ≡ string_bytes text.old ++ range_text range) }
{
    push_escaped(text, range.start)?;
    if range.start == range.end {
        return Ok(());
    }
    text.push('-')?;
    push_escaped(text, range.end)
}

fn push_string(text: &mut String, string: &str) -> Result<(), NoMemory>
    ensures { OnOk result (string_bytes text.new ≡ string_bytes text.old ++ string_text string.now) }
{
    text.push('{')?;
    for c in string.chars() {
        push_escaped(text, c as u32)?;
    }
    text.push('}')?;
    Ok(())
}

fn push_escaped(text: &mut String, number: u32) -> Result<(), NoMemory>
    ensures { OnOk result (string_bytes text.new ≡ string_bytes text.old ++ escaped number) }
{
    write!(text, "\\u{{{number:x}}}")?;
    Ok(())
}
