//! Answers to patterns.
ghost use Rattle.std.specs.Prelude.{◌≡◌, map, ◌++◌, IfOk, OnOk, true, codes};
ghost use Rattle.cp_invlist.specs.InversionList.{contains};
ghost use Rattle.std.specs.List.{flat_map};
ghost use Rattle.std.specs.Str.{chars};
ghost use Rattle.std.specs.String.{string_bytes};
ghost use Rattle.prop_data.specs.Database.{tables_of};
ghost use Rattle.uset_variables.specs.Variables.{variables_of};
ghost use Rattle.uset_reader.specs.Syntaxes.{language_of};
ghost use Rattle.uset_tool.specs.Answer.{code_point_text, range_text, linked, string_text, line_end, PatternAnswer, AppendsMembers, IsReadAnswer, IsFaultAnswer};

use cp_invlist::{CodePointInversionList, CodePointRange, NoMemory};
use cp_strset::CodePointInversionListAndStringList;
use std::alloc::Global;
use std::fmt::Write;
use uset_parse::{ParseError, ParseErrorKind, Resolver, VariableMap, parse_with_resolver};

/// The answer to a line, and whether it is an `err` line.
#[derive(Drop)]
pub(crate) struct Answer {
    pub(crate) text: String,
    pub(crate) is_err: bool,
}

/// Appends a code point in upper-case hexadecimal digits, at least four.
#[tactic(auto, using(crate::proofs::Padding::four_digits))]
fn push_code_point(text: &mut String, code_point: u32) -> Result<(), NoMemory>
    ensures { OnOk result (string_bytes text.new ≡ string_bytes text.old ++ code_point_text code_point) }
{
    write!(text, "{code_point:04X}")?;
    Ok(())
}

/// Appends a range: a blank, the first code point, and a hyphen and the last where it is another.
fn push_range(text: &mut String, range: CodePointRange) -> Result<(), NoMemory>
    ensures { OnOk result (string_bytes text.new ≡ string_bytes text.old ++ range_text range) }
{
    text.push_str(" ")?;
    push_code_point(text, range.start)?;
    if range.start == range.end {
        return Ok(());
    }
    text.push_str("-")?;
    push_code_point(text, range.end)
}

/// Appends all maximal ranges of the set.
fn push_ranges(text: &mut String, set: &CodePointInversionList) -> Result<(), NoMemory>
    ensures { OnOk result (AppendsMembers (string_bytes text.old) (string_bytes text.new) (contains set.now)) }
{
    for range in set.iter_ranges() {
        push_range(text, range)?;
    }
    Ok(())
}

/// Appends code points with a low line between two.
fn push_linked(text: &mut String, string: &str) -> Result<(), NoMemory>
    ensures { OnOk result (string_bytes text.new ≡ string_bytes text.old ++ linked (chars string.now)) }
{
    let mut characters = string.chars();
    let Some(first) = characters.next() else {
        return Ok(());
    };
    push_code_point(text, first as u32)?;
    for character in characters {
        text.push_str("_")?;
        push_code_point(text, character as u32)?;
    }
    Ok(())
}

/// Appends a string: a blank, and its characters in braces.
fn push_string(text: &mut String, string: &str) -> Result<(), NoMemory>
    ensures { OnOk result (string_bytes text.new ≡ string_bytes text.old ++ string_text string.now) }
{
    text.push_str(" {")?;
    push_linked(text, string)?;
    text.push_str("}")?;
    Ok(())
}

/// Appends all strings.
fn push_strings(text: &mut String, strings: &[String]) -> Result<(), NoMemory>
    ensures { OnOk result
        (string_bytes text.new ≡ string_bytes text.old ++ flat_map string_text (map string_bytes strings.now)) }
{
    for string in strings {
        push_string(text, string.as_str())?;
    }
    Ok(())
}

/// The answer to a pattern that was read.
fn answer_read(
    alloc: Global,
    set: &CodePointInversionListAndStringList,
    length: usize,
) -> Result<Answer, NoMemory>
    ensures { IfOk result (IsReadAnswer length set.now) }
{
    let mut text = format!(in alloc; "ok {length}")?;
    push_ranges(&mut text, set.code_points())?;
    push_strings(&mut text, set.strings())?;
    text.push_str("\n")?;
    Ok(Answer {
        text,
        is_err: false,
    })
}

/// The answer that says why a line is not answered otherwise.
pub(crate) fn answer_err(alloc: Global, words: &str) -> Result<Answer, NoMemory>
    ensures text { IfOk result (λ a. string_bytes a.text ≡ codes "err " ++ (words.now ++ line_end)) }
    ensures err { IfOk result (λ a. a.is_err ≡ true) }
{
    let text = format!(in alloc; "err {words}\n")?;
    Ok(Answer { text, is_err: true })
}

/// The answer to a pattern with a fault.
pub(crate) fn answer_fault(
    alloc: Global,
    source: &str,
    error: ParseError,
) -> Result<Answer, NoMemory>
    ensures { IfOk result (IsFaultAnswer error source.now) }
{
    if let ParseErrorKind::NoMemory = error.kind() {
        return Err(NoMemory);
    }
    let words = error.fmt_with_source(alloc, source)?;
    answer_err(alloc, &words)
}

/// The answer to a pattern.
pub(crate) fn answer_pattern(
    alloc: Global,
    source: &str,
    variables: &VariableMap,
    resolver: &mut Resolver<'_>,
) -> Result<Answer, NoMemory>
    ensures answer { IfOk result (λ a. PatternAnswer
        (language_of (variables_of variables.now) (tables_of resolver.old)) source.now (string_bytes a.text) a.is_err) }
    ensures same { resolver.new ≡ resolver.old }
{
    match parse_with_resolver(alloc, source, variables, resolver) {
        Ok((set, length)) => answer_read(alloc, &set, length),
        Err(error) => answer_fault(alloc, source, error),
    }
}
