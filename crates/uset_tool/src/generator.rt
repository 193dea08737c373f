//! Patterns that numbers tell, and the sizes of their sets.
ghost use Rattle.std.specs.Prelude.{◌≡◌, ◌++◌, IfOk, OnOk, length};
ghost use Rattle.std.specs.String.{string_bytes};
ghost use Rattle.prop_data.specs.Database.{tables_of};
ghost use Rattle.uset_reader.specs.Syntaxes.{language_of};
ghost use Rattle.uset_variables.specs.Variables.{no_variables};
ghost use Rattle.uset_tool.specs.Generated.{next, element, pattern_of, IsSizesAnswer, SizesAnswer};

use crate::answer::{Answer, answer_fault};
use crate::pattern_number::PatternNumber;
use cp_invlist::{CodePointInversionList, NoMemory};
use prop_data::PropertyDatabase;
use std::alloc::Global;
use std::fmt::Write;
use uset_parse::parse_unstable;

/// The number behind `x`, in a sequence that looks random.
fn next(x: u32) -> u32
    ensures { result ≡ next x }
{
    ((u64::from(x) * 1_103_515_245 + 12_345) % 0x8000_0000) as u32
}

/// Appends the element of `x` at this place: a range of at most eight code points in a bracket.
fn push_element(text: &mut String, x: u32, place: u32) -> Result<(), NoMemory>
    ensures { OnOk result (string_bytes text.new ≡ string_bytes text.old ++ element x place) }
{
    let first = x / 16 % 0x10_0000;
    let last = first + place % 8;
    write!(text, "[\\u{{{first:x}}}-\\u{{{last:x}}}]")?;
    Ok(())
}

/// The pattern that the number tells.
fn pattern_of(alloc: Global, number: PatternNumber) -> Result<String, NoMemory>
    ensures { IfOk result (λ text. string_bytes text ≡ pattern_of number.value) }
{
    let mut text = String::from_str(alloc, "[")?;
    let mut x = number.value;
    for place in 0..number.value {
        x = next(x);
        push_element(&mut text, x, place)?;
    }
    text.push(']')?;
    Ok(text)
}

/// The answer to a pattern that was read: its bytes, and how many maximal ranges and code points the set has.
fn answer_sizes(
    alloc: Global,
    set: &CodePointInversionList,
    length: usize,
) -> Result<Answer, NoMemory>
    ensures { IfOk result (IsSizesAnswer length set.now) }
{
    let points = set.size();
    let ranges = set.iter_ranges().count();
    let text = format!(in alloc; "bytes {length}\nranges {ranges}\npoints {points}\n")?;
    Ok(Answer {
        text,
        is_err: false,
    })
}

/// Reads the pattern that the number tells, with no variables, and answers the sizes of its set, or its fault.
pub(crate) fn answer_generated(
    alloc: Global,
    number: PatternNumber,
    database: &PropertyDatabase,
) -> Result<Answer, NoMemory>
    ensures { IfOk result (λ a.
        SizesAnswer (language_of no_variables (tables_of database.now)) (pattern_of number.value)
        (string_bytes a.text) a.is_err) }
{
    let source = pattern_of(alloc, number)?;
    match parse_unstable(alloc, &source, database) {
        Ok((set, length)) => answer_sizes(alloc, set.code_points(), length),
        Err(error) => answer_fault(alloc, &source, error),
    }
}
