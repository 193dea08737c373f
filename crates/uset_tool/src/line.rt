//! The lines of a script, as they are written.
ghost use Rattle.std.specs.Prelude.{◌≡◌, IfOk, option_map};
ghost use Rattle.std.specs.Str.{chars};
ghost use Rattle.std.specs.String.{string_bytes};
ghost use Rattle.uset_tool.specs.Script.{character, string, script_line, stripped, is_silent, at_space, as_character, character_of, spaced, characters_of, string_of, definition_of, named};
ghost use Rattle.uset_tool.specs.Lines.{line_seen, definition_seen};

use cp_invlist::NoMemory;
use std::alloc::Global;
use text_lines::hex;

/// What a name is to be bound to.
#[derive(Drop)]
pub(crate) enum Definition<'a> {
    Char(char),
    String(String),
    /// The set of a pattern.
    Set(&'a str),
}

/// A line of a script.
#[derive(Drop)]
pub(crate) enum Line<'a> {
    /// An empty line or a comment.
    Silent,
    Pattern(&'a str),
    /// A name, and what it is to be bound to.
    Binding(&'a str, Definition<'a>),
    Bad,
}

fn is_silent(line: &str) -> bool
    ensures { result ≡ is_silent line.now }
{
    match line.as_bytes().first() {
        Some(byte) => *byte == b'#',
        None => true,
    }
}

/// What stands behind the text, where the line begins with it.
fn strip<'a>(line: &'a str, text: &str) -> Option<&'a str>
    ensures { option_map (λ rest. rest.now) result ≡ stripped text.now line.now }
{
    line.strip_prefix(text)
}

/// What stands before the first space, and behind it.
fn split_at_space(text: &str) -> Option<(&str, &str)>
    ensures { option_map (λ p. (p.0.now, p.1.now)) result ≡ at_space text.now }
{
    text.split_once(' ')
}

/// The character of a number.
fn as_character(number: u32) -> Option<char>
    ensures { result ≡ as_character number }
{
    char::from_u32(number)
}

/// The character whose number one to six hexadecimal digits spell.
fn character_of(field: &str) -> Option<char>
    ensures { result ≡ character_of field.now }
{
    as_character(hex(field.as_bytes())?)
}

/// The characters of fields between which one space stands. `None` where one isn't the number of a character.
fn characters(alloc: Global, text: &str) -> Result<Option<String>, NoMemory>
    ensures { IfOk result (λ s. option_map (λ t. chars (string_bytes t)) s ≡ characters_of (spaced text.now)) }
{
    let mut string = String::new(alloc);
    for field in text.split(' ') {
        let Some(c) = character_of(field) else {
            return Ok(None);
        };
        string.push(c)?;
    }
    Ok(Some(string))
}

/// The string that stands behind `str`: nothing, or a space and fields.
fn string_of(alloc: Global, text: &str) -> Result<Option<String>, NoMemory>
    ensures { IfOk result (λ s. option_map (λ t. chars (string_bytes t)) s ≡ string_of text.now) }
{
    if text.is_empty() {
        return Ok(Some(String::new(alloc)));
    }
    match strip(text, " ") {
        Some(fields) => characters(alloc, fields),
        None => Ok(None),
    }
}

fn read_character(field: &str) -> Option<Definition<'_>>
    ensures { option_map definition_seen result ≡ option_map character (character_of field.now) }
{
    match character_of(field) {
        Some(c) => Some(Definition::Char(c)),
        None => None,
    }
}

fn read_string(alloc: Global, fields: &str) -> Result<Option<Definition<'_>>, NoMemory>
    ensures { IfOk result (λ d. option_map definition_seen d ≡ option_map string (string_of fields.now)) }
{
    match string_of(alloc, fields)? {
        Some(text) => Ok(Some(Definition::String(text))),
        None => Ok(None),
    }
}

/// What a name is to be bound to.
fn definition_of(alloc: Global, text: &str) -> Result<Option<Definition<'_>>, NoMemory>
    ensures { IfOk result (λ d. option_map definition_seen d ≡ definition_of text.now) }
{
    if let Some(field) = strip(text, "char ") {
        return Ok(read_character(field));
    }
    if let Some(fields) = strip(text, "str") {
        return read_string(alloc, fields);
    }
    Ok(strip(text, "set ").map(Definition::Set))
}

/// What stands behind `let `: a name, a space, and what it is to be bound to.
fn read_binding(alloc: Global, text: &str) -> Result<Line<'_>, NoMemory>
    ensures { IfOk result (λ l. line_seen l ≡ named (at_space text.now)) }
{
    let Some((name, behind)) = split_at_space(text) else {
        return Ok(Line::Bad);
    };
    if name.is_empty() {
        return Ok(Line::Bad);
    }
    match definition_of(alloc, behind)? {
        Some(definition) => Ok(Line::Binding(name, definition)),
        None => Ok(Line::Bad),
    }
}

/// Reads a line of a script.
#[tactic(auto, unfolding(crate::specs::Script::script_line))]
pub(crate) fn read_line(alloc: Global, line: &str) -> Result<Line<'_>, NoMemory>
    ensures { IfOk result (λ l. line_seen l ≡ script_line line.now) }
{
    if is_silent(line) {
        return Ok(Line::Silent);
    }
    if let Some(source) = strip(line, "pat ") {
        return Ok(Line::Pattern(source));
    }
    match strip(line, "let ") {
        Some(text) => read_binding(alloc, text),
        None => Ok(Line::Bad),
    }
}
