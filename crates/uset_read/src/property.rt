//! Properties, up to their end mark and behind it.
ghost use Rattle.std.specs.Prelude.{◌≡◌, ◌≢◌, ◌<◌, ◌≤◌, Err, length, IfOk, IfErr};
ghost use Rattle.std.specs.Str.{chars};
ghost use Rattle.std.specs.String.{string_bytes};
ghost use Rattle.cp_invlist.specs.InversionList.{contains};
ghost use Rattle.uset_grammar.specs.Outcome.{got};
ghost use Rattle.uset_grammar.specs.Property.{mark};
ghost use Rattle.uset_read.specs.Stops.{left_at, with_rest, Tells};
ghost use Rattle.uset_grammar.specs.PropertyParts.{is_nothing, posix_front_in, perl_front_in, front_in, key_part, close_in};
ghost use Rattle.uset_read.specs.Queries.{form_seen, key_part_seen, key_read, value_read, query_read, key_at, value_at, with_value_at, query_at, PropertyIs, PropertyStops};

use crate::stop::{Kind, Stop};
use crate::text::{push_char, read_char, split_first, take_first};
use cp_invlist::{CodePointInversionList, NoMemory};
use std::alloc::Global;
use uset_grammar::laws::units_by_parts;

/// How a property is written.
#[derive(Clone, Copy, PartialEq, Eq, Debug, Drop)]
pub enum Form {
    /// `[:..:]`.
    Posix,
    /// `\p{..}` or `\P{..}`.
    Perl,
}

/// What a property asks. White space in it is dropped. The order is that of the fields, for maps whose keys are queries.
#[derive(PartialEq, Eq, PartialOrd, Ord)]
pub struct Query {
    /// Whether an odd number of the `^` behind `[:`, the `P` and the `≠` stands there.
    pub negated: bool,
    /// The key. That of a property which was read isn't empty.
    pub key: String,
    /// The value behind `=` or `≠`, which isn't empty either. `None` where the key stands alone.
    pub value: Option<String>,
}

// By hand, so that letting a value go is one call in each proof.
impl Drop for Query {
    fn drop(self) {
        let Self {
            negated: _,
            key: _,
            value: _,
        } = self;
    }
}

impl Query {
    ghost use Rattle.std.specs.Prelude.{◌≡◌, IfOk};
    ghost use Rattle.uset_read.specs.Queries.{query_seen};

    /// A query that asks the same. `NoMemory` says that a request for memory was refused.
    pub fn copy(&self, alloc: Global) -> Result<Query, NoMemory>
        ensures { IfOk result (λ query. query_seen query ≡ query_seen self.now) }
    {
        let value = match &self.value {
            Some(value) => Some(String::from_str(alloc, value.as_str())?),
            None => None,
        };
        Ok(Query {
            negated: self.negated,
            key: String::from_str(alloc, self.key.as_str())?,
            value,
        })
    }
}

/// What ends a key.
#[derive(Clone, Copy, Drop)]
enum Sign {
    /// The end mark of the property.
    Mark,
    /// `=`.
    Equal,
    /// `≠`, which negates.
    Unequal,
}

/// What a character is to a key.
#[derive(Clone, Copy, Drop)]
enum KeyPart {
    /// White space, which is dropped.
    Space,
    /// A character of the key.
    Letter,
    /// What ends the key.
    Ends(Sign),
    /// What can't stand there.
    Unfit,
}

/// The mark that ends the inner text.
fn mark(form: Form) -> char
    ensures { result ≡ mark (form_seen form) }
{
    match form {
        Form::Posix => ':',
        Form::Perl => '}',
    }
}

/// Whether the text has no character.
fn is_nothing(text: &str) -> bool
    ensures { result ≡ is_nothing (chars text.now) }
{
    split_first(text).is_none()
}

/// Reads what stands behind the bracket in front of a property. The answer is true where a `^` does.
fn read_posix_front(text: &str) -> Result<(bool, &str), Stop<'_>>
    ensures parts { Tells (posix_front_in (chars text.now)) with_rest result }
    ensures place { IfErr result (λ stop. left_at stop ≤ length text.now) }
    ensures shorter { IfOk result (λ p. length p.1.now < length text.now) }
{
    let rest = read_char(':', text)?;
    match split_first(rest) {
        Some(('^', behind)) => Ok((true, behind)),
        _ => Ok((false, rest)),
    }
}

/// Reads what stands behind the backslash in front of a property. The answer is true where it is a `P`.
fn read_perl_front(text: &str) -> Result<(bool, &str), Stop<'_>>
    ensures parts { Tells (perl_front_in (chars text.now)) with_rest result }
    ensures place { IfErr result (λ stop. left_at stop ≤ length text.now) }
    ensures shorter { IfOk result (λ p. length p.1.now < length text.now) }
{
    let (c, rest) = take_first(text)?;
    match c {
        'p' => Ok((false, read_char('{', rest)?)),
        'P' => Ok((true, read_char('{', rest)?)),
        _ => Err(Stop::Fault(Kind::UnexpectedChar(c), text)),
    }
}

/// Reads what stands in front of the inner text of a property, and whether it negates.
fn read_front(text: &str) -> Result<(Form, bool, &str), Stop<'_>>
    ensures parts { Tells (front_in (chars text.now)) (λ p. got (form_seen p.0, p.1) (chars p.2.now)) result }
    ensures place { IfErr result (λ stop. left_at stop ≤ length text.now) }
    ensures shorter { IfOk result (λ p. length p.2.now < length text.now) }
{
    let (c, rest) = take_first(text)?;
    if c == '[' {
        let (negated, inner) = read_posix_front(rest)?;
        return Ok((Form::Posix, negated, inner));
    }
    let (negated, inner) = read_perl_front(rest)?;
    Ok((Form::Perl, negated, inner))
}

/// What the character is to a key.
#[tactic(auto, unfolding(uset_grammar::specs::Property::is_key))]
fn key_part(white_space: &CodePointInversionList, form: Form, c: char) -> KeyPart
    ensures { key_part_seen result ≡ key_part (contains white_space.now) (form_seen form) c }
{
    if c == mark(form) {
        return KeyPart::Ends(Sign::Mark);
    }
    if white_space.contains(c) {
        return KeyPart::Space;
    }
    match c {
        '0'..='9' | 'A'..='Z' | 'a'..='z' | '_' => KeyPart::Letter,
        '=' => KeyPart::Ends(Sign::Equal),
        '≠' => KeyPart::Ends(Sign::Unequal),
        _ => KeyPart::Unfit,
    }
}

/// Reads a key without its white space, and what ends it, at which the rest begins.
fn read_key<'a>(
    alloc: Global,
    white_space: &CodePointInversionList,
    form: Form,
    text: &'a str,
) -> Result<(String, Sign, &'a str), Stop<'a>>
    ensures parts { Tells (key_at white_space.now form text.now) key_read result }
    ensures place { IfErr result (λ stop. left_at stop ≤ length text.now) }
    ensures within { IfOk result (λ p. length p.2.now ≤ length text.now) }
{
    let mut key = String::new(alloc);
    let mut rest = text;
    loop {
        let (c, behind) = take_first(rest)?;
        match key_part(white_space, form, c) {
            KeyPart::Space => {}
            KeyPart::Letter => push_char(&mut key, c)?,
            KeyPart::Ends(sign) if !is_nothing(&key) => return Ok((key, sign, rest)),
            _ => return Err(Stop::Fault(Kind::UnexpectedChar(c), rest)),
        }
        rest = behind;
    }
}

/// Reads a value without its white space, up to the end mark, at which the rest begins.
fn read_value<'a>(
    alloc: Global,
    white_space: &CodePointInversionList,
    form: Form,
    text: &'a str,
) -> Result<(String, &'a str), Stop<'a>>
    ensures parts { Tells (value_at white_space.now form text.now) value_read result }
    ensures place { IfErr result (λ stop. left_at stop ≤ length text.now) }
    ensures within { IfOk result (λ p. length p.1.now ≤ length text.now) }
{
    let mut value = String::new(alloc);
    let mut rest = text;
    loop {
        let (c, behind) = take_first(rest)?;
        if c == mark(form) {
            if is_nothing(&value) {
                return Err(Stop::Fault(Kind::UnexpectedChar(c), rest));
            }
            return Ok((value, rest));
        }
        if !white_space.contains(c) {
            push_char(&mut value, c)?;
        }
        rest = behind;
    }
}

/// Reads the value of this key, in front of which its sign stands.
fn read_valued<'a>(
    alloc: Global,
    white_space: &CodePointInversionList,
    form: Form,
    negated: bool,
    key: String,
    text: &'a str,
) -> Result<(Query, &'a str), Stop<'a>>
    ensures parts { Tells (with_value_at white_space.now form negated (string_bytes key) text.now) query_read result }
    ensures place { IfErr result (λ stop. left_at stop ≤ length text.now) }
    ensures within { IfOk result (λ p. length p.1.now ≤ length text.now) }
{
    let (_, inner) = take_first(text)?;
    let (value, rest) = read_value(alloc, white_space, form, inner)?;
    let query = Query {
        negated,
        key,
        value: Some(value),
    };
    Ok((query, rest))
}

/// Reads the inner text of a property, up to its end mark, at which the rest begins.
fn read_inner<'a>(
    alloc: Global,
    white_space: &CodePointInversionList,
    form: Form,
    negated: bool,
    text: &'a str,
) -> Result<(Query, &'a str), Stop<'a>>
    ensures parts { Tells (query_at white_space.now form negated text.now) query_read result }
    ensures place { IfErr result (λ stop. left_at stop ≤ length text.now) }
    ensures within { IfOk result (λ p. length p.1.now ≤ length text.now) }
{
    let (key, sign, rest) = read_key(alloc, white_space, form, text)?;
    match sign {
        Sign::Mark => {
            let query = Query {
                negated,
                key,
                value: None,
            };
            Ok((query, rest))
        }
        Sign::Equal => read_valued(alloc, white_space, form, negated, key, rest),
        Sign::Unequal => read_valued(alloc, white_space, form, !negated, key, rest),
    }
}

/// Reads the property at the front of the text, which begins with `[:` or a backslash, up to its end
/// mark, at which the rest begins. Whether it resolves comes before what closes it. The answer is how it is written, what it asks
/// and the rest. `Stop` says at which rest of the text which fault is, that the text ends inside it, or that memory was refused.
/// The grammar is kept to where the text begins so and white space has no `a`, as that of patterns hasn't; elsewhere only the
/// places and lengths are told.
pub fn read_property<'a>(
    alloc: Global,
    white_space: &CodePointInversionList,
    text: &'a str,
) -> Result<(Form, Query, &'a str), Stop<'a>>
    ensures read { IfOk result (λ p. PropertyIs white_space.now text.now p.0 p.1 p.2.now) }
    ensures stopped { IfErr result (PropertyStops white_space.now text.now) }
    ensures place { IfErr result (λ stop. left_at stop ≤ length text.now) }
    ensures shorter { IfOk result (λ p. length p.2.now < length text.now) }
{
    units_by_parts();
    let (form, negated, inner) = read_front(text)?;
    let (query, rest) = read_inner(alloc, white_space, form, negated, inner)?;
    Ok((form, query, rest))
}

/// Reads the end mark of a property and the `]` behind that of `[:..:]`. The answer is the text behind them. `Stop` says that
/// another character stands there, or that the text ends.
pub fn close_property(form: Form, text: &str) -> Result<&str, Stop<'_>>
    ensures parts { Tells (close_in (form_seen form) (chars text.now)) (λ rest. got tt (chars rest.now)) result }
    ensures place { IfErr result (λ stop. left_at stop ≤ length text.now) }
    ensures shorter { IfOk result (λ rest. length rest.now < length text.now) }
    ensures memory { result ≢ Err Stop.NoMemory }
{
    let behind = read_char(mark(form), text)?;
    match form {
        Form::Posix => read_char(']', behind),
        Form::Perl => Ok(behind),
    }
}
