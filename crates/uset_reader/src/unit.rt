//! Units of a bracket: escapes, strings and properties.
ghost use Rattle.std.specs.Prelude.{◌≡◌, ◌≤◌, ◌<◌, Bool, length, IfOk, IfErr};
ghost use Rattle.std.specs.Str.{chars};
ghost use Rattle.std.specs.String.{string_bytes};
ghost use Rattle.uset_grammar.specs.Item.{text_item};
ghost use Rattle.uset_grammar.specs.Language.{Language};
ghost use Rattle.uset_grammar.specs.Unit.{begins_property};
ghost use Rattle.uset_read.specs.Stops.{left_at};
ghost use Rattle.uset_reader.specs.Items.{IsProper};
ghost use Rattle.uset_steps.specs.declared.gathering.Gathering.{Gathering};
ghost use Rattle.uset_reader.specs.Brackets.{IsItem};
ghost use Rattle.uset_reader.specs.Syntaxes.{language_seen};
ghost use Rattle.uset_reader.specs.Units.{begins_with, AreCodePoints, chars_of, IsString, IsEscape, IsProperty, IsOfKind, UnitIs, UnitInFitting, UnitStops, UnitStopsIn};

use crate::code_point::CodePoint;
use crate::item::{Codes, Item};
use crate::property::read_operand;
use crate::syntax::Syntax;
use cp_strset::sole_char;
use std::alloc::Global;
use uset_grammar::laws::kinds_of_units;
use uset_read::{Around, Spelled, Stop, read_escape, read_string, split_first};
use uset_resolve::Resolver;
use uset_steps::Gathering;

/// What a unit is.
#[derive(Clone, Copy)]
enum UnitKind {
    String,
    Escape,
    Property,
}

/// The item that an escape stands for.
fn escape_item<'v>(spelled: Spelled) -> Item<'v>
    requires { AreCodePoints spelled }
    ensures item { (l : Language) (g : Gathering) → IsItem l g result (chars_of spelled) }
    ensures proper { IsProper result }
{
    match spelled {
        Spelled::Itself(c) => Item::Single(CodePoint::from_char(c)),
        Spelled::Numbers(first, more) => {
            if more.as_slice().is_empty() {
                return Item::Single(CodePoint::from_number(first));
            }
            Item::Several(Codes { first, more })
        }
    }
}

/// The item of a text: its one character, where it has exactly one, else a string.
pub(crate) fn item_of_text<'v>(text: String) -> Item<'v>
    ensures item { (l : Language) (g : Gathering) → IsItem l g result (text_item (chars (string_bytes text))) }
    ensures proper { IsProper result }
{
    match sole_char(&text) {
        Some(c) => Item::Single(CodePoint::from_char(c)),
        None => Item::Text(text),
    }
}

/// Whether what stands behind a backslash begins a property.
fn begins_property(text: &str) -> bool
    ensures { result ≡ begins_with begins_property (chars text.now) }
{
    match split_first(text) {
        Some((first, _)) => first == 'p' || first == 'P',
        None => false,
    }
}

/// Reads the string at the front of the text.
fn read_text<'v, 'a>(
    alloc: Global,
    syntax: &Syntax<'_>,
    text: &'a str,
) -> Result<(Item<'v>, &'a str), Stop<'a>>
    requires { IsString (chars text.now) }
    ensures read { (several : Bool) → IfOk result
        (λ p. (g : Gathering) → UnitIs (language_seen syntax.now) g several text.now p.0 p.1.now) }
    ensures proper { IfOk result (λ p. IsProper p.0) }
    ensures stopped { (several : Bool) → IfErr result (UnitStops (language_seen syntax.now) several text.now) }
    ensures place { IfErr result (λ stop. left_at stop ≤ length text.now) }
    ensures shorter { IfOk result (λ p. length p.1.now < length text.now) }
{
    kinds_of_units();
    let (string, rest) = read_string(alloc, syntax.white_space, text)?;
    Ok((item_of_text(string), rest))
}

/// Reads the escape at the front of the text.
fn read_escaped<'v, 'a>(
    alloc: Global,
    syntax: &Syntax<'_>,
    several: bool,
    text: &'a str,
) -> Result<(Item<'v>, &'a str), Stop<'a>>
    requires { IsEscape (chars text.now) }
    ensures read { IfOk result
        (λ p. (g : Gathering) → UnitIs (language_seen syntax.now) g several text.now p.0 p.1.now) }
    ensures proper { IfOk result (λ p. IsProper p.0) }
    ensures stopped { IfErr result (UnitStops (language_seen syntax.now) several text.now) }
    ensures place { IfErr result (λ stop. left_at stop ≤ length text.now) }
    ensures shorter { IfOk result (λ p. length p.1.now < length text.now) }
{
    kinds_of_units();
    let around = Around::Bracket { several };
    let (spelled, rest) = read_escape(alloc, syntax.white_space, around, text)?;
    Ok((escape_item(spelled), rest))
}

/// Reads the property at the front of the text.
fn read_property_set<'v, 'd: 'v, 'a>(
    alloc: Global,
    syntax: &Syntax<'v>,
    resolver: &mut Resolver<'d>,
    gathered: &Gathering<'v>,
    text: &'a str,
) -> Result<(Item<'v>, &'a str), Stop<'a>>
    requires known { resolver.old ≡ syntax.now.database.now }
    requires begins { IsProperty (chars text.now) }
    ensures same { resolver.new ≡ resolver.old }
    ensures read { (several : Bool) → IfOk result
        (λ p. UnitInFitting (language_seen syntax.now) gathered.now several text.now p.0 p.1.now) }
    ensures proper { IfOk result (λ p. IsProper p.0) }
    ensures stopped { (several : Bool) →
        IfErr result (UnitStopsIn (language_seen syntax.now) gathered.now several text.now) }
    ensures place { IfErr result (λ stop. left_at stop ≤ length text.now) }
    ensures shorter { IfOk result (λ p. length p.1.now < length text.now) }
{
    kinds_of_units();
    let (operand, rest) = read_operand(alloc, syntax, resolver, gathered, text)?;
    Ok((Item::Set(operand), rest))
}

/// What the unit at the front of the text is, which begins as one.
fn unit_kind(text: &str) -> UnitKind
    ensures { IsOfKind result (chars text.now) }
{
    match split_first(text) {
        Some(('{', _)) => UnitKind::String,
        Some(('\\', behind)) if !begins_property(behind) => UnitKind::Escape,
        _ => UnitKind::Property,
    }
}

/// Reads the escape, the string or the property at the front of the text, which begins as one. `several` says whether
/// an escape of several numbers fits there, and `gathered` is what the bracket has gathered.
pub(crate) fn read_unit<'v, 'd: 'v, 'a>(
    alloc: Global,
    syntax: &Syntax<'v>,
    resolver: &mut Resolver<'d>,
    several: bool,
    gathered: &Gathering<'v>,
    text: &'a str,
) -> Result<(Item<'v>, &'a str), Stop<'a>>
    requires { resolver.old ≡ syntax.now.database.now }
    ensures same { resolver.new ≡ resolver.old }
    ensures read { IfOk result
        (λ p. UnitInFitting (language_seen syntax.now) gathered.now several text.now p.0 p.1.now) }
    ensures proper { IfOk result (λ p. IsProper p.0) }
    ensures stopped { IfErr result (UnitStopsIn (language_seen syntax.now) gathered.now several text.now) }
    ensures place { IfErr result (λ stop. left_at stop ≤ length text.now) }
    ensures shorter { IfOk result (λ p. length p.1.now < length text.now) }
{
    match unit_kind(text) {
        UnitKind::String => read_text(alloc, syntax, text),
        UnitKind::Escape => read_escaped(alloc, syntax, several, text),
        UnitKind::Property => read_property_set(alloc, syntax, resolver, gathered, text),
    }
}
