//! One turn of the reader: what stands in front in the innermost bracket.
ghost use Rattle.std.specs.Prelude.{◌≡◌, ◌≤◌, ◌<◌, [], length, Some, None, IfOk, true};
ghost use Rattle.std.specs.Str.{chars};
ghost use Rattle.cp_strset.specs.StringList.{sole_of};
ghost use Rattle.uset_read.specs.Cursors.{source_of, left_of};
ghost use Rattle.uset_reader.specs.Items.{IsProper};
ghost use Rattle.uset_reader.specs.Syntaxes.{language_seen};
ghost use Rattle.uset_grammar.specs.Item.{Item as GrammarItem};
ghost use Rattle.uset_grammar.specs.Language.{Language};
ghost use Rattle.uset_grammar.specs.Grammar.{of_unit};
ghost use Rattle.uset_grammar.specs.Reached.{is_last_property};
ghost use Rattle.uset_grammar.specs.Tree.{Member};
ghost use Rattle.uset_gather.specs.Gathered.{in_set};
ghost use Rattle.uset_steps.specs.Names.{variable, name_seen, named_in};
ghost use Rattle.uset_steps.specs.declared.gathering.Gathering.{Gathering};
ghost use Rattle.uset_reader.specs.Brackets.{IsItem};
ghost use Rattle.uset_variables.specs.declared.value.VariableValue.TheVariants.{String as Spelled};
ghost use Rattle.uset_variables.specs.Values.{is_kept};
ghost use Rattle.uset_variables.specs.Variables.{bound};
ghost use Rattle.uset_reader.specs.Turns.{IsVariable, TurnsAt, IsShorter, IsUnfit, TakesAs, TakesVariable, TakesUnit, Opens, ClosesAs};

use crate::bracket::{OpenBracket, Opening, Taken};
use crate::code_point::CodePoint;
use crate::fault::{fault_at, fault_before, stopped};
use crate::front::{Front, is_short, look_ahead};
use crate::item::{Item, Operand};
use crate::syntax::Syntax;
use crate::unit::read_unit;
use cp_invlist::NoMemory;
use cp_strset::CodePointInversionListAndStringList;
use std::alloc::Global;
use std::mem::replace;
use uset_fault::{ParseError, ParseErrorKind};
use uset_grammar::laws;
use uset_read::{Cursor, split_first};
use uset_resolve::Resolver;
use uset_steps::{Closed, Name, Named, NamedSet};
use uset_variables::{VariableString, VariableValue};

/// What a turn made of the open brackets.
#[derive(Drop)]
pub(crate) enum Progress<'a> {
    /// A bracket is still open, in front of this rest.
    GoesOn(&'a str),
    /// The outermost bracket was closed, with this set and in front of this rest. The set is in a box, since most turns have none.
    Done(Box<Closed>, &'a str),
}

/// How an item is written.
#[derive(Clone, Copy)]
enum Sort {
    /// As itself.
    Written,
    /// As a variable.
    Variable,
}

/// The fault of an item that stands at the front of the text, up to the rest, and doesn't fit.
fn unfit(cursor: Cursor<'_>, sort: Sort, text: &str, rest: &str) -> ParseError
    requires within { length text.now ≤ length (left_of cursor) }
    requires behind { length rest.now < length (left_of cursor) }
    ensures { IsUnfit cursor.entry sort text.now rest.now result }
{
    laws::turns();
    match (sort, split_first(text)) {
        (Sort::Variable, _) => fault_before(cursor, ParseErrorKind::UnexpectedVariable, rest),
        (Sort::Written, Some((c, _))) => fault_at(cursor, ParseErrorKind::UnexpectedChar(c), text),
        (Sort::Written, None) => ParseErrorKind::Eof.into(),
    }
}

/// Takes an item that stands at the front of the text, up to the rest.
fn take<'v, 'a>(
    alloc: Global,
    cursor: Cursor<'a>,
    bracket: &mut OpenBracket<'v>,
    sort: Sort,
    item: Item<'v>,
    text: &'a str,
    rest: &'a str,
) -> Result<Progress<'a>, ParseError>
    requires proper { IsProper item }
    requires within { length text.now ≤ length (left_of cursor) }
    requires behind { length rest.now < length (left_of cursor) }
    ensures takes { TakesAs (source_of cursor.entry) bracket.old item.entry sort text.now rest.now bracket.new result }
    ensures shorter { IfOk result (λ p. IsShorter p (left_of cursor.entry)) }
{
    laws::turns();
    match bracket.take(alloc, item)? {
        Taken::Fits => Ok(Progress::GoesOn(rest)),
        Taken::Reversed(last) => {
            let kind = ParseErrorKind::UnexpectedChar(last.as_character());
            Err(fault_before(cursor, kind, rest))
        }
        Taken::Unfit => Err(unfit(cursor, sort, text, rest)),
    }
}

/// The set, under the name of a variable.
pub(crate) fn named_variable<'v>(
    alloc: Global,
    name: &str,
    set: &'v CodePointInversionListAndStringList,
) -> Result<Named<'v>, NoMemory>
    ensures name { IfOk result (λ named. name_seen named.name ≡ variable name.now) }
    ensures set { IfOk result (λ named. (m : Member) → named_in named.set m ≡ in_set set.now m) }
{
    let name = Name::Variable(String::from_str(alloc, name)?);
    let set = NamedSet::Set(set);
    Ok(Named { name, set })
}

/// The item of the string that the variable of this name is bound to, which is copied where it is short.
fn string_item<'v>(
    alloc: Global,
    syntax: &Syntax<'v>,
    name: &str,
    string: &VariableString,
) -> Result<Item<'v>, NoMemory>
    requires bound { bound syntax.now.variables.now name.now ≡ Some (Spelled string.now) }
    requires proper { sole_of (chars string.now) ≡ None }
    ensures item { IfOk result (IsVariable name.now (Spelled string.now)) }
    ensures proper { IfOk result IsProper }
{
    match syntax.variables.numbered_set(name) {
        Some((set, _)) => {
            let named = named_variable(alloc, name, set)?;
            Ok(Item::NamedText(Box::new(alloc, named)?))
        }
        None => Ok(Item::Text(String::from_str(alloc, string.as_str())?)),
    }
}

/// The item that the variable of this name stands for, which is bound to the value.
fn variable_item<'v>(
    alloc: Global,
    syntax: &Syntax<'v>,
    name: &str,
    value: &'v VariableValue,
) -> Result<Item<'v>, NoMemory>
    requires bound { bound syntax.now.variables.now name.now ≡ Some value.now }
    requires kept { is_kept value.now ≡ true }
    ensures item { IfOk result (IsVariable name.now value.now) }
    ensures proper { IfOk result IsProper }
{
    match value {
        VariableValue::Char(c) => Ok(Item::Single(CodePoint::from_char(*c))),
        VariableValue::String(string) => string_item(alloc, syntax, name, string),
        VariableValue::UnicodeSet(set) => {
            let named = named_variable(alloc, name, set)?;
            Ok(Item::Set(Operand::Named(Box::new(alloc, named)?)))
        }
    }
}

/// Takes the variable of this name, which stands at the front of the text, up to the rest.
fn take_variable<'v, 'a>(
    alloc: Global,
    syntax: &Syntax<'v>,
    cursor: Cursor<'a>,
    bracket: &mut OpenBracket<'v>,
    name: &str,
    text: &'a str,
    rest: &'a str,
) -> Result<Progress<'a>, ParseError>
    requires within { length text.now ≤ length (left_of cursor) }
    requires behind { length rest.now < length (left_of cursor) }
    ensures takes { TakesVariable (language_seen syntax.now)
        (source_of cursor.entry) bracket.old name.now text.now rest.now bracket.new result }
    ensures shorter { IfOk result (λ p. IsShorter p (left_of cursor.entry)) }
{
    laws::turns();
    let Some(value) = syntax.variables.get(name) else {
        return Err(fault_before(cursor, ParseErrorKind::UnknownVariable, rest));
    };
    let item = variable_item(alloc, syntax, name, value)?;
    take(alloc, cursor, bracket, Sort::Variable, item, text, rest)
}

/// Whether the unit is a property with nothing behind it.
fn is_last_property(item: &Item<'_>, rest: &str) -> bool
    ensures { (l : Language) (g : Gathering) (i : GrammarItem) → IsItem l g item.now i →
        result ≡ is_last_property of_unit i (chars rest.now) }
{
    match item {
        Item::Set(_) => split_first(rest).is_none(),
        _ => false,
    }
}

/// Takes the escape, the string or the property at the front of the text.
fn take_unit<'v, 'd: 'v, 'a>(
    alloc: Global,
    syntax: &Syntax<'v>,
    resolver: &mut Resolver<'d>,
    cursor: Cursor<'a>,
    bracket: &mut OpenBracket<'v>,
    text: &'a str,
) -> Result<Progress<'a>, ParseError>
    requires known { resolver.old ≡ syntax.now.database.now }
    requires within { length text.now ≤ length (left_of cursor) }
    ensures same { resolver.new ≡ resolver.old }
    ensures takes { TakesUnit (language_seen syntax.now)
        (source_of cursor.entry) bracket.old text.now bracket.new result }
    ensures shorter { IfOk result (λ p. IsShorter p (left_of cursor.entry)) }
{
    laws::arranging();
    laws::turns();
    let several = bracket.fits_several();
    let (item, rest) = match read_unit(alloc, syntax, resolver, several, &bracket.gathered, text) {
        Ok(read) => read,
        Err(stop) => return Err(stopped(cursor, stop)),
    };
    if is_last_property(&item, rest) {
        return Err(ParseErrorKind::Eof.into());
    }
    take(alloc, cursor, bracket, Sort::Written, item, text, rest)
}

/// Opens a bracket inside the innermost one, at the front of the text.
fn open<'v, 'a>(
    alloc: Global,
    cursor: Cursor<'a>,
    outer: &mut Vec<OpenBracket<'v>>,
    bracket: &mut OpenBracket<'v>,
    opening: Opening,
    text: &'a str,
    inner: &'a str,
) -> Result<Progress<'a>, ParseError>
    requires within { length text.now ≤ length (left_of cursor) }
    requires behind { length inner.now < length (left_of cursor) }
    ensures opens { Opens (source_of cursor.entry) outer.old.items bracket.old opening text.now inner.now
        outer.new.items bracket.new result }
    ensures shorter { IfOk result (λ p. IsShorter p (left_of cursor.entry)) }
{
    laws::turns();
    let opened = OpenBracket::open(alloc, opening, cursor.at(text).offset())?;
    outer.push(replace(bracket, opened))?;
    Ok(Progress::GoesOn(inner))
}

/// Closes the outermost bracket, with a `]` at the front of the text and in front of the rest.
#[cold]
fn close_outermost<'v, 'a>(
    alloc: Global,
    cursor: Cursor<'a>,
    bracket: &mut OpenBracket<'v>,
    text: &'a str,
    rest: &'a str,
) -> Result<Progress<'a>, ParseError>
    requires within { length text.now ≤ length (left_of cursor) }
    requires behind { length rest.now < length (left_of cursor) }
    ensures closes { ClosesAs (source_of cursor.entry) [] bracket.old text.now rest.now [] bracket.new result }
    ensures shorter { IfOk result (λ p. IsShorter p (left_of cursor.entry)) }
{
    laws::turns();
    let none = OpenBracket::open(alloc, Opening::NONE, 0)?;
    let Some(set) = replace(bracket, none).close(alloc)? else {
        return Err(fault_at(cursor, ParseErrorKind::UnexpectedChar(']'), text));
    };
    Ok(Progress::Done(Box::new(alloc, set)?, rest))
}

/// Closes the innermost bracket, with a `]` at the front of the text and in front of the rest, and gives its set to the
/// bracket around it.
fn close<'v, 'a>(
    alloc: Global,
    cursor: Cursor<'a>,
    outer: &mut Vec<OpenBracket<'v>>,
    bracket: &mut OpenBracket<'v>,
    text: &'a str,
    rest: &'a str,
) -> Result<Progress<'a>, ParseError>
    requires within { length text.now ≤ length (left_of cursor) }
    requires behind { length rest.now < length (left_of cursor) }
    ensures closes { ClosesAs
        (source_of cursor.entry) outer.old.items bracket.old text.now rest.now outer.new.items bracket.new result }
    ensures shorter { IfOk result (λ p. IsShorter p (left_of cursor.entry)) }
{
    laws::turns();
    let Some(around) = outer.pop() else {
        return close_outermost(alloc, cursor, bracket, text, rest);
    };
    let inner = replace(bracket, around);
    let before = inner.before;
    let Some(set) = inner.close(alloc)? else {
        return Err(fault_at(cursor, ParseErrorKind::UnexpectedChar(']'), text));
    };
    let Some(_) = split_first(rest) else {
        return Err(ParseErrorKind::Eof.into());
    };
    match bracket.take(alloc, Item::Set(Operand::Inner(set)))? {
        Taken::Fits => Ok(Progress::GoesOn(rest)),
        _ => Err(ParseError::at(ParseErrorKind::UnexpectedChar('['), before)),
    }
}

/// Reads what stands in front of what is left, white space aside, in the innermost bracket.
pub(crate) fn turn<'v, 'd: 'v, 'a>(
    alloc: Global,
    syntax: &Syntax<'v>,
    resolver: &mut Resolver<'d>,
    cursor: Cursor<'a>,
    outer: &mut Vec<OpenBracket<'v>>,
    bracket: &mut OpenBracket<'v>,
) -> Result<Progress<'a>, ParseError>
    requires { resolver.old ≡ syntax.now.database.now }
    ensures same { resolver.new ≡ resolver.old }
    ensures turns { TurnsAt
        (language_seen syntax.now) cursor.entry outer.old.items bracket.old outer.new.items bracket.new result }
    ensures shorter { IfOk result (λ p. IsShorter p (left_of cursor.entry)) }
{
    laws::turns();
    let text = syntax.skip_white_space(cursor.rest());
    if is_short(text) {
        return Err(ParseErrorKind::Eof.into());
    }
    match look_ahead(syntax, text) {
        Front::Nothing => Err(ParseErrorKind::Eof.into()),
        Front::Caret => Err(fault_at(cursor, ParseErrorKind::UnexpectedChar('^'), text)),
        Front::Closing(rest) => close(alloc, cursor, outer, bracket, text, rest),
        Front::Opening(opening, inner) => open(alloc, cursor, outer, bracket, opening, text, inner),
        Front::Single(single, rest) => {
            let item = single.into_item();
            take(alloc, cursor, bracket, Sort::Written, item, text, rest)
        }
        Front::Name(name, rest) => take_variable(alloc, syntax, cursor, bracket, name, text, rest),
        Front::Unit => take_unit(alloc, syntax, resolver, cursor, bracket, text),
    }
}
