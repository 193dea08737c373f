//! The reader: one loop over the open brackets.
ghost use Rattle.std.specs.Prelude.{◌≡◌, ◌<◌, length, IfOk, IfErr};
ghost use Rattle.std.specs.Str.{chars};
ghost use Rattle.uset_grammar.specs.Front.{first, of_bracket, of_variable, of_property};
ghost use Rattle.uset_reader.specs.Brackets.{opening_seen};
ghost use Rattle.uset_reader.specs.Syntaxes.{language_seen, database_seen};
ghost use Rattle.uset_reader.specs.Readings.{IsReading, IsRefusal, IsSetOfVariable};

use crate::bracket::{OpenBracket, Opening};
use crate::fault::{fault_at, fault_before, stopped};
use crate::front::{First, look_at_first};
use crate::property::read_named;
use crate::syntax::Syntax;
use crate::turn::{Progress, named_variable, turn};
use cp_invlist::NoMemory;
use cp_strset::CodePointInversionListAndStringList;
use std::alloc::Global;
use uset_fault::{ParseError, ParseErrorKind};
use uset_grammar::laws;
use uset_read::Cursor;
use uset_resolve::Resolver;
use uset_steps::Closed;

/// Reads the bracket that begins the source, up to its `]`.
fn read_bracket<'v, 'd: 'v, 'a>(
    alloc: Global,
    syntax: &Syntax<'v>,
    resolver: &mut Resolver<'d>,
    source: &'a str,
    opening: Opening,
    inner: &'a str,
) -> Result<(Closed, Cursor<'a>), ParseError>
    requires known { resolver.old ≡ syntax.now.database.now }
    requires begins { first (language_seen syntax.now) (chars source.now) ≡
        of_bracket (opening_seen opening) (chars inner.now) }
    requires behind { length inner.now < length source.now }
    ensures same { resolver.new ≡ resolver.old }
    ensures read { IfOk result (λ p. IsReading (language_seen syntax.now) source.now p.0 p.1) }
    ensures refused { IfErr result (IsRefusal (language_seen syntax.now) source.now) }
{
    laws::turns();
    // The brackets around the innermost one, the outermost first.
    let mut outer = Vec::new(alloc);
    let mut bracket = OpenBracket::open(alloc, opening, 0)?;
    let mut place = Cursor::new(source).at(inner);
    loop {
        let progress = turn(alloc, syntax, resolver, place, &mut outer, &mut bracket)?;
        match progress {
            Progress::GoesOn(rest) => place = place.at(rest),
            Progress::Done(set, rest) => return Ok((Box::into_inner(set), place.at(rest))),
        }
    }
}

/// The set to which the variable of this name is bound.
fn variable_set(
    alloc: Global,
    name: &str,
    set: &CodePointInversionListAndStringList,
) -> Result<Closed, NoMemory>
    ensures { IfOk result (IsSetOfVariable name.now set.now) }
{
    named_variable(alloc, name, set)?.closed(alloc)
}

/// Reads the variable of this name, which begins the source, as a set.
fn read_variable<'v, 'a>(
    alloc: Global,
    syntax: &Syntax<'v>,
    source: &'a str,
    name: &str,
    rest: &'a str,
) -> Result<(Closed, Cursor<'a>), ParseError>
    requires begins { first (language_seen syntax.now) (chars source.now) ≡
        of_variable (chars name.now) (chars rest.now) }
    requires behind { length rest.now < length source.now }
    ensures read { IfOk result (λ p. IsReading (language_seen syntax.now) source.now p.0 p.1) }
    ensures refused { IfErr result (IsRefusal (language_seen syntax.now) source.now) }
{
    laws::turns();
    let cursor = Cursor::new(source);
    let Some(value) = syntax.variables.get(name) else {
        return Err(fault_before(cursor, ParseErrorKind::UnknownVariable, rest));
    };
    let Some(set) = value.as_set() else {
        return Err(fault_before(cursor, ParseErrorKind::UnexpectedVariable, rest));
    };
    Ok((variable_set(alloc, name, set)?, cursor.at(rest)))
}

/// Reads the property that begins the source, as a set.
fn read_property<'v, 'd: 'v, 'a>(
    alloc: Global,
    syntax: &Syntax<'v>,
    resolver: &mut Resolver<'d>,
    source: &'a str,
) -> Result<(Closed, Cursor<'a>), ParseError>
    requires known { resolver.old ≡ syntax.now.database.now }
    requires begins { first (language_seen syntax.now) (chars source.now) ≡ of_property }
    ensures same { resolver.new ≡ resolver.old }
    ensures read { IfOk result (λ p. IsReading (language_seen syntax.now) source.now p.0 p.1) }
    ensures refused { IfErr result (IsRefusal (language_seen syntax.now) source.now) }
{
    laws::turns();
    let cursor = Cursor::new(source);
    let (named, rest) = match read_named(alloc, syntax, resolver, source) {
        Ok(read) => read,
        Err(stop) => return Err(stopped(cursor, stop)),
    };
    Ok((named.closed(alloc)?, cursor.at(rest)))
}

/// Reads the set at the front of the source. The answer is the set, and the cursor behind it. The error is a fault of the source
/// with its place, or says that memory was refused. The lists that are made for properties are kept by the resolver.
pub fn read_set<'v, 'd: 'v, 'a>(
    alloc: Global,
    syntax: &Syntax<'v>,
    resolver: &mut Resolver<'d>,
    source: &'a str,
) -> Result<(Closed, Cursor<'a>), ParseError>
    requires known { resolver.old ≡ database_seen syntax.now }
    ensures same { resolver.new ≡ resolver.old }
    ensures read { IfOk result (λ p. IsReading (language_seen syntax.now) source.now p.0 p.1) }
    ensures refused { IfErr result (IsRefusal (language_seen syntax.now) source.now) }
{
    let cursor = Cursor::new(source);
    match look_at_first(syntax, source) {
        First::TooShort => Err(ParseErrorKind::Eof.into()),
        First::Stray(c) => Err(fault_at(cursor, ParseErrorKind::UnexpectedChar(c), source)),
        First::Bare => Err(fault_at(cursor, ParseErrorKind::UnexpectedChar('$'), source)),
        First::Variable(name, rest) => read_variable(alloc, syntax, source, name, rest),
        First::Bracket(opening, inner) => read_bracket(
            alloc, syntax, resolver, source, opening, inner,
        ),
        First::Property => read_property(alloc, syntax, resolver, source),
    }
}
