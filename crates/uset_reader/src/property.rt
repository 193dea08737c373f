//! Properties that are read and resolved (UTS 18, 1.2; UAX 44, 5.9).
ghost use Rattle.std.specs.Prelude.{◌≡◌, ◌≤◌, ◌<◌, length, IfOk, IfErr};
ghost use Rattle.prop_data.specs.Database.{tables_of};
ghost use Rattle.uset_read.specs.Queries.{query_seen};
ghost use Rattle.uset_read.specs.Stops.{left_at};
ghost use Rattle.uset_reader.specs.Resolution.{ResolvesTo, IsSetOfProperty};
ghost use Rattle.uset_reader.specs.Units.{OperandIs, OperandInFitting, OperandStops, OperandStopsIn, NamedBehind, StopsBehind};
ghost use Rattle.uset_reader.specs.Syntaxes.{language_seen};

use crate::item::Operand;
use crate::syntax::Syntax;
use cp_invlist::NoMemory;
use std::alloc::Global;
use uset_read::{Form, Kind, Query, Stop, close_property, read_property};
use uset_resolve::{Resolution, Resolver};
use uset_steps::{Gathering, Name, Named, NamedSet};

/// What a property asks for.
pub(crate) fn resolve_query<'v, 'd: 'v>(
    alloc: Global,
    resolver: &mut Resolver<'d>,
    query: &Query,
) -> Result<Resolution<'v>, NoMemory>
    ensures resolved { IfOk result (ResolvesTo (tables_of resolver.old) (query_seen query.now)) }
    ensures same { resolver.new ≡ resolver.old }
{
    match &query.value {
        Some(value) => resolver.resolve(alloc, &query.key, Some(value)),
        None => resolver.resolve(alloc, &query.key, None),
    }
}

/// The set of a property, or what is wrong with it.
pub(crate) fn set_of<'v>(resolution: Resolution<'v>, negated: bool) -> Result<NamedSet<'v>, Kind>
    ensures { IsSetOfProperty resolution.entry negated result }
{
    match resolution {
        Resolution::Found { source, falsy } if falsy == negated => {
            Ok(NamedSet::CodePoints(source))
        }
        Resolution::Found { source, .. } => Ok(NamedSet::Complement(source)),
        Resolution::Unknown => Err(Kind::UnknownProperty),
        Resolution::Lacking => Err(Kind::Internal),
    }
}

/// The property that asks this, with its set, and what stands behind what closes it, in front of which the mark is. The key is
/// resolved before what closes the property is looked at.
fn resolve_named<'v, 'd: 'v, 'a>(
    alloc: Global,
    syntax: &Syntax<'v>,
    resolver: &mut Resolver<'d>,
    form: Form,
    query: Query,
    mark: &'a str,
) -> Result<(Named<'v>, &'a str), Stop<'a>>
    requires { resolver.old ≡ syntax.now.database.now }
    ensures same { resolver.new ≡ resolver.old }
    ensures read { IfOk result (λ p. NamedBehind syntax.now form query mark.now p.0 p.1.now) }
    ensures stopped { IfErr result (StopsBehind syntax.now form query mark.now) }
    ensures place { IfErr result (λ stop. left_at stop ≤ length mark.now) }
    ensures shorter { IfOk result (λ p. length p.1.now < length mark.now) }
{
    let resolution = resolve_query(alloc, resolver, &query)?;
    match set_of(resolution, query.negated) {
        Ok(set) => {
            let rest = close_property(form, mark)?;
            let name = Name::Property(query);
            Ok((Named { name, set }, rest))
        }
        Err(kind) => Err(Stop::Fault(kind, mark)),
    }
}

/// Reads the property at the front of the text, which begins with `[:` or a backslash.
pub(crate) fn read_named<'v, 'd: 'v, 'a>(
    alloc: Global,
    syntax: &Syntax<'v>,
    resolver: &mut Resolver<'d>,
    text: &'a str,
) -> Result<(Named<'v>, &'a str), Stop<'a>>
    requires { resolver.old ≡ syntax.now.database.now }
    ensures same { resolver.new ≡ resolver.old }
    ensures read { IfOk result (λ p. OperandIs (language_seen syntax.now) text.now p.0 p.1.now) }
    ensures stopped { IfErr result (OperandStops (language_seen syntax.now) text.now) }
    ensures place { IfErr result (λ stop. left_at stop ≤ length text.now) }
    ensures shorter { IfOk result (λ p. length p.1.now < length text.now) }
{
    let (form, query, mark) = read_property(alloc, syntax.white_space, text)?;
    resolve_named(alloc, syntax, resolver, form, query, mark)
}

/// The same in a bracket. A property that the bracket keeps is not resolved again.
pub(crate) fn read_operand<'v, 'd: 'v, 'a>(
    alloc: Global,
    syntax: &Syntax<'v>,
    resolver: &mut Resolver<'d>,
    gathered: &Gathering<'v>,
    text: &'a str,
) -> Result<(Operand<'v>, &'a str), Stop<'a>>
    requires { resolver.old ≡ syntax.now.database.now }
    ensures same { resolver.new ≡ resolver.old }
    ensures read { IfOk result (λ p. OperandInFitting (language_seen syntax.now) gathered.now text.now p.0 p.1.now) }
    ensures stopped { IfErr result (OperandStopsIn (language_seen syntax.now) gathered.now text.now) }
    ensures place { IfErr result (λ stop. left_at stop ≤ length text.now) }
    ensures shorter { IfOk result (λ p. length p.1.now < length text.now) }
{
    let (form, query, mark) = read_property(alloc, syntax.white_space, text)?;
    if let Some(place) = gathered.place_of(&query) {
        let rest = close_property(form, mark)?;
        return Ok((Operand::Again(place), rest));
    }
    let (named, rest) = resolve_named(alloc, syntax, resolver, form, query, mark)?;
    let set = Box::new(alloc, named)?;
    Ok((Operand::Named(set), rest))
}
