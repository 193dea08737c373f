//! The calls that read a pattern.
ghost use Rattle.std.specs.Prelude.{◌≡◌, IfOk, IfErr};
ghost use Rattle.uset_reader.specs.Syntaxes.{database_seen};
ghost use Rattle.uset_parse.specs.Front.{front_in};
ghost use Rattle.uset_parse.specs.Reading.{language_with, language_without, Denotes, IsRead, IsReadWhole, IsRefused};

use cp_invlist::NoMemory;
use cp_strset::CodePointInversionListAndStringList;
use prop_data::PropertyDatabase;
use std::alloc::Global;
use uset_fault::{ParseError, ParseErrorKind};
use uset_reader::{Syntax, evaluate_set, read_set};
use uset_resolve::Resolver;
use uset_steps::Closed;
use uset_variables::VariableMap;

/// What was read at the front of a source.
#[derive(Drop)]
struct Front<'v> {
    syntax: Syntax<'v>,
    /// What was gathered.
    closed: Closed,
    /// The number of bytes that were read.
    length: usize,
}

impl Front<'_> {
    ghost use Rattle.std.specs.Prelude.{◌≡◌, IfOk};
    ghost use Rattle.uset_grammar.specs.Tree.{Member};
    ghost use Rattle.uset_gather.specs.Gathered.{in_set};
    ghost use Rattle.uset_reader.specs.Syntaxes.{database_seen};
    ghost use Rattle.uset_parse.specs.Front.{front_in};

    /// The set that was read.
    fn evaluate(
        self,
        alloc: Global,
        resolver: &mut Resolver<'_>,
    ) -> Result<CodePointInversionListAndStringList, NoMemory>
        requires { resolver.old ≡ database_seen self.syntax }
        ensures set { IfOk result (λ s. (m : Member) → in_set s m ≡ front_in self.entry m) }
        ensures same { resolver.new ≡ resolver.old }
    {
        let Self {
            syntax,
            closed,
            length: _,
        } = self;
        evaluate_set(alloc, &syntax, resolver, closed)
    }
}

/// Reads the pattern at the front of the source.
fn read_front<'v, 'd: 'v>(
    alloc: Global,
    source: &str,
    variable_map: &'v VariableMap,
    resolver: &mut Resolver<'d>,
) -> Result<Front<'v>, ParseError>
    ensures read { IfOk result
        (λ f. Denotes (language_with variable_map.now resolver.old) source.now (front_in f) f.length) }
    ensures database { IfOk result (λ f. resolver.new ≡ database_seen f.syntax) }
    ensures refused { IfErr result (IsRefused (language_with variable_map.now resolver.old) source.now) }
    ensures same { resolver.new ≡ resolver.old }
{
    let Some(syntax) = Syntax::of(variable_map, resolver.database()) else {
        return Err(ParseErrorKind::Internal.into());
    };
    resolver.forget_many(alloc);
    let (closed, place) = read_set(alloc, &syntax, resolver, source)?;
    Ok(Front {
        syntax,
        closed,
        length: place.offset(),
    })
}

/// Reads the pattern at the front of the source (UTS 35, Unicode Sets), with these variables, over the resolver's database. The
/// answer is the set, and the number of bytes that were read; what follows them is free. The error is the source's one fault:
/// its kind, and the byte offset of its place in the source, where it has one (`ParseError::kind`, `offset`). Where one of the
/// three tables of the syntax is absent from the database that is `Internal`, without a place; `NoMemory` says that a request
/// for memory was refused. The lists that are made for properties are kept by the resolver: patterns that are read by one share
/// them.
pub fn parse_with_resolver(
    alloc: Global,
    source: &str,
    variable_map: &VariableMap,
    resolver: &mut Resolver<'_>,
) -> Result<(CodePointInversionListAndStringList, usize), ParseError>
    ensures read { IfOk result (λ p. IsRead (language_with variable_map.now resolver.old) source.now p.0 p.1) }
    ensures refused { IfErr result (IsRefused (language_with variable_map.now resolver.old) source.now) }
    ensures same { resolver.new ≡ resolver.old }
{
    let front = read_front(alloc, source, variable_map, resolver)?;
    let length = front.length;
    let set = front.evaluate(alloc, resolver)?;
    Ok((set, length))
}

/// What a source is that should be a pattern as a whole.
#[derive(Drop)]
pub enum WholeSource {
    /// A pattern, of this set.
    Pattern(CodePointInversionListAndStringList),
    /// A pattern of so many bytes, and text behind it.
    TextBehind(usize),
}

/// Reads a source that should be a pattern as a whole, with these variables, over the resolver's database. The answer is the set,
/// or where text stands behind the pattern the number of its bytes, and no set is made. The errors are those of
/// `parse_with_resolver`.
pub fn parse_whole_with_resolver(
    alloc: Global,
    source: &str,
    variable_map: &VariableMap,
    resolver: &mut Resolver<'_>,
) -> Result<WholeSource, ParseError>
    ensures read { IfOk result (IsReadWhole (language_with variable_map.now resolver.old) source.now) }
    ensures refused { IfErr result (IsRefused (language_with variable_map.now resolver.old) source.now) }
    ensures same { resolver.new ≡ resolver.old }
{
    let front = read_front(alloc, source, variable_map, resolver)?;
    if front.length < source.len() {
        return Ok(WholeSource::TextBehind(front.length));
    }
    let set = front.evaluate(alloc, resolver)?;
    Ok(WholeSource::Pattern(set))
}

/// Reads the pattern at the front of the source, with these variables, over the database. The answer is the set, and the number
/// of bytes that were read; what follows them is free. The error is the source's one fault: its kind, and the byte offset of its
/// place, where it has one; `Internal` without a place where a table of the syntax is absent, and `NoMemory` where a request for
/// memory was refused. Who reads many patterns over one database reads them by `parse_with_resolver`, which keeps the lists that
/// it makes for properties.
pub fn parse_unstable_with_variables(
    alloc: Global,
    source: &str,
    variable_map: &VariableMap,
    database: &PropertyDatabase,
) -> Result<(CodePointInversionListAndStringList, usize), ParseError>
    ensures read { IfOk result (λ p. IsRead (language_with variable_map.now database.now) source.now p.0 p.1) }
    ensures refused { IfErr result (IsRefused (language_with variable_map.now database.now) source.now) }
{
    parse_with_resolver(
        alloc,
        source,
        variable_map,
        &mut Resolver::new(alloc, database),
    )
}

/// Reads the pattern at the front of the source, with these variables, over the database: the same call as
/// `parse_unstable_with_variables`, by the name that the original has for data that is compiled in.
pub fn parse_with_variables(
    alloc: Global,
    source: &str,
    variable_map: &VariableMap,
    database: &PropertyDatabase,
) -> Result<(CodePointInversionListAndStringList, usize), ParseError>
    ensures read { IfOk result (λ p. IsRead (language_with variable_map.now database.now) source.now p.0 p.1) }
    ensures refused { IfErr result (IsRefused (language_with variable_map.now database.now) source.now) }
{
    parse_unstable_with_variables(alloc, source, variable_map, database)
}

/// Reads the pattern at the front of the source over the database, where no variable is bound. The answer is the set, and the
/// number of bytes that were read; what follows them is free. The error is the source's one fault, as that of
/// `parse_unstable_with_variables`.
pub fn parse_unstable(
    alloc: Global,
    source: &str,
    database: &PropertyDatabase,
) -> Result<(CodePointInversionListAndStringList, usize), ParseError>
    ensures read { IfOk result (λ p. IsRead (language_without database.now) source.now p.0 p.1) }
    ensures refused { IfErr result (IsRefused (language_without database.now) source.now) }
{
    parse_unstable_with_variables(alloc, source, &VariableMap::new(alloc), database)
}

/// Reads the pattern at the front of the source over the database, where no variable is bound: the same call as
/// `parse_unstable`, by the name that the original has for data that is compiled in.
pub fn parse(
    alloc: Global,
    source: &str,
    database: &PropertyDatabase,
) -> Result<(CodePointInversionListAndStringList, usize), ParseError>
    ensures read { IfOk result (λ p. IsRead (language_without database.now) source.now p.0 p.1) }
    ensures refused { IfErr result (IsRefused (language_without database.now) source.now) }
{
    parse_unstable(alloc, source, database)
}
