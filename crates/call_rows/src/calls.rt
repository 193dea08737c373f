//! The four calls that read a source.
use crate::fixtures::{NO_TABLES, Row, assert_rows_of_text, is_set, is_shown, string_of};
use cp_strset::CodePointInversionListAndStringList;
use prop_data::PropertyDatabase;
use row_fixtures::EVERY_KIND;
use std::alloc::Global;
use uset_parse::{
    ParseError, ParseErrorKind, Resolver, VariableMap, WholeSource, parse, parse_unstable,
    parse_unstable_with_variables, parse_whole_with_resolver, parse_with_resolver,
    parse_with_variables,
};
use uset_reader::{Syntax, evaluate_set, read_set};

/// Which call reads the source.
#[derive(Clone, Copy)]
enum Call {
    Plain,
    Unstable,
    WithVariables,
    UnstableWithVariables,
    /// That of the reader below the four.
    Below,
}

/// The four calls.
const CALLS: &[Call] = &[
    Call::Plain,
    Call::Unstable,
    Call::WithVariables,
    Call::UnstableWithVariables,
];

type Answer = Result<(CodePointInversionListAndStringList, usize), ParseError>;

/// The answer of the reader below the calls.
fn read_below(
    alloc: Global,
    source: &str,
    variables: &VariableMap,
    database: &PropertyDatabase,
) -> Answer {
    let Some(syntax) = Syntax::of(variables, database) else {
        return Err(ParseErrorKind::Internal.into());
    };
    let mut resolver = Resolver::new(alloc, database);
    let (closed, place) = read_set(alloc, &syntax, &mut resolver, source)?;
    let set = evaluate_set(alloc, &syntax, &mut resolver, closed)?;
    Ok((set, place.offset()))
}

/// The answer of the call.
fn ask(
    alloc: Global,
    call: Call,
    source: &str,
    variables: &VariableMap,
    database: &PropertyDatabase,
) -> Answer {
    match call {
        Call::Plain => parse(alloc, source, database),
        Call::Unstable => parse_unstable(alloc, source, database),
        Call::WithVariables => parse_with_variables(alloc, source, variables, database),
        Call::UnstableWithVariables => {
            parse_unstable_with_variables(alloc, source, variables, database)
        }
        Call::Below => read_below(alloc, source, variables, database),
    }
}

/// Binds `a` to the character and `v` to the string `ab`. The answer is whether memory was left.
fn bind_names(alloc: Global, variables: &mut VariableMap) -> bool {
    let Some(a) = string_of(alloc, "a") else {
        return false;
    };
    let Ok(()) = variables.insert_char(a, 'a') else {
        return false;
    };
    let Some(v) = string_of(alloc, "v") else {
        return false;
    };
    variables.insert_str(v, "ab").is_ok()
}

/// The answer of the call where `a` and `v` are bound.
fn ask_bound(
    alloc: Global,
    call: Call,
    source: &str,
    database: &PropertyDatabase,
) -> Option<Answer> {
    let mut variables = VariableMap::new(alloc);
    if !bind_names(alloc, &mut variables) {
        return None;
    }
    Some(ask(alloc, call, source, &variables, database))
}

/// Whether the answer is so many bytes and the set of this inversion list and these strings.
fn is_read(answer: Answer, length: usize, list: &[u32], texts: &[&str]) -> bool {
    match answer {
        Ok((set, bytes)) => bytes == length && is_set(&set, list, texts),
        Err(_) => false,
    }
}

/// A call, its source, and how many bytes of that it reads: as the hyphen, the letters `a` to `c`, the empty string and
/// the string `ab`.
type Read = (Call, &'static str, usize);

impl Row<PropertyDatabase> for Read {
    fn holds(&self, alloc: Global, database: &PropertyDatabase) -> bool {
        let (call, source, length) = *self;
        match ask_bound(alloc, call, source, database) {
            Some(answer) => is_read(answer, length, &[0x2D, 0x2E, 0x61, 0x64], &["", "ab"]),
            None => false,
        }
    }
}

const READ: &[Read] = &[
    (Call::Plain, "[a-c{}{ab}-]]", 12),
    (Call::Unstable, "[a-c{}{ab}-]]", 12),
    (Call::WithVariables, "[$a-c{}$v-]]", 11),
    (Call::UnstableWithVariables, "[$a-c{}$v-]]", 11),
];

#[test]
fn each_call_reads_a_pattern(rt: HostRuntime) {
    assert_rows_of_text(&rt, rt.alloc(), EVERY_KIND, READ);
}

/// A source, its length, and the inversion list that each call reads.
type ReadByEach = (&'static str, usize, &'static [u32]);

impl Row<PropertyDatabase> for ReadByEach {
    fn holds(&self, alloc: Global, database: &PropertyDatabase) -> bool {
        let (source, length, list) = *self;
        let none = VariableMap::new(alloc);
        for call in CALLS {
            let answer = ask(alloc, *call, source, &none, database);
            if !is_read(answer, length, list, &[]) {
                return false;
            }
        }
        true
    }
}

#[test]
fn each_call_reads_letters_and_a_digit(rt: HostRuntime) {
    let row: ReadByEach = ("[a-z0]", 6, &[0x30, 0x31, 0x61, 0x7B]);
    assert_rows_of_text(&rt, rt.alloc(), EVERY_KIND, &[row]);
}

/// Sources that are read in turn by one resolver.
type InTurn = &'static [ReadByEach];

impl Row<PropertyDatabase> for InTurn {
    fn holds(&self, alloc: Global, database: &PropertyDatabase) -> bool {
        let none = VariableMap::new(alloc);
        are_read(alloc, &none, &mut Resolver::new(alloc, database), self)
    }
}

/// Whether the resolver reads each source as its row says.
fn are_read(
    alloc: Global,
    none: &VariableMap,
    resolver: &mut Resolver<'_>,
    rows: &[ReadByEach],
) -> bool {
    for (source, length, list) in rows {
        let answer = parse_with_resolver(alloc, source, none, resolver);
        if !is_read(answer, *length, list, &[]) {
            return false;
        }
    }
    true
}

/// Properties of maps, which are asked for again in further patterns.
const IN_TURN: InTurn = &[
    ("[:L:]", 5, &[0x41, 0x5B, 0x61, 0x7B]),
    ("[[:L:]-[b]]", 11, &[0x41, 0x5B, 0x61, 0x62, 0x63, 0x7B]),
    ("[[:Nd:]&[:Letter:]]", 19, &[]),
    (
        "[[:Nd:]\\p{gc=L}]",
        16,
        &[0x30, 0x3A, 0x41, 0x5B, 0x61, 0x7B],
    ),
];

#[test]
fn one_resolver_reads_patterns_in_turn(rt: HostRuntime) {
    assert_rows_of_text(&rt, rt.alloc(), EVERY_KIND, &[IN_TURN]);
}

/// What a source is that should be a pattern as a whole.
#[derive(Clone, Copy)]
enum Expected {
    /// A pattern, of the set with this inversion list.
    Pattern(&'static [u32]),
    /// A pattern of so many bytes, and text behind it.
    TextBehind(usize),
    /// It has a fault of this kind, at the place if it has one.
    Fault(ParseErrorKind, Option<usize>),
}

/// What the source is as a whole where `a` and `v` are bound.
fn read_whole(
    alloc: Global,
    source: &str,
    database: &PropertyDatabase,
) -> Option<Result<WholeSource, ParseError>> {
    let mut variables = VariableMap::new(alloc);
    if !bind_names(alloc, &mut variables) {
        return None;
    }
    let mut resolver = Resolver::new(alloc, database);
    Some(parse_whole_with_resolver(alloc, source, &variables, &mut resolver))
}

/// A source that should be a pattern as a whole.
type ReadWhole = (&'static str, Expected);

impl Row<PropertyDatabase> for ReadWhole {
    fn holds(&self, alloc: Global, database: &PropertyDatabase) -> bool {
        let (source, expected) = *self;
        match read_whole(alloc, source, database) {
            Some(read) => is_expected(read, expected),
            None => false,
        }
    }
}

/// Whether the source is what is expected.
fn is_expected(read: Result<WholeSource, ParseError>, expected: Expected) -> bool {
    match (read, expected) {
        (Ok(WholeSource::Pattern(set)), Expected::Pattern(list)) => is_set(&set, list, &[]),
        (Ok(WholeSource::TextBehind(bytes)), Expected::TextBehind(length)) => bytes == length,
        (Err(error), Expected::Fault(kind, offset)) => is_fault(Err(error), kind, offset),
        _ => false,
    }
}

const READ_WHOLE: &[ReadWhole] = &[
    ("[a-c]", Expected::Pattern(&[0x61, 0x64])),
    ("[[:Nd:]-[0-8]]", Expected::Pattern(&[0x39, 0x3A])),
    ("[a-c]x", Expected::TextBehind(5)),
    ("[:Nd:] ", Expected::TextBehind(6)),
    ("[ä][", Expected::TextBehind(4)),
    ("[a-c", Expected::Fault(ParseErrorKind::Eof, None)),
    ("", Expected::Fault(ParseErrorKind::Eof, None)),
    (
        "[z-y]",
        Expected::Fault(ParseErrorKind::UnexpectedChar('y'), Some(3)),
    ),
    (
        "[{\\uD800}]",
        Expected::Fault(ParseErrorKind::InvalidEscape, Some(2)),
    ),
    (
        "[\\N{DASH}]",
        Expected::Fault(ParseErrorKind::Unimplemented, Some(2)),
    ),
    (
        "[$zz]",
        Expected::Fault(ParseErrorKind::UnknownVariable, Some(3)),
    ),
    (
        "[a-$v]",
        Expected::Fault(ParseErrorKind::UnexpectedVariable, Some(4)),
    ),
    (
        "[:zz:]",
        Expected::Fault(ParseErrorKind::UnknownProperty, Some(3)),
    ),
    (
        "[:blk=x:]",
        Expected::Fault(ParseErrorKind::Internal, Some(6)),
    ),
];

#[test]
fn a_source_is_read_as_a_whole(rt: HostRuntime) {
    assert_rows_of_text(&rt, rt.alloc(), EVERY_KIND, READ_WHOLE);
}

#[test]
fn nothing_is_read_as_a_whole_without_a_syntax(rt: HostRuntime) {
    let row: ReadWhole = ("[a]", Expected::Fault(ParseErrorKind::Internal, None));
    assert_rows_of_text(&rt, rt.alloc(), NO_TABLES, &[row]);
}

const READ_BELOW: &[Read] = &[(Call::Below, "[$a-c{}$v-]]", 11)];

#[test]
fn the_reader_below_the_calls_reads_a_pattern(rt: HostRuntime) {
    assert_rows_of_text(&rt, rt.alloc(), EVERY_KIND, READ_BELOW);
}

/// Whether the answer is the fault of this kind, at this place.
fn is_fault(answer: Answer, kind: ParseErrorKind, offset: Option<usize>) -> bool {
    match answer {
        Ok(_) => false,
        Err(error) => error.kind() == kind && error.offset() == offset,
    }
}

/// A call, its source, and the kind and the place of the fault that it has where `a` and `v` are bound.
type Refused = (Call, &'static str, ParseErrorKind, Option<usize>);

impl Row<PropertyDatabase> for Refused {
    fn holds(&self, alloc: Global, database: &PropertyDatabase) -> bool {
        let (call, source, kind, offset) = *self;
        match ask_bound(alloc, call, source, database) {
            Some(answer) => is_fault(answer, kind, offset),
            None => false,
        }
    }
}

const REFUSED: &[Refused] = &[
    (
        Call::Plain,
        "[$a]",
        ParseErrorKind::UnknownVariable,
        Some(2),
    ),
    (Call::Plain, "[", ParseErrorKind::Eof, None),
    (
        Call::Unstable,
        "[ä$vä]",
        ParseErrorKind::UnknownVariable,
        Some(4),
    ),
    (
        Call::WithVariables,
        "[ä$vä-$a]",
        ParseErrorKind::UnexpectedChar('a'),
        Some(9),
    ),
    (
        Call::WithVariables,
        "[a-$v]",
        ParseErrorKind::UnexpectedVariable,
        Some(4),
    ),
    (
        Call::UnstableWithVariables,
        "[a-$v]",
        ParseErrorKind::UnexpectedVariable,
        Some(4),
    ),
];

const REFUSED_WITHOUT_TABLES: &[Refused] = &[
    (Call::Plain, "[", ParseErrorKind::Internal, None),
    (Call::Unstable, "[", ParseErrorKind::Internal, None),
    (Call::WithVariables, "[$a]", ParseErrorKind::Internal, None),
    (
        Call::UnstableWithVariables,
        "[$a]",
        ParseErrorKind::Internal,
        None,
    ),
];

#[test]
fn each_call_refuses_a_pattern(rt: HostRuntime) {
    assert_rows_of_text(&rt, rt.alloc(), EVERY_KIND, REFUSED);
    assert_rows_of_text(&rt, rt.alloc(), NO_TABLES, REFUSED_WITHOUT_TABLES);
}

/// Whether each of the four calls has this fault of the source.
fn is_fault_of_each(
    alloc: Global,
    source: &str,
    kind: ParseErrorKind,
    offset: Option<usize>,
    variables: &VariableMap,
    database: &PropertyDatabase,
) -> bool {
    for call in CALLS {
        if !is_fault(ask(alloc, *call, source, variables, database), kind, offset) {
            return false;
        }
    }
    true
}

/// A source with a fault where no name is bound: its kind, and its place in bytes.
type Faulty = (&'static str, ParseErrorKind, Option<usize>);

impl Row<PropertyDatabase> for Faulty {
    fn holds(&self, alloc: Global, database: &PropertyDatabase) -> bool {
        let (source, kind, offset) = *self;
        let none = VariableMap::new(alloc);
        is_fault_of_each(alloc, source, kind, offset, &none, database)
    }
}

const FAULTS: &[Faulty] = &[
    ("[z-y]", ParseErrorKind::UnexpectedChar('y'), Some(3)),
    ("[[set]&]", ParseErrorKind::UnexpectedChar(']'), Some(7)),
    ("ä", ParseErrorKind::UnexpectedChar('ä'), Some(0)),
    ("[a", ParseErrorKind::Eof, None),
    ("[{\\uD800}]", ParseErrorKind::InvalidEscape, Some(2)),
    ("[\\N{DASH}]", ParseErrorKind::Unimplemented, Some(2)),
    ("[$zz]", ParseErrorKind::UnknownVariable, Some(3)),
    ("[:zz:]", ParseErrorKind::UnknownProperty, Some(3)),
    ("\\p{gc=ä}", ParseErrorKind::UnknownProperty, Some(7)),
    ("[:blk=x:]", ParseErrorKind::Internal, Some(6)),
];

#[test]
fn each_call_gives_the_fault_of_a_source(rt: HostRuntime) {
    assert_rows_of_text(&rt, rt.alloc(), EVERY_KIND, FAULTS);
}

/// A source of which each proper front ends where more is due, without a place.
#[derive(Clone, Copy)]
struct Whole(&'static str);

impl Row<PropertyDatabase> for Whole {
    fn holds(&self, alloc: Global, database: &PropertyDatabase) -> bool {
        ends_everywhere(alloc, self.0, &VariableMap::new(alloc), database)
    }
}

/// Whether each proper front of the source ends where more is due, without a place.
fn ends_everywhere(
    alloc: Global,
    source: &str,
    none: &VariableMap,
    database: &PropertyDatabase,
) -> bool {
    let mut front = String::new(alloc);
    for c in source.chars() {
        let ends = is_fault_of_each(alloc, &front, ParseErrorKind::Eof, None, none, database);
        if !ends || front.push(c).is_err() {
            return false;
        }
    }
    true
}

#[test]
fn each_front_of_a_source_ends_without_a_place(rt: HostRuntime) {
    let whole = Whole("[^{h\\u{65}llo\\ world}]");
    assert_rows_of_text(&rt, rt.alloc(), EVERY_KIND, &[whole]);
}

/// Whether the database has a syntax.
struct HasSyntax(bool);

impl Row<PropertyDatabase> for HasSyntax {
    fn holds(&self, alloc: Global, database: &PropertyDatabase) -> bool {
        let none = VariableMap::new(alloc);
        Syntax::of(&none, database).is_some() == self.0
    }
}

#[test]
fn tables_of_every_kind_have_a_syntax(rt: HostRuntime) {
    assert_rows_of_text(&rt, rt.alloc(), EVERY_KIND, &[HasSyntax(true)]);
}

#[test]
fn without_tables_there_is_no_syntax(rt: HostRuntime) {
    assert_rows_of_text(&rt, rt.alloc(), NO_TABLES, &[HasSyntax(false)]);
}

/// A source, and what its fault is shown as with another.
type Shown = (&'static str, &'static str, &'static str);

impl Row<PropertyDatabase> for Shown {
    fn holds(&self, alloc: Global, database: &PropertyDatabase) -> bool {
        let (source, other, shown) = *self;
        match parse(alloc, source, database) {
            Ok(_) => false,
            Err(error) => is_shown(alloc, error, other, shown),
        }
    }
}

const SHOWN: &[Shown] = &[
    (
        "[[set]&]",
        "[[set]&]",
        "[[set]&]← error: unexpected character ']'",
    ),
    ("[[set]&]", "[", "error: unexpected character ']'"),
];

#[test]
fn a_fault_is_shown_with_its_source_or_another(rt: HostRuntime) {
    assert_rows_of_text(&rt, rt.alloc(), EVERY_KIND, SHOWN);
}
