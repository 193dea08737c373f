//! Brackets that name very large sets, as terms.
use crate::fixtures::{Row, assert_equal, assert_rows_of_text, first_wrong, is_set, string_of};
use cp_invlist::{
    CodePointInversionList, CodePointInversionListBuilder, CodePointRange, InversionListError,
    NoMemory,
};
use cp_strset::CodePointInversionListAndStringList;
use cp_terms::evaluate;
use prop_data::PropertyDatabase;
use row_fixtures::EVERY_KIND;
use std::alloc::Global;
use uset_parse::{Resolver, VariableMap};
use uset_reader::{Syntax, evaluate_set, read_set};
use uset_steps::{
    Closed, Gathering, Name, Named, NamedSet, NumberedTerm, Operation, Term, TermSet,
};

/// Every second code point up to U+2710: 5,000 ranges.
fn very_large(alloc: Global) -> Result<CodePointInversionListAndStringList, NoMemory> {
    let mut builder = CodePointInversionListBuilder::new(alloc);
    for half in 0..5000u32 {
        builder.add_range32(CodePointRange {
            start: 2 * half,
            end: 2 * half,
        })?;
    }
    match CodePointInversionListAndStringList::try_from(builder.build(), Vec::new(alloc)) {
        Ok(set) => Ok(set),
        Err(_) => Err(NoMemory),
    }
}

/// Gathers the set, as that of a variable with this name.
fn gather<'a>(
    alloc: Global,
    gathering: &mut Gathering<'a>,
    operation: Operation,
    name: &str,
    set: &'a CodePointInversionListAndStringList,
) -> Result<(), NoMemory> {
    let name = Name::Variable(String::from_str(alloc, name)?);
    let set = NamedSet::Set(set);
    gathering.gather_named(alloc, operation, Named { name, set })
}

/// What the bracket of the set, as that of a variable with this name, gathered.
fn bracket<'a>(
    alloc: Global,
    name: &str,
    set: &'a CodePointInversionListAndStringList,
) -> Result<Gathering<'a>, NoMemory> {
    let mut gathering = Gathering::new(alloc);
    gather(alloc, &mut gathering, Operation::Join, name, set)?;
    Ok(gathering)
}

/// That bracket, into which the other is gathered.
fn bracket_with<'a>(
    alloc: Global,
    name: &str,
    set: &'a CodePointInversionListAndStringList,
    operation: Operation,
    other: Closed,
) -> Result<Gathering<'a>, NoMemory> {
    let mut gathering = bracket(alloc, name, set)?;
    gathering.gather(alloc, operation, other)?;
    Ok(gathering)
}

/// The bracket of `v` with that of `w`, which has one of `v` in it: `[$v-[$w&[$v]]]`, as an example.
#[derive(Clone, Copy)]
struct Nested {
    /// Whether a caret stands in front.
    negated: bool,
    /// How the bracket of `w` is gathered.
    outer: Operation,
    /// How the bracket of `v` in that is gathered.
    inner: Operation,
}

/// The brackets, closed, where both names stand for the set.
fn closed(
    alloc: Global,
    set: &CodePointInversionListAndStringList,
    nested: Nested,
) -> Result<Closed, NoMemory> {
    let innermost = bracket(alloc, "v", set)?.close(alloc, false)?;
    let middle = bracket_with(alloc, "w", set, nested.inner, innermost)?.close(alloc, false)?;
    bracket_with(alloc, "v", set, nested.outer, middle)?.close(alloc, nested.negated)
}

/// What the names stand for once the term has numbers.
struct Letters {
    /// The letters `a` to `c`.
    v: CodePointInversionList,
    /// The letters `b` to `d`.
    w: CodePointInversionList,
}

// By hand, so that letting a value go is one call in each proof.
impl Drop for Letters {
    fn drop(self) {
        let Self { v: _, w: _ } = self;
    }
}

/// The two sets of letters.
fn make_letters(alloc: Global) -> Result<Letters, InversionListError> {
    let v = CodePointInversionList::try_from_inversion_list(alloc, &[0x61, 0x64])?;
    let w = CodePointInversionList::try_from_inversion_list(alloc, &[0x62, 0x65])?;
    Ok(Letters { v, w })
}

/// Whether the set is that of the variable with this name.
fn is_named(set: &TermSet, name: &str) -> bool {
    match set {
        TermSet::Named(Name::Variable(variable)) => variable.as_str() == name,
        _ => false,
    }
}

/// How many of the sets are that of the variable with this name.
fn count_named(sets: &[TermSet], name: &str) -> usize {
    sets.iter().filter(|set| is_named(set, name)).count()
}

/// The code points of the set, if it was gathered or stands under one of the two names.
fn list_of<'a>(set: &'a TermSet, letters: &'a Letters) -> Option<&'a CodePointInversionList> {
    match set {
        TermSet::Gathered(set) => Some(set.code_points()),
        named if is_named(named, "v") => Some(&letters.v),
        named if is_named(named, "w") => Some(&letters.w),
        _ => None,
    }
}

/// The code points of each of the sets.
fn lists_of<'a>(
    alloc: Global,
    sets: &'a [TermSet],
    letters: &'a Letters,
) -> Option<Vec<&'a CodePointInversionList>> {
    let mut lists = Vec::new(alloc);
    for set in sets {
        let list = list_of(set, letters)?;
        let Ok(()) = lists.push(list) else {
            return None;
        };
    }
    Some(lists)
}

/// Whether the steps of the term make the set of this inversion list, where the names stand for the letters.
fn makes(alloc: Global, term: &NumberedTerm, letters: &Letters, list: &[u32]) -> bool {
    let Some(lists) = lists_of(alloc, &term.sets, letters) else {
        return false;
    };
    match evaluate(alloc, &lists, &term.steps) {
        Ok(set) => set.get_inversion_list() == list,
        Err(_) => false,
    }
}

/// Whether each of the two names has one number in the term, and its steps make the set of this inversion list.
fn is_numbered(alloc: Global, term: &NumberedTerm, list: &[u32]) -> bool {
    let Ok(letters) = make_letters(alloc) else {
        return false;
    };
    count_named(&term.sets, "v") == 1
        && count_named(&term.sets, "w") == 1
        && makes(alloc, term, &letters, list)
}

/// The term of the brackets, with numbers for its sets.
fn numbered(
    alloc: Global,
    set: &CodePointInversionListAndStringList,
    nested: Nested,
) -> Option<NumberedTerm> {
    match closed(alloc, set, nested) {
        Ok(Closed::Term(term)) => Box::into_inner(term).into_numbered(alloc).ok(),
        _ => None,
    }
}

/// Whether a caret stands in front of the brackets, how the bracket of `w` is gathered and how that of `v` in it, and the
/// inversion list of what they denote where `v` is the letters `a` to `c` and `w` those from `b` to `d`.
type Denoted = (bool, Operation, Operation, &'static [u32]);

impl Row<CodePointInversionListAndStringList> for Denoted {
    fn holds(&self, alloc: Global, set: &CodePointInversionListAndStringList) -> bool {
        let (negated, outer, inner, list) = *self;
        let nested = Nested {
            negated,
            outer,
            inner,
        };
        match numbered(alloc, set, nested) {
            Some(term) => is_numbered(alloc, &term, list),
            None => false,
        }
    }
}

const DENOTED: &[Denoted] = &[
    // [$v-[$w-[$v]]]
    (false, Operation::Remove, Operation::Remove, &[0x61, 0x64]),
    // [$v-[$w&[$v]]]
    (false, Operation::Remove, Operation::Retain, &[0x61, 0x62]),
    // [$v[$w-[$v]]]
    (false, Operation::Join, Operation::Remove, &[0x61, 0x65]),
    // [$v&[$w&[$v]]]
    (false, Operation::Retain, Operation::Retain, &[0x62, 0x64]),
    // [$v&[$w-[$v]]]
    (false, Operation::Retain, Operation::Remove, &[]),
    // [^$v-[$w&[$v]]]
    (
        true,
        Operation::Remove,
        Operation::Retain,
        &[0, 0x61, 0x62, 0x11_0000],
    ),
];

/// The index of the first of these brackets over the very large set that does not denote what stands beside it.
fn first_wrong_brackets(alloc: Global) -> Result<Option<usize>, NoMemory> {
    let set = very_large(alloc)?;
    Ok(first_wrong(alloc, &set, DENOTED))
}

#[test]
fn a_term_has_one_number_for_each_name_and_the_members_of_its_brackets(rt: HostRuntime) {
    assert_equal(&rt, first_wrong_brackets(rt.alloc()), Ok(None));
}

/// Binds `v` to the very large set. The answer is whether memory was left.
fn bind_very_large(alloc: Global, variables: &mut VariableMap) -> bool {
    let Some(name) = string_of(alloc, "v") else {
        return false;
    };
    match very_large(alloc) {
        Ok(set) => variables.insert_set(name, set).is_ok(),
        Err(_) => false,
    }
}

/// The set of the source, if its bracket is left as a term.
fn evaluated(
    alloc: Global,
    source: &str,
    variables: &VariableMap,
    database: &PropertyDatabase,
) -> Option<CodePointInversionListAndStringList> {
    let syntax = Syntax::of(variables, database)?;
    let mut resolver = Resolver::new(alloc, database);
    match read_set(alloc, &syntax, &mut resolver, source) {
        Ok((Closed::Term(term), _)) => {
            evaluate_set(alloc, &syntax, &mut resolver, Closed::Term(term)).ok()
        }
        _ => None,
    }
}

/// A source, and the inversion list and the strings of its set where `v` is bound to the very large set.
type Evaluated = (&'static str, &'static [u32], &'static [&'static str]);

impl Row<PropertyDatabase> for Evaluated {
    fn holds(&self, alloc: Global, database: &PropertyDatabase) -> bool {
        let (source, list, texts) = *self;
        let mut variables = VariableMap::new(alloc);
        if !bind_very_large(alloc, &mut variables) {
            return false;
        }
        match evaluated(alloc, source, &variables, database) {
            Some(set) => is_set(&set, list, texts),
            None => false,
        }
    }
}

/// Of the letters, those with an even number are in the very large set: `b`, `d` and so on.
const EVALUATED: &[Evaluated] = &[
    (
        "[$v&[a-h]]",
        &[0x62, 0x63, 0x64, 0x65, 0x66, 0x67, 0x68, 0x69],
        &[],
    ),
    (
        "[[$v-[d]]&[a-h{xy}]]",
        &[0x62, 0x63, 0x66, 0x67, 0x68, 0x69],
        &[],
    ),
    (
        "[[$v{xy}]&[a-d{xy}{xz}]]",
        &[0x62, 0x63, 0x64, 0x65],
        &["xy"],
    ),
    ("[[^$v]&[a-f]]", &[0x61, 0x62, 0x63, 0x64, 0x65, 0x66], &[]),
    ("[[a-d{xy}]-[$v-[b]]]", &[0x61, 0x64], &["xy"]),
    ("[$v-[$v]]", &[], &[]),
];

#[test]
fn a_term_is_evaluated_to_its_members(rt: HostRuntime) {
    assert_rows_of_text(&rt, rt.alloc(), EVERY_KIND, EVALUATED);
}
