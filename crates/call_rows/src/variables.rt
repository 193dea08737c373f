//! Maps of variables.
use crate::fixtures::{assert_equal, set_of, set_of_numerals, string_of};
use cp_invlist::NoMemory;
use cp_strset::{CodePointInversionListAndStringList, sole_char};
use std::alloc::Global;
use std::process::Abort;
use uset_variables::{InsertError, VariableMap, VariableString, VariableValue};

/// The hyphen, the letters `a` to `c`, the empty string and the string `ab`.
fn letters(alloc: Global) -> Option<CodePointInversionListAndStringList> {
    set_of(alloc, &[0x2D, 0x2E, 0x61, 0x64], &["", "ab"])
}

/// What a name is to be bound to, and the call that binds it.
#[derive(Clone, Copy)]
enum Given {
    Value(&'static str),
    CharValue(char),
    Char(char),
    String(&'static str),
    Str(&'static str),
    Letters,
}

/// What a name is bound to.
#[derive(Clone, Copy)]
enum Kept {
    Nothing,
    Char(char),
    String(&'static str),
    /// The set that is given beside it.
    Set,
}

/// What is done with a map or asked of it, and the answer that is expected.
#[derive(Clone, Copy)]
enum Step {
    /// The name is bound to what is given.
    Binds(&'static str, Given),
    /// What is given is refused, since the name is bound to this.
    Refuses(&'static str, Given, Kept),
    /// The name is freed, and was bound to the character, if it was to one.
    Frees(&'static str, Option<char>),
    /// The name is bound to this.
    Keeps(&'static str, Kept),
}

/// Whether the value is the character.
fn is_char(value: &VariableValue, expected: char) -> bool {
    match value {
        VariableValue::Char(c) => *c == expected,
        _ => false,
    }
}

/// The value that is a string of this text.
fn string_value(alloc: Global, s: &str) -> Option<VariableValue> {
    Some(VariableValue::String(VariableString::new(string_of(alloc, s)?)))
}

/// Frees the name. The answer is whether it was bound to the character, or to nothing where none is expected.
fn frees(variables: &mut VariableMap, name: &str, expected: Option<char>) -> bool {
    match (variables.remove(name), expected) {
        (None, None) => true,
        (Some(value), Some(c)) => is_char(&value, c),
        _ => false,
    }
}

/// Whether the value is as it is to be kept.
fn is_kept(
    value: Option<&VariableValue>,
    expected: Kept,
    letters: &CodePointInversionListAndStringList,
) -> bool {
    match (value, expected) {
        (None, Kept::Nothing) => true,
        (Some(VariableValue::Char(c)), Kept::Char(expected)) => *c == expected,
        (Some(VariableValue::String(s)), Kept::String(expected)) => s.as_str() == expected,
        (Some(VariableValue::UnicodeSet(set)), Kept::Set) => set == letters,
        _ => false,
    }
}

/// Whether the name was bound, or was bound before to what is expected.
fn is_inserted(
    answer: Result<(), InsertError<'_>>,
    present: Option<Kept>,
    letters: &CodePointInversionListAndStringList,
) -> bool {
    match (answer, present) {
        (Ok(()), None) => true,
        (Err(InsertError::Present(value)), Some(kept)) => is_kept(Some(value), kept, letters),
        _ => false,
    }
}

/// Inserts what is given by its call, if memory is left for it.
fn insert<'a>(
    alloc: Global,
    variables: &'a mut VariableMap,
    name: String,
    given: Given,
) -> Option<Result<(), InsertError<'a>>> {
    Some(match given {
        Given::Value(s) => variables.insert(name, string_value(alloc, s)?),
        Given::CharValue(c) => variables.insert(name, VariableValue::Char(c)),
        Given::Char(c) => variables.insert_char(name, c),
        Given::String(s) => variables.insert_string(name, string_of(alloc, s)?),
        Given::Str(s) => variables.insert_str(name, s),
        Given::Letters => variables.insert_set(name, letters(alloc)?),
    })
}

/// Inserts what is given. The answer is whether that ended as expected.
fn inserts(
    alloc: Global,
    variables: &mut VariableMap,
    set: &CodePointInversionListAndStringList,
    name: &str,
    given: Given,
    present: Option<Kept>,
) -> bool {
    let Some(name) = string_of(alloc, name) else {
        return false;
    };
    match insert(alloc, variables, name, given) {
        Some(answer) => is_inserted(answer, present, set),
        None => false,
    }
}

/// Whether the step has its answer.
fn holds(
    alloc: Global,
    variables: &mut VariableMap,
    letters: &CodePointInversionListAndStringList,
    step: Step,
) -> bool {
    match step {
        Step::Binds(name, given) => inserts(alloc, variables, letters, name, given, None),
        Step::Refuses(name, given, kept) => {
            inserts(alloc, variables, letters, name, given, Some(kept))
        }
        Step::Frees(name, expected) => frees(variables, name, expected),
        Step::Keeps(name, expected) => is_kept(variables.get(name), expected, letters),
    }
}

/// The index of the first step that has another answer.
fn first_wrong(
    alloc: Global,
    variables: &mut VariableMap,
    letters: &CodePointInversionListAndStringList,
    steps: &[Step],
) -> Option<usize> {
    for (index, step) in steps.iter().enumerate() {
        if !holds(alloc, variables, letters, *step) {
            return Some(index);
        }
    }
    None
}

/// The index of the first step of a copy of the map that has another answer.
fn first_wrong_of_copy(
    alloc: Global,
    variables: &VariableMap,
    letters: &CodePointInversionListAndStringList,
    steps: &[Step],
) -> Option<Option<usize>> {
    let Ok(mut copied) = variables.copy(alloc) else {
        return None;
    };
    Some(first_wrong(alloc, &mut copied, letters, steps))
}

/// Steps of a map that binds no name at first, then those of a copy of it, and then those of the map again.
type Course = (&'static [Step], &'static [Step], &'static [Step]);

/// The index of the first step of each part that has another answer.
type Wrong = (Option<usize>, Option<usize>, Option<usize>);

/// The steps of the course that have another answer, from this map on.
fn wrong_from(
    alloc: Global,
    variables: &mut VariableMap,
    letters: &CodePointInversionListAndStringList,
    course: Course,
) -> Option<Wrong> {
    let (steps, of_copy, afterwards) = course;
    let first = first_wrong(alloc, variables, letters, steps);
    let second = first_wrong_of_copy(alloc, variables, letters, of_copy)?;
    let third = first_wrong(alloc, variables, letters, afterwards);
    Some((first, second, third))
}

/// The steps of the course that have another answer.
fn wrong_of(alloc: Global, course: Course) -> Option<Wrong> {
    let letters = letters(alloc)?;
    let mut variables = VariableMap::new(alloc);
    wrong_from(alloc, &mut variables, &letters, course)
}

/// Asserts that each step of the course has its answer. A failure tells the index of the first of each part that has not.
fn assert_course(rt: &impl Abort, alloc: Global, course: Course) {
    assert_equal(rt, wrong_of(alloc, course), Some((None, None, None)));
}

const BOUND: &[Step] = &[
    Step::Binds("a", Given::Value("xyz")),
    Step::Binds("b", Given::Char('é')),
    Step::Binds("ab", Given::String("éé")),
    Step::Binds("", Given::Str("")),
    Step::Binds("é", Given::Letters),
    Step::Keeps("a", Kept::String("xyz")),
    Step::Keeps("b", Kept::Char('é')),
    Step::Keeps("ab", Kept::String("éé")),
    Step::Keeps("", Kept::String("")),
    Step::Keeps("é", Kept::Set),
    Step::Keeps("c", Kept::Nothing),
];

#[test]
fn names_are_bound_to_what_is_inserted(rt: HostRuntime) {
    assert_course(&rt, rt.alloc(), (BOUND, &[], &[]));
}

const OF_ONE_CHARACTER: &[Step] = &[
    Step::Binds("a", Given::Value("x")),
    Step::Binds("b", Given::String("é")),
    Step::Binds("c", Given::Str("\u{10FFFF}")),
    Step::Keeps("a", Kept::Char('x')),
    Step::Keeps("b", Kept::Char('é')),
    Step::Keeps("c", Kept::Char('\u{10FFFF}')),
];

#[test]
fn a_string_of_one_character_is_kept_as_that_character(rt: HostRuntime) {
    assert_course(&rt, rt.alloc(), (OF_ONE_CHARACTER, &[], &[]));
}

const REFUSED: &[Step] = &[
    Step::Binds("a", Given::Str("x")),
    Step::Binds("b", Given::Char('z')),
    Step::Refuses("a", Given::Value("y"), Kept::Char('x')),
    Step::Refuses("a", Given::Char('y'), Kept::Char('x')),
    Step::Refuses("a", Given::String("yy"), Kept::Char('x')),
    Step::Refuses("a", Given::Str("yy"), Kept::Char('x')),
    Step::Refuses("a", Given::Letters, Kept::Char('x')),
    Step::Keeps("a", Kept::Char('x')),
    Step::Keeps("b", Kept::Char('z')),
];

#[test]
fn a_name_that_is_bound_is_refused_with_its_value(rt: HostRuntime) {
    assert_course(&rt, rt.alloc(), (REFUSED, &[], &[]));
}

const FREED: &[Step] = &[
    Step::Binds("a", Given::Char('x')),
    Step::Frees("b", None),
    Step::Frees("a", Some('x')),
    Step::Frees("a", None),
    Step::Keeps("a", Kept::Nothing),
    Step::Binds("a", Given::Str("yy")),
    Step::Keeps("a", Kept::String("yy")),
];

#[test]
fn a_freed_name_is_bound_anew(rt: HostRuntime) {
    assert_course(&rt, rt.alloc(), (FREED, &[], &[]));
}

const COPIED: &[Step] = &[
    Step::Binds("a", Given::Char('x')),
    Step::Binds("b", Given::Str("yy")),
    Step::Binds("c", Given::Letters),
];

const OF_COPY: &[Step] = &[
    Step::Keeps("b", Kept::String("yy")),
    Step::Keeps("c", Kept::Set),
    Step::Keeps("d", Kept::Nothing),
    Step::Frees("a", Some('x')),
];

const AFTERWARDS: &[Step] = &[Step::Keeps("a", Kept::Char('x'))];

#[test]
fn a_copy_binds_the_same_names(rt: HostRuntime) {
    assert_course(&rt, rt.alloc(), (COPIED, OF_COPY, AFTERWARDS));
}

/// A name that is bound, freed and bound anew, and two more.
const BOUND_ANEW: &[Step] = &[
    Step::Binds("a", Given::String("x")),
    Step::Keeps("a", Kept::Char('x')),
    Step::Refuses("a", Given::Char('b'), Kept::Char('x')),
    Step::Keeps("a", Kept::Char('x')),
    Step::Frees("a", Some('x')),
    Step::Frees("a", None),
    Step::Binds("a", Given::CharValue('b')),
    Step::Binds("s", Given::Str("xy")),
    Step::Binds("t", Given::Letters),
    Step::Refuses("t", Given::Letters, Kept::Set),
];

const OF_ITS_COPY: &[Step] = &[
    Step::Keeps("a", Kept::Char('b')),
    Step::Keeps("s", Kept::String("xy")),
    Step::Keeps("t", Kept::Set),
];

#[test]
fn what_a_name_is_bound_to_is_told_where_it_is_bound(rt: HostRuntime) {
    assert_course(&rt, rt.alloc(), (BOUND_ANEW, OF_ITS_COPY, &[]));
}

/// The value that is as it is to be kept.
fn value_of(alloc: Global, kept: Kept) -> Option<VariableValue> {
    match kept {
        Kept::Nothing => None,
        Kept::Char(c) => Some(VariableValue::Char(c)),
        Kept::String(s) => string_value(alloc, s),
        Kept::Set => Some(VariableValue::UnicodeSet(letters(alloc)?)),
    }
}

/// Whether a copy of the value is as it is to be kept, and whether it is a set.
fn copied(
    alloc: Global,
    value: &VariableValue,
    expected: Kept,
    letters: &CodePointInversionListAndStringList,
) -> Option<(bool, bool)> {
    let Ok(copied) = value.copy(alloc) else {
        return None;
    };
    Some((
        is_kept(Some(&copied), expected, letters),
        copied.as_set().is_some(),
    ))
}

/// The same of a copy of that value.
fn copied_of(alloc: Global, expected: Kept) -> Option<(bool, bool)> {
    let letters = letters(alloc)?;
    let value = value_of(alloc, expected)?;
    copied(alloc, &value, expected, &letters)
}

#[test]
fn a_copy_of_a_value_is_the_same(rt: HostRuntime) {
    let copied = copied_of(rt.alloc(), Kept::Set);
    assert_equal(&rt, copied, Some((true, true)));
}

#[test]
fn a_copy_of_a_string_is_the_same(rt: HostRuntime) {
    let copied = copied_of(rt.alloc(), Kept::String("z"));
    assert_equal(&rt, copied, Some((true, false)));
}

/// Binds the name to the numbers from the start up to the end. The answer is whether memory was left, and the name free.
fn bind_numerals(
    alloc: Global,
    variables: &mut VariableMap,
    name: &str,
    start: u32,
    end: u32,
) -> bool {
    let Some(set) = set_of_numerals(alloc, &[], start, end) else {
        return false;
    };
    let Some(name) = string_of(alloc, name) else {
        return false;
    };
    variables.insert_set(name, set).is_ok()
}

/// Binds `many` to 64 strings, `few` to 63 others, and `c` to a character. The answer is whether memory was left.
fn bind_many_and_few(alloc: Global, variables: &mut VariableMap) -> bool {
    let Some(name) = string_of(alloc, "c") else {
        return false;
    };
    variables.insert_char(name, 'x').is_ok()
        && bind_numerals(alloc, variables, "many", 0, 64)
        && bind_numerals(alloc, variables, "few", 100, 163)
}

/// Asks for numbers of the strings of these names and of one that is bound to nothing.
fn number_all(alloc: Global, variables: &mut VariableMap) -> Result<(), NoMemory> {
    variables.number_strings(alloc, "many")?;
    variables.number_strings(alloc, "few")?;
    variables.number_strings(alloc, "c")?;
    variables.number_strings(alloc, "nothing")
}

/// More numbers than the rows give.
const MORE_THAN_ALL: usize = 1000;

/// How many numbers the strings of the name have, if they have any.
fn count_numbers(variables: &VariableMap, name: &str) -> Option<usize> {
    let (_, numbers) = variables.numbered_set(name)?;
    Some(
        (0..MORE_THAN_ALL)
            .filter(|number| numbers.contains(*number))
            .count(),
    )
}

/// Whether `many` has so many numbers, and no other name has any.
fn has_numbers(variables: &VariableMap, expected: Option<usize>) -> bool {
    count_numbers(variables, "many") == expected
        && variables.numbered_set("few").is_none()
        && variables.numbered_set("c").is_none()
        && variables.numbered_set("nothing").is_none()
}

/// Whether the string has a number that is one of those of `many`.
fn is_numbered(variables: &VariableMap, text: &str) -> bool {
    match (
        variables.numbered_set("many"),
        variables.string_numbers().get(text),
    ) {
        (Some((set, numbers)), Some(number)) => set.contains_str(text) && numbers.contains(number),
        _ => false,
    }
}

/// Whether the name is bound to the numbers from the start up to the end.
fn is_numerals(alloc: Global, variables: &VariableMap, name: &str, start: u32, end: u32) -> bool {
    let Some(expected) = set_of_numerals(alloc, &[], start, end) else {
        return false;
    };
    is_kept(variables.get(name), Kept::Set, &expected)
}

/// Whether the names are bound as by `bind_many_and_few`.
fn are_bound(alloc: Global, variables: &VariableMap) -> bool {
    let Some(c) = variables.get("c") else {
        return false;
    };
    is_char(c, 'x')
        && is_numerals(alloc, variables, "many", 0, 64)
        && is_numerals(alloc, variables, "few", 100, 163)
        && variables.get("nothing").is_none()
}

/// Whether the strings of `many` alone have numbers once they are asked for, and the names are bound as before.
fn numbers_many(alloc: Global, variables: &mut VariableMap) -> bool {
    count_numbers(variables, "many").is_none()
        && number_all(alloc, variables).is_ok()
        && has_numbers(variables, Some(64))
        && is_numbered(variables, "0000")
        && is_numbered(variables, "0042")
        && is_numbered(variables, "0063")
        && !is_numbered(variables, "0064")
        && !is_numbered(variables, "0100")
        && are_bound(alloc, variables)
}

/// Whether a copy has no numbers, and its names are bound as those of the map.
fn copies_no_numbers(alloc: Global, variables: &VariableMap) -> bool {
    let Ok(copied) = variables.copy(alloc) else {
        return false;
    };
    has_numbers(&copied, None) && are_bound(alloc, &copied)
}

/// Whether `many` has no numbers once it is freed, nor once it is bound anew, and those of its new strings once asked for.
fn frees_numbers(alloc: Global, variables: &mut VariableMap) -> bool {
    variables.remove("many").is_some()
        && has_numbers(variables, None)
        && bind_numerals(alloc, variables, "many", 50, 150)
        && has_numbers(variables, None)
        && number_all(alloc, variables).is_ok()
        && has_numbers(variables, Some(100))
        && is_numbered(variables, "0149")
        && is_numbered(variables, "0050")
        && !is_numbered(variables, "0049")
}

/// The same of one map, in turn.
fn numbers_hold(alloc: Global) -> Option<(bool, bool, bool)> {
    let mut variables = VariableMap::new(alloc);
    if !bind_many_and_few(alloc, &mut variables) {
        return None;
    }
    let numbered = numbers_many(alloc, &mut variables);
    let copied = copies_no_numbers(alloc, &variables);
    let freed = frees_numbers(alloc, &mut variables);
    Some((numbered, copied, freed))
}

#[test]
fn the_strings_of_a_large_set_have_numbers_once_they_are_asked_for(rt: HostRuntime) {
    let holds = numbers_hold(rt.alloc());
    assert_equal(&rt, holds, Some((true, true, true)));
}

/// What a test of lengths binds a name to.
#[derive(Clone, Copy)]
enum Long {
    /// A string of so many bytes.
    String,
    /// The set of `ab` and of a string of so many bytes.
    Set,
}

/// The value, with a string of so many bytes.
fn long_value(alloc: Global, long: Long, length: usize) -> Option<VariableValue> {
    let text = "z".repeat(alloc, length).ok()?;
    match long {
        Long::String => Some(VariableValue::String(VariableString::new(text))),
        Long::Set => Some(VariableValue::UnicodeSet(set_of(alloc, &[], &["ab", text.as_str()])?)),
    }
}

/// How many numbers the value's strings have once they are asked for, `Some(None)` where they have none.
fn numbers_of_long(alloc: Global, long: Long, length: usize) -> Option<Option<usize>> {
    let value = long_value(alloc, long, length)?;
    let name = string_of(alloc, "long")?;
    let mut variables = VariableMap::new(alloc);
    if variables.insert(name, value).is_err() || variables.number_strings(alloc, "long").is_err() {
        return None;
    }
    Some(count_numbers(&variables, "long"))
}

#[test]
fn strings_have_numbers_from_4096_bytes_on(rt: HostRuntime) {
    let short = numbers_of_long(rt.alloc(), Long::String, 4095);
    assert_equal(&rt, short, Some(None));
    let long = numbers_of_long(rt.alloc(), Long::String, 4096);
    assert_equal(&rt, long, Some(Some(1)));
    let short = numbers_of_long(rt.alloc(), Long::Set, 4093);
    assert_equal(&rt, short, Some(None));
    let long = numbers_of_long(rt.alloc(), Long::Set, 4094);
    assert_equal(&rt, long, Some(Some(2)));
}

/// Whether the set of the text alone is that of this one string. `None` where the text is one character.
fn is_alone(alloc: Global, text: &str) -> Option<bool> {
    let expected = set_of(alloc, &[], &[text])?;
    let string = VariableString::new(string_of(alloc, text)?);
    match sole_char(string.as_str()) {
        None => Some(string.alone(alloc).ok()? == expected),
        Some(_) => None,
    }
}

#[test]
fn the_set_of_a_string_alone_has_this_string(rt: HostRuntime) {
    let alone = is_alone(rt.alloc(), "ab");
    assert_equal(&rt, alone, Some(true));
    let empty = is_alone(rt.alloc(), "");
    assert_equal(&rt, empty, Some(true));
}
