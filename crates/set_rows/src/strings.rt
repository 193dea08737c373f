//! Sets of code points together with strings.
use crate::fixtures::{Operation, Row, assert_equal, first_wrong, set_of, try_set_of};
use cp_invlist::CodePointInversionList;
use cp_strset::{CodePointInversionListAndStringList, StringListError, Strings, sole_char};
use std::alloc::Global;

/// The hyphen and the letters `a` to `c`, as an inversion list.
const LETTERS: &[u32] = &[0x2D, 0x2E, 0x61, 0x64];

/// What is expected of a set.
#[derive(Clone, Copy)]
enum Expected {
    /// How many code points and strings it has.
    Size(usize),
    Text(&'static str, bool),
    Bytes(&'static [u8], bool),
    Char(char, bool),
    Number(u32, bool),
    CodePoints(&'static [u32]),
    /// How many strings it has.
    Strings(usize),
    /// That a copy equals it.
    Copied,
    /// How it is written as a pattern.
    Pattern(&'static str),
}

impl Row<CodePointInversionListAndStringList> for Expected {
    fn holds(&self, alloc: Global, set: &CodePointInversionListAndStringList) -> bool {
        match *self {
            Expected::Size(size) => set.size() == size,
            Expected::Text(text, is_member) => set.contains_str(text) == is_member,
            Expected::Bytes(bytes, is_member) => set.contains_utf8(bytes) == is_member,
            Expected::Char(ch, is_member) => set.contains(ch) == is_member,
            Expected::Number(c, is_member) => set.contains32(c) == is_member,
            Expected::CodePoints(list) => set.code_points().get_inversion_list() == list,
            Expected::Strings(count) => set.strings().len() == count,
            Expected::Copied => is_copied(alloc, set),
            Expected::Pattern(pattern) => is_written(alloc, set, pattern),
        }
    }
}

/// Whether a copy of the set equals it.
fn is_copied(alloc: Global, set: &CodePointInversionListAndStringList) -> bool {
    let Ok(copy) = set.copy(alloc) else {
        return false;
    };
    copy == *set
}

/// Whether the set is written so.
fn is_written(alloc: Global, set: &CodePointInversionListAndStringList, expected: &str) -> bool {
    let Ok(pattern) = set.to_pattern(alloc) else {
        return false;
    };
    pattern.as_str() == expected
}

const OF_LETTERS: &[Expected] = &[
    Expected::Size(6),
    Expected::Text("a", true),
    Expected::Text("ab", true),
    Expected::Text("", true),
    Expected::Text("d", false),
    Expected::Text("abc", false),
    Expected::Char('-', true),
    Expected::Number(0x11_002D, false),
    Expected::Bytes(b"ab", true),
    Expected::Bytes(&[0xFF], false),
    Expected::CodePoints(LETTERS),
    Expected::Strings(2),
];

/// The index of the first row that does not hold of the letters with two strings.
fn first_wrong_of_two_strings(alloc: Global, rows: &[Expected]) -> Option<Option<usize>> {
    let set = set_of(alloc, LETTERS, &["", "ab"])?;
    Some(first_wrong(alloc, &set, rows))
}

#[test]
fn a_set_holds_code_points_and_strings(rt: HostRuntime) {
    let wrong = first_wrong_of_two_strings(rt.alloc(), OF_LETTERS);
    assert_equal(&rt, wrong, Some(None));
}

#[test]
fn a_copy_equals_its_set(rt: HostRuntime) {
    let wrong = first_wrong_of_two_strings(rt.alloc(), &[Expected::Copied]);
    assert_equal(&rt, wrong, Some(None));
}

/// The set as a pattern.
const PATTERN: &str = "[\\u{2d}\\u{61}-\\u{63}{}{\\u{61}\\u{62}}]";

#[test]
fn a_set_is_written_as_a_pattern(rt: HostRuntime) {
    let wrong = first_wrong_of_two_strings(rt.alloc(), &[Expected::Pattern(PATTERN)]);
    assert_equal(&rt, wrong, Some(None));
}

/// Lists of strings, and why they are refused.
const FAULTY: &[(&[&str], StringListError)] = &[
    (&["b"], StringListError::StringOfOne { index: 0 }),
    (&["bc", "ab"], StringListError::NotSorted { index: 1 }),
    (&["ab", "ab"], StringListError::NotUnique { index: 1 }),
];

/// Why the letters with these strings are refused, if they are.
fn refusal(alloc: Global, texts: &[&str]) -> Option<StringListError> {
    try_set_of(alloc, LETTERS, texts)?.err()
}

#[test]
fn the_first_faulty_string_is_named(rt: HostRuntime) {
    for (texts, expected) in FAULTY {
        assert_equal(&rt, refusal(rt.alloc(), texts), Some(*expected));
    }
}

/// How strings are changed.
#[derive(Clone, Copy)]
enum Change {
    /// They are combined with a list in the making.
    Gathered(Operation),
    /// They are combined with the strings of a set.
    Listed(Operation),
    /// This text is added, which isn't one character.
    Inserted(&'static str),
}

/// What each makes of the empty string, `ab` and `cd`, where `ab` and `ef` are given.
const CHANGES: &[(Change, &[&str])] = &[
    (Change::Gathered(Operation::Add), &["", "ab", "cd", "ef"]),
    (Change::Gathered(Operation::Remove), &["", "cd"]),
    (Change::Gathered(Operation::Retain), &["ab"]),
    (Change::Listed(Operation::Add), &["", "ab", "cd", "ef"]),
    (Change::Listed(Operation::Remove), &["", "cd"]),
    (Change::Listed(Operation::Retain), &["ab"]),
    (Change::Inserted("bc"), &["", "ab", "bc", "cd"]),
];

/// The strings of a list in the making.
fn gathered(alloc: Global, texts: &[&str]) -> Option<Strings> {
    let set = set_of(alloc, LETTERS, texts)?;
    Strings::new(alloc).insert_copies(alloc, &set).ok()
}

/// Whether these strings are said to be none.
fn are_none(alloc: Global, texts: &[&str]) -> Option<bool> {
    Some(gathered(alloc, texts)?.is_empty())
}

/// How many strings a set has, how many bytes each of them, and whether these are many strings.
const MANY: &[(u32, usize, bool)] = &[
    (0, 0, false),
    (63, 65, false),
    (63, 66, true),
    (64, 4, true),
    (1, 4_095, false),
    (1, 4_096, true),
];

/// So many strings of so many bytes, at least two, in order.
fn strings_of(alloc: Global, count: u32, bytes: usize) -> Option<Vec<String>> {
    let mut strings = Vec::new(alloc);
    for number in 0..count {
        let mut text = "z".repeat(alloc, bytes.saturating_sub(1)).ok()?;
        text.push(char::from_u32(number.saturating_add(0x30))?)
            .ok()?;
        strings.push(text).ok()?;
    }
    Some(strings)
}

/// Whether the set of so many strings of so many bytes has many strings.
fn has_many(alloc: Global, count: u32, bytes: usize) -> Option<bool> {
    let list = CodePointInversionList::try_from_inversion_list(alloc, LETTERS).ok()?;
    let strings = strings_of(alloc, count, bytes)?;
    let set = CodePointInversionListAndStringList::try_from(list, strings).ok()?;
    Some(set.has_many_strings())
}

#[test]
fn many_strings_are_64_or_4096_bytes(rt: HostRuntime) {
    for (count, bytes, is_many) in MANY {
        assert_equal(&rt, has_many(rt.alloc(), *count, *bytes), Some(*is_many));
    }
}

#[test]
fn the_empty_string_is_a_string(rt: HostRuntime) {
    for (texts, expected) in [
        (&[] as &[&str], true),
        (&[""], false),
        (&["ab", "cd"], false),
    ] {
        assert_equal(&rt, are_none(rt.alloc(), texts), Some(expected));
    }
}

/// The strings that are given.
const GIVEN: &[&str] = &["ab", "ef"];

/// The strings, combined with a list in the making.
fn with_gathered(operation: Operation, alloc: Global, mut strings: Strings) -> Option<Strings> {
    let given = gathered(alloc, GIVEN)?;
    match operation {
        Operation::Add => return strings.append(given).ok(),
        Operation::Remove => strings.remove_all(given),
        Operation::Retain => strings.keep_only(given),
    }
    Some(strings)
}

/// The strings, combined with those of a set.
fn with_listed(operation: Operation, alloc: Global, mut strings: Strings) -> Option<Strings> {
    let given = set_of(alloc, LETTERS, GIVEN)?;
    match operation {
        Operation::Add => return strings.insert_copies(alloc, &given).ok(),
        Operation::Remove => strings.remove_listed(&given),
        Operation::Retain => strings.keep_listed(&given),
    }
    Some(strings)
}

/// The strings and the text, which isn't one character.
fn with_text(text: &str, alloc: Global, mut strings: Strings) -> Option<Strings> {
    let Ok(text) = String::from_str(alloc, text) else {
        return None;
    };
    if sole_char(&text).is_some() || strings.insert(text).is_err() {
        return None;
    }
    Some(strings)
}

/// The strings, changed.
fn change_strings(change: Change, alloc: Global, strings: Strings) -> Option<Strings> {
    match change {
        Change::Gathered(operation) => with_gathered(operation, alloc, strings),
        Change::Listed(operation) => with_listed(operation, alloc, strings),
        Change::Inserted(text) => with_text(text, alloc, strings),
    }
}

/// The letters with what the change makes of the empty string, `ab` and `cd`.
fn changed(alloc: Global, change: Change) -> Option<CodePointInversionListAndStringList> {
    let strings = gathered(alloc, &["", "ab", "cd"])?;
    let strings = change_strings(change, alloc, strings)?;
    let Ok(letters) = CodePointInversionList::try_from_inversion_list(alloc, LETTERS) else {
        return None;
    };
    strings.into_set(alloc, letters).ok()
}

/// Whether memory is left, and the set of the letters and of the changed strings is that of the letters and these strings.
fn is_changed(alloc: Global, change: Change, expected: &[&str]) -> bool {
    let Some(expected) = set_of(alloc, LETTERS, expected) else {
        return false;
    };
    let Some(set) = changed(alloc, change) else {
        return false;
    };
    set == expected
}

#[test]
fn strings_are_gathered(rt: HostRuntime) {
    for (change, expected) in CHANGES {
        assert_equal(&rt, is_changed(rt.alloc(), *change, expected), true);
    }
}
