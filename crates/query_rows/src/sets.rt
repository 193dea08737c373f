//! Sets of code points, by the types of properties and by the names of ECMA-262.
use crate::fixtures::{EMPTY, Ends, Row, assert_rows, is_range, lacks};
use cp_invlist::CodePointInversionList;
use prop_binary::{AsciiHexDigit, Emoji};
use prop_data::{PropertyDatabase, SetTable, TableName};
use prop_query::{CodePointSetData, CodePointSetDataBorrowed};
use row_fixtures::EVERY_KIND;
use std::alloc::Global;

/// What is expected of the set of hexadecimal digits.
#[derive(Clone, Copy)]
enum Digits {
    /// Whether a character, which is also asked for by its number, is a member.
    Character(char, bool),
    CodePoint(u32, bool),
    /// The first and the last code point of the maximal range of an index, if there are that many ranges.
    Range(usize, Option<Ends>),
    /// The same of the code points that are no members.
    Gap(usize, Option<Ends>),
}

/// Whether the set answers so.
fn answers(set: CodePointSetDataBorrowed<'_>, expected: Digits) -> bool {
    match expected {
        Digits::Character(ch, is_member) => {
            set.contains(ch) == is_member && set.contains32(u32::from(ch)) == is_member
        }
        Digits::CodePoint(code_point, is_member) => set.contains32(code_point) == is_member,
        Digits::Range(index, ends) => is_range(set.iter_ranges().nth(index), ends),
        Digits::Gap(index, ends) => is_range(set.iter_ranges_complemented().nth(index), ends),
    }
}

/// Whether the sets that are lent answer so.
fn lent_answer(database: &PropertyDatabase, expected: Digits) -> bool {
    match (
        CodePointSetData::new::<AsciiHexDigit>(database),
        CodePointSetDataBorrowed::new::<AsciiHexDigit>(database),
        CodePointSetData::new_for_ecma262(database, b"ASCII_Hex_Digit"),
    ) {
        (Ok(set), Ok(same), Some(Ok(named))) => {
            answers(set, expected) && answers(same, expected) && answers(named, expected)
        }
        _ => false,
    }
}

/// Whether the set of the list of the copy answers so.
fn made_again_answers(alloc: Global, copy: &CodePointSetData, expected: Digits) -> bool {
    let Ok(list) = copy.to_code_point_inversion_list(alloc) else {
        return false;
    };
    let set = CodePointSetData::from_code_point_inversion_list(list);
    answers(set.as_borrowed(), expected)
}

/// Whether a copy, and the set of its list, answer so.
fn copies_answer(alloc: Global, database: &PropertyDatabase, expected: Digits) -> bool {
    match CodePointSetData::try_new_unstable::<AsciiHexDigit>(alloc, database) {
        Ok(copy) => {
            answers(copy.as_borrowed(), expected) && made_again_answers(alloc, &copy, expected)
        }
        Err(_) => false,
    }
}

/// Whether a copy of the short name answers so.
fn named_copy_answers(alloc: Global, database: &PropertyDatabase, expected: Digits) -> bool {
    match CodePointSetData::try_new_for_ecma262_unstable(alloc, database, b"AHex") {
        Some(Ok(copy)) => answers(copy.as_borrowed(), expected),
        _ => false,
    }
}

/// What is expected of sets by type and by name.
#[derive(Clone, Copy)]
enum Expected {
    Digits(Digits),
    /// That no property has a name that differs in case, since names of ECMA-262 are compared byte for byte.
    NoName,
    /// The same of the call that copies.
    NoNameOfCopy,
}

impl Row for Expected {
    fn holds(&self, alloc: Global, database: &PropertyDatabase) -> bool {
        match *self {
            Expected::Digits(expected) => lent_answer(database, expected)
                && copies_answer(alloc, database, expected)
                && named_copy_answers(alloc, database, expected),
            Expected::NoName => CodePointSetData::new_for_ecma262(database, b"ahex").is_none(),
            Expected::NoNameOfCopy => {
                CodePointSetData::try_new_for_ecma262_unstable(alloc, database, b"ahex").is_none()
            }
        }
    }
}

const ANSWERS: &[Expected] = &[
    Expected::Digits(Digits::Character('/', false)),
    Expected::Digits(Digits::Character('0', true)),
    Expected::Digits(Digits::Character('F', true)),
    Expected::Digits(Digits::Character('f', true)),
    Expected::Digits(Digits::Character('g', false)),
    Expected::Digits(Digits::CodePoint(0x11_0000, false)),
    Expected::Digits(Digits::Range(0, Some((0x30, 0x39)))),
    Expected::Digits(Digits::Range(1, Some((0x41, 0x46)))),
    Expected::Digits(Digits::Range(2, Some((0x61, 0x66)))),
    Expected::Digits(Digits::Range(3, None)),
    Expected::Digits(Digits::Gap(0, Some((0, 0x2F)))),
    Expected::Digits(Digits::Gap(1, Some((0x3A, 0x40)))),
    Expected::Digits(Digits::Gap(2, Some((0x47, 0x60)))),
    Expected::Digits(Digits::Gap(3, Some((0x67, 0x10_FFFF)))),
    Expected::Digits(Digits::Gap(4, None)),
    Expected::NoName,
    Expected::NoNameOfCopy,
];

#[test]
fn sets_are_lent_and_copied_by_type_and_by_name(rt: HostRuntime) {
    assert_rows(&rt, EVERY_KIND, ANSWERS);
}

/// What is expected of the list of a copy.
#[derive(Clone, Copy)]
enum Listed {
    /// Its code points, as an inversion list.
    CodePoints(&'static [u32]),
    /// That it is the database's list.
    AsKept,
    /// That it is the list that the copy lends.
    AsLent,
}

/// Whether the list of a copy is as expected.
fn is_listed(
    list: &CodePointInversionList,
    copy: &CodePointSetData,
    database: &PropertyDatabase,
    expected: Listed,
) -> bool {
    match expected {
        Listed::CodePoints(ends) => list.get_inversion_list() == ends,
        Listed::AsKept => database.set(SetTable::ASCII_HEX_DIGIT) == Some(list),
        Listed::AsLent => copy.as_code_point_inversion_list() == Some(list),
    }
}

/// The same, if memory is left for the list.
fn is_copied(
    alloc: Global,
    copy: &CodePointSetData,
    database: &PropertyDatabase,
    expected: Listed,
) -> bool {
    match copy.to_code_point_inversion_list(alloc) {
        Ok(list) => is_listed(&list, copy, database, expected),
        Err(_) => false,
    }
}

impl Row for Listed {
    fn holds(&self, alloc: Global, database: &PropertyDatabase) -> bool {
        match CodePointSetData::try_new_unstable::<AsciiHexDigit>(alloc, database) {
            Ok(copy) => is_copied(alloc, &copy, database, *self),
            Err(_) => false,
        }
    }
}

const LISTED: &[Listed] = &[
    Listed::CodePoints(&[0x30, 0x3A, 0x41, 0x47, 0x61, 0x67]),
    Listed::AsKept,
    Listed::AsLent,
];

#[test]
fn the_list_of_a_copied_set_is_that_of_the_database(rt: HostRuntime) {
    assert_rows(&rt, EVERY_KIND, LISTED);
}

/// A call that needs the set of emoji.
#[derive(Clone, Copy)]
enum Absent {
    New,
    NewBorrowed,
    TryNew,
    Named,
    TryNamed,
}

const EMOJI: TableName = TableName::Set(SetTable::EMOJI);

impl Row for Absent {
    fn holds(&self, alloc: Global, database: &PropertyDatabase) -> bool {
        match *self {
            Absent::New => lacks(CodePointSetData::new::<Emoji>(database), EMOJI),
            Absent::NewBorrowed => {
                lacks(CodePointSetDataBorrowed::new::<Emoji>(database), EMOJI)
            }
            Absent::TryNew => lacks(
                CodePointSetData::try_new_unstable::<Emoji>(alloc, database),
                EMOJI,
            ),
            Absent::Named => match CodePointSetData::new_for_ecma262(database, b"Emoji") {
                Some(set) => lacks(set, EMOJI),
                None => false,
            },
            Absent::TryNamed => {
                match CodePointSetData::try_new_for_ecma262_unstable(alloc, database, b"Emoji") {
                    Some(set) => lacks(set, EMOJI),
                    None => false,
                }
            }
        }
    }
}

const ABSENT: &[Absent] = &[
    Absent::New,
    Absent::NewBorrowed,
    Absent::TryNew,
    Absent::Named,
    Absent::TryNamed,
];

#[test]
fn a_database_without_a_set_says_so(rt: HostRuntime) {
    assert_rows(&rt, EMPTY, ABSENT);
    assert_rows(&rt, EVERY_KIND, ABSENT);
}
