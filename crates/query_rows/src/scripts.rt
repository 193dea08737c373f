//! The script and the script extensions of code points.
use crate::fixtures::{Row, assert_rows, lacks};
use prop_data::{PropertyDatabase, TableName};
use prop_query::{
    ScriptExtensionsRanges, ScriptExtensionsSet, ScriptWithExtensions, ScriptWithExtensionsBorrowed,
};
use prop_values::Script;
use row_fixtures::EVERY_KIND;
use std::alloc::Global;

/// Numbers of every kind: alone, with a list of Common, of Inherited and of another script, and of a kind above these.
const KINDS: &str =
    "scx 103\n41-42 25\n43 1024\n44 1025\n45 2050\n46 3075\n47 3076\n48 59392\n49 1026\n\
    ext 0\n20\n22\next 1\n25\next 2\next 3 17\n4\n17\n25\next 4 8\nend";

/// What is expected of the scripts of a table text, by the numbers of scripts.
#[derive(Clone, Copy)]
enum Expected {
    /// A code point with its script and its script extensions.
    Extended(u32, u16, &'static [u16]),
    /// A code point, and what comes of its script extensions from the back, the front, the back and the front.
    FromEnds(u32, [Option<u16>; 4]),
    /// Two code points, and whether their script extensions are equal.
    Equal(u32, u32, bool),
    /// A script, and the inversion list of the code points that have it.
    Listed(u16, &'static [u32]),
    /// A code point and a script, and whether the script is among the script extensions.
    Member(u32, u16, bool),
}

fn script(number: u16) -> Script {
    Script::from_icu4c_value(number)
}

/// Whether the set has the scripts of these numbers, in this order, and none behind them.
fn has_all(set: ScriptExtensionsSet<'_>, numbers: &[u16]) -> bool {
    for (index, number) in numbers.iter().enumerate() {
        if set.array_get(index) != Some(script(*number)) {
            return false;
        }
    }
    set.array_len() == numbers.len() && set.array_get(numbers.len()).is_none()
}

/// The numbers of the scripts that come from the back, the front, the back and the front.
fn from_both_ends(set: ScriptExtensionsSet<'_>) -> [Option<u16>; 4] {
    let mut scripts = set.iter();
    [
        scripts.next_back().map(Script::to_icu4c_value),
        scripts.next().map(Script::to_icu4c_value),
        scripts.next_back().map(Script::to_icu4c_value),
        scripts.next().map(Script::to_icu4c_value),
    ]
}

/// Whether the ranges are those of the inversion list.
fn are_ranges_of(ranges: ScriptExtensionsRanges<'_>, list: &[u32]) -> bool {
    let mut ends = list;
    for range in ranges {
        let [start, past, rest @ ..] = ends else {
            return false;
        };
        if range.start != *start || range.end.saturating_add(1) != *past {
            return false;
        }
        ends = rest;
    }
    ends.is_empty()
}

/// Whether the code points with the script are those of the inversion list.
fn are_listed(
    alloc: Global,
    scripts: ScriptWithExtensionsBorrowed<'_>,
    script: Script,
    list: &[u32],
) -> bool {
    match scripts.get_script_extensions_set(alloc, script) {
        Ok(set) => set.get_inversion_list() == list,
        Err(_) => false,
    }
}

/// Whether the scripts answer so.
fn answer(alloc: Global, scripts: ScriptWithExtensionsBorrowed<'_>, expected: Expected) -> bool {
    match expected {
        Expected::Extended(code_point, number, extensions) => {
            scripts.get_script_val32(code_point) == script(number)
                && has_all(scripts.get_script_extensions_val32(code_point), extensions)
        }
        Expected::FromEnds(code_point, numbers) => {
            from_both_ends(scripts.get_script_extensions_val32(code_point)) == numbers
        }
        Expected::Equal(first, second, are_equal) => {
            let first_set = scripts.get_script_extensions_val32(first);
            let second_set = scripts.get_script_extensions_val32(second);
            (first_set == second_set) == are_equal
        }
        Expected::Listed(number, list) => {
            are_ranges_of(scripts.get_script_extensions_ranges(script(number)), list)
                && are_listed(alloc, scripts, script(number), list)
        }
        Expected::Member(code_point, number, is_member) => {
            scripts.has_script32(code_point, script(number)) == is_member
        }
    }
}

/// Whether the scripts that are lent answer so.
fn lent_answer(alloc: Global, database: &PropertyDatabase, expected: Expected) -> bool {
    match ScriptWithExtensions::new(database) {
        Ok(scripts) => answer(alloc, scripts, expected),
        Err(_) => false,
    }
}

/// Whether a copy of the scripts answers so.
fn copy_answers(alloc: Global, database: &PropertyDatabase, expected: Expected) -> bool {
    match ScriptWithExtensions::try_new_unstable(alloc, database) {
        Ok(copy) => answer(alloc, copy.as_borrowed(), expected),
        Err(_) => false,
    }
}

impl Row for Expected {
    fn holds(&self, alloc: Global, database: &PropertyDatabase) -> bool {
        lent_answer(alloc, database, *self) && copy_answers(alloc, database, *self)
    }
}

const KINDS_EXPECTED: &[Expected] = &[
    Expected::Extended(0x40, 103, &[103]),
    Expected::Extended(0x42, 25, &[25]),
    Expected::Extended(0x43, 0, &[20, 22]),
    Expected::Extended(0x44, 0, &[25]),
    Expected::Extended(0x45, 1, &[]),
    Expected::Extended(0x46, 17, &[4, 17, 25]),
    Expected::Extended(0x47, 8, &[]),
    Expected::Extended(0x48, 59392, &[59392]),
    Expected::Extended(0x49, 0, &[]),
    Expected::Extended(0x10_FFFF, 103, &[103]),
    Expected::Extended(0x11_0000, 103, &[]),
    Expected::Listed(25, &[0x41, 0x43, 0x44, 0x45, 0x46, 0x47]),
    Expected::Listed(103, &[0, 0x41, 0x4A, 0x11_0000]),
    Expected::Listed(20, &[0x43, 0x44]),
    Expected::FromEnds(0x46, [Some(25), Some(4), Some(17), None]),
    Expected::FromEnds(0x43, [Some(22), Some(20), None, None]),
    Expected::FromEnds(0x41, [Some(25), None, None, None]),
    Expected::FromEnds(0x45, [None, None, None, None]),
    Expected::Equal(0x41, 0x44, true),
    Expected::Equal(0x44, 0x44, true),
    Expected::Equal(0x45, 0x11_0000, true),
    Expected::Equal(0x45, 0x47, true),
    Expected::Equal(0x41, 0x48, false),
    Expected::Equal(0x41, 0x43, false),
    Expected::Equal(0x43, 0x46, false),
    Expected::Equal(0x41, 0x45, false),
    Expected::Member(0x46, 17, true),
    Expected::Member(0x47, 8, false),
    Expected::Member(0x45, 1, false),
];

#[test]
fn a_number_of_each_kind_tells_a_script_and_its_extensions(rt: HostRuntime) {
    assert_rows(&rt, KINDS, KINDS_EXPECTED);
}

const EVERY_EXPECTED: &[Expected] = &[
    Expected::Extended(0x30FC, 0, &[20, 22]),
    Expected::Extended(0x3042, 20, &[20]),
    Expected::Extended(0x11_0000, 103, &[]),
    Expected::Listed(20, &[0x3041, 0x3097, 0x30FC, 0x30FD]),
    Expected::Listed(0, &[]),
    Expected::FromEnds(0x30FC, [Some(22), Some(20), None, None]),
    Expected::Equal(0x30FC, 0x30FC, true),
    Expected::Equal(0x30FC, 0x3042, false),
    Expected::Member(0x30FC, 20, true),
    Expected::Member(0x30FC, 22, true),
    Expected::Member(0x30FC, 0, false),
    Expected::Member(0x30FC, 0xAFFE, false),
    Expected::Member(0x3042, 22, false),
    Expected::Member(0x11_0000, 103, false),
    Expected::Member(0x11_0000, 20, false),
];

#[test]
fn a_text_of_every_kind_tells_scripts_and_extensions(rt: HostRuntime) {
    assert_rows(&rt, EVERY_KIND, EVERY_EXPECTED);
}

const HIGH_EXPECTED: &[Expected] = &[
    Expected::Extended(0x41, 59392, &[59392]),
    Expected::Listed(59392, &[0, 0x11_0000]),
    Expected::Listed(58, &[]),
    Expected::Member(0x41, 59392, true),
    Expected::Member(0x41, 0, false),
    Expected::Member(0x41, 58, false),
    Expected::Member(0x41, 103, false),
    Expected::Member(0x41, 59391, false),
    Expected::Member(0x41, 59393, false),
    Expected::Member(0x41, 65535, false),
    Expected::Member(0x10_FFFF, 59392, true),
    Expected::Member(0x11_0000, 59392, false),
];

#[test]
fn a_number_of_a_high_kind_is_a_script_alone(rt: HostRuntime) {
    assert_rows(&rt, "scx 59392\nend", HIGH_EXPECTED);
}

/// What is expected of a character.
#[derive(Clone, Copy)]
enum Character {
    /// That its script is Common.
    IsCommon(char),
    /// The numbers of its script extensions.
    Extensions(char, &'static [u16]),
    /// That Common is not among its script extensions.
    LacksCommon(char),
}

/// Whether the scripts answer so.
fn answer_of_character(scripts: ScriptWithExtensionsBorrowed<'_>, expected: Character) -> bool {
    match expected {
        Character::IsCommon(ch) => scripts.get_script_val(ch) == Script::Common,
        Character::Extensions(ch, extensions) => {
            has_all(scripts.get_script_extensions_val(ch), extensions)
        }
        Character::LacksCommon(ch) => !scripts.has_script(ch, Script::Common),
    }
}

impl Row for Character {
    fn holds(&self, _alloc: Global, database: &PropertyDatabase) -> bool {
        match ScriptWithExtensionsBorrowed::new(database) {
            Ok(scripts) => answer_of_character(scripts, *self),
            Err(_) => false,
        }
    }
}

#[test]
fn a_character_answers_as_its_code_point(rt: HostRuntime) {
    let rows: &[Character] = &[
        Character::IsCommon('C'),
        Character::Extensions('C', &[20, 22]),
        Character::LacksCommon('C'),
    ];
    assert_rows(&rt, KINDS, rows);
}

/// A call that needs the scripts.
#[derive(Clone, Copy)]
enum Absent {
    New,
    NewBorrowed,
    TryNew,
}

impl Row for Absent {
    fn holds(&self, alloc: Global, database: &PropertyDatabase) -> bool {
        match *self {
            Absent::New => lacks(ScriptWithExtensions::new(database), TableName::Scripts),
            Absent::NewBorrowed => lacks(
                ScriptWithExtensionsBorrowed::new(database),
                TableName::Scripts,
            ),
            Absent::TryNew => lacks(
                ScriptWithExtensions::try_new_unstable(alloc, database),
                TableName::Scripts,
            ),
        }
    }
}

#[test]
fn a_database_without_scripts_says_so(rt: HostRuntime) {
    let rows: &[Absent] = &[Absent::New, Absent::NewBorrowed, Absent::TryNew];
    assert_rows(&rt, "ext 0\n20\nend", rows);
}
