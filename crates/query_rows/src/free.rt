//! Single answers of a database: the free functions.
use crate::fixtures::{EMPTY, Known, Row, assert_rows, lacks, script_of};
use prop_binary::{AsciiHexDigit, BasicEmoji};
use prop_data::{
    DataError, EmojiTable, MapTable, NamesTable, PropertyDatabase, SetTable, TableName,
};
use prop_query::{
    binary_for_char, emoji_for_char, emoji_for_str, for_char, long_name, script_to_subtag,
    short_name, subtag_to_script, try_from_str, try_from_utf8,
};
use prop_values::{CanonicalCombiningClass, GeneralCategory, Script, Subtag};
use row_fixtures::EVERY_KIND;
use std::alloc::Global;

/// A table that is absent, as constants can have it.
#[derive(Clone, Copy)]
enum Table {
    Categories,
    Scripts,
    HexDigits,
    Emoji,
    NamesOfScripts,
    NamesOfCategories,
    LongNames,
    ShortNames,
}

/// The name of the table.
fn name_of(table: Table) -> TableName {
    match table {
        Table::Categories => TableName::Map(MapTable::GENERAL_CATEGORY),
        Table::Scripts => TableName::Map(MapTable::SCRIPT),
        Table::HexDigits => TableName::Set(SetTable::ASCII_HEX_DIGIT),
        Table::Emoji => TableName::Emoji(EmojiTable::BASIC_EMOJI),
        Table::NamesOfScripts => TableName::Names(NamesTable::SCRIPT),
        Table::NamesOfCategories => TableName::Names(NamesTable::GENERAL_CATEGORY),
        Table::LongNames => TableName::Long(MapTable::SCRIPT),
        Table::ShortNames => TableName::Short(MapTable::SCRIPT),
    }
}

/// Whether the call gives this answer, or says that this table is absent.
fn is_answer<T: Copy + Eq>(found: Result<T, DataError>, expected: Result<T, Table>) -> bool {
    match (found, expected) {
        (Ok(found), Ok(expected)) => found == expected,
        (Err(error), Err(table)) => {
            error
                == DataError::Absent {
                    table: name_of(table),
                }
        }
        _ => false,
    }
}

/// Characters and texts, and what is expected of them: values, which are numbers where their types have no names for
/// them, and whether they are members of sets.
#[derive(Clone, Copy)]
enum Character {
    Category(char, Result<GeneralCategory, Table>),
    Script(char, Result<u16, Table>),
    Class(char, Result<u8, Table>),
    HexDigit(char, Result<bool, Table>),
    Emoji(char, Result<bool, Table>),
    EmojiText(&'static str, Result<bool, Table>),
}

/// Whether the database answers so.
fn answers_of_character(database: &PropertyDatabase, expected: Character) -> bool {
    match expected {
        Character::Category(ch, expected) => is_answer(for_char(database, ch), expected),
        Character::Script(ch, expected) => is_answer(
            for_char(database, ch),
            expected.map(Script::from_icu4c_value),
        ),
        Character::Class(ch, expected) => is_answer(
            for_char(database, ch),
            expected.map(CanonicalCombiningClass::from_icu4c_value),
        ),
        Character::HexDigit(ch, expected) => {
            is_answer(binary_for_char::<AsciiHexDigit>(database, ch), expected)
        }
        Character::Emoji(ch, expected) => {
            is_answer(emoji_for_char::<BasicEmoji>(database, ch), expected)
        }
        Character::EmojiText(text, expected) => {
            is_answer(emoji_for_str::<BasicEmoji>(database, text), expected)
        }
    }
}

/// Names, and the values that are expected to have them.
#[derive(Clone, Copy)]
enum Named {
    Script(&'static str, Result<Option<Known>, Table>),
    ScriptByBytes(&'static [u8], Result<Option<Known>, Table>),
    Category(&'static str, Result<Option<GeneralCategory>, Table>),
    /// The name of a combining class with this number.
    Class(&'static str, u8),
    /// The subtag of a script.
    Subtag(&'static str, Result<Known, Table>),
}

/// Whether the script is the expected one, or none where none is expected, or this table is absent.
fn is_script(
    found: Result<Option<Script>, DataError>,
    expected: Result<Option<Known>, Table>,
) -> bool {
    match expected {
        Ok(Some(known)) => found == Ok(Some(script_of(known))),
        Ok(None) => found == Ok(None),
        Err(table) => is_answer(found, Err(table)),
    }
}

/// Whether the subtag has the expected script, or this table is absent.
fn has_script(database: &PropertyDatabase, text: &str, expected: Result<Known, Table>) -> bool {
    match Subtag::try_from_str(text) {
        Some(subtag) => is_answer(subtag_to_script(database, subtag), expected.map(script_of)),
        None => false,
    }
}

/// Whether the database answers so.
fn answers_to_name(database: &PropertyDatabase, expected: Named) -> bool {
    match expected {
        Named::Script(name, expected) => is_script(try_from_str(database, name), expected),
        Named::ScriptByBytes(name, expected) => {
            is_script(try_from_utf8(database, name), expected)
        }
        Named::Category(name, expected) => is_answer(try_from_str(database, name), expected),
        Named::Class(name, number) => {
            let class = CanonicalCombiningClass::from_icu4c_value(number);
            is_answer(try_from_str(database, name), Ok(Some(class)))
        }
        Named::Subtag(text, expected) => has_script(database, text, expected),
    }
}

/// Scripts, and the names that they are expected to have.
#[derive(Clone, Copy)]
enum Name {
    Long(Known, Option<&'static str>),
    Short(Known, Option<&'static str>),
    /// That the table of long names is absent.
    NoLong(Known),
    /// That the table of short names is absent.
    NoShort(Known),
    Subtag(Known, Result<&'static str, Table>),
}

/// Whether the script has this subtag, or this table is absent.
fn has_subtag(
    database: &PropertyDatabase,
    known: Known,
    expected: Result<&'static str, Table>,
) -> bool {
    let found = script_to_subtag(database, script_of(known));
    match expected {
        Ok(text) => match Subtag::try_from_str(text) {
            Some(subtag) => is_answer(found, Ok(subtag)),
            None => false,
        },
        Err(table) => is_answer(found, Err(table)),
    }
}

/// Whether the database answers so.
fn answers_with_name(database: &PropertyDatabase, expected: Name) -> bool {
    match expected {
        Name::Long(known, name) => match long_name(database, script_of(known)) {
            Ok(found) => found == name,
            Err(_) => false,
        },
        Name::Short(known, name) => match short_name(database, script_of(known)) {
            Ok(found) => found == name,
            Err(_) => false,
        },
        Name::NoLong(known) => lacks(
            long_name(database, script_of(known)),
            name_of(Table::LongNames),
        ),
        Name::NoShort(known) => lacks(
            short_name(database, script_of(known)),
            name_of(Table::ShortNames),
        ),
        Name::Subtag(known, expected) => has_subtag(database, known, expected),
    }
}

/// What is expected of the free functions.
enum Expected {
    Character(Character),
    Named(Named),
    Name(Name),
}

impl Row for Expected {
    fn holds(&self, _alloc: Global, database: &PropertyDatabase) -> bool {
        match *self {
            Expected::Character(expected) => answers_of_character(database, expected),
            Expected::Named(expected) => answers_to_name(database, expected),
            Expected::Name(expected) => answers_with_name(database, expected),
        }
    }
}

const ANSWERS: &[Expected] = &[
    Expected::Character(Character::Category('a', Ok(GeneralCategory::LowercaseLetter))),
    Expected::Character(Character::Category('\u{10FFFF}', Ok(GeneralCategory::Unassigned))),
    Expected::Character(Character::Script('\u{3042}', Ok(20))),
    Expected::Character(Character::Class('\u{301}', Ok(230))),
    Expected::Character(Character::HexDigit('f', Ok(true))),
    Expected::Character(Character::HexDigit('g', Ok(false))),
    Expected::Character(Character::Emoji('\u{231A}', Ok(true))),
    Expected::Character(Character::Emoji('\u{A9}', Ok(false))),
    Expected::Character(Character::EmojiText("\u{A9}\u{FE0F}", Ok(true))),
    Expected::Character(Character::EmojiText("\u{231A}", Ok(true))),
    Expected::Character(Character::EmojiText("\u{A9}", Ok(false))),
    Expected::Named(Named::Script("la-TN", Ok(Some(Known::Latin)))),
    Expected::Named(Named::Script("Thai", Ok(None))),
    Expected::Named(Named::ScriptByBytes(b"LATIN", Ok(Some(Known::Latin)))),
    Expected::Named(Named::ScriptByBytes(b"\xFF", Ok(None))),
    Expected::Named(Named::Class("above", 230)),
    Expected::Named(Named::Subtag("Latn", Ok(Known::Latin))),
    Expected::Named(Named::Subtag("Thai", Ok(Known::Unknown))),
    Expected::Name(Name::Long(Known::Latin, Some("Latin"))),
    Expected::Name(Name::Long(Known::Thai, None)),
    Expected::Name(Name::Short(Known::Latin, Some("Latn"))),
    Expected::Name(Name::Short(Known::Thai, None)),
    Expected::Name(Name::Subtag(Known::Latin, Ok("Latn"))),
    Expected::Name(Name::Subtag(Known::Thai, Ok("Zzzz"))),
];

#[test]
fn each_function_answers_over_tables_of_every_kind(rt: HostRuntime) {
    assert_rows(&rt, EVERY_KIND, ANSWERS);
}

const ABSENT: &[Expected] = &[
    Expected::Character(Character::Category('a', Err(Table::Categories))),
    Expected::Character(Character::Script('a', Err(Table::Scripts))),
    Expected::Character(Character::HexDigit('f', Err(Table::HexDigits))),
    Expected::Character(Character::Emoji('\u{231A}', Err(Table::Emoji))),
    Expected::Character(Character::EmojiText("\u{231A}", Err(Table::Emoji))),
    Expected::Named(Named::Script("Latn", Err(Table::NamesOfScripts))),
    Expected::Named(Named::ScriptByBytes(b"Latn", Err(Table::NamesOfScripts))),
    Expected::Named(Named::Category("Lu", Err(Table::NamesOfCategories))),
    Expected::Named(Named::Subtag("Latn", Err(Table::NamesOfScripts))),
    Expected::Name(Name::NoLong(Known::Latin)),
    Expected::Name(Name::NoShort(Known::Latin)),
    Expected::Name(Name::Subtag(Known::Latin, Err(Table::ShortNames))),
];

#[test]
fn each_function_names_the_table_that_is_absent(rt: HostRuntime) {
    assert_rows(&rt, EMPTY, ABSENT);
}
