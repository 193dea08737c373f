//! Values by their names, and names by their values.
use crate::fixtures::{EMPTY, Known, Row, assert_rows, lacks, script_of};
use prop_data::{
    MapTable, NamesTable, PropertyDatabase, PropertyEnumToValueNameLinearMap,
    PropertyEnumToValueNameLookup, TableName,
};
use prop_query::{
    PropertyNamesLong, PropertyNamesLongBorrowed, PropertyNamesShort, PropertyNamesShortBorrowed,
    PropertyParser, PropertyParserBorrowed,
};
use prop_values::{CanonicalCombiningClass, Script, Subtag};
use row_fixtures::EVERY_KIND;
use std::alloc::Global;

/// A name, which is asked for as a text and by its bytes, and the number of the script that has it.
#[derive(Clone, Copy)]
enum Named {
    /// The name is compared byte for byte.
    Strictly(&'static str, Option<u16>),
    Loosely(&'static str, Option<u16>),
}

/// Whether the name has the number.
fn has_number(parser: PropertyParserBorrowed<'_, Script>, named: Named) -> bool {
    match named {
        Named::Strictly(name, number) => {
            parser.get_strict_u16(name) == number
                && parser.get_strict_u16_utf8(name.as_bytes()) == number
        }
        Named::Loosely(name, number) => {
            parser.get_loose_u16(name) == number
                && parser.get_loose_u16_utf8(name.as_bytes()) == number
        }
    }
}

/// Whether the name has the script.
fn has_script(parser: PropertyParserBorrowed<'_, Script>, named: Named) -> bool {
    match named {
        Named::Strictly(name, number) => {
            let script = number.map(Script::from_icu4c_value);
            parser.get_strict(name) == script && parser.get_strict_utf8(name.as_bytes()) == script
        }
        Named::Loosely(name, number) => {
            let script = number.map(Script::from_icu4c_value);
            parser.get_loose(name) == script && parser.get_loose_utf8(name.as_bytes()) == script
        }
    }
}

/// Whether the parsers that are lent have the number.
fn lent_have(database: &PropertyDatabase, named: Named) -> bool {
    match (
        PropertyParser::<Script>::new(database),
        PropertyParserBorrowed::<Script>::new(database),
    ) {
        (Ok(parser), Ok(same)) => has_number(parser, named) && has_number(same, named),
        _ => false,
    }
}

/// Whether a copy has the number and the script.
fn copy_has(alloc: Global, database: &PropertyDatabase, named: Named) -> bool {
    match PropertyParser::<Script>::try_new_unstable(alloc, database) {
        Ok(copy) => {
            has_number(copy.as_borrowed(), named) && has_script(copy.as_borrowed(), named)
        }
        Err(_) => false,
    }
}

/// Whether the script has the long name.
fn has_long(
    names: PropertyNamesLongBorrowed<'_, Script>,
    known: Known,
    name: Option<&'static str>,
) -> bool {
    names.get(script_of(known)) == name
}

/// Whether the script has the long name in what is lent.
fn lent_has_long(database: &PropertyDatabase, known: Known, name: Option<&'static str>) -> bool {
    match (
        PropertyNamesLong::<Script>::new(database),
        PropertyNamesLongBorrowed::<Script>::new(database),
    ) {
        (Ok(names), Ok(same)) => has_long(names, known, name) && has_long(same, known, name),
        _ => false,
    }
}

/// Whether the script has the long name in a copy.
fn copy_has_long(
    alloc: Global,
    database: &PropertyDatabase,
    known: Known,
    name: Option<&'static str>,
) -> bool {
    match PropertyNamesLong::<Script>::try_new_unstable(alloc, database) {
        Ok(copy) => has_long(copy.as_borrowed(), known, name),
        Err(_) => false,
    }
}

/// What is expected of the short names.
#[derive(Clone, Copy)]
enum Short {
    Name(Known, Option<&'static str>),
    Subtag(Known, &'static str),
    NoSubtag(Known),
}

/// Whether the script has the short name or the subtag.
fn has_short(names: PropertyNamesShortBorrowed<'_, Script>, expected: Short) -> bool {
    match expected {
        Short::Name(known, name) => names.get(script_of(known)) == name,
        Short::Subtag(known, text) => match names.get_locale_script(script_of(known)) {
            Some(subtag) => Subtag::try_from_str(text) == Some(subtag),
            None => false,
        },
        Short::NoSubtag(known) => names.get_locale_script(script_of(known)).is_none(),
    }
}

/// Whether the script has the short name or the subtag in what is lent.
fn lent_has_short(database: &PropertyDatabase, expected: Short) -> bool {
    match (
        PropertyNamesShort::<Script>::new(database),
        PropertyNamesShortBorrowed::<Script>::new(database),
    ) {
        (Ok(names), Ok(same)) => has_short(names, expected) && has_short(same, expected),
        _ => false,
    }
}

/// Whether the script has the short name or the subtag in a copy.
fn copy_has_short(alloc: Global, database: &PropertyDatabase, expected: Short) -> bool {
    match PropertyNamesShort::<Script>::try_new_unstable(alloc, database) {
        Ok(copy) => has_short(copy.as_borrowed(), expected),
        Err(_) => false,
    }
}

/// What is expected of scripts and their names.
#[derive(Clone, Copy)]
enum Expected {
    Named(Named),
    Long(Known, Option<&'static str>),
    Short(Short),
}

impl Row for Expected {
    fn holds(&self, alloc: Global, database: &PropertyDatabase) -> bool {
        match *self {
            Expected::Named(named) => {
                lent_have(database, named) && copy_has(alloc, database, named)
            }
            Expected::Long(known, name) => lent_has_long(database, known, name)
                && copy_has_long(alloc, database, known, name),
            Expected::Short(expected) => lent_has_short(database, expected)
                && copy_has_short(alloc, database, expected),
        }
    }
}

const ANSWERS: &[Expected] = &[
    Expected::Named(Named::Strictly("Latn", Some(25))),
    Expected::Named(Named::Strictly("latn", None)),
    Expected::Named(Named::Strictly("la-TN", None)),
    Expected::Named(Named::Strictly("LATIN", None)),
    Expected::Named(Named::Strictly("Kana", Some(22))),
    Expected::Named(Named::Strictly("kata kana", None)),
    Expected::Named(Named::Strictly("Thai", None)),
    Expected::Named(Named::Loosely("Latn", Some(25))),
    Expected::Named(Named::Loosely("latn", Some(25))),
    Expected::Named(Named::Loosely("la-TN", Some(25))),
    Expected::Named(Named::Loosely("LATIN", Some(25))),
    Expected::Named(Named::Loosely("Kana", Some(22))),
    Expected::Named(Named::Loosely("kata kana", Some(22))),
    Expected::Named(Named::Loosely("Thai", None)),
    Expected::Long(Known::Latin, Some("Latin")),
    Expected::Long(Known::Thai, None),
    Expected::Short(Short::Name(Known::Latin, Some("Latn"))),
    Expected::Short(Short::Name(Known::Thai, None)),
    Expected::Short(Short::Subtag(Known::Latin, "Latn")),
    Expected::Short(Short::NoSubtag(Known::Thai)),
];

#[test]
fn scripts_have_names_and_names_have_scripts(rt: HostRuntime) {
    assert_rows(&rt, EVERY_KIND, ANSWERS);
}

/// A name, and the number that a parser of numbers finds. It is made of the parser of scripts.
#[derive(Clone, Copy)]
enum Erased {
    Strictly(&'static str, Option<u16>),
    Loosely(&'static str, Option<u16>),
    LooselyByBytes(&'static [u8], Option<u16>),
}

/// Whether the parser finds the number.
fn finds(parser: PropertyParserBorrowed<'_, u16>, expected: Erased) -> bool {
    match expected {
        Erased::Strictly(name, number) => parser.get_strict(name) == number,
        Erased::Loosely(name, number) => parser.get_loose_u16(name) == number,
        Erased::LooselyByBytes(name, number) => parser.get_loose_u16_utf8(name) == number,
    }
}

impl Row for Erased {
    fn holds(&self, alloc: Global, database: &PropertyDatabase) -> bool {
        let Ok(copy) = PropertyParser::<Script>::try_new_unstable(alloc, database) else {
            return false;
        };
        finds(copy.erase().as_borrowed(), *self)
    }
}

const ERASED: &[Erased] = &[
    Erased::Loosely("LATIN", Some(25)),
    Erased::LooselyByBytes(b"LATIN", Some(25)),
    Erased::Strictly("Latn", Some(25)),
    Erased::Strictly("LATN", None),
];

#[test]
fn a_parser_of_numbers_finds_those_of_the_scripts(rt: HostRuntime) {
    assert_rows(&rt, EVERY_KIND, ERASED);
}

/// The number of a combining class and its long name.
#[derive(Clone, Copy)]
struct Class(u8, Option<&'static str>);

impl Row for Class {
    fn holds(&self, alloc: Global, database: &PropertyDatabase) -> bool {
        let Class(number, name) = *self;
        let class = CanonicalCombiningClass::from_icu4c_value(number);
        match PropertyNamesLong::<CanonicalCombiningClass>::try_new_unstable(alloc, database) {
            Ok(copy) => copy.as_borrowed().get(class) == name,
            Err(_) => false,
        }
    }
}

/// Tables of every kind, and long names of combining classes.
fn with_long_names_of_classes(alloc: Global) -> Option<String> {
    let tables = EVERY_KIND.strip_suffix("end\n")?;
    format!(in alloc; "{tables}long Canonical_Combining_Class\n230 Above\nend\n").ok()
}

const CLASSES: &[Class] = &[Class(230, Some("Above")), Class(229, None)];

#[test]
fn a_copy_of_the_names_of_classes_has_them(rt: HostRuntime) {
    let tables = with_long_names_of_classes(rt.alloc());
    assert_rows(&rt, tables.as_deref().unwrap_or(""), CLASSES);
}

/// A call that needs names: of scripts, or short names of combining classes.
#[derive(Clone, Copy)]
enum Absent {
    Parser,
    ParserBorrowed,
    ParserCopy,
    Long,
    LongBorrowed,
    LongCopy,
    Short,
    ShortBorrowed,
    ShortCopy,
}

const NAMES: TableName = TableName::Names(NamesTable::SCRIPT);

const LONG_NAMES: TableName = TableName::Long(MapTable::SCRIPT);

const SHORT_NAMES: TableName = TableName::Short(MapTable::CANONICAL_COMBINING_CLASS);

impl Row for Absent {
    fn holds(&self, alloc: Global, database: &PropertyDatabase) -> bool {
        match *self {
            Absent::Parser => lacks(PropertyParser::<Script>::new(database), NAMES),
            Absent::ParserBorrowed => {
                lacks(PropertyParserBorrowed::<Script>::new(database), NAMES)
            }
            Absent::ParserCopy => lacks(
                PropertyParser::<Script>::try_new_unstable(alloc, database),
                NAMES,
            ),
            Absent::Long => lacks(PropertyNamesLong::<Script>::new(database), LONG_NAMES),
            Absent::LongBorrowed => lacks(
                PropertyNamesLongBorrowed::<Script>::new(database),
                LONG_NAMES,
            ),
            Absent::LongCopy => lacks(
                PropertyNamesLong::<Script>::try_new_unstable(alloc, database),
                LONG_NAMES,
            ),
            Absent::Short => lacks(
                PropertyNamesShort::<CanonicalCombiningClass>::new(database),
                SHORT_NAMES,
            ),
            Absent::ShortBorrowed => lacks(
                PropertyNamesShortBorrowed::<CanonicalCombiningClass>::new(database),
                SHORT_NAMES,
            ),
            Absent::ShortCopy => lacks(
                PropertyNamesShort::<CanonicalCombiningClass>::try_new_unstable(alloc, database),
                SHORT_NAMES,
            ),
        }
    }
}

const ABSENT: &[Absent] = &[
    Absent::Parser,
    Absent::ParserBorrowed,
    Absent::ParserCopy,
    Absent::Long,
    Absent::LongBorrowed,
    Absent::LongCopy,
    Absent::Short,
    Absent::ShortBorrowed,
    Absent::ShortCopy,
];

#[test]
fn a_database_without_names_says_so(rt: HostRuntime) {
    assert_rows(&rt, EMPTY, ABSENT);
}

/// Whether a value has no name in a list where its name is the empty text.
fn is_unnamed(alloc: Global) -> bool {
    match Vec::from_array(alloc, [String::new(alloc)]) {
        Ok(names) => PropertyEnumToValueNameLinearMap::from_names(names)
            .get(0)
            .is_none(),
        Err(_) => false,
    }
}

#[test]
fn an_empty_text_is_no_name(rt: HostRuntime) {
    assert!(rt; is_unnamed(rt.alloc()));
}
