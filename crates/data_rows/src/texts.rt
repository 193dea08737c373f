//! Tables of long and short names: names by their values.
use crate::fixtures::{
    Faulty, Map, Row, assert_equal, assert_faults, assert_rows, is_named_in_copy, name_in, table_of,
};
use cp_invlist::NoMemory;
use prop_data::{
    MapTable, PropertyDatabase, PropertyEnumToValueNameLinearMap, PropertyEnumToValueNameLookup,
    TableErrorKind,
};
use prop_names::NamesByNumber;
use row_fixtures::EVERY_KIND;
use std::alloc::{AllocError, Global};

/// The table that is asked.
#[derive(Clone, Copy)]
enum Table {
    Long(Map),
    Short(Map),
    LongClasses,
    ShortClasses,
    Subtags,
}

/// What is expected of the tables of long and short names.
#[derive(Clone, Copy)]
enum Expected {
    /// A table, a number and the name of the value with this number.
    Named(Table, u32, Option<&'static str>),
    /// Whether the table is there.
    Kept(Table, bool),
    /// The number of a script, and its subtag.
    Subtag(u32, Option<&'static str>),
    /// The number of a script, and its name in a copy of the names of scripts.
    CopiedScript(Global, u32, &'static str),
    /// The number of a class, and its name in a copy of the names of classes.
    CopiedClass(Global, u32, &'static str),
    /// The number of a script, and its subtag in a copy of the subtags.
    CopiedSubtag(Global, u32, &'static str),
}

/// The name of the value.
fn name_of(database: &PropertyDatabase, table: Table, number: u32) -> Option<&str> {
    match table {
        Table::Long(map) => name_in(database.long_linear(table_of(map)), number),
        Table::Short(map) => name_in(database.short_linear(table_of(map)), number),
        Table::LongClasses => name_in(database.long_ccc(), number),
        Table::ShortClasses => name_in(database.short_ccc(), number),
        Table::Subtags => name_in(database.short_script(), number),
    }
}

/// Whether the table is there.
fn has_table(database: &PropertyDatabase, table: Table) -> bool {
    match table {
        Table::Long(map) => database.long_linear(table_of(map)).is_some(),
        Table::Short(map) => database.short_linear(table_of(map)).is_some(),
        Table::LongClasses => database.long_ccc().is_some(),
        Table::ShortClasses => database.short_ccc().is_some(),
        Table::Subtags => database.short_script().is_some(),
    }
}

/// Whether the script has this subtag.
fn has_subtag(database: &PropertyDatabase, number: u32, expected: Option<&str>) -> bool {
    let Some(table) = database.short_script() else {
        return false;
    };
    match (table.get_script(number), expected) {
        (Some(subtag), Some(text)) => subtag.as_str() == text,
        (found, expected) => found.is_none() && expected.is_none(),
    }
}

impl Row for Expected {
    fn holds(&self, database: &PropertyDatabase) -> bool {
        match *self {
            Expected::Named(table, number, expected) => name_of(database, table, number)
                == expected,
            Expected::Kept(table, is_there) => has_table(database, table) == is_there,
            Expected::Subtag(number, expected) => has_subtag(database, number, expected),
            Expected::CopiedScript(alloc, number, name) => {
                let table = database.long_linear(MapTable::SCRIPT);
                is_named_in_copy(alloc, table, number, name)
            }
            Expected::CopiedClass(alloc, number, name) => {
                is_named_in_copy(alloc, database.long_ccc(), number, name)
            }
            Expected::CopiedSubtag(alloc, number, name) => {
                is_named_in_copy(alloc, database.short_script(), number, name)
            }
        }
    }
}

const NAMES: &str = "long Script\n25 Latin\n0 Common\nlong Canonical_Combining_Class\n230 Above\n\
    short Script\n25 lATN\nshort Canonical_Combining_Class\n230 A\nshort Block\n65535 X-y\nend";

const NAMED: &[Expected] = &[
    Expected::Named(Table::Long(Map::Script), 25, Some("Latin")),
    Expected::Named(Table::Long(Map::Script), 0, Some("Common")),
    Expected::Named(Table::Long(Map::Script), 1, None),
    Expected::Named(Table::Long(Map::Script), 65561, None),
    Expected::Named(Table::LongClasses, 230, Some("Above")),
    Expected::Named(Table::LongClasses, 0, None),
    Expected::Named(Table::Subtags, 25, Some("Latn")),
    Expected::Named(Table::Subtags, 38, None),
    Expected::Named(Table::ShortClasses, 230, Some("A")),
    Expected::Named(Table::Short(Map::Block), 65535, Some("X-y")),
];

#[test]
fn long_and_short_names_are_found(rt: HostRuntime) {
    assert_rows(&rt, rt.alloc(), NAMES, NAMED);
}

const EVERY_NAME: &[Expected] = &[
    Expected::Named(Table::Long(Map::Script), 25, Some("Latin")),
    Expected::Named(Table::Subtags, 25, Some("Latn")),
    Expected::Named(Table::Subtags, 20, None),
    Expected::Named(Table::LongClasses, 230, None),
];

#[test]
fn long_and_short_names_of_a_text_of_every_kind_are_found(rt: HostRuntime) {
    assert_rows(&rt, rt.alloc(), EVERY_KIND, EVERY_NAME);
}

const KEPT: &[Expected] = &[
    Expected::Kept(Table::Long(Map::Script), true),
    Expected::Kept(Table::Short(Map::Script), false),
    Expected::Kept(Table::Long(Map::Class), false),
    Expected::Kept(Table::Short(Map::Class), false),
    Expected::Kept(Table::Long(Map::Block), false),
    Expected::Kept(Table::Short(Map::Block), true),
    Expected::Kept(Table::LongClasses, true),
    Expected::Kept(Table::ShortClasses, true),
    Expected::Kept(Table::Subtags, true),
];

/// The same tables, of which a text of `end` alone has none.
const NOT_KEPT: &[Expected] = &[
    Expected::Kept(Table::Long(Map::Script), false),
    Expected::Kept(Table::Short(Map::Script), false),
    Expected::Kept(Table::Long(Map::Class), false),
    Expected::Kept(Table::Short(Map::Class), false),
    Expected::Kept(Table::Long(Map::Block), false),
    Expected::Kept(Table::Short(Map::Block), false),
    Expected::Kept(Table::LongClasses, false),
    Expected::Kept(Table::ShortClasses, false),
    Expected::Kept(Table::Subtags, false),
];

#[test]
fn each_table_is_kept_in_one_kind(rt: HostRuntime) {
    assert_rows(&rt, rt.alloc(), NAMES, KEPT);
    assert_rows(&rt, rt.alloc(), "end", NOT_KEPT);
}

const SUBTAGS: &[Expected] = &[
    Expected::Subtag(25, Some("Latn")),
    Expected::Subtag(38, None),
];

#[test]
fn subtags_are_given_as_such(rt: HostRuntime) {
    assert_rows(&rt, rt.alloc(), NAMES, SUBTAGS);
}

#[test]
fn a_copy_of_long_names_answers_alike(rt: HostRuntime) {
    let rows = [Expected::CopiedScript(rt.alloc(), 25, "Latin")];
    assert_rows(&rt, rt.alloc(), NAMES, &rows);
}

#[test]
fn a_copy_of_classes_answers_alike(rt: HostRuntime) {
    let rows = [Expected::CopiedClass(rt.alloc(), 230, "Above")];
    assert_rows(&rt, rt.alloc(), NAMES, &rows);
}

#[test]
fn a_copy_of_subtags_answers_alike(rt: HostRuntime) {
    let rows = [Expected::CopiedSubtag(rt.alloc(), 25, "Latn")];
    assert_rows(&rt, rt.alloc(), NAMES, &rows);
}

/// A list of names, the second of which is no empty text.
fn listed(alloc: Global) -> Result<PropertyEnumToValueNameLinearMap, AllocError> {
    let name = String::from_str(alloc, "a")?;
    let names = Vec::from_array(alloc, [String::new(alloc), name])?;
    Ok(PropertyEnumToValueNameLinearMap::from_names(names))
}

/// The first number that has another name in the list.
fn wrong_in(names: &PropertyEnumToValueNameLinearMap) -> Option<u32> {
    for (number, name) in [(0, None), (1, Some("a")), (2, None), (u32::MAX, None)] {
        if names.get(number) != name {
            return Some(number);
        }
    }
    None
}

/// The first number that has another name in the list or in a copy, if memory is left for them.
fn wrong_in_list(alloc: Global) -> Result<Option<u32>, NoMemory> {
    let names = listed(alloc)?;
    let copy = names.copy(alloc)?;
    Ok(wrong_in(&names).or(wrong_in(&copy)))
}

#[test]
fn names_are_listed_by_their_numbers(rt: HostRuntime) {
    assert_equal(&rt, wrong_in_list(rt.alloc()), Ok(None));
}

/// The names of two numbers, of which one was given anew.
fn numbered(alloc: Global) -> Result<NamesByNumber, NoMemory> {
    let mut names = NamesByNumber::new(alloc);
    for (number, name) in [(7, "g"), (u32::MAX, "x"), (7, "G")] {
        names.insert(number, String::from_str(alloc, name)?)?;
    }
    Ok(names)
}

/// The first number that has another name among them.
fn wrong_among(names: &NamesByNumber) -> Option<u32> {
    for (number, name) in [(7, Some("G")), (8, None), (u32::MAX, Some("x"))] {
        if names.get(number) != name || names.contains_key(number) != name.is_some() {
            return Some(number);
        }
    }
    None
}

/// The first number that has another name among them or in a copy.
fn wrong_among_copied(alloc: Global) -> Result<Option<u32>, NoMemory> {
    let names = numbered(alloc)?;
    let copy = names.copy()?;
    Ok(wrong_among(&names).or(wrong_among(&copy)))
}

#[test]
fn names_are_found_by_their_numbers(rt: HostRuntime) {
    assert_equal(&rt, wrong_among_copied(rt.alloc()), Ok(None));
}

/// Names that are none, a second name of a value, and numbers of no value.
const FAULTS: &[Faulty] = &[
    ("long", 1, TableErrorKind::UnknownLine),
    ("short Script 0", 1, TableErrorKind::UnknownLine),
    ("long Script\n25", 2, TableErrorKind::UnknownLine),
    ("long Bidi_Mirroring_Glyph", 1, TableErrorKind::UnknownTable),
    (
        "short General_Category_Mask",
        1,
        TableErrorKind::UnknownTable,
    ),
    ("long Script\nlong Script", 2, TableErrorKind::TableTwice),
    ("short Script\nshort Script", 2, TableErrorKind::TableTwice),
    (
        "long Canonical_Combining_Class\nset Dash\nlong Canonical_Combining_Class",
        3,
        TableErrorKind::TableTwice,
    ),
    ("end\nlong Script", 2, TableErrorKind::AfterEnd),
    ("short Script\n2A Latn", 2, TableErrorKind::BadNumber),
    (
        "short Script\n65536 Latin",
        2,
        TableErrorKind::ValueOutOfType,
    ),
    ("long Script\n25 La.tin", 2, TableErrorKind::BadName),
    ("short Script\n25 Latin", 2, TableErrorKind::BadName),
    ("short Script\n25 La7n", 2, TableErrorKind::BadName),
    (
        "long Script\n25 Latin\n25 Latin",
        3,
        TableErrorKind::NamesClash,
    ),
    (
        "short Script\n25 Latn\n20 Hira\n25 Latn",
        4,
        TableErrorKind::NamesClash,
    ),
];

#[test]
fn faults_of_long_and_short_names_are_told(rt: HostRuntime) {
    assert_faults(&rt, rt.alloc(), FAULTS);
}
