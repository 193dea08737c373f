//! The tables of the names of a property's values, by the property's type.
use crate::fixtures::{Row, assert_rows, is_named_in_copy, name_in};
use cp_trie::TrieValue;
use prop_data::{NamedEnumeratedProperty, PropertyDatabase};
use prop_values::{BidiClass, CanonicalCombiningClass, GeneralCategory, Script};
use std::alloc::Global;

/// Long and short names of four properties, with a name of each kind for another value.
const NAMES: &str = "long Script\n17 Han\n25 Latin\nshort Script\n17 hani\n25 LATN\n\
    long Canonical_Combining_Class\n0 Not_Reordered\n230 Above\n\
    short Canonical_Combining_Class\n0 NR\n230 A\n\
    long General_Category\n1 Uppercase_Letter\n2 Lowercase_Letter\n\
    short General_Category\n1 Lu\n2 Ll\n\
    long Bidi_Class\n0 Left_To_Right\n5 Arabic_Number\nshort Bidi_Class\n0 L\n5 AN\nend";

/// Whether the tables of long and of short names are there.
fn are_there<T: NamedEnumeratedProperty>(
    database: &PropertyDatabase,
    has_long: bool,
    has_short: bool,
) -> bool {
    T::long_table(database).is_some() == has_long && T::short_table(database).is_some() == has_short
}

/// A value of one of four properties.
#[derive(Clone, Copy)]
enum Value {
    Script(Script),
    Class(CanonicalCombiningClass),
    Category(GeneralCategory),
    BidiClass(BidiClass),
}

/// A value with its long and its short name.
type Named = (Value, Option<&'static str>, Option<&'static str>);

/// Whether the value has these names.
fn is_named<T: NamedEnumeratedProperty + Copy>(
    database: &PropertyDatabase,
    value: T,
    long: Option<&str>,
    short: Option<&str>,
) -> bool {
    let number = value.to_u32();
    name_in(T::long_table(database), number) == long
        && name_in(T::short_table(database), number) == short
}

impl Row for Named {
    fn holds(&self, database: &PropertyDatabase) -> bool {
        let (value, long, short) = *self;
        match value {
            Value::Script(value) => is_named(database, value, long, short),
            Value::Class(value) => is_named(database, value, long, short),
            Value::Category(value) => is_named(database, value, long, short),
            Value::BidiClass(value) => is_named(database, value, long, short),
        }
    }
}

#[test]
fn a_value_is_named_by_the_tables_of_its_type(rt: HostRuntime) {
    let rows: [Named; 5] = [
        (Value::Script(Script::Latin), Some("Latin"), Some("Latn")),
        (
            Value::Class(CanonicalCombiningClass(230)),
            Some("Above"),
            Some("A"),
        ),
        (
            Value::Category(GeneralCategory::UppercaseLetter),
            Some("Uppercase_Letter"),
            Some("Lu"),
        ),
        (
            Value::BidiClass(BidiClass::ArabicNumber),
            Some("Arabic_Number"),
            Some("AN"),
        ),
        (Value::BidiClass(BidiClass::WhiteSpace), None, None),
    ];
    assert_rows(&rt, rt.alloc(), NAMES, &rows);
}

/// What copies of the tables of two types are expected to have.
#[derive(Clone, Copy)]
enum Copied {
    Class(Global, CanonicalCombiningClass, &'static str),
    Script(Global, Script, &'static str),
}

impl Row for Copied {
    fn holds(&self, database: &PropertyDatabase) -> bool {
        match *self {
            Copied::Class(alloc, value, name) => {
                let table = CanonicalCombiningClass::long_table(database);
                is_named_in_copy(alloc, table, value.to_u32(), name)
            }
            Copied::Script(alloc, value, name) => {
                let table = Script::long_table(database);
                is_named_in_copy(alloc, table, value.to_u32(), name)
            }
        }
    }
}

#[test]
fn the_tables_of_a_type_are_copied(rt: HostRuntime) {
    let rows = [
        Copied::Class(rt.alloc(), CanonicalCombiningClass(230), "Above"),
        Copied::Script(rt.alloc(), Script::Latin, "Latin"),
    ];
    assert_rows(&rt, rt.alloc(), NAMES, &rows);
}

/// A type of property, and whether it has a table of long and of short names.
#[derive(Clone, Copy)]
enum Kept {
    Script(bool, bool),
    Class(bool, bool),
    Category(bool, bool),
    BidiClass(bool, bool),
}

impl Row for Kept {
    fn holds(&self, database: &PropertyDatabase) -> bool {
        match *self {
            Kept::Script(long, short) => are_there::<Script>(database, long, short),
            Kept::Class(long, short) => are_there::<CanonicalCombiningClass>(database, long, short),
            Kept::Category(long, short) => are_there::<GeneralCategory>(database, long, short),
            Kept::BidiClass(long, short) => are_there::<BidiClass>(database, long, short),
        }
    }
}

const KEPT: &[Kept] = &[
    Kept::Script(true, false),
    Kept::Class(false, true),
    Kept::Category(true, false),
    Kept::BidiClass(false, false),
];

#[test]
fn a_type_has_no_table_that_the_text_has_not(rt: HostRuntime) {
    let text = "long Script\nshort Canonical_Combining_Class\nlong General_Category\nend";
    assert_rows(&rt, rt.alloc(), text, KEPT);
}
