//! The names of the values of properties: values by their names, and names by their values.
ghost use Rattle.std.specs.Prelude.{◌≡◌, ℕ, Some, IfOk, IfSome, option_and_then};
ghost use Rattle.std.specs.Option.{option_copied};
ghost use Rattle.prop_data.specs.Database.{names_of, long_of, short_of};
ghost use Rattle.prop_names.specs.Folding.{LacksSpacesAndHyphens};
ghost use Rattle.prop_names.specs.Names.{value_of_name, value_of_query};
ghost use Rattle.prop_names.specs.ValueNameTables.{subtag_text};
ghost use Rattle.prop_query.specs.Answers.{NeedsTable, NeedsTableAndMemory};
ghost use Rattle.prop_query.specs.Borrowed.{names_in, long_in, long_borrowed, short_in, short_borrowed, name_in};

use crate::absent::absent;
use cp_trie::TrieValue;
use prop_data::{DataError, NamedEnumeratedProperty, PropertyDatabase, TableName};
use prop_names::{PropertyEnumToValueNameLookup, PropertyValueNameToEnumMap};
use prop_values::{ParseableEnumeratedProperty, Script, Subtag};
use std::alloc::Global;
use std::marker::{Model, PhantomData};

/// The values of a property by their names. A contract sees it as the names with the numbers of their values.
#[derive(Drop)]
pub struct PropertyParser<T> {
    names: PropertyValueNameToEnumMap,
    value: PhantomData<T>,
}

impl<T> Model for PropertyParser<T> {
    ghost use Rattle.prop_names.specs.Names.{Names};

    ghost Value = { Names };

    ghost view = { λ s. s.names };
}

/// The values of a property by their names, which are borrowed.
#[derive(Clone, Copy)]
pub struct PropertyParserBorrowed<'a, T> {
    names: &'a PropertyValueNameToEnumMap,
    value: PhantomData<T>,
}

impl<T: ParseableEnumeratedProperty> PropertyParser<T> {
    /// The names of a property's values, which the database lends. `Absent` names their table where the database has
    /// none.
    pub fn new<'a>(
        database: &'a PropertyDatabase,
    ) -> Result<PropertyParserBorrowed<'a, T>, DataError>
        ensures names { IfOk result (λ parser.
            names_of database.now T.NAMES ≡ Some (names_in parser)) }
        ensures needs { NeedsTable (TableName.Names T.NAMES)
            (names_of database.now T.NAMES) result }
    {
        let names = database
            .names(T::NAMES)
            .ok_or(absent(TableName::Names(T::NAMES)))?;
        Ok(PropertyParserBorrowed {
            names,
            value: PhantomData,
        })
    }

    /// A copy of the names of a property's values. `Absent` names their table where the database has none, and
    /// `NoMemory` says that a request for memory was refused.
    pub fn try_new_unstable(
        alloc: Global,
        database: &PropertyDatabase,
    ) -> Result<PropertyParser<T>, DataError>
        ensures names { IfOk result (λ parser. names_of database.now T.NAMES ≡ Some parser) }
        ensures needs { NeedsTableAndMemory (TableName.Names T.NAMES)
            (names_of database.now T.NAMES) result }
    {
        let names = database
            .names(T::NAMES)
            .ok_or(absent(TableName::Names(T::NAMES)))?;
        Ok(PropertyParser {
            names: names.copy(alloc)?,
            value: PhantomData,
        })
    }
}

impl<T> PropertyParser<T> {
    /// The same names, lent.
    pub fn as_borrowed(&self) -> PropertyParserBorrowed<'_, T>
        ensures { names_in result ≡ self.now }
    {
        PropertyParserBorrowed {
            names: &self.names,
            value: PhantomData,
        }
    }

    /// The same names with the numbers of the values.
    pub fn erase(self) -> PropertyParser<u16>
        ensures { result ≡ self }
    {
        PropertyParser {
            names: self.names,
            value: PhantomData,
        }
    }
}

impl<'a, T: ParseableEnumeratedProperty> PropertyParserBorrowed<'a, T> {
    /// As `PropertyParser::new`.
    pub fn new(database: &'a PropertyDatabase) -> Result<PropertyParserBorrowed<'a, T>, DataError>
        ensures names { IfOk result (λ parser.
            names_of database.now T.NAMES ≡ Some (names_in parser)) }
        ensures needs { NeedsTable (TableName.Names T.NAMES)
            (names_of database.now T.NAMES) result }
    {
        PropertyParser::new(database)
    }
}

impl<T: TrieValue> PropertyParserBorrowed<'_, T> {
    /// The number of the value with this name, compared byte for byte. A name without white space and hyphens that is
    /// found so is found loosely too, with the same value.
    pub fn get_strict_u16(self, name: &str) -> Option<u16>
        ensures value { result ≡ value_of_name (names_in self.entry) name.now }
        ensures loosely { LacksSpacesAndHyphens name.now →
            IfSome result (λ value. value_of_query (names_in self.entry) name.now ≡ Some value) }
    {
        self.get_strict_u16_utf8(name.as_bytes())
    }

    /// The number of the value with this name, compared byte for byte. A name without white space and hyphens that is
    /// found so is found loosely too, with the same value.
    pub fn get_strict_u16_utf8(self, name: &[u8]) -> Option<u16>
        ensures value { result ≡ value_of_name (names_in self.entry) name.now }
        ensures loosely { LacksSpacesAndHyphens name.now →
            IfSome result (λ value. value_of_query (names_in self.entry) name.now ≡ Some value) }
    {
        self.names.get_strict_u16(name)
    }

    /// The value with this name, compared byte for byte. It is none too where the number of the name is that of no
    /// value.
    pub fn get_strict(self, name: &str) -> Option<T>
        ensures { result ≡ option_and_then T.unpacked (value_of_name (names_in self.entry) name.now) }
    {
        self.get_strict_utf8(name.as_bytes())
    }

    /// The value with this name, compared byte for byte. It is none too where the number of the name is that of no
    /// value.
    pub fn get_strict_utf8(self, name: &[u8]) -> Option<T>
        ensures { result ≡ option_and_then T.unpacked (value_of_name (names_in self.entry) name.now) }
    {
        value_of_number(self.get_strict_u16_utf8(name)?)
    }

    /// The number of the value of the least name that folds as this one (UAX 44, section 5.9): in lower case and
    /// without U+0009 to U+000D, U+0020, `_` and hyphens. A name of the table loses its `_` alone, so that one with a hyphen is
    /// never found so. A prefix `is` stays.
    pub fn get_loose_u16(self, name: &str) -> Option<u16>
        ensures value { result ≡ value_of_query (names_in self.entry) name.now }
        ensures strictly { LacksSpacesAndHyphens name.now →
            IfSome (value_of_name (names_in self.entry) name.now) (λ value. result ≡ Some value) }
    {
        self.get_loose_u16_utf8(name.as_bytes())
    }

    /// The number of the value of the least name that folds as this one, as `get_loose_u16`.
    pub fn get_loose_u16_utf8(self, name: &[u8]) -> Option<u16>
        ensures value { result ≡ value_of_query (names_in self.entry) name.now }
        ensures strictly { LacksSpacesAndHyphens name.now →
            IfSome (value_of_name (names_in self.entry) name.now) (λ value. result ≡ Some value) }
    {
        self.names.get_loose_u16(name)
    }

    /// The value of the least name that folds as this one, as `get_loose_u16`. It is none too where the number of the
    /// name is that of no value.
    pub fn get_loose(self, name: &str) -> Option<T>
        ensures { result ≡ option_and_then T.unpacked (value_of_query (names_in self.entry) name.now) }
    {
        self.get_loose_utf8(name.as_bytes())
    }

    /// The value of the least name that folds as this one, as `get_loose_u16`. It is none too where the number of the
    /// name is that of no value.
    pub fn get_loose_utf8(self, name: &[u8]) -> Option<T>
        ensures { result ≡ option_and_then T.unpacked (value_of_query (names_in self.entry) name.now) }
    {
        value_of_number(self.get_loose_u16_utf8(name)?)
    }
}

/// The value of a number, if it is that of one.
fn value_of_number<T: TrieValue>(number: u16) -> Option<T>
    ensures { result ≡ T.unpacked number }
{
    T::try_from_u32(u32::from(number)).ok()
}

/// The long names of a property's values.
#[derive(Drop)]
pub struct PropertyNamesLong<T: NamedEnumeratedProperty> {
    names: T::DataStructLong,
}

/// The long names of a property's values, which are borrowed.
#[derive(Clone, Copy)]
pub struct PropertyNamesLongBorrowed<'a, T: NamedEnumeratedProperty> {
    names: &'a T::DataStructLong,
}

impl<T: NamedEnumeratedProperty> PropertyNamesLong<T> {
    /// The long names of a property's values, which the database lends. `Absent` names their table where the database
    /// has none.
    pub fn new<'a>(
        database: &'a PropertyDatabase,
    ) -> Result<PropertyNamesLongBorrowed<'a, T>, DataError>
        ensures names { IfOk result (λ names. (n : ℕ) →
            name_in (long_of database.now T.TABLE) n
            ≡ T.DataStructLong.name_of (long_borrowed names) n) }
        ensures needs { NeedsTable (TableName.Long T.TABLE) (long_of database.now T.TABLE) result }
    {
        let names = T::long_table(database).ok_or(absent(TableName::Long(T::TABLE)))?;
        Ok(PropertyNamesLongBorrowed { names })
    }

    /// A copy of the long names of a property's values. `Absent` names their table where the database has none, and
    /// `NoMemory` says that a request for memory was refused.
    pub fn try_new_unstable(
        alloc: Global,
        database: &PropertyDatabase,
    ) -> Result<PropertyNamesLong<T>, DataError>
        ensures names { IfOk result (λ names. (n : ℕ) →
            name_in (long_of database.now T.TABLE) n
            ≡ T.DataStructLong.name_of (long_in names) n) }
        ensures needs { NeedsTableAndMemory (TableName.Long T.TABLE)
            (long_of database.now T.TABLE) result }
    {
        let names = T::long_table(database).ok_or(absent(TableName::Long(T::TABLE)))?;
        Ok(PropertyNamesLong {
            names: names.copy(alloc)?,
        })
    }

    /// The same names, lent.
    pub fn as_borrowed(&self) -> PropertyNamesLongBorrowed<'_, T>
        ensures { long_borrowed result ≡ long_in self.now }
    {
        PropertyNamesLongBorrowed { names: &self.names }
    }
}

impl<'a, T: NamedEnumeratedProperty> PropertyNamesLongBorrowed<'a, T> {
    /// As `PropertyNamesLong::new`.
    pub fn new(
        database: &'a PropertyDatabase,
    ) -> Result<PropertyNamesLongBorrowed<'a, T>, DataError>
        ensures names { IfOk result (λ names. (n : ℕ) →
            name_in (long_of database.now T.TABLE) n
            ≡ T.DataStructLong.name_of (long_borrowed names) n) }
        ensures needs { NeedsTable (TableName.Long T.TABLE) (long_of database.now T.TABLE) result }
    {
        PropertyNamesLong::new(database)
    }

    /// The long name of the value, if it has one.
    pub fn get(self, property: T) -> Option<&'a str>
        ensures { option_copied result
            ≡ T.DataStructLong.name_of (long_borrowed self.entry) (T.packed property) }
    {
        self.names.get(property.to_u32())
    }
}

/// The short names of a property's values.
#[derive(Drop)]
pub struct PropertyNamesShort<T: NamedEnumeratedProperty> {
    names: T::DataStructShort,
}

/// The short names of a property's values, which are borrowed.
#[derive(Clone, Copy)]
pub struct PropertyNamesShortBorrowed<'a, T: NamedEnumeratedProperty> {
    names: &'a T::DataStructShort,
}

impl<T: NamedEnumeratedProperty> PropertyNamesShort<T> {
    /// The short names of a property's values, which the database lends. `Absent` names their table where the
    /// database has none.
    pub fn new<'a>(
        database: &'a PropertyDatabase,
    ) -> Result<PropertyNamesShortBorrowed<'a, T>, DataError>
        ensures names { IfOk result (λ names. (n : ℕ) →
            name_in (short_of database.now T.TABLE) n
            ≡ T.DataStructShort.name_of (short_borrowed names) n) }
        ensures needs { NeedsTable (TableName.Short T.TABLE)
            (short_of database.now T.TABLE) result }
    {
        let names = T::short_table(database).ok_or(absent(TableName::Short(T::TABLE)))?;
        Ok(PropertyNamesShortBorrowed { names })
    }

    /// A copy of the short names of a property's values. `Absent` names their table where the database has none, and
    /// `NoMemory` says that a request for memory was refused.
    pub fn try_new_unstable(
        alloc: Global,
        database: &PropertyDatabase,
    ) -> Result<PropertyNamesShort<T>, DataError>
        ensures names { IfOk result (λ names. (n : ℕ) →
            name_in (short_of database.now T.TABLE) n
            ≡ T.DataStructShort.name_of (short_in names) n) }
        ensures needs { NeedsTableAndMemory (TableName.Short T.TABLE)
            (short_of database.now T.TABLE) result }
    {
        let names = T::short_table(database).ok_or(absent(TableName::Short(T::TABLE)))?;
        Ok(PropertyNamesShort {
            names: names.copy(alloc)?,
        })
    }

    /// The same names, lent.
    pub fn as_borrowed(&self) -> PropertyNamesShortBorrowed<'_, T>
        ensures { short_borrowed result ≡ short_in self.now }
    {
        PropertyNamesShortBorrowed { names: &self.names }
    }
}

impl<'a, T: NamedEnumeratedProperty> PropertyNamesShortBorrowed<'a, T> {
    /// As `PropertyNamesShort::new`.
    pub fn new(
        database: &'a PropertyDatabase,
    ) -> Result<PropertyNamesShortBorrowed<'a, T>, DataError>
        ensures names { IfOk result (λ names. (n : ℕ) →
            name_in (short_of database.now T.TABLE) n
            ≡ T.DataStructShort.name_of (short_borrowed names) n) }
        ensures needs { NeedsTable (TableName.Short T.TABLE)
            (short_of database.now T.TABLE) result }
    {
        PropertyNamesShort::new(database)
    }

    /// The short name of the value, if it has one.
    pub fn get(self, property: T) -> Option<&'a str>
        ensures { option_copied result
            ≡ T.DataStructShort.name_of (short_borrowed self.entry) (T.packed property) }
    {
        self.names.get(property.to_u32())
    }
}

impl PropertyNamesShortBorrowed<'_, Script> {
    /// The subtag of the script (RFC 5646, section 2.2.3), if it has a short name.
    pub fn get_locale_script(self, property: Script) -> Option<Subtag>
        ensures { result
            ≡ subtag_text (short_borrowed self.entry) property }
    {
        self.names.get_script(property.to_u32())
    }
}
