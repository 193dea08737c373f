//! Sources: the code points that properties ask for.
ghost use Rattle.std.specs.Prelude.{◌≡◌, Some, IfOk, option_map};
ghost use Rattle.cp_invlist.specs.InversionList.{contains};
ghost use Rattle.prop_data.specs.Database.{tables_of};
ghost use Rattle.uset_resolve.specs.declared.resolver.Origin.TheVariants.{Group, Extension};
ghost use Rattle.uset_resolve.specs.Keys.{Asked};
ghost use Rattle.uset_resolve.specs.Resolution.{loosely, of_number, of_group, of_script, of_extension, of_binary, number_of_value, of_key, of_value};
ghost use Rattle.uset_resolve.specs.Made.{of_origin};
ghost use Rattle.uset_resolve.specs.Sources.{IsKey, IsList, IsSource};

use crate::decimal::written;
use crate::group::set_of_group;
use crate::key::Key;
use crate::resolver::{Origin, Resolver};
use cp_invlist::{CodePointInversionList, NoMemory};
use prop_binary::ecma262_table;
use prop_data::{MapTable, NamesTable, PropertyDatabase};
use prop_query::ScriptWithExtensions;
use prop_values::Script;
use std::alloc::Global;
use uset_gather::Source;

/// The number of the value with this name in a table of names, loosely.
fn loosely(database: &PropertyDatabase, table: NamesTable, name: &[u8]) -> Option<u16>
    ensures { result ≡ loosely (tables_of database.now) table name.now }
{
    database.names(table)?.get_loose_u16(name)
}

/// The set of the binary property with this name in ECMA-262, where the database has it.
pub(crate) fn of_binary<'a>(
    database: &'a PropertyDatabase,
    name: &[u8],
) -> Option<&'a CodePointInversionList>
    ensures { option_map (λ set. contains set.now) result ≡ of_binary (tables_of database.now) name.now }
{
    database.set(ecma262_table(name)?)
}

/// The number of a value: that of its name, or the one that it writes, where the table of names is there.
pub(crate) fn number_of_value(
    database: &PropertyDatabase,
    table: NamesTable,
    value: &str,
) -> Option<u16>
    ensures { result ≡ number_of_value (tables_of database.now) table value.now }
{
    let names = database.names(table)?;
    match names.get_loose_u16(value.as_bytes()) {
        Some(number) => Some(number),
        None => written(table, value),
    }
}

/// The code points with the number in the map of a property, where the map is there.
fn set_of_value(
    alloc: Global,
    database: &PropertyDatabase,
    table: MapTable,
    number: u16,
) -> Result<Option<CodePointInversionList>, NoMemory>
    ensures { IfOk result (λ list. IsList list (of_number (tables_of database.now) table (Some number))) }
{
    match database.map(table) {
        Some(map) => Ok(Some(map.get_set_for_value(alloc, u32::from(number))?)),
        None => Ok(None),
    }
}

/// The code points whose category is in the group with the number, where the categories are there.
fn set_of_categories(
    alloc: Global,
    database: &PropertyDatabase,
    number: u16,
) -> Result<Option<CodePointInversionList>, NoMemory>
    ensures { IfOk result (λ list. IsList list (of_origin (tables_of database.now) (Group number))) }
{
    match database.map(MapTable::GENERAL_CATEGORY) {
        Some(categories) => Ok(Some(set_of_group(alloc, categories, number)?)),
        None => Ok(None),
    }
}

/// The code points that have the script with the number among their script extensions, where scripts are there.
fn set_of_extension(
    alloc: Global,
    database: &PropertyDatabase,
    number: u16,
) -> Result<Option<CodePointInversionList>, NoMemory>
    ensures { IfOk result (λ list. IsList list (of_origin (tables_of database.now) (Extension number))) }
{
    let Ok(scripts) = ScriptWithExtensions::new(database) else {
        return Ok(None);
    };
    let script = Script::from_icu4c_value(number);
    Ok(Some(scripts.get_script_extensions_set(alloc, script)?))
}

impl<'a> Resolver<'a> {
    /// The code points with the number in the map of a property.
    fn of_number(
        &mut self,
        alloc: Global,
        table: MapTable,
        number: u16,
    ) -> Result<Option<Source<'a>>, NoMemory>
        ensures source { IfOk result (λ source. IsSource source (of_number (tables_of self.old) table (Some number))) }
        ensures same { self.new ≡ self.old }
    {
        let database = self.database;
        self.get_or_make(alloc, Origin::Value(table.number(), number), || {
            set_of_value(alloc, database, table, number)
        })
    }

    /// The code points of the group of categories with this name.
    fn of_group(&mut self, alloc: Global, name: &[u8]) -> Result<Option<Source<'a>>, NoMemory>
        ensures source { IfOk result (λ source. IsSource source (of_group (tables_of self.old) name.now)) }
        ensures same { self.new ≡ self.old }
    {
        let database = self.database;
        let Some(number) = loosely(database, NamesTable::GENERAL_CATEGORY_MASK, name) else {
            return Ok(None);
        };
        self.get_or_make(alloc, Origin::Group(number), || {
            set_of_categories(alloc, database, number)
        })
    }

    /// The code points with the script of this name.
    fn of_script(&mut self, alloc: Global, name: &[u8]) -> Result<Option<Source<'a>>, NoMemory>
        ensures source { IfOk result (λ source. IsSource source (of_script (tables_of self.old) name.now)) }
        ensures same { self.new ≡ self.old }
    {
        match loosely(self.database, NamesTable::SCRIPT, name) {
            Some(number) => self.of_number(alloc, MapTable::SCRIPT, number),
            None => Ok(None),
        }
    }

    /// The code points that have the script of this name among their script extensions.
    fn of_extension(&mut self, alloc: Global, name: &[u8]) -> Result<Option<Source<'a>>, NoMemory>
        ensures source { IfOk result (λ source. IsSource source (of_extension (tables_of self.old) name.now)) }
        ensures same { self.new ≡ self.old }
    {
        let database = self.database;
        let Some(number) = loosely(database, NamesTable::SCRIPT, name) else {
            return Ok(None);
        };
        self.get_or_make(alloc, Origin::Extension(number), || {
            set_of_extension(alloc, database, number)
        })
    }

    /// The code points of a key without a value: those of a group of categories, of a script or of a binary property.
    pub(crate) fn of_key(
        &mut self,
        alloc: Global,
        key: &[u8],
    ) -> Result<Option<Source<'a>>, NoMemory>
        ensures source { IfOk result (λ source. IsSource source (of_key (tables_of self.old) key.now)) }
        ensures same { self.new ≡ self.old }
    {
        if let Some(source) = self.of_group(alloc, key)? {
            return Ok(Some(source));
        }
        if let Some(source) = self.of_script(alloc, key)? {
            return Ok(Some(source));
        }
        Ok(of_binary(self.database, key).map(Source::Lent))
    }

    /// The code points of the value behind a key.
    pub(crate) fn of_value(
        &mut self,
        alloc: Global,
        key: &Key,
        value: &str,
    ) -> Result<Option<Source<'a>>, NoMemory>
        ensures source { IfOk result
            (λ source. (k : Asked) → IsKey key.now k → IsSource source (of_value (tables_of self.old) k value.now)) }
        ensures same { self.new ≡ self.old }
    {
        match key {
            Key::Categories => self.of_group(alloc, value.as_bytes()),
            Key::Extensions => self.of_extension(alloc, value.as_bytes()),
            Key::Values(map, names) => match number_of_value(self.database, *names, value) {
                Some(number) => self.of_number(alloc, *map, number),
                None => Ok(None),
            },
        }
    }
}
