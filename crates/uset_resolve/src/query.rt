//! What a key and a value resolve to.
ghost use Rattle.std.specs.Prelude.{◌≡◌, false, IfOk, Some};
ghost use Rattle.prop_data.specs.Database.{tables_of};
ghost use Rattle.std.specs.Option.{option_copied};
ghost use Rattle.uset_resolve.specs.Keys.{Asked};
ghost use Rattle.uset_resolve.specs.Resolution.{of_word, lacks_block, lacks_for};
ghost use Rattle.uset_resolve.specs.Sources.{IsKey, IsResolution, ResolvesTo};

use crate::key::{Key, falsy, key_of};
use crate::resolver::Resolver;
use crate::source::{number_of_value, of_binary};
use cp_invlist::NoMemory;
use prop_data::{MapTable, NamesTable, PropertyDatabase};
use std::alloc::Global;
use uset_gather::Source;

/// What a key and a value resolve to.
#[derive(Drop)]
pub enum Resolution<'a> {
    /// Code points.
    Found {
        /// The code points that were asked for, or those that the negation takes away.
        source: Source<'a>,
        /// Whether the value is a word for falsehood, which negates.
        falsy: bool,
    },
    /// Nothing, for any other reason than `Lacking`'s: a table of another property than Block may be absent.
    Unknown,
    /// Nothing, since Block is asked for a value and a table is absent: that of the names of blocks; or the map of
    /// blocks, where the value is the name of one or a decimal number of at most 65535.
    Lacking,
}

/// Whether a table is absent that a value of Block asks for: that of the names of blocks; or the map of blocks, where
/// the value is the name of one or a decimal number of at most 65535.
fn lacks_block(database: &PropertyDatabase, value: &str) -> bool
    ensures { result ≡ lacks_block (tables_of database.now) value.now }
{
    database.names(NamesTable::BLOCK).is_none()
        || (number_of_value(database, NamesTable::BLOCK, value).is_some()
            && database.map(MapTable::BLOCK).is_none())
}

/// Whether Block is asked for the value, and a table is absent that the value asks for.
fn lacks_table(database: &PropertyDatabase, key: &Key, value: &str) -> bool
    ensures { (k : Asked) → IsKey key.now k → result ≡ lacks_for (tables_of database.now) value.now (Some k) }
{
    match key {
        Key::Values(table, _) => *table == MapTable::BLOCK && lacks_block(database, value),
        Key::Categories | Key::Extensions => false,
    }
}

impl<'a> Resolver<'a> {
    /// What a key resolves to with a word for truth or falsehood.
    fn resolve_word(&self, key: &str, value: &str) -> Resolution<'a>
        ensures { IsResolution result (of_word (tables_of self.now) key.now value.now) false }
    {
        let Some(falsy) = falsy(value) else {
            return Resolution::Unknown;
        };
        match of_binary(self.database, key.as_bytes()) {
            Some(set) => Resolution::Found {
                source: Source::Lent(set),
                falsy,
            },
            None => Resolution::Unknown,
        }
    }

    /// What a key resolves to with a value.
    fn resolve_value(
        &mut self,
        alloc: Global,
        key: &str,
        value: &str,
    ) -> Result<Resolution<'a>, NoMemory>
        ensures resolved { IfOk result (ResolvesTo (tables_of self.old) key.now (Some value.now)) }
        ensures same { self.new ≡ self.old }
    {
        let Some(asked) = key_of(key.as_bytes()) else {
            return Ok(self.resolve_word(key, value));
        };
        match self.of_value(alloc, &asked, value)? {
            Some(source) => Ok(Resolution::Found {
                source,
                falsy: false,
            }),
            None if lacks_table(self.database, &asked, value) => Ok(Resolution::Lacking),
            None => Ok(Resolution::Unknown),
        }
    }

    /// What a key and a value resolve to, or a key alone: over tables that stand in the database, where an absent one gives
    /// nothing. The code points are lent where the database has them as a set, and elsewhere made of its maps, once. `NoMemory`
    /// says that a request for memory was refused: the resolver answers as before then.
    pub fn resolve(
        &mut self,
        alloc: Global,
        key: &str,
        value: Option<&str>,
    ) -> Result<Resolution<'a>, NoMemory>
        ensures resolved { IfOk result (ResolvesTo (tables_of self.old) key.now (option_copied value.entry)) }
        ensures same { self.new ≡ self.old }
    {
        if let Some(value) = value {
            return self.resolve_value(alloc, key, value);
        }
        match self.of_key(alloc, key.as_bytes())? {
            Some(source) => Ok(Resolution::Found {
                source,
                falsy: false,
            }),
            None => Ok(Resolution::Unknown),
        }
    }
}
