//! How many tables of a kind a database has.
ghost use Rattle.std.specs.Prelude.{◌≡◌, ◌<◌};
ghost use Rattle.prop_data.specs.Counts.{table_bound, is_table, table_count};
ghost use Rattle.prop_data.specs.Database.{tables_of};

use crate::database::PropertyDatabase;
use crate::table::TableKind;

/// The numbers of the tables of the kind are below this one.
fn table_bound(kind: TableKind) -> u16
    ensures { result ≡ table_bound kind }
{
    match kind {
        TableKind::Set => 69,
        TableKind::Map | TableKind::Names | TableKind::Long | TableKind::Short => 18,
        TableKind::Scripts | TableKind::Emoji => 1,
        TableKind::Extensions => 1024,
    }
}

/// Whether there is a table of the kind with this number.
fn is_table(database: &PropertyDatabase, kind: TableKind, number: u16) -> bool
    requires { number < table_bound kind }
    ensures { result ≡ is_table kind (tables_of database.now) number }
{
    match kind {
        TableKind::Set => database.sets.contains_key(&(number as u8)),
        TableKind::Map => database.maps.contains_key(&(number as u8)),
        TableKind::Names => database.names.contains_key(&(number as u8)),
        TableKind::Long => database.has_long(number as u8),
        TableKind::Short => database.has_short(number as u8),
        TableKind::Scripts => database.scripts.is_some(),
        TableKind::Extensions => database.has_list(u64::from(number)),
        TableKind::Emoji => database.emoji.contains_key(&(number as u8)),
    }
}

/// How many tables of the kind the database has.
pub(crate) fn table_count(database: &PropertyDatabase, kind: TableKind) -> usize
    ensures { result ≡ table_count kind (tables_of database.now) }
{
    let mut count = 0;
    for number in 0..table_bound(kind) {
        count += usize::from(is_table(database, kind, number));
    }
    count
}
