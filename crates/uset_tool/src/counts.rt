//! How many tables a table text has, as text.
ghost use Rattle.std.specs.Prelude.{◌≡◌, ◌++◌, IfOk, OnOk};
ghost use Rattle.std.specs.List.{flat_map};
ghost use Rattle.std.specs.String.{string_bytes};
ghost use Rattle.prop_data.specs.Database.{tables_of};
ghost use Rattle.uset_tool.specs.Counts.{count_line, counts_text};

use cp_invlist::NoMemory;
use prop_data::{PropertyDatabase, TableKind};
use std::alloc::Global;
use std::fmt::Write;

/// Appends the line of a kind.
fn push_count(
    text: &mut String,
    database: &PropertyDatabase,
    kind: TableKind,
) -> Result<(), NoMemory>
    ensures { OnOk result (string_bytes text.new ≡ string_bytes text.old ++ count_line (tables_of database.now) kind) }
{
    let word = kind.word();
    let count = database.table_count(kind);
    write!(text, "{word} {count}\n")?;
    Ok(())
}

/// Appends the lines of kinds.
fn push_counts(
    text: &mut String,
    database: &PropertyDatabase,
    kinds: &[TableKind],
) -> Result<(), NoMemory>
    ensures { OnOk result
        (string_bytes text.new ≡ string_bytes text.old ++ flat_map (count_line (tables_of database.now)) kinds.now) }
{
    for kind in kinds {
        push_count(text, database, *kind)?;
    }
    Ok(())
}

/// A line for each kind of table, with the number of its tables.
pub(crate) fn counts_text(alloc: Global, database: &PropertyDatabase) -> Result<String, NoMemory>
    ensures { IfOk result (λ text. string_bytes text ≡ counts_text (tables_of database.now)) }
{
    let mut text = String::new(alloc);
    push_counts(&mut text, database, &TableKind::ALL)?;
    Ok(text)
}
