//! The table of names whose rows are being read.
ghost use Rattle.std.specs.Prelude.{◌≡◌, [], OnOk};
ghost use Rattle.prop_data.specs.LineFault.{is_other};
ghost use Rattle.prop_data.specs.Loading.{TakesRow, TakesFinished, row_seen};

use crate::database::PropertyDatabase;
use crate::error::{LineError, TableErrorKind};
use crate::line::Row;
use crate::load::OpenTable;
use crate::name::is_name;
use crate::value::accepted_name;
use cp_invlist::NoMemory;
use prop_names::{NamesBuilder, ascii_text, stored_folding};
use prop_values::NamesTable;
use std::alloc::Global;
use text_lines::decimal_number;

/// Whether there is a value, and it is another one.
fn is_other(other: Option<u16>, value: u16) -> bool
    ensures { result ≡ is_other other value }
{
    match other {
        Some(other) => other != value,
        None => false,
    }
}

#[derive(Drop)]
pub(crate) struct OpenNames {
    alloc: Global,
    table: NamesTable,
    builder: NamesBuilder,
}

impl OpenNames {
    pub(crate) fn new(alloc: Global, table: NamesTable) -> OpenNames
        ensures table { result.table ≡ table }
        ensures builder { result.builder ≡ [] }
    {
        OpenNames {
            alloc,
            table,
            builder: NamesBuilder::new(alloc),
        }
    }

    /// Takes a row.
    pub(crate) fn add_row(&mut self, row: Row<'_>) -> Result<(), LineError>
        ensures { TakesRow (OpenTable.Names self.old) (row_seen row.entry) result (OpenTable.Names self.new) }
    {
        let text = row.second.ok_or(TableErrorKind::UnknownLine)?;
        let spelled = decimal_number(row.first).ok_or(TableErrorKind::BadNumber)?;
        let value = accepted_name(self.table, spelled).ok_or(TableErrorKind::ValueOutOfType)?;
        if !is_name(text) {
            return Err(LineError::Fault(TableErrorKind::BadName));
        }
        let folding = stored_folding(self.alloc, text)?;
        if is_other(self.builder.value_of_folding(folding.as_str()), value) {
            return Err(LineError::Fault(TableErrorKind::NamesClash));
        }
        let name = ascii_text(self.alloc, text)?;
        self.builder.insert(name, folding, value)?;
        Ok(())
    }

    /// Moves the names into the database.
    pub(crate) fn finish(
        self,
        alloc: Global,
        database: &mut PropertyDatabase,
    ) -> Result<(), NoMemory>
        ensures { OnOk result (TakesFinished (OpenTable.Names self) database.old database.new) }
    {
        let names = self.builder.build(alloc)?;
        database.insert_names(self.table, names)
    }
}
