//! The table of a set whose rows are being read.
ghost use Rattle.std.specs.Prelude.{◌≡◌};
ghost use Rattle.cp_invlist.specs.InversionList.{contains};
ghost use Rattle.prop_data.specs.Forbidden.{IsAllowed};

use crate::database::PropertyDatabase;
use crate::error::{LineError, TableErrorKind};
use crate::line::Row;
use crate::load::OpenTable;
use crate::numbers::range;
use crate::row::{check_range, check_syntax};
use cp_invlist::{CodePointInversionListBuilder, NoMemory};
use prop_binary::SetTable;
use std::alloc::Global;

#[derive(Drop)]
pub(crate) struct OpenSet {
    table: SetTable,
    builder: CodePointInversionListBuilder,
    /// The last code point of the row above.
    last: Option<u32>,
    ghost allowed: { IsAllowed table (contains builder) },
}

impl OpenSet {
    ghost use Rattle.std.specs.Prelude.{◌≡◌, [], None, OnOk};
    ghost use Rattle.prop_data.specs.Loading.{TakesRow, TakesFinished, row_seen};

    pub(crate) fn new(alloc: Global, table: SetTable) -> OpenSet
        ensures table { result.table ≡ table }
        ensures builder { result.builder ≡ [] }
        ensures last { result.last ≡ None }
    {
        OpenSet {
            table,
            builder: CodePointInversionListBuilder::new(alloc),
            last: None,
        }
    }

    /// Takes a row.
    pub(crate) fn add_row(&mut self, row: Row<'_>) -> Result<(), LineError>
        ensures { TakesRow (OpenTable.Set self.old) (row_seen row.entry) result (OpenTable.Set self.new) }
    {
        let None = row.second else {
            return Err(LineError::Fault(TableErrorKind::UnknownLine));
        };
        let range = range(row.first).ok_or(TableErrorKind::BadNumber)?;
        check_range(self.last, range)?;
        check_syntax(self.table, range)?;
        self.builder.add_range32(range)?;
        self.last = Some(range.end);
        Ok(())
    }

    /// Moves the set into the database, with an index where it has many ranges.
    pub(crate) fn finish(
        self,
        alloc: Global,
        database: &mut PropertyDatabase,
    ) -> Result<(), NoMemory>
        ensures { OnOk result (TakesFinished (OpenTable.Set self) database.old database.new) }
    {
        let mut set = self.builder.build();
        set.index_if_long(alloc)?;
        database.insert_set(self.table, set)
    }
}
