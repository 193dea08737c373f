//! The table of a map whose rows are being read.
ghost use Rattle.std.specs.Prelude.{◌≡◌};
ghost use Rattle.cp_trie.specs.Runs.{value_in};
ghost use Rattle.prop_data.specs.Accepted.{AreAccepted};

use crate::database::PropertyDatabase;
use crate::error::{LineError, TableErrorKind};
use crate::line::Row;
use crate::load::OpenTable;
use crate::load::map_builder::MapBuilder;
use crate::numbers::range;
use crate::row::check_range;
use crate::value::accepted;
use cp_invlist::NoMemory;
use prop_values::MapTable;
use std::alloc::Global;
use text_lines::decimal_number;

#[derive(Drop)]
pub(crate) struct OpenMap {
    table: MapTable,
    builder: MapBuilder<u32>,
    ghost accepted: { AreAccepted table (value_in builder.runs.items builder.default) },
}

impl OpenMap {
    ghost use Rattle.std.specs.Prelude.{◌≡◌, [], true, None, OnOk};
    ghost use Rattle.prop_data.specs.LineFault.{accepts_value};
    ghost use Rattle.prop_data.specs.Loading.{TakesRow, TakesFinished, row_seen};

    pub(crate) fn new(alloc: Global, table: MapTable, default: u32) -> OpenMap
        requires { accepts_value table default ≡ true }
        ensures table { result.table ≡ table }
        ensures runs { result.builder.runs.items ≡ [] }
        ensures default { result.builder.default ≡ default }
        ensures last { result.builder.last ≡ None }
    {
        OpenMap {
            table,
            builder: MapBuilder::new(alloc, default),
        }
    }

    /// Takes a row.
    #[tactic(auto, unfolding(crate::specs::LineFault::range_fault, crate::specs::LineFault::value_fault))]
    pub(crate) fn add_row(&mut self, row: Row<'_>) -> Result<(), LineError>
        ensures { TakesRow (OpenTable.Map self.old) (row_seen row.entry) result (OpenTable.Map self.new) }
    {
        let second = row.second.ok_or(TableErrorKind::UnknownLine)?;
        let range = range(row.first).ok_or(TableErrorKind::BadNumber)?;
        let spelled = decimal_number(second).ok_or(TableErrorKind::BadNumber)?;
        check_range(self.builder.last(), range)?;
        let value = accepted(self.table, spelled).ok_or(TableErrorKind::ValueOutOfType)?;
        self.builder.add(range, value)?;
        Ok(())
    }

    /// Moves the map into the database.
    pub(crate) fn finish(
        self,
        alloc: Global,
        database: &mut PropertyDatabase,
    ) -> Result<(), NoMemory>
        ensures { OnOk result (TakesFinished (OpenTable.Map self) database.old database.new) }
    {
        let map = self.builder.build(alloc, self.table.default_number())?;
        database.insert_map(self.table, map)
    }
}
