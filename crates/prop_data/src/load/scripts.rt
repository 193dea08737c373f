//! The table of scripts with extensions whose rows are being read.
ghost use Rattle.std.specs.Prelude.{◌≡◌, [], ◌∷◌, ◌++◌, None, IfOk, OnOk};
ghost use Rattle.prop_data.specs.Loading.{TakesRow, TakesFinished, row_seen};

use crate::database::PropertyDatabase;
use crate::error::{LineError, TableErrorKind};
use crate::line::Row;
use crate::load::OpenTable;
use crate::load::map_builder::MapBuilder;
use crate::numbers::range;
use crate::row::check_range;
use crate::value::accepted_script;
use cp_invlist::NoMemory;
use prop_values::ScriptWithExt;
use std::alloc::Global;
use text_lines::decimal_number;

/// Adds the number to the list.
fn push_number(numbers: &mut Vec<u16>, number: u16) -> Result<(), NoMemory>
    ensures { OnOk result (numbers.new.items ≡ numbers.old.items ++ number ∷ []) }
{
    numbers.push(number)?;
    Ok(())
}

#[derive(Drop)]
pub(crate) struct OpenScripts {
    builder: MapBuilder<ScriptWithExt>,
    /// The numbers that the header and the rows name.
    named: Vec<u16>,
}

impl OpenScripts {
    pub(crate) fn new(alloc: Global, default: u16) -> Result<OpenScripts, NoMemory>
        ensures runs { IfOk result (λ begun. begun.builder.runs.items ≡ []) }
        ensures default { IfOk result (λ begun. begun.builder.default ≡ default) }
        ensures last { IfOk result (λ begun. begun.builder.last ≡ None) }
        ensures named { IfOk result (λ begun. begun.named.items ≡ default ∷ []) }
    {
        let mut named = Vec::new(alloc);
        named.push(default)?;
        Ok(OpenScripts {
            builder: MapBuilder::new(alloc, ScriptWithExt(default)),
            named,
        })
    }

    /// Takes a row.
    #[tactic(auto, unfolding(crate::specs::LineFault::range_fault, crate::specs::LineFault::value_fault))]
    pub(crate) fn add_row(&mut self, row: Row<'_>) -> Result<(), LineError>
        ensures { TakesRow (OpenTable.Scripts self.old) (row_seen row.entry) result
            (OpenTable.Scripts self.new) }
    {
        let second = row.second.ok_or(TableErrorKind::UnknownLine)?;
        let range = range(row.first).ok_or(TableErrorKind::BadNumber)?;
        let spelled = decimal_number(second).ok_or(TableErrorKind::BadNumber)?;
        check_range(self.builder.last(), range)?;
        let value = accepted_script(spelled).ok_or(TableErrorKind::ValueOutOfType)?;
        self.builder.add(range, ScriptWithExt(value))?;
        push_number(&mut self.named, value)?;
        Ok(())
    }

    /// Moves the scripts with extensions into the database.
    pub(crate) fn finish(
        self,
        alloc: Global,
        database: &mut PropertyDatabase,
    ) -> Result<(), NoMemory>
        ensures { OnOk result (TakesFinished (OpenTable.Scripts self) database.old database.new) }
    {
        let trie = self.builder.build(alloc, ScriptWithExt::Unknown)?;
        database.insert_scripts(alloc, trie, self.named);
        Ok(())
    }
}
