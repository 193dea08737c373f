//! The extension list whose rows are being read.
ghost use Rattle.std.specs.Prelude.{◌≡◌, [], ◌∷◌, ◌++◌, None, Some, IfOk, OnOk};
ghost use Rattle.std.specs.Option.{option_copied};
ghost use Rattle.prop_data.specs.LineFault.{order_fault};
ghost use Rattle.prop_data.specs.Loading.{TakesRow, TakesFinished, IsListed, row_seen};
ghost use Rattle.prop_data.specs.Rows.{first_scripts};

use crate::database::PropertyDatabase;
use crate::error::{LineError, TableErrorKind};
use crate::line::Row;
use crate::load::OpenTable;
use crate::row::is_not_above;
use crate::scripts::ListedScripts;
use crate::value::accepted_script;
use cp_invlist::NoMemory;
use prop_values::Script;
use std::alloc::Global;
use text_lines::decimal_number;

/// The last index of a list.
const LAST_LIST: u64 = 1023;

/// The script of a header with this index, where it has one, or the first test that both fail.
#[tactic(auto, unfolding(crate::specs::LineFault::value_fault))]
pub(crate) fn listed_script(
    index: u64,
    script: Option<&[u8]>,
) -> Result<Option<u16>, TableErrorKind>
    ensures { IsListed index (option_copied script.entry) result }
{
    let Some(script) = script else {
        if index > LAST_LIST {
            return Err(TableErrorKind::TooLarge);
        }
        return Ok(None);
    };
    let spelled = decimal_number(script).ok_or(TableErrorKind::BadNumber)?;
    if index > LAST_LIST {
        return Err(TableErrorKind::TooLarge);
    }
    let script = accepted_script(spelled).ok_or(TableErrorKind::ValueOutOfType)?;
    Ok(Some(script))
}

/// Adds the script with this number to the list.
fn push_script(scripts: &mut Vec<Script>, script: u16) -> Result<(), NoMemory>
    ensures { OnOk result (scripts.new.items ≡ scripts.old.items ++ script ∷ []) }
{
    scripts.push(Script::from_icu4c_value(script))?;
    Ok(())
}

#[derive(Drop)]
pub(crate) struct OpenList {
    index: u64,
    /// The script of the header.
    script: Option<u16>,
    scripts: Vec<Script>,
    /// The number of the row above.
    last: Option<u32>,
}

impl OpenList {
    pub(crate) fn new(alloc: Global, index: u64, script: Option<u16>) -> Result<OpenList, NoMemory>
        ensures index { IfOk result (λ begun. begun.index ≡ index) }
        ensures script { IfOk result (λ begun. begun.script ≡ script) }
        ensures scripts { IfOk result (λ begun. begun.scripts.items ≡ first_scripts script) }
        ensures last { IfOk result (λ begun. begun.last ≡ None) }
    {
        let mut scripts = Vec::new(alloc);
        if let Some(script) = script {
            push_script(&mut scripts, script)?;
        }
        Ok(OpenList {
            index,
            script,
            scripts,
            last: None,
        })
    }

    /// Takes a row.
    #[tactic(auto, unfolding(crate::specs::LineFault::value_fault, crate::specs::LineFault::order_fault))]
    pub(crate) fn add_row(&mut self, row: Row<'_>) -> Result<(), LineError>
        ensures { TakesRow (OpenTable.List self.old) (row_seen row.entry) result (OpenTable.List self.new) }
    {
        let None = row.second else {
            return Err(LineError::Fault(TableErrorKind::UnknownLine));
        };
        let spelled = decimal_number(row.first).ok_or(TableErrorKind::BadNumber)?;
        let script = accepted_script(spelled).ok_or(TableErrorKind::ValueOutOfType)?;
        if is_not_above(self.last, u32::from(script)) {
            return Err(LineError::Fault(TableErrorKind::ExtensionOrder));
        }
        push_script(&mut self.scripts, script)?;
        self.last = Some(u32::from(script));
        Ok(())
    }

    /// Moves the list into the database.
    pub(crate) fn finish(self, database: &mut PropertyDatabase) -> Result<(), NoMemory>
        ensures { OnOk result (TakesFinished (OpenTable.List self) database.old database.new) }
    {
        let list = ListedScripts::new(self.script.is_some(), self.scripts);
        database.insert_list(self.index, list)
    }
}
