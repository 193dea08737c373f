//! The text that tells a fault of a table text.
ghost use Rattle.std.specs.Prelude.{◌≡◌, IfOk};
ghost use Rattle.std.specs.String.{string_bytes};
ghost use Rattle.uset_tool.specs.Words.{table_fault_text};

use cp_invlist::NoMemory;
use prop_data::TableError;
use std::alloc::Global;

/// The answer to a table text with a fault.
pub(crate) fn table_fault_text(alloc: Global, fault: TableError) -> Result<String, NoMemory>
    ensures { IfOk result (λ text. string_bytes text ≡ table_fault_text fault) }
{
    let line = fault.line;
    let kind = fault.kind;
    Ok(format!(in alloc; "tables line {line}: {kind}\n")?)
}
