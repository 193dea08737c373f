//! Numbers of values.
ghost use Rattle.std.specs.Prelude.{◌≡◌, Some, None, if◌then◌else◌};
ghost use Rattle.prop_data.specs.LineFault.{accepts_value, accepts_name};
ghost use Rattle.prop_values.specs.Tables.{script_table};

use prop_values::{MapTable, NamesTable};

/// The number, where the property of the table takes it.
pub(crate) fn accepted(table: MapTable, number: u64) -> Option<u32>
    ensures { result ≡ (if accepts_value table number then Some number else None) }
{
    let number = u32::try_from(number).ok()?;
    if table.accepts(number) {
        Some(number)
    } else {
        None
    }
}

/// The number, where it is one of a script or of scripts with extensions.
pub(crate) fn accepted_script(number: u64) -> Option<u16>
    ensures { result ≡ (if accepts_value script_table number then Some number else None) }
{
    u16::try_from(number).ok()
}

/// The number, where the table of names takes it.
pub(crate) fn accepted_name(table: NamesTable, number: u64) -> Option<u16>
    ensures { result ≡ (if accepts_name table number then Some number else None) }
{
    let number = u16::try_from(number).ok()?;
    if table.accepts(number) {
        Some(number)
    } else {
        None
    }
}
