//! The linear tables of names.
ghost use Rattle.std.specs.Prelude.{◌≡◌, ℕ, nat_eq, Some, OnOk, option_map, if◌then◌else◌};
ghost use Rattle.std.specs.BTreeMap.{get};
ghost use Rattle.std.specs.Ordering.{nat_cmp};
ghost use Rattle.prop_names.specs.ValueNameTables.{linear_text, name_at};

use cp_invlist::NoMemory;
use prop_names::{NamesByNumber, PropertyEnumToValueNameLinearMap};
use prop_values::MapTable;
use std::collections::BTreeMap;

/// Keeps the names as the table's.
pub(crate) fn keep_linear(
    tables: &mut BTreeMap<u8, PropertyEnumToValueNameLinearMap>,
    table: MapTable,
    names: NamesByNumber,
) -> Result<(), NoMemory>
    ensures { OnOk result ((t : ℕ) → option_map linear_text (get nat_cmp tables.new t) ≡
        (if nat_eq table t then Some (name_at names) else option_map linear_text (get nat_cmp tables.old t))) }
{
    let names = PropertyEnumToValueNameLinearMap::from_ordered(names);
    tables.insert(table.number(), names)?;
    Ok(())
}
