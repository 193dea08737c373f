//! The names of ECMA-262.
ghost use Rattle.std.specs.Prelude.{◌≡◌, ◌<◌, IfSome, length};
ghost use Rattle.std.specs.List.{position};
ghost use Rattle.prop_binary.specs.Ecma262.{ecma262_number, is_ecma262_name, IsOnlyNumber};
ghost use Rattle.prop_binary.specs.Names.{names_of};

use crate::names::{PropertyNames, property_names};
use crate::table::SetTable;

/// The table of the property with this name in ECMA-262 (the table "Binary Unicode property aliases and their canonical
/// property names"), compared byte for byte with the long and the short names. `Any`, `ASCII` and `Assigned` are not
/// read, and White_Space has the short name `WSpace`. `None` where the text is no such name.
pub fn ecma262_table(name: &[u8]) -> Option<SetTable>
    ensures found { result ≡ ecma262_number name.now }
    ensures only { IsOnlyNumber name.now result }
{
    let number = place_in_ecma262(property_names(), name)?;
    Some(SetTable::of_number(number as u8))
}

/// The index of the first row that ECMA-262 has with this name.
fn place_in_ecma262(rows: &[PropertyNames], name: &[u8]) -> Option<usize>
    ensures place { result ≡ position (λ row. is_ecma262_name name.now (names_of row)) rows.now }
    ensures within { IfSome result (λ place. place < length rows.now) }
{
    rows.iter().position(|row| row.in_ecma262
        && (row.long.as_bytes() == name || row.short.as_bytes() == name))
}
