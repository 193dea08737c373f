//! Texts by index.
ghost use Rattle.std.specs.Prelude.{◌≡◌, ◌<◌, length, map, IfOk, IfSome};
ghost use Rattle.std.specs.Option.{option_copied};
ghost use Rattle.std.specs.String.{string_bytes};
ghost use Rattle.prop_names.specs.ValueNames.{listed_at};

use cp_invlist::NoMemory;
use std::alloc::Global;

/// The text at the index, unless it is empty.
pub(crate) fn listed(names: &[String], index: usize) -> Option<&str>
    ensures value { option_copied result ≡ listed_at (map string_bytes names.now) index }
    ensures filled { IfSome result (λ name. 0 < length name.now) }
{
    let name = names.get(index)?.as_str();
    if name.is_empty() { None } else { Some(name) }
}

/// The same texts.
pub(crate) fn copy_listed(alloc: Global, names: &[String]) -> Result<Vec<String>, NoMemory>
    ensures { IfOk result (λ copy. map string_bytes copy.items ≡ map string_bytes names.now) }
{
    Ok(Vec::from_clones(alloc, names)?)
}
