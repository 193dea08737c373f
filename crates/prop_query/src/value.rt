//! The values of the numbers that a database keeps.
ghost use Rattle.std.specs.Prelude.{◌≡◌, ℕ, ◌<◌, ◌≤◌, true, Some, IfOk};
ghost use Rattle.cp_trie.specs.Map.{value_at};
ghost use Rattle.prop_data.specs.Accepted.{AreAccepted};
ghost use Rattle.prop_data.specs.LineFault.{accepts_value};
ghost use Rattle.prop_query.specs.Unpacked.{unpacked_runs, AreRunsAccepted};

use cp_invlist::NoMemory;
use cp_trie::{CodePointMapRange, CodePointTrie, TrieRanges};
use prop_values::EnumeratedProperty;
use std::alloc::{AllocError, Global};

/// The value of a number that the property's table accepts.
pub(crate) fn value_of<T: EnumeratedProperty>(number: u32) -> T
    requires { accepts_value T.TABLE number ≡ true }
    ensures { T.unpacked number ≡ Some result }
{
    match T::try_from_u32(number) {
        Ok(value) => value,
        Err(_) => unreachable!(),
    }
}

/// The map of the values of the numbers of a map, with the type's default past the last code point.
pub(crate) fn values_of<T: EnumeratedProperty>(
    alloc: Global,
    numbers: &CodePointTrie<u32>,
) -> Result<CodePointTrie<T>, NoMemory>
    requires { AreAccepted T.TABLE (value_at numbers.now) }
    ensures values { IfOk result (λ map. (c : ℕ) → c ≤ 0x10_FFFF →
        T.unpacked (value_at numbers.now c) ≡ Some (value_at map c)) }
    ensures past_end { IfOk result (λ map. (c : ℕ) → 0x10_FFFF < c →
        T.is_default (value_at map c)) }
{
    let runs = unpacked(alloc, numbers.iter_ranges())?;
    CodePointTrie::from_cover(alloc, runs, T::default())
}

/// The runs with the values of their numbers.
fn unpacked<T: EnumeratedProperty>(
    alloc: Global,
    numbers: TrieRanges<'_, u32>,
) -> Result<Vec<CodePointMapRange<T>>, AllocError>
    requires { AreRunsAccepted T.TABLE numbers }
    ensures { IfOk result (λ runs. runs.items ≡ unpacked_runs T.unpacked numbers.entry) }
{
    let mut runs = Vec::new(alloc);
    for run in numbers {
        runs.push(CodePointMapRange {
            range: run.range,
            value: value_of(run.value),
        })?;
    }
    Ok(runs)
}
