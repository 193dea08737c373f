//! The linear merge that union, difference and intersection are made of.
ghost use Rattle.std.specs.Prelude.{◌≡◌, ◌+◌, ◌<◌, ◌≤◌, OnOk, OnErr, IfOk, length};
ghost use Rattle.cp_invlist.specs.InversionList.{IsInversionList};
ghost use Rattle.cp_invlist.specs.Merge.{keeps, turns_first, turns_second, turns_both, extended, IsKept};

use crate::cursor::Cursor;
use crate::error::NoMemory;
use crate::steps::Steps;
use std::alloc::Global;
use std::marker::Brand;
use std::sync::ledger::{Blank, Ledger};

/// Which numbers a merge of two sets keeps.
#[derive(Clone, Copy)]
pub(crate) enum Operation {
    /// Those of either set.
    Union,
    /// Those of the first set that the second lacks.
    Difference,
    /// Those of both sets.
    Intersection,
}

impl Operation {
    fn keeps(self, in_first: bool, in_second: bool) -> bool
        ensures { result ≡ keeps self in_first in_second }
    {
        match self {
            Operation::Union => in_first || in_second,
            Operation::Difference => in_first && !in_second,
            Operation::Intersection => in_first && in_second,
        }
    }

    /// Whether the merged list turns at each element of the first list, where the walk stays on one side of the second.
    fn turns_at_first(self, in_second: bool) -> bool
        ensures { result ≡ turns_first self in_second }
    {
        self.keeps(true, in_second) != self.keeps(false, in_second)
    }

    /// Whether it turns at each element of the second list, where the walk stays on one side of the first.
    fn turns_at_second(self, in_first: bool) -> bool
        ensures { result ≡ turns_second self in_first }
    {
        self.keeps(in_first, true) != self.keeps(in_first, false)
    }

    /// Whether it turns at each element that stands in both lists, by the side of each on which the walk is before the first.
    fn turns_at_both(self, in_first: bool, in_second: bool) -> bool
        ensures { result ≡ turns_both self in_first in_second }
    {
        self.keeps(in_first, in_second) != self.keeps(!in_first, !in_second)
    }
}

/// Puts the elements behind the list where it turns at each of them.
fn extend(merged: &mut Vec<u32>, elements: &[u32], turns: bool) -> Result<(), NoMemory>
    ensures ok { OnOk result (merged.new.items ≡ extended merged.old.items elements.now turns) }
{
    if !turns {
        return Ok(());
    }
    // where the lists alternate, there is one element
    if let [only] = elements {
        merged.push(*only)?;
    } else {
        merged.extend_from_slice(elements)?;
    }
    Ok(())
}

/// The list of the numbers that the operation keeps of two sets: stretches of one list that lie between two elements of
/// the other, and stretches that stand in both. It takes one step for each element of the two lists.
pub(crate) fn merge<L: Ledger>(
    alloc: Global,
    operation: Operation,
    first: &[u32],
    second: &[u32],
    steps: &mut Steps<L>,
) -> Result<Vec<u32>, NoMemory>
    requires first { IsInversionList first.now }
    requires second { IsInversionList second.now }
    ensures list { IfOk result (λ v. IsInversionList v.items) }
    ensures members { IfOk result (λ v. IsKept operation first.now second.now v.items) }
    ensures counted { OnOk result (steps.new ≡ steps.old + (length first.now + length second.now)) }
    ensures at_most { OnErr result (steps.new ≤ steps.old + (length first.now + length second.now)) }
{
    let mut left = Cursor::new(first);
    let mut right = Cursor::new(second);
    // Room for all of both, so that the list is never moved while it grows.
    let mut merged = Vec::with_capacity(alloc, first.len().saturating_add(second.len()))?;
    'elements: while let (Some(x), Some(y)) = (left.first(), right.first()) {
        if x < y {
            let stretch = left.take(left.count_below(y), steps);
            extend(&mut merged, stretch, operation.turns_at_first(right.inside))?;
        } else if y < x {
            let stretch = right.take(right.count_below(x), steps);
            extend(&mut merged, stretch, operation.turns_at_second(left.inside))?;
        } else {
            let count = left.count_equal(&right, x);
            let turns = operation.turns_at_both(left.inside, right.inside);
            let stretch = left.take(count, steps);
            right.take(count, steps);
            extend(&mut merged, stretch, turns)?;
        }
    }
    let rest = left.take(left.len(), steps);
    extend(&mut merged, rest, operation.turns_at_first(right.inside))?;
    let rest = right.take(right.len(), steps);
    extend(&mut merged, rest, operation.turns_at_second(left.inside))?;
    Ok(merged)
}

/// The same, where nobody counts the steps.
pub(crate) fn merge_uncounted(
    alloc: Global,
    operation: Operation,
    first: &[u32],
    second: &[u32],
) -> Result<Vec<u32>, NoMemory>
    requires first { IsInversionList first.now }
    requires second { IsInversionList second.now }
    ensures list { IfOk result (λ v. IsInversionList v.items) }
    ensures members { IfOk result (λ v. IsKept operation first.now second.now v.items) }
{
    merge_over::<Brand>(alloc, operation, first, second, Blank::new(1))
}

/// A merge whose steps count in a blank ledger.
fn merge_over<L: Ledger>(
    alloc: Global,
    operation: Operation,
    first: &[u32],
    second: &[u32],
    blank: Blank,
) -> Result<Vec<u32>, NoMemory>
    requires first { IsInversionList first.now }
    requires second { IsInversionList second.now }
    requires name { blank.name ≡ L.name }
    requires parts { blank.parts ≡ L.parts }
    requires some { 0 < blank.parts }
    ensures list { IfOk result (λ v. IsInversionList v.items) }
    ensures members { IfOk result (λ v. IsKept operation first.now second.now v.items) }
{
    let mut steps = Steps::<L>::new(blank);
    merge(alloc, operation, first, second, &mut steps)
}
