//! Combinations of sets whose steps are counted.
ghost use Rattle.std.specs.Prelude.{◌≡◌, ◌+◌, ◌<◌, length, IfSome, OnOk, IsTrue};

use crate::fixtures::{Operation, assert_equal};
use cp_invlist::laws::same_members;
use cp_invlist::{CodePointInversionList, CodePointInversionListBuilder, NoMemory, Steps};
use std::alloc::Global;
use std::marker::Brand;
use std::sync::ledger::{Blank, Ledger};

/// A builder that has taken the set of the list alone, if memory is left for it.
fn builder_of(alloc: Global, list: &[u32]) -> Option<CodePointInversionListBuilder>
    ensures { IfSome result (λ builder. builder ≡ list.now) }
{
    let Ok(set) = CodePointInversionList::try_from_inversion_list(alloc, list) else {
        return None;
    };
    let mut builder = CodePointInversionListBuilder::new(alloc);
    let Ok(()) = builder.add_set(&set) else {
        return None;
    };
    same_members();
    Some(builder)
}

/// Combines what was built with the set: a step for each element of both.
fn combine<L: Ledger>(
    operation: Operation,
    builder: &mut CodePointInversionListBuilder,
    set: &CodePointInversionList,
    steps: &mut Steps<L>,
) -> Result<(), NoMemory>
    ensures { OnOk result (steps.new ≡ steps.old + (length builder.old + length set.now)) }
{
    match operation {
        Operation::Add => builder.add_set_steps(set, steps),
        Operation::Remove => builder.remove_set_steps(set, steps),
        Operation::Retain => builder.retain_set_steps(set, steps),
    }
}

/// Whether memory is left, and the set of the first list, combined with that of the second, has the expected list: a step
/// for each element of both.
fn is_combined<L: Ledger>(
    alloc: Global,
    operation: Operation,
    first: &[u32],
    second: &[u32],
    expected: &[u32],
    steps: &mut Steps<L>,
) -> bool
    ensures { IsTrue result → steps.new ≡ steps.old + (length first.now + length second.now) }
{
    let Ok(second) = CodePointInversionList::try_from_inversion_list(alloc, second) else {
        return false;
    };
    let Some(mut builder) = builder_of(alloc, first) else {
        return false;
    };
    combine(operation, &mut builder, &second, steps).is_ok()
        && builder.build().get_inversion_list() == expected
}

/// To 41-5A it adds 61-7A, in 4 steps.
fn letters<L: Ledger>(alloc: Global, steps: &mut Steps<L>) -> bool
    ensures { IsTrue result → steps.new ≡ steps.old + 4 }
{
    let expected = &[0x41, 0x5B, 0x61, 0x7B];
    is_combined(
        alloc,
        Operation::Add,
        &[0x41, 0x5B],
        &[0x61, 0x7B],
        expected,
        steps,
    )
}

/// From those it removes 41-42, in 6 steps.
fn later_letters<L: Ledger>(alloc: Global, steps: &mut Steps<L>) -> bool
    ensures { IsTrue result → steps.new ≡ steps.old + 6 }
{
    let letters = &[0x41, 0x5B, 0x61, 0x7B];
    let expected = &[0x43, 0x5B, 0x61, 0x7B];
    is_combined(
        alloc,
        Operation::Remove,
        letters,
        &[0x41, 0x43],
        expected,
        steps,
    )
}

/// Of those it keeps 43-61, in 6 steps.
fn letters_up_to_a<L: Ledger>(alloc: Global, steps: &mut Steps<L>) -> bool
    ensures { IsTrue result → steps.new ≡ steps.old + 6 }
{
    let letters = &[0x43, 0x5B, 0x61, 0x7B];
    let expected = &[0x43, 0x5B, 0x61, 0x62];
    is_combined(
        alloc,
        Operation::Retain,
        letters,
        &[0x43, 0x62],
        expected,
        steps,
    )
}

/// Whether the three have their lists, counted in one ledger of the caller's.
fn are_combined<L: Ledger>(alloc: Global, blank: Blank) -> bool
    requires name { blank.name ≡ L.name }
    requires parts { blank.parts ≡ L.parts }
    requires some { 0 < blank.parts }
{
    let mut steps = Steps::<L>::new(blank);
    letters(alloc, &mut steps)
        && later_letters(alloc, &mut steps)
        && letters_up_to_a(alloc, &mut steps)
}

#[test]
fn counted_calls_take_each_element_once(rt: HostRuntime) {
    let are_combined = are_combined::<Brand>(rt.alloc(), Blank::new(1));
    assert_equal(&rt, are_combined, true);
}
