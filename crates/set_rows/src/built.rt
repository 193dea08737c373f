//! Sets of code points that are built step by step.
use crate::fixtures::{Operation, assert_equal};
use cp_invlist::{CodePointInversionList, CodePointInversionListBuilder, CodePointRange, NoMemory};
use std::alloc::Global;

/// A step of a builder.
#[derive(Clone, Copy)]
enum Step {
    Char(char),
    Number(u32),
    Range(CodePointRange),
    /// What is done with the set of this list.
    With(Operation, &'static [u32]),
    Complement,
}

impl Step {
    /// Takes the step, if memory is left for it.
    fn take(
        self,
        alloc: Global,
        builder: &mut CodePointInversionListBuilder,
    ) -> Result<(), NoMemory> {
        match self {
            Step::Char(ch) => builder.add_char(ch),
            Step::Number(c) => builder.add32(c),
            Step::Range(range) => builder.add_range32(range),
            Step::With(operation, list) => combine_with(operation, alloc, builder, list),
            Step::Complement => builder.complement(),
        }
    }
}

/// Combines what was built with the list's set, if memory is left for it.
fn combine_with(
    operation: Operation,
    alloc: Global,
    builder: &mut CodePointInversionListBuilder,
    list: &[u32],
) -> Result<(), NoMemory> {
    let Ok(set) = CodePointInversionList::try_from_inversion_list(alloc, list) else {
        return Err(NoMemory);
    };
    match operation {
        Operation::Add => builder.add_set(&set),
        Operation::Remove => builder.remove_set(&set),
        Operation::Retain => builder.retain_set(&set),
    }
}

/// Steps, and the list behind each.
const STEPS: &[(Step, &[u32])] = &[
    // a reversed range adds nothing
    (
        Step::Range(CodePointRange {
            start: 0x66,
            end: 0x64,
        }),
        &[],
    ),
    (Step::Char('b'), &[0x62, 0x63]),
    (Step::Number(0x61), &[0x61, 0x63]),
    (
        Step::Range(CodePointRange {
            start: 0x64,
            end: 0x66,
        }),
        &[0x61, 0x63, 0x64, 0x67],
    ),
    (Step::Number(0x11_0000), &[0x61, 0x63, 0x64, 0x67]),
    (Step::Number(0x63), &[0x61, 0x67]),
    (
        Step::With(Operation::Remove, &[0x62, 0x64]),
        &[0x61, 0x62, 0x64, 0x67],
    ),
    (Step::With(Operation::Retain, &[0x64, 0x7B]), &[0x64, 0x67]),
    (Step::Complement, &[0, 0x64, 0x67, 0x11_0000]),
    (Step::With(Operation::Add, &[0x64, 0x67]), &[0, 0x11_0000]),
    // a range that touches the last one
    (Step::With(Operation::Retain, &[0x61, 0x63]), &[0x61, 0x63]),
    (
        Step::Range(CodePointRange {
            start: 0x63,
            end: 0x64,
        }),
        &[0x61, 0x65],
    ),
];

/// Takes the steps of the rows.
fn take_all(
    alloc: Global,
    builder: &mut CodePointInversionListBuilder,
    rows: &[(Step, &[u32])],
) -> Result<(), NoMemory> {
    for (step, _) in rows {
        step.take(alloc, builder)?;
    }
    Ok(())
}

/// Whether the steps of the rows build a set with this list.
fn are_built(alloc: Global, rows: &[(Step, &[u32])], list: &[u32]) -> bool {
    let mut builder = CodePointInversionListBuilder::new(alloc);
    take_all(alloc, &mut builder, rows).is_ok() && builder.build().get_inversion_list() == list
}

/// The index of the first row behind which the list is another.
fn first_wrong(alloc: Global) -> Option<usize> {
    for (index, (_, list)) in STEPS.iter().enumerate() {
        if !are_built(alloc, &STEPS[..=index], list) {
            return Some(index);
        }
    }
    None
}

#[test]
fn sets_are_built_and_combined(rt: HostRuntime) {
    assert_equal(&rt, first_wrong(rt.alloc()), None);
}
