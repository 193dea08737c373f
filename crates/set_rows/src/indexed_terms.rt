//! Terms over sets that have an index.
use crate::fixtures::{assert_equal, makes};
use cp_invlist::{CodePointInversionList, CodePointInversionListBuilder, NoMemory};
use cp_terms::{SetOperation, Step};
use std::alloc::Global;

/// The multiples of a number below another.
type Multiples = (u32, u32);

/// The sets that the terms are made of. The first two have 20,000 ranges each, and an index.
const SETS: &[Multiples] = &[(2, 40_000), (3, 60_000), (1, 60), (2, 200)];

/// Terms, and the sets that they make.
const TERMS: &[(&[Step], Multiples)] = &[
    (&[Step::Push(0)], (2, 40_000)),
    (
        &[
            Step::Push(0),
            Step::Push(1),
            Step::Both(SetOperation::Intersection),
        ],
        (6, 40_000),
    ),
    (
        &[
            Step::Push(0),
            Step::Push(0),
            Step::Both(SetOperation::Difference),
        ],
        (6, 0),
    ),
    (
        &[
            Step::Push(0),
            Step::Complement,
            Step::Push(1),
            Step::Complement,
            Step::Both(SetOperation::Union),
            Step::Complement,
        ],
        (6, 40_000),
    ),
    (
        &[
            Step::Push(1),
            Step::Push(0),
            Step::Both(SetOperation::Intersection),
            Step::Push(2),
            Step::Both(SetOperation::Intersection),
        ],
        (6, 60),
    ),
    (
        &[
            Step::Push(3),
            Step::Push(0),
            Step::Both(SetOperation::Union),
        ],
        (2, 40_000),
    ),
    (
        &[
            Step::Push(1),
            Step::Push(0),
            Step::Both(SetOperation::ReverseDifference),
            Step::Push(0),
            Step::Both(SetOperation::ReverseDifference),
        ],
        (6, 40_000),
    ),
];

/// The multiples, and an index where they are many.
fn indexed(alloc: Global, multiples: Multiples) -> Result<CodePointInversionList, NoMemory> {
    let (number, end) = multiples;
    let mut builder = CodePointInversionListBuilder::new(alloc);
    for place in 0..end {
        if place % number.max(1) == 0 {
            builder.add32(place)?;
        }
    }
    let mut set = builder.build();
    set.index_if_long(alloc)?;
    Ok(set)
}

/// The sets of all multiples.
fn all_indexed(alloc: Global) -> Result<Vec<CodePointInversionList>, NoMemory> {
    let mut sets = Vec::new(alloc);
    for multiples in SETS {
        sets.push(indexed(alloc, *multiples)?)?;
    }
    Ok(sets)
}

/// Whether the steps make the multiples, of the sets that are given.
fn makes_multiples(
    alloc: Global,
    sets: &[CodePointInversionList],
    steps: &[Step],
    multiples: Multiples,
) -> Result<bool, NoMemory> {
    let expected = indexed(alloc, multiples)?;
    makes(alloc, sets, steps, expected.get_inversion_list())
}

/// The index of the first term that makes another set.
fn first_wrong(alloc: Global) -> Result<Option<usize>, NoMemory> {
    let sets = all_indexed(alloc)?;
    for (index, (steps, multiples)) in TERMS.iter().enumerate() {
        if !makes_multiples(alloc, &sets, steps, *multiples)? {
            return Ok(Some(index));
        }
    }
    Ok(None)
}

/// How many words the indices of the sets have.
fn words(alloc: Global) -> Result<Vec<usize>, NoMemory> {
    let mut words = Vec::new(alloc);
    for set in &all_indexed(alloc)? {
        words.push(set.words().len())?;
    }
    Ok(words)
}

#[test]
fn terms_make_sets_of_those_with_an_index(rt: HostRuntime) {
    let words = words(rt.alloc());
    assert_equal(&rt, words.as_deref(), Ok([17_408, 17_408, 0, 0].as_slice()));
    assert_equal(&rt, first_wrong(rt.alloc()), Ok(None));
}
