//! Terms over a few sets, and the sets that they make.
use crate::fixtures::{assert_equal, makes};
use cp_invlist::CodePointInversionList;
use cp_terms::{SetOperation, Step};
use std::alloc::Global;

/// The sets that the terms are made of.
const SETS: &[&[u32]] = &[
    // 0: letters
    &[0x41, 0x5B, 0x61, 0x7B],
    // 1: up to the border of a word of 64 code points
    &[0x70, 0x80],
    // 2: from there on, and beyond the border of a stretch of 16384
    &[0x80, 0x4001],
    // 3: the last code point, and the first
    &[0, 1, 0x10_FFFF, 0x11_0000],
    // 4: all
    &[0, 0x11_0000],
    // 5: whole stretches, and a single code point behind
    &[0x4000, 0xC000, 0xC001, 0xC002],
    // 6: nothing
    &[],
];

const EMPTY: &[u32] = &[];

/// Terms, and the lists of the sets that they make.
const TERMS: &[(&[Step], &[u32])] = &[
    // no steps
    (&[], EMPTY),
    (&[Step::Push(0)], &[0x41, 0x5B, 0x61, 0x7B]),
    // there is no set with this index
    (&[Step::Push(7)], EMPTY),
    (&[Step::Push(usize::MAX), Step::Complement], &[0, 0x11_0000]),
    // fewer sets than a step takes
    (&[Step::Complement], EMPTY),
    (&[Step::Clear], EMPTY),
    (&[Step::Both(SetOperation::Union)], EMPTY),
    (
        &[Step::Push(1), Step::Both(SetOperation::Difference)],
        &[0x70, 0x80],
    ),
    (
        &[
            Step::Both(SetOperation::Union),
            Step::Push(1),
            Step::Push(2),
            Step::Both(SetOperation::Union),
        ],
        &[0x70, 0x4001],
    ),
    // only the set on top counts
    (&[Step::Push(1), Step::Push(6)], EMPTY),
    // the four ways
    (
        &[
            Step::Push(0),
            Step::Push(1),
            Step::Both(SetOperation::Union),
        ],
        &[0x41, 0x5B, 0x61, 0x80],
    ),
    (
        &[
            Step::Push(0),
            Step::Push(1),
            Step::Both(SetOperation::Difference),
        ],
        &[0x41, 0x5B, 0x61, 0x70],
    ),
    (
        &[
            Step::Push(0),
            Step::Push(1),
            Step::Both(SetOperation::Intersection),
        ],
        &[0x70, 0x7B],
    ),
    (
        &[
            Step::Push(0),
            Step::Push(1),
            Step::Both(SetOperation::ReverseDifference),
        ],
        &[0x7B, 0x80],
    ),
    // a set and itself
    (
        &[
            Step::Push(0),
            Step::Push(0),
            Step::Both(SetOperation::Union),
        ],
        &[0x41, 0x5B, 0x61, 0x7B],
    ),
    (
        &[
            Step::Push(0),
            Step::Push(0),
            Step::Both(SetOperation::Intersection),
        ],
        &[0x41, 0x5B, 0x61, 0x7B],
    ),
    (
        &[
            Step::Push(0),
            Step::Push(0),
            Step::Both(SetOperation::Difference),
        ],
        EMPTY,
    ),
    (
        &[
            Step::Push(0),
            Step::Push(0),
            Step::Both(SetOperation::ReverseDifference),
        ],
        EMPTY,
    ),
    // complements, and a set that is emptied
    (&[Step::Push(6), Step::Complement], &[0, 0x11_0000]),
    (&[Step::Push(4), Step::Complement], EMPTY),
    (&[Step::Push(3), Step::Complement], &[1, 0x10_FFFF]),
    (
        &[Step::Push(2), Step::Complement],
        &[0, 0x80, 0x4001, 0x11_0000],
    ),
    (
        &[Step::Push(5), Step::Complement, Step::Complement],
        &[0x4000, 0xC000, 0xC001, 0xC002],
    ),
    (&[Step::Push(5), Step::Clear], EMPTY),
    (
        &[
            Step::Push(5),
            Step::Push(1),
            Step::Clear,
            Step::Both(SetOperation::Union),
        ],
        &[0x4000, 0xC000, 0xC001, 0xC002],
    ),
    // constant sets below and above
    (
        &[
            Step::Push(4),
            Step::Push(1),
            Step::Both(SetOperation::Difference),
        ],
        &[0, 0x70, 0x80, 0x11_0000],
    ),
    (
        &[
            Step::Push(1),
            Step::Push(4),
            Step::Both(SetOperation::ReverseDifference),
        ],
        &[0, 0x70, 0x80, 0x11_0000],
    ),
    (
        &[
            Step::Push(4),
            Step::Push(1),
            Step::Both(SetOperation::Intersection),
        ],
        &[0x70, 0x80],
    ),
    (
        &[
            Step::Push(1),
            Step::Push(4),
            Step::Both(SetOperation::Union),
        ],
        &[0, 0x11_0000],
    ),
    (
        &[
            Step::Push(1),
            Step::Push(4),
            Step::Both(SetOperation::Difference),
        ],
        EMPTY,
    ),
    (
        &[
            Step::Push(6),
            Step::Push(1),
            Step::Both(SetOperation::ReverseDifference),
        ],
        &[0x70, 0x80],
    ),
    // runs across the borders of stretches
    (
        &[
            Step::Push(2),
            Step::Push(5),
            Step::Both(SetOperation::Union),
        ],
        &[0x80, 0xC000, 0xC001, 0xC002],
    ),
    (
        &[
            Step::Push(2),
            Step::Push(5),
            Step::Both(SetOperation::Intersection),
        ],
        &[0x4000, 0x4001],
    ),
    (
        &[
            Step::Push(0),
            Step::Push(2),
            Step::Both(SetOperation::Union),
            Step::Push(3),
            Step::Push(5),
            Step::Both(SetOperation::Union),
            Step::Both(SetOperation::ReverseDifference),
            Step::Complement,
        ],
        &[1, 0x4001, 0xC000, 0xC001, 0xC002, 0x10_FFFF],
    ),
];

/// Sets at the borders of words of 64 code points.
const BORDER_SETS: &[&[u32]] = &[
    // 0: the last code point of a word
    &[0x3FF, 0x400],
    // 1: the first of the next
    &[0x400, 0x401],
    // 2: across the border
    &[0x3C0, 0x440],
    // 3: some of a word, and across its border
    &[0x300, 0x301, 0x302, 0x303, 0x37F, 0x381],
];

/// Terms over them, and the lists of the sets that they make.
const BORDER_TERMS: &[(&[Step], &[u32])] = &[
    (&[Step::Push(0)], &[0x3FF, 0x400]),
    (&[Step::Push(1)], &[0x400, 0x401]),
    (
        &[Step::Push(3)],
        &[0x300, 0x301, 0x302, 0x303, 0x37F, 0x381],
    ),
    (
        &[
            Step::Push(0),
            Step::Push(1),
            Step::Both(SetOperation::Union),
        ],
        &[0x3FF, 0x401],
    ),
    (
        &[
            Step::Push(0),
            Step::Push(1),
            Step::Both(SetOperation::Intersection),
        ],
        EMPTY,
    ),
    (
        &[
            Step::Push(2),
            Step::Push(0),
            Step::Both(SetOperation::Difference),
        ],
        &[0x3C0, 0x3FF, 0x400, 0x440],
    ),
    (
        &[
            Step::Push(1),
            Step::Push(2),
            Step::Both(SetOperation::ReverseDifference),
        ],
        &[0x3C0, 0x400, 0x401, 0x440],
    ),
    (
        &[
            Step::Push(0),
            Step::Complement,
            Step::Push(2),
            Step::Both(SetOperation::Intersection),
        ],
        &[0x3C0, 0x3FF, 0x400, 0x440],
    ),
    (
        &[Step::Push(3), Step::Complement],
        &[0, 0x300, 0x301, 0x302, 0x303, 0x37F, 0x381, 0x11_0000],
    ),
    (
        &[
            Step::Push(2),
            Step::Push(3),
            Step::Clear,
            Step::Both(SetOperation::Union),
        ],
        &[0x3C0, 0x440],
    ),
    // the upper set is one of those that are given
    (
        &[
            Step::Push(2),
            Step::Push(3),
            Step::Both(SetOperation::Union),
        ],
        &[0x300, 0x301, 0x302, 0x303, 0x37F, 0x381, 0x3C0, 0x440],
    ),
    // both are made
    (
        &[
            Step::Push(0),
            Step::Push(1),
            Step::Both(SetOperation::Union),
            Step::Push(3),
            Step::Push(2),
            Step::Both(SetOperation::Union),
            Step::Both(SetOperation::ReverseDifference),
        ],
        &[
            0x300, 0x301, 0x302, 0x303, 0x37F, 0x381, 0x3C0, 0x3FF, 0x401, 0x440,
        ],
    ),
    // there are fewer sets than the step takes
    (
        &[Step::Push(2), Step::Both(SetOperation::Union)],
        &[0x3C0, 0x440],
    ),
    // there is no set with this index
    (
        &[
            Step::Push(4),
            Step::Push(0),
            Step::Both(SetOperation::Union),
        ],
        &[0x3FF, 0x400],
    ),
];

/// Sets at the borders of stretches of 16384 code points.
const STRETCH_SETS: &[&[u32]] = &[
    // 0: the first code point of a stretch, and the last
    &[0x4000, 0x4001, 0x7FFF, 0x8000],
    // 1: across both borders
    &[0x3FFF, 0x4001, 0x7FFE, 0x8001],
    // 2: over several stretches
    &[0x50, 0x1_4001],
    // 3: from the borders of words and of a stretch on
    &[0x80, 0x81, 0x400, 0x401, 0x4000, 0x4400, 0x8000, 0x8080],
    // 4: one code point
    &[0x62, 0x63],
    // 5: the first and the last code point of the last stretch
    &[0x10_C000, 0x10_C001, 0x10_FFFF, 0x11_0000],
];

/// Terms over them, of which one set alone is left on some stretches, and the lists of the sets that they make.
const STRETCH_TERMS: &[(&[Step], &[u32])] = &[
    // one set
    (&[Step::Push(0)], &[0x4000, 0x4001, 0x7FFF, 0x8000]),
    (&[Step::Push(1)], &[0x3FFF, 0x4001, 0x7FFE, 0x8001]),
    (&[Step::Push(2)], &[0x50, 0x1_4001]),
    (
        &[Step::Push(3)],
        &[0x80, 0x81, 0x400, 0x401, 0x4000, 0x4400, 0x8000, 0x8080],
    ),
    (
        &[Step::Push(5)],
        &[0x10_C000, 0x10_C001, 0x10_FFFF, 0x11_0000],
    ),
    // one set, complemented
    (
        &[Step::Push(0), Step::Complement],
        &[0, 0x4000, 0x4001, 0x7FFF, 0x8000, 0x11_0000],
    ),
    (
        &[Step::Push(1), Step::Complement],
        &[0, 0x3FFF, 0x4001, 0x7FFE, 0x8001, 0x11_0000],
    ),
    (
        &[Step::Push(2), Step::Complement],
        &[0, 0x50, 0x1_4001, 0x11_0000],
    ),
    (
        &[Step::Push(3), Step::Complement],
        &[
            0, 0x80, 0x81, 0x400, 0x401, 0x4000, 0x4400, 0x8000, 0x8080, 0x11_0000,
        ],
    ),
    (
        &[Step::Push(5), Step::Complement],
        &[0, 0x10_C000, 0x10_C001, 0x10_FFFF],
    ),
    // complemented twice
    (
        &[Step::Push(0), Step::Complement, Step::Complement],
        &[0x4000, 0x4001, 0x7FFF, 0x8000],
    ),
    // one set is left where the other is constant
    (
        &[
            Step::Push(2),
            Step::Push(4),
            Step::Both(SetOperation::Difference),
        ],
        &[0x50, 0x62, 0x63, 0x1_4001],
    ),
    (
        &[
            Step::Push(5),
            Step::Push(4),
            Step::Both(SetOperation::Union),
        ],
        &[0x62, 0x63, 0x10_C000, 0x10_C001, 0x10_FFFF, 0x11_0000],
    ),
    (
        &[
            Step::Push(3),
            Step::Push(0),
            Step::Clear,
            Step::Both(SetOperation::Union),
        ],
        &[0x80, 0x81, 0x400, 0x401, 0x4000, 0x4400, 0x8000, 0x8080],
    ),
    (
        &[
            Step::Push(2),
            Step::Push(3),
            Step::Both(SetOperation::Difference),
        ],
        &[
            0x50, 0x80, 0x81, 0x400, 0x401, 0x4000, 0x4400, 0x8000, 0x8080, 0x1_4001,
        ],
    ),
    // one set before the stretch and behind it, and both in it
    (
        &[
            Step::Push(0),
            Step::Push(1),
            Step::Both(SetOperation::Union),
        ],
        &[0x3FFF, 0x4001, 0x7FFE, 0x8001],
    ),
    (
        &[
            Step::Push(0),
            Step::Push(1),
            Step::Both(SetOperation::ReverseDifference),
        ],
        &[0x3FFF, 0x4000, 0x7FFE, 0x7FFF, 0x8000, 0x8001],
    ),
    (
        &[
            Step::Push(0),
            Step::Push(1),
            Step::Both(SetOperation::Intersection),
            Step::Complement,
        ],
        &[0, 0x4000, 0x4001, 0x7FFF, 0x8000, 0x11_0000],
    ),
];

/// Puts the sets of the lists behind those that are there.
fn add_sets(alloc: Global, lists: &[&[u32]], sets: &mut Vec<CodePointInversionList>) -> Option<()> {
    for list in lists {
        let set = CodePointInversionList::try_from_inversion_list(alloc, list).ok()?;
        sets.push(set).ok()?;
    }
    Some(())
}

/// The index of the first term that makes another set, of the sets with these lists.
fn first_wrong(alloc: Global, lists: &[&[u32]], terms: &[(&[Step], &[u32])]) -> Option<usize> {
    let mut sets = Vec::new(alloc);
    if add_sets(alloc, lists, &mut sets).is_none() {
        return Some(terms.len());
    }
    for (index, (steps, list)) in terms.iter().enumerate() {
        if makes(alloc, &sets, steps, list) != Ok(true) {
            return Some(index);
        }
    }
    None
}

#[test]
fn terms_make_sets(rt: HostRuntime) {
    assert_equal(&rt, first_wrong(rt.alloc(), SETS, TERMS), None);
}

#[test]
fn terms_make_sets_at_borders(rt: HostRuntime) {
    assert_equal(
        &rt,
        first_wrong(rt.alloc(), BORDER_SETS, BORDER_TERMS),
        None,
    );
}

#[test]
fn terms_make_sets_at_stretches(rt: HostRuntime) {
    assert_equal(
        &rt,
        first_wrong(rt.alloc(), STRETCH_SETS, STRETCH_TERMS),
        None,
    );
}
