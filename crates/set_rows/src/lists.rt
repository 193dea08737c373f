//! Sets of code points by their inversion lists.
use crate::fixtures::{Row, assert_equal, first_wrong};
use cp_invlist::{CodePointInversionList, CodePointRange, InversionListError, NoMemory};
use std::alloc::Global;

/// What is expected of a set.
#[derive(Clone, Copy)]
enum Expected {
    List(&'static [u32]),
    /// How many code points it has.
    Size(usize),
    Ranges(&'static [CodePointRange]),
    /// How many ranges it has.
    RangeCount(usize),
    /// The ranges of the other code points.
    Gaps(&'static [CodePointRange]),
    Char(char, bool),
    Number(u32, bool),
    Empty(bool),
    /// That a copy equals it.
    Copied,
}

impl Row<CodePointInversionList> for Expected {
    fn holds(&self, alloc: Global, set: &CodePointInversionList) -> bool {
        match *self {
            Expected::List(list) => set.get_inversion_list() == list,
            Expected::Size(size) => set.size() == size,
            Expected::Ranges(ranges) => set.iter_ranges().eq(ranges.iter().copied()),
            Expected::RangeCount(count) => set.get_range_count() == count,
            Expected::Gaps(gaps) => set.iter_ranges_complemented().eq(gaps.iter().copied()),
            Expected::Char(ch, is_member) => set.contains(ch) == is_member,
            Expected::Number(c, is_member) => set.contains32(c) == is_member,
            Expected::Empty(is_empty) => set.is_empty() == is_empty,
            Expected::Copied => is_copied(alloc, set),
        }
    }
}

/// Whether a copy of the set equals it.
fn is_copied(alloc: Global, set: &CodePointInversionList) -> bool {
    let Ok(copy) = set.copy(alloc) else {
        return false;
    };
    copy == *set
}

/// The index of the first row that does not hold of the list's set.
fn first_wrong_of(
    alloc: Global,
    list: &[u32],
    rows: &[Expected],
) -> Result<Option<usize>, InversionListError> {
    let set = CodePointInversionList::try_from_inversion_list(alloc, list)?;
    Ok(first_wrong(alloc, &set, rows))
}

const LETTERS: &[u32] = &[0x41, 0x5B, 0x61, 0x7B];

const OF_LETTERS: &[Expected] = &[
    Expected::List(LETTERS),
    Expected::Size(52),
    Expected::Ranges(&[
        CodePointRange {
            start: 0x41,
            end: 0x5A,
        },
        CodePointRange {
            start: 0x61,
            end: 0x7A,
        },
    ]),
    Expected::RangeCount(2),
    Expected::Gaps(&[
        CodePointRange {
            start: 0,
            end: 0x40,
        },
        CodePointRange {
            start: 0x5B,
            end: 0x60,
        },
        CodePointRange {
            start: 0x7B,
            end: 0x10_FFFF,
        },
    ]),
    Expected::Char('Z', true),
    Expected::Char('[', false),
    Expected::Number(0x11_0041, false),
    Expected::Empty(false),
];

#[test]
fn a_list_gives_its_set(rt: HostRuntime) {
    let wrong = first_wrong_of(rt.alloc(), LETTERS, OF_LETTERS);
    assert_equal(&rt, wrong, Ok(None));
}

const OF_NOTHING: &[Expected] = &[
    Expected::Empty(true),
    Expected::Size(0),
    Expected::RangeCount(0),
];

#[test]
fn the_empty_list_gives_the_empty_set(rt: HostRuntime) {
    let wrong = first_wrong_of(rt.alloc(), &[], OF_NOTHING);
    assert_equal(&rt, wrong, Ok(None));
}

#[test]
fn a_copy_equals_its_set(rt: HostRuntime) {
    let wrong = first_wrong_of(rt.alloc(), LETTERS, &[Expected::Copied]);
    assert_equal(&rt, wrong, Ok(None));
}

/// Lists with a fault at index 1.
const FAULTY: &[&[u32]] = &[&[0x41, 0x41], &[0x41], &[0x41, 0x11_0001]];

/// Why the list is refused, if it is.
fn refusal(alloc: Global, list: &[u32]) -> Option<InversionListError> {
    CodePointInversionList::try_from_inversion_list(alloc, list).err()
}

#[test]
fn a_list_out_of_order_is_refused(rt: HostRuntime) {
    for list in FAULTY {
        let refused = Some(InversionListError::Invalid { index: 1 });
        assert_equal(&rt, refusal(rt.alloc(), list), refused);
    }
}

const OF_ALL: &[Expected] = &[
    Expected::List(&[0, 0x11_0000]),
    Expected::Size(1_114_112),
    Expected::RangeCount(1),
];

/// The index of the first row that does not hold of the set of all code points.
fn first_wrong_of_all(alloc: Global) -> Result<Option<usize>, NoMemory> {
    let all = CodePointInversionList::all(alloc)?;
    Ok(first_wrong(alloc, &all, OF_ALL))
}

#[test]
fn all_code_points_are_one_range(rt: HostRuntime) {
    assert_equal(&rt, first_wrong_of_all(rt.alloc()), Ok(None));
}
