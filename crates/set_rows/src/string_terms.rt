//! Terms over six leaves without numbers, each beside the set that it stands for.
ghost use Rattle.std.specs.Prelude.{ℕ, All, List, IfOk};
ghost use Rattle.cp_strset_terms.specs.Leaves.{FitsNumbers};

use crate::fixtures::{assert_equal, set_of};
use cp_invlist::CodePointInversionList;
use cp_strset::CodePointInversionListAndStringList;
use cp_strset_terms::{Leaf, SetOperation, Step, StringNumbers, evaluate};
use std::alloc::{AllocError, Global};

/// The letters `a` to `c`.
const LETTERS: &[u32] = &[0x61, 0x64];

/// Forty strings, and all of them but `ab`.
const MANY: &[&str] = &[
    "aa", "ab", "ac", "ad", "ae", "af", "ag", "ah", "ai", "aj", "ak", "al", "am", "an", "ao", "ap",
    "aq", "ar", "as", "at", "au", "av", "aw", "ax", "ay", "az", "ba", "bb", "bc", "bd", "be", "bf",
    "bg", "bh", "bi", "bj", "bk", "bl", "bm", "bn",
];

const MANY_BUT_ONE: &[&str] = &[
    "aa", "ac", "ad", "ae", "af", "ag", "ah", "ai", "aj", "ak", "al", "am", "an", "ao", "ap", "aq",
    "ar", "as", "at", "au", "av", "aw", "ax", "ay", "az", "ba", "bb", "bc", "bd", "be", "bf", "bg",
    "bh", "bi", "bj", "bk", "bl", "bm", "bn",
];

/// The inversion list of each leaf with strings, and its strings.
const LEAVES: &[(&[u32], &[&str])] = &[
    (&[0x62, 0x65], &["", "ab", "bc"]),
    (&[0x10_FFFF, 0x11_0000], &["ab", "zz"]),
    (&[], &["", "zz"]),
    (&[], &["ab", "abc", "b\u{301}"]),
    (&[], MANY),
];

/// The steps of a term, and the inversion list and the strings of its set. Leaf 0 is the letters, and those with strings follow.
const ROWS: &[(&[Step], &[u32], &[&str])] = &[
    // No steps, and leaves that aren't there.
    (&[], &[], &[]),
    (&[Step::Push(9)], &[], &[]),
    (&[Step::Push(9), Step::Complement], &[0, 0x11_0000], &[]),
    (
        &[
            Step::Push(9),
            Step::Push(1),
            Step::Both(SetOperation::Union),
        ],
        &[0x62, 0x65],
        &["", "ab", "bc"],
    ),
    (
        &[
            Step::Push(1),
            Step::Push(9),
            Step::Both(SetOperation::Intersection),
        ],
        &[],
        &[],
    ),
    (
        &[
            Step::Push(1),
            Step::Push(9),
            Step::Both(SetOperation::Difference),
        ],
        &[0x62, 0x65],
        &["", "ab", "bc"],
    ),
    // Leaves alone.
    (&[Step::Push(0)], LETTERS, &[]),
    (&[Step::Push(1)], &[0x62, 0x65], &["", "ab", "bc"]),
    (
        &[Step::Push(1), Step::Push(2)],
        &[0x10_FFFF, 0x11_0000],
        &["ab", "zz"],
    ),
    // Both ways round.
    (
        &[
            Step::Push(0),
            Step::Push(1),
            Step::Both(SetOperation::Union),
        ],
        &[0x61, 0x65],
        &["", "ab", "bc"],
    ),
    (
        &[
            Step::Push(1),
            Step::Push(4),
            Step::Both(SetOperation::Union),
        ],
        &[0x62, 0x65],
        &["", "ab", "abc", "bc", "b\u{301}"],
    ),
    (
        &[
            Step::Push(1),
            Step::Push(0),
            Step::Both(SetOperation::Difference),
        ],
        &[0x64, 0x65],
        &["", "ab", "bc"],
    ),
    (
        &[
            Step::Push(1),
            Step::Push(2),
            Step::Both(SetOperation::Difference),
        ],
        &[0x62, 0x65],
        &["", "bc"],
    ),
    (
        &[
            Step::Push(1),
            Step::Push(2),
            Step::Both(SetOperation::Intersection),
        ],
        &[],
        &["ab"],
    ),
    (
        &[
            Step::Push(0),
            Step::Push(1),
            Step::Both(SetOperation::Intersection),
        ],
        &[0x62, 0x64],
        &[],
    ),
    (
        &[
            Step::Push(1),
            Step::Push(2),
            Step::Both(SetOperation::ReverseDifference),
        ],
        &[0x10_FFFF, 0x11_0000],
        &["zz"],
    ),
    // A complement has no strings, and what is joined to it keeps its own.
    (
        &[Step::Push(1), Step::Complement],
        &[0, 0x62, 0x65, 0x11_0000],
        &[],
    ),
    (&[Step::Push(2), Step::Complement], &[0, 0x10_FFFF], &[]),
    (
        &[Step::Push(1), Step::Complement, Step::Complement],
        &[0x62, 0x65],
        &[],
    ),
    (
        &[
            Step::Push(1),
            Step::Complement,
            Step::Push(2),
            Step::Both(SetOperation::Union),
        ],
        &[0, 0x62, 0x65, 0x11_0000],
        &["ab", "zz"],
    ),
    (
        &[
            Step::Push(0),
            Step::Push(1),
            Step::Complement,
            Step::Both(SetOperation::Intersection),
        ],
        &[0x61, 0x62],
        &[],
    ),
    // What both have is found among the fewer strings, whichever stands above.
    (
        &[
            Step::Push(2),
            Step::Push(1),
            Step::Both(SetOperation::Intersection),
        ],
        &[],
        &["ab"],
    ),
    (
        &[
            Step::Push(3),
            Step::Push(1),
            Step::Push(2),
            Step::Both(SetOperation::Intersection),
            Step::Both(SetOperation::Union),
        ],
        &[],
        &["", "ab", "zz"],
    ),
    (
        &[
            Step::Push(3),
            Step::Push(2),
            Step::Push(1),
            Step::Both(SetOperation::Intersection),
            Step::Both(SetOperation::Union),
        ],
        &[],
        &["", "ab", "zz"],
    ),
    (
        &[
            Step::Push(1),
            Step::Push(0),
            Step::Both(SetOperation::Intersection),
        ],
        &[0x62, 0x64],
        &[],
    ),
    // The first and the last string of another leaf.
    (
        &[
            Step::Push(1),
            Step::Push(3),
            Step::Both(SetOperation::Intersection),
        ],
        &[],
        &[""],
    ),
    (
        &[
            Step::Push(2),
            Step::Push(3),
            Step::Both(SetOperation::Intersection),
        ],
        &[],
        &["zz"],
    ),
    (
        &[
            Step::Push(3),
            Step::Push(4),
            Step::Both(SetOperation::Difference),
        ],
        &[],
        &["", "zz"],
    ),
    // The upper set without the lower, which is made of two, or has one below it.
    (
        &[
            Step::Push(1),
            Step::Push(2),
            Step::Both(SetOperation::Union),
            Step::Push(4),
            Step::Both(SetOperation::ReverseDifference),
        ],
        &[],
        &["abc", "b\u{301}"],
    ),
    (
        &[
            Step::Push(3),
            Step::Push(1),
            Step::Push(4),
            Step::Both(SetOperation::ReverseDifference),
            Step::Both(SetOperation::Union),
        ],
        &[],
        &["", "abc", "b\u{301}", "zz"],
    ),
    // A set that is emptied or complemented has no strings to keep or to take away.
    (
        &[
            Step::Push(1),
            Step::Push(2),
            Step::Clear,
            Step::Both(SetOperation::Union),
        ],
        &[0x62, 0x65],
        &["", "ab", "bc"],
    ),
    (
        &[
            Step::Push(1),
            Step::Clear,
            Step::Push(4),
            Step::Both(SetOperation::Union),
        ],
        &[],
        &["ab", "abc", "b\u{301}"],
    ),
    (
        &[
            Step::Push(4),
            Step::Push(1),
            Step::Complement,
            Step::Both(SetOperation::Difference),
        ],
        &[],
        &["ab", "abc", "b\u{301}"],
    ),
    (
        &[
            Step::Push(1),
            Step::Complement,
            Step::Push(4),
            Step::Both(SetOperation::Intersection),
        ],
        &[],
        &[],
    ),
    (
        &[
            Step::Push(1),
            Step::Complement,
            Step::Push(4),
            Step::Both(SetOperation::ReverseDifference),
        ],
        &[],
        &["ab", "abc", "b\u{301}"],
    ),
    // Steps that find too few sets.
    (&[Step::Complement], &[], &[]),
    (&[Step::Both(SetOperation::Union)], &[], &[]),
    (
        &[Step::Push(1), Step::Both(SetOperation::Intersection)],
        &[0x62, 0x65],
        &["", "ab", "bc"],
    ),
    (
        &[Step::Push(1), Step::Both(SetOperation::ReverseDifference)],
        &[0x62, 0x65],
        &["", "ab", "bc"],
    ),
    (
        &[Step::Both(SetOperation::Intersection), Step::Push(2)],
        &[0x10_FFFF, 0x11_0000],
        &["ab", "zz"],
    ),
    (&[Step::Clear, Step::Push(3)], &[], &["", "zz"]),
    (&[Step::Push(1), Step::Clear], &[], &[]),
    // The same leaf again, and three of them.
    (
        &[
            Step::Push(1),
            Step::Push(1),
            Step::Both(SetOperation::Union),
            Step::Push(1),
            Step::Both(SetOperation::Union),
            Step::Push(1),
            Step::Both(SetOperation::Union),
        ],
        &[0x62, 0x65],
        &["", "ab", "bc"],
    ),
    (
        &[
            Step::Push(2),
            Step::Push(2),
            Step::Both(SetOperation::Union),
            Step::Push(2),
            Step::Both(SetOperation::Union),
            Step::Push(1),
            Step::Both(SetOperation::Intersection),
        ],
        &[],
        &["ab"],
    ),
    (
        &[
            Step::Push(1),
            Step::Push(1),
            Step::Both(SetOperation::Difference),
        ],
        &[],
        &[],
    ),
    (
        &[
            Step::Push(1),
            Step::Push(2),
            Step::Both(SetOperation::Union),
            Step::Push(3),
            Step::Both(SetOperation::Difference),
        ],
        &[0x62, 0x65, 0x10_FFFF, 0x11_0000],
        &["ab", "bc"],
    ),
    // Many strings beside few, and beside as many.
    (
        &[
            Step::Push(5),
            Step::Push(2),
            Step::Both(SetOperation::Difference),
        ],
        &[],
        MANY_BUT_ONE,
    ),
    (
        &[
            Step::Push(5),
            Step::Push(1),
            Step::Both(SetOperation::Intersection),
        ],
        &[],
        &["ab", "bc"],
    ),
    (
        &[
            Step::Push(5),
            Step::Push(5),
            Step::Both(SetOperation::Intersection),
        ],
        &[],
        MANY,
    ),
];

/// The sets of the leaves with strings.
fn sets(alloc: Global) -> Option<Vec<CodePointInversionListAndStringList>> {
    let mut sets = Vec::new(alloc);
    for (list, texts) in LEAVES {
        sets.push(set_of(alloc, list, texts)?).ok()?;
    }
    Some(sets)
}

/// The letters, and then the sets.
fn leaves<'a>(
    alloc: Global,
    letters: &'a CodePointInversionList,
    sets: &'a [CodePointInversionListAndStringList],
) -> Result<Vec<Leaf<'a>>, AllocError>
    ensures { IfOk result (λ leaves. (all : List (List ℕ)) → All (FitsNumbers all) leaves.items) }
{
    let mut leaves = Vec::new(alloc);
    leaves.push(Leaf::CodePoints(letters))?;
    for set in sets {
        leaves.push(Leaf::WithStrings(set))?;
    }
    Ok(leaves)
}

/// The set that the steps make of the leaves.
fn evaluated(alloc: Global, steps: &[Step]) -> Option<CodePointInversionListAndStringList> {
    let letters = CodePointInversionList::try_from_inversion_list(alloc, LETTERS).ok()?;
    let sets = sets(alloc)?;
    let leaves = leaves(alloc, &letters, &sets).ok()?;
    evaluate(alloc, &StringNumbers::new(alloc), &leaves, steps).ok()
}

/// Whether the steps make the set of the list and of the strings.
fn is_evaluated(alloc: Global, steps: &[Step], list: &[u32], texts: &[&str]) -> Option<bool> {
    let found = evaluated(alloc, steps)?;
    let expected = set_of(alloc, list, texts)?;
    Some(found == expected)
}

/// The first row that doesn't hold.
fn first_wrong(alloc: Global) -> Option<usize> {
    for (index, (steps, list, texts)) in ROWS.iter().enumerate() {
        if is_evaluated(alloc, steps, list, texts) != Some(true) {
            return Some(index);
        }
    }
    None
}

#[test]
fn terms_are_evaluated(rt: HostRuntime) {
    assert_equal(&rt, first_wrong(rt.alloc()), None);
}
