//! Runs that make no map, and the maximal runs of maps.
use crate::fixtures::assert_equal;
use crate::maps::fixtures::{map_of, run};
use cp_invlist::{CodePointRange, NoMemory};
use cp_trie::{CodePointMapRange, CodePointTrie, TrieError};
use std::alloc::{AllocError, Global};

/// Runs, and their first fault.
type Faulty = (&'static [(u32, u32)], TrieError);

const FAULTY: &[Faulty] = &[
    (&[], TrieError::Gap { index: 0 }),
    (&[(0, 0x40), (0x42, 0x10_FFFF)], TrieError::Gap { index: 1 }),
    (&[(0, 0x40)], TrieError::Gap { index: 1 }),
    (&[(0, 0x11_0000)], TrieError::Order { index: 0 }),
    (&[(0, 9), (10, 9)], TrieError::Order { index: 1 }),
    (
        &[(0, u32::MAX), (0, 0x10_FFFF)],
        TrieError::Order { index: 0 },
    ),
    (&[(1, 0x10_FFFF)], TrieError::Gap { index: 0 }),
];

/// The fault of these runs.
fn fault_of(alloc: Global, ends: &[(u32, u32)]) -> Result<Option<TrieError>, AllocError> {
    let mut runs = Vec::new(alloc);
    for (start, end) in ends {
        runs.push(run(*start, *end, 0u8))?;
    }
    Ok(CodePointTrie::try_from_runs(alloc, runs, 0).err())
}

#[test]
fn runs_that_do_not_cover_are_refused(rt: HostRuntime) {
    for (index, (runs, fault)) in FAULTY.iter().enumerate() {
        let found = fault_of(rt.alloc(), runs);
        assert_equal(&rt, (index, found), (index, Ok(Some(*fault))));
    }
}

/// The ends and the values of four steps of a walk.
type Walk<T> = [Option<CodePointMapRange<T>>; 4];

/// A walk over the runs of a map of runs that cover, of which two have the same value, and the value past them.
fn covered(alloc: Global) -> Result<(Walk<u8>, u8), NoMemory> {
    let runs = vec![in alloc;
        CodePointMapRange {
            range: CodePointRange {
                start: 0,
                end: 0x40
            },
            value: 1
        },
        CodePointMapRange {
            range: CodePointRange {
                start: 0x41,
                end: 0x5A
            },
            value: 1
        },
        CodePointMapRange {
            range: CodePointRange {
                start: 0x5B,
                end: 0x10_FFFF
            },
            value: 2
        },
    ]?;
    let map = CodePointTrie::from_cover(alloc, runs, 9)?;
    let mut walk = map.iter_ranges();
    Ok((
        [walk.next(), walk.next(), walk.next(), walk.next()],
        map.get32(0x11_0000),
    ))
}

#[test]
fn runs_that_cover_make_a_map(rt: HostRuntime) {
    let expected = [
        Some(run(0, 0x5A, 1)),
        Some(run(0x5B, 0x10_FFFF, 2)),
        None,
        None,
    ];
    assert_equal(&rt, covered(rt.alloc()), Ok((expected, 9)));
}

/// A walk over the runs of a map.
fn walk(alloc: Global) -> Result<Walk<u16>, TrieError> {
    let map = map_of(alloc, &[(0, 0), (0x41, 1), (0x51, 1), (0x5B, 0)], 0)?;
    let mut walk = map.iter_ranges();
    Ok([walk.next(), walk.next(), walk.next(), walk.next()])
}

#[test]
fn runs_are_maximal(rt: HostRuntime) {
    let expected = [
        Some(run(0, 0x40, 0)),
        Some(run(0x41, 0x5A, 1)),
        Some(run(0x5B, 0x10_FFFF, 0)),
        None,
    ];
    assert_equal(&rt, walk(rt.alloc()), Ok(expected));
}

/// A walk over the mapped runs of a map.
fn mapped_walk(alloc: Global) -> Result<Walk<bool>, TrieError> {
    let map = map_of(alloc, &[(0, 'a'), (0x30, 'b'), (0x3A, '!')], '!')?;
    let mut walk = map.iter_ranges_mapped(|c| c >= 'a');
    Ok([walk.next(), walk.next(), walk.next(), walk.next()])
}

#[test]
fn mapped_runs_are_joined(rt: HostRuntime) {
    let expected = [
        Some(run(0, 0x39, true)),
        Some(run(0x3A, 0x10_FFFF, false)),
        None,
        None,
    ];
    assert_equal(&rt, mapped_walk(rt.alloc()), Ok(expected));
}
