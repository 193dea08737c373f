//! Maps whose boundaries stand at the edges of pages and blocks, and maps with pages that are almost the same.
use crate::fixtures::assert_equal;
use crate::maps::fixtures::{assert_values, first_wrong, map_of, run};
use cp_trie::{CodePointMapRange, CodePointTrie, TrieError};
use std::alloc::{AllocError, Global};
use std::process::Abort;

/// The first of these places beside which the map has another value than it was made with.
fn first_wrong_start(map: &CodePointTrie<u32>, starts: &[(u32, u32)]) -> Option<u32> {
    let mut before = u32::MAX;
    for (start, value) in starts {
        if map.get32(start.wrapping_sub(1)) != before || map.get32(*start) != *value {
            return Some(*start);
        }
        before = *value;
    }
    first_wrong(map, &[(0x10_FFFF, before), (0x11_0000, u32::MAX)])
}

/// The same of a map whose values begin at these places.
fn first_wrong_start_of(alloc: Global, starts: &[(u32, u32)]) -> Result<Option<u32>, TrieError> {
    let map = map_of(alloc, starts, u32::MAX)?;
    Ok(first_wrong_start(&map, starts))
}

/// Asserts that a map whose values begin at these places has them there.
fn assert_starts(rt: &impl Abort, alloc: Global, starts: &[(u32, u32)]) {
    assert_equal(rt, first_wrong_start_of(alloc, starts), Ok(None));
}

/// The first and the last places of pages and blocks, and those beside them.
const EDGES: &[u32] = &[
    1, 0x3F, 0x40, 0x41, 0x7F, 0x80, 0xFFF, 0x1000, 0x1001, 0x103F, 0x1040, 0xFFFF, 0x1_0000,
    0x10_EFFF, 0x10_F000, 0x10_FFBF, 0x10_FFC0, 0x10_FFFE, 0x10_FFFF,
];

#[test]
fn a_boundary_at_an_edge_of_a_page_or_a_block_is_read(rt: HostRuntime) {
    for edge in EDGES {
        assert_starts(&rt, rt.alloc(), &[(0, 7), (*edge, 9)]);
    }
}

/// Values that begin at each edge.
fn starts_at_edges(alloc: Global) -> Result<Vec<(u32, u32)>, AllocError> {
    let mut starts = Vec::new(alloc);
    starts.push((0, 0))?;
    for (index, edge) in EDGES.iter().enumerate() {
        starts.push((*edge, (index % 3) as u32 + 1))?;
    }
    Ok(starts)
}

#[test]
fn boundaries_at_all_edges_of_pages_and_blocks_are_read(rt: HostRuntime) -> Result<(), AllocError> {
    let starts = starts_at_edges(rt.alloc())?;
    assert_starts(&rt, rt.alloc(), &starts);
    Ok(())
}

/// Pages of the values 0 and 1 that have another one at their last place.
const LAST: &[(u32, u32)] = &[
    (0, 0),
    (0x41, 1),
    (0x7F, 2),
    (0x80, 0),
    (0x81, 1),
    (0xBF, 3),
    (0xC0, 0),
    (0xC1, 1),
    (0x100, 0),
];

/// Places in these pages, and their values.
const LAST_VALUES: &[(u32, u32)] = &[
    (0x40, 0),
    (0x7E, 1),
    (0x7F, 2),
    (0xBF, 3),
    (0xFE, 1),
    (0xFF, 1),
];

#[test]
fn pages_that_differ_in_their_last_value_alone_stay_apart(rt: HostRuntime) {
    assert_starts(&rt, rt.alloc(), LAST);
    assert_values(&rt, rt.alloc(), LAST, u32::MAX, LAST_VALUES);
}

/// Pages of the value 2 that have another one at their first place, the second of them twice.
const FIRST: &[(u32, u32)] = &[
    (0, 0),
    (0x40, 1),
    (0x41, 2),
    (0x80, 3),
    (0x81, 2),
    (0xC0, 1),
    (0xC1, 2),
];

#[test]
fn pages_that_differ_in_their_first_value_alone_stay_apart(rt: HostRuntime) {
    assert_starts(&rt, rt.alloc(), FIRST);
}

/// Where values begin in a block, from its front, and the values.
const BLOCK: [(u32, u32); 4] = [(0, 5), (0x57, 6), (0x80, 7), (0x97, 5)];

fn push_block(starts: &mut Vec<(u32, u32)>, block: u32) -> Result<(), AllocError> {
    for (more, value) in BLOCK {
        starts.push((block.saturating_mul(0x1000).saturating_add(more), value))?;
    }
    Ok(())
}

/// Values that begin alike in each block, where pages are equal too.
fn starts_of_equal_blocks(alloc: Global) -> Result<Vec<(u32, u32)>, AllocError> {
    let mut starts = Vec::new(alloc);
    for block in 0..272u32 {
        push_block(&mut starts, block)?;
    }
    Ok(starts)
}

#[test]
fn equal_pages_and_equal_blocks_are_read_alike(rt: HostRuntime) -> Result<(), AllocError> {
    let starts = starts_of_equal_blocks(rt.alloc())?;
    assert_starts(&rt, rt.alloc(), &starts);
    Ok(())
}

/// So many runs whose lengths are pseudo-random, seven of eight of them short. Each has its number, from 1 on, as its value, and
/// the last has 0.
fn pseudo_random_runs(
    alloc: Global,
    count: u32,
) -> Result<Vec<CodePointMapRange<u32>>, AllocError> {
    let mut runs = Vec::new(alloc);
    let mut start = 0u32;
    let mut x = 12_345u32;
    for index in 1..count {
        x = x.wrapping_mul(1_103_515_245).wrapping_add(12_345);
        let more = if index % 8 == 0 { x >> 21 } else { x >> 29 };
        let end = start.wrapping_add(more);
        runs.push(run(start, end, index))?;
        start = end.wrapping_add(1);
    }
    runs.push(run(start, 0x10_FFFF, 0))?;
    Ok(runs)
}

/// How many numbers of the run have its value in the map.
fn right_in(map: &CodePointTrie<u32>, run: CodePointMapRange<u32>) -> u32 {
    let mut right = 0u32;
    for c in run.range.start..run.range.end.wrapping_add(1) {
        if map.get32(c) == run.value {
            right = right.wrapping_add(1);
        }
    }
    right
}

/// How many numbers of the runs have the value of their run in the map.
fn right_in_all(map: &CodePointTrie<u32>, runs: &[CodePointMapRange<u32>]) -> u32 {
    let mut right = 0u32;
    for run in runs {
        right = right.wrapping_add(right_in(map, *run));
    }
    right
}

/// How many runs there are, and how many numbers of them have the value of their run in their map.
fn right_in_map(alloc: Global, count: u32) -> Result<(usize, u32), TrieError> {
    let runs = pseudo_random_runs(alloc, count)?;
    let map = CodePointTrie::try_from_runs(alloc, runs, u32::MAX)?;
    let runs = pseudo_random_runs(alloc, count)?;
    Ok((runs.len(), right_in_all(&map, &runs)))
}

#[test]
fn each_code_point_has_the_value_of_its_run(rt: HostRuntime) {
    let right = right_in_map(rt.alloc(), 5_000);
    assert_equal(&rt, right, Ok((5_000, 0x11_0000)));
}
