//! Look-ups with a ledger of the caller's.
ghost use Rattle.std.specs.Prelude.{◌≡◌, ◌+◌, ◌<◌, ◌≤◌};

use crate::fixtures::assert_equal;
use crate::maps::fixtures::map_of;
use cp_invlist::Steps;
use cp_trie::{CodePointTrie, TrieError};
use std::alloc::Global;
use std::marker::Brand;
use std::sync::ledger::{Blank, Ledger};

/// Digits, letters and surrogates with the numbers of their general categories.
const CATEGORIES: &[(u32, u32)] = &[
    (0, 0),
    (0x30, 9),
    (0x3A, 0),
    (0x41, 1),
    (0x5B, 0),
    (0x61, 2),
    (0x7B, 0),
    (0xD800, 18),
    (0xE000, 0),
];

/// A look-up takes three reads at most, as its clause says; the test sees the values alone.
fn look_up<L: Ledger>(map: &CodePointTrie<u32>, c: u32, steps: &mut Steps<L>) -> u32
    ensures { steps.new ≤ steps.old + 3 }
{
    map.get32_steps(c, steps)
}

/// The values of a letter and of a number past the last code point, counted in the blank ledger.
fn look_up_both<L: Ledger>(map: &CodePointTrie<u32>, blank: Blank) -> (u32, u32)
    requires name { blank.name ≡ L.name }
    requires parts { blank.parts ≡ L.parts }
    requires some { 0 < blank.parts }
{
    let mut steps = Steps::<L>::new(blank);
    let letter = look_up(map, 0x61, &mut steps);
    let past_end = look_up(map, 0x11_0000, &mut steps);
    (letter, past_end)
}

/// The same of the map, and the values of the letter and of a surrogate where nobody counts.
fn looked_up(alloc: Global) -> Result<((u32, u32), u32, u32), TrieError> {
    let map = map_of(alloc, CATEGORIES, 0)?;
    let counted = look_up_both::<Brand>(&map, Blank::new(1));
    Ok((counted, map.get('a'), map.get32(0xDFFF)))
}

#[test]
fn a_look_up_takes_three_reads_at_most(rt: HostRuntime) {
    assert_equal(&rt, looked_up(rt.alloc()), Ok(((2, 0), 2, 18)));
}
