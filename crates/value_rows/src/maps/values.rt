//! What maps answer at numbers, and which numbers have a value.
use crate::fixtures::assert_equal;
use crate::maps::fixtures::{assert_values, first_wrong, map_of};
use cp_trie::{CodePointTrie, TrieError, ValueTest};
use std::alloc::Global;

/// The letters from 41 to 5A have the value 1, and all others 0.
const LETTERS: &[(u32, u8)] = &[(0, 0), (0x41, 1), (0x5B, 0)];

/// Numbers around the letters, and their values.
const VALUES: &[(u32, u8)] = &[
    (0, 0),
    (0x40, 0),
    (0x41, 1),
    (0x5A, 1),
    (0x5B, 0),
    (0x10_FFFF, 0),
    (0x11_0000, 0),
];

#[test]
fn values_are_read(rt: HostRuntime) {
    assert_values(&rt, rt.alloc(), LETTERS, 0, VALUES);
}

/// The values of two characters.
fn values_of_characters(alloc: Global) -> Result<(u8, u8), TrieError> {
    let map = map_of(alloc, LETTERS, 0)?;
    Ok((map.get('@'), map.get('A')))
}

#[test]
fn a_character_has_the_value_of_its_number(rt: HostRuntime) {
    assert_equal(&rt, values_of_characters(rt.alloc()), Ok((0, 1)));
}

/// The first number at which the copy of a map has another value.
fn first_wrong_of_copy(alloc: Global) -> Option<Option<u32>> {
    let map = map_of(alloc, LETTERS, 0).ok()?;
    let copy = map.copy(alloc).ok()?;
    Some(first_wrong(&copy, VALUES))
}

#[test]
fn a_copy_answers_alike(rt: HostRuntime) {
    assert_equal(&rt, first_wrong_of_copy(rt.alloc()), Some(None));
}

/// The value at the last code point, at the number behind it, and past the end.
fn last_values(alloc: Global) -> Result<[char; 3], TrieError> {
    let map = map_of(alloc, &[(0, 'a')], 'z')?;
    Ok([
        map.get32(0x10_FFFF),
        map.get32(0x11_0000),
        map.error_value(),
    ])
}

#[test]
fn past_the_last_code_point_stands_the_error_value(rt: HostRuntime) {
    assert_equal(&rt, last_values(rt.alloc()), Ok(['a', 'z', 'z']));
}

/// Whether the numbers that have the value are those of the inversion list.
fn has_set(alloc: Global, map: &CodePointTrie<u8>, value: u8, list: &[u32]) -> bool {
    let set = map.get_set_for_value(alloc, value);
    set.is_ok_and(|set| set.get_inversion_list() == list)
}

/// Whether a value, and one that no number has, have their sets.
fn have_sets(alloc: Global) -> Result<bool, TrieError> {
    let map = map_of(alloc, LETTERS, 0)?;
    Ok(has_set(alloc, &map, 0, &[0, 0x41, 0x5B, 0x11_0000]) && has_set(alloc, &map, 2, &[]))
}

#[test]
fn the_set_of_a_value_has_each_of_its_runs(rt: HostRuntime) {
    assert_equal(&rt, have_sets(rt.alloc()), Ok(true));
}

/// Passed by the values from a number on, and counts the values that it was asked for.
#[derive(Clone, Copy)]
struct FromOn {
    least: u8,
    asked: usize,
}

impl ValueTest<u8> for FromOn {
    ghost use Rattle.std.specs.Prelude.{nat_le};

    ghost passes = { λ test value. nat_le test.least value };

    fn passes(&mut self, value: u8) -> bool {
        self.asked = self.asked.wrapping_add(1);
        self.least <= value
    }
}

/// Whether the numbers with these values from a number on are those of the inversion list, and how many values were asked for.
fn has_set_where(
    alloc: Global,
    starts: &[(u32, u8)],
    least: u8,
    list: &[u32],
) -> Result<(bool, usize), TrieError> {
    let map = map_of(alloc, starts, 9)?;
    let mut test = FromOn { least, asked: 0 };
    let set = map.get_set_where(alloc, &mut test);
    let is_same = set.is_ok_and(|set| set.get_inversion_list() == list);
    Ok((is_same, test.asked))
}

#[test]
fn a_set_has_the_runs_whose_values_pass(rt: HostRuntime) {
    let digits: &[(u32, u8)] = &[(0, 0), (0x30, 1), (0x35, 2), (0x3A, 0), (0x10_FFFF, 1)];
    let rows: [(u8, &[u32]); 3] = [
        (0, &[0, 0x11_0000]),
        (1, &[0x30, 0x3A, 0x10_FFFF, 0x11_0000]),
        (3, &[]),
    ];
    for (least, list) in rows {
        assert_equal(
            &rt,
            has_set_where(rt.alloc(), digits, least, list),
            Ok((true, 5)),
        );
    }
}
