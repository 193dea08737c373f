//! Sets with an index.
use crate::fixtures::assert_equal;
use cp_invlist::{CodePointInversionList, CodePointInversionListBuilder, NoMemory};
use cp_strset::CodePointInversionListAndStringList;
use std::alloc::Global;

/// A set of so many ranges, one code point in three, from the place on.
fn apart(alloc: Global, place: u32, count: u32) -> Result<CodePointInversionList, NoMemory> {
    let mut builder = CodePointInversionListBuilder::new(alloc);
    for index in 0..count {
        builder.add32(place.saturating_add(index.saturating_mul(3)))?;
    }
    Ok(builder.build())
}

/// The first number that is a member of one set alone, up to some past the last code point.
fn first_difference(
    first: &CodePointInversionList,
    second: &CodePointInversionList,
) -> Option<u32> {
    (0..0x11_0100).find(|number| first.contains32(*number) != second.contains32(*number))
}

/// What a set has once it was asked for an index twice.
#[derive(PartialEq, Debug, Drop)]
struct Indexed {
    /// Whether the list is long.
    is_long: bool,
    /// How many words there are.
    words: usize,
    /// How many words a copy of the set has.
    copied_words: usize,
    /// The first number that only the set or its list has.
    difference: Option<u32>,
    /// Whether the set is as it was.
    is_same: bool,
}

fn by_index(alloc: Global, place: u32, count: u32) -> Option<Indexed> {
    let Ok(plain) = apart(alloc, place, count) else {
        return None;
    };
    let Ok(mut set) = plain.copy(alloc) else {
        return None;
    };
    if set.index(alloc).is_err() || set.index(alloc).is_err() {
        return None;
    }
    let Ok(copy) = set.copy(alloc) else {
        return None;
    };
    Some(Indexed {
        is_long: set.is_long(),
        words: set.words().len(),
        copied_words: copy.words().len(),
        difference: first_difference(&set, &plain),
        is_same: set == plain,
    })
}

/// Where the first range of a set is, how many ranges it has, and whether its list is long.
const SIZES: &[(u32, u32, bool)] = &[
    (0, 0, false),
    (0x61, 1, false),
    (0, 4_095, false),
    (0, 4_096, true),
    // The last range is the last code point.
    (0x10_FFFF - 3 * 19_999, 20_000, true),
];

#[test]
fn an_index_tells_the_members_of_the_list(rt: HostRuntime) {
    for (place, count, is_long) in SIZES {
        let expected = Indexed {
            is_long: *is_long,
            words: 17_408,
            copied_words: 0,
            difference: None,
            is_same: true,
        };
        assert_equal(&rt, by_index(rt.alloc(), *place, *count), Some(expected));
    }
}

/// How many words the index of a set of so many ranges has, and that of a set with these code points and no strings, where only
/// a long list gets one.
fn words_if_long(alloc: Global, count: u32) -> Option<(usize, usize)> {
    let Ok(mut list) = apart(alloc, 0, count) else {
        return None;
    };
    let Ok(copy) = list.copy(alloc) else {
        return None;
    };
    let Ok(mut set) = CodePointInversionListAndStringList::try_from(copy, Vec::new(alloc)) else {
        return None;
    };
    if list.index_if_long(alloc).is_err() || set.index_if_long(alloc).is_err() {
        return None;
    }
    Some((list.words().len(), set.code_points().words().len()))
}

#[test]
fn a_list_that_is_not_long_gets_no_index(rt: HostRuntime) {
    for (count, words) in [(0, 0), (4_095, 0), (4_096, 17_408)] {
        assert_equal(&rt, words_if_long(rt.alloc(), count), Some((words, words)));
    }
}

/// How many words the index of a set with strings has, whether its code points are as they were, and how many words a copy of
/// the set has.
fn indexed_with_strings(alloc: Global, count: u32) -> Option<(usize, bool, usize)> {
    let Ok(plain) = apart(alloc, 0, count) else {
        return None;
    };
    let Ok(list) = plain.copy(alloc) else {
        return None;
    };
    let Ok(mut set) = CodePointInversionListAndStringList::try_from(list, Vec::new(alloc)) else {
        return None;
    };
    let Ok(()) = set.index(alloc) else {
        return None;
    };
    let Ok(copy) = set.copy(alloc) else {
        return None;
    };
    let code_points = set.code_points();
    let copied_words = copy.code_points().words().len();
    Some((
        code_points.words().len(),
        *code_points == plain,
        copied_words,
    ))
}

#[test]
fn a_set_with_strings_has_the_index_of_its_code_points(rt: HostRuntime) {
    for count in [1, 4_096] {
        assert_equal(
            &rt,
            indexed_with_strings(rt.alloc(), count),
            Some((17_408, true, 0)),
        );
    }
}
