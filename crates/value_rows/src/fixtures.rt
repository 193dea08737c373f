//! What tests of several subjects share.
use cp_trie::{TrieValue, ValueError};
use std::fmt;
use std::process::Abort;

/// Asserts that both values are the same. An assertion is proved slowly wherever it stands: tests share those of this
/// file.
pub(crate) fn assert_equal<T: PartialEq + fmt::Debug + Drop>(
    rt: &impl Abort,
    found: T,
    expected: T,
) {
    assert_eq!(rt; found, expected);
}

/// The words beside the first fact that does not hold.
pub(crate) fn first_false<'a>(facts: &[(bool, &'a str)]) -> Option<&'a str> {
    for (holds, words) in facts {
        if !*holds {
            return Some(*words);
        }
    }
    None
}

/// Asserts that each fact holds. A failure tells the words beside the first that does not.
pub(crate) fn assert_facts(rt: &impl Abort, facts: &[(bool, &str)]) {
    assert_equal(rt, first_false(facts), None);
}

/// Asserts that each value is the one beside it. A failure tells both, and their index.
pub(crate) fn assert_pairs<T: PartialEq + fmt::Debug>(rt: &impl Abort, pairs: &[(T, T)]) {
    for (index, (found, expected)) in pairs.iter().enumerate() {
        assert_equal(rt, (index, found), (index, expected));
    }
}

/// Asserts that each name is the text beside it. A failure tells the first text that is not the name.
pub(crate) fn assert_names(rt: &impl Abort, names: &[(&[u8], &str)]) {
    for (name, text) in names {
        assert!(rt; *name == text.as_bytes(), "for {text}");
    }
}

/// Asserts that each number unpacks to the value beside it, or is refused where there is none.
pub(crate) fn assert_unpacks<T: TrieValue + fmt::Debug>(
    rt: &impl Abort,
    rows: &[(u32, Option<T>)],
) {
    for (value, expected) in rows {
        let refused = ValueError { value: *value };
        let found = T::try_from_u32(*value);
        assert_equal(rt, (*value, found), (*value, expected.ok_or(refused)));
    }
}

/// What the value packs to to which the number unpacks.
fn packed_again<T: TrieValue>(number: u32) -> Result<u32, ValueError> {
    T::try_from_u32(number).map(T::to_u32)
}

/// Asserts that the number unpacks to a value that packs to it, and that the next number is refused.
pub(crate) fn assert_last<T: TrieValue>(rt: &impl Abort, last: u16) {
    let last = u32::from(last);
    let next = last + 1;
    assert_pairs(
        rt,
        &[
            (packed_again::<T>(last), Ok(last)),
            (packed_again::<T>(next), Err(ValueError { value: next })),
        ],
    );
}
