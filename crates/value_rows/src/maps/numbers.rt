//! The numbers that integers and characters unpack from and pack to.
use crate::fixtures::assert_equal;
use cp_trie::{TrieValue, ValueError};

#[test]
fn numbers_outside_a_type_are_refused(rt: HostRuntime) {
    assert_equal(&rt, u8::try_from_u32(256), Err(ValueError { value: 256 }));
    let refused = Err(ValueError { value: 65_536 });
    assert_equal(&rt, u16::try_from_u32(65_536), refused);
    for value in [0xD800, 0xDFFF, 0x11_0000] {
        assert_equal(&rt, char::try_from_u32(value), Err(ValueError { value }));
    }
}

#[test]
fn the_last_number_of_a_type_is_taken(rt: HostRuntime) {
    assert_equal(&rt, u8::try_from_u32(255), Ok(255));
    assert_equal(&rt, u16::try_from_u32(65_535), Ok(65_535));
    assert_equal(&rt, u32::try_from_u32(u32::MAX), Ok(u32::MAX));
    assert_equal(&rt, char::try_from_u32(0x10_FFFF), Ok('\u{10FFFF}'));
    assert_equal(&rt, 'a'.to_u32(), 97);
}
