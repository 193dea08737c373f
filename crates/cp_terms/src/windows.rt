//! What is known of sets from a place on, in the order of code points.
ghost use Rattle.std.specs.Prelude.{◌≡◌, ◌+◌, ◌%◌, ◌<◌, ◌≤◌, length, IfSome};
ghost use Rattle.cp_invlist.specs.Windows.{IsWindow};
ghost use Rattle.cp_terms.specs.Blocks.{IsBlock};
ghost use Rattle.cp_terms.specs.Windows.{AreWindows};

use crate::block::Block;
use cp_invlist::{CodePointInversionList, Window};

/// Which of the 16,384 code points from the place on are members, by a window of the set.
pub(crate) fn read_block(set: &CodePointInversionList, window: Window, place: u32) -> Block
    requires place { place + 0x4000 ≤ 0x11_0000 }
    requires window { IsWindow set.now place window }
    requires ahead { place < window.next }
    ensures { IsBlock set.now place result }
{
    let mut block = Block::EMPTY;
    // First each word by itself, so that nothing depends on where the elements stand.
    for element in window.elements_before(set, place + 0x4000) {
        block.turn_word(*element - place);
    }
    block.carry(window.is_inside());
    block
}

/// The words of the set's index for the 16,384 code points from the place on, where the set has an index.
pub(crate) fn stretch_words(set: &CodePointInversionList, place: u32) -> Option<&[u64; 256]>
    requires { place % 64 ≡ 0 }
    ensures { IfSome result (λ words. IsBlock set.now place (record { words = words.now })) }
{
    set.words().get(place as usize / 64..)?.first_chunk::<256>()
}

/// Whether an index shows that some of the 16,384 code points from the place on are members and others are not.
fn is_seen_to_change(set: &CodePointInversionList, place: u32) -> bool
    requires { place % 64 ≡ 0 }
{
    match stretch_words(set, place) {
        Some(words) => (words[0] != 0 && words[0] != u64::MAX) || words[1..] != words[..255],
        None => false,
    }
}

/// The window moved on to the place. Where the set is seen to change behind it, the window may stay where it is, since no
/// element is searched for there unless the set is asked by itself.
fn moved_on(window: Window, set: &CodePointInversionList, place: u32) -> Window
    requires place { place < 0x11_0000 }
    requires aligned { place % 64 ≡ 0 }
    requires window { IsWindow set.now place window }
    ensures { IsWindow set.now place result }
{
    if is_seen_to_change(set, place) {
        window
    } else {
        window.moved(set, place)
    }
}

/// Moves all windows on to the place, but for those of sets that are seen to change behind it.
pub(crate) fn move_all(sets: &[&CodePointInversionList], windows: &mut [Window], place: u32)
    requires place { place < 0x11_0000 }
    requires aligned { place % 64 ≡ 0 }
    requires one_each { length windows.old ≡ length sets.now }
    requires windows { AreWindows sets.now place windows.old }
    ensures one_each { length windows.new ≡ length sets.now }
    ensures windows { AreWindows sets.now place windows.new }
{
    for (index, set) in sets.iter().enumerate() {
        windows[index] = moved_on(windows[index], set, place);
    }
}
