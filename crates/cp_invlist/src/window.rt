//! What is known of a set from a place on, in the order of code points.
ghost use Rattle.std.specs.Prelude.{length};

use crate::ranges::LAST_CODE_POINT;
use crate::set::CodePointInversionList;
use crate::words::{filled, turned};

/// What is known of a set from a place on.
#[derive(Clone, Copy)]
pub struct Window {
    /// How many elements of its list are at most the place, where that is before `next`.
    pub taken: usize,
    /// The code points from the place up to this number, without it, are all members, or none is. It is at most the next element,
    /// and at most 110000, one past the last code point, where none is left.
    pub next: u32,
}

impl Window {
    ghost use Rattle.std.specs.Prelude.{◌≡◌, ◌<◌, ◌≤◌, ◌+◌};
    ghost use Rattle.cp_invlist.specs.Words.{IsWord};
    ghost use Rattle.cp_invlist.specs.Windows.{IsWindow, AreLeftBefore, is_inside};

    /// What is known of each set before it is looked at.
    pub const UNKNOWN: Window = Window { taken: 0, next: 0 };

    /// Whether the code points up to the next element are members.
    pub fn is_inside(self) -> bool
        ensures { result ≡ is_inside self }
    {
        self.taken % 2 == 1
    }

    /// The window at the place.
    fn at(set: &CodePointInversionList, place: u32) -> Window
        requires { place < 0x11_0000 }
        ensures window { IsWindow set.now place result }
        ensures ahead { place < result.next }
    {
        let elements = set.get_inversion_list();
        let taken = elements.partition_point(|element| *element <= place);
        let next = match elements.get(taken) {
            Some(element) => *element,
            None => LAST_CODE_POINT + 1,
        };
        Window { taken, next }
    }

    /// The window at a place further on, from one of the same set.
    pub fn moved(self, set: &CodePointInversionList, place: u32) -> Window
        requires place { place < 0x11_0000 }
        requires window { IsWindow set.now place self }
        ensures window { IsWindow set.now place result }
        ensures ahead { place < result.next }
    {
        if self.next > place {
            self
        } else {
            Window::at(set, place)
        }
    }

    /// The elements of the set from the next one on that lie before the end. The window is one of the same set.
    pub fn elements_before(self, set: &CodePointInversionList, end: u32) -> &[u32]
        requires { self.taken ≤ length set.now }
        ensures { AreLeftBefore set.now self.taken end result.now }
    {
        let left = &set.get_inversion_list()[self.taken..];
        &left[..left.partition_point(|element| *element < end)]
    }

    /// Which of the 64 code points from the place on, up to 10FFFF, are members. The window is one of the same set at the place,
    /// whose next element isn't before the place, and moves on behind them.
    pub(crate) fn word(&mut self, set: &CodePointInversionList, place: u32) -> u64
        requires place { place + 64 ≤ 0x11_0000 }
        requires window { IsWindow set.now place self.old }
        requires ahead { place ≤ self.old.next }
        ensures word { IsWord set.now place result }
        ensures window { IsWindow set.now (place + 64) self.new }
        ensures ahead { place + 64 ≤ self.new.next }
    {
        let elements = set.get_inversion_list();
        let mut taken = self.taken;
        let mut word = filled(self.is_inside());
        while let Some(element) = elements.get(taken) {
            let offset = *element - place;
            if offset >= 64 {
                let next = *element;
                *self = Window { taken, next };
                return word;
            }
            word = turned(word, offset);
            taken += 1;
        }
        let next = LAST_CODE_POINT + 1;
        *self = Window { taken, next };
        word
    }
}
