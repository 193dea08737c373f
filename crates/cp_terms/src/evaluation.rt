//! The set that a term stands for.
ghost use Rattle.std.specs.Prelude.{◌≡◌, ℕ, ◌+◌, ◌%◌, ◌<◌, ◌≤◌, ◌&&◌, Bool, map, length, IfOk, OnOk};
ghost use Rattle.cp_invlist.specs.InversionList.{contains, is_code_point};
ghost use Rattle.cp_terms.specs.Terms.{value_of, holds_at};
ghost use Rattle.cp_terms.specs.Windows.{AreWindows};
ghost use Rattle.cp_terms.specs.Changes.{AreBefore, TellBelow, AreMade, AreOfSet, members_of};

use crate::block::Block;
use crate::changes::Changes;
use crate::shorten::{Outcome, Shortened};
use crate::stack::Stack;
use crate::step::Step;
use crate::stretch::{STRETCH, Stretch};
use crate::windows::move_all;
use cp_invlist::{CodePointInversionList, LAST_CODE_POINT, NoMemory, Window};
use std::alloc::Global;

/// How many stretches there are.
const STRETCHES: u32 = (LAST_CODE_POINT + 1) / STRETCH;

/// What is made anew on each stretch, in memory that is used again.
struct Room {
    /// The term, shortened.
    term: Shortened,
    /// The sets that its steps make.
    stack: Stack,
}

// By hand, so that letting a value go is one call in each proof.
impl Drop for Room {
    fn drop(self) {
        let Self { term: _, stack: _ } = self;
    }
}

/// Writes the members on a stretch that the term in the room makes.
fn write_made(stretch: &Stretch<'_>, room: &mut Room, changes: &mut Changes) -> Result<(), NoMemory>
    requires { AreBefore stretch.now.start changes.old }
    ensures before { OnOk result (AreBefore (stretch.now.start + 0x4000) changes.new) }
    ensures members { OnOk result ((m : ℕ → Bool) → TellBelow m stretch.now.start changes.old →
        AreMade stretch.now.sets.now stretch.now.start room.old.term.steps.items m →
        TellBelow m (stretch.now.start + 0x4000) changes.new) }
{
    room.stack.evaluate(stretch, &room.term.steps)?;
    match room.stack.last() {
        Some(block) => changes.write_block(block, stretch.start),
        None => changes.write_block(&Block::EMPTY, stretch.start),
    }
}

/// Writes the members of the set with the index on a stretch, or where it is complemented the others.
fn write_set(
    sets: &[&CodePointInversionList],
    windows: &[Window],
    index: usize,
    complemented: bool,
    start: u32,
    changes: &mut Changes,
) -> Result<(), NoMemory>
    requires start { start + 0x4000 ≤ 0x11_0000 }
    requires windows_each { length windows.now ≡ length sets.now }
    requires windows { AreWindows sets.now start windows.now }
    requires before { AreBefore start changes.old }
    ensures before { OnOk result (AreBefore (start + 0x4000) changes.new) }
    ensures members { OnOk result ((m : ℕ → Bool) → TellBelow m start changes.old →
        AreOfSet sets.now start index complemented m → TellBelow m (start + 0x4000) changes.new) }
{
    let Some(set) = sets.get(index) else {
        // The set that there is not is empty.
        return changes.turn(complemented, start);
    };
    let window = windows[index].moved(set, start);
    changes.turn(window.is_inside() != complemented, start)?;
    changes.extend(window.elements_before(set, start + STRETCH))
}

/// Writes the members on a stretch.
fn write_stretch(
    sets: &[&CodePointInversionList],
    steps: &[Step],
    windows: &mut [Window],
    room: &mut Room,
    start: u32,
    changes: &mut Changes,
) -> Result<(), NoMemory>
    requires start { start + 0x4000 ≤ 0x11_0000 }
    requires aligned { start % 64 ≡ 0 }
    requires windows_each { length windows.old ≡ length sets.now }
    requires windows { AreWindows sets.now start windows.old }
    requires before { AreBefore start changes.old }
    ensures windows_each { length windows.new ≡ length sets.now }
    ensures windows { OnOk result (AreWindows sets.now (start + 0x4000) windows.new) }
    ensures before { OnOk result (AreBefore (start + 0x4000) changes.new) }
    ensures members { OnOk result (TellBelow (members_of sets.now steps.now) start changes.old →
        TellBelow (members_of sets.now steps.now) (start + 0x4000) changes.new) }
{
    move_all(sets, windows, start);
    room.term.shorten(windows, start + STRETCH, steps)?;
    match room.term.outcome() {
        Outcome::Constant(inside) => changes.turn(inside, start),
        Outcome::Set {
            index,
            complemented,
        } => write_set(sets, windows, index, complemented, start, changes),
        Outcome::Mixed => {
            let stretch = Stretch {
                sets,
                windows,
                start,
            };
            write_made(&stretch, room, changes)
        }
    }
}

/// Writes all stretches.
fn write_all(
    sets: &[&CodePointInversionList],
    steps: &[Step],
    windows: &mut [Window],
    room: &mut Room,
    changes: &mut Changes,
) -> Result<(), NoMemory>
    requires windows_each { length windows.old ≡ length sets.now }
    requires windows { AreWindows sets.now 0 windows.old }
    requires before { AreBefore 0 changes.old }
    ensures before { OnOk result (AreBefore 0x11_0000 changes.new) }
    ensures members { OnOk result (TellBelow (members_of sets.now steps.now) 0 changes.old →
        TellBelow (members_of sets.now steps.now) 0x11_0000 changes.new) }
{
    for stretch in 0..STRETCHES {
        write_stretch(sets, steps, windows, room, stretch * STRETCH, changes)?;
    }
    Ok(())
}

/// The set that the steps make of the sets: the last where they leave several, the empty set where they leave none. `NoMemory`
/// says that a request for memory was refused.
pub fn evaluate(
    alloc: Global,
    sets: &[&CodePointInversionList],
    steps: &[Step],
) -> Result<CodePointInversionList, NoMemory>
    ensures { IfOk result (λ set. (c : ℕ) →
        contains set c ≡ (is_code_point c && value_of (holds_at (map (λ s. s.now) sets.now) c) steps.now)) }
{
    let mut windows = vec![in alloc; Window::UNKNOWN; sets.len()]?;
    let mut room = Room {
        term: Shortened::new(alloc),
        stack: Stack::new(alloc),
    };
    let mut changes = Changes::new(alloc);
    write_all(sets, steps, &mut windows, &mut room, &mut changes)?;
    changes.turn(false, LAST_CODE_POINT + 1)?;
    changes.to_set(alloc)
}
