//! The changes of a set that is written in the order of code points.
use crate::block::Block;
use crate::word::{difference, first_bit};
use cp_invlist::laws::faultless;
use cp_invlist::words::turned;
use cp_invlist::{CodePointInversionList, InversionListError, NoMemory};
use std::alloc::Global;
use std::marker::Model;

/// Where a set changes, up to a place: the code points from which on it has members or has none, in turn. A contract sees it
/// as the list of these code points.
#[derive(Drop)]
pub(crate) struct Changes {
    elements: Vec<u32>,
}

impl Model for Changes {
    ghost use Rattle.std.specs.Prelude.{◌≡◌, ℕ, true, List};
    ghost use Rattle.cp_invlist.specs.InversionList.{ascends_from};

    ghost Value = { List ℕ };

    ghost view = { λ c. c.elements.items };

    ghost invariant = { λ c. ascends_from 0 c.elements.items ≡ true };
}

impl Changes {
    ghost use Rattle.std.specs.Prelude.{◌≡◌, ℕ, ◌+◌, ◌*◌, ◌<◌, ◌≤◌, Bool, true, not, [], ◌∷◌, ◌++◌, IfOk, OnOk};
    ghost use Rattle.cp_invlist.specs.InversionList.{ascends_from, has_even_length};
    ghost use Rattle.cp_invlist.specs.Words.{has_bit};
    ghost use Rattle.cp_terms.specs.Blocks.{block_has};
    ghost use Rattle.cp_terms.specs.Changes.{AreBefore, TellBelow, IsConstant};

    /// No changes.
    pub(crate) fn new(alloc: Global) -> Changes
        ensures { result ≡ [] }
    {
        Changes {
            elements: Vec::new(alloc),
        }
    }

    /// Whether the code points behind the changes are members.
    fn is_inside(&self) -> bool
        ensures { result ≡ not (has_even_length self.now) }
    {
        self.elements.len() % 2 == 1
    }

    /// Puts one change more behind these.
    fn push(&mut self, place: u32) -> Result<(), NoMemory>
        requires place { place ≤ 0x11_0000 }
        requires before { AreBefore place self.old }
        ensures { OnOk result (self.new ≡ self.old ++ place ∷ []) }
    {
        self.elements.push(place)?;
        Ok(())
    }

    /// From the place on the code points are members, or not.
    pub(crate) fn turn(&mut self, inside: bool, place: u32) -> Result<(), NoMemory>
        requires place { place ≤ 0x11_0000 }
        requires before { AreBefore place self.old }
        ensures before { OnOk result (AreBefore (place + 1) self.new) }
        ensures inside { OnOk result (not (has_even_length self.new) ≡ inside) }
        ensures members { OnOk result ((m : ℕ → Bool) (end : ℕ) →
            TellBelow m place self.old → IsConstant m place end inside → TellBelow m end self.new) }
    {
        if self.is_inside() != inside {
            self.push(place)?;
        }
        Ok(())
    }

    /// Puts further changes behind these.
    pub(crate) fn extend(&mut self, changes: &[u32]) -> Result<(), NoMemory>
        requires { ascends_from 0 self.old ≡ true → ascends_from 0 (self.old ++ changes.now) ≡ true }
        ensures { OnOk result (self.new ≡ self.old ++ changes.now) }
    {
        self.elements.extend_from_slice(changes)?;
        Ok(())
    }

    /// Writes the 64 code points from the place on.
    pub(crate) fn write(&mut self, word: u64, place: u32) -> Result<(), NoMemory>
        requires place { place + 64 ≤ 0x11_0000 }
        requires before { AreBefore place self.old }
        ensures before { OnOk result (AreBefore (place + 64) self.new) }
        ensures members { OnOk result ((m : ℕ → Bool) → TellBelow m place self.old →
            ((j : ℕ) → j < 64 → m (place + j) ≡ has_bit word j) → TellBelow m (place + 64) self.new) }
    {
        // Where the changes so far tell other than the word. From each change on they tell the opposite.
        let mut left = difference(word, self.is_inside());
        while left != 0 {
            let offset = first_bit(left);
            self.push(place + offset)?;
            left = turned(left, offset);
        }
        Ok(())
    }

    /// Writes the 16,384 code points from the place on. Where nothing changes in them, no word is looked at alone.
    pub(crate) fn write_block(&mut self, block: &Block, place: u32) -> Result<(), NoMemory>
        requires place { place + 0x4000 ≤ 0x11_0000 }
        requires before { AreBefore place self.old }
        ensures before { OnOk result (AreBefore (place + 0x4000) self.new) }
        ensures members { OnOk result ((m : ℕ → Bool) → TellBelow m place self.old →
            ((i j : ℕ) → i < 256 → j < 64 → m (place + 64 * i + j) ≡ block_has block.now i j) →
            TellBelow m (place + 0x4000) self.new) }
    {
        if block.is_filled(self.is_inside()) {
            return Ok(());
        }
        for index in 0..256u32 {
            self.write(block.words[index as usize], place + 64 * index)?;
        }
        Ok(())
    }

    /// The set that has no members behind the changes.
    pub(crate) fn to_set(&self, alloc: Global) -> Result<CodePointInversionList, NoMemory>
        requires { has_even_length self.now ≡ true }
        ensures { IfOk result (λ set. set ≡ self.now) }
    {
        faultless();
        match CodePointInversionList::try_from_inversion_list(alloc, &self.elements) {
            Ok(set) => Ok(set),
            Err(InversionListError::NoMemory) => Err(NoMemory),
            Err(InversionListError::Invalid { .. }) => unreachable!(),
        }
    }
}
