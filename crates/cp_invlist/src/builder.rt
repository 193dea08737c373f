//! The builder, whose list is canonical after each call.
ghost use Rattle.std.specs.Prelude.{◌≡◌, ℕ, ◌+◌, ◌-◌, ◌||◌, ◌&&◌, not, ◌==◌, ◌<◌, ◌≤◌, [], ◌∷◌, ◌++◌, OnOk, OnErr, vec_len, length, min};
ghost use Rattle.std.specs.List.{splice};
ghost use Rattle.cp_invlist.specs.InversionList.{contains, is_code_point, is_added, IsInversionList};
ghost use Rattle.cp_invlist.specs.Merge.{IsKept};
ghost use Rattle.cp_invlist.specs.Cuts.{CutBefore, CutAfter};
ghost use Rattle.cp_invlist.specs.Ranges.{in_code_points};

use crate::error::NoMemory;
use crate::merge::{Operation, merge, merge_uncounted};
use crate::ranges::{CodePointRange, LAST_CODE_POINT};
use crate::set::CodePointInversionList;
use crate::steps::Steps;
use std::alloc::Global;
use std::marker::Model;
use std::sync::ledger::Ledger;

/// Room for so many elements is left to a set, however few it has.
const LITTLE_ROOM: usize = 64;

/// Builds a set step by step: members are added, sets are joined, taken away and kept. Where memory is refused (`NoMemory`) a
/// step changes nothing. A contract sees the builder as the inversion list of the set so far.
#[derive(Drop)]
pub struct CodePointInversionListBuilder {
    elements: Vec<u32>,
}

impl Model for CodePointInversionListBuilder {
    ghost use Rattle.std.specs.Prelude.{ℕ, List};
    ghost use Rattle.cp_invlist.specs.InversionList.{IsInversionList};

    ghost Value = { List ℕ };

    ghost view = { λ b. b.elements.items };

    ghost invariant = { λ b. IsInversionList b.elements.items };
}

impl CodePointInversionListBuilder {
    /// The empty set.
    pub fn new(alloc: Global) -> CodePointInversionListBuilder
        ensures { result ≡ [] }
    {
        CodePointInversionListBuilder {
            elements: Vec::new(alloc),
        }
    }

    /// Adds one code point. A number past 10FFFF adds nothing.
    pub fn add32(&mut self, c: u32) -> Result<(), NoMemory>
        ensures ok { OnOk result ((d : ℕ) → contains self.new d ≡ (contains self.old d || is_added c d)) }
        ensures err { OnErr result (self.new ≡ self.old) }
    {
        self.add_range32(CodePointRange { start: c, end: c })
    }

    /// Adds one character.
    pub fn add_char(&mut self, c: char) -> Result<(), NoMemory>
        ensures ok { OnOk result ((d : ℕ) → contains self.new d ≡ (contains self.old d || d == c)) }
        ensures err { OnErr result (self.new ≡ self.old) }
    {
        self.add32(c as u32)
    }

    /// Adds the code points of the range up to 10FFFF. Where the range starts behind the last member, it takes constant time but
    /// for growth. Else it takes a binary search and one move of what stands behind the range.
    pub fn add_range32(&mut self, range: CodePointRange) -> Result<(), NoMemory>
        ensures ok { OnOk result ((d : ℕ) → contains self.new d ≡ (contains self.old d || in_code_points range d)) }
        ensures err { OnErr result (self.new ≡ self.old) }
    {
        if range.start > range.end || range.start > LAST_CODE_POINT {
            return Ok(());
        }
        let past = past_end(range);
        match self.elements.last() {
            Some(last) if range.start < *last => self.join(range)?,
            Some(last) if range.start == *last => put_last(&mut self.elements, past),
            _ => push_both(&mut self.elements, range.start, past)?,
        }
        Ok(())
    }

    /// Adds a range that starts in front of the last element, with which ranges of the list may become one.
    // Apart, so that the ways that are short become part of the loops that add ranges in order.
    #[inline(never)]
    fn join(&mut self, range: CodePointRange) -> Result<(), NoMemory>
        requires some { range.start ≤ range.end }
        requires within { range.start ≤ 0x10_FFFF }
        ensures ok { OnOk result ((d : ℕ) → contains self.new d ≡ (contains self.old d || in_code_points range d)) }
        ensures err { OnErr result (self.new ≡ self.old) }
    {
        let past = past_end(range);
        let ends = [range.start, past];
        let low = cut_before(&self.elements, range.start);
        let high = cut_after(&self.elements, past);
        // An end that lies within a range of members, or touches one, is no end of the joined range.
        replace(&mut self.elements, low, high, &ends[low % 2..2 - high % 2])
    }

    /// Adds the members of the set. It goes once along both lists.
    pub fn add_set(&mut self, set: &CodePointInversionList) -> Result<(), NoMemory>
        ensures ok { OnOk result ((d : ℕ) → contains self.new d ≡ (contains self.old d || contains set.now d)) }
        ensures err { OnErr result (self.new ≡ self.old) }
    {
        self.merge_with(Operation::Union, set)
    }

    /// `add_set`, which counts one step for each element that it takes from either list: all elements of both, or
    /// fewer where a request for memory was refused on the way.
    pub fn add_set_steps<L: Ledger>(
        &mut self,
        set: &CodePointInversionList,
        steps: &mut Steps<L>,
    ) -> Result<(), NoMemory>
        ensures ok { OnOk result ((d : ℕ) → contains self.new d ≡ (contains self.old d || contains set.now d)) }
        ensures err { OnErr result (self.new ≡ self.old) }
        ensures counted { OnOk result (steps.new ≡ steps.old + (length self.old + length set.now)) }
        ensures at_most { OnErr result (steps.new ≤ steps.old + (length self.old + length set.now)) }
    {
        self.merge_with_steps(Operation::Union, set, steps)
    }

    /// Removes the members of the set. It goes once along both lists.
    pub fn remove_set(&mut self, set: &CodePointInversionList) -> Result<(), NoMemory>
        ensures ok { OnOk result ((d : ℕ) → contains self.new d ≡ (contains self.old d && not (contains set.now d))) }
        ensures err { OnErr result (self.new ≡ self.old) }
    {
        self.merge_with(Operation::Difference, set)
    }

    /// `remove_set`, which counts one step for each element that it takes from either list: all elements of both, or
    /// fewer where a request for memory was refused on the way.
    pub fn remove_set_steps<L: Ledger>(
        &mut self,
        set: &CodePointInversionList,
        steps: &mut Steps<L>,
    ) -> Result<(), NoMemory>
        ensures ok { OnOk result ((d : ℕ) → contains self.new d ≡ (contains self.old d && not (contains set.now d))) }
        ensures err { OnErr result (self.new ≡ self.old) }
        ensures counted { OnOk result (steps.new ≡ steps.old + (length self.old + length set.now)) }
        ensures at_most { OnErr result (steps.new ≤ steps.old + (length self.old + length set.now)) }
    {
        self.merge_with_steps(Operation::Difference, set, steps)
    }

    /// Removes what is no member of the set. It goes once along both lists.
    pub fn retain_set(&mut self, set: &CodePointInversionList) -> Result<(), NoMemory>
        ensures ok { OnOk result ((d : ℕ) → contains self.new d ≡ (contains self.old d && contains set.now d)) }
        ensures err { OnErr result (self.new ≡ self.old) }
    {
        self.merge_with(Operation::Intersection, set)
    }

    /// `retain_set`, which counts one step for each element that it takes from either list: all elements of both, or
    /// fewer where a request for memory was refused on the way.
    pub fn retain_set_steps<L: Ledger>(
        &mut self,
        set: &CodePointInversionList,
        steps: &mut Steps<L>,
    ) -> Result<(), NoMemory>
        ensures ok { OnOk result ((d : ℕ) → contains self.new d ≡ (contains self.old d && contains set.now d)) }
        ensures err { OnErr result (self.new ≡ self.old) }
        ensures counted { OnOk result (steps.new ≡ steps.old + (length self.old + length set.now)) }
        ensures at_most { OnErr result (steps.new ≤ steps.old + (length self.old + length set.now)) }
    {
        self.merge_with_steps(Operation::Intersection, set, steps)
    }

    /// Takes the complement: the code points that were no members.
    pub fn complement(&mut self) -> Result<(), NoMemory>
        ensures ok { OnOk result ((d : ℕ) → contains self.new d ≡ (is_code_point d && not (contains self.old d))) }
        ensures err { OnErr result (self.new ≡ self.old) }
    {
        let all = [0, LAST_CODE_POINT + 1];
        let alloc = *self.elements.allocator();
        self.elements = merge_uncounted(alloc, Operation::Difference, &all, &self.elements)?;
        Ok(())
    }

    fn merge_with(
        &mut self,
        operation: Operation,
        set: &CodePointInversionList,
    ) -> Result<(), NoMemory>
        ensures ok { OnOk result (IsKept operation self.old set.now self.new) }
        ensures err { OnErr result (self.new ≡ self.old) }
    {
        let alloc = *self.elements.allocator();
        self.elements = merge_uncounted(
            alloc,
            operation,
            &self.elements,
            set.get_inversion_list(),
        )?;
        Ok(())
    }

    fn merge_with_steps<L: Ledger>(
        &mut self,
        operation: Operation,
        set: &CodePointInversionList,
        steps: &mut Steps<L>,
    ) -> Result<(), NoMemory>
        ensures ok { OnOk result (IsKept operation self.old set.now self.new) }
        ensures err { OnErr result (self.new ≡ self.old) }
        ensures counted { OnOk result (steps.new ≡ steps.old + (length self.old + length set.now)) }
        ensures at_most { OnErr result (steps.new ≤ steps.old + (length self.old + length set.now)) }
    {
        let alloc = *self.elements.allocator();
        self.elements = merge(
            alloc,
            operation,
            &self.elements,
            set.get_inversion_list(),
            steps,
        )?;
        Ok(())
    }

    /// The set that was built.
    pub fn build(self) -> CodePointInversionList
        ensures list { result ≡ self }
        ensures canonical { IsInversionList result }
    {
        CodePointInversionList::from_elements(without_spare_room(self.elements))
    }
}

/// The elements, without room for many more: a merge takes room for all of both lists, and may keep few.
fn without_spare_room(mut elements: Vec<u32>) -> Vec<u32>
    ensures { result.items ≡ elements.items }
{
    if elements.capacity() > LITTLE_ROOM && elements.capacity() / 2 > elements.len() {
        elements.shrink_to_fit();
    }
    elements
}

/// The number past the last code point of the range, which has one.
fn past_end(range: CodePointRange) -> u32
    ensures { result ≡ min range.end 0x10_FFFF + 1 }
{
    range.end.min(LAST_CODE_POINT) + 1
}

/// Puts both ends of a range behind all elements. Room for both is asked for first, so that neither is put alone.
fn push_both(elements: &mut Vec<u32>, start: u32, past: u32) -> Result<(), NoMemory>
    ensures ok { OnOk result (elements.new.items ≡ elements.old.items ++ start ∷ past ∷ []) }
    ensures err { OnErr result (elements.new.items ≡ elements.old.items) }
{
    elements.reserve(2)?;
    elements.push(start)?;
    elements.push(past)?;
    Ok(())
}

/// Puts the number in place of the last element.
fn put_last(elements: &mut Vec<u32>, number: u32)
    requires { 0 < vec_len elements.old }
    ensures { elements.new.items ≡
        splice elements.old.items (vec_len elements.old - 1) (vec_len elements.old) (number ∷ []) }
{
    if let Some(last) = elements.last_mut() {
        *last = number;
    }
}

/// The place before the first element that is at least the number.
fn cut_before(elements: &[u32], number: u32) -> usize
    requires { IsInversionList elements.now }
    ensures bound { result ≤ length elements.now }
    ensures cut { CutBefore number elements.now result }
{
    elements.partition_point(|element| *element < number)
}

/// The place behind the last element that is at most the number.
fn cut_after(elements: &[u32], number: u32) -> usize
    requires { IsInversionList elements.now }
    ensures bound { result ≤ length elements.now }
    ensures cut { CutAfter number elements.now result }
{
    elements.partition_point(|element| *element <= number)
}

/// Puts the given elements in place of those from `low` up to `high`.
fn replace(elements: &mut Vec<u32>, low: usize, high: usize, with: &[u32]) -> Result<(), NoMemory>
    requires ordered { low ≤ high }
    requires within { high ≤ vec_len elements.old }
    ensures ok { OnOk result (elements.new.items ≡ splice elements.old.items low high with.now) }
    ensures err { OnErr result (elements.new.items ≡ elements.old.items) }
{
    elements.splice(low..high, with.iter().copied())?;
    Ok(())
}
