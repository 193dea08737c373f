//! The set: its list, and what it answers.
ghost use Rattle.std.specs.Prelude.{◌≡◌, ℕ, ◌≤◌, ◌↔◌, ◌&&◌, IsTrue, IsErrOf, IfOk, OnOk, IfNone, Some, ◌/◌, nat_eq, nat_le, length, [], ◌∷◌, List};
ghost use Rattle.std.specs.Cmp.Lexicographic.{pointwise};
ghost use Rattle.cp_invlist.specs.Fault.{fault_of, IsFaultAt};
ghost use Rattle.cp_invlist.specs.Size.{count_members, SumsTo};
ghost use Rattle.cp_invlist.specs.InversionList.{contains, is_code_point, IsInversionList};
ghost use Rattle.cp_invlist.specs.Ranges.{AreMaximalRanges, is_outside};
ghost use Rattle.cp_invlist.specs.Words.{AreWords, AreAllOrNone};
ghost use Rattle.cp_invlist.specs.declared.ranges.CodePointRange.{CodePointRange};

use crate::error::{InversionListError, NoMemory};
use crate::ranges::{CodePointRange, ComplementedRanges, InversionListRanges, LAST_CODE_POINT};
use crate::words::{all_words, has_member};
use std::alloc::Global;
use std::marker::Model;

/// A set of code points, surrogates included, as an inversion list, which is ICU's name for the form: the first member and
/// the number past the last member of each maximal range, strictly ascending. So two sets with the same members have the
/// same list.
pub struct CodePointInversionList {
    elements: Vec<u32>,
    /// For each 64 code points which of them are members, where that is kept beside the list; else none.
    words: Vec<u64>,
}

// By hand, so that letting a value go is one call in each proof.
impl Drop for CodePointInversionList {
    fn drop(self) {
        let Self {
            elements: _,
            words: _,
        } = self;
    }
}

/// From so many elements on it takes about as much time to go along a list as along the words of all code points.
const LONG_LIST: usize = 1 << 13;

impl Model for CodePointInversionList {
    ghost use Rattle.std.specs.Prelude.{ℕ, List};
    ghost use Rattle.cp_invlist.specs.Words.{IsIndexed};

    ghost Value = { List ℕ };

    ghost view = { λ s. s.elements.items };

    ghost invariant = { λ s. IsIndexed s.elements.items s.words.items };
}

impl CodePointInversionList {
    pub(crate) fn from_elements(elements: Vec<u32>) -> CodePointInversionList
        requires { IsInversionList elements.items }
        ensures { result ≡ elements.items }
    {
        let words = Vec::new(*elements.allocator());
        CodePointInversionList { elements, words }
    }

    /// The set whose list this is.
    ///
    /// It answers `Invalid` where the list is no inversion list: with the first index whose element isn't above the one
    /// before it or is above 0x110000, else with the length where that is odd. `NoMemory` says that a request for memory was
    /// refused.
    pub fn try_from_inversion_list(
        alloc: Global,
        list: &[u32],
    ) -> Result<CodePointInversionList, InversionListError>
        ensures list { IfOk result (λ s. s ≡ list.now) }
        ensures canonical { OnOk result (IsInversionList list.now) }
        ensures invalid { (index : ℕ) → IsErrOf result (InversionListError.Invalid index) ↔ IsFaultAt list.now index }
    {
        if let Some(index) = find_fault(list) {
            return Err(InversionListError::Invalid { index });
        }
        let elements = Vec::from_slice(alloc, list)?;
        Ok(CodePointInversionList::from_elements(elements))
    }

    /// The set of all code points. `NoMemory` says that a request for memory was refused.
    pub fn all(alloc: Global) -> Result<CodePointInversionList, NoMemory>
        ensures members { IfOk result (λ s. (c : ℕ) → contains s c ≡ is_code_point c) }
        ensures list { IfOk result (λ s. s ≡ 0 ∷ 0x11_0000 ∷ []) }
    {
        let elements = Vec::from_slice(alloc, &[0, LAST_CODE_POINT + 1])?;
        Ok(CodePointInversionList::from_elements(elements))
    }

    /// Whether the character is a member.
    pub fn contains(&self, c: char) -> bool
        ensures { result ≡ contains self.now c }
    {
        self.contains32(c as u32)
    }

    /// Whether the number is a member. A number past 10FFFF is none. It is found by binary search, or where the set has an index
    /// by one read.
    pub fn contains32(&self, c: u32) -> bool
        ensures { result ≡ contains self.now c }
    {
        match self.words.get(c as usize / 64) {
            Some(word) => has_member(*word, c % 64),
            None => self.elements.partition_point(|element| *element <= c) % 2 == 1,
        }
    }

    /// Whether the list has 8,192 elements or more. From there on set expressions (`cp_terms`) are found faster with an index.
    pub fn is_long(&self) -> bool
        ensures { result ≡ nat_le 8192 (length self.now) }
    {
        self.elements.len() >= LONG_LIST
    }

    /// Keeps an index beside the list: a bit for each code point, 139 kB. The set stays as it is. With an index a member is
    /// found by one read, and set expressions go along the bits in place of the list (`cp_terms`), which pays where it
    /// `is_long`. `NoMemory` says that a request for memory was refused.
    pub fn index(&mut self, alloc: Global) -> Result<(), NoMemory>
        ensures { self.new ≡ self.old }
    {
        if self.words.is_empty() {
            self.words = all_words(alloc, self)?;
        }
        Ok(())
    }

    /// Keeps an index where the list `is_long`. The set stays as it is. `NoMemory` says that a request for memory was refused.
    pub fn index_if_long(&mut self, alloc: Global) -> Result<(), NoMemory>
        ensures { self.new ≡ self.old }
    {
        if self.is_long() {
            self.index(alloc)?;
        }
        Ok(())
    }

    /// The words of the index, one for each 64 code points in order, whose bits say which of them are members; none where
    /// the set has no index.
    pub fn words(&self) -> &[u64]
        ensures members { AreWords self.now result.now }
        ensures whole { AreAllOrNone result.now }
    {
        &self.words
    }

    /// The maximal ranges of members, in order. All members are code points.
    pub fn iter_ranges(&self) -> InversionListRanges<'_>
        ensures maximal { AreMaximalRanges (contains self.now) result }
        ensures only { (rs : List CodePointRange) → AreMaximalRanges (contains self.now) rs → rs ≡ result }
        ensures code_points { (c : ℕ) → (contains self.now c && is_code_point c) ≡ contains self.now c }
    {
        InversionListRanges::new(&self.elements)
    }

    /// The maximal ranges of the code points that are no members, in order.
    pub fn iter_ranges_complemented(&self) -> ComplementedRanges<'_>
        ensures maximal { AreMaximalRanges (is_outside self.now) result }
        ensures only { (rs : List CodePointRange) → AreMaximalRanges (is_outside self.now) rs → rs ≡ result }
    {
        ComplementedRanges::new(&self.elements)
    }

    /// How many maximal ranges of members there are.
    pub fn get_range_count(&self) -> usize
        ensures ranges { (rs : List CodePointRange) → AreMaximalRanges (contains self.now) rs → result ≡ length rs }
        ensures list { result ≡ length self.now / 2 }
    {
        self.elements.len() / 2
    }

    /// How many members the set has.
    pub fn size(&self) -> usize
        ensures counted { result ≡ count_members (contains self.now) 0x11_0000 }
        ensures bound { result ≤ 0x11_0000 }
        ensures summed { (rs : List CodePointRange) → AreMaximalRanges (contains self.now) rs → SumsTo rs result }
    {
        let mut size = 0;
        for range in InversionListRanges::new(&self.elements) {
            size += (range.end - range.start + 1) as usize;
        }
        size
    }

    /// The list: for each maximal range its first member and the number past its last member.
    pub fn get_inversion_list(&self) -> &[u32]
        ensures elements { result.now ≡ self.now }
        ensures canonical { IsInversionList self.now }
    {
        &self.elements
    }

    /// Whether the set has no member.
    pub fn is_empty(&self) -> bool
        ensures list { IsTrue result ↔ (self.now ≡ []) }
    {
        self.elements.is_empty()
    }

    /// An equal set, without an index. `NoMemory` says that a request for memory was refused.
    pub fn copy(&self, alloc: Global) -> Result<CodePointInversionList, NoMemory>
        ensures { IfOk result (λ s. s ≡ self.now) }
    {
        let elements = Vec::from_slice(alloc, &self.elements)?;
        Ok(CodePointInversionList::from_elements(elements))
    }
}

impl PartialEq for CodePointInversionList {
    ghost use Rattle.std.specs.Prelude.{nat_eq};
    ghost use Rattle.std.specs.Cmp.Lexicographic.{pointwise};
    ghost use Rattle.std.specs.Cmp.{partial_equiv_from_equiv};
    ghost use Rattle.std.specs.Cmp.Lexicographic.{nat_list_eq_equiv};

    ghost eq = { pointwise nat_eq };

    ghost laws = { partial_equiv_from_equiv nat_list_eq_equiv };

    fn eq(&self, other: &CodePointInversionList) -> bool
        ensures value { result ≡ pointwise nat_eq self.now other.now }
        ensures lists { IsTrue result ↔ (self.now ≡ other.now) }
        ensures members { IsTrue result ↔ ((c : ℕ) → contains self.now c ≡ contains other.now c) }
    {
        self.elements == other.elements
    }
}

impl Eq for CodePointInversionList {
    ghost use Rattle.std.specs.Cmp.Lexicographic.{nat_list_eq_equiv};

    ghost laws = { nat_list_eq_equiv };
}

/// The index of the first fault of a list that is no inversion list.
fn find_fault(list: &[u32]) -> Option<usize>
    ensures fault { result ≡ fault_of list.now }
    ensures none { IfNone result (IsInversionList list.now) }
{
    let mut low = 0;
    for (index, element) in list.iter().enumerate() {
        if *element < low || *element > LAST_CODE_POINT + 1 {
            return Some(index);
        }
        low = *element + 1;
    }
    if list.len() % 2 == 0 {
        None
    } else {
        Some(list.len())
    }
}
