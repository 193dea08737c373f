//! A map whose values are still being read.
ghost use Rattle.std.specs.Prelude.{◌≡◌, ◌≤◌, ℕ, [], None, Some, IfOk, OnOk, OnErr, nat_lt, if◌then◌else◌};
ghost use Rattle.cp_invlist.specs.Ranges.{in_range};
ghost use Rattle.cp_trie.specs.Map.{value_at};
ghost use Rattle.cp_trie.specs.Runs.{value_in};
ghost use Rattle.prop_data.specs.MapBuilder.{end_of_runs, next_of, up_to};

use cp_invlist::{CodePointRange, LAST_CODE_POINT, NoMemory};
use cp_trie::{CodePointMapRange, CodePointTrie, TrieValue};
use std::alloc::Global;

/// A map whose values are read in ascending order. Code points that were given no value have the default.
#[derive(Drop)]
pub(crate) struct MapBuilder<T> {
    runs: Vec<CodePointMapRange<T>>,
    default: T,
    /// The last code point that was given a value.
    last: Option<u32>,
    ghost covers: { end_of_runs 0 runs.items ≡ Some (next_of last) },
}

impl<T: TrieValue> MapBuilder<T> {
    pub(crate) fn new(alloc: Global, default: T) -> MapBuilder<T>
        ensures runs { result.runs.items ≡ [] }
        ensures default { result.default ≡ default }
        ensures last { result.last ≡ None }
    {
        MapBuilder {
            runs: Vec::new(alloc),
            default,
            last: None,
        }
    }

    /// The last code point that was given a value.
    pub(crate) fn last(&self) -> Option<u32>
        ensures { result ≡ self.now.last }
    {
        self.last
    }

    /// The code point behind the last one that was given a value.
    fn next(&self) -> u32
        ensures value { result ≡ next_of self.now.last }
        ensures small { result ≤ 0x11_0000 }
    {
        match self.last {
            Some(last) => last + 1,
            None => 0,
        }
    }

    /// Gives the value to the code points behind the last one up to `end`.
    fn push(&mut self, end: u32, value: T) -> Result<(), NoMemory>
        requires ordered { next_of self.old.last ≤ end }
        requires within { end ≤ 0x10_FFFF }
        ensures last { OnOk result (self.new.last ≡ Some end) }
        ensures default { OnOk result (self.new.default ≡ self.old.default) }
        ensures values { OnOk result ((c : ℕ) → value_in self.new.runs.items self.new.default c ≡
            (if in_range (up_to self.old.last end) c then value else value_in self.old.runs.items self.old.default c)) }
        ensures kept { OnErr result ((c : ℕ) →
            value_in self.new.runs.items self.new.default c ≡ value_in self.old.runs.items self.old.default c) }
    {
        let range = CodePointRange {
            start: self.next(),
            end,
        };
        self.runs.push(CodePointMapRange { range, value })?;
        self.last = Some(end);
        Ok(())
    }

    /// Gives the default to the code points behind the last one and before `start`.
    fn fill_to(&mut self, start: u32) -> Result<(), NoMemory>
        requires ordered { next_of self.old.last ≤ start }
        requires within { start ≤ 0x11_0000 }
        ensures last { OnOk result (next_of self.new.last ≡ start) }
        ensures default { OnOk result (self.new.default ≡ self.old.default) }
        ensures values { OnOk result ((c : ℕ) →
            value_in self.new.runs.items self.new.default c ≡ value_in self.old.runs.items self.old.default c) }
        ensures kept { OnErr result ((c : ℕ) →
            value_in self.new.runs.items self.new.default c ≡ value_in self.old.runs.items self.old.default c) }
    {
        if self.next() < start {
            self.push(start - 1, self.default)?;
        }
        Ok(())
    }

    /// Gives the value to the code points of the range, which is behind the last one.
    pub(crate) fn add(&mut self, range: CodePointRange, value: T) -> Result<(), NoMemory>
        requires ordered { range.start ≤ range.end }
        requires within { range.end ≤ 0x10_FFFF }
        requires behind { next_of self.old.last ≤ range.start }
        ensures last { OnOk result (self.new.last ≡ Some range.end) }
        ensures default { OnOk result (self.new.default ≡ self.old.default) }
        ensures values { OnOk result ((c : ℕ) → value_in self.new.runs.items self.new.default c ≡
            (if in_range range c then value else value_in self.old.runs.items self.old.default c)) }
        ensures kept { OnErr result ((c : ℕ) →
            value_in self.new.runs.items self.new.default c ≡ value_in self.old.runs.items self.old.default c) }
    {
        self.fill_to(range.start)?;
        self.push(range.end, value)
    }

    /// The map, with this value past the last code point.
    pub(crate) fn build(mut self, alloc: Global, past: T) -> Result<CodePointTrie<T>, NoMemory>
        ensures { IfOk result (λ map. (c : ℕ) → value_at map c ≡
            (if nat_lt 0x10_FFFF c then past else value_in self.runs.items self.default c)) }
    {
        self.fill_to(LAST_CODE_POINT + 1)?;
        CodePointTrie::from_cover(alloc, self.runs, past)
    }
}
