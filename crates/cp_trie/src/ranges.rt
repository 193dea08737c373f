//! Runs of code points with one value, and the walk over the maximal runs of a map.
ghost use Rattle.std.specs.Prelude.{◌≡◌};
ghost use Rattle.std.specs.Iterator.{YieldsFirst, item_count};

use cp_invlist::CodePointRange;
use std::marker::Model;

/// A run: code points that all have one value.
#[derive(Clone, Copy, Debug, PartialEq, Eq)]
pub struct CodePointMapRange<T> {
    /// The code points of the run.
    pub range: CodePointRange,
    /// The value of each of them.
    pub value: T,
}

/// The maximal runs of a map in order. A contract sees it as the list of those still to come.
#[derive(Drop)]
pub struct TrieRanges<'a, T> {
    runs: &'a [CodePointMapRange<T>],
}

impl<'a, T> Model for TrieRanges<'a, T> {
    ghost use Rattle.std.specs.Prelude.{List};
    ghost use Rattle.cp_trie.specs.declared.ranges.CodePointMapRange.{CodePointMapRange};

    ghost Value = { List (CodePointMapRange T) };

    ghost view = { λ s. s.runs.now };
}

impl<'a, T> TrieRanges<'a, T> {
    pub(crate) fn new(runs: &'a [CodePointMapRange<T>]) -> TrieRanges<'a, T>
        ensures { result ≡ runs.now }
    {
        TrieRanges { runs }
    }
}

impl<T: Copy> Iterator for TrieRanges<'_, T> {
    type Item = CodePointMapRange<T>;

    ghost next_gives = { YieldsFirst (λ runs. runs) };

    ghost remaining = { item_count (λ runs. runs) };

    fn next(&mut self) -> Option<CodePointMapRange<T>> {
        let (first, rest) = self.runs.split_first()?;
        self.runs = rest;
        Some(*first)
    }
}
