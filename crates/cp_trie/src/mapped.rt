//! The walk over the maximal runs of mapped values.
ghost use Rattle.std.specs.Prelude.{◌≡◌, length};
ghost use Rattle.std.specs.Iterator.{at_most};
ghost use Rattle.cp_trie.specs.Mapped.{TakesEach, KeepsMapping, IsPassingFront, MappedStep};

use crate::ranges::CodePointMapRange;
use cp_invlist::CodePointRange;
use std::marker::PhantomData;

/// The maximal runs of code points whose mapped values are equal by `==`, in order, each with the mapped value of its
/// first code point. The values are mapped as the walk meets them.
#[derive(Drop)]
pub struct TrieRangesMapped<'a, T, U, F> {
    runs: &'a [CodePointMapRange<T>],
    map: F,
    value: PhantomData<U>,
}

impl<'a, T, U, F> TrieRangesMapped<'a, T, U, F> {
    pub(crate) fn new(runs: &'a [CodePointMapRange<T>], map: F) -> TrieRangesMapped<'a, T, U, F>
        ensures runs { result.runs.now ≡ runs.now }
        ensures map { result.map ≡ map }
    {
        TrieRangesMapped {
            runs,
            map,
            value: PhantomData,
        }
    }
}

impl<T: Copy, U: Copy + Eq, F: Fn(T) -> U> Iterator for TrieRangesMapped<'_, T, U, F> {
    type Item = CodePointMapRange<U>;

    ghost can_next = { λ s. KeepsMapping (F.pre s.map) (F.post s.map) s.runs.now };

    ghost next_gives = { λ s r t. MappedStep U.eq (F.post s.map) s.runs.now r t.runs.now × (t.map ≡ s.map) };

    ghost remaining = { λ s. at_most (length s.runs.now) };

    fn next(&mut self) -> Option<CodePointMapRange<U>> {
        let (first, rest) = self.runs.split_first()?;
        let value = (self.map)(first.value);
        let more = equal_front(rest, &self.map, value);
        let range = CodePointRange {
            start: first.range.start,
            end: self.runs[more].range.end,
        };
        self.runs = &rest[more..];
        Some(CodePointMapRange { range, value })
    }
}

/// How many runs at the front have a mapped value equal to this one.
fn equal_front<T: Copy, U: Copy + Eq, F: Fn(T) -> U>(
    runs: &[CodePointMapRange<T>],
    map: &F,
    value: U,
) -> usize
    requires { TakesEach (F.pre map.now) runs.now }
    ensures { IsPassingFront (F.post map.now) (U.eq value) runs.now result }
{
    for (index, run) in runs.iter().enumerate() {
        if value != map(run.value) {
            return index;
        }
    }
    runs.len()
}
