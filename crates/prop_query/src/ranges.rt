//! The walks over the maximal ranges of code points whose values in a map pass a test.
ghost use Rattle.std.specs.Prelude.{◌≡◌, not};
ghost use Rattle.std.specs.Iterator.{YieldsFirst, item_count};
ghost use Rattle.prop_query.specs.Passing.{passing, grown};

use cp_invlist::CodePointRange;
use cp_trie::{IsValue, TrieRanges, TrieValue, ValueTest};
use prop_values::{GeneralCategory, GeneralCategoryGroup};
use std::marker::Model;

/// The test that all values but one pass.
#[derive(Clone, Copy, Debug, PartialEq, Eq)]
pub struct IsNot<T> {
    /// The value that does not pass.
    pub value: T,
}

impl<T: TrieValue> ValueTest<T> for IsNot<T> {
    ghost passes = { λ test value. not (T.eq value test.value) };

    fn passes(&mut self, value: T) -> bool {
        value != self.value
    }
}

/// The range before, where there is one, up to the end of the range that touches it.
fn grown(begun: Option<CodePointRange>, range: CodePointRange) -> CodePointRange
    ensures { result ≡ grown begun range }
{
    match begun {
        Some(begun) => CodePointRange {
            start: begun.start,
            end: range.end,
        },
        None => range,
    }
}

/// Takes the runs up to the end of the first range of those that pass the test, and gives that range.
fn next_range<T: TrieValue, P: ValueTest<T>>(
    runs: &mut TrieRanges<'_, T>,
    test: &mut P,
) -> Option<CodePointRange>
    ensures yields { YieldsFirst (passing (P.passes test.old)) runs.old result runs.new }
    ensures same { P.passes test.new ≡ P.passes test.old }
{
    let mut begun = None;
    while let Some(run) = runs.next() {
        if test.passes(run.value) {
            begun = Some(grown(begun, run.range));
        } else if begun.is_some() {
            return begun;
        }
    }
    begun
}

/// The maximal ranges of the code points whose values pass a test, in order. They are found as the walk goes along the
/// map's runs. A contract sees it as the list of those still to come.
#[derive(Drop)]
pub struct RangesWhere<'a, T: TrieValue, P: ValueTest<T> + Drop> {
    runs: TrieRanges<'a, T>,
    test: P,
}

/// The maximal ranges of the code points with one value, in order.
pub type RangesForValue<'a, T> = RangesWhere<'a, T, IsValue<T>>;

/// The maximal ranges of the code points with other values than one, in order.
pub type RangesForOthers<'a, T> = RangesWhere<'a, T, IsNot<T>>;

/// The maximal ranges of the code points whose general category is in a group, in order.
pub type RangesForGroup<'a> = RangesWhere<'a, GeneralCategory, GeneralCategoryGroup>;

impl<'a, T: TrieValue, P: ValueTest<T> + Drop> Model for RangesWhere<'a, T, P> {
    ghost use Rattle.std.specs.Prelude.{List};
    ghost use Rattle.cp_invlist.specs.declared.ranges.CodePointRange.{CodePointRange};
    ghost use Rattle.prop_query.specs.Passing.{passing};

    ghost Value = { List CodePointRange };

    ghost view = { λ s. passing (P.passes s.test) s.runs };
}

impl<'a, T: TrieValue, P: ValueTest<T> + Drop> RangesWhere<'a, T, P> {
    pub(crate) fn new(runs: TrieRanges<'a, T>, test: P) -> RangesWhere<'a, T, P>
        ensures { result ≡ passing (P.passes test) runs.entry }
    {
        RangesWhere { runs, test }
    }
}

impl<T: TrieValue, P: ValueTest<T> + Drop> Iterator for RangesWhere<'_, T, P> {
    type Item = CodePointRange;

    ghost next_gives = { YieldsFirst (λ ranges. ranges) };

    ghost remaining = { item_count (λ ranges. ranges) };

    fn next(&mut self) -> Option<CodePointRange> {
        next_range(&mut self.runs, &mut self.test)
    }
}
