//! The map: its runs, and what it answers.
ghost use Rattle.std.specs.Prelude.{◌≡◌, ℕ, ◌+◌, ◌<◌, ◌≤◌, List, None, IfOk};
ghost use Rattle.std.specs.Iterator.{IsFinite, Drains};
ghost use Rattle.cp_invlist.specs.InversionList.{contains};
ghost use Rattle.cp_trie.specs.Map.{value_at, has_value, passes_at};
ghost use Rattle.cp_trie.specs.Mapped.{TakesEachValue, IsFunctionOnValues, AreMappedRuns};
ghost use Rattle.cp_trie.specs.Runs.{value_in, AreMaximalRuns};
ghost use Rattle.cp_trie.specs.Faults.{first_fault, AnswersFault};
ghost use Rattle.cp_trie.specs.declared.ranges.CodePointMapRange.{CodePointMapRange};

use crate::error::TrieError;
use crate::mapped::TrieRangesMapped;
use crate::pages::Pages;
use crate::ranges::{CodePointMapRange, TrieRanges};
use crate::runs::{Runs, joined};
use crate::value::TrieValue;
use crate::value_test::{IsValue, ValueTest};
use cp_invlist::{
    CodePointInversionList, CodePointInversionListBuilder, LAST_CODE_POINT, NoMemory, Steps,
};
use std::alloc::Global;
use std::marker::{Brand, Model};
use std::sync::ledger::{Blank, Ledger};

/// A map from code points, surrogates included, to values, with one value for all numbers past 10FFFF. A contract
/// sees it as its maximal runs and that value, and speaks of the value at each number.
pub struct CodePointTrie<T: TrieValue> {
    runs: Runs<T>,
    pages: Pages<T>,
    error_value: T,
}

// By hand, so that letting a value go is one call in each proof.
impl<T: TrieValue> Drop for CodePointTrie<T> {
    fn drop(self) {
        let Self {
            runs: _,
            pages: _,
            error_value: _,
        } = self;
    }
}

impl<T: TrieValue> Model for CodePointTrie<T> {
    ghost use Rattle.cp_trie.specs.Map.{CodePointMap};
    ghost use Rattle.cp_trie.specs.Pages.{StandFor};
    ghost use Rattle.cp_trie.specs.Runs.{value_in, AreMaximalRuns};

    ghost Value = { CodePointMap T };

    ghost view = { λ s. record { runs = s.runs; error_value = s.error_value } };

    ghost invariant = { λ s. AreMaximalRuns T.eq (value_in s.runs s.error_value) s.runs × StandFor s.pages s.runs };
}

impl<T: TrieValue> CodePointTrie<T> {
    /// The map of these runs, which cover 0 to 10FFFF in order, with this value past the end. Neighbours may have the
    /// same value. The runs are tested in order, and the first fault is named: `Gap` where a run does not start one
    /// past the end of the run before it, the first at 0; else `Order` where its end is below its start or above
    /// 10FFFF; after all runs `Gap` with their number where they do not reach 10FFFF. `NoMemory` says that a request for memory
    /// was refused.
    pub fn try_from_runs(
        alloc: Global,
        runs: Vec<CodePointMapRange<T>>,
        error_value: T,
    ) -> Result<CodePointTrie<T>, TrieError>
        ensures values { IfOk result (λ map. (c : ℕ) → value_at map c ≡ value_in runs.items error_value c) }
        ensures past_end { IfOk result (λ map. map.error_value ≡ error_value) }
        ensures faults { AnswersFault runs.items result }
    {
        let runs = Runs::try_new(alloc, runs)?;
        Ok(CodePointTrie::from_joined(alloc, runs, error_value)?)
    }

    /// The map of runs that cover 0 to 10FFFF in order, as `try_from_runs` makes it of them. `NoMemory` says that a request for
    /// memory was refused.
    pub fn from_cover(
        alloc: Global,
        runs: Vec<CodePointMapRange<T>>,
        error_value: T,
    ) -> Result<CodePointTrie<T>, NoMemory>
        requires { first_fault runs.items ≡ None }
        ensures values { IfOk result (λ map. (c : ℕ) → value_at map c ≡ value_in runs.items error_value c) }
        ensures past_end { IfOk result (λ map. map.error_value ≡ error_value) }
    {
        let runs = joined(alloc, runs)?;
        CodePointTrie::from_joined(alloc, runs, error_value)
    }

    /// The map of maximal runs.
    fn from_joined(
        alloc: Global,
        runs: Runs<T>,
        error_value: T,
    ) -> Result<CodePointTrie<T>, NoMemory>
        requires { AreMaximalRuns T.eq (value_in runs error_value) runs }
        ensures { IfOk result (λ map. map ≡ record { runs = runs; error_value = error_value }) }
    {
        let pages = Pages::new(alloc, runs.as_slice(), error_value)?;
        Ok(CodePointTrie {
            runs,
            pages,
            error_value,
        })
    }

    /// The value of a number: past 10FFFF it is the error value. It is read from page tables.
    pub fn get32(&self, c: u32) -> T
        ensures value { result ≡ value_at self.now c }
        ensures past_end { 0x10_FFFF < c → result ≡ self.now.error_value }
    {
        self.get32_over::<Brand>(c, Blank::new(1))
    }

    /// The same, where each read of an element of a table is one step: three at most, and none past 10FFFF.
    pub fn get32_steps<L: Ledger>(&self, c: u32, steps: &mut Steps<L>) -> T
        ensures value { result ≡ value_at self.now c }
        ensures past_end { 0x10_FFFF < c → result ≡ self.now.error_value }
        ensures at_most { steps.new ≤ steps.old + 3 }
        ensures none_past_end { 0x10_FFFF < c → steps.new ≡ steps.old }
    {
        if LAST_CODE_POINT < c {
            return self.error_value;
        }
        self.pages.value(c, steps)
    }

    /// The same, where the steps count in a blank ledger.
    fn get32_over<L: Ledger>(&self, c: u32, blank: Blank) -> T
        requires name { blank.name ≡ L.name }
        requires parts { blank.parts ≡ L.parts }
        requires some { 0 < blank.parts }
        ensures value { result ≡ value_at self.now c }
        ensures past_end { 0x10_FFFF < c → result ≡ self.now.error_value }
    {
        let mut steps = Steps::<L>::new(blank);
        self.get32_steps(c, &mut steps)
    }

    /// The value of a character.
    pub fn get(&self, c: char) -> T
        ensures { result ≡ value_at self.now c }
    {
        self.get32(u32::from(c))
    }

    /// The maximal runs.
    pub(crate) fn runs(&self) -> &[CodePointMapRange<T>]
        ensures runs { result.now ≡ self.now.runs }
        ensures maximal { AreMaximalRuns T.eq (value_at self.now) result.now }
    {
        self.runs.as_slice()
    }

    /// The value of each number past 10FFFF.
    pub fn error_value(&self) -> T
        ensures value { result ≡ self.now.error_value }
        ensures past_end { (c : ℕ) → 0x10_FFFF < c → value_at self.now c ≡ result }
    {
        self.error_value
    }

    /// The maximal runs of code points with the same value, in order. They cover 0 to 10FFFF once.
    pub fn iter_ranges(&self) -> TrieRanges<'_, T>
        ensures maximal { AreMaximalRuns T.eq (value_at self.now) result }
        ensures only { (rs : List (CodePointMapRange T)) → AreMaximalRuns T.eq (value_at self.now) rs → rs ≡ result }
    {
        TrieRanges::new(self.runs())
    }

    /// The maximal runs of code points whose mapped values are equal by `==`, in order, each with the mapped value of
    /// its first code point. The mapping may be called on the value of each code point, and answers there by a
    /// function of the value. It is called as the walk goes.
    pub fn iter_ranges_mapped<U: Copy + Eq, F: Fn(T) -> U>(
        &self,
        map: F,
    ) -> TrieRangesMapped<'_, T, U, F>
        requires callable { TakesEachValue (F.pre map) (value_at self.now) }
        requires determined { IsFunctionOnValues (F.post map) (value_at self.now) }
        ensures can_next { ⟦<TrieRangesMapped<'static, T, U, F> as Iterator>⟧.can_next result }
        ensures ends { IsFinite (⟦<TrieRangesMapped<'static, T, U, F> as Iterator>⟧.remaining result) }
        // what a walk gives before it ends are the maximal runs of the mapped values
        ensures maximal { (rs : List (CodePointMapRange U)) →
            Drains ⟦<TrieRangesMapped<'static, T, U, F> as Iterator>⟧.next_gives result rs →
            AreMappedRuns U.eq (F.post map) (value_at self.now) rs }
    {
        TrieRangesMapped::new(self.runs(), map)
    }

    /// The code points whose values pass the test, gathered in one pass over the runs. The test stays the same test. `NoMemory`
    /// says that a request for memory was refused.
    pub fn get_set_where<P: ValueTest<T>>(
        &self,
        alloc: Global,
        test: &mut P,
    ) -> Result<CodePointInversionList, NoMemory>
        ensures set { IfOk result (λ set. (c : ℕ) → contains set c ≡ passes_at (P.passes test.old) self.now c) }
        ensures same { P.passes test.new ≡ P.passes test.old }
    {
        let mut builder = CodePointInversionListBuilder::new(alloc);
        for run in self.runs() {
            if test.passes(run.value) {
                builder.add_range32(run.range)?;
            }
        }
        Ok(builder.build())
    }

    /// The code points with the value, gathered in one pass over the runs. `NoMemory` says that a request for memory
    /// was refused.
    pub fn get_set_for_value(
        &self,
        alloc: Global,
        value: T,
    ) -> Result<CodePointInversionList, NoMemory>
        ensures { IfOk result (λ set. (c : ℕ) → contains set c ≡ has_value T.eq self.now value c) }
    {
        self.get_set_where(alloc, &mut IsValue { value })
    }

    /// An equal map. `NoMemory` says that a request for memory was refused.
    pub fn copy(&self, alloc: Global) -> Result<CodePointTrie<T>, NoMemory>
        ensures { IfOk result (λ map. map ≡ self.now) }
    {
        Ok(CodePointTrie {
            runs: self.runs.copy(alloc)?,
            pages: self.pages.copy(alloc)?,
            error_value: self.error_value,
        })
    }
}
