//! Maps from code points to values: those of a database's enumerated properties, and any other.
ghost use Rattle.std.specs.Prelude.{◌≡◌, ℕ, ◌+◌, ◌<◌, ◌≤◌, List, Some, IfOk};
ghost use Rattle.std.specs.Iterator.{IsFinite, Drains};
ghost use Rattle.std.specs.Option.{option_copied};
ghost use Rattle.cp_invlist.specs.InversionList.{contains};
ghost use Rattle.cp_invlist.specs.Ranges.{AreMaximalRanges};
ghost use Rattle.cp_invlist.specs.declared.ranges.CodePointRange.{CodePointRange};
ghost use Rattle.cp_trie.specs.Conversion.{conversion, ConvertsTo, NamesFirstRefused};
ghost use Rattle.cp_trie.specs.Map.{value_at, has_value};
ghost use Rattle.cp_trie.specs.Mapped.{TakesEachValue, IsFunctionOnValues, AreMappedRuns};
ghost use Rattle.cp_trie.specs.Runs.{AreMaximalRuns};
ghost use Rattle.cp_trie.specs.declared.ranges.CodePointMapRange.{CodePointMapRange};
ghost use Rattle.prop_data.specs.Database.{map_of};
ghost use Rattle.prop_query.specs.Answers.{NeedsTableAndMemory};
ghost use Rattle.prop_query.specs.Borrowed.{map_in};
ghost use Rattle.prop_query.specs.Maps.{lacks_value, is_in_group, unpacked_at};

use crate::absent::absent;
use crate::ranges::{IsNot, RangesForGroup, RangesForOthers, RangesForValue, RangesWhere};
use crate::set::CodePointSetData;
use crate::value::values_of;
use cp_invlist::laws::one_list_of_ranges;
use cp_invlist::{NoMemory, Steps};
use cp_trie::{CodePointTrie, ConvertError, IsValue, TrieRanges, TrieRangesMapped, TrieValue};
use prop_data::{DataError, PropertyDatabase, TableName};
use prop_values::{EnumeratedProperty, GeneralCategory, GeneralCategoryGroup};
use std::alloc::Global;
use std::marker::Model;
use std::sync::ledger::Ledger;

/// A map from code points to values, with one value for all numbers past 10FFFF. A contract speaks of the value at
/// each number.
#[derive(Drop)]
pub struct CodePointMapData<T: TrieValue> {
    trie: CodePointTrie<T>,
}

impl<T: TrieValue> Model for CodePointMapData<T> {
    ghost use Rattle.cp_trie.specs.Map.{CodePointMap};

    ghost Value = { CodePointMap T };

    ghost view = { λ s. s.trie };
}

/// A map from code points to values that is borrowed.
#[derive(Clone, Copy)]
pub struct CodePointMapDataBorrowed<'a, T: TrieValue> {
    trie: &'a CodePointTrie<T>,
}

impl<T: EnumeratedProperty> CodePointMapData<T> {
    /// The map of an enumerated property (UAX 44, section 5.1): at each code point the value of the number that the
    /// database has there, and past 10FFFF the type's default. `Absent` names the property's map where the database
    /// has none, and `NoMemory` says that a request for memory was refused.
    pub fn new(alloc: Global, database: &PropertyDatabase) -> Result<CodePointMapData<T>, DataError>
        ensures values { IfOk result (λ map. (c : ℕ) → c ≤ 0x10_FFFF →
            unpacked_at T.unpacked (map_of database.now T.TABLE) c ≡ Some (value_at map c)) }
        ensures past_end { IfOk result (λ map. (c : ℕ) → 0x10_FFFF < c →
            T.is_default (value_at map c)) }
        ensures needs { NeedsTableAndMemory (TableName.Map T.TABLE)
            (map_of database.now T.TABLE) result }
    {
        let numbers = database
            .map(T::TABLE)
            .ok_or(absent(TableName::Map(T::TABLE)))?;
        Ok(CodePointMapData {
            trie: values_of(alloc, numbers)?,
        })
    }

    /// As `new`.
    pub fn try_new_unstable(
        alloc: Global,
        database: &PropertyDatabase,
    ) -> Result<CodePointMapData<T>, DataError>
        ensures values { IfOk result (λ map. (c : ℕ) → c ≤ 0x10_FFFF →
            unpacked_at T.unpacked (map_of database.now T.TABLE) c ≡ Some (value_at map c)) }
        ensures past_end { IfOk result (λ map. (c : ℕ) → 0x10_FFFF < c →
            T.is_default (value_at map c)) }
        ensures needs { NeedsTableAndMemory (TableName.Map T.TABLE)
            (map_of database.now T.TABLE) result }
    {
        CodePointMapData::new(alloc, database)
    }
}

impl<T: TrieValue> CodePointMapData<T> {
    /// The same map, lent.
    pub fn as_borrowed(&self) -> CodePointMapDataBorrowed<'_, T>
        ensures { map_in result ≡ self.now }
    {
        CodePointMapDataBorrowed { trie: &self.trie }
    }

    /// The map of a trie.
    pub fn from_code_point_trie(trie: CodePointTrie<T>) -> CodePointMapData<T>
        ensures { result ≡ trie }
    {
        CodePointMapData { trie }
    }

    /// The trie of the map. It is always there.
    pub fn as_code_point_trie(&self) -> Option<&CodePointTrie<T>>
        ensures { option_copied result ≡ Some self.now }
    {
        Some(&self.trie)
    }

    /// A copy of the trie of the map. `NoMemory` says that a request for memory was refused.
    pub fn to_code_point_trie(&self, alloc: Global) -> Result<CodePointTrie<T>, NoMemory>
        ensures { IfOk result (λ trie. trie ≡ self.now) }
    {
        self.trie.copy(alloc)
    }

    /// An equal map. `NoMemory` says that a request for memory was refused.
    pub fn copy(&self, alloc: Global) -> Result<CodePointMapData<T>, NoMemory>
        ensures { IfOk result (λ map. map ≡ self.now) }
    {
        Ok(CodePointMapData {
            trie: self.trie.copy(alloc)?,
        })
    }

    /// The map whose values are those that the numbers of this map's values unpack to, also past 10FFFF. `Value`
    /// names the first maximal run whose value does not convert, or the number of maximal runs where the value past
    /// 10FFFF alone does not. `NoMemory` says that a request for memory was refused.
    pub fn try_into_converted<P: TrieValue>(
        self,
        alloc: Global,
    ) -> Result<CodePointMapData<P>, ConvertError>
        ensures values { IfOk result (λ map. ConvertsTo (conversion T.packed P.unpacked) self map) }
        ensures past_end { IfOk result (λ map.
            conversion T.packed P.unpacked self.error_value ≡ Some map.error_value) }
        ensures refusal { NamesFirstRefused T.eq (conversion T.packed P.unpacked) self result }
    {
        Ok(CodePointMapData {
            trie: self.trie.try_into_converted(alloc)?,
        })
    }
}

impl<'a, T: TrieValue> CodePointMapDataBorrowed<'a, T> {
    /// The value of a character.
    pub fn get(self, ch: char) -> T
        ensures { result ≡ value_at (map_in self.entry) ch }
    {
        self.trie.get(ch)
    }

    /// The value of a number: one for all numbers past 10FFFF.
    pub fn get32(self, ch: u32) -> T
        ensures value { result ≡ value_at (map_in self.entry) ch }
        ensures past_end { 0x10_FFFF < ch → result ≡ (map_in self.entry).error_value }
    {
        self.trie.get32(ch)
    }

    /// The same, where each read of an element of a table is one step: three at most, and none past 10FFFF.
    pub fn get32_steps<L: Ledger>(self, ch: u32, steps: &mut Steps<L>) -> T
        ensures value { result ≡ value_at (map_in self.entry) ch }
        ensures past_end { 0x10_FFFF < ch → result ≡ (map_in self.entry).error_value }
        ensures at_most { steps.new ≤ steps.old + 3 }
        ensures none_past_end { 0x10_FFFF < ch → steps.new ≡ steps.old }
    {
        self.trie.get32_steps(ch, steps)
    }

    /// The code points with the value. `NoMemory` says that a request for memory was refused.
    pub fn get_set_for_value(self, alloc: Global, value: T) -> Result<CodePointSetData, NoMemory>
        ensures { IfOk result (λ set. (c : ℕ) →
            contains set c ≡ has_value T.eq (map_in self.entry) value c) }
    {
        let set = self.trie.get_set_for_value(alloc, value)?;
        Ok(CodePointSetData::from_code_point_inversion_list(set))
    }

    /// The maximal runs of code points with the same value, in order. They cover 0 to 10FFFF once.
    pub fn iter_ranges(self) -> TrieRanges<'a, T>
        ensures maximal { AreMaximalRuns T.eq (value_at (map_in self.entry)) result }
        ensures only { (rs : List (CodePointMapRange T)) →
            AreMaximalRuns T.eq (value_at (map_in self.entry)) rs → rs ≡ result }
    {
        self.trie.iter_ranges()
    }

    /// The maximal ranges of the code points with the value, in order.
    pub fn iter_ranges_for_value(self, val: T) -> RangesForValue<'a, T>
        ensures maximal { AreMaximalRanges (has_value T.eq (map_in self.entry) val) result }
        ensures only { (rs : List CodePointRange) →
            AreMaximalRanges (has_value T.eq (map_in self.entry) val) rs → rs ≡ result }
    {
        one_list_of_ranges();
        RangesWhere::new(self.trie.iter_ranges(), IsValue { value: val })
    }

    /// The maximal ranges of the code points with another value, in order.
    pub fn iter_ranges_for_value_complemented(self, val: T) -> RangesForOthers<'a, T>
        ensures maximal { AreMaximalRanges (lacks_value T.eq (map_in self.entry) val) result }
        ensures only { (rs : List CodePointRange) →
            AreMaximalRanges (lacks_value T.eq (map_in self.entry) val) rs → rs ≡ result }
    {
        one_list_of_ranges();
        RangesWhere::new(self.trie.iter_ranges(), IsNot { value: val })
    }

    /// The maximal runs of code points whose mapped values are equal by `==`, in order, each with the mapped value of
    /// its first code point. The mapping may be called on the value of each code point, and answers there by a
    /// function of the value. It is called as the walk goes.
    pub fn iter_ranges_mapped<U: Copy + Eq, F: Fn(T) -> U>(
        self,
        map: F,
    ) -> TrieRangesMapped<'a, T, U, F>
        requires callable { TakesEachValue (F.pre map) (value_at (map_in self)) }
        requires determined { IsFunctionOnValues (F.post map) (value_at (map_in self)) }
        ensures can_next { ⟦<TrieRangesMapped<'static, T, U, F> as Iterator>⟧.can_next result }
        ensures ends { IsFinite
            (⟦<TrieRangesMapped<'static, T, U, F> as Iterator>⟧.remaining result) }
        // what a walk gives before it ends are the maximal runs of the mapped values
        ensures maximal { (rs : List (CodePointMapRange U)) →
            Drains ⟦<TrieRangesMapped<'static, T, U, F> as Iterator>⟧.next_gives result rs →
            AreMappedRuns U.eq (F.post map) (value_at (map_in self.entry)) rs }
    {
        self.trie.iter_ranges_mapped(map)
    }
}

impl<'a> CodePointMapDataBorrowed<'a, GeneralCategory> {
    /// The code points whose general category is in the group (UAX 44, section 5.7.1). `NoMemory` says that a request
    /// for memory was refused.
    pub fn get_set_for_value_group(
        self,
        alloc: Global,
        mut value: GeneralCategoryGroup,
    ) -> Result<CodePointSetData, NoMemory>
        ensures { IfOk result (λ set. (c : ℕ) →
            contains set c ≡ is_in_group (map_in self.entry) value c) }
    {
        let set = self.trie.get_set_where(alloc, &mut value)?;
        Ok(CodePointSetData::from_code_point_inversion_list(set))
    }

    /// The maximal ranges of the code points whose general category is in the group, in order.
    pub fn iter_ranges_for_group(self, group: GeneralCategoryGroup) -> RangesForGroup<'a>
        ensures maximal { AreMaximalRanges (is_in_group (map_in self.entry) group) result }
        ensures only { (rs : List CodePointRange) →
            AreMaximalRanges (is_in_group (map_in self.entry) group) rs → rs ≡ result }
    {
        one_list_of_ranges();
        RangesWhere::new(self.trie.iter_ranges(), group)
    }
}
