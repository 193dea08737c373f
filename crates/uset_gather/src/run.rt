//! Ranges that are painted alike.
ghost use Rattle.std.specs.Prelude.{◌≡◌, ◌||◌, ℕ, IfOk, OnOk};
ghost use Rattle.cp_invlist.specs.InversionList.{contains};
ghost use Rattle.uset_gather.specs.Painting.{in_some};

use cp_invlist::laws::ranges_hold_members;
use cp_invlist::{CodePointInversionList, CodePointInversionListBuilder, CodePointRange, NoMemory};
use std::alloc::Global;

/// How many ranges a builder takes in any order at once: each moves what stands behind it.
const FEW: usize = 16;

/// The set of some ranges. The first few, and each that doesn't begin before the end of one that went to the builder, go there
/// at once. All others are put aside, and sorted once the set is needed: so no order of them costs more than a sort.
#[derive(Drop)]
pub(crate) struct Run {
    alloc: Global,
    builder: CodePointInversionListBuilder,
    aside: Vec<CodePointRange>,
    /// How many ranges there are.
    size: usize,
    /// Ranges from this number on go to the builder.
    open_from: u32,
}

/// The set of the ranges, which are in the order of their first code points.
#[tactic(auto, using(std::proofs::lemmas::List::Folds::list_any_more))]
fn union(
    alloc: Global,
    ranges: &[CodePointRange],
) -> Result<CodePointInversionListBuilder, NoMemory>
    ensures { IfOk result (λ set. (c : ℕ) → contains set c ≡ in_some ranges.now c) }
{
    let mut builder = CodePointInversionListBuilder::new(alloc);
    for range in ranges {
        builder.add_range32(*range)?;
    }
    Ok(builder)
}

/// The set of the ranges in any order.
fn sorted_union(
    alloc: Global,
    mut ranges: Vec<CodePointRange>,
) -> Result<CodePointInversionListBuilder, NoMemory>
    ensures { IfOk result (λ set. (c : ℕ) → contains set c ≡ in_some ranges.items c) }
{
    ranges.sort_unstable_by_key(|range| range.start);
    union(alloc, &ranges)
}

/// Puts the ranges of the set behind the others.
fn put_aside(aside: &mut Vec<CodePointRange>, set: &CodePointInversionList) -> Result<(), NoMemory>
    ensures { OnOk result ((c : ℕ) → in_some aside.new.items c ≡ (in_some aside.old.items c || contains set.now c)) }
{
    ranges_hold_members();
    aside.reserve(set.get_range_count())?;
    for range in set.iter_ranges() {
        aside.push(range)?;
    }
    Ok(())
}

impl Run {
    ghost use Rattle.std.specs.Prelude.{◌≡◌, ℕ, ◌||◌, false, IfOk, OnOk};
    ghost use Rattle.cp_invlist.specs.InversionList.{contains};
    ghost use Rattle.cp_invlist.specs.Ranges.{in_code_points};
    ghost use Rattle.uset_gather.specs.Painting.{in_run};

    /// No ranges.
    #[tactic(auto, unfolding(crate::specs::Painting::in_run))]
    pub(crate) fn new(alloc: Global) -> Run
        ensures { (c : ℕ) → in_run result c ≡ false }
    {
        Run {
            alloc,
            builder: CodePointInversionListBuilder::new(alloc),
            aside: Vec::new(alloc),
            size: 0,
            open_from: 0,
        }
    }

    /// How many ranges there are.
    pub(crate) fn len(&self) -> usize {
        self.size
    }

    /// Adds a range.
    #[tactic(auto, unfolding(crate::specs::Painting::in_run))]
    pub(crate) fn add_range(&mut self, range: CodePointRange) -> Result<(), NoMemory>
        ensures { OnOk result ((c : ℕ) → in_run self.new c ≡ (in_run self.old c || in_code_points range c)) }
    {
        self.size = self.size.saturating_add(1);
        if range.start < self.open_from && self.size > FEW {
            self.aside.push(range)?;
            return Ok(());
        }
        self.builder.add_range32(range)?;
        self.open_from = self.open_from.max(range.end);
        Ok(())
    }

    /// The set of the ranges. A few that went to the builder go with the others, so that no list is merged: behind them,
    /// and the others the other way round, so that ranges which came in descending order are sorted already.
    pub(crate) fn into_builder(mut self) -> Result<CodePointInversionListBuilder, NoMemory>
        ensures { IfOk result (λ set. (c : ℕ) → contains set c ≡ in_run self c) }
    {
        if self.aside.is_empty() {
            return Ok(self.builder);
        }
        let front = self.builder.build();
        if front.get_range_count() <= self.aside.len() / 16 {
            self.aside.reverse();
            put_aside(&mut self.aside, &front)?;
            return sorted_union(self.alloc, self.aside);
        }
        let mut builder = sorted_union(self.alloc, self.aside)?;
        builder.add_set(&front)?;
        Ok(builder)
    }
}
