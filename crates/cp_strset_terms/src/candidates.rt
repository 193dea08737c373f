//! The candidates of a term: leaves among whose strings are all strings of its set.
ghost use Rattle.std.specs.Prelude.{◌≡◌, ◌≤◌, ◌<◌, ◌++◌, ℕ, Bool, true, List, All, Some, IfOk, length, take, drop, slice_get};
ghost use Rattle.std.specs.List.{flat_map};
ghost use Rattle.cp_strset.specs.StringList.{holds};
ghost use Rattle.cp_terms.specs.Terms.{value_of};
ghost use Rattle.cp_strset_terms.specs.Leaves.{leaf_holds, strings_of, FitsNumbers};
ghost use Rattle.cp_strset_terms.specs.Steps.{without_complements};

use crate::leaf::Leaf;
use cp_invlist::NoMemory;
use cp_terms::{SetOperation, Step};
use std::alloc::Global;

/// Where the strings of a set on the stack are found.
#[derive(Clone, Copy)]
struct Source {
    /// Its candidates are the indices from this place on, up to those of the set above it.
    start: usize,
    /// How many strings its candidates have together, each leaf as often as it is named; `usize::MAX` where they have more.
    strings: usize,
}

/// The candidates of the sets on the stack.
struct Sources {
    /// The indices of leaves, those of each set behind those of the set below it.
    indices: Vec<usize>,
    /// The sets, the one on top last.
    stack: Vec<Source>,
}

// By hand, so that letting a value go is one call in each proof.
impl Drop for Sources {
    fn drop(self) {
        let Self {
            indices: _,
            stack: _,
        } = self;
    }
}

impl Sources {
    ghost use Rattle.std.specs.Prelude.{◌≡◌, ◌||◌, ℕ, ◌∷◌, Bool, true, false, List, IfOk, OnOk};
    ghost use Rattle.std.specs.List.{list_any};
    ghost use Rattle.cp_terms.specs.declared.step.Step.TheVariants.{Push};
    ghost use Rattle.cp_terms.specs.Terms.{combined, both_done, clear_done, top};
    ghost use Rattle.cp_strset_terms.specs.Candidates.{IsStacked, IsStackedUnderBoth, Covers, CoversUnderBoth};
    ghost use Rattle.cp_strset_terms.specs.Candidates.{FollowsStep, CoversTerm};

    /// Puts down a set without strings.
    fn put_none(&mut self) -> Result<(), NoMemory>
        ensures { OnOk result ((v : ℕ → Bool) (stack : List Bool) →
            Covers v self.old stack → Covers v self.new (false ∷ stack)) }
    {
        let start = self.indices.len();
        self.stack.push(Source { start, strings: 0 })?;
        Ok(())
    }

    /// Puts down the leaf with the index, which has so many strings.
    fn put_leaf(&mut self, index: usize, strings: usize) -> Result<(), NoMemory>
        ensures { OnOk result ((v : ℕ → Bool) (stack : List Bool) →
            Covers v self.old stack → Covers v self.new (v index ∷ stack)) }
    {
        let start = self.indices.len();
        self.indices.push(index)?;
        self.stack.push(Source { start, strings })?;
        Ok(())
    }

    /// Puts down the leaf with the index, a set without strings where there is none.
    fn put_down(&mut self, leaves: &[Leaf<'_>], index: usize) -> Result<(), NoMemory>
        ensures { OnOk result (FollowsStep leaves.now (Push index) self.old self.new) }
    {
        match leaves.get(index) {
            Some(leaf) => self.put_leaf(index, leaf.strings().len()),
            None => self.put_none(),
        }
    }

    /// Empties the set on top.
    fn clear_top(&mut self) -> Result<(), NoMemory>
        ensures { OnOk result ((v : ℕ → Bool) (stack : List Bool) →
            Covers v self.old stack → Covers v self.new (clear_done stack)) }
    {
        match self.stack.pop() {
            Some(set) => {
                self.indices.truncate(set.start);
                self.put_none()
            }
            None => Ok(()),
        }
    }

    /// Puts down a set of the candidates of both.
    fn put_joined(&mut self, lower: Source, upper: Source) -> Result<(), NoMemory>
        ensures { OnOk result ((v : ℕ → Bool) (a b c : Bool) (stack : List Bool) →
            CoversUnderBoth v upper lower self.old (b ∷ a ∷ stack) →
            (c ≡ true → (a || b) ≡ true) → Covers v self.new (c ∷ stack)) }
    {
        let strings = lower.strings.saturating_add(upper.strings);
        self.stack.push(Source {
            start: lower.start,
            strings,
        })?;
        Ok(())
    }

    /// Puts down a set of the candidates of the lower.
    fn put_lower(&mut self, lower: Source, upper: Source) -> Result<(), NoMemory>
        ensures { OnOk result ((v : ℕ → Bool) (a b c : Bool) (stack : List Bool) →
            CoversUnderBoth v upper lower self.old (b ∷ a ∷ stack) →
            (c ≡ true → a ≡ true) → Covers v self.new (c ∷ stack)) }
    {
        self.indices.truncate(upper.start);
        self.stack.push(lower)?;
        Ok(())
    }

    /// Puts down a set of the candidates of the upper.
    fn put_upper(&mut self, lower: Source, upper: Source) -> Result<(), NoMemory>
        requires { IsStackedUnderBoth upper lower self.old }
        ensures { OnOk result ((v : ℕ → Bool) (a b c : Bool) (stack : List Bool) →
            CoversUnderBoth v upper lower self.old (b ∷ a ∷ stack) →
            (c ≡ true → b ≡ true) → Covers v self.new (c ∷ stack)) }
    {
        remove_between(&mut self.indices, lower.start, upper.start);
        self.stack.push(Source {
            start: lower.start,
            strings: upper.strings,
        })?;
        Ok(())
    }

    /// Makes one set of two.
    fn put_both(
        &mut self,
        operation: SetOperation,
        lower: Source,
        upper: Source,
    ) -> Result<(), NoMemory>
        requires { IsStackedUnderBoth upper lower self.old }
        ensures { OnOk result ((v : ℕ → Bool) (a b : Bool) (stack : List Bool) →
            CoversUnderBoth v upper lower self.old (b ∷ a ∷ stack) → Covers v self.new (combined operation a b ∷ stack)) }
    {
        match operation {
            SetOperation::Union => self.put_joined(lower, upper),
            SetOperation::Difference => self.put_lower(lower, upper),
            SetOperation::ReverseDifference => self.put_upper(lower, upper),
            // What both have, either has: the one with fewer strings is the cheaper.
            SetOperation::Intersection => {
                if upper.strings < lower.strings {
                    self.put_upper(lower, upper)
                } else {
                    self.put_lower(lower, upper)
                }
            }
        }
    }

    /// Makes one set of the two on top.
    fn merge_top(&mut self, operation: SetOperation) -> Result<(), NoMemory>
        requires { IsStacked self.old }
        ensures { OnOk result ((v : ℕ → Bool) (stack : List Bool) →
            Covers v self.old stack → Covers v self.new (both_done operation stack)) }
    {
        let Some(upper) = self.stack.pop() else {
            return Ok(());
        };
        let Some(lower) = self.stack.pop() else {
            self.stack.push(upper)?;
            return Ok(());
        };
        self.put_both(operation, lower, upper)
    }

    /// Does the step. A complement has no strings.
    fn take(&mut self, leaves: &[Leaf<'_>], step: Step) -> Result<(), NoMemory>
        requires { IsStacked self.old }
        ensures { OnOk result (FollowsStep leaves.now step self.old self.new) }
    {
        match step {
            Step::Push(index) => self.put_down(leaves, index),
            Step::Both(operation) => self.merge_top(operation),
            Step::Complement | Step::Clear => self.clear_top(),
        }
    }

    /// The candidates of the sets that the steps leave on the stack.
    fn new(alloc: Global, leaves: &[Leaf<'_>], steps: &[Step]) -> Result<Sources, NoMemory>
        ensures stacked { IfOk result IsStacked }
        ensures covered { IfOk result (CoversTerm leaves.now steps.now) }
    {
        let mut sources = Sources {
            indices: Vec::new(alloc),
            stack: Vec::new(alloc),
        };
        for step in steps {
            sources.take(leaves, *step)?;
        }
        Ok(sources)
    }

    /// The indices of the candidates of the set on top, none where there is no set.
    fn of_top(&self) -> &[usize]
        requires { IsStacked self.now }
        ensures { (v : ℕ → Bool) (stack : List Bool) →
            Covers v self.now stack → top stack ≡ true → list_any v result.now ≡ true }
    {
        match self.stack.last() {
            Some(set) => &self.indices[set.start..],
            None => &[],
        }
    }
}

/// Takes out the elements from one place up to another.
fn remove_between(indices: &mut Vec<usize>, start: usize, end: usize)
    requires order { start ≤ end }
    requires within { end ≤ length indices.old.items }
    ensures { indices.new.items ≡ take start indices.old.items ++ drop end indices.old.items }
{
    let behind = indices.len() - end;
    indices.copy_within(end.., start);
    indices.truncate(start + behind);
}

/// Which of so many leaves the indices name.
fn marks_of(alloc: Global, count: usize, indices: &[usize]) -> Result<Vec<bool>, NoMemory>
    ensures count { IfOk result (λ marks. length marks.items ≡ count) }
    ensures marked { IfOk result (λ marks.
        All (λ index. index < count → slice_get marks.items index ≡ Some true) indices.now) }
{
    let mut marks = vec![in alloc; false; count]?;
    for index in indices {
        if *index < count {
            marks[*index] = true;
        }
    }
    Ok(marks)
}

/// The leaves that are marked.
fn marked_leaves<'a>(
    alloc: Global,
    leaves: &[Leaf<'a>],
    marks: &[bool],
) -> Result<Vec<Leaf<'a>>, NoMemory>
    requires { length marks.now ≡ length leaves.now }
    ensures held { IfOk result (λ marked. (bytes : List ℕ) (index : ℕ) →
        slice_get marks.now index ≡ Some true → leaf_holds leaves.now bytes index ≡ true →
        holds (flat_map strings_of marked.items) bytes ≡ true) }
    ensures fits { IfOk result (λ marked. (all : List (List ℕ)) →
        All (FitsNumbers all) leaves.now → All (FitsNumbers all) marked.items) }
{
    let mut marked = Vec::new(alloc);
    for (index, leaf) in leaves.iter().enumerate() {
        if marks[index] {
            marked.push(*leaf)?;
        }
    }
    Ok(marked)
}

/// Leaves among whose strings are all strings of the set that the steps make, each leaf once.
pub(crate) fn candidates<'a>(
    alloc: Global,
    leaves: &[Leaf<'a>],
    steps: &[Step],
) -> Result<Vec<Leaf<'a>>, NoMemory>
    ensures held { IfOk result (λ candidates. (bytes : List ℕ) →
        value_of (leaf_holds leaves.now bytes) (without_complements steps.now) ≡ true →
        holds (flat_map strings_of candidates.items) bytes ≡ true) }
    ensures fits { IfOk result (λ candidates. (all : List (List ℕ)) →
        All (FitsNumbers all) leaves.now → All (FitsNumbers all) candidates.items) }
{
    let sources = Sources::new(alloc, leaves, steps)?;
    let marks = marks_of(alloc, leaves.len(), sources.of_top())?;
    marked_leaves(alloc, leaves, &marks)
}
