//! Terms on a stretch of code points.
use crate::block::Block;
use crate::step::{SetOperation, Step};
use crate::stretch::Stretch;
use cp_invlist::NoMemory;
use std::alloc::Global;

/// The stack of the sets that steps make on a stretch.
#[derive(Drop)]
pub(crate) struct Stack {
    /// The sets that are made, the last on top.
    made: Vec<Block>,
    /// The set above them, where it is one of those that are given, by its index. It isn't copied before it has to be.
    named: Option<usize>,
}

impl Stack {
    ghost use Rattle.std.specs.Prelude.{◌≡◌, ℕ, ◌<◌, ◌∷◌, [], false, None, OnOk, IfSome, IfNone};
    ghost use Rattle.cp_terms.specs.Terms.{both_done, complement_done, clear_done, step_done, steps_done, top};
    ghost use Rattle.cp_terms.specs.Blocks.{block_has, block_marks};
    ghost use Rattle.cp_terms.specs.Stretches.{stretch_has, stack_marks};

    /// No sets.
    pub(crate) fn new(alloc: Global) -> Stack {
        Stack {
            made: Vec::new(alloc),
            named: None,
        }
    }

    /// Makes the set on top, where it is a given one.
    fn settle(&mut self, stretch: &Stretch<'_>) -> Result<(), NoMemory>
        ensures named { OnOk result (self.new.named ≡ None) }
        ensures made { OnOk result ((i j : ℕ) → i < 256 → j < 64 →
            block_marks i j self.new.made.items ≡ stack_marks stretch.now i j self.old) }
    {
        if let Some(index) = self.named {
            self.named = None;
            self.made.push(stretch.block(index))?;
        }
        Ok(())
    }

    /// Puts down the set with the index.
    fn push(&mut self, stretch: &Stretch<'_>, index: usize) -> Result<(), NoMemory>
        ensures { OnOk result ((i j : ℕ) → i < 256 → j < 64 →
            stack_marks stretch.now i j self.new ≡
            stretch_has stretch.now i j index ∷ stack_marks stretch.now i j self.old) }
    {
        self.settle(stretch)?;
        self.named = Some(index);
        Ok(())
    }

    /// Makes one set of the two on top, of which neither is a given one.
    fn merge_made(&mut self, operation: SetOperation) -> Result<(), NoMemory>
        ensures named { self.new.named ≡ self.old.named }
        ensures marks { OnOk result ((i j : ℕ) → i < 256 → j < 64 →
            block_marks i j self.new.made.items ≡ both_done operation (block_marks i j self.old.made.items)) }
    {
        let Some(upper) = self.made.pop() else {
            return Ok(());
        };
        let Some(lower) = self.made.last_mut() else {
            self.made.push(upper)?;
            return Ok(());
        };
        lower.combine(operation, &upper.words);
        Ok(())
    }

    /// Makes one set of the two on top.
    fn merge(&mut self, stretch: &Stretch<'_>, operation: SetOperation) -> Result<(), NoMemory>
        ensures { OnOk result ((i j : ℕ) → i < 256 → j < 64 →
            stack_marks stretch.now i j self.new ≡ both_done operation (stack_marks stretch.now i j self.old)) }
    {
        let Some(index) = self.named else {
            return self.merge_made(operation);
        };
        if let Some(lower) = self.made.last_mut() {
            stretch.combine(lower, operation, index);
            self.named = None;
        }
        Ok(())
    }

    /// Exchanges the members of the set on top and the others.
    fn complement(&mut self, stretch: &Stretch<'_>) -> Result<(), NoMemory>
        ensures { OnOk result ((i j : ℕ) → i < 256 → j < 64 →
            stack_marks stretch.now i j self.new ≡ complement_done (stack_marks stretch.now i j self.old)) }
    {
        self.settle(stretch)?;
        if let Some(block) = self.made.last_mut() {
            block.complement();
        }
        Ok(())
    }

    /// Empties the set on top.
    fn clear(&mut self, stretch: &Stretch<'_>) -> Result<(), NoMemory>
        ensures { OnOk result ((i j : ℕ) → i < 256 → j < 64 →
            stack_marks stretch.now i j self.new ≡ clear_done (stack_marks stretch.now i j self.old)) }
    {
        self.settle(stretch)?;
        if let Some(block) = self.made.last_mut() {
            *block = Block::EMPTY;
        }
        Ok(())
    }

    /// Does the step.
    fn take(&mut self, stretch: &Stretch<'_>, step: Step) -> Result<(), NoMemory>
        ensures { OnOk result ((i j : ℕ) → i < 256 → j < 64 →
            stack_marks stretch.now i j self.new ≡
            step_done (stretch_has stretch.now i j) step (stack_marks stretch.now i j self.old)) }
    {
        match step {
            Step::Push(index) => self.push(stretch, index),
            Step::Both(operation) => self.merge(stretch, operation),
            Step::Complement => self.complement(stretch),
            Step::Clear => self.clear(stretch),
        }
    }

    /// Makes the set that the steps make. What was there before goes.
    pub(crate) fn evaluate(&mut self, stretch: &Stretch<'_>, steps: &[Step]) -> Result<(), NoMemory>
        ensures { OnOk result ((i j : ℕ) → i < 256 → j < 64 →
            block_marks i j self.new.made.items ≡ steps_done (stretch_has stretch.now i j) steps.now []) }
    {
        self.made.clear();
        self.named = None;
        for step in steps {
            self.take(stretch, *step)?;
        }
        self.settle(stretch)
    }

    /// The set on top, where there is one and it is made.
    pub(crate) fn last(&self) -> Option<&Block>
        ensures some { IfSome result (λ block. (i j : ℕ) →
            block_has block.now i j ≡ top (block_marks i j self.now.made.items)) }
        ensures none { IfNone result ((i j : ℕ) → top (block_marks i j self.now.made.items) ≡ false) }
    {
        self.made.last()
    }
}
