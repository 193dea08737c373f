//! The only way to an element of a page table.
ghost use Rattle.std.specs.Prelude.{◌≡◌, ◌+◌, ◌<◌, length, Some, IfOk};
ghost use Rattle.std.specs.List.{slice_get};

use cp_invlist::Steps;
use std::alloc::{AllocError, Global};
use std::marker::Model;
use std::sync::ledger::Ledger;

/// A table whose elements are read one at a time. Each read is one step. A contract sees it as their list.
#[derive(Drop)]
pub(crate) struct Table<V> {
    elements: Vec<V>,
}

impl<V> Model for Table<V> {
    ghost use Rattle.std.specs.Prelude.{List};

    ghost Value = { List V };

    ghost view = { λ s. s.elements.items };
}

impl<V: Copy> Table<V> {
    pub(crate) fn new(elements: Vec<V>) -> Table<V>
        ensures { result ≡ elements.items }
    {
        Table { elements }
    }

    /// The element of the index.
    pub(crate) fn read<L: Ledger>(&self, index: usize, steps: &mut Steps<L>) -> V
        requires { index < length self.now }
        ensures element { slice_get self.now index ≡ Some result }
        ensures cost { steps.new ≡ steps.old + 1 }
    {
        steps.tick();
        self.elements[index]
    }

    /// The same table.
    pub(crate) fn copy(&self, alloc: Global) -> Result<Table<V>, AllocError>
        ensures { IfOk result (λ table. table ≡ self.now) }
    {
        Ok(Table {
            elements: Vec::from_slice(alloc, &self.elements)?,
        })
    }
}
