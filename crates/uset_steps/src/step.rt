//! Steps that are put off.
ghost use Rattle.std.specs.Prelude.{OnOk};
ghost use Rattle.uset_gather.specs.Gathered.{gathered_in, operand_in, HasMembers};
ghost use Rattle.uset_steps.specs.Operations.{operated};

use crate::closed::Closed;
use crate::literal::{Span, Spelled};
use cp_invlist::NoMemory;
use std::alloc::Global;
use uset_gather::{Gathered, Operand};

/// How a set is gathered.
#[derive(Clone, Copy)]
pub enum Operation {
    /// Its members are added.
    Join,
    /// Its members are taken away.
    Remove,
    /// Only its members are kept.
    Retain,
}

/// A step that is put off.
#[derive(Drop)]
pub(crate) enum Step {
    /// Adds the range.
    Range(Span),
    /// Adds the string.
    Text(Box<Spelled>),
    /// Gathers the set of another bracket.
    Set(Operation, Box<Closed>),
    /// Gathers the named set with this place among those that are kept.
    Named(Operation, usize),
}

/// Gathers the operand.
#[inline(always)]
pub(crate) fn gather(
    alloc: Global,
    gathered: &mut Gathered,
    operation: Operation,
    operand: Operand<'_>,
) -> Result<(), NoMemory>
    ensures { OnOk result
        (HasMembers gathered.new (λ m. operated operation (operand_in operand.entry m) (gathered_in gathered.old m))) }
{
    match operation {
        Operation::Join => gathered.join(alloc, operand),
        Operation::Remove => gathered.remove(alloc, operand),
        Operation::Retain => gathered.retain(alloc, operand),
    }
}
