//! An open bracket.

use crate::arrange::{Awaits, arranged_behind};
use crate::code_point::CodePoint;
use crate::item::{Item, Operand};
use cp_invlist::{CodePointRange, NoMemory};
use std::alloc::Global;
use uset_grammar::laws::arranging;
use uset_steps::{Closed, Gathering, Operation};

/// The range of the hyphen alone.
const HYPHEN: CodePointRange = CodePointRange {
    start: 0x2D,
    end: 0x2D,
};

/// The range of U+FFFF alone, for which a `$` at the end stands.
const ANCHOR: CodePointRange = CodePointRange {
    start: 0xFFFF,
    end: 0xFFFF,
};

/// What a bracket begins with.
#[derive(Clone, Copy)]
pub(crate) struct Opening {
    /// Whether the bracket is negated.
    pub(crate) negated: bool,
    /// Whether a hyphen is its first member.
    pub(crate) leading: bool,
}

impl Opening {
    /// Neither.
    pub(crate) const NONE: Opening = Opening {
        negated: false,
        leading: false,
    };
}

/// A bracket whose closing `]` is still to come.
pub(crate) struct OpenBracket<'a> {
    pub(crate) gathered: Gathering<'a>,
    opening: Opening,
    pub(crate) awaits: Awaits,
    /// The number of bytes of the source before the bracket.
    pub(crate) before: usize,
}

// By hand, so that letting a value go is one call in each proof.
impl Drop for OpenBracket<'_> {
    fn drop(self) {
        let Self {
            gathered: _,
            opening: _,
            awaits: _,
            before: _,
        } = self;
    }
}

/// What became of an item.
#[derive(Clone, Copy)]
pub(crate) enum Taken {
    /// It was taken.
    Fits,
    /// It ends a range that is reversed, with this code point.
    Reversed(CodePoint),
    /// It doesn't fit.
    Unfit,
}

impl<'a> OpenBracket<'a> {
    ghost use Rattle.std.specs.Prelude.{◌≡◌, ◌≤◌, ◌∷◌, All, IfOk, IfSome, OnOk};
    ghost use Rattle.uset_grammar.specs.Tree.{add};
    ghost use Rattle.uset_grammar.specs.Body.{add_each};
    ghost use Rattle.uset_grammar.specs.Arranging.{went, next, ending};
    ghost use Rattle.uset_grammar.specs.Turn.{two};
    ghost use Rattle.uset_reader.specs.Items.{awaits_seen, Meant, item_seen, range_steps, IsProper};
    ghost use Rattle.uset_reader.specs.Brackets.{Becomes, GathersItem, IsBegun, Takes, Closes, Refuses, KeepsFrame, EndedAs};

    /// A bracket behind what it begins with.
    pub(crate) fn open(
        alloc: Global,
        opening: Opening,
        before: usize,
    ) -> Result<OpenBracket<'a>, NoMemory>
        ensures { IfOk result (IsBegun opening before) }
    {
        let mut gathered = Gathering::new(alloc);
        if opening.leading {
            gathered.add_range(HYPHEN)?;
        }
        Ok(OpenBracket {
            gathered,
            opening,
            awaits: Awaits::Element,
            before,
        })
    }

    /// Whether an escape of several numbers fits.
    pub(crate) fn fits_several(&self) -> bool
        ensures { result ≡ went (next (awaits_seen self.now.awaits) two) }
    {
        match self.awaits {
            Awaits::Element | Awaits::AfterSingle(_) | Awaits::AfterSet => true,
            _ => false,
        }
    }

    /// Takes an item, where it fits.
    pub(crate) fn take(&mut self, alloc: Global, item: Item<'a>) -> Result<Taken, NoMemory>
        requires { IsProper item }
        ensures { IfOk result (λ taken. Takes self.old item.entry taken self.new) }
    {
        arranging();
        let Some(arranged) = arranged_behind(self.awaits, &item) else {
            return Ok(self.refusal(&item));
        };
        self.add_front(arranged.adds)?;
        self.gather(alloc, arranged.operation, item)?;
        self.awaits = arranged.awaits;
        Ok(Taken::Fits)
    }

    /// Adds the range, where there is one.
    fn add_front(&mut self, range: Option<CodePointRange>) -> Result<(), NoMemory>
        requires { IfSome range (λ r. r.end ≤ 0x10FFFF) }
        ensures becomes { OnOk result (Becomes self.old.gathered (range_steps range) self.new.gathered) }
        ensures same { KeepsFrame self.old self.new }
    {
        match range {
            Some(range) => self.gathered.add_range(range),
            None => Ok(()),
        }
    }

    /// How an item doesn't fit.
    fn refusal(&self, item: &Item<'_>) -> Taken
        ensures { (meant : Meant) → Refuses (awaits_seen self.now.awaits) (item_seen meant item.now) result }
    {
        match (self.awaits, item) {
            (Awaits::RangeEnd(_), Item::Single(c)) => Taken::Reversed(*c),
            _ => Taken::Unfit,
        }
    }

    /// Gathers what the item adds by itself.
    fn gather(
        &mut self,
        alloc: Global,
        operation: Operation,
        item: Item<'a>,
    ) -> Result<(), NoMemory>
        requires { IsProper item }
        ensures becomes { OnOk result (GathersItem operation item.entry self.old.gathered self.new.gathered) }
        ensures same { KeepsFrame self.old self.new }
    {
        match item {
            Item::Several(codes) => self.add_each(codes.first, &codes.more),
            Item::Text(text) => self.gathered.add_text(alloc, text),
            Item::NamedText(named) => {
                let named = Box::into_inner(named);
                self.gathered.gather_named(alloc, Operation::Join, named)
            }
            Item::Set(Operand::Inner(set)) => self.gathered.gather(alloc, operation, set),
            Item::Set(Operand::Named(named)) => {
                let named = Box::into_inner(named);
                self.gathered.gather_named(alloc, operation, named)
            }
            Item::Set(Operand::Again(place)) => self.gathered.gather_again(operation, place),
            Item::Minus | Item::Ampersand | Item::Dollar | Item::Single(_) => Ok(()),
        }
    }

    /// Adds each of the code points.
    fn add_each(&mut self, first: u32, more: &[u32]) -> Result<(), NoMemory>
        requires { All (λ n. n ≤ 0x10FFFF) (first ∷ more.now) }
        ensures becomes { OnOk result (Becomes self.old.gathered (add_each (first ∷ more.now)) self.new.gathered) }
        ensures same { KeepsFrame self.old self.new }
    {
        self.add(first, first)?;
        for number in more {
            self.add(*number, *number)?;
        }
        Ok(())
    }

    fn add(&mut self, first: u32, last: u32) -> Result<(), NoMemory>
        requires { last ≤ 0x10FFFF }
        ensures becomes { OnOk result (Becomes self.old.gathered (add first last) self.new.gathered) }
        ensures same { KeepsFrame self.old self.new }
    {
        self.gathered.add_range(CodePointRange {
            start: first,
            end: last,
        })
    }

    /// Adds what is left standing for itself in front of a `]`. The answer says whether a `]` fits.
    fn add_last(&mut self) -> Result<bool, NoMemory>
        ensures ended { IfOk result
            (EndedAs (ending (awaits_seen self.old.awaits)) self.old.gathered self.new.gathered) }
        ensures same { KeepsFrame self.old self.new }
    {
        let last = match self.awaits {
            Awaits::Element | Awaits::AfterSet => return Ok(true),
            Awaits::AfterSingle(only) => only.range(),
            Awaits::RangeEnd(first) => {
                self.gathered.add_range(first.range())?;
                HYPHEN
            }
            Awaits::End | Awaits::RemoveOrEnd => HYPHEN,
            Awaits::AnchorEnd => ANCHOR,
            Awaits::Keep => return Ok(false),
        };
        self.gathered.add_range(last)?;
        Ok(true)
    }

    /// Takes `]`. The answer is the bracket's set, and `None` where no `]` fits.
    pub(crate) fn close(mut self, alloc: Global) -> Result<Option<Closed>, NoMemory>
        ensures { IfOk result (Closes self.entry) }
    {
        if !self.add_last()? {
            return Ok(None);
        }
        let Self {
            gathered,
            opening,
            awaits: _,
            before: _,
        } = self;
        Ok(Some(gathered.close(alloc, opening.negated)?))
    }
}
