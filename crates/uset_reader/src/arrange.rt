//! How the items of a bracket are arranged.
ghost use Rattle.std.specs.Prelude.{◌≤◌, IfSome};
ghost use Rattle.uset_grammar.specs.Arranging.{next};
ghost use Rattle.uset_reader.specs.Items.{Meant, item_seen, awaits_seen, Arranges};

use crate::code_point::CodePoint;
use crate::item::Item;
use cp_invlist::CodePointRange;
use uset_steps::Operation;

/// What an open bracket awaits.
#[derive(Clone, Copy)]
pub(crate) enum Awaits {
    /// An item, or the end.
    Element,
    /// Behind a single character: an item, a hyphen, or the end.
    AfterSingle(CodePoint),
    /// Behind a single character and a hyphen: the end of the range, or the end.
    RangeEnd(CodePoint),
    /// Behind a hyphen that begins nothing: the end.
    End,
    /// Behind a bare `$`: the end.
    AnchorEnd,
    /// Behind a set: an item, a hyphen, an ampersand, or the end.
    AfterSet,
    /// Behind a set and a hyphen: the set that is taken away, or the end.
    RemoveOrEnd,
    /// Behind a set and an ampersand: the set whose members are kept.
    Keep,
}

/// What becomes of an item that fits.
#[derive(Clone, Copy)]
pub(crate) struct Arranged {
    /// The range that is gathered in front of what the item itself adds.
    pub(crate) adds: Option<CodePointRange>,
    /// How the item is gathered, where it is a set.
    pub(crate) operation: Operation,
    /// What is awaited next.
    pub(crate) awaits: Awaits,
}

impl Arranged {
    ghost use Rattle.std.specs.Prelude.{◌≡◌, Some, None};
    ghost use Rattle.uset_reader.specs.Items.{number_of};
    ghost use Rattle.uset_steps.specs.declared.step.Operation.TheVariants.{Join};
    ghost use Rattle.uset_reader.specs.declared.arrange.Awaits.TheVariants.{AfterSet as BehindSet};

    /// The item adds nothing in front.
    fn goes_on(awaits: Awaits) -> Arranged
        ensures { result ≡ record { adds = None; operation = Join; awaits = awaits } }
    {
        Arranged {
            adds: None,
            operation: Operation::Join,
            awaits,
        }
    }

    /// The range is added in front.
    fn adds(first: CodePoint, last: CodePoint, awaits: Awaits) -> Arranged
        ensures { result ≡ record {
          adds = Some (record { start = number_of first; end = number_of last });
          operation = Join;
          awaits = awaits;
        } }
    {
        Arranged {
            adds: Some(CodePointRange {
                start: first.number(),
                end: last.number(),
            }),
            operation: Operation::Join,
            awaits,
        }
    }

    /// The one code point is added in front.
    fn adds_one(only: CodePoint, awaits: Awaits) -> Arranged
        ensures { result ≡ record {
          adds = Some (record { start = number_of only; end = number_of only });
          operation = Join;
          awaits = awaits;
        } }
    {
        Arranged::adds(only, only, awaits)
    }

    /// A set is gathered so.
    fn gathers(operation: Operation) -> Arranged
        ensures { result ≡ record { adds = None; operation = operation; awaits = BehindSet } }
    {
        Arranged {
            adds: None,
            operation,
            awaits: Awaits::AfterSet,
        }
    }
}

/// What becomes of an item behind those that were read. `None` where it doesn't fit.
pub(crate) fn arranged_behind(awaits: Awaits, item: &Item<'_>) -> Option<Arranged>
    ensures arranged { (meant : Meant) →
        Arranges (next (awaits_seen awaits) (item_seen meant item.now)) (item_seen meant item.now) result }
    ensures within { IfSome result (λ a. IfSome a.adds (λ r. r.end ≤ 0x10FFFF)) }
{
    let arranged = match (awaits, item) {
        (Awaits::Element, Item::Minus) => Arranged::goes_on(Awaits::End),
        (Awaits::AfterSingle(first), Item::Minus) => Arranged::goes_on(Awaits::RangeEnd(first)),
        (Awaits::AfterSet, Item::Minus) => Arranged::goes_on(Awaits::RemoveOrEnd),
        (Awaits::AfterSet, Item::Ampersand) => Arranged::goes_on(Awaits::Keep),
        (Awaits::Element | Awaits::AfterSet, Item::Dollar) => Arranged::goes_on(Awaits::AnchorEnd),
        (Awaits::AfterSingle(first), Item::Dollar) => Arranged::adds_one(first, Awaits::AnchorEnd),
        (Awaits::Element | Awaits::AfterSet, Item::Single(c)) => Arranged::goes_on(
            Awaits::AfterSingle(*c),
        ),
        (Awaits::AfterSingle(first), Item::Single(c)) => Arranged::adds_one(
            first,
            Awaits::AfterSingle(*c),
        ),
        (Awaits::RangeEnd(first), Item::Single(last)) if first.number() <= last.number() =>
            Arranged::adds(first, *last, Awaits::Element),
        (
            Awaits::Element | Awaits::AfterSet,
            Item::Several(_) | Item::Text(_) | Item::NamedText(_),
        ) => Arranged::goes_on(Awaits::Element),
        (Awaits::AfterSingle(first), Item::Several(_) | Item::Text(_) | Item::NamedText(_)) =>
            Arranged::adds_one(first, Awaits::Element),
        (Awaits::Element | Awaits::AfterSet, Item::Set(_)) => Arranged::gathers(Operation::Join),
        (Awaits::AfterSingle(first), Item::Set(_)) => Arranged::adds_one(first, Awaits::AfterSet),
        (Awaits::RemoveOrEnd, Item::Set(_)) => Arranged::gathers(Operation::Remove),
        (Awaits::Keep, Item::Set(_)) => Arranged::gathers(Operation::Retain),
        _ => return None,
    };
    Some(arranged)
}
