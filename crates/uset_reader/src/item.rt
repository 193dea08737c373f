//! The items of a bracket.
ghost use Rattle.std.specs.Prelude.{◌≢◌, []};

use crate::code_point::CodePoint;
use uset_steps::{Closed, Named, Place};

/// The code points of an escape of several numbers: the first, and those behind it.
#[derive(Drop)]
pub(crate) struct Codes {
    pub(crate) first: u32,
    pub(crate) more: Vec<u32>,
    ghost several: { more.items ≢ [] },
}

/// A set in a bracket.
#[derive(Drop)]
pub(crate) enum Operand<'a> {
    /// The set of a bracket inside.
    Inner(Closed),
    /// A property, or a variable that is bound to a set, with its name.
    Named(Box<Named<'a>>),
    /// A property that was named before in the bracket, which keeps it at this place.
    Again(Place),
}

/// An item of one character, which takes as little memory as that.
#[derive(Clone, Copy)]
pub(crate) enum Single {
    /// `-`
    Minus,
    /// `&`
    Ampersand,
    /// `$` that begins no name.
    Dollar,
    /// Any other character.
    Other(CodePoint),
}

impl Single {
    ghost use Rattle.uset_grammar.specs.Language.{Language};
    ghost use Rattle.uset_steps.specs.declared.gathering.Gathering.{Gathering};
    ghost use Rattle.uset_reader.specs.Items.{IsProper};
    ghost use Rattle.uset_reader.specs.Brackets.{IsItem};
    ghost use Rattle.uset_reader.specs.Singles.{single_seen};

    /// The item that it is.
    pub(crate) fn into_item<'a>(self) -> Item<'a>
        ensures item { (l : Language) (g : Gathering) → IsItem l g result (single_seen self) }
        ensures proper { IsProper result }
    {
        match self {
            Single::Minus => Item::Minus,
            Single::Ampersand => Item::Ampersand,
            Single::Dollar => Item::Dollar,
            Single::Other(c) => Item::Single(c),
        }
    }
}

/// An item of a bracket.
#[derive(Drop)]
pub(crate) enum Item<'a> {
    /// `-`
    Minus,
    /// `&`
    Ampersand,
    /// `$` that begins no name.
    Dollar,
    /// A single character: a character, an escape, a string or a variable of one.
    Single(CodePoint),
    /// An escape of several numbers.
    Several(Codes),
    /// A string that isn't one character.
    Text(String),
    /// Such a string that a variable is bound to, as the set of it alone, which is not copied.
    NamedText(Box<Named<'a>>),
    /// A set.
    Set(Operand<'a>),
}
