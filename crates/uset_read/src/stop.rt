//! Why a unit isn't read.
use cp_invlist::NoMemory;
use std::alloc::AllocFailed;

/// What is wrong at a place.
#[derive(Clone, Copy, PartialEq, Eq, Debug, Drop)]
pub enum Kind {
    /// The character can't stand there.
    UnexpectedChar(char),
    /// `\N`, which isn't read.
    Unimplemented,
    /// The number is no code point, or a surrogate where characters are due.
    InvalidEscape,
    /// The property resolves to nothing. Whoever resolves it tells so, and no call of this crate.
    UnknownProperty,
    /// Block is asked for a value, and the table of the names of blocks is absent, or the map of blocks, where the value is the
    /// name of one or its number. Whoever resolves it tells so.
    Internal,
}

/// Why a unit isn't read.
#[derive(Drop)]
pub enum Stop<'a> {
    /// It has a fault, at the front of this rest of the text.
    Fault(Kind, &'a str),
    /// The text ends inside it.
    Ended,
    /// A request for memory was refused.
    NoMemory,
}

impl<'a> From<NoMemory> for Stop<'a> {
    ghost use Rattle.std.specs.Prelude.{◌≡◌};
    ghost use Rattle.uset_read.specs.declared.stop.Stop.TheVariants.{NoMemory as OutOfMemory};

    ghost from_gives = { λ _ stop. stop ≡ OutOfMemory };

    fn from(_error: NoMemory) -> Stop<'a> {
        Stop::NoMemory
    }
}

impl<'a, T: Drop> From<AllocFailed<T>> for Stop<'a> {
    ghost use Rattle.std.specs.Prelude.{◌≡◌};
    ghost use Rattle.uset_read.specs.declared.stop.Stop.TheVariants.{NoMemory as OutOfMemory};

    ghost from_gives = { λ _ stop. stop ≡ OutOfMemory };

    fn from(_error: AllocFailed<T>) -> Stop<'a> {
        Stop::NoMemory
    }
}
