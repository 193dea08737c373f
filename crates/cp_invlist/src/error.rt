//! The errors of sets.
use std::alloc::{AllocError, AllocFailed};
use thiserror::Error;

/// A request for memory was refused.
#[derive(Clone, Copy, Debug, Drop, PartialEq, Eq, Error)]
#[error("NoMemory")]
pub struct NoMemory;

impl From<AllocError> for NoMemory {
    fn from(_refused: AllocError) -> NoMemory {
        NoMemory
    }
}

impl<T: Drop> From<AllocFailed<T>> for NoMemory {
    fn from(_refused: AllocFailed<T>) -> NoMemory {
        NoMemory
    }
}

/// Why a list is taken for no set.
#[derive(Clone, Copy, Debug, Drop, PartialEq, Eq, Error)]
pub enum InversionListError {
    /// The element at this index isn't above the one before it, or is above 110000. Where each element is in order, the
    /// length is odd, and the index is the length.
    #[error("Invalid")]
    Invalid {
        /// The first such index.
        index: usize,
    },
    /// A request for memory was refused.
    #[error("NoMemory")]
    NoMemory,
}

impl From<AllocError> for InversionListError {
    ghost use Rattle.cp_invlist.specs.declared.error.InversionListError.TheVariants.{NoMemory as refused_memory};
    ghost use Rattle.std.specs.Prelude.{◌≡◌};

    ghost from_gives = { λ _ e. e ≡ refused_memory };

    fn from(_refused: AllocError) -> InversionListError {
        InversionListError::NoMemory
    }
}
