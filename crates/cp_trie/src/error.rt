//! The errors of maps and of their values.
ghost use Rattle.std.specs.Prelude.{◌≡◌};
ghost use Rattle.cp_trie.specs.declared.error.TrieError.TheVariants.{NoMemory as TrieNoMemory};
ghost use Rattle.cp_trie.specs.declared.error.ConvertError.TheVariants.{NoMemory as ConvertNoMemory};

use cp_invlist::NoMemory;
use std::alloc::{AllocError, AllocFailed};
use thiserror::Error;

/// A number that stands for no value of the type.
#[derive(Clone, Copy, Debug, Drop, PartialEq, Eq, Error)]
#[error("ValueError")]
pub struct ValueError {
    /// The number.
    pub value: u32,
}

/// Why runs make no map.
#[derive(Clone, Copy, Debug, Drop, PartialEq, Eq, Error)]
pub enum TrieError {
    /// The run of this index does not start one past the end of the run before it, or as the first at 0.
    /// With the number of runs as the index, the runs do not reach 10FFFF.
    #[error("Gap")]
    Gap {
        /// The index of the run.
        index: usize,
    },
    /// The run of this index ends below its start or above 10FFFF.
    #[error("Order")]
    Order {
        /// The index of the run.
        index: usize,
    },
    /// A request for memory was refused.
    #[error("NoMemory")]
    NoMemory,
}

/// Why a map does not convert to another type of values.
#[derive(Clone, Copy, Debug, Drop, PartialEq, Eq, Error)]
pub enum ConvertError {
    /// The value of the maximal run of this index does not convert. With the number of maximal runs as
    /// the index, the error value alone does not.
    #[error("Value")]
    Value {
        /// The index of the maximal run.
        index: usize,
    },
    /// A request for memory was refused.
    #[error("NoMemory")]
    NoMemory,
}

impl From<AllocError> for TrieError {
    ghost from_gives = { λ _ e. e ≡ TrieNoMemory };

    fn from(_error: AllocError) -> TrieError {
        TrieError::NoMemory
    }
}

impl From<NoMemory> for TrieError {
    ghost from_gives = { λ _ e. e ≡ TrieNoMemory };

    fn from(_error: NoMemory) -> TrieError {
        TrieError::NoMemory
    }
}

impl From<AllocError> for ConvertError {
    ghost from_gives = { λ _ e. e ≡ ConvertNoMemory };

    fn from(_error: AllocError) -> ConvertError {
        ConvertError::NoMemory
    }
}

impl From<NoMemory> for ConvertError {
    ghost from_gives = { λ _ e. e ≡ ConvertNoMemory };

    fn from(_error: NoMemory) -> ConvertError {
        ConvertError::NoMemory
    }
}

impl<T: Drop> From<AllocFailed<T>> for ConvertError {
    ghost from_gives = { λ _ e. e ≡ ConvertNoMemory };

    fn from(_error: AllocFailed<T>) -> ConvertError {
        ConvertError::NoMemory
    }
}
