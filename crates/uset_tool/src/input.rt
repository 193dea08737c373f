//! The input of a run.
ghost use Rattle.std.specs.Prelude.{◌≡◌, ◌≤◌, IfOk, IfErr, length};
ghost use Rattle.uset_tool.specs.Device.{TakesAll, Stops, limit, count_after, is_unread};

use crate::source::{Failed, Source};
use std::alloc::{AllocError, Global};

/// The most bytes that an input may have.
const LIMIT: usize = 1 << 23;

/// Why an input was not taken.
#[derive(Clone, Copy, Drop)]
pub(crate) enum InputError {
    /// The source failed.
    Failed,
    /// More than 2^23 bytes came.
    TooLong,
    /// A request for memory was refused.
    NoMemory,
}

impl From<Failed> for InputError {
    ghost use Rattle.std.specs.Prelude.{◌≡◌};
    ghost use Rattle.uset_tool.specs.declared.input.InputError.TheVariants.{Failed as SourceFailed};

    ghost from_gives = { λ _ error. error ≡ SourceFailed };

    fn from(_error: Failed) -> InputError {
        InputError::Failed
    }
}

impl From<AllocError> for InputError {
    ghost use Rattle.std.specs.Prelude.{◌≡◌};
    ghost use Rattle.uset_tool.specs.declared.input.InputError.TheVariants.{NoMemory};

    ghost from_gives = { λ _ error. error ≡ NoMemory };

    fn from(_error: AllocError) -> InputError {
        InputError::NoMemory
    }
}

/// Takes the whole input, and at most one byte past the limit.
pub(crate) fn read_input<S: Source>(alloc: Global, source: &mut S) -> Result<Vec<u8>, InputError>
    ensures whole { IfOk result (λ input. TakesAll (S.left source.old) (S.left source.new) input.items) }
    ensures short { IfOk result (λ input. length input.items ≤ limit) }
    ensures stopped { IfErr result
        (λ e. Stops e (S.left source.old) (S.left source.new)) }
    ensures counted { S.faults source.new ≡ count_after (is_unread result) (S.faults source.old) }
{
    let mut input = Vec::new(alloc);
    let mut buffer = [0u8; 16384];
    while input.len() <= LIMIT {
        let room = buffer.len().min(LIMIT + 1 - input.len());
        let piece = &mut buffer[..room];
        let count = source.read(piece)?;
        if count == 0 {
            return Ok(input);
        }
        input.extend_from_slice(&piece[..count])?;
    }
    Err(InputError::TooLong)
}
