//! Sinks of bytes.
ghost use Rattle.std.specs.Prelude.{◌≡◌, ℕ, ◌+◌, ◌<◌, ◌≤◌, ◌++◌, List, [], Option, Some, length, IfOk, IfErr, OnOk, Err};
ghost use Rattle.uset_tool.specs.Answered.{Gathers, StopsGathering};
ghost use Rattle.uset_tool.specs.Device.{WritesFront, WritesText, count_after, has_failed, one_more};

use cp_invlist::NoMemory;
use std::alloc::{AllocError, Global};
use std::io::Write;
use std::marker::Model;
use thiserror::Error;

/// Why a write was refused.
#[derive(Clone, Copy, Debug, Drop, PartialEq, Eq, Error)]
pub enum WriteError {
    /// The sink failed.
    #[error("Failed")]
    Failed,
    /// A request for memory was refused.
    #[error("NoMemory")]
    NoMemory,
}

impl From<NoMemory> for WriteError {
    ghost use Rattle.std.specs.Prelude.{◌≡◌};
    ghost use Rattle.uset_tool.specs.declared.sink.WriteError.TheVariants.{NoMemory as OutOfMemory};

    ghost from_gives = { λ _ error. error ≡ OutOfMemory };

    fn from(_error: NoMemory) -> WriteError {
        WriteError::NoMemory
    }
}

impl From<AllocError> for WriteError {
    ghost use Rattle.std.specs.Prelude.{◌≡◌};
    ghost use Rattle.uset_tool.specs.declared.sink.WriteError.TheVariants.{NoMemory as OutOfMemory};

    ghost from_gives = { λ _ error. error ≡ OutOfMemory };

    fn from(_error: AllocError) -> WriteError {
        WriteError::NoMemory
    }
}

/// Where bytes go.
pub trait Sink {
    /// The bytes that were written, where the sink tells them.
    ghost written: { Self → Option (List ℕ) };

    /// How many writes have failed. The count stands still at 2^64 - 1.
    ghost faults: { Self → ℕ };

    /// Appends the front of the piece, which isn't empty. The answer is the number of its bytes, at least 1. A write that
    /// fails is counted, no other is, not even one that memory was refused to. A write that is refused appends nothing.
    fn write(&mut self, buf: &[u8]) -> Result<usize, WriteError>
        requires { 0 < length buf.now }
        ensures within { IfOk result (λ n. (0 < n) × (n ≤ length buf.now)) }
        ensures bytes { WritesFront (written self.old) (written self.new) result buf.now }
        ensures counted { faults self.new ≡ count_after (has_failed result) (faults self.old) };
}

/// A sink in memory, which refuses a write for want of memory alone. A contract sees it as the bytes that were written.
#[derive(Drop)]
pub struct SureSink {
    bytes: Vec<u8>,
}

impl Model for SureSink {
    ghost use Rattle.std.specs.Prelude.{ℕ, List};

    ghost Value = { List ℕ };

    ghost view = { λ s. s.bytes.items };
}

impl SureSink {
    /// A sink with nothing written.
    pub fn new(alloc: Global) -> SureSink
        ensures { result ≡ [] }
    {
        SureSink {
            bytes: Vec::new(alloc),
        }
    }

    /// The bytes that were written.
    pub fn written(&self) -> &[u8]
        ensures { result.now ≡ self.now }
    {
        &self.bytes
    }
}

impl Sink for SureSink {
    ghost written = { λ bytes. Some bytes };

    ghost faults = { λ _. 0 };

    fn write(&mut self, buf: &[u8]) -> Result<usize, WriteError> {
        match self.bytes.extend_from_slice(buf) {
            Ok(()) => Ok(buf.len()),
            Err(_) => Err(WriteError::NoMemory),
        }
    }
}

/// A writer of std as a sink. It tells the bytes that the writer tells, as a `Vec` does and standard output
/// does not, and counts each error of the writer, and each write that took nothing. It takes no memory.
#[derive(Drop)]
pub struct StdSink<W: Write + Drop> {
    writer: W,
    faults: u64,
}

impl<W: Write + Drop> StdSink<W> {
    /// A sink over the writer, with no fault counted.
    pub fn new(writer: W) -> StdSink<W>
        ensures told { ⟦<StdSink<W> as Sink>⟧.written result ≡ W.contents writer }
        ensures counted { ⟦<StdSink<W> as Sink>⟧.faults result ≡ 0 }
    {
        StdSink { writer, faults: 0 }
    }

    /// How many errors of the writer, and writes that took nothing, were counted.
    pub fn faults(&self) -> u64
        ensures { result ≡ ⟦<StdSink<W> as Sink>⟧.faults self.now }
    {
        self.faults
    }

    fn fail(&mut self) -> Result<usize, WriteError>
        ensures error { result ≡ Err WriteError.Failed }
        ensures writer { self.new.writer ≡ self.old.writer }
        ensures counted { self.new.faults ≡ one_more self.old.faults }
    {
        self.faults = self.faults.saturating_add(1);
        Err(WriteError::Failed)
    }
}

impl<W: Write + Drop> Sink for StdSink<W> {
    ghost written = { λ s. W.contents s.writer };

    ghost faults = { λ s. s.faults };

    /// Appends the front of the piece, and takes no memory.
    fn write(&mut self, buf: &[u8]) -> Result<usize, WriteError>
        ensures within { IfOk result (λ n. (0 < n) × (n ≤ length buf.now)) }
        ensures bytes { WritesFront
            (⟦<StdSink<W> as Sink>⟧.written self.old) (⟦<StdSink<W> as Sink>⟧.written self.new) result buf.now }
        ensures failed { IfErr result (λ error. error ≡ WriteError.Failed) }
        ensures counted { ⟦<StdSink<W> as Sink>⟧.faults self.new
            ≡ count_after (has_failed result) (⟦<StdSink<W> as Sink>⟧.faults self.old) }
    {
        match self.writer.write(buf) {
            Ok(0) | Err(_) => self.fail(),
            Ok(count) => Ok(count),
        }
    }
}

/// Writes the whole text.
pub(crate) fn write_all<K: Sink>(sink: &mut K, text: &[u8]) -> Result<(), WriteError>
    ensures written { WritesText (K.written sink.old) (K.written sink.new) result text.now }
    ensures counted { K.faults sink.new ≡ count_after (has_failed result) (K.faults sink.old) }
{
    let mut rest = text;
    while !rest.is_empty() {
        let count = sink.write(rest)?;
        rest = rest.split_at(count).1;
    }
    Ok(())
}

/// How many bytes are gathered before they are written.
const PIECE: usize = 1 << 16;

/// Puts the text behind what is pending, and writes it all once that is a piece.
pub(crate) fn gather<K: Sink>(
    sink: &mut K,
    pending: &mut Vec<u8>,
    text: &[u8],
) -> Result<(), WriteError>
    ensures gathered { OnOk result
        (Gathers (K.written sink.old) (K.written sink.new) pending.old.items text.now pending.new.items) }
    ensures stopped { IfErr result
        (StopsGathering (K.written sink.old) (K.written sink.new) (pending.old.items ++ text.now)) }
    ensures counted { K.faults sink.new ≡ count_after (has_failed result) (K.faults sink.old) }
{
    pending.extend_from_slice(text)?;
    if pending.len() < PIECE {
        return Ok(());
    }
    write_all(sink, pending)?;
    pending.clear();
    Ok(())
}
