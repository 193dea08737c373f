//! Sources of bytes.
ghost use Rattle.std.specs.Prelude.{◌≡◌, ℕ, ◌<◌, ◌≤◌, List, Option, Some, length, is_err, IfOk, drop};
ghost use Rattle.uset_tool.specs.Device.{ReadsFront, count_after};

use std::io::Read;
use std::marker::Model;
use thiserror::Error;

/// A source failed.
#[derive(Clone, Copy, Debug, Drop, PartialEq, Eq, Error)]
#[error("Failed")]
pub struct Failed;

/// Where bytes come from.
pub trait Source {
    /// The bytes still to come, where the source tells them.
    ghost left: { Self → Option (List ℕ) };

    /// How many reads have failed. The count stands still at 2^64 - 1.
    ghost faults: { Self → ℕ };

    /// Takes bytes off the front of what is left and puts them at the front of the buffer, which isn't empty. The
    /// answer is their number, which is 0 only where nothing is left. A read that fails is counted, no other is, and it
    /// takes nothing.
    fn read(&mut self, buf: &mut [u8]) -> Result<usize, Failed>
        requires { 0 < length buf.old }
        ensures within { IfOk result (λ n. n ≤ length buf.old) }
        ensures bytes { ReadsFront (left self.old) (left self.new) result buf.new }
        ensures counted { faults self.new ≡ count_after (is_err result) (faults self.old) };
}

/// Bytes in memory, which never fail. A contract sees it as the bytes that are left.
#[derive(Drop)]
pub struct SureSource {
    bytes: Vec<u8>,
    /// The index of the first byte that is left.
    place: usize,
}

impl Model for SureSource {
    ghost use Rattle.std.specs.Prelude.{ℕ, List, drop, ◌≤◌, vec_len};

    ghost Value = { List ℕ };

    ghost view = { λ s. drop s.place s.bytes.items };

    ghost invariant = { λ s. s.place ≤ vec_len s.bytes };
}

impl SureSource {
    /// A source of these bytes.
    pub fn new(bytes: Vec<u8>) -> SureSource
        ensures { result ≡ bytes.items }
    {
        SureSource { bytes, place: 0 }
    }
}

impl Source for SureSource {
    ghost left = { λ bytes. Some bytes };

    ghost faults = { λ _. 0 };

    fn read(&mut self, buf: &mut [u8]) -> Result<usize, Failed> {
        let left = &self.bytes[self.place..];
        let count = left.len().min(buf.len());
        buf[..count].copy_from_slice(&left[..count]);
        self.place += count;
        Ok(count)
    }
}

/// A reader of std as a source. It tells the bytes that the reader tells, as a `Cursor` does and standard
/// input does not, and counts each error of the reader.
#[derive(Drop)]
pub struct StdSource<R: Read + Drop> {
    reader: R,
    faults: u64,
}

impl<R: Read + Drop> StdSource<R> {
    /// A source over the reader, with no fault counted.
    pub fn new(reader: R) -> StdSource<R>
        ensures told { ⟦<StdSource<R> as Source>⟧.left result ≡ R.remaining reader }
        ensures counted { ⟦<StdSource<R> as Source>⟧.faults result ≡ 0 }
    {
        StdSource { reader, faults: 0 }
    }

    /// How many errors of the reader were counted.
    pub fn faults(&self) -> u64
        ensures { result ≡ ⟦<StdSource<R> as Source>⟧.faults self.now }
    {
        self.faults
    }
}

impl<R: Read + Drop> Source for StdSource<R> {
    ghost left = { λ s. R.remaining s.reader };

    ghost faults = { λ s. s.faults };

    fn read(&mut self, buf: &mut [u8]) -> Result<usize, Failed> {
        match self.reader.read(buf) {
            Ok(count) => Ok(count),
            Err(_) => {
                self.faults = self.faults.saturating_add(1);
                Err(Failed)
            }
        }
    }
}
