//! Sources and sinks in memory that pass few bytes a call, and whose calls fail where that is asked.
ghost use Rattle.std.specs.Prelude.{◌≡◌, ◌<◌, ◌≤◌, ◌+◌, min, length, vec_len, is_err, ◌↔◌, true, Err, IfOk};
ghost use Rattle.uset_tool.specs.Device.{ReadsFront, WritesFront, count_after, has_failed, one_more};
ghost use Rattle.uset_tool.specs.Memory.{is_among};

use crate::sink::{Sink, WriteError};
use crate::source::{Failed, Source};
use std::alloc::Global;
use std::marker::Model;

/// The calls of a device, numbered from 0. Both counts stand still at 2^64 - 1.
#[derive(Drop)]
struct Calls {
    /// The numbers of the calls that fail.
    failing: Vec<u64>,
    made: u64,
    faults: u64,
}

impl Calls {
    /// Counts a call, and tells whether it fails.
    fn next_fails(&mut self) -> bool
        ensures fails { result ≡ is_among self.old.failing.items self.old.made }
        ensures failing { self.new.failing ≡ self.old.failing }
        ensures made { self.new.made ≡ one_more self.old.made }
        ensures faults { self.new.faults ≡
            count_after (is_among self.old.failing.items self.old.made) self.old.faults }
    {
        let fails = self.failing.contains(&self.made);
        self.made = self.made.saturating_add(1);
        if fails {
            self.faults = self.faults.saturating_add(1);
        }
        fails
    }
}

/// Bytes in memory, of which a read takes at most a piece, and whose reads of chosen numbers fail. A contract sees it as a
/// device with the bytes that are left.
pub struct MemorySource {
    bytes: Vec<u8>,
    /// The index of the first byte that is left.
    place: usize,
    piece: usize,
    calls: Calls,
}

// By hand, so that letting a value go is one call in each proof.
impl Drop for MemorySource {
    fn drop(self) {
        let Self {
            bytes: _,
            place: _,
            piece: _,
            calls: _,
        } = self;
    }
}

impl Model for MemorySource {
    ghost use Rattle.std.specs.Prelude.{◌<◌, ◌≤◌, drop, vec_len};
    ghost use Rattle.uset_tool.specs.Memory.{Device};

    ghost Value = { Device };

    ghost view = { λ s. record {
      bytes = drop s.place s.bytes.items;
      piece = s.piece;
      failing = s.calls.failing.items;
      calls = s.calls.made;
      faults = s.calls.faults;
    } };

    ghost invariant = { λ s. (s.place ≤ vec_len s.bytes) × (0 < s.piece) };
}

impl MemorySource {
    ghost use Rattle.uset_tool.specs.Memory.{Device};

    /// A source of these bytes, of which a read takes at most `piece`, which isn't 0, and whose reads with these numbers
    /// fail. The first read has the number 0.
    pub fn new(bytes: Vec<u8>, piece: usize, failing: Vec<u64>) -> MemorySource
        requires { 0 < piece }
        ensures { result ≡
            record { bytes = bytes.items; piece = piece; failing = failing.items; calls = 0; faults = 0 } }
    {
        let calls = Calls {
            failing,
            made: 0,
            faults: 0,
        };
        MemorySource {
            bytes,
            place: 0,
            piece,
            calls,
        }
    }
}

impl Source for MemorySource {
    ghost use Rattle.std.specs.Prelude.{Some};
    ghost use Rattle.uset_tool.specs.Memory.{next_fails, CountsCall};

    ghost left = { λ device. Some device.bytes };

    ghost faults = { λ device. device.faults };

    /// Takes as many bytes as the piece, the buffer and what is left allow. It fails exactly where the number of the call is
    /// one of those that fail.
    fn read(&mut self, buf: &mut [u8]) -> Result<usize, Failed>
        requires { 0 < length buf.old }
        ensures within { IfOk result (λ n. n ≤ length buf.old) }
        ensures bytes { ReadsFront (Some self.old.bytes) (Some self.new.bytes) result buf.new }
        ensures counted { self.new.faults ≡ count_after (is_err result) self.old.faults }
        ensures fails { is_err result ≡ next_fails self.old }
        ensures taken { IfOk result (λ n. n ≡ min self.old.piece (min (length buf.old) (length self.old.bytes))) }
        ensures counts { CountsCall self.old self.new }
    {
        if self.calls.next_fails() {
            return Err(Failed);
        }
        let left = &self.bytes[self.place..];
        let count = self.piece.min(buf.len().min(left.len()));
        buf[..count].copy_from_slice(&left[..count]);
        self.place += count;
        Ok(count)
    }
}

/// A sink in memory, of which a write takes at most a piece, and whose writes of chosen numbers fail. A contract sees it as a
/// device with the bytes that were written.
pub struct MemorySink {
    bytes: Vec<u8>,
    piece: usize,
    calls: Calls,
}

// By hand, so that letting a value go is one call in each proof.
impl Drop for MemorySink {
    fn drop(self) {
        let Self {
            bytes: _,
            piece: _,
            calls: _,
        } = self;
    }
}

impl Model for MemorySink {
    ghost use Rattle.std.specs.Prelude.{◌<◌};
    ghost use Rattle.uset_tool.specs.Memory.{Device};

    ghost Value = { Device };

    ghost view = { λ s. record {
      bytes = s.bytes.items;
      piece = s.piece;
      failing = s.calls.failing.items;
      calls = s.calls.made;
      faults = s.calls.faults;
    } };

    ghost invariant = { λ s. 0 < s.piece };
}

impl MemorySink {
    ghost use Rattle.std.specs.Prelude.{[]};
    ghost use Rattle.uset_tool.specs.Memory.{Device};

    /// A sink with nothing written, of which a write takes at most `piece` bytes, which isn't 0, and whose writes with
    /// these numbers fail. The first write has the number 0.
    pub fn new(alloc: Global, piece: usize, failing: Vec<u64>) -> MemorySink
        requires { 0 < piece }
        ensures { result ≡ record { bytes = []; piece = piece; failing = failing.items; calls = 0; faults = 0 } }
    {
        let calls = Calls {
            failing,
            made: 0,
            faults: 0,
        };
        MemorySink {
            bytes: Vec::new(alloc),
            piece,
            calls,
        }
    }

    /// The bytes that were written.
    pub fn written(&self) -> &[u8]
        ensures { result.now ≡ self.now.bytes }
    {
        &self.bytes
    }
}

impl Sink for MemorySink {
    ghost use Rattle.std.specs.Prelude.{Some};
    ghost use Rattle.uset_tool.specs.Memory.{next_fails, CountsCall};

    ghost written = { λ device. Some device.bytes };

    ghost faults = { λ device. device.faults };

    /// Appends as many bytes as the piece allows. It fails exactly where the number of the call is one of those that fail; want of
    /// memory is an error of its own, and no failure.
    fn write(&mut self, buf: &[u8]) -> Result<usize, WriteError>
        requires { 0 < length buf.now }
        ensures within { IfOk result (λ n. (0 < n) × (n ≤ length buf.now)) }
        ensures bytes { WritesFront (Some self.old.bytes) (Some self.new.bytes) result buf.now }
        ensures counted { self.new.faults ≡ count_after (has_failed result) self.old.faults }
        ensures fails { (result ≡ Err WriteError.Failed) ↔ (next_fails self.old ≡ true) }
        ensures taken { IfOk result (λ n. n ≡ min self.old.piece (length buf.now)) }
        ensures counts { CountsCall self.old self.new }
    {
        if self.calls.next_fails() {
            return Err(WriteError::Failed);
        }
        let count = self.piece.min(buf.len());
        match self.bytes.extend_from_slice(&buf[..count]) {
            Ok(()) => Ok(count),
            Err(_) => Err(WriteError::NoMemory),
        }
    }
}
