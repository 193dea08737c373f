//! Devices in memory that fail at one call after another.
use crate::fixtures::{assert_equal, eval};
use row_fixtures::EVERY_KIND;
use std::alloc::{AllocError, Global};
use uset_tool::{MemorySink, MemorySource, Status, run};

/// How many bytes a read and a write take.
const READ: usize = 64;

const WRITE: usize = 3;

/// The answer to the one pattern of the script.
const ANSWER: &[u8] = b"ok 3 0061\n";

/// The tables and a script of one pattern.
fn input(alloc: Global) -> Result<String, AllocError> {
    format!(in alloc; "{EVERY_KIND}pat [a]\n")
}

/// The number of one call, or of none.
fn numbers(alloc: Global, call: Option<u64>) -> Result<Vec<u64>, AllocError> {
    let mut numbers = Vec::new(alloc);
    if let Some(call) = call {
        numbers.push(call)?;
    }
    Ok(numbers)
}

/// A run whose reads and writes fail at these calls.
fn run_failing(
    alloc: Global,
    words: &Vec<String>,
    input: &str,
    read: Option<u64>,
    write: Option<u64>,
) -> Result<(Status, MemorySink), AllocError> {
    let bytes = input.as_bytes().to_vec(alloc)?;
    let mut source = MemorySource::new(bytes, READ, numbers(alloc, read)?);
    let mut sink = MemorySink::new(alloc, WRITE, numbers(alloc, write)?);
    let status = run(alloc, words, &mut source, &mut sink);
    Ok((status, sink))
}

/// Whether a run whose reads and writes fail at these calls ends with the status of this number, and wrote this.
fn ends(
    alloc: Global,
    words: &Vec<String>,
    input: &str,
    calls: (Option<u64>, Option<u64>),
    end: (u8, &[u8]),
) -> Result<bool, AllocError> {
    let (status, sink) = run_failing(alloc, words, input, calls.0, calls.1)?;
    Ok(status.code() == end.0 && sink.written() == end.1)
}

/// How many reads the input takes, the last of which finds its end.
fn count_of_reads(input: &str) -> u64 {
    input.len().div_ceil(READ) as u64 + 1
}

/// The number of a read of the input that does not end the run with nothing written where it fails.
fn wrong_read(alloc: Global, words: &Vec<String>, input: &str) -> Result<Option<u64>, AllocError> {
    for call in 0..count_of_reads(input) {
        if !ends(alloc, words, input, (Some(call), None), (4, b""))? {
            return Ok(Some(call));
        }
    }
    Ok(None)
}

/// The number of each write of the answer, and what was written before it.
const WRITTEN: &[(u64, &[u8])] = &[(0, b""), (1, b"ok "), (2, b"ok 3 0"), (3, b"ok 3 0061")];

/// The number of a write of the answer that does not end the run, with what was written before, where it fails.
fn wrong_write(alloc: Global, words: &Vec<String>, input: &str) -> Result<Option<u64>, AllocError> {
    for (call, written) in WRITTEN {
        if !ends(alloc, words, input, (None, Some(*call)), (5, written))? {
            return Ok(Some(*call));
        }
    }
    Ok(None)
}

/// Whether a call behind the last read, and one behind the last write, is none.
fn are_all_calls(alloc: Global, words: &Vec<String>, input: &str) -> Result<bool, AllocError> {
    let read = (Some(count_of_reads(input)), None);
    let write = (None, Some(4));
    Ok(
        ends(alloc, words, input, read, (0, ANSWER))?
            && ends(alloc, words, input, write, (0, ANSWER))?,
    )
}

/// The number of a read and of a write that does not end the run as it should, and whether there are no others.
type Ends = (Option<u64>, Option<u64>, bool);

/// How runs end of which one call fails.
fn ends_of_failing_calls(alloc: Global) -> Result<Ends, AllocError> {
    let words = eval(alloc)?;
    let input = input(alloc)?;
    Ok((
        wrong_read(alloc, &words, &input)?,
        wrong_write(alloc, &words, &input)?,
        are_all_calls(alloc, &words, &input)?,
    ))
}

#[test]
fn a_call_that_fails_ends_the_run(rt: HostRuntime) {
    let ends = ends_of_failing_calls(rt.alloc());
    assert_equal(&rt, ends, Ok((None, None, true)));
}
