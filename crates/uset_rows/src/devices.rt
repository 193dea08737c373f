//! Tests of the sources and sinks, and of the numbers of the statuses.
use crate::fixtures::{SYNTAX, assert_equal, eval};
use std::alloc::{AllocError, Global};
use std::io::{self, Cursor, Error, ErrorKind, Read, Write};
use uset_tool::{
    Failed, MemorySink, Sink, Source, Status, StdSink, StdSource, SureSink, SureSource, WriteError,
    run,
};

/// The tables of the pattern syntax, and a pattern.
fn input(alloc: Global) -> Result<Vec<u8>, AllocError> {
    let input = format!(in alloc; "{SYNTAX}end\npat [a-z0]\n")?;
    Ok(input.into_bytes())
}

/// The answer to the pattern.
const ANSWER: &[u8] = b"ok 6 0030 0061-007A\n";

/// A reader that gives one byte at its first call, and fails at its second.
#[derive(Drop)]
struct FailingReader {
    calls: u8,
}

impl Read for FailingReader {
    fn read(&mut self, buf: &mut [u8]) -> io::Result<usize> {
        self.calls = self.calls.saturating_add(1);
        if self.calls > 1 {
            return Err(Error::from(ErrorKind::Other));
        }
        let [first, ..] = buf else {
            return Ok(0);
        };
        *first = b'e';
        Ok(1)
    }
}

/// What a writer does at a call.
#[derive(Clone, Copy)]
enum Takes {
    OneByte,
    Nothing,
    NothingAndFails,
}

/// A writer onto some bytes.
#[derive(Drop)]
struct PoorWriter<'a> {
    bytes: &'a mut Vec<u8>,
    takes: Takes,
}

impl Write for PoorWriter<'_> {
    fn write(&mut self, buf: &[u8]) -> io::Result<usize> {
        let (Takes::OneByte, [first, ..]) = (self.takes, buf) else {
            return match self.takes {
                Takes::NothingAndFails => Err(Error::from(ErrorKind::Other)),
                Takes::OneByte | Takes::Nothing => Ok(0),
            };
        };
        match self.bytes.push(*first) {
            Ok(()) => Ok(1),
            Err(_) => Err(Error::from(ErrorKind::OutOfMemory)),
        }
    }

    fn flush(&mut self) -> io::Result<()> {
        Ok(())
    }
}

/// Runs the program on the pattern, with such a writer. The answer is the status, how many faults of the sink were counted, and
/// what was written.
fn run_onto(alloc: Global, takes: Takes) -> Result<(Status, u64, Vec<u8>), AllocError> {
    let words = eval(alloc)?;
    let mut source = SureSource::new(input(alloc)?);
    let mut bytes = Vec::new(alloc);
    let mut sink = StdSink::new(PoorWriter {
        bytes: &mut bytes,
        takes,
    });
    let status = run(alloc, &words, &mut source, &mut sink);
    let faults = sink.faults();
    drop(sink);
    Ok((status, faults, bytes))
}

/// How a run ends, how many faults of its source or its sink were counted, and whether it wrote what it should.
type End = (Status, u64, bool);

/// How a run with such a writer ends, how many faults of the sink were counted, and whether this was written.
fn end_onto(alloc: Global, takes: Takes, written: &[u8]) -> Result<End, AllocError> {
    let (status, faults, bytes) = run_onto(alloc, takes)?;
    Ok((status, faults, bytes.as_slice() == written))
}

/// How a run ends whose reader fails, how many faults of the source were counted, and whether nothing was written.
fn end_from_failing_reader(alloc: Global) -> Result<End, AllocError> {
    let words = eval(alloc)?;
    let mut source = StdSource::new(FailingReader { calls: 0 });
    let mut sink = SureSink::new(alloc);
    let status = run(alloc, &words, &mut source, &mut sink);
    Ok((status, source.faults(), sink.written().is_empty()))
}

#[test]
fn a_reader_that_fails_ends_the_run_before_an_answer(rt: HostRuntime) {
    let end = end_from_failing_reader(rt.alloc());
    assert_equal(&rt, end, Ok((Status::ReadFault, 1, true)));
}

#[test]
fn a_writer_that_takes_one_byte_a_call_is_given_all(rt: HostRuntime) {
    let end = end_onto(rt.alloc(), Takes::OneByte, ANSWER);
    assert_equal(&rt, end, Ok((Status::Done, 0, true)));
}

#[test]
fn a_writer_that_takes_nothing_or_fails_ends_the_run(rt: HostRuntime) {
    for takes in [Takes::Nothing, Takes::NothingAndFails] {
        let end = end_onto(rt.alloc(), takes, b"");
        assert_equal(&rt, end, Ok((Status::WriteFault, 1, true)));
    }
}

/// What a source of a test gives, and what is written to a sink.
const THREE: &[u8] = b"abc";

/// How many bytes a source gives at each of three calls that ask for two, and the buffer behind the first.
type Reads = ([usize; 3], [u8; 2]);

/// How the three bytes are read.
const READ: Reads = ([2, 1, 0], [b'a', b'b']);

/// Reads the source so.
fn reads<S: Source>(source: &mut S) -> Result<Reads, Failed> {
    let mut buffer = [0u8; 2];
    let first = source.read(&mut buffer)?;
    let front = buffer;
    let second = source.read(&mut buffer)?;
    let third = source.read(&mut buffer)?;
    Ok(([first, second, third], front))
}

#[test]
fn a_reader_of_std_is_a_source(rt: HostRuntime) {
    let mut source = StdSource::new(Cursor::new(THREE));
    assert_equal(&rt, reads(&mut source), Ok(READ));
}

#[test]
fn a_source_in_memory_gives_its_bytes_once(rt: HostRuntime) -> Result<(), AllocError> {
    let mut source = SureSource::new(THREE.to_vec(rt.alloc())?);
    assert_equal(&rt, reads(&mut source), Ok(READ));
    Ok(())
}

/// How many bytes the sink takes of three, and whether it then has so many of them.
fn taken(sink: &mut MemorySink, written: &[u8]) -> Result<(usize, bool), WriteError> {
    let count = sink.write(THREE)?;
    Ok((count, sink.written() == written))
}

#[test]
fn a_sink_in_memory_takes_a_piece_a_call(rt: HostRuntime) {
    let mut sink = MemorySink::new(rt.alloc(), 2, Vec::new(rt.alloc()));
    assert_equal(&rt, taken(&mut sink, b"ab"), Ok((2, true)));
}

/// How many bytes the sink that never fails takes of three, and whether it then has them.
fn takes_all(sink: &mut SureSink) -> Result<(usize, bool), WriteError> {
    let count = sink.write(THREE)?;
    Ok((count, sink.written() == THREE))
}

#[test]
fn a_sink_that_never_fails_keeps_what_it_takes(rt: HostRuntime) {
    let mut sink = SureSink::new(rt.alloc());
    assert_equal(&rt, takes_all(&mut sink), Ok((3, true)));
}

/// How many bytes a sink over a writer of std takes of two, and whether the writer then has the first alone.
fn taken_by_std(alloc: Global) -> Result<(usize, bool), WriteError> {
    let mut bytes = Vec::new(alloc);
    let mut sink = StdSink::new(PoorWriter {
        bytes: &mut bytes,
        takes: Takes::OneByte,
    });
    let count = sink.write(b"ab")?;
    drop(sink);
    Ok((count, bytes.as_slice() == b"a".as_slice()))
}

#[test]
fn a_writer_of_std_is_a_sink(rt: HostRuntime) {
    assert_equal(&rt, taken_by_std(rt.alloc()), Ok((1, true)));
}

/// Statuses, and their numbers.
const NUMBERS: &[(Status, u8)] = &[
    (Status::Done, 0),
    (Status::SomeErr, 1),
    (Status::Usage, 2),
    (Status::Tables, 3),
    (Status::ReadFault, 4),
    (Status::WriteFault, 5),
    (Status::NoMemory, 6),
    (Status::NotText, 7),
    (Status::TooLong, 8),
];

#[test]
fn statuses_have_their_numbers(rt: HostRuntime) {
    for (status, number) in NUMBERS {
        assert_equal(&rt, status.code(), *number);
    }
}
