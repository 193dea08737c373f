//! The program `uset`: gathers the words after its name, and runs over standard input and output.
#![tactic(auto)]

use std::process::ExitCode;
use std::{env, io};
use uset_tool::{Status, StdSink, StdSource, run};

/// The words after the program's name.
fn words(rt: &HostRuntime) -> io::Result<Vec<String>> {
    let words = env::args(rt)?.skip(1).collect(rt.alloc())?;
    Ok(words)
}

fn main(rt: HostRuntime) -> ExitCode {
    let words = match words(&rt) {
        Ok(words) => words,
        Err(error) if error.kind() == io::ErrorKind::OutOfMemory => {
            return ExitCode::from(Status::NoMemory.code());
        }
        // The empty list, which is answered with how to call the program.
        Err(_) => Vec::new(rt.alloc()),
    };
    let mut source = StdSource::new(rt.stdin());
    let mut sink = StdSink::new(rt.stdout());
    ExitCode::from(run(rt.alloc(), &words, &mut source, &mut sink).code())
}
