//! Whole runs of the program in memory. The tests of sources, sinks and statuses stand here too, so that the program is
//! not proved a second time with them.
#![tactic(auto)]

ghost use Rattle.std.specs.Prelude.{◌≢◌, [], map};
ghost use Rattle.std.specs.String.{string_bytes};
ghost use Rattle.uset_tool.specs.Run.{Answers, IsWritten};

use std::alloc::Global;
use uset_tool::{Status, SureSink, SureSource, run};

#[cfg(test)]
mod counts;
#[cfg(test)]
mod depth;
#[cfg(test)]
mod devices;
#[cfg(test)]
mod errors;
#[cfg(test)]
mod failing;
#[cfg(test)]
mod faults;
#[cfg(test)]
mod fixtures;
#[cfg(test)]
mod generated;
#[cfg(test)]
mod guide;
#[cfg(test)]
mod huge;
#[cfg(test)]
mod indexed;
#[cfg(test)]
mod long_strings;
#[cfg(test)]
mod patterns;
#[cfg(test)]
mod properties;
#[cfg(test)]
mod refusals;
#[cfg(test)]
mod repeated;
#[cfg(test)]
mod variables;

/// Runs the program over the input. In memory neither source nor sink fails.
pub fn run_in_memory(alloc: Global, words: &Vec<String>, input: Vec<u8>) -> (Status, SureSink)
    ensures no_read_fault { result.0 ≢ Status.ReadFault }
    ensures no_write_fault { result.0 ≢ Status.WriteFault }
    ensures written { IsWritten (Answers (map string_bytes words.now.items) input.items) [] result.1 result.0 }
{
    let mut source = SureSource::new(input);
    let mut sink = SureSink::new(alloc);
    let status = run(alloc, words, &mut source, &mut sink);
    (status, sink)
}
