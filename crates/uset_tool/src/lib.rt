//! The program `uset` as a library: its sources and sinks, its statuses, and its run.
#![tactic(auto)]

mod answer;
mod binding;
mod counts;
mod generator;
mod input;
pub mod laws;
mod line;
mod memory;
mod pattern_number;
mod program;
mod script;
mod sink;
mod source;
mod status;
mod table_fault;
mod words;

pub use memory::{MemorySink, MemorySource};
pub use program::run;
pub use sink::{Sink, StdSink, SureSink, WriteError};
pub use source::{Failed, Source, StdSource, SureSource};
pub use status::Status;
