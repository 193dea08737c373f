//! The faults of UnicodeSet patterns, with their places, and how they are shown.
#![tactic(auto)]

mod error;
mod shown;

pub use error::{ParseError, ParseErrorKind};
