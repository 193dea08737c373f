//! Lines of a text, the fields of a line, and numbers as fields spell them.
#![tactic(auto)]

mod fields;
pub mod laws;
mod lines;
mod numbers;
mod parts;

pub use fields::{before_comment, split_field};
pub use numbers::{decimal_number, hex};
pub use parts::split_behind;
