//! The variables of UnicodeSet patterns (UTS 35, Unicode Sets).
#![tactic(auto)]

mod index;
mod map;
mod value;

pub use map::{InsertError, VariableMap};
pub use value::{VariableString, VariableValue};
