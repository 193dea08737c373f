//! The reader of UnicodeSet patterns (UTS 35, Unicode Sets).
#![tactic(auto)]

mod calls;
pub mod laws;
mod stored;

pub use calls::{
    WholeSource, parse, parse_unstable, parse_unstable_with_variables, parse_whole_with_resolver,
    parse_with_resolver, parse_with_variables,
};
pub use stored::read_back;
pub use uset_fault::{ParseError, ParseErrorKind};
pub use uset_resolve::Resolver;
pub use uset_variables::{InsertError, VariableMap, VariableString, VariableValue};
