//! The reader of UnicodeSet patterns (UTS 35, Unicode Sets).
#![tactic(auto)]

mod arrange;
mod bracket;
mod code_point;
mod evaluation;
mod fault;
mod found;
mod front;
mod item;
pub mod laws;
mod property;
mod reader;
mod syntax;
mod turn;
mod unit;

pub use evaluation::evaluate_set;
pub use reader::read_set;
pub use syntax::Syntax;
