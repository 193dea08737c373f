//! Set expressions over code points, evaluated at once.
#![tactic(auto)]

mod block;
mod changes;
mod evaluation;
mod shorten;
mod stack;
mod step;
mod stretch;
mod windows;
mod word;

pub use evaluation::evaluate;
pub use step::{SetOperation, Step};
