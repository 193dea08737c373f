//! Sets with strings in the making: what a bracket of a pattern gathers (UTS 35, Unicode Sets).
#![tactic(auto)]

mod gathered;
mod layers;
mod operand;
mod painting;
mod run;

pub use gathered::Gathered;
pub use operand::{Operand, Source};
