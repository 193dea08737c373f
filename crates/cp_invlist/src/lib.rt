//! Sets of code points as inversion lists.
#![tactic(auto)]

mod builder;
mod cursor;
mod error;
pub mod laws;
mod merge;
mod ranges;
mod set;
mod steps;
mod window;
pub mod words;

pub use builder::CodePointInversionListBuilder;
pub use error::{InversionListError, NoMemory};
pub use ranges::{CodePointRange, ComplementedRanges, InversionListRanges, LAST_CODE_POINT};
pub use set::CodePointInversionList;
pub use steps::Steps;
pub use window::Window;
