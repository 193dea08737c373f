//! Readers of the units of UnicodeSet patterns (UTS 35, Unicode Sets): text in, units out, with no
//! knowledge of brackets.
#![tactic(auto)]

mod braced_string;
mod cursor;
mod digits;
mod escape;
mod name;
mod property;
mod stop;
mod text;

pub use braced_string::read_string;
pub use cursor::Cursor;
pub use escape::{Around, Spelled, read_escape};
pub use name::read_name;
pub use property::{Form, Query, close_property, read_property};
pub use stop::{Kind, Stop};
pub use text::{skip_white_space, split_first};
