//! What the key and the value of a property resolve to, over the tables of a database (UTS 18, 1.2; UAX 44, 5.9).
#![tactic(auto)]

mod decimal;
mod group;
mod key;
pub mod laws;
mod query;
mod resolver;
mod source;

pub use query::Resolution;
pub use resolver::Resolver;
