//! Maps from code points to values.
#![tactic(auto)]

mod convert;
mod error;
mod mapped;
mod pages;
mod ranges;
mod rows;
mod runs;
mod table;
mod trie;
mod value;
mod value_test;

pub use error::{ConvertError, TrieError, ValueError};
pub use mapped::TrieRangesMapped;
pub use ranges::{CodePointMapRange, TrieRanges};
pub use trie::CodePointTrie;
pub use value::TrieValue;
pub use value_test::{IsValue, ValueTest};
