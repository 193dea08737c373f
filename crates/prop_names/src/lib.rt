//! Names of the values of properties: tables that find a value by a name, and names by a value.
#![tactic(auto)]

mod builder;
mod by_number;
mod folding;
mod list;
mod map;
mod texts;
mod value_names;

pub use builder::NamesBuilder;
pub use by_number::NamesByNumber;
pub use folding::{ascii_text, stored_folding};
pub use map::PropertyValueNameToEnumMap;
pub use value_names::{
    PropertyEnumToValueNameLinearMap, PropertyEnumToValueNameLookup,
    PropertyEnumToValueNameSparseMap, PropertyScriptToIcuScriptMap,
};
