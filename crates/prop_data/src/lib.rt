//! Property data: a text of tables, checked as it is read, and the database that it means.
#![tactic(auto)]

mod count;
mod database;
mod error;
pub mod laws;
mod line;
mod linear;
mod load;
mod name;
mod named;
mod numbers;
mod row;
mod scripts;
mod string;
mod table;
mod value;

pub use database::PropertyDatabase;
pub use error::{LoadError, TableError, TableErrorKind};
pub use named::{LinearlyNamedProperty, NamedEnumeratedProperty};
pub use prop_binary::{EmojiTable, SetTable};
pub use prop_names::{
    NamesByNumber, PropertyEnumToValueNameLinearMap, PropertyEnumToValueNameLookup,
    PropertyEnumToValueNameSparseMap, PropertyScriptToIcuScriptMap, PropertyValueNameToEnumMap,
};
pub use prop_values::{MapTable, NamesTable, ParseableEnumeratedProperty};
pub use scripts::ScriptWithExtensionsProperty;
pub use table::{DataError, TableKind, TableName};
