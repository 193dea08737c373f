//! Queries over a property database: sets, maps, emoji sets, names of values, and scripts with their extensions.
#![tactic(auto)]

mod absent;
mod emoji;
mod lookup;
mod map;
mod names;
mod ranges;
mod script;
mod set;
mod value;

pub use emoji::{EmojiSetData, EmojiSetDataBorrowed};
pub use lookup::{
    binary_for_char, emoji_for_char, emoji_for_str, for_char, long_name, script_to_subtag,
    short_name, subtag_to_script, try_from_str, try_from_utf8,
};
pub use map::{CodePointMapData, CodePointMapDataBorrowed};
pub use names::{
    PropertyNamesLong, PropertyNamesLongBorrowed, PropertyNamesShort, PropertyNamesShortBorrowed,
    PropertyParser, PropertyParserBorrowed,
};
pub use ranges::{IsNot, RangesForGroup, RangesForOthers, RangesForValue, RangesWhere};
pub use script::{
    ScriptExtensionsIter, ScriptExtensionsRanges, ScriptExtensionsSet, ScriptWithExtensions,
    ScriptWithExtensionsBorrowed,
};
pub use set::{CodePointSetData, CodePointSetDataBorrowed};
