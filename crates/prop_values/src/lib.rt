//! The types of the enumerated properties of characters, and the numbers that their values are packed into.
#![tactic(auto)]

mod bidi;
mod block;
mod breaks;
mod category;
mod glyph;
mod group;
mod hangul;
mod indic;
mod joining;
pub mod laws;
mod layout;
mod marks;
mod numeric;
mod property;
pub mod rows;
mod script;
mod subtag;
mod tables;

pub use bidi::BidiClass;
pub use block::Block;
pub use breaks::{GraphemeClusterBreak, LineBreak, SentenceBreak, WordBreak};
pub use category::{GeneralCategory, GeneralCategoryOutOfBoundsError};
pub use glyph::{BidiMirroringGlyph, BidiPairedBracketType};
pub use group::GeneralCategoryGroup;
pub use hangul::HangulSyllableType;
pub use indic::{IndicConjunctBreak, IndicSyllabicCategory};
pub use joining::{JoiningGroup, JoiningType};
pub use layout::{EastAsianWidth, VerticalOrientation};
pub use marks::CanonicalCombiningClass;
pub use numeric::NumericType;
pub use property::{EnumeratedProperty, ParseableEnumeratedProperty};
pub use script::{Script, ScriptWithExt};
pub use subtag::Subtag;
pub use tables::{MapTable, NamesTable};
