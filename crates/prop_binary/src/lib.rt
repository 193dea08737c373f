//! The binary properties of code points and the emoji sets: their names and the numbers of their tables.
#![tactic(auto)]

mod case;
mod ecma262;
mod emoji;
pub mod laws;
mod names;
mod posix;
mod property;
mod table;
mod types;

pub use case::{
    CaseIgnorable, CaseSensitive, Cased, ChangesWhenCasefolded, ChangesWhenCasemapped,
    ChangesWhenLowercased, ChangesWhenNfkcCasefolded, ChangesWhenTitlecased, ChangesWhenUppercased,
    Lowercase, SoftDotted, Uppercase,
};
pub use ecma262::ecma262_table;
pub use emoji::{BasicEmoji, EmojiSet};
pub use posix::{Alnum, Blank, Graph, Print, Xdigit};
pub use property::BinaryProperty;
pub use table::{EmojiTable, SetTable};
pub use types::{
    Alphabetic, AsciiHexDigit, BidiControl, BidiMirrored, Dash, DefaultIgnorableCodePoint,
    Deprecated, Diacritic, Emoji, EmojiComponent, EmojiModifier, EmojiModifierBase,
    EmojiPresentation, ExtendedPictographic, Extender, FullCompositionExclusion, GraphemeBase,
    GraphemeExtend, GraphemeLink, HexDigit, Hyphen, IdCompatMathContinue, IdCompatMathStart,
    IdContinue, IdStart, Ideographic, IdsBinaryOperator, IdsTrinaryOperator, IdsUnaryOperator,
    JoinControl, LogicalOrderException, Math, ModifierCombiningMark, NfcInert, NfdInert, NfkcInert,
    NfkdInert, NoncharacterCodePoint, PatternSyntax, PatternWhiteSpace, PrependedConcatenationMark,
    QuotationMark, Radical, RegionalIndicator, SegmentStarter, SentenceTerminal,
    TerminalPunctuation, UnifiedIdeograph, VariationSelector, WhiteSpace, XidContinue, XidStart,
};
