//! The constants of the tables of names, of the property types, of values and of groups, as lists that contracts
//! speak of.
ghost use Rattle.std.specs.Prelude.{◌≡◌, ◌∷◌, [], map};
ghost use Rattle.prop_values.specs.Groups.{packings};
ghost use Rattle.std.specs.List.{range_with_len};
ghost use Rattle.prop_values.specs.Tables.{default_number, properties};

use crate::bidi::BidiClass;
use crate::block::Block;
use crate::breaks::{GraphemeClusterBreak, LineBreak, SentenceBreak, WordBreak};
use crate::category::GeneralCategory;
use crate::glyph::BidiMirroringGlyph;
use crate::group::GeneralCategoryGroup;
use crate::hangul::HangulSyllableType;
use crate::indic::{IndicConjunctBreak, IndicSyllabicCategory};
use crate::joining::{JoiningGroup, JoiningType};
use crate::layout::{EastAsianWidth, VerticalOrientation};
use crate::marks::CanonicalCombiningClass;
use crate::numeric::NumericType;
use crate::property::EnumeratedProperty;
use crate::script::{Script, ScriptWithExt};
use crate::tables::NamesTable;
use cp_trie::TrieValue;

const NAMES_TABLES: [NamesTable; 18] = [
    NamesTable::BIDI_CLASS,
    NamesTable::BLOCK,
    NamesTable::NUMERIC_TYPE,
    NamesTable::GENERAL_CATEGORY,
    NamesTable::SCRIPT,
    NamesTable::HANGUL_SYLLABLE_TYPE,
    NamesTable::EAST_ASIAN_WIDTH,
    NamesTable::LINE_BREAK,
    NamesTable::GRAPHEME_CLUSTER_BREAK,
    NamesTable::WORD_BREAK,
    NamesTable::SENTENCE_BREAK,
    NamesTable::CANONICAL_COMBINING_CLASS,
    NamesTable::INDIC_CONJUNCT_BREAK,
    NamesTable::INDIC_SYLLABIC_CATEGORY,
    NamesTable::JOINING_GROUP,
    NamesTable::JOINING_TYPE,
    NamesTable::VERTICAL_ORIENTATION,
    NamesTable::GENERAL_CATEGORY_MASK,
];

/// The groups under their long and their short names, in the order of the numbers that they pack to.
const GROUPS: [(GeneralCategoryGroup, GeneralCategoryGroup); 38] = [
    (GeneralCategoryGroup::Unassigned, GeneralCategoryGroup::Cn),
    (
        GeneralCategoryGroup::UppercaseLetter,
        GeneralCategoryGroup::Lu,
    ),
    (
        GeneralCategoryGroup::LowercaseLetter,
        GeneralCategoryGroup::Ll,
    ),
    (
        GeneralCategoryGroup::TitlecaseLetter,
        GeneralCategoryGroup::Lt,
    ),
    (
        GeneralCategoryGroup::ModifierLetter,
        GeneralCategoryGroup::Lm,
    ),
    (GeneralCategoryGroup::OtherLetter, GeneralCategoryGroup::Lo),
    (
        GeneralCategoryGroup::NonspacingMark,
        GeneralCategoryGroup::Mn,
    ),
    (
        GeneralCategoryGroup::EnclosingMark,
        GeneralCategoryGroup::Me,
    ),
    (GeneralCategoryGroup::SpacingMark, GeneralCategoryGroup::Mc),
    (
        GeneralCategoryGroup::DecimalNumber,
        GeneralCategoryGroup::Nd,
    ),
    (GeneralCategoryGroup::LetterNumber, GeneralCategoryGroup::Nl),
    (GeneralCategoryGroup::OtherNumber, GeneralCategoryGroup::No),
    (
        GeneralCategoryGroup::SpaceSeparator,
        GeneralCategoryGroup::Zs,
    ),
    (
        GeneralCategoryGroup::LineSeparator,
        GeneralCategoryGroup::Zl,
    ),
    (
        GeneralCategoryGroup::ParagraphSeparator,
        GeneralCategoryGroup::Zp,
    ),
    (GeneralCategoryGroup::Control, GeneralCategoryGroup::Cc),
    (GeneralCategoryGroup::Format, GeneralCategoryGroup::Cf),
    (GeneralCategoryGroup::PrivateUse, GeneralCategoryGroup::Co),
    (GeneralCategoryGroup::Surrogate, GeneralCategoryGroup::Cs),
    (
        GeneralCategoryGroup::DashPunctuation,
        GeneralCategoryGroup::Pd,
    ),
    (
        GeneralCategoryGroup::OpenPunctuation,
        GeneralCategoryGroup::Ps,
    ),
    (
        GeneralCategoryGroup::ClosePunctuation,
        GeneralCategoryGroup::Pe,
    ),
    (
        GeneralCategoryGroup::ConnectorPunctuation,
        GeneralCategoryGroup::Pc,
    ),
    (
        GeneralCategoryGroup::OtherPunctuation,
        GeneralCategoryGroup::Po,
    ),
    (GeneralCategoryGroup::MathSymbol, GeneralCategoryGroup::Sm),
    (
        GeneralCategoryGroup::CurrencySymbol,
        GeneralCategoryGroup::Sc,
    ),
    (
        GeneralCategoryGroup::ModifierSymbol,
        GeneralCategoryGroup::Sk,
    ),
    (GeneralCategoryGroup::OtherSymbol, GeneralCategoryGroup::So),
    (
        GeneralCategoryGroup::InitialPunctuation,
        GeneralCategoryGroup::Pi,
    ),
    (
        GeneralCategoryGroup::FinalPunctuation,
        GeneralCategoryGroup::Pf,
    ),
    (GeneralCategoryGroup::CasedLetter, GeneralCategoryGroup::LC),
    (GeneralCategoryGroup::Letter, GeneralCategoryGroup::L),
    (GeneralCategoryGroup::Mark, GeneralCategoryGroup::M),
    (GeneralCategoryGroup::Number, GeneralCategoryGroup::N),
    (GeneralCategoryGroup::Separator, GeneralCategoryGroup::Z),
    (GeneralCategoryGroup::Other, GeneralCategoryGroup::C),
    (GeneralCategoryGroup::Punctuation, GeneralCategoryGroup::P),
    (GeneralCategoryGroup::Symbol, GeneralCategoryGroup::S),
];

/// The long and the short name of each enumerated property, in the order of the tables' numbers.
pub fn names_of_properties() -> [(&'static [u8], &'static [u8]); 18]
    ensures { map (λ row. (row.0.now, row.1.now)) result ≡ properties }
{
    [
        (BidiClass::NAME, BidiClass::SHORT_NAME),
        (Block::NAME, Block::SHORT_NAME),
        (NumericType::NAME, NumericType::SHORT_NAME),
        (GeneralCategory::NAME, GeneralCategory::SHORT_NAME),
        (Script::NAME, Script::SHORT_NAME),
        (HangulSyllableType::NAME, HangulSyllableType::SHORT_NAME),
        (EastAsianWidth::NAME, EastAsianWidth::SHORT_NAME),
        (LineBreak::NAME, LineBreak::SHORT_NAME),
        (GraphemeClusterBreak::NAME, GraphemeClusterBreak::SHORT_NAME),
        (WordBreak::NAME, WordBreak::SHORT_NAME),
        (SentenceBreak::NAME, SentenceBreak::SHORT_NAME),
        (
            CanonicalCombiningClass::NAME,
            CanonicalCombiningClass::SHORT_NAME,
        ),
        (IndicConjunctBreak::NAME, IndicConjunctBreak::SHORT_NAME),
        (
            IndicSyllabicCategory::NAME,
            IndicSyllabicCategory::SHORT_NAME,
        ),
        (JoiningGroup::NAME, JoiningGroup::SHORT_NAME),
        (JoiningType::NAME, JoiningType::SHORT_NAME),
        (VerticalOrientation::NAME, VerticalOrientation::SHORT_NAME),
        (BidiMirroringGlyph::NAME, BidiMirroringGlyph::SHORT_NAME),
    ]
}

/// The tables of names: the constants of the type, in the order of their numbers.
pub fn names_tables() -> [NamesTable; 18]
    ensures { result ≡ range_with_len 0 18 }
{
    NAMES_TABLES
}

/// The groups that pack to a number of their own, under their long and their short names: those of one category in the
/// order of its number, and the eight unions.
pub fn groups() -> [(GeneralCategoryGroup, GeneralCategoryGroup); 38]
    ensures long { map (λ row. row.0) result ≡ map (λ row. row.1) packings }
    ensures short { map (λ row. row.1) result ≡ map (λ row. row.1) packings }
{
    GROUPS
}

/// The constants for bidirectional classes, in the order of their numbers.
pub fn bidi_classes() -> [BidiClass; 23]
    ensures { result ≡ range_with_len 0 23 }
{
    [
        BidiClass::LeftToRight,
        BidiClass::RightToLeft,
        BidiClass::EuropeanNumber,
        BidiClass::EuropeanSeparator,
        BidiClass::EuropeanTerminator,
        BidiClass::ArabicNumber,
        BidiClass::CommonSeparator,
        BidiClass::ParagraphSeparator,
        BidiClass::SegmentSeparator,
        BidiClass::WhiteSpace,
        BidiClass::OtherNeutral,
        BidiClass::LeftToRightEmbedding,
        BidiClass::LeftToRightOverride,
        BidiClass::ArabicLetter,
        BidiClass::RightToLeftEmbedding,
        BidiClass::RightToLeftOverride,
        BidiClass::PopDirectionalFormat,
        BidiClass::NonspacingMark,
        BidiClass::BoundaryNeutral,
        BidiClass::FirstStrongIsolate,
        BidiClass::LeftToRightIsolate,
        BidiClass::RightToLeftIsolate,
        BidiClass::PopDirectionalIsolate,
    ]
}

/// The constants for scripts.
pub fn scripts() -> [Script; 13]
    ensures { result ≡ 0 ∷ 1 ∷ 4 ∷ 8 ∷ 10 ∷ 11 ∷ 11 ∷ 17 ∷ 25 ∷ 38 ∷ 103 ∷ 131 ∷ 60000 ∷ [] }
{
    [
        Script::Common,
        Script::Inherited,
        Script::Bengali,
        Script::Cyrillic,
        Script::Devanagari,
        Script::Ethiopic,
        Script::Ethiopian,
        Script::Han,
        Script::Latin,
        Script::Thai,
        Script::Unknown,
        Script::Lisu,
        Script::Chisoi,
    ]
}

/// The script Unknown without extensions.
pub fn unknown_script() -> ScriptWithExt
    ensures { result ≡ 103 }
{
    ScriptWithExt::Unknown
}

/// The constants for types of Hangul syllables: those of the numbers 0 to 5, and the other names of the last two.
pub fn hangul_syllable_types() -> [HangulSyllableType; 8]
    ensures { result ≡ 0 ∷ 1 ∷ 2 ∷ 3 ∷ 4 ∷ 5 ∷ 4 ∷ 5 ∷ [] }
{
    [
        HangulSyllableType::NotApplicable,
        HangulSyllableType::LeadingJamo,
        HangulSyllableType::VowelJamo,
        HangulSyllableType::TrailingJamo,
        HangulSyllableType::LVSyllable,
        HangulSyllableType::LVTSyllable,
        HangulSyllableType::LeadingVowelSyllable,
        HangulSyllableType::LeadingVowelTrailingSyllable,
    ]
}

/// The numbers that the constants for defaults pack to, in the order of the tables.
pub fn defaults() -> [u32; 17]
    ensures { result ≡ map default_number (range_with_len 0 17) }
{
    [
        BidiClass::LeftToRight.to_u32(),
        Block::NoBlock.to_u32(),
        NumericType::None.to_u32(),
        GeneralCategory::Unassigned.to_u32(),
        Script::Unknown.to_u32(),
        HangulSyllableType::NotApplicable.to_u32(),
        EastAsianWidth::Neutral.to_u32(),
        LineBreak::Unknown.to_u32(),
        GraphemeClusterBreak::Other.to_u32(),
        WordBreak::Other.to_u32(),
        SentenceBreak::Other.to_u32(),
        CanonicalCombiningClass::NotReordered.to_u32(),
        IndicConjunctBreak::None.to_u32(),
        IndicSyllabicCategory::Other.to_u32(),
        JoiningGroup::NoJoiningGroup.to_u32(),
        JoiningType::NonJoining.to_u32(),
        VerticalOrientation::Rotated.to_u32(),
    ]
}
