//! Laws of the property types: which numbers and names their constants have.
ghost use Rattle.std.specs.Prelude.{◌≡◌, ◌∷◌, [], codes, drop, map, take};
ghost use Rattle.std.specs.List.{range_with_len};
ghost use Rattle.prop_binary.specs.Tables.{property_names};

use crate::case::*;
use crate::emoji::{BasicEmoji, EmojiSet};
use crate::posix::{Alnum, Blank, Graph, Print, Xdigit};
use crate::property::BinaryProperty;
use crate::types::*;

/// The tables of the types of binary properties, in this order, have the numbers 0 to 68, and that of the emoji set has 0.
pub fn numbers_of_tables()
    ensures binary { (
        ⟦<AsciiHexDigit as BinaryProperty>⟧.TABLE
        ∷ ⟦<Alnum as BinaryProperty>⟧.TABLE
        ∷ ⟦<Alphabetic as BinaryProperty>⟧.TABLE
        ∷ ⟦<BidiControl as BinaryProperty>⟧.TABLE
        ∷ ⟦<BidiMirrored as BinaryProperty>⟧.TABLE
        ∷ ⟦<Blank as BinaryProperty>⟧.TABLE
        ∷ ⟦<Cased as BinaryProperty>⟧.TABLE
        ∷ ⟦<CaseIgnorable as BinaryProperty>⟧.TABLE
        ∷ ⟦<FullCompositionExclusion as BinaryProperty>⟧.TABLE
        ∷ ⟦<ChangesWhenCasefolded as BinaryProperty>⟧.TABLE
        ∷ ⟦<ChangesWhenCasemapped as BinaryProperty>⟧.TABLE
        ∷ ⟦<ChangesWhenNfkcCasefolded as BinaryProperty>⟧.TABLE
        ∷ ⟦<ChangesWhenLowercased as BinaryProperty>⟧.TABLE
        ∷ ⟦<ChangesWhenTitlecased as BinaryProperty>⟧.TABLE
        ∷ ⟦<ChangesWhenUppercased as BinaryProperty>⟧.TABLE
        ∷ ⟦<Dash as BinaryProperty>⟧.TABLE
        ∷ ⟦<Deprecated as BinaryProperty>⟧.TABLE
        ∷ ⟦<DefaultIgnorableCodePoint as BinaryProperty>⟧.TABLE
        ∷ ⟦<Diacritic as BinaryProperty>⟧.TABLE
        ∷ ⟦<EmojiModifierBase as BinaryProperty>⟧.TABLE
        ∷ ⟦<EmojiComponent as BinaryProperty>⟧.TABLE
        ∷ ⟦<EmojiModifier as BinaryProperty>⟧.TABLE
        ∷ ⟦<Emoji as BinaryProperty>⟧.TABLE
        ∷ ⟦<EmojiPresentation as BinaryProperty>⟧.TABLE
        ∷ ⟦<Extender as BinaryProperty>⟧.TABLE
        ∷ ⟦<ExtendedPictographic as BinaryProperty>⟧.TABLE
        ∷ ⟦<Graph as BinaryProperty>⟧.TABLE
        ∷ ⟦<GraphemeBase as BinaryProperty>⟧.TABLE
        ∷ ⟦<GraphemeExtend as BinaryProperty>⟧.TABLE
        ∷ ⟦<GraphemeLink as BinaryProperty>⟧.TABLE
        ∷ ⟦<HexDigit as BinaryProperty>⟧.TABLE
        ∷ ⟦<Hyphen as BinaryProperty>⟧.TABLE
        ∷ ⟦<IdCompatMathContinue as BinaryProperty>⟧.TABLE
        ∷ ⟦<IdCompatMathStart as BinaryProperty>⟧.TABLE
        ∷ ⟦<IdContinue as BinaryProperty>⟧.TABLE
        ∷ ⟦<Ideographic as BinaryProperty>⟧.TABLE
        ∷ ⟦<IdStart as BinaryProperty>⟧.TABLE
        ∷ ⟦<IdsBinaryOperator as BinaryProperty>⟧.TABLE
        ∷ ⟦<IdsTrinaryOperator as BinaryProperty>⟧.TABLE
        ∷ ⟦<IdsUnaryOperator as BinaryProperty>⟧.TABLE
        ∷ ⟦<JoinControl as BinaryProperty>⟧.TABLE
        ∷ ⟦<LogicalOrderException as BinaryProperty>⟧.TABLE
        ∷ ⟦<Lowercase as BinaryProperty>⟧.TABLE
        ∷ ⟦<Math as BinaryProperty>⟧.TABLE
        ∷ ⟦<ModifierCombiningMark as BinaryProperty>⟧.TABLE
        ∷ ⟦<NoncharacterCodePoint as BinaryProperty>⟧.TABLE
        ∷ ⟦<NfcInert as BinaryProperty>⟧.TABLE
        ∷ ⟦<NfdInert as BinaryProperty>⟧.TABLE
        ∷ ⟦<NfkcInert as BinaryProperty>⟧.TABLE
        ∷ ⟦<NfkdInert as BinaryProperty>⟧.TABLE
        ∷ ⟦<PatternSyntax as BinaryProperty>⟧.TABLE
        ∷ ⟦<PatternWhiteSpace as BinaryProperty>⟧.TABLE
        ∷ ⟦<PrependedConcatenationMark as BinaryProperty>⟧.TABLE
        ∷ ⟦<Print as BinaryProperty>⟧.TABLE
        ∷ ⟦<QuotationMark as BinaryProperty>⟧.TABLE
        ∷ ⟦<Radical as BinaryProperty>⟧.TABLE
        ∷ ⟦<RegionalIndicator as BinaryProperty>⟧.TABLE
        ∷ ⟦<SoftDotted as BinaryProperty>⟧.TABLE
        ∷ ⟦<SegmentStarter as BinaryProperty>⟧.TABLE
        ∷ ⟦<CaseSensitive as BinaryProperty>⟧.TABLE
        ∷ ⟦<SentenceTerminal as BinaryProperty>⟧.TABLE
        ∷ ⟦<TerminalPunctuation as BinaryProperty>⟧.TABLE
        ∷ ⟦<UnifiedIdeograph as BinaryProperty>⟧.TABLE
        ∷ ⟦<Uppercase as BinaryProperty>⟧.TABLE
        ∷ ⟦<VariationSelector as BinaryProperty>⟧.TABLE
        ∷ ⟦<WhiteSpace as BinaryProperty>⟧.TABLE
        ∷ ⟦<Xdigit as BinaryProperty>⟧.TABLE
        ∷ ⟦<XidContinue as BinaryProperty>⟧.TABLE
        ∷ ⟦<XidStart as BinaryProperty>⟧.TABLE
        ∷ []) ≡ range_with_len 0 69 }
    ensures emoji { ⟦<BasicEmoji as EmojiSet>⟧.TABLE ≡ 0 }
{}

/// The long and the short name of each type of a binary property, for the tables 0 to 13.
pub fn names_from_ascii_hex_digit() -> [(&'static [u8], &'static [u8]); 14]
    ensures { map (λ row. (row.0.now, row.1.now)) result ≡ take 14 property_names }
{
    [
        (AsciiHexDigit::NAME, AsciiHexDigit::SHORT_NAME),
        (Alnum::NAME, Alnum::SHORT_NAME),
        (Alphabetic::NAME, Alphabetic::SHORT_NAME),
        (BidiControl::NAME, BidiControl::SHORT_NAME),
        (BidiMirrored::NAME, BidiMirrored::SHORT_NAME),
        (Blank::NAME, Blank::SHORT_NAME),
        (Cased::NAME, Cased::SHORT_NAME),
        (CaseIgnorable::NAME, CaseIgnorable::SHORT_NAME),
        (
            FullCompositionExclusion::NAME,
            FullCompositionExclusion::SHORT_NAME,
        ),
        (
            ChangesWhenCasefolded::NAME,
            ChangesWhenCasefolded::SHORT_NAME,
        ),
        (
            ChangesWhenCasemapped::NAME,
            ChangesWhenCasemapped::SHORT_NAME,
        ),
        (
            ChangesWhenNfkcCasefolded::NAME,
            ChangesWhenNfkcCasefolded::SHORT_NAME,
        ),
        (
            ChangesWhenLowercased::NAME,
            ChangesWhenLowercased::SHORT_NAME,
        ),
        (
            ChangesWhenTitlecased::NAME,
            ChangesWhenTitlecased::SHORT_NAME,
        ),
    ]
}

/// The long and the short name of each type of a binary property, for the tables 14 to 27.
pub fn names_from_changes_when_uppercased() -> [(&'static [u8], &'static [u8]); 14]
    ensures { map (λ row. (row.0.now, row.1.now)) result ≡ drop 14 (take 28 property_names) }
{
    [
        (
            ChangesWhenUppercased::NAME,
            ChangesWhenUppercased::SHORT_NAME,
        ),
        (Dash::NAME, Dash::SHORT_NAME),
        (Deprecated::NAME, Deprecated::SHORT_NAME),
        (
            DefaultIgnorableCodePoint::NAME,
            DefaultIgnorableCodePoint::SHORT_NAME,
        ),
        (Diacritic::NAME, Diacritic::SHORT_NAME),
        (EmojiModifierBase::NAME, EmojiModifierBase::SHORT_NAME),
        (EmojiComponent::NAME, EmojiComponent::SHORT_NAME),
        (EmojiModifier::NAME, EmojiModifier::SHORT_NAME),
        (Emoji::NAME, Emoji::SHORT_NAME),
        (EmojiPresentation::NAME, EmojiPresentation::SHORT_NAME),
        (Extender::NAME, Extender::SHORT_NAME),
        (ExtendedPictographic::NAME, ExtendedPictographic::SHORT_NAME),
        (Graph::NAME, Graph::SHORT_NAME),
        (GraphemeBase::NAME, GraphemeBase::SHORT_NAME),
    ]
}

/// The long and the short name of each type of a binary property, for the tables 28 to 41.
pub fn names_from_grapheme_extend() -> [(&'static [u8], &'static [u8]); 14]
    ensures { map (λ row. (row.0.now, row.1.now)) result ≡ drop 28 (take 42 property_names) }
{
    [
        (GraphemeExtend::NAME, GraphemeExtend::SHORT_NAME),
        (GraphemeLink::NAME, GraphemeLink::SHORT_NAME),
        (HexDigit::NAME, HexDigit::SHORT_NAME),
        (Hyphen::NAME, Hyphen::SHORT_NAME),
        (IdCompatMathContinue::NAME, IdCompatMathContinue::SHORT_NAME),
        (IdCompatMathStart::NAME, IdCompatMathStart::SHORT_NAME),
        (IdContinue::NAME, IdContinue::SHORT_NAME),
        (Ideographic::NAME, Ideographic::SHORT_NAME),
        (IdStart::NAME, IdStart::SHORT_NAME),
        (IdsBinaryOperator::NAME, IdsBinaryOperator::SHORT_NAME),
        (IdsTrinaryOperator::NAME, IdsTrinaryOperator::SHORT_NAME),
        (IdsUnaryOperator::NAME, IdsUnaryOperator::SHORT_NAME),
        (JoinControl::NAME, JoinControl::SHORT_NAME),
        (
            LogicalOrderException::NAME,
            LogicalOrderException::SHORT_NAME,
        ),
    ]
}

/// The long and the short name of each type of a binary property, for the tables 42 to 55.
pub fn names_from_lowercase() -> [(&'static [u8], &'static [u8]); 14]
    ensures { map (λ row. (row.0.now, row.1.now)) result ≡ drop 42 (take 56 property_names) }
{
    [
        (Lowercase::NAME, Lowercase::SHORT_NAME),
        (Math::NAME, Math::SHORT_NAME),
        (
            ModifierCombiningMark::NAME,
            ModifierCombiningMark::SHORT_NAME,
        ),
        (
            NoncharacterCodePoint::NAME,
            NoncharacterCodePoint::SHORT_NAME,
        ),
        (NfcInert::NAME, NfcInert::SHORT_NAME),
        (NfdInert::NAME, NfdInert::SHORT_NAME),
        (NfkcInert::NAME, NfkcInert::SHORT_NAME),
        (NfkdInert::NAME, NfkdInert::SHORT_NAME),
        (PatternSyntax::NAME, PatternSyntax::SHORT_NAME),
        (PatternWhiteSpace::NAME, PatternWhiteSpace::SHORT_NAME),
        (
            PrependedConcatenationMark::NAME,
            PrependedConcatenationMark::SHORT_NAME,
        ),
        (Print::NAME, Print::SHORT_NAME),
        (QuotationMark::NAME, QuotationMark::SHORT_NAME),
        (Radical::NAME, Radical::SHORT_NAME),
    ]
}

/// The long and the short name of each type of a binary property, for the tables 56 to 68.
pub fn names_from_regional_indicator() -> [(&'static [u8], &'static [u8]); 13]
    ensures { map (λ row. (row.0.now, row.1.now)) result ≡ drop 56 property_names }
{
    [
        (RegionalIndicator::NAME, RegionalIndicator::SHORT_NAME),
        (SoftDotted::NAME, SoftDotted::SHORT_NAME),
        (SegmentStarter::NAME, SegmentStarter::SHORT_NAME),
        (CaseSensitive::NAME, CaseSensitive::SHORT_NAME),
        (SentenceTerminal::NAME, SentenceTerminal::SHORT_NAME),
        (TerminalPunctuation::NAME, TerminalPunctuation::SHORT_NAME),
        (UnifiedIdeograph::NAME, UnifiedIdeograph::SHORT_NAME),
        (Uppercase::NAME, Uppercase::SHORT_NAME),
        (VariationSelector::NAME, VariationSelector::SHORT_NAME),
        (WhiteSpace::NAME, WhiteSpace::SHORT_NAME),
        (Xdigit::NAME, Xdigit::SHORT_NAME),
        (XidContinue::NAME, XidContinue::SHORT_NAME),
        (XidStart::NAME, XidStart::SHORT_NAME),
    ]
}

/// The long and the short name of the emoji set.
pub fn names_of_basic_emoji() -> (&'static [u8], &'static [u8])
    ensures long { result.0.now ≡ codes "Basic_Emoji" }
    ensures short { result.1.now ≡ codes "Basic_Emoji" }
{
    (BasicEmoji::NAME, BasicEmoji::SHORT_NAME)
}
