//! The types of the binary properties of Unicode and ICU other than those of letter case and of POSIX classes.
use crate::property::BinaryProperty;
use crate::table::SetTable;

/// The property `ASCII_Hex_Digit`.
#[derive(Debug)]
pub struct AsciiHexDigit;

impl BinaryProperty for AsciiHexDigit {
    ghost TABLE = { 0 };

    const NAME: &'static [u8] = b"ASCII_Hex_Digit";

    const SHORT_NAME: &'static [u8] = b"AHex";

    const TABLE: SetTable = SetTable::ASCII_HEX_DIGIT;
}

/// The property `Alphabetic`.
#[derive(Debug)]
pub struct Alphabetic;

impl BinaryProperty for Alphabetic {
    ghost TABLE = { 2 };

    const NAME: &'static [u8] = b"Alphabetic";

    const SHORT_NAME: &'static [u8] = b"Alpha";

    const TABLE: SetTable = SetTable::ALPHABETIC;
}

/// The property `Bidi_Control`.
#[derive(Debug)]
pub struct BidiControl;

impl BinaryProperty for BidiControl {
    ghost TABLE = { 3 };

    const NAME: &'static [u8] = b"Bidi_Control";

    const SHORT_NAME: &'static [u8] = b"Bidi_C";

    const TABLE: SetTable = SetTable::BIDI_CONTROL;
}

/// The property `Bidi_Mirrored`.
#[derive(Debug)]
pub struct BidiMirrored;

impl BinaryProperty for BidiMirrored {
    ghost TABLE = { 4 };

    const NAME: &'static [u8] = b"Bidi_Mirrored";

    const SHORT_NAME: &'static [u8] = b"Bidi_M";

    const TABLE: SetTable = SetTable::BIDI_MIRRORED;
}

/// The property `Full_Composition_Exclusion`.
#[derive(Debug)]
pub struct FullCompositionExclusion;

impl BinaryProperty for FullCompositionExclusion {
    ghost TABLE = { 8 };

    const NAME: &'static [u8] = b"Full_Composition_Exclusion";

    const SHORT_NAME: &'static [u8] = b"Comp_Ex";

    const TABLE: SetTable = SetTable::FULL_COMPOSITION_EXCLUSION;
}

/// The property `Dash`.
#[derive(Debug)]
pub struct Dash;

impl BinaryProperty for Dash {
    ghost TABLE = { 15 };

    const NAME: &'static [u8] = b"Dash";

    const SHORT_NAME: &'static [u8] = b"Dash";

    const TABLE: SetTable = SetTable::DASH;
}

/// The property `Deprecated`.
#[derive(Debug)]
pub struct Deprecated;

impl BinaryProperty for Deprecated {
    ghost TABLE = { 16 };

    const NAME: &'static [u8] = b"Deprecated";

    const SHORT_NAME: &'static [u8] = b"Dep";

    const TABLE: SetTable = SetTable::DEPRECATED;
}

/// The property `Default_Ignorable_Code_Point`.
#[derive(Debug)]
pub struct DefaultIgnorableCodePoint;

impl BinaryProperty for DefaultIgnorableCodePoint {
    ghost TABLE = { 17 };

    const NAME: &'static [u8] = b"Default_Ignorable_Code_Point";

    const SHORT_NAME: &'static [u8] = b"DI";

    const TABLE: SetTable = SetTable::DEFAULT_IGNORABLE_CODE_POINT;
}

/// The property `Diacritic`.
#[derive(Debug)]
pub struct Diacritic;

impl BinaryProperty for Diacritic {
    ghost TABLE = { 18 };

    const NAME: &'static [u8] = b"Diacritic";

    const SHORT_NAME: &'static [u8] = b"Dia";

    const TABLE: SetTable = SetTable::DIACRITIC;
}

/// The property `Emoji_Modifier_Base`.
#[derive(Debug)]
pub struct EmojiModifierBase;

impl BinaryProperty for EmojiModifierBase {
    ghost TABLE = { 19 };

    const NAME: &'static [u8] = b"Emoji_Modifier_Base";

    const SHORT_NAME: &'static [u8] = b"EBase";

    const TABLE: SetTable = SetTable::EMOJI_MODIFIER_BASE;
}

/// The property `Emoji_Component`.
#[derive(Debug)]
pub struct EmojiComponent;

impl BinaryProperty for EmojiComponent {
    ghost TABLE = { 20 };

    const NAME: &'static [u8] = b"Emoji_Component";

    const SHORT_NAME: &'static [u8] = b"EComp";

    const TABLE: SetTable = SetTable::EMOJI_COMPONENT;
}

/// The property `Emoji_Modifier`.
#[derive(Debug)]
pub struct EmojiModifier;

impl BinaryProperty for EmojiModifier {
    ghost TABLE = { 21 };

    const NAME: &'static [u8] = b"Emoji_Modifier";

    const SHORT_NAME: &'static [u8] = b"EMod";

    const TABLE: SetTable = SetTable::EMOJI_MODIFIER;
}

/// The property `Emoji`.
#[derive(Debug)]
pub struct Emoji;

impl BinaryProperty for Emoji {
    ghost TABLE = { 22 };

    const NAME: &'static [u8] = b"Emoji";

    const SHORT_NAME: &'static [u8] = b"Emoji";

    const TABLE: SetTable = SetTable::EMOJI;
}

/// The property `Emoji_Presentation`.
#[derive(Debug)]
pub struct EmojiPresentation;

impl BinaryProperty for EmojiPresentation {
    ghost TABLE = { 23 };

    const NAME: &'static [u8] = b"Emoji_Presentation";

    const SHORT_NAME: &'static [u8] = b"EPres";

    const TABLE: SetTable = SetTable::EMOJI_PRESENTATION;
}

/// The property `Extender`.
#[derive(Debug)]
pub struct Extender;

impl BinaryProperty for Extender {
    ghost TABLE = { 24 };

    const NAME: &'static [u8] = b"Extender";

    const SHORT_NAME: &'static [u8] = b"Ext";

    const TABLE: SetTable = SetTable::EXTENDER;
}

/// The property `Extended_Pictographic`.
#[derive(Debug)]
pub struct ExtendedPictographic;

impl BinaryProperty for ExtendedPictographic {
    ghost TABLE = { 25 };

    const NAME: &'static [u8] = b"Extended_Pictographic";

    const SHORT_NAME: &'static [u8] = b"ExtPict";

    const TABLE: SetTable = SetTable::EXTENDED_PICTOGRAPHIC;
}

/// The property `Grapheme_Base`.
#[derive(Debug)]
pub struct GraphemeBase;

impl BinaryProperty for GraphemeBase {
    ghost TABLE = { 27 };

    const NAME: &'static [u8] = b"Grapheme_Base";

    const SHORT_NAME: &'static [u8] = b"Gr_Base";

    const TABLE: SetTable = SetTable::GRAPHEME_BASE;
}

/// The property `Grapheme_Extend`.
#[derive(Debug)]
pub struct GraphemeExtend;

impl BinaryProperty for GraphemeExtend {
    ghost TABLE = { 28 };

    const NAME: &'static [u8] = b"Grapheme_Extend";

    const SHORT_NAME: &'static [u8] = b"Gr_Ext";

    const TABLE: SetTable = SetTable::GRAPHEME_EXTEND;
}

/// The property `Grapheme_Link`.
#[derive(Debug)]
pub struct GraphemeLink;

impl BinaryProperty for GraphemeLink {
    ghost TABLE = { 29 };

    const NAME: &'static [u8] = b"Grapheme_Link";

    const SHORT_NAME: &'static [u8] = b"Gr_Link";

    const TABLE: SetTable = SetTable::GRAPHEME_LINK;
}

/// The property `Hex_Digit`.
#[derive(Debug)]
pub struct HexDigit;

impl BinaryProperty for HexDigit {
    ghost TABLE = { 30 };

    const NAME: &'static [u8] = b"Hex_Digit";

    const SHORT_NAME: &'static [u8] = b"Hex";

    const TABLE: SetTable = SetTable::HEX_DIGIT;
}

/// The property `Hyphen`.
#[derive(Debug)]
pub struct Hyphen;

impl BinaryProperty for Hyphen {
    ghost TABLE = { 31 };

    const NAME: &'static [u8] = b"Hyphen";

    const SHORT_NAME: &'static [u8] = b"Hyphen";

    const TABLE: SetTable = SetTable::HYPHEN;
}

/// The property `ID_Compat_Math_Continue`.
#[derive(Debug)]
pub struct IdCompatMathContinue;

impl BinaryProperty for IdCompatMathContinue {
    ghost TABLE = { 32 };

    const NAME: &'static [u8] = b"ID_Compat_Math_Continue";

    const SHORT_NAME: &'static [u8] = b"ID_Compat_Math_Continue";

    const TABLE: SetTable = SetTable::ID_COMPAT_MATH_CONTINUE;
}

/// The property `ID_Compat_Math_Start`.
#[derive(Debug)]
pub struct IdCompatMathStart;

impl BinaryProperty for IdCompatMathStart {
    ghost TABLE = { 33 };

    const NAME: &'static [u8] = b"ID_Compat_Math_Start";

    const SHORT_NAME: &'static [u8] = b"ID_Compat_Math_Start";

    const TABLE: SetTable = SetTable::ID_COMPAT_MATH_START;
}

/// The property `ID_Continue`.
#[derive(Debug)]
pub struct IdContinue;

impl BinaryProperty for IdContinue {
    ghost TABLE = { 34 };

    const NAME: &'static [u8] = b"ID_Continue";

    const SHORT_NAME: &'static [u8] = b"IDC";

    const TABLE: SetTable = SetTable::ID_CONTINUE;
}

/// The property `Ideographic`.
#[derive(Debug)]
pub struct Ideographic;

impl BinaryProperty for Ideographic {
    ghost TABLE = { 35 };

    const NAME: &'static [u8] = b"Ideographic";

    const SHORT_NAME: &'static [u8] = b"Ideo";

    const TABLE: SetTable = SetTable::IDEOGRAPHIC;
}

/// The property `ID_Start`.
#[derive(Debug)]
pub struct IdStart;

impl BinaryProperty for IdStart {
    ghost TABLE = { 36 };

    const NAME: &'static [u8] = b"ID_Start";

    const SHORT_NAME: &'static [u8] = b"IDS";

    const TABLE: SetTable = SetTable::ID_START;
}

/// The property `IDS_Binary_Operator`.
#[derive(Debug)]
pub struct IdsBinaryOperator;

impl BinaryProperty for IdsBinaryOperator {
    ghost TABLE = { 37 };

    const NAME: &'static [u8] = b"IDS_Binary_Operator";

    const SHORT_NAME: &'static [u8] = b"IDSB";

    const TABLE: SetTable = SetTable::IDS_BINARY_OPERATOR;
}

/// The property `IDS_Trinary_Operator`.
#[derive(Debug)]
pub struct IdsTrinaryOperator;

impl BinaryProperty for IdsTrinaryOperator {
    ghost TABLE = { 38 };

    const NAME: &'static [u8] = b"IDS_Trinary_Operator";

    const SHORT_NAME: &'static [u8] = b"IDST";

    const TABLE: SetTable = SetTable::IDS_TRINARY_OPERATOR;
}

/// The property `IDS_Unary_Operator`.
#[derive(Debug)]
pub struct IdsUnaryOperator;

impl BinaryProperty for IdsUnaryOperator {
    ghost TABLE = { 39 };

    const NAME: &'static [u8] = b"IDS_Unary_Operator";

    const SHORT_NAME: &'static [u8] = b"IDSU";

    const TABLE: SetTable = SetTable::IDS_UNARY_OPERATOR;
}

/// The property `Join_Control`.
#[derive(Debug)]
pub struct JoinControl;

impl BinaryProperty for JoinControl {
    ghost TABLE = { 40 };

    const NAME: &'static [u8] = b"Join_Control";

    const SHORT_NAME: &'static [u8] = b"Join_C";

    const TABLE: SetTable = SetTable::JOIN_CONTROL;
}

/// The property `Logical_Order_Exception`.
#[derive(Debug)]
pub struct LogicalOrderException;

impl BinaryProperty for LogicalOrderException {
    ghost TABLE = { 41 };

    const NAME: &'static [u8] = b"Logical_Order_Exception";

    const SHORT_NAME: &'static [u8] = b"LOE";

    const TABLE: SetTable = SetTable::LOGICAL_ORDER_EXCEPTION;
}

/// The property `Math`.
#[derive(Debug)]
pub struct Math;

impl BinaryProperty for Math {
    ghost TABLE = { 43 };

    const NAME: &'static [u8] = b"Math";

    const SHORT_NAME: &'static [u8] = b"Math";

    const TABLE: SetTable = SetTable::MATH;
}

/// The property `Modifier_Combining_Mark`.
#[derive(Debug)]
pub struct ModifierCombiningMark;

impl BinaryProperty for ModifierCombiningMark {
    ghost TABLE = { 44 };

    const NAME: &'static [u8] = b"Modifier_Combining_Mark";

    const SHORT_NAME: &'static [u8] = b"MCM";

    const TABLE: SetTable = SetTable::MODIFIER_COMBINING_MARK;
}

/// The property `Noncharacter_Code_Point`.
#[derive(Debug)]
pub struct NoncharacterCodePoint;

impl BinaryProperty for NoncharacterCodePoint {
    ghost TABLE = { 45 };

    const NAME: &'static [u8] = b"Noncharacter_Code_Point";

    const SHORT_NAME: &'static [u8] = b"NChar";

    const TABLE: SetTable = SetTable::NONCHARACTER_CODE_POINT;
}

/// The property `NFC_Inert`.
#[derive(Debug)]
pub struct NfcInert;

impl BinaryProperty for NfcInert {
    ghost TABLE = { 46 };

    const NAME: &'static [u8] = b"NFC_Inert";

    const SHORT_NAME: &'static [u8] = b"nfcinert";

    const TABLE: SetTable = SetTable::NFC_INERT;
}

/// The property `NFD_Inert`.
#[derive(Debug)]
pub struct NfdInert;

impl BinaryProperty for NfdInert {
    ghost TABLE = { 47 };

    const NAME: &'static [u8] = b"NFD_Inert";

    const SHORT_NAME: &'static [u8] = b"nfdinert";

    const TABLE: SetTable = SetTable::NFD_INERT;
}

/// The property `NFKC_Inert`.
#[derive(Debug)]
pub struct NfkcInert;

impl BinaryProperty for NfkcInert {
    ghost TABLE = { 48 };

    const NAME: &'static [u8] = b"NFKC_Inert";

    const SHORT_NAME: &'static [u8] = b"nfkcinert";

    const TABLE: SetTable = SetTable::NFKC_INERT;
}

/// The property `NFKD_Inert`.
#[derive(Debug)]
pub struct NfkdInert;

impl BinaryProperty for NfkdInert {
    ghost TABLE = { 49 };

    const NAME: &'static [u8] = b"NFKD_Inert";

    const SHORT_NAME: &'static [u8] = b"nfkdinert";

    const TABLE: SetTable = SetTable::NFKD_INERT;
}

/// The property `Pattern_Syntax`.
#[derive(Debug)]
pub struct PatternSyntax;

impl BinaryProperty for PatternSyntax {
    ghost TABLE = { 50 };

    const NAME: &'static [u8] = b"Pattern_Syntax";

    const SHORT_NAME: &'static [u8] = b"Pat_Syn";

    const TABLE: SetTable = SetTable::PATTERN_SYNTAX;
}

/// The property `Pattern_White_Space`.
#[derive(Debug)]
pub struct PatternWhiteSpace;

impl BinaryProperty for PatternWhiteSpace {
    ghost TABLE = { 51 };

    const NAME: &'static [u8] = b"Pattern_White_Space";

    const SHORT_NAME: &'static [u8] = b"Pat_WS";

    const TABLE: SetTable = SetTable::PATTERN_WHITE_SPACE;
}

/// The property `Prepended_Concatenation_Mark`.
#[derive(Debug)]
pub struct PrependedConcatenationMark;

impl BinaryProperty for PrependedConcatenationMark {
    ghost TABLE = { 52 };

    const NAME: &'static [u8] = b"Prepended_Concatenation_Mark";

    const SHORT_NAME: &'static [u8] = b"PCM";

    const TABLE: SetTable = SetTable::PREPENDED_CONCATENATION_MARK;
}

/// The property `Quotation_Mark`.
#[derive(Debug)]
pub struct QuotationMark;

impl BinaryProperty for QuotationMark {
    ghost TABLE = { 54 };

    const NAME: &'static [u8] = b"Quotation_Mark";

    const SHORT_NAME: &'static [u8] = b"QMark";

    const TABLE: SetTable = SetTable::QUOTATION_MARK;
}

/// The property `Radical`.
#[derive(Debug)]
pub struct Radical;

impl BinaryProperty for Radical {
    ghost TABLE = { 55 };

    const NAME: &'static [u8] = b"Radical";

    const SHORT_NAME: &'static [u8] = b"Radical";

    const TABLE: SetTable = SetTable::RADICAL;
}

/// The property `Regional_Indicator`.
#[derive(Debug)]
pub struct RegionalIndicator;

impl BinaryProperty for RegionalIndicator {
    ghost TABLE = { 56 };

    const NAME: &'static [u8] = b"Regional_Indicator";

    const SHORT_NAME: &'static [u8] = b"RI";

    const TABLE: SetTable = SetTable::REGIONAL_INDICATOR;
}

/// The property `Segment_Starter`.
#[derive(Debug)]
pub struct SegmentStarter;

impl BinaryProperty for SegmentStarter {
    ghost TABLE = { 58 };

    const NAME: &'static [u8] = b"Segment_Starter";

    const SHORT_NAME: &'static [u8] = b"segstart";

    const TABLE: SetTable = SetTable::SEGMENT_STARTER;
}

/// The property `Sentence_Terminal`.
#[derive(Debug)]
pub struct SentenceTerminal;

impl BinaryProperty for SentenceTerminal {
    ghost TABLE = { 60 };

    const NAME: &'static [u8] = b"Sentence_Terminal";

    const SHORT_NAME: &'static [u8] = b"STerm";

    const TABLE: SetTable = SetTable::SENTENCE_TERMINAL;
}

/// The property `Terminal_Punctuation`.
#[derive(Debug)]
pub struct TerminalPunctuation;

impl BinaryProperty for TerminalPunctuation {
    ghost TABLE = { 61 };

    const NAME: &'static [u8] = b"Terminal_Punctuation";

    const SHORT_NAME: &'static [u8] = b"Term";

    const TABLE: SetTable = SetTable::TERMINAL_PUNCTUATION;
}

/// The property `Unified_Ideograph`.
#[derive(Debug)]
pub struct UnifiedIdeograph;

impl BinaryProperty for UnifiedIdeograph {
    ghost TABLE = { 62 };

    const NAME: &'static [u8] = b"Unified_Ideograph";

    const SHORT_NAME: &'static [u8] = b"UIdeo";

    const TABLE: SetTable = SetTable::UNIFIED_IDEOGRAPH;
}

/// The property `Variation_Selector`.
#[derive(Debug)]
pub struct VariationSelector;

impl BinaryProperty for VariationSelector {
    ghost TABLE = { 64 };

    const NAME: &'static [u8] = b"Variation_Selector";

    const SHORT_NAME: &'static [u8] = b"VS";

    const TABLE: SetTable = SetTable::VARIATION_SELECTOR;
}

/// The property `White_Space`.
#[derive(Debug)]
pub struct WhiteSpace;

impl BinaryProperty for WhiteSpace {
    ghost TABLE = { 65 };

    const NAME: &'static [u8] = b"White_Space";

    const SHORT_NAME: &'static [u8] = b"WSpace";

    const TABLE: SetTable = SetTable::WHITE_SPACE;
}

/// The property `XID_Continue`.
#[derive(Debug)]
pub struct XidContinue;

impl BinaryProperty for XidContinue {
    ghost TABLE = { 67 };

    const NAME: &'static [u8] = b"XID_Continue";

    const SHORT_NAME: &'static [u8] = b"XIDC";

    const TABLE: SetTable = SetTable::XID_CONTINUE;
}

/// The property `XID_Start`.
#[derive(Debug)]
pub struct XidStart;

impl BinaryProperty for XidStart {
    ghost TABLE = { 68 };

    const NAME: &'static [u8] = b"XID_Start";

    const SHORT_NAME: &'static [u8] = b"XIDS";

    const TABLE: SetTable = SetTable::XID_START;
}
