//! The names of the binary properties.
ghost use Rattle.std.specs.Prelude.{◌≡◌, map};
ghost use Rattle.prop_binary.specs.Names.{names_of};
ghost use Rattle.prop_binary.specs.Tables.{properties};

/// The names of a binary property.
pub(crate) struct PropertyNames {
    /// The long name.
    pub(crate) long: &'static str,
    /// The short name.
    pub(crate) short: &'static str,
    /// Whether the table "Binary Unicode property aliases and their canonical property names" of ECMA-262 has it.
    pub(crate) in_ecma262: bool,
}

static NAMES: [PropertyNames; 69] = [
    PropertyNames {
        long: "ASCII_Hex_Digit",
        short: "AHex",
        in_ecma262: true,
    },
    PropertyNames {
        long: "alnum",
        short: "alnum",
        in_ecma262: false,
    },
    PropertyNames {
        long: "Alphabetic",
        short: "Alpha",
        in_ecma262: true,
    },
    PropertyNames {
        long: "Bidi_Control",
        short: "Bidi_C",
        in_ecma262: true,
    },
    PropertyNames {
        long: "Bidi_Mirrored",
        short: "Bidi_M",
        in_ecma262: true,
    },
    PropertyNames {
        long: "blank",
        short: "blank",
        in_ecma262: false,
    },
    PropertyNames {
        long: "Cased",
        short: "Cased",
        in_ecma262: true,
    },
    PropertyNames {
        long: "Case_Ignorable",
        short: "CI",
        in_ecma262: true,
    },
    PropertyNames {
        long: "Full_Composition_Exclusion",
        short: "Comp_Ex",
        in_ecma262: false,
    },
    PropertyNames {
        long: "Changes_When_Casefolded",
        short: "CWCF",
        in_ecma262: true,
    },
    PropertyNames {
        long: "Changes_When_Casemapped",
        short: "CWCM",
        in_ecma262: true,
    },
    PropertyNames {
        long: "Changes_When_NFKC_Casefolded",
        short: "CWKCF",
        in_ecma262: true,
    },
    PropertyNames {
        long: "Changes_When_Lowercased",
        short: "CWL",
        in_ecma262: true,
    },
    PropertyNames {
        long: "Changes_When_Titlecased",
        short: "CWT",
        in_ecma262: true,
    },
    PropertyNames {
        long: "Changes_When_Uppercased",
        short: "CWU",
        in_ecma262: true,
    },
    PropertyNames {
        long: "Dash",
        short: "Dash",
        in_ecma262: true,
    },
    PropertyNames {
        long: "Deprecated",
        short: "Dep",
        in_ecma262: true,
    },
    PropertyNames {
        long: "Default_Ignorable_Code_Point",
        short: "DI",
        in_ecma262: true,
    },
    PropertyNames {
        long: "Diacritic",
        short: "Dia",
        in_ecma262: true,
    },
    PropertyNames {
        long: "Emoji_Modifier_Base",
        short: "EBase",
        in_ecma262: true,
    },
    PropertyNames {
        long: "Emoji_Component",
        short: "EComp",
        in_ecma262: true,
    },
    PropertyNames {
        long: "Emoji_Modifier",
        short: "EMod",
        in_ecma262: true,
    },
    PropertyNames {
        long: "Emoji",
        short: "Emoji",
        in_ecma262: true,
    },
    PropertyNames {
        long: "Emoji_Presentation",
        short: "EPres",
        in_ecma262: true,
    },
    PropertyNames {
        long: "Extender",
        short: "Ext",
        in_ecma262: true,
    },
    PropertyNames {
        long: "Extended_Pictographic",
        short: "ExtPict",
        in_ecma262: true,
    },
    PropertyNames {
        long: "graph",
        short: "graph",
        in_ecma262: false,
    },
    PropertyNames {
        long: "Grapheme_Base",
        short: "Gr_Base",
        in_ecma262: true,
    },
    PropertyNames {
        long: "Grapheme_Extend",
        short: "Gr_Ext",
        in_ecma262: true,
    },
    PropertyNames {
        long: "Grapheme_Link",
        short: "Gr_Link",
        in_ecma262: false,
    },
    PropertyNames {
        long: "Hex_Digit",
        short: "Hex",
        in_ecma262: true,
    },
    PropertyNames {
        long: "Hyphen",
        short: "Hyphen",
        in_ecma262: false,
    },
    PropertyNames {
        long: "ID_Compat_Math_Continue",
        short: "ID_Compat_Math_Continue",
        in_ecma262: false,
    },
    PropertyNames {
        long: "ID_Compat_Math_Start",
        short: "ID_Compat_Math_Start",
        in_ecma262: false,
    },
    PropertyNames {
        long: "ID_Continue",
        short: "IDC",
        in_ecma262: true,
    },
    PropertyNames {
        long: "Ideographic",
        short: "Ideo",
        in_ecma262: true,
    },
    PropertyNames {
        long: "ID_Start",
        short: "IDS",
        in_ecma262: true,
    },
    PropertyNames {
        long: "IDS_Binary_Operator",
        short: "IDSB",
        in_ecma262: true,
    },
    PropertyNames {
        long: "IDS_Trinary_Operator",
        short: "IDST",
        in_ecma262: true,
    },
    PropertyNames {
        long: "IDS_Unary_Operator",
        short: "IDSU",
        in_ecma262: false,
    },
    PropertyNames {
        long: "Join_Control",
        short: "Join_C",
        in_ecma262: true,
    },
    PropertyNames {
        long: "Logical_Order_Exception",
        short: "LOE",
        in_ecma262: true,
    },
    PropertyNames {
        long: "Lowercase",
        short: "Lower",
        in_ecma262: true,
    },
    PropertyNames {
        long: "Math",
        short: "Math",
        in_ecma262: true,
    },
    PropertyNames {
        long: "Modifier_Combining_Mark",
        short: "MCM",
        in_ecma262: false,
    },
    PropertyNames {
        long: "Noncharacter_Code_Point",
        short: "NChar",
        in_ecma262: true,
    },
    PropertyNames {
        long: "NFC_Inert",
        short: "nfcinert",
        in_ecma262: false,
    },
    PropertyNames {
        long: "NFD_Inert",
        short: "nfdinert",
        in_ecma262: false,
    },
    PropertyNames {
        long: "NFKC_Inert",
        short: "nfkcinert",
        in_ecma262: false,
    },
    PropertyNames {
        long: "NFKD_Inert",
        short: "nfkdinert",
        in_ecma262: false,
    },
    PropertyNames {
        long: "Pattern_Syntax",
        short: "Pat_Syn",
        in_ecma262: true,
    },
    PropertyNames {
        long: "Pattern_White_Space",
        short: "Pat_WS",
        in_ecma262: true,
    },
    PropertyNames {
        long: "Prepended_Concatenation_Mark",
        short: "PCM",
        in_ecma262: false,
    },
    PropertyNames {
        long: "print",
        short: "print",
        in_ecma262: false,
    },
    PropertyNames {
        long: "Quotation_Mark",
        short: "QMark",
        in_ecma262: true,
    },
    PropertyNames {
        long: "Radical",
        short: "Radical",
        in_ecma262: true,
    },
    PropertyNames {
        long: "Regional_Indicator",
        short: "RI",
        in_ecma262: true,
    },
    PropertyNames {
        long: "Soft_Dotted",
        short: "SD",
        in_ecma262: true,
    },
    PropertyNames {
        long: "Segment_Starter",
        short: "segstart",
        in_ecma262: false,
    },
    PropertyNames {
        long: "Case_Sensitive",
        short: "Sensitive",
        in_ecma262: false,
    },
    PropertyNames {
        long: "Sentence_Terminal",
        short: "STerm",
        in_ecma262: true,
    },
    PropertyNames {
        long: "Terminal_Punctuation",
        short: "Term",
        in_ecma262: true,
    },
    PropertyNames {
        long: "Unified_Ideograph",
        short: "UIdeo",
        in_ecma262: true,
    },
    PropertyNames {
        long: "Uppercase",
        short: "Upper",
        in_ecma262: true,
    },
    PropertyNames {
        long: "Variation_Selector",
        short: "VS",
        in_ecma262: true,
    },
    PropertyNames {
        long: "White_Space",
        short: "WSpace",
        in_ecma262: true,
    },
    PropertyNames {
        long: "xdigit",
        short: "xdigit",
        in_ecma262: false,
    },
    PropertyNames {
        long: "XID_Continue",
        short: "XIDC",
        in_ecma262: true,
    },
    PropertyNames {
        long: "XID_Start",
        short: "XIDS",
        in_ecma262: true,
    },
];

/// The names of each binary property, in the order of the numbers of the tables.
pub(crate) fn property_names() -> &'static [PropertyNames]
    ensures { map names_of result.now ≡ properties }
{
    &NAMES
}
