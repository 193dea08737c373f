//! What tests of several crates share.
#![tactic(auto)]

/// Tables of every kind: those of the pattern syntax, a binary property, General_Category with names of groups, Script
/// with its names, scripts with extensions, combining classes, and an emoji set. Block has none.
pub const EVERY_KIND: &str = "set XID_Start\n41-5A\n61-7A\n\
    set XID_Continue\n30-39\n41-5A\n5F\n61-7A\n\
    set Pattern_White_Space\n9-D\n20\n85\n200E-200F\n2028-2029\n\
    set ASCII_Hex_Digit\n30-39\n41-46\n61-66\n\
    map General_Category 0\n30-39 9\n41-5A 1\n61-7A 2\nD800-DFFF 18\n\
    names General_Category_Mask\n1 Lu\n1 Uppercase_Letter\n2 Ll\n2 Lowercase_Letter\n9 Nd\n9 Decimal_Number\n65534 L\n65534 Letter\n\
    map Script 103\n41-5A 25\n61-7A 25\n3041-3096 20\n30A1-30FA 22\n30FC 0\n\
    names Script\n25 Latn\n25 Latin\n20 Hira\n20 Hiragana\n22 Kana\n22 Katakana\n0 Zyyy\n0 Common\n\
    long Script\n25 Latin\n\
    short Script\n25 Latn\n\
    scx 103\n41-5A 25\n61-7A 25\n3041-3096 20\n30A1-30FA 22\n30FC 1024\n\
    ext 0\n20\n22\n\
    map Canonical_Combining_Class 0\n300-314 230\n\
    names Canonical_Combining_Class\n230 A\n230 Above\n\
    emoji Basic_Emoji\n231A-231B\n{00A9_FE0F}\n\
    end\n";
