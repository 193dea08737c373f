//! Properties.
use crate::fixtures::{
    SYNTAX, assert_faults, assert_holds, assert_read, assert_unexpected, is_evaluated,
};
use std::alloc::{AllocError, Global};

/// Binary properties, in words and under a caret, a `P` and an unequal sign.
const READ: &[(&str, &str)] = &[
    ("[:AHex:]", "8 0030-0039 0041-0046 0061-0066"),
    ("[:ASCII_Hex_Digit:]", "19 0030-0039 0041-0046 0061-0066"),
    ("\\p{AHex}}", "8 0030-0039 0041-0046 0061-0066"),
    ("[\\p{AHex}]", "10 0030-0039 0041-0046 0061-0066"),
    ("\\P{AHex}", "8 0000-002F 003A-0040 0047-0060 0067-10FFFF"),
    ("[:^AHex:]", "9 0000-002F 003A-0040 0047-0060 0067-10FFFF"),
    ("[:^AHex≠True:]", "16 0030-0039 0041-0046 0061-0066"),
    ("\\p{AHex≠False}", "16 0030-0039 0041-0046 0061-0066"),
    ("[:AHex=F:]", "10 0000-002F 003A-0040 0047-0060 0067-10FFFF"),
    (
        "[:AHex=no:]",
        "11 0000-002F 003A-0040 0047-0060 0067-10FFFF",
    ),
    ("[:AHex=N:]", "10 0000-002F 003A-0040 0047-0060 0067-10FFFF"),
    (
        "[:AHex=false:]",
        "14 0000-002F 003A-0040 0047-0060 0067-10FFFF",
    ),
    ("[:AHex=Y:]", "10 0030-0039 0041-0046 0061-0066"),
    ("[:AHex=t:]", "10 0030-0039 0041-0046 0061-0066"),
    ("[:AHex≠n:]", "12 0030-0039 0041-0046 0061-0066"),
    (
        "\\P{AHex=yes}",
        "12 0000-002F 003A-0040 0047-0060 0067-10FFFF",
    ),
    ("\\P{AHex=no}", "11 0030-0039 0041-0046 0061-0066"),
    (
        "\\P{AHex≠no}",
        "13 0000-002F 003A-0040 0047-0060 0067-10FFFF",
    ),
    ("[: AHex = Y E S :]", "18 0030-0039 0041-0046 0061-0066"),
    (
        "[:^ A H e x ≠ No :]",
        "21 0000-002F 003A-0040 0047-0060 0067-10FFFF",
    ),
    ("\\p{ AHex }", "10 0030-0039 0041-0046 0061-0066"),
    ("[:XIDS:]", "8 0041-005A 0061-007A"),
    ("[:Pat_WS:]", "10 0009-000D 0020 0085 200E-200F 2028-2029"),
    ("[[:AHex:]&[a-z]]", "16 0061-0066"),
    ("[a-z[0]&\\P{AHex}]", "17 0067-007A"),
    ("[x[:AHex:]-[0-9]]", "17 0041-0046 0061-0066 0078"),
    (
        "[^\\p{AHex}]",
        "11 0000-002F 003A-0040 0047-0060 0067-10FFFF",
    ),
    ("[^[:^AHex:]]", "12 0030-0039 0041-0046 0061-0066"),
    (
        "[{ab}[:AHex:]&[:AHex:]]",
        "23 0030-0039 0041-0046 0061-0066",
    ),
];

/// Groups of general categories, by their names written loosely, alone and behind their key.
const GROUPS: &[(&str, &str)] = &[
    ("[:lower case letter:]", "21 0061-007A"),
    ("[:gc=lower-case-letter:]", "24 0061-007A"),
    ("[:Lu:]", "6 0041-005A"),
    ("\\p{Nd}", "6 0030-0039"),
    ("[:General_Category=Decimal_Number:]", "35 0030-0039"),
    ("[:g_C = N d:]", "13 0030-0039"),
    ("[:letter:]", "10 0041-005A 0061-007A"),
    ("\\P{L}", "5 0000-0040 005B-0060 007B-10FFFF"),
    ("[:gc≠L:]", "10 0000-0040 005B-0060 007B-10FFFF"),
    ("[:^gc≠L:]", "11 0041-005A 0061-007A"),
    ("[^[:L:]]", "8 0000-0040 005B-0060 007B-10FFFF"),
    (
        "[[:L:]-[aeiou]]",
        "15 0041-005A 0062-0064 0066-0068 006A-006E 0070-0074 0076-007A",
    ),
    ("[[a-z0{ab}]&\\p{Nd}]", "19 0030"),
    ("[[a-z0]-\\P{Nd}]", "15 0030"),
    ("[[0-5]\\p{Nd}]", "13 0030-0039"),
    ("[[:L:]&[:Latn:]-[:Lu:]]", "23 0061-007A"),
];

/// Scripts, alone and behind their key, and scripts among the script extensions.
const SCRIPTS: &[(&str, &str)] = &[
    ("[:Latn:]", "8 0041-005A 0061-007A"),
    ("[:script=LATIN:]", "16 0041-005A 0061-007A"),
    ("[:sc=Zyyy:]", "11 30FC"),
    ("[:Kana:]", "8 30A1-30FA"),
    ("[[:sc=Hira:]&[\\u30FC]]", "22"),
    ("[[:scx=Hira:]&[\\u30FC]]", "23 30FC"),
    ("[:scx=Kana:]", "12 30A1-30FA 30FC"),
    ("[:Script_Extensions=hiragana:]", "30 3041-3096 30FC"),
    ("[:scx=Zyyy:]", "12"),
    ("[:scx=Latn:]", "12 0041-005A 0061-007A"),
    ("\\P{scx=Common}", "14 0000-10FFFF"),
    ("[^[:^scx=Hira:]]", "16 3041-3096 30FC"),
];

/// Combining classes, by their names and by decimal numbers.
const CLASSES: &[(&str, &str)] = &[
    ("[:ccc=+230:]", "12 0300-0314"),
    ("[:ccc=above:]", "13 0300-0314"),
    ("[:ccc=A:]", "9 0300-0314"),
    ("[:ccc=00000000230:]", "19 0300-0314"),
    ("[:Canonical_Combining_Class = 2 3 0 :]", "38 0300-0314"),
    ("[:ccc=0:]", "9 0000-02FF 0315-10FFFF"),
    ("[:ccc=255:]", "11"),
    ("[:ccc≠230:]", "13 0000-02FF 0315-10FFFF"),
];

/// Properties that end where more is due.
const ENDS: &[(&str, &str)] = &[
    ("[:AHex", "[:AHex"),
    ("[:AHex:", "[:AHex:"),
    ("[:", "[:"),
    ("[:^", "[:^"),
    ("[:AHex=", "[:AHex="),
    ("[:AHex=y", "[:AHex=y"),
    ("[:AHex=y:", "[:AHex=y:"),
    ("\\p", "\\p"),
    ("\\p{", "\\p{"),
    ("\\p{AHex", "\\p{AHex"),
    ("\\P", "\\P"),
    ("[\\p{AHex}", "[\\p{AHex}"),
    ("[[:AHex:]", "[[:AHex:]"),
    ("[a-[:AHex:]", "[a-[:AHex:]"),
    ("\\p{AHex=y", "\\p{AHex=y"),
    ("[:blk=x", "[:blk=x"),
    ("\\", "\\"),
];

/// Properties that resolve to nothing.
const UNKNOWN: &[(&str, &str)] = &[
    ("[:ccc=++230:]", "[:ccc=++230"),
    ("[:ccc=-230:]", "[:ccc=-230"),
    ("[:ccc=+:]", "[:ccc=+"),
    ("[:ccc=486:]", "[:ccc=486"),
    ("[:lb=AL:]", "[:lb=AL"),
    ("[:lb=1:]", "[:lb=1"),
    ("[:Latn=yes:]", "[:Latn=yes"),
    ("[:sc=25:]", "[:sc=25"),
    ("[:scx=L:]", "[:scx=L"),
    ("[:ahex:]", "[:ahex"),
    ("[:general_category:]", "[:general_category"),
    ("[:ll=true:]", "[:ll=true"),
    ("\\p{gc=ä}", "\\p{gc=ä"),
    ("[:ccc=256:]", "[:ccc=256"),
    ("[:a_hex=y:]", "[:a_hex=y"),
    ("[:AHex=maybe:]", "[:AHex=maybe"),
    ("[:AHex=maybe:x", "[:AHex=maybe"),
    ("[:AHex=tru:]", "[:AHex=tru"),
    ("[:zz:]", "[:zz"),
    ("[:zz:x", "[:zz"),
    ("[:zz:", "[:zz"),
    ("[:zz :]", "[:zz "),
    ("\\p{zz}", "\\p{zz"),
    ("[a[:zz:]", "[a[:zz"),
    ("[a-[:zz:]]", "[a-[:zz"),
    ("[:Any:]", "[:Any"),
    ("[:ASCII:]", "[:ASCII"),
    ("[:Assigned:]", "[:Assigned"),
    ("[:space:]", "[:space"),
    ("[:blk:]", "[:blk"),
    ("[:Lowercase:]", "[:Lowercase"),
    ("[:Lower=y:]", "[:Lower=y"),
    ("[:gc=y:]", "[:gc=y"),
    ("[:General_Category=y:]", "[:General_Category=y"),
    ("[:s_c=t:]", "[:s_c=t"),
    ("[:alphabetic≠ä:]", "[:alphabetic≠ä"),
];

/// Values of Block, whose names no table has.
const LACKING: &[(&str, &str)] = &[
    ("[:blk=ASCII:]", "[:blk=ASCII"),
    ("[:Block=1:]", "[:Block=1"),
    ("[:b_L_k=x:y", "[:b_L_k=x"),
    ("[:blk=x:", "[:blk=x"),
    ("\\P{BLOCK≠ Basic Latin }", "\\P{BLOCK≠ Basic Latin "),
    ("[a-[:blk=ä:]]", "[a-[:blk=ä"),
];

/// Properties with a character that cannot stand there, the last one of the front.
const UNEXPECTED: &[(&str, &str)] = &[
    ("[:]", "[:]"),
    ("[:L]", "[:L]"),
    ("[:=", "[:="),
    ("[::]", "[::"),
    ("[:=hello:]", "[:="),
    ("[:gc=:]", "[:gc=:"),
    ("\\p {L}", "\\p "),
    ("[: ^AHex:]", "[: ^"),
    ("[:^^AHex:]", "[:^^"),
    ("[:A-Hex:]", "[:A-"),
    ("[:é:]", "[:é"),
    ("[:AHex:x]", "[:AHex:x"),
    ("[:AHex: ]", "[:AHex: "),
    ("[:AHex=y:x", "[:AHex=y:x"),
    ("\\p{}", "\\p{}"),
    ("\\p{=y}", "\\p{="),
    ("\\p{^AHex}", "\\p{^"),
    ("\\P{AHex= }", "\\P{AHex= }"),
    ("\\p{AHex:}", "\\p{AHex:"),
    ("\\px", "\\px"),
    ("[:AHex}", "[:AHex}"),
    ("[a[:AHex:x", "[a[:AHex:x"),
    ("[a-[:AHex:]]", "[a-["),
    ("[a-[:AHex:]x", "[a-["),
    ("[[a]&[:AHex:]-x]", "[[a]&[:AHex:]-x"),
];

/// Properties that cannot stand there.
const UNFIT: &[(&str, &str)] = &[
    ("[a-\\p{ll}]", "[a-\\"),
    ("[a-\\p{AHex}]", "[a-\\"),
    ("[a-\\P{AHex}x", "[a-\\"),
    ("[--\\p{AHex}]", "[--\\"),
];

#[test]
fn properties_are_answered_with_their_ranges_or_faults(rt: HostRuntime) {
    let alloc = rt.alloc();
    assert_read(&rt, alloc, READ);
    assert_read(&rt, alloc, GROUPS);
    assert_read(&rt, alloc, SCRIPTS);
    assert_read(&rt, alloc, CLASSES);
    assert_faults(&rt, alloc, ENDS, "unexpected end of input");
    assert_faults(&rt, alloc, UNKNOWN, "unknown property");
    assert_faults(&rt, alloc, LACKING, "internal error");
    assert_unexpected(&rt, alloc, UNEXPECTED);
    assert_faults(&rt, alloc, UNFIT, "unexpected character '\\\\'");
}

/// Tables in which some of what a property may ask is there, with a pattern, its answer and the number of the
/// status.
const PARTIAL: &[(&str, &str, &str, u8)] = &[
    // A group without categories hides the script of its name.
    (
        "map General_Category 0\nnames General_Category_Mask\n100 Latn\nmap Script 103\n61 25\nnames Script\n25 Latn\n",
        "[:Latn:]",
        "ok 8",
        0,
    ),
    // Where the categories are absent the script is found, and where the scripts are, the binary property.
    (
        "names General_Category_Mask\n2 Latn\nmap Script 103\n61 25\nnames Script\n25 Latn\n",
        "[:Latn:]",
        "ok 8 0061",
        0,
    ),
    (
        "names General_Category_Mask\n2 Dash\nnames Script\n25 Dash\nset Dash\n2D\n",
        "[:Dash:]",
        "ok 8 002D",
        0,
    ),
    (
        "names Script\n25 Latn\n",
        "[:scx=Latn:]",
        "err [:scx=Latn← error: unknown property",
        1,
    ),
    // A stored name of low lines alone is found by a query that folds to nothing.
    (
        "map Script 103\n61 25\nnames Script\n25 _\n",
        "[:sc=-:]",
        "ok 8 0061",
        0,
    ),
    // Blocks by their names and their numbers.
    (
        "map Block 0\n0-7F 1\n80-FF 300\nnames Block\n1 Basic_Latin\n",
        "[:blk=basic latin:]",
        "ok 19 0000-007F",
        0,
    ),
    (
        "map Block 0\n0-7F 1\n80-FF 300\nnames Block\n1 Basic_Latin\n",
        "[:Block=+300:]",
        "ok 14 0080-00FF",
        0,
    ),
    (
        "names Block\n1 ASCII\n",
        "[:blk=65535:]",
        "err [:blk=65535← error: internal error",
        1,
    ),
    (
        "names Block\n1 ASCII\n",
        "[:blk=65536:]",
        "err [:blk=65536← error: unknown property",
        1,
    ),
];

/// Whether the pattern has the answer under the tables of the syntax and these, and the run ends with the status of this
/// number.
fn is_resolved(
    alloc: Global,
    tables: &str,
    pattern: &str,
    answer: &str,
    code: u8,
) -> Result<bool, AllocError> {
    let input = format!(in alloc; "{SYNTAX}{tables}end\npat {pattern}\n")?;
    let expected = format!(in alloc; "{answer}\n")?;
    is_evaluated(alloc, input.into_bytes(), &expected, code)
}

#[test]
fn properties_are_resolved_by_the_tables_that_are_there(rt: HostRuntime) {
    for (tables, pattern, answer, code) in PARTIAL {
        let holds = is_resolved(rt.alloc(), tables, pattern, answer, *code);
        assert_holds(&rt, holds, pattern, answer);
    }
}
