//! The examples of docs/PATTERNS.md, and the scripts examples/script.txt and examples/first.txt.
use crate::fixtures::{assert_equal, is_evaluated};
use std::alloc::{AllocError, Global};

/// The tables of the document, as a text: those of examples/tables.txt.
const TABLES: &str =
    "set XID_Start\n41-5A\n61-7A\nset XID_Continue\n30-39\n41-5A\n5F\n61-7A\nset Pattern_White_Space\n9-D\n20\n85\n200E-200F\n2028-2029\nset ASCII_Hex_Digit\n30-39\n41-46\n61-66\nmap General_Category 0\n30-39 9\n41-5A 1\n61-7A 2\nD800-DFFF 18\nnames General_Category_Mask\n1 Lu\n1 Uppercase_Letter\n2 Ll\n2 Lowercase_Letter\n9 Nd\n9 Decimal_Number\n65534 L\n65534 Letter\nmap Script 103\n41-5A 25\n61-7A 25\n3041-3096 20\n30A1-30FA 22\n30FC 0\nnames Script\n25 Latn\n25 Latin\n20 Hira\n20 Hiragana\n22 Kana\n22 Katakana\n0 Zyyy\n0 Common\nscx 103\n41-5A 25\n61-7A 25\n3041-3096 20\n30A1-30FA 22\n30FC 1024\next 0\n20\n22\nmap Canonical_Combining_Class 0\n300-314 230\nnames Canonical_Combining_Class\n230 A\n230 Above\nmap Block 0\n0-7F 1\nnames Block\n1 ASCII\n1 Basic_Latin\nmap East_Asian_Width 0\n3041-3096 5\nnames East_Asian_Width\n5 W\n5 Wide\nmap Line_Break 0\n20 26\nnames Line_Break\n26 SP\n26 Space\nmap Grapheme_Cluster_Break 0\nD 2\nnames Grapheme_Cluster_Break\n2 CR\nmap Word_Break 0\n30-39 6\nnames Word_Break\n6 NU\n6 Numeric\nmap Sentence_Break 0\n61-7A 4\nnames Sentence_Break\n4 LO\n4 Lower\nmap Indic_Conjunct_Break 0\n94D 3\nnames Indic_Conjunct_Break\n3 Linker\nend\n";

/// Each line of the script and its answer, in the order of the document.
const EXAMPLES: &[(&str, &str)] = &[
    // Brackets
    ("pat []", "ok 2"),
    ("pat [a-z0]", "ok 6 0030 0061-007A"),
    ("pat [a b  c]", "ok 8 0061-0063"),
    ("pat [^a-z]", "ok 6 0000-0060 007B-10FFFF"),
    ("pat [-a]", "ok 4 002D 0061"),
    ("pat [a-]", "ok 4 002D 0061"),
    ("pat [a$]", "ok 4 0061 FFFF"),
    ("pat [a:}]", "ok 5 003A 0061 007D"),
    // Escapes
    ("pat [\\u0061]", "ok 8 0061"),
    ("pat [\\x61]", "ok 6 0061"),
    ("pat [\\U00000061]", "ok 12 0061"),
    ("pat [\\u{61}]", "ok 8 0061"),
    ("pat [\\x{61 0062   063}]", "ok 19 0061-0063"),
    ("pat [\\n\\t]", "ok 6 0009-000A"),
    ("pat [\\-\\]]", "ok 6 002D 005D"),
    ("pat [\\uD800-\\uD8FF]", "ok 15 D800-D8FF"),
    // Strings
    ("pat [{ch}a]", "ok 7 0061 {0063_0068}"),
    ("pat [{a}]", "ok 5 0061"),
    ("pat [{}]", "ok 4 {}"),
    ("pat [{a \\  b}]", "ok 10 {0061_0020_0062}"),
    // Sets in sets
    ("pat [[a-c][x-z]]", "ok 12 0061-0063 0078-007A"),
    ("pat [[a-z]-[b-y]]", "ok 13 0061 007A"),
    ("pat [[a-z]&[x-z0]]", "ok 14 0078-007A"),
    ("pat [a-z[b]&[a-d]-[c]]", "ok 18 0061-0062 0064"),
    ("pat [[a{ch}]-[{ch}]]", "ok 16 0061"),
    // Properties
    ("pat [:Lu:]", "ok 6 0041-005A"),
    ("pat [:uppercase letter:]", "ok 20 0041-005A"),
    ("pat [:L:]", "ok 5 0041-005A 0061-007A"),
    ("pat \\p{letter}", "ok 10 0041-005A 0061-007A"),
    ("pat [:Hira:]", "ok 8 3041-3096"),
    ("pat \\p{hiragana}", "ok 12 3041-3096"),
    ("pat [:AHex:]", "ok 8 0030-0039 0041-0046 0061-0066"),
    ("pat \\p{AHex}", "ok 8 0030-0039 0041-0046 0061-0066"),
    (
        "pat [:^AHex:]",
        "ok 9 0000-002F 003A-0040 0047-0060 0067-10FFFF",
    ),
    (
        "pat \\P{AHex}",
        "ok 8 0000-002F 003A-0040 0047-0060 0067-10FFFF",
    ),
    ("pat [[:L:]-[:Lu:]&[a-f]]", "ok 20 0061-0066"),
    (
        "pat [: A Hex = Yes :]",
        "ok 17 0030-0039 0041-0046 0061-0066",
    ),
    (
        "pat \\p{AHex=no}",
        "ok 11 0000-002F 003A-0040 0047-0060 0067-10FFFF",
    ),
    (
        "pat \\p{AHex≠yes}",
        "ok 14 0000-002F 003A-0040 0047-0060 0067-10FFFF",
    ),
    ("pat [:gc=Lu:]", "ok 9 0041-005A"),
    ("pat [:sc=Hira:]", "ok 11 3041-3096"),
    ("pat [:scx=Hira:]", "ok 12 3041-3096 30FC"),
    ("pat [:ccc=Above:]", "ok 13 0300-0314"),
    ("pat [:ccc=230:]", "ok 11 0300-0314"),
    ("pat [:blk=Basic Latin:]", "ok 19 0000-007F"),
    ("pat [:blk=+1:]", "ok 10 0000-007F"),
    ("pat [:ea=Wide:]", "ok 11 3041-3096"),
    ("pat [:lb=SP:]", "ok 9 0020"),
    ("pat [:GCB=CR:]", "ok 10 000D"),
    ("pat [:WB=Numeric:]", "ok 14 0030-0039"),
    ("pat [:SB=Lower:]", "ok 12 0061-007A"),
    ("pat [:InCB=Linker:]", "ok 15 094D"),
    // Variables
    ("let a char 61", "bound a"),
    ("let ch str 63 68", "bound ch"),
    ("let vowels set [aeiou]", "bound vowels"),
    ("pat [$a-z]", "ok 6 0061-007A"),
    ("pat [$ch]", "ok 5 {0063_0068}"),
    (
        "pat [[a-z]-$vowels]",
        "ok 15 0062-0064 0066-0068 006A-006E 0070-0074 0076-007A",
    ),
    ("pat $vowels;", "ok 7 0061 0065 0069 006F 0075"),
    ("let a char 62", "err a is bound"),
    ("let b set [a]x", "err text after the set at byte 3"),
    // Ranges
    ("pat [a - c]", "ok 7 0061-0063"),
    ("pat [a-a]", "ok 5 0061"),
    ("pat [{a}-\\x63]", "ok 10 0061-0063"),
    ("pat [A-$a]", "ok 6 0041-0061"),
    ("pat [b-a]", "err [b-a← error: unexpected character 'a'"),
    (
        "pat [b-\\x61]",
        "err [b-\\x61← error: unexpected character 'a'",
    ),
    ("pat [b-$a]", "err [b-$a← error: unexpected character 'a'"),
    ("pat [a-[b]]", "err [a-[← error: unexpected character '['"),
    (
        "pat [a-\\p{L}]",
        "err [a-\\← error: unexpected character '\\\\'",
    ),
    (
        "pat [a-$vowels]",
        "err [a-$vowels← error: unexpected variable",
    ),
    ("pat [a-{bc}]", "err [a-{← error: unexpected character '{'"),
    ("pat [a-{}]", "err [a-{← error: unexpected character '{'"),
    ("pat [a-$ch]", "err [a-$ch← error: unexpected variable"),
    (
        "pat [a-\\x{62 63}]",
        "err [a-\\← error: unexpected character '\\\\'",
    ),
    (
        "pat [{ab}-c]",
        "err [{ab}-c← error: unexpected character 'c'",
    ),
    (
        "pat [\\x{61 62}-c]",
        "err [\\x{61 62}-c← error: unexpected character 'c'",
    ),
    ("pat [a-b-c]", "err [a-b-c← error: unexpected character 'c'"),
    // Faults
    ("pat [a", "err [a← error: unexpected end of input"),
    ("pat [z-a]", "err [z-a← error: unexpected character 'a'"),
    ("pat [a-[b]]", "err [a-[← error: unexpected character '['"),
    ("pat [\\N{DASH}]", "err [\\N← error: unimplemented"),
    (
        "pat [\\x{dabeef}]",
        "err [\\x{dabeef← error: invalid escape sequence",
    ),
    ("pat [$zz]", "err [$zz← error: unknown variable"),
    ("pat [:zz:]", "err [:zz← error: unknown property"),
    (
        "pat [:gc=Klingon:]",
        "err [:gc=Klingon← error: unknown property",
    ),
    // What stands behind a pattern
    ("pat [a]b", "ok 3 0061"),
    ("pat [a]]", "ok 3 0061"),
    ("pat $vowels;", "ok 7 0061 0065 0069 006F 0075"),
];

/// Each line of examples/script.txt but its comments, and its answer, as in examples/answers.txt.
const SCRIPT: &[(&str, &str)] = &[
    ("pat [a-z0]", "ok 6 0030 0061-007A"),
    ("pat [a-c] what follows is free", "ok 5 0061-0063"),
    ("pat [[a-c][x-z]]", "ok 12 0061-0063 0078-007A"),
    (
        "pat [[a-z]-[aeiou]]",
        "ok 15 0062-0064 0066-0068 006A-006E 0070-0074 0076-007A",
    ),
    ("pat [[a-m]&[^a-f]]", "ok 14 0067-006D"),
    ("pat [[[a-z]-[m-p]]&[k-s]]", "ok 21 006B-006C 0071-0073"),
    (
        "pat [\\u{1F600} \\x41 \\t \\-]",
        "ok 22 0009 002D 0041 1F600",
    ),
    ("pat [a{ch}{}{b}]", "ok 12 0061-0062 {} {0063_0068}"),
    ("pat [[a{ch}{ll}]-[{ch}]]", "ok 20 0061 {006C_006C}"),
    ("pat [:AHex:]", "ok 8 0030-0039 0041-0046 0061-0066"),
    ("pat [[a-z]&\\P{AHex}]", "ok 16 0067-007A"),
    ("let dash char 2D", "bound dash"),
    ("let ch str 63 68", "bound ch"),
    ("let vowels set [aeiou]", "bound vowels"),
    ("pat [[a-f]-$vowels]", "ok 15 0062-0064 0066"),
    ("pat [$dash $ch]", "ok 11 002D {0063_0068}"),
    ("let vowels set [aeiouy]", "err vowels is bound"),
    ("pat [a-z", "err [a-z← error: unexpected end of input"),
    ("pat [z-a]", "err [z-a← error: unexpected character 'a'"),
    (
        "pat [[a-z]-$consonants]",
        "err [[a-z]-$consonants← error: unknown variable",
    ),
    (
        "pat [[a-z]&[:Vowel:]]",
        "err [[a-z]&[:Vowel← error: unknown property",
    ),
    ("set [a-z]", "err bad line"),
    ("let start set [[:Latn:]&[:L:][_]]", "bound start"),
    ("let more set [$start[:Nd:][:ccc=Above:]]", "bound more"),
    ("let medial set [\\-.]", "bound medial"),
    ("pat $start", "ok 6 0041-005A 005F 0061-007A"),
    (
        "pat [$more$medial]",
        "ok 14 002D-002E 0030-0039 0041-005A 005F 0061-007A 0300-0314",
    ),
    ("pat [$start-[:Lu:]]", "ok 15 005F 0061-007A"),
    (
        "pat [[:scx=Hira:][:scx=Kana:]]",
        "ok 26 3041-3096 30A1-30FA 30FC",
    ),
    ("pat [[:sc=Hira:]&[\\u30FC]]", "ok 22"),
    (
        "pat [$more-[:Nt:]]",
        "err [$more-[:Nt← error: unknown property",
    ),
];

/// Each line of examples/first.txt, and its answer, as in README.md.
const FIRST: &[(&str, &str)] = &[
    ("let vowels set [aeiou]", "bound vowels"),
    (
        "pat [[:Latn:]-[:Lu:]-$vowels]",
        "ok 25 0062-0064 0066-0068 006A-006E 0070-0074 0076-007A",
    ),
    ("pat [a-z0", "err [a-z0← error: unexpected end of input"),
    ("pat [a-z0]", "ok 6 0030 0061-007A"),
];

/// The tables and the lines of the rows, and their answers.
fn script_and_answers(
    alloc: Global,
    rows: &[(&str, &str)],
) -> Result<(String, String), AllocError> {
    let mut script = String::from_str(alloc, TABLES)?;
    let mut answers = String::new(alloc);
    for (line, answer) in rows {
        push_line(&mut script, line)?;
        push_line(&mut answers, answer)?;
    }
    Ok((script, answers))
}

fn push_line(text: &mut String, line: &str) -> Result<(), AllocError> {
    text.push_str(line)?;
    text.push('\n')
}

/// Whether the lines, as one script, have these answers.
fn have_their_answers(alloc: Global, rows: &[(&str, &str)]) -> Result<bool, AllocError> {
    let (script, answers) = script_and_answers(alloc, rows)?;
    is_evaluated(alloc, script.into_bytes(), &answers, 1)
}

#[test]
fn examples_of_the_guide_have_their_answers(rt: HostRuntime) {
    assert_equal(&rt, have_their_answers(rt.alloc(), EXAMPLES), Ok(true));
}

#[test]
fn the_script_to_start_from_has_its_answers(rt: HostRuntime) {
    assert_equal(&rt, have_their_answers(rt.alloc(), SCRIPT), Ok(true));
}

#[test]
fn the_first_script_has_its_answers(rt: HostRuntime) {
    assert_equal(&rt, have_their_answers(rt.alloc(), FIRST), Ok(true));
}
