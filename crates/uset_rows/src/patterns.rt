//! Patterns that are read, with their ranges and strings.
use crate::fixtures::{assert_answers, assert_equal, assert_read, have_answer};
use std::alloc::{AllocError, Global};

/// Characters, ranges, escapes, hyphens and dollar signs.
const CODE_POINTS: &[(&str, &str)] = &[
    ("[a-z0]", "6 0030 0061-007A"),
    ("[a-b-] x", "6 002D 0061-0062"),
    ("[ - a]", "6 002D 0061"),
    ("[\\x{61 0062   063}]", "19 0061-0063"),
    (
        "[\\x{ 61 }\\u{000062}\\x63\\u0064\\U00000065]",
        "40 0061-0065",
    ),
    ("[\\x{61 63}-]", "12 002D 0061 0063"),
    ("[\\x{D800 D801 D802}]", "20 D800-D802"),
    ("[\\uD800-\\uD8FF]", "15 D800-D8FF"),
    ("[^\\uD800-\\uE0FF]", "16 0000-D7FF E100-10FFFF"),
    ("[\\a\\b\\t\\n\\v\\f\\r]", "16 0007-000D"),
    ("[\\ \\]\\-\\^]", "10 0020 002D 005D-005E"),
    ("[ :L:]", "6 003A 004C"),
    ("[a\u{85}\u{200E}-\u{2029}b]", "13 0061-0062"),
    ("[ä\u{10FFFF}]", "8 00E4 10FFFF"),
    ("[$]", "3 FFFF"),
    ("[--]", "4 002D"),
    ("[-]", "3 002D"),
    ("[]", "2"),
    ("[]x", "2"),
    ("[^]", "3 0000-10FFFF"),
    ("[  - -  ]", "9 002D"),
    ("[a$ ]", "5 0061 FFFF"),
    ("[\\$a]", "5 0024 0061"),
    ("[a-a]", "5 0061"),
    ("[\\x00-\\U0010FFFF]", "17 0000-10FFFF"),
];

/// Sets inside a set.
const SETS: &[(&str, &str)] = &[
    ("[$a$ ]", "6 0061 FFFF"),
    ("[[a-a][b-z] - [a-d][e-z]]", "25 0065-007A"),
    ("[[a-a][b-z] - [a-z][]]", "22"),
    ("[-[a-z]&[b]]", "12 0062"),
    ("[^[^a-z]]", "9 0061-007A"),
    ("[[a-b]-]", "8 002D 0061-0062"),
    ("[^[^ $ ]]", "9 FFFF"),
    ("[[a-z]-[a-b]-[y-z]]", "19 0063-0078"),
    ("[[a-a][b-z] & [a-b][x-z]]", "25 0061-0062 0078-007A"),
    ("[[a-z]&[a-m]-[c]]", "17 0061-0062 0064-006D"),
    ("[a-ce[x]-[a-b x]f]", "18 0063 0065-0066"),
    ("[[a]$]", "6 0061 FFFF"),
    ("[[a]b-d]", "8 0061-0064"),
    ("[[a-z]&[^c]]", "12 0061-0062 0064-007A"),
    ("[$s&[b-c]-[c]]", "14 0062"),
];

/// Strings.
const STRINGS: &[(&str, &str)] = &[
    ("[a-z\\]{[}] []", "10 005B 005D 0061-007A"),
    (
        "[[a-z{abc}]&[b-z{abc}{abx}]]",
        "28 0062-007A {0061_0062_0063}",
    ),
    ("[{}}]", "5 007D {}"),
    ("[^{h\\u{65}llo\\ world}]", "22 0000-10FFFF"),
    ("[{ab}-]", "7 002D {0061_0062}"),
    ("[{{}]", "5 007B"),
    ("[ { [ a - z } ]", "15 {005B_0061_002D_007A}"),
    ("[{bc}{}{ab}a]", "13 0061 {} {0061_0062} {0062_0063}"),
    ("[{}{}{ab}{ab}]", "14 {} {0061_0062}"),
    ("[{a}-{\\x63}]", "12 0061-0063"),
    ("[{ \\x{61 62}\\p\\P\\ }]", "20 {0061_0062_0070_0050_0020}"),
    ("[{$a}{^&-]}]", "12 {0024_0061} {005E_0026_002D_005D}"),
    ("[[{ab}{bc}]-[{ab}]]", "19 {0062_0063}"),
    ("[[{ab}{bc}x]&[{bc}x-z]]", "23 0078 {0062_0063}"),
    ("[-{ab}[x]&[{ab}]]", "17 {0061_0062}"),
    ("[{ab}[^{ab}]&[{ab}c]]", "21 0063 {0061_0062}"),
    ("[{ä\u{10000}}]", "10 {00E4_10000}"),
];

#[test]
fn patterns_are_answered_with_their_ranges_and_strings(rt: HostRuntime) {
    assert_read(&rt, rt.alloc(), CODE_POINTS);
    assert_read(&rt, rt.alloc(), SETS);
    assert_read(&rt, rt.alloc(), STRINGS);
}

/// Lines without an answer, and other ends of lines.
const LINES: &[(&str, &str)] = &[
    ("# a comment", ""),
    ("", ""),
    ("\n#\npat [b]\r\n\r\npat [a]", "ok 3 0062\nok 3 0061\n"),
];

#[test]
fn lines_without_an_answer_and_other_ends_of_lines_are_read(rt: HostRuntime) {
    assert_answers(&rt, rt.alloc(), LINES, 0);
}

/// Whether ten thousand patterns are answered one after another.
fn are_answered_in_order(alloc: Global) -> Result<bool, AllocError> {
    let lines = "pat [a-z0]\npat [b]\n".repeat(alloc, 5_000)?;
    let answers = "ok 6 0030 0061-007A\nok 3 0062\n".repeat(alloc, 5_000)?;
    have_answer(alloc, &lines, &answers, 0)
}

#[test]
fn answers_of_more_than_a_piece_are_written_in_order(rt: HostRuntime) {
    assert_equal(&rt, are_answered_in_order(rt.alloc()), Ok(true));
}
