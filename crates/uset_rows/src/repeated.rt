//! Sets that are named again and again, in one bracket and in several.
use crate::fixtures::{assert_holds, denotes, have_answer};
use std::alloc::{AllocError, Global};

/// The line that binds a set of 32 ranges and a string, which is put off until its bracket closes.
const LARGE: &str =
    "let v set [\\u{100 102 104 106 108 10A 10C 10E 110 112 114 116 118 11A 11C 11E 120 122 124 126 128 12A 12C 12E 130 132 134 136 138 13A 13C 13E}{xy}]";

/// The members of that set.
const MEMBERS: &str =
    "0100 0102 0104 0106 0108 010A 010C 010E 0110 0112 0114 0116 0118 011A 011C 011E 0120 0122 0124 0126 0128 012A 012C 012E 0130 0132 0134 0136 0138 013A 013C 013E {0078_0079}";

/// All other code points than those of the set.
const COMPLEMENT: &str =
    "0000-00FF 0101 0103 0105 0107 0109 010B 010D 010F 0111 0113 0115 0117 0119 011B 011D 011F 0121 0123 0125 0127 0129 012B 012D 012F 0131 0133 0135 0137 0139 013B 013D 013F-10FFFF";

/// Patterns over the set and over properties, which are asked in several words, each with the members that it denotes.
const DENOTED: &[(&str, &str)] = &[
    ("[$v$v]", MEMBERS),
    ("[$v-$v$v]", MEMBERS),
    ("[$v-[\\u0100\\u0104]$v]", MEMBERS),
    ("[$v[b]&$v]", MEMBERS),
    ("[$v[b{pq}]&$v[d]&$v]", MEMBERS),
    ("[$v[$v-$v]-$v[$v]]", MEMBERS),
    ("[$v&$v]", MEMBERS),
    ("[$v-$v]", ""),
    ("[$v&$v-$v]", ""),
    ("[$v-[\\u0100]-$v[\\u0102]]", "0102"),
    ("[b$v-$v]", "0062"),
    ("[$v[b]&$v[d]-$v]", "0064"),
    ("[$v{pq}[]-$v{rs}]", "{0070_0071} {0072_0073}"),
    ("[[:L:]$v-$v]", "0041-005A 0061-007A"),
    ("[$v\\p{L}-\\P{L}&\\p{L}]", "0041-005A 0061-007A"),
    ("[$v-\\P{L}\\P{L}&\\p{L}]", ""),
    ("[$v[a]-\\P{L}&\\p{L}\\P{L}-\\P{L}]", "0061"),
    ("[^$v-$v$v]", COMPLEMENT),
    ("[[$v-[\\u0100]][$v-[\\u0102]]]", MEMBERS),
    ("[[$v-[\\u0100]]-[$v-[\\u0102]]]", "0102"),
    (
        "[[$v-[\\u0100]]&[$v-[\\u0102]]-[\\u0104-\\u013E]]",
        "{0078_0079}",
    ),
    ("[[b$v]-[$v]]", "0062"),
    ("[[^$v]&[a-z$v]]", "0061-007A"),
    ("[[^$v]-[^$v]]", ""),
    ("[^[^$v][$v]]", ""),
    ("[[[:L:]-[a]][\\p{gc=letter}-[b]]]", "0041-005A 0061-007A"),
    (
        "[[\\p{L}-\\p{Lu}]&[\\p{General_Category=L}-[a]]]",
        "0062-007A",
    ),
    ("[[\\p{scx=Hiragana}]-[\\p{Hira}]]", "30FC"),
    ("[[\\p{Hira}]-[\\p{scx=Hiragana}]]", ""),
    ("[[\\P{L}]&[\\p{gc=L}]]", ""),
];

#[test]
fn a_set_that_is_named_again_counts_where_it_stands(rt: HostRuntime) {
    for (pattern, members) in DENOTED {
        let holds = denotes(rt.alloc(), LARGE, "v", pattern, members);
        assert_holds(&rt, holds, pattern, members);
    }
}

/// Patterns over the set that end with a property which they named before and don't close, each with what is wrong.
const UNCLOSED: &[(&str, &str)] = &[
    ("[$v\\p{L}\\p{L", "unexpected end of input"),
    ("[$v[:L:][:L:", "unexpected end of input"),
    ("[$v[:L:]-[:L:x", "unexpected character 'x'"),
];

/// Whether the pattern is refused with these words behind it.
fn is_unclosed(alloc: Global, pattern: &str, words: &str) -> Result<bool, AllocError> {
    let lines = format!(in alloc; "{LARGE}\npat {pattern}")?;
    let answer = format!(in alloc; "bound v\nerr {pattern}← error: {words}\n")?;
    have_answer(alloc, &lines, &answer, 1)
}

#[test]
fn a_property_that_is_named_again_is_closed_as_the_first_time(rt: HostRuntime) {
    for (pattern, words) in UNCLOSED {
        let holds = is_unclosed(rt.alloc(), pattern, words);
        assert_holds(&rt, holds, pattern, words);
    }
}
