//! Sets with so many strings that brackets which name them are terms.
use crate::fixtures::{assert_holds, denotes, have_answer};
use std::alloc::{AllocError, Global};

/// The line that binds a set of three letters and 64 strings.
const HUGE: &str =
    "let w set [a-c{aa}{ab}{ac}{ad}{ae}{af}{ag}{ah}{ba}{bb}{bc}{bd}{be}{bf}{bg}{bh}{ca}{cb}{cc}{cd}{ce}{cf}{cg}{ch}{da}{db}{dc}{dd}{de}{df}{dg}{dh}{ea}{eb}{ec}{ed}{ee}{ef}{eg}{eh}{fa}{fb}{fc}{fd}{fe}{ff}{fg}{fh}{ga}{gb}{gc}{gd}{ge}{gf}{gg}{gh}{ha}{hb}{hc}{hd}{he}{hf}{hg}{hh}]";

/// The members of that set.
const MEMBERS: &str =
    "0061-0063 {0061_0061} {0061_0062} {0061_0063} {0061_0064} {0061_0065} {0061_0066} {0061_0067} {0061_0068} {0062_0061} {0062_0062} {0062_0063} {0062_0064} {0062_0065} {0062_0066} {0062_0067} {0062_0068} {0063_0061} {0063_0062} {0063_0063} {0063_0064} {0063_0065} {0063_0066} {0063_0067} {0063_0068} {0064_0061} {0064_0062} {0064_0063} {0064_0064} {0064_0065} {0064_0066} {0064_0067} {0064_0068} {0065_0061} {0065_0062} {0065_0063} {0065_0064} {0065_0065} {0065_0066} {0065_0067} {0065_0068} {0066_0061} {0066_0062} {0066_0063} {0066_0064} {0066_0065} {0066_0066} {0066_0067} {0066_0068} {0067_0061} {0067_0062} {0067_0063} {0067_0064} {0067_0065} {0067_0066} {0067_0067} {0067_0068} {0068_0061} {0068_0062} {0068_0063} {0068_0064} {0068_0065} {0068_0066} {0068_0067} {0068_0068}";

/// Patterns over the set, each with the members that it denotes.
const DENOTED: &[(&str, &str)] = &[
    ("[$w]", MEMBERS),
    ("$w", MEMBERS),
    ("[[$w-[b]]&[a-z]]", "0061 0063"),
    ("[[$w-[b]]-[$w-[a{aa}]]]", "0061 {0061_0061}"),
    ("[[$w-[b]]&[$w-[a]]&[a-z{hh}{zz}]]", "0063 {0068_0068}"),
    ("[[b{aa}x]-[$w-[{aa}]]]", "0078 {0061_0061}"),
    ("[[ab]&[[$w]-[$w-[b]]]]", "0062"),
    ("[[a-c{aa}]&[$w-[$w-[$w-[b]]]]]", "0061 0063 {0061_0061}"),
    ("[[a-c]&[$w-[a]-[b]]]", "0063"),
    ("[$w&[ab{aa}]&[bc]]", "0062"),
    ("[[axy]&[$w-[a][x]]]", "0078"),
    ("[$w-[a]&[ab{ab}]-[b]]", "{0061_0062}"),
    ("[[$w{pq}]-[$w]]", "{0070_0071}"),
    ("[$w[$w]-$w]", ""),
    ("[[:L:]-[$w]]", "0041-005A 0064-007A"),
    ("[^$w]", "0000-0060 0064-10FFFF"),
    ("[^[^$w]]", "0061-0063"),
    ("[[^$w]&[a-e$w]]", "0064-0065"),
    ("[[^$w-[b]]&[a-c]]", "0062"),
    ("[$w[:^L:]&[a-e{aa}]]", "0061-0063 {0061_0061}"),
    ("[[$w&[:^L:]]{aa}x]", "0078 {0061_0061}"),
    (
        "[[$w[:L:]-[:^L:]]&[A-Cab{aa}{zz}]]",
        "0041-0043 0061-0062 {0061_0061}",
    ),
    ("[[$w-[:l:]]&[a{ab}]]", "{0061_0062}"),
    ("[^[$w[:^L:]]]", "0041-005A 0064-007A"),
];

#[test]
fn a_set_of_many_strings_counts_where_it_stands(rt: HostRuntime) {
    for (pattern, members) in DENOTED {
        let holds = denotes(rt.alloc(), HUGE, "w", pattern, members);
        assert_holds(&rt, holds, pattern, members);
    }
}

/// Whether the pattern denotes its members in front of so many empty brackets that its term is evaluated at once.
fn denotes_in_front(alloc: Global, pattern: &str, members: &str) -> Result<bool, AllocError> {
    let empty = "[$w-$w]".repeat(alloc, 16)?;
    let long = format!(in alloc; "[{pattern}{empty}]")?;
    denotes(alloc, HUGE, "w", &long, members)
}

#[test]
fn a_set_of_many_strings_counts_alike_in_long_patterns(rt: HostRuntime) {
    for (pattern, members) in DENOTED {
        let holds = denotes_in_front(rt.alloc(), pattern, members);
        assert_holds(&rt, holds, pattern, members);
    }
}

/// A pattern in which two texts stand a thousand times each.
struct Repeated {
    front: &'static str,
    first: &'static str,
    middle: &'static str,
    second: &'static str,
    end: &'static str,
    members: &'static str,
}

/// Names of the set in a thousand brackets.
const REPEATED: &[Repeated] = &[
    Repeated {
        front: "",
        first: "[$w-",
        middle: "[b]",
        second: "]",
        end: "",
        members: "0062",
    },
    Repeated {
        front: "[",
        first: "[$w-[b]]",
        middle: "&[a-c]",
        second: "",
        end: "]",
        members: "0061 0063",
    },
    Repeated {
        front: "[",
        first: "[^$w]",
        middle: "&[a-d]",
        second: "",
        end: "]",
        members: "0064",
    },
    Repeated {
        front: "[",
        first: "[$w[:^L:]]",
        middle: "&[a-e{aa}]",
        second: "",
        end: "]",
        members: "0061-0063 {0061_0061}",
    },
];

/// Whether the pattern denotes its members.
fn denotes_repeated(alloc: Global, row: &Repeated) -> Result<bool, AllocError> {
    let first = row.first.repeat(alloc, 1000)?;
    let second = row.second.repeat(alloc, 1000)?;
    let pattern = format!(in alloc; "{}{first}{}{second}{}", row.front, row.middle, row.end)?;
    denotes(alloc, HUGE, "w", &pattern, row.members)
}

#[test]
fn a_set_of_many_strings_may_be_named_in_a_thousand_brackets(rt: HostRuntime) {
    for row in REPEATED {
        let holds = denotes_repeated(rt.alloc(), row);
        assert_holds(&rt, holds, row.first, row.members);
    }
}

/// Patterns with many strings of their own, for which `N` stands, and what they denote.
const BESIDE_MANY: &[(&str, &str)] = &[
    ("[[$wN]&[a-c{aa}]]", "0061-0063 {0061_0061}"),
    ("[[$wN{zz}]-[N]-$w]", "{007A_007A}"),
    ("[$w&[{aa}N]]", "{0061_0061}"),
    ("[[N{ab}]&$w]", "{0061_0062}"),
    ("[[N]-[$wN]]", ""),
];

/// More than a thousand strings of four digits, as they stand in a bracket.
fn numerals(alloc: Global) -> Result<String, AllocError> {
    let mut text = String::new(alloc);
    for number in 1000..2100 {
        text.push_str(&format!(in alloc; "{{{number}}}")?)?;
    }
    Ok(text)
}

/// Whether the pattern denotes its members.
fn denotes_beside_many(alloc: Global, pattern: &str, members: &str) -> Result<bool, AllocError> {
    let pattern = pattern.replace(alloc, "N", &numerals(alloc)?)?;
    denotes(alloc, HUGE, "w", &pattern, members)
}

#[test]
fn a_set_of_many_strings_may_stand_beside_more_than_it_has(rt: HostRuntime) {
    for (pattern, members) in BESIDE_MANY {
        let holds = denotes_beside_many(rt.alloc(), pattern, members);
        assert_holds(&rt, holds, pattern, members);
    }
}

/// The lines that bind what names the set, or have text behind it.
const BOUND: &str = "let n set $w!\nlet n set [$w-[b]]]\nlet n set $w\npat [$n&[ad]]";

/// Whether these are the answers to the lines.
fn answered(alloc: Global, expected: &str) -> Result<bool, AllocError> {
    let lines = format!(in alloc; "{HUGE}\n{BOUND}")?;
    have_answer(alloc, &lines, expected, 1)
}

#[test]
fn text_behind_a_set_of_many_strings_is_told(rt: HostRuntime) {
    let alloc = rt.alloc();
    let expected =
        "bound w\nerr text after the set at byte 2\nerr text after the set at byte 8\nbound n\nok 9 0061\n";
    let holds = answered(alloc, expected);
    assert_holds(&rt, holds, BOUND, expected);
}
