//! Patterns that are refused, with the place of each fault.
use crate::fixtures::{
    assert_equal, assert_fault, assert_faults, assert_read, assert_unexpected, have_answer,
    is_refused,
};
use std::alloc::{AllocError, Global};
use std::process::Abort;

/// Patterns that end where more is due.
const ENDS: &[&str] = &[
    "",
    "$",
    "[",
    "[a-z[\\]]",
    "[a^",
    "[a-[b]",
    "[a-[b",
    "[a-[bc",
    "[a-[b ",
    "[a-",
    "[a",
    "[a ",
    "[ ",
    "[^",
    "[ - ",
    "[[a]",
    "[[a]&",
    "[{",
    "[{]",
    "[{ab}",
    "[\\",
    "[\\x",
    "[\\x6",
    "[\\u{",
    "[\\u{61",
    "[\\u{61 ",
    "[\\u006",
    "[\\U0000006",
    "[{\\x6",
    "[{\\u{D800 ",
    "[a{b",
    "[$a",
    "[$s",
    "[$",
];

/// Patterns with a character that cannot stand there, the last one of the front.
const UNEXPECTED: &[(&str, &str)] = &[
    ("[a^]", "[a^"),
    ("[a-[b^]]", "[a-[b^"),
    ("[a-[b]]", "[a-["),
    ("[a-[b]x", "[a-["),
    ("[a-{bc}", "[a-{"),
    ("[a-{}]", "[a-{"),
    ("[a&b]", "[a&"),
    ("[a-&]", "[a-&"),
    ("[&]", "[&"),
    ("[--a]", "[--a"),
    ("[a-b-z]", "[a-b-z"),
    ("[[set]&b]", "[[set]&b"),
    ("[[set]&]", "[[set]&]"),
    ("[[set]&&]", "[[set]&&"),
    ("[[a]-b]", "[[a]-b"),
    ("[{ab}-c]", "[{ab}-c"),
    ("[$a-$ ]", "[$a-$"),
    ("[$=]", "[$="),
    ("[$ a]", "[$ a"),
    ("[ ^]", "[ ^"),
    ("[z-y]", "[z-y"),
    ("[z-$a]", "[z-$a"),
    ("[z-$a", "[z-$a"),
    ("[\\xe5-ä]", "[\\xe5-ä"),
    ("[\\xag]", "[\\xag"),
    ("[\\x{6g}]", "[\\x{6g"),
    ("[\\x{g}]", "[\\x{g"),
    ("[\\x{}]", "[\\x{}"),
    ("[\\x{10ffff0}]", "[\\x{10ffff0"),
    ("[\\x{10ffff 1 10ffff0}]", "[\\x{10ffff 1 10ffff0"),
    ("[\\x{61 62}-d]", "[\\x{61 62}-d"),
    ("[\\u{61-62}]", "[\\u{61-"),
    ("[\\u00 61]", "[\\u00 "),
    ("ä", "ä"),
    ("a]", "a"),
    ("]", "]"),
    ("^", "^"),
    ("-", "-"),
    ("{a}", "{"),
    (" [a]", " "),
    ("\\x41", "\\x"),
    ("$=", "$"),
    ("$ a", "$"),
];

/// Patterns with their fronts and the words of their faults.
const OTHERS: &[(&str, &str, &str)] = &[
    ("[a-\\u{41 42}]", "[a-\\", "unexpected character '\\\\'"),
    ("[a-\\u{41 4", "[a-\\", "unexpected character '\\\\'"),
    (
        "[\\x{61 63}-\\x{62 64}]",
        "[\\x{61 63}-\\",
        "unexpected character '\\\\'",
    ),
    ("[\\xe5-\\xe4]", "[\\xe5-\\xe4", "unexpected character 'ä'"),
    (
        "[\\uD801-\\uD800]",
        "[\\uD801-\\uD800",
        "unexpected character '�'",
    ),
    (
        "[\\uE000-\\x{DFFF}]",
        "[\\uE000-\\x{DFFF}",
        "unexpected character '�'",
    ),
    ("[z-{a}]", "[z-{a}", "unexpected character 'a'"),
    ("[z-\\x{ 61 }]", "[z-\\x{ 61 }", "unexpected character 'a'"),
    ("[z-\\a]", "[z-\\a", "unexpected character '\\u{7}'"),
    ("[z-'", "[z-'", "unexpected end of input"),
    ("[z-']", "[z-'", "unexpected character '\\''"),
    ("[\\N{DASH}]", "[\\N", "unimplemented"),
    ("[\\N", "[\\N", "unimplemented"),
    ("[{\\N}]", "[{\\N", "unimplemented"),
    ("[{a\\N", "[{a\\N", "unimplemented"),
];

/// Patterns with an escape that is no code point, or no character in a string.
const INVALID: &[(&str, &str)] = &[
    ("[\\x{dabeef}]", "[\\x{dabeef"),
    ("[\\x{11ffff}]", "[\\x{11ffff"),
    ("[\\x{11ffff", "[\\x{11ffff"),
    ("[\\U00110000]", "[\\U00110000"),
    ("[\\x{61 110000}]", "[\\x{61 110000"),
    ("[{\\uD800}]", "[{\\"),
    ("[{a\\x{DFFF}}]", "[{a\\"),
    ("[{\\u{D800 62}}]", "[{\\"),
    ("[{\\u{D800 6", "[{\\"),
    ("[{\\u{61 62 D800 63}}]", "[{\\u{61 62 D"),
    ("[{\\u{61 D800}}]", "[{\\u{61 D"),
    ("[{\\u{61 D800 ", "[{\\u{61 D"),
];

/// Patterns with a variable that is bound to nothing.
const UNKNOWN: &[(&str, &str)] = &[
    ("[$zz]", "[$zz"),
    ("[$zz", "[$zz"),
    ("$zz", "$zz"),
    ("[$zz x]", "[$zz"),
    ("[$ab]", "[$ab"),
    ("[a-$zz]", "[a-$zz"),
    ("[$A]", "[$A"),
    ("[$a_]", "[$a_"),
    ("$sx", "$sx"),
];

/// Patterns with a variable that cannot stand there.
const UNFIT: &[(&str, &str)] = &[
    ("[$$a]", "[$$a"),
    ("$a", "$a"),
    ("$v", "$v"),
    ("$a]", "$a"),
    ("[$v-$a]", "[$v-$a"),
    ("[$s-$a]", "[$s-$a"),
    ("[$a-$s]", "[$a-$s"),
    ("[a-$s]", "[a-$s"),
    ("[a-$v]", "[a-$v"),
    ("[a-$s", "[a-$s"),
    ("[$s&$v]", "[$s&$v"),
    ("[--$a]", "[--$a"),
];

/// Each pattern is answered with its end as its fault.
fn assert_ends(rt: &impl Abort, alloc: Global, patterns: &[&str]) {
    for pattern in patterns {
        assert_fault(rt, alloc, pattern, pattern, "unexpected end of input");
    }
}

/// Each pattern is refused with the words behind the front beside it.
fn assert_others(rt: &impl Abort, alloc: Global, rows: &[(&str, &str, &str)]) {
    for (pattern, front, words) in rows {
        assert_fault(rt, alloc, pattern, front, words);
    }
}

#[test]
fn faults_stand_at_their_places(rt: HostRuntime) {
    let alloc = rt.alloc();
    assert_ends(&rt, alloc, ENDS);
    assert_others(&rt, alloc, OTHERS);
    assert_unexpected(&rt, alloc, UNEXPECTED);
    assert_faults(&rt, alloc, INVALID, "invalid escape sequence");
    assert_faults(&rt, alloc, UNKNOWN, "unknown variable");
    assert_faults(&rt, alloc, UNFIT, "unexpected variable");
}

/// A pattern of one string in a complement.
const WHOLE: &str = "[^{h\\u{65}llo\\ world}]";

/// The first front of that pattern that is not answered with its end as its fault.
fn front_with_another_fault(alloc: Global) -> Result<Option<String>, AllocError> {
    let mut front = String::new(alloc);
    for c in WHOLE.chars() {
        if !is_refused(alloc, &front, &front, "unexpected end of input")? {
            return Ok(Some(front));
        }
        front.push(c)?;
    }
    Ok(None)
}

#[test]
fn each_front_of_a_pattern_ends_where_more_is_due(rt: HostRuntime) {
    assert_equal(&rt, front_with_another_fault(rt.alloc()), Ok(None));
    assert_read(&rt, rt.alloc(), &[(WHOLE, "22 0000-10FFFF")]);
}

/// Whether a name of a million letters is read to its end, unbound and bound.
fn is_read_to_its_end(alloc: Global) -> Result<bool, AllocError> {
    let name = "a".repeat(alloc, 1_000_000)?;
    let lines = format!(in alloc; "pat [${name}]\nlet {name} char 62\npat [${name}]")?;
    let expected = format!(in alloc;
        "err [${name}← error: unknown variable\nbound {name}\nok 1000003 0062\n"
    )?;
    have_answer(alloc, &lines, &expected, 1)
}

#[test]
fn a_name_of_a_million_letters_is_read_to_its_end(rt: HostRuntime) {
    assert_equal(&rt, is_read_to_its_end(rt.alloc()), Ok(true));
}
