//! Sets of so many ranges that they have an index: of a table, of a value of a map, and of a variable.
use crate::fixtures::{SYNTAX, assert_holds, is_evaluated};
use std::alloc::{AllocError, Global};

/// How many ranges each of the sets has, of one code point each.
const COUNT: u32 = 16_384;

/// Rows of so many code points, every second one from the first on, each with this text behind it.
fn rows(alloc: Global, first: u32, behind: &str) -> Result<String, AllocError> {
    let mut text = String::new(alloc);
    for index in 0..COUNT {
        let row = format!(in alloc; "{:X}{behind}\n", first.saturating_add(2 * index))?;
        text.push_str(&row)?;
    }
    Ok(text)
}

/// The escape of so many code points, every third one from the first on.
fn escape(alloc: Global, first: u32) -> Result<String, AllocError> {
    let mut text = String::from_str(alloc, "\\u{")?;
    for index in 0..COUNT {
        let number = format!(in alloc; "{:X} ", first.saturating_add(3 * index))?;
        text.push_str(&number)?;
    }
    text.push('}')?;
    Ok(text)
}

/// Patterns over the letters, 10000, 10002 and so on, the other letters, 10001, 10003 and so on, and a variable, 10000, 10003
/// and so on, each with the members that it denotes.
const DENOTED: &[(&str, &str)] = &[
    ("[\\p{Alphabetic}&\\p{Lo}]", ""),
    (
        "[$v&\\p{Alphabetic}&[\\u{10000}-\\u{1000F}]]",
        "10000 10006 1000C",
    ),
    ("[$v&\\p{Lo}&[\\u{10000}-\\u{1000F}]]", "10003 10009 1000F"),
    (
        "[$v-\\p{Alphabetic}-\\p{Lo}&[\\u{18000}-\\u{18005}]]",
        "18001 18004",
    ),
    (
        "[[\\p{Alphabetic}\\p{Lo}]-[\\u{10001}-\\u{17FFE}]]",
        "10000 17FFF",
    ),
    (
        "[^\\P{Alphabetic}\\p{Lo}[\\u{10004}-\\u{17FFF}]]",
        "10000 10002",
    ),
    ("[[^$v]&[\\u{1BFFC}-\\u{1BFFE}]]", "1BFFC 1BFFE"),
];

/// The lines that bind the variable and read the patterns, behind the tables.
fn input(alloc: Global) -> Result<String, AllocError> {
    let letters = rows(alloc, 0x1_0000, "")?;
    let others = rows(alloc, 0x1_0001, " 5")?;
    let variable = escape(alloc, 0x1_0000)?;
    let names = "names General_Category_Mask\n5 Lo\n";
    let mut text = format!(in alloc;
        "{SYNTAX}set Alphabetic\n{letters}map General_Category 0\n{others}{names}end\nlet v set [{variable}]\n"
    )?;
    for (pattern, _) in DENOTED {
        let line = format!(in alloc; "pat {pattern}\n")?;
        text.push_str(&line)?;
    }
    Ok(text)
}

/// The answers to these lines.
fn answers(alloc: Global) -> Result<String, AllocError> {
    let mut text = String::from_str(alloc, "bound v\n")?;
    for (pattern, members) in DENOTED {
        let space = if members.is_empty() { "" } else { " " };
        let line = format!(in alloc; "ok {}{space}{members}\n", pattern.len())?;
        text.push_str(&line)?;
    }
    Ok(text)
}

/// Whether each pattern denotes its members.
fn are_denoted(alloc: Global) -> Result<bool, AllocError> {
    is_evaluated(alloc, input(alloc)?.into_bytes(), &answers(alloc)?, 0)
}

#[test]
fn sets_with_an_index_have_their_members(rt: HostRuntime) {
    let holds = are_denoted(rt.alloc());
    assert_holds(&rt, holds, "sets of 16,384 ranges", "their members");
}
