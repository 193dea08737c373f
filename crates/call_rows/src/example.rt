//! The example of README.md.
use crate::fixtures::assert_equal;
use cp_strset::CodePointInversionListAndStringList;
use prop_data::PropertyDatabase;
use std::alloc::Global;
use std::test::Fail;
use uset_parse::{InsertError, VariableMap, parse_with_variables};

/// The tables of the pattern syntax, for ASCII.
const TABLES: &str = "set Pattern_White_Space\n9-D\n20\n\
    set XID_Start\n41-5A\n61-7A\n\
    set XID_Continue\n30-39\n41-5A\n5F\n61-7A\n\
    end\n";

/// Appends the ranges of a set, one a line.
fn push_ranges(text: &mut String, set: &CodePointInversionListAndStringList) -> Result<(), Fail> {
    for range in set.code_points().iter_ranges() {
        write!(text, "{:04X}-{:04X}\n", range.start, range.end)?;
    }
    Ok(())
}

/// Appends the strings of a set, one a line.
fn push_strings(text: &mut String, set: &CodePointInversionListAndStringList) -> Result<(), Fail> {
    for string in set.strings() {
        write!(text, "{string}\n")?;
    }
    Ok(())
}

/// What a set is asked, its ranges, and then its strings.
fn shown(
    alloc: Global,
    set: &CodePointInversionListAndStringList,
    length: usize,
) -> Result<String, Fail> {
    let mut text = format!(in alloc;
        "{length} bytes, b: {}, a: {}, ch: {}\n",
        set.contains('b'),
        set.contains('a'),
        set.contains_str("ch")
    )?;
    push_ranges(&mut text, set)?;
    push_strings(&mut text, set)?;
    Ok(text)
}

/// A variable that is a string.
fn digraph(alloc: Global) -> Result<VariableMap, Fail> {
    let mut variables = VariableMap::new(alloc);
    let name = String::from_str(alloc, "digraph")?;
    match variables.insert_str(name, "ch") {
        Ok(()) => {}
        Err(InsertError::Present(_)) => return Err("the name is bound".into()),
        Err(InsertError::NoMemory) => return Err("there is no memory for it".into()),
    }
    Ok(variables)
}

/// What the consonants are.
fn consonants(
    alloc: Global,
    variables: &VariableMap,
    database: &PropertyDatabase,
) -> Result<String, Fail> {
    let source = "[[a-z $digraph]-[aeiou]] and what follows is free";
    let (set, length) = parse_with_variables(alloc, source, variables, database)?;
    shown(alloc, &set, length)
}

/// The same, of the tables and the variable.
fn example(alloc: Global) -> Result<String, Fail> {
    let database = PropertyDatabase::from_text(alloc, TABLES)?;
    let variables = digraph(alloc)?;
    consonants(alloc, &variables, &database)
}

#[test]
fn the_example_of_the_guide_has_its_answer(rt: HostRuntime) -> Result<(), Fail> {
    let text = example(rt.alloc())?;
    let expected = "24 bytes, b: true, a: false, ch: true\n\
        0062-0064\n0066-0068\n006A-006E\n0070-0074\n0076-007A\nch\n";
    assert_equal(&rt, text.as_str(), expected);
    Ok(())
}
