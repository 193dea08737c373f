//! Sets written as patterns, and read back.
use crate::fixtures::{NO_TABLES, Row, assert_rows_of_text, set_of, set_of_numerals};
use cp_strset::CodePointInversionListAndStringList;
use prop_data::PropertyDatabase;
use row_fixtures::EVERY_KIND;
use std::alloc::Global;
use uset_parse::{ParseError, ParseErrorKind, VariableMap, parse, read_back};

/// Whether the pattern of the set is this text.
fn is_written(alloc: Global, set: &CodePointInversionListAndStringList, text: &str) -> bool {
    match set.to_pattern(alloc) {
        Ok(pattern) => pattern.as_str() == text,
        Err(_) => false,
    }
}

/// Whether the text is read as the set, and all of it.
fn is_read(
    alloc: Global,
    set: &CodePointInversionListAndStringList,
    text: &str,
    database: &PropertyDatabase,
) -> bool {
    match parse(alloc, text, database) {
        Ok((read, length)) => length == text.len() && read == *set,
        Err(_) => false,
    }
}

/// An inversion list, strings, and the pattern of both, which is read back.
type Written = (&'static [u32], &'static [&'static str], &'static str);

impl Row<PropertyDatabase> for Written {
    fn holds(&self, alloc: Global, database: &PropertyDatabase) -> bool {
        let (list, texts, pattern) = *self;
        match set_of(alloc, list, texts) {
            Some(set) => {
                is_written(alloc, &set, pattern) && is_read(alloc, &set, pattern, database)
            }
            None => false,
        }
    }
}

const WRITTEN: &[Written] = &[
    (&[], &[], "[]"),
    (&[0xD800, 0xD801], &[""], "[\\u{d800}{}]"),
    (
        &[0, 0x11_0000],
        &["\0A"],
        "[\\u{0}-\\u{10ffff}{\\u{0}\\u{41}}]",
    ),
    (
        &[0x2D, 0x2E, 0x61, 0x64],
        &["", "ab"],
        "[\\u{2d}\\u{61}-\\u{63}{}{\\u{61}\\u{62}}]",
    ),
    (
        &[0x61, 0x63, 0x10_FFFF, 0x11_0000],
        &[],
        "[\\u{61}-\\u{62}\\u{10ffff}]",
    ),
];

#[test]
fn a_set_is_written_and_read_back(rt: HostRuntime) {
    assert_rows_of_text(&rt, rt.alloc(), EVERY_KIND, WRITTEN);
}

/// The inversion list of each thousandth code point.
fn thousandths(alloc: Global) -> Option<Vec<u32>> {
    let mut list = Vec::new(alloc);
    for step in 0..1_114u32 {
        let code_point = step.saturating_mul(1_000);
        let Ok(()) = list.extend_from_slice(&[code_point, code_point.saturating_add(1)]) else {
            return None;
        };
    }
    Some(list)
}

/// Each thousandth code point, and a thousand strings.
fn large_set(alloc: Global) -> Option<CodePointInversionListAndStringList> {
    let list = thousandths(alloc)?;
    set_of_numerals(alloc, &list, 0, 1_000)
}

/// Whether the pattern of the set has so many bytes.
fn has_length(alloc: Global, set: &CodePointInversionListAndStringList, length: usize) -> bool {
    match set.to_pattern(alloc) {
        Ok(pattern) => pattern.len() == length,
        Err(_) => false,
    }
}

/// Whether the set is read back, from all of its pattern.
fn is_read_back(
    alloc: Global,
    set: &CodePointInversionListAndStringList,
    database: &PropertyDatabase,
) -> bool {
    match read_back(alloc, set, &VariableMap::new(alloc), database) {
        Ok((read, length)) => read == *set && has_length(alloc, set, length),
        Err(_) => false,
    }
}

/// How many code points and strings the large set has, which is read back.
struct Large(usize);

impl Row<PropertyDatabase> for Large {
    fn holds(&self, alloc: Global, database: &PropertyDatabase) -> bool {
        match large_set(alloc) {
            Some(set) => set.size() == self.0 && is_read_back(alloc, &set, database),
            None => false,
        }
    }
}

#[test]
fn a_large_set_is_read_back(rt: HostRuntime) {
    assert_rows_of_text(&rt, rt.alloc(), EVERY_KIND, &[Large(2_114)]);
}

/// The kind of the fault, which has no place, that the empty set is not read back for.
struct NotReadBack(ParseErrorKind);

impl Row<PropertyDatabase> for NotReadBack {
    fn holds(&self, alloc: Global, database: &PropertyDatabase) -> bool {
        match set_of(alloc, &[], &[]) {
            Some(set) => is_not_read_back(alloc, &set, self.0, database),
            None => false,
        }
    }
}

/// Whether the set is not read back, for a fault of this kind without a place.
fn is_not_read_back(
    alloc: Global,
    set: &CodePointInversionListAndStringList,
    kind: ParseErrorKind,
    database: &PropertyDatabase,
) -> bool {
    match read_back(alloc, set, &VariableMap::new(alloc), database) {
        Ok(_) => false,
        Err(error) => error == ParseError::from(kind),
    }
}

#[test]
fn nothing_is_read_back_without_a_syntax(rt: HostRuntime) {
    assert_rows_of_text(
        &rt,
        rt.alloc(),
        NO_TABLES,
        &[NotReadBack(ParseErrorKind::Internal)],
    );
}
