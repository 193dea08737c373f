//! The kinds of tables: their words, and how many tables of each a text has.
use crate::fixtures::{Row, assert_equal, assert_rows};
use prop_data::{PropertyDatabase, TableKind};
use row_fixtures::EVERY_KIND;

/// The kinds in their order, and their words.
const WORDS: [(TableKind, &str); 8] = [
    (TableKind::Set, "set"),
    (TableKind::Map, "map"),
    (TableKind::Names, "names"),
    (TableKind::Long, "long"),
    (TableKind::Short, "short"),
    (TableKind::Scripts, "scx"),
    (TableKind::Extensions, "ext"),
    (TableKind::Emoji, "emoji"),
];

#[test]
fn kinds_are_found_by_their_words(rt: HostRuntime) {
    for (kind, (expected, word)) in TableKind::ALL.iter().zip(&WORDS) {
        let found = TableKind::from_word(word.as_bytes());
        assert_equal(&rt, (*kind, found), (*expected, Some(*expected)));
    }
}

/// Words that begin no header.
const OTHERS: &[&str] = &["Set", "sets", "se", "end", ""];

#[test]
fn other_words_are_those_of_no_kind(rt: HostRuntime) {
    for word in OTHERS {
        let found = TableKind::from_word(word.as_bytes());
        assert_equal(&rt, found, None);
    }
}

/// A kind, and how many tables of it the text has.
type Count = (TableKind, usize);

impl Row for Count {
    fn holds(&self, database: &PropertyDatabase) -> bool {
        let (kind, count) = *self;
        database.table_count(kind) == count
    }
}

const COUNTS: &[Count] = &[
    (TableKind::Set, 2),
    (TableKind::Map, 1),
    (TableKind::Names, 3),
    (TableKind::Long, 2),
    (TableKind::Short, 3),
    (TableKind::Scripts, 1),
    (TableKind::Extensions, 4),
    (TableKind::Emoji, 1),
];

#[test]
fn tables_of_each_kind_are_counted(rt: HostRuntime) {
    let text =
        "set Dash\nset XID_Start\nmap Script 103\nnames Script\nnames General_Category_Mask\n\
        names Block\nlong Script\nlong Canonical_Combining_Class\nshort Script\nshort Block\n\
        short Canonical_Combining_Class\nscx 103\next 0\next 1023\next 7 25\next 8\n\
        emoji Basic_Emoji\nend";
    assert_rows(&rt, rt.alloc(), text, COUNTS);
}

const EVERY_COUNT: &[Count] = &[
    (TableKind::Set, 4),
    (TableKind::Map, 3),
    (TableKind::Names, 3),
    (TableKind::Long, 1),
    (TableKind::Short, 1),
    (TableKind::Scripts, 1),
    (TableKind::Extensions, 1),
    (TableKind::Emoji, 1),
];

#[test]
fn tables_of_a_text_of_every_kind_are_counted(rt: HostRuntime) {
    assert_rows(&rt, rt.alloc(), EVERY_KIND, EVERY_COUNT);
}

#[test]
fn lists_are_counted_without_scripts(rt: HostRuntime) {
    let counts: &[Count] = &[(TableKind::Extensions, 1), (TableKind::Scripts, 0)];
    assert_rows(&rt, rt.alloc(), "ext 5\nend", counts);
}

#[test]
fn a_text_of_end_alone_has_no_table(rt: HostRuntime) {
    let counts: &[Count] = &[(TableKind::Set, 0), (TableKind::Extensions, 0)];
    assert_rows(&rt, rt.alloc(), "end", counts);
}
