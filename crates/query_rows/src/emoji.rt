//! Sets of emoji characters and sequences.
use crate::fixtures::{EMPTY, Row, assert_rows, lacks};
use cp_strset::CodePointInversionListAndStringList;
use prop_binary::BasicEmoji;
use prop_data::{EmojiTable, PropertyDatabase, TableName};
use prop_query::{EmojiSetData, EmojiSetDataBorrowed};
use row_fixtures::EVERY_KIND;
use std::alloc::Global;

/// What is asked of a set, and whether it is a member.
#[derive(Clone, Copy)]
enum Member {
    /// A text, which is asked for as such and by its bytes.
    Text(&'static str, bool),
    Bytes(&'static [u8], bool),
    Character(char, bool),
    CodePoint(u32, bool),
}

/// Whether the set answers so.
fn answers(set: EmojiSetDataBorrowed<'_>, member: Member) -> bool {
    match member {
        Member::Text(text, is_member) => {
            set.contains_str(text) == is_member && set.contains_utf8(text.as_bytes()) == is_member
        }
        Member::Bytes(bytes, is_member) => set.contains_utf8(bytes) == is_member,
        Member::Character(ch, is_member) => set.contains(ch) == is_member,
        Member::CodePoint(code_point, is_member) => set.contains32(code_point) == is_member,
    }
}

/// Whether the sets that are lent answer so.
fn lent_answer(database: &PropertyDatabase, member: Member) -> bool {
    match (
        EmojiSetData::new::<BasicEmoji>(database),
        EmojiSetDataBorrowed::new::<BasicEmoji>(database),
    ) {
        (Ok(set), Ok(same)) => answers(set, member) && answers(same, member),
        _ => false,
    }
}

/// Whether the set of the list of the copy answers so.
fn made_again_answers(alloc: Global, copy: &EmojiSetData, member: Member) -> bool {
    let Ok(list) = copy.to_code_point_inversion_list_string_list(alloc) else {
        return false;
    };
    let set = EmojiSetData::from_code_point_inversion_list_string_list(list);
    answers(set.as_borrowed(), member)
}

/// Whether a copy, and the set of its list, answer so.
fn copies_answer(alloc: Global, database: &PropertyDatabase, member: Member) -> bool {
    match EmojiSetData::try_new_unstable::<BasicEmoji>(alloc, database) {
        Ok(copy) => {
            answers(copy.as_borrowed(), member) && made_again_answers(alloc, &copy, member)
        }
        Err(_) => false,
    }
}

impl Row for Member {
    fn holds(&self, alloc: Global, database: &PropertyDatabase) -> bool {
        lent_answer(database, *self) && copies_answer(alloc, database, *self)
    }
}

/// Two characters, and one sequence whose characters are no members.
const MEMBERS: &[Member] = &[
    Member::Text("\u{231A}", true),
    Member::Text("\u{231B}", true),
    Member::Text("\u{231C}", false),
    Member::Text("\u{A9}\u{FE0F}", true),
    Member::Text("\u{A9}", false),
    Member::Text("\u{FE0F}", false),
    Member::Text("\u{231A}\u{231B}", false),
    Member::Text("", false),
    Member::Bytes(b"\xFF", false),
    Member::Character('\u{231A}', true),
    Member::Character('\u{A9}', false),
    Member::CodePoint(0x231B, true),
    Member::CodePoint(0x11_0000, false),
];

#[test]
fn emoji_sets_are_lent_and_copied(rt: HostRuntime) {
    assert_rows(&rt, EVERY_KIND, MEMBERS);
}

/// What is expected of the list of a copy.
#[derive(Clone, Copy)]
enum Listed {
    /// Its code points, as an inversion list.
    CodePoints(&'static [u32]),
    /// How many code points and strings it has.
    Size(usize),
    /// That it is the database's list.
    AsKept,
    /// That it is the list that the copy lends.
    AsLent,
}

/// Whether the list of a copy is as expected.
fn is_listed(
    list: &CodePointInversionListAndStringList,
    copy: &EmojiSetData,
    database: &PropertyDatabase,
    expected: Listed,
) -> bool {
    match expected {
        Listed::CodePoints(ends) => list.code_points().get_inversion_list() == ends,
        Listed::Size(size) => list.size() == size,
        Listed::AsKept => database.emoji(EmojiTable::BASIC_EMOJI) == Some(list),
        Listed::AsLent => copy.as_code_point_inversion_list_string_list() == Some(list),
    }
}

/// The same, if memory is left for the list.
fn is_copied(
    alloc: Global,
    copy: &EmojiSetData,
    database: &PropertyDatabase,
    expected: Listed,
) -> bool {
    match copy.to_code_point_inversion_list_string_list(alloc) {
        Ok(list) => is_listed(&list, copy, database, expected),
        Err(_) => false,
    }
}

impl Row for Listed {
    fn holds(&self, alloc: Global, database: &PropertyDatabase) -> bool {
        match EmojiSetData::try_new_unstable::<BasicEmoji>(alloc, database) {
            Ok(copy) => is_copied(alloc, &copy, database, *self),
            Err(_) => false,
        }
    }
}

const LISTED: &[Listed] = &[
    Listed::CodePoints(&[0x231A, 0x231C]),
    Listed::Size(3),
    Listed::AsKept,
    Listed::AsLent,
];

#[test]
fn the_list_of_a_copied_emoji_set_is_that_of_the_database(rt: HostRuntime) {
    assert_rows(&rt, EVERY_KIND, LISTED);
}

/// A call that needs the table of the set.
#[derive(Clone, Copy)]
enum Absent {
    New,
    NewBorrowed,
    TryNew,
}

const TABLE: TableName = TableName::Emoji(EmojiTable::BASIC_EMOJI);

impl Row for Absent {
    fn holds(&self, alloc: Global, database: &PropertyDatabase) -> bool {
        match *self {
            Absent::New => lacks(EmojiSetData::new::<BasicEmoji>(database), TABLE),
            Absent::NewBorrowed => {
                lacks(EmojiSetDataBorrowed::new::<BasicEmoji>(database), TABLE)
            }
            Absent::TryNew => lacks(
                EmojiSetData::try_new_unstable::<BasicEmoji>(alloc, database),
                TABLE,
            ),
        }
    }
}

const ABSENT: &[Absent] = &[Absent::New, Absent::NewBorrowed, Absent::TryNew];

#[test]
fn a_database_without_an_emoji_set_says_so(rt: HostRuntime) {
    assert_rows(&rt, EMPTY, ABSENT);
}
