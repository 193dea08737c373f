//! What properties resolve to.
use crate::fixtures::{Row, assert_rows_of_text};
use cp_invlist::{CodePointInversionList, NoMemory};
use prop_data::PropertyDatabase;
use std::alloc::Global;
use uset_resolve::{Resolution, Resolver};

/// The hexadecimal digits as a set, the decimal ones and letters as general categories, scripts with extensions, and names of blocks
/// without their map.
const TABLES: &str = "set ASCII_Hex_Digit\n30-39\n41-46\n61-66\n\
    map General_Category 0\n30-39 9\n41-5A 1\n61-7A 2\n\
    names General_Category_Mask\n9 Nd\n65534 L\n65534 Letter\n\
    map Script 103\n41-5A 25\n61-7A 25\n3041-3096 20\n30A1-30FA 22\n30FC 0\n\
    names Script\n25 Latn\n25 Latin\n20 Hira\n22 Kana\n\
    scx 103\n41-5A 25\n61-7A 25\n3041-3096 20\n30A1-30FA 22\n30FC 1024\n\
    ext 0\n20\n22\n\
    names Block\n1 ASCII\n1 Basic_Latin\nend\n";

/// What a property is to resolve to.
#[derive(Clone, Copy)]
enum Expected {
    /// The code points of the inversion list, and whether the value negates.
    Found(&'static [u32], bool),
    Unknown,
    Lacking,
}

/// Whether the property resolves to what is expected.
fn is_expected(resolution: &Resolution<'_>, expected: Expected) -> bool {
    match (resolution, expected) {
        (Resolution::Found { source, falsy }, Expected::Found(list, negates)) => {
            *falsy == negates && source.list().get_inversion_list() == list
        }
        (Resolution::Unknown, Expected::Unknown) => true,
        (Resolution::Lacking, Expected::Lacking) => true,
        _ => false,
    }
}

/// A key, its value and what both resolve to.
type Resolved = (&'static str, Option<&'static str>, Expected);

/// Whether the resolver answers what is expected.
fn answers(alloc: Global, resolver: &mut Resolver<'_>, row: Resolved) -> bool {
    let (key, value, expected) = row;
    match resolver.resolve(alloc, key, value) {
        Ok(resolution) => is_expected(&resolution, expected),
        Err(_) => false,
    }
}

impl Row<PropertyDatabase> for Resolved {
    fn holds(&self, alloc: Global, database: &PropertyDatabase) -> bool {
        answers(alloc, &mut Resolver::new(alloc, database), *self)
    }
}

/// Properties that one resolver is asked for in turn.
type InTurn = &'static [Resolved];

impl Row<PropertyDatabase> for InTurn {
    fn holds(&self, alloc: Global, database: &PropertyDatabase) -> bool {
        let mut resolver = Resolver::new(alloc, database);
        for row in *self {
            if !answers(alloc, &mut resolver, *row) {
                return false;
            }
        }
        true
    }
}

const DIGITS: Expected = Expected::Found(&[0x30, 0x3A], false);

const RESOLVED: &[Resolved] = &[
    (
        "AHex",
        None,
        Expected::Found(&[0x30, 0x3A, 0x41, 0x47, 0x61, 0x67], false),
    ),
    (
        "ASCII_Hex_Digit",
        Some("No"),
        Expected::Found(&[0x30, 0x3A, 0x41, 0x47, 0x61, 0x67], true),
    ),
    ("Nd", None, DIGITS),
    ("gc", Some("nd"), DIGITS),
    ("zz", None, Expected::Unknown),
    ("zz", Some("No"), Expected::Unknown),
    ("gc", Some("Lu"), Expected::Unknown),
    ("blk", Some("Thai"), Expected::Unknown),
    ("blk", Some("basic latin"), Expected::Lacking),
];

#[test]
fn a_property_is_found_unknown_or_lacks_a_table(rt: HostRuntime) {
    assert_rows_of_text(&rt, rt.alloc(), TABLES, RESOLVED);
}

const LETTERS: Expected = Expected::Found(&[0x41, 0x5B, 0x61, 0x7B], false);

const HIRAGANA: Expected = Expected::Found(&[0x3041, 0x3097], false);

const WITH_SOUND_MARK: Expected = Expected::Found(&[0x3041, 0x3097, 0x30FC, 0x30FD], false);

/// Groups, scripts and extensions, each asked for again, in other words and behind others.
const AGAIN: InTurn = &[
    ("L", None, LETTERS),
    ("Nd", None, DIGITS),
    ("gc", Some("letter"), LETTERS),
    ("General_Category", Some("L"), LETTERS),
    ("Hira", None, HIRAGANA),
    ("scx", Some("Hira"), WITH_SOUND_MARK),
    ("sc", Some("hira"), HIRAGANA),
    ("Script_Extensions", Some("HIRA"), WITH_SOUND_MARK),
    ("Latn", None, LETTERS),
    ("sc", Some("Latin"), LETTERS),
    ("gc", Some("N_d"), DIGITS),
];

#[test]
fn what_is_asked_again_is_answered_alike(rt: HostRuntime) {
    assert_rows_of_text(&rt, rt.alloc(), TABLES, &[AGAIN]);
}

/// How many ranges the list has that becomes long.
const MANY: u32 = 4096;

/// Tables in which each second code point below twice the number is a capital letter.
fn many_capitals(alloc: Global) -> Result<String, NoMemory> {
    let mut text = String::new(alloc);
    text.push_str("map General_Category 0\n")?;
    for index in 0..MANY {
        write!(text, "{:X} 1\n", 2 * index)?;
    }
    text.push_str("names General_Category_Mask\n1 Lu\nend\n")?;
    Ok(text)
}

/// Whether the list has each second code point, from the first on.
fn is_each_second(list: &CodePointInversionList) -> bool {
    list.get_inversion_list().iter().copied().eq(0..2 * MANY)
}

/// How many words the index of the list has, each time that it is asked for.
type Words = &'static [usize];

impl Row<PropertyDatabase> for Words {
    fn holds(&self, alloc: Global, database: &PropertyDatabase) -> bool {
        let mut resolver = Resolver::new(alloc, database);
        for words in *self {
            let Ok(Resolution::Found { source, .. }) = resolver.resolve(alloc, "Lu", None) else {
                return false;
            };
            if source.list().words().len() != *words || !is_each_second(source.list()) {
                return false;
            }
        }
        true
    }
}

#[test]
fn a_long_list_has_an_index_from_the_third_time_on(rt: HostRuntime) {
    let words: Words = &[0, 0, 17_408, 17_408];
    let text = many_capitals(rt.alloc()).ok();
    let text = text.as_deref().unwrap_or("");
    assert_rows_of_text(&rt, rt.alloc(), text, &[words]);
}
