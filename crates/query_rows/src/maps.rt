//! Maps from code points to general categories, and to what these are converted to.
use crate::fixtures::{EMPTY, Ends, Row, assert_rows, is_range, lacks};
use cp_invlist::NoMemory;
use cp_trie::{CodePointMapRange, ConvertError};
use prop_data::{MapTable, PropertyDatabase, TableName};
use prop_query::{CodePointMapData, CodePointMapDataBorrowed, CodePointSetData};
use prop_values::{
    Block, CanonicalCombiningClass, EnumeratedProperty, GeneralCategory, GeneralCategoryGroup,
    Script,
};
use row_fixtures::EVERY_KIND;
use std::alloc::Global;

/// What is expected of the map of general categories.
#[derive(Clone, Copy)]
enum Expected {
    /// The category of a character.
    Character(char, GeneralCategory),
    /// The category of a number.
    Number(u32, GeneralCategory),
    /// The maximal run of an index, with its category, if there are that many runs.
    Run(usize, Option<(Ends, GeneralCategory)>),
    /// The maximal run of an index, of letters or of other code points, if there are that many runs.
    MappedRun(usize, Option<(Ends, bool)>),
    /// The maximal range of an index, of those with a category.
    Range(GeneralCategory, usize, Option<Ends>),
    /// The maximal range of an index, of those with another category.
    Other(GeneralCategory, usize, Option<Ends>),
    /// The maximal range of an index, of the letters.
    Letters(usize, Option<Ends>),
    /// The code points with a category, as an inversion list.
    Set(GeneralCategory, &'static [u32]),
    /// The letters, as an inversion list.
    SetOfLetters(&'static [u32]),
}

/// Whether the run is the expected one.
fn is_run<T: PartialEq + Drop>(
    found: Option<CodePointMapRange<T>>,
    expected: Option<(Ends, T)>,
) -> bool {
    match (found, expected) {
        (Some(run), Some((ends, value))) => is_range(Some(run.range), Some(ends))
            && run.value == value,
        (found, expected) => found.is_none() && expected.is_none(),
    }
}

/// Whether the set has this inversion list.
fn is_set(found: Result<CodePointSetData, NoMemory>, list: &[u32]) -> bool {
    let Ok(set) = found else {
        return false;
    };
    match set.as_code_point_inversion_list() {
        Some(found) => found.get_inversion_list() == list,
        None => false,
    }
}

/// The run of this index, of letters or of other code points.
fn mapped_run(
    map: CodePointMapDataBorrowed<'_, GeneralCategory>,
    index: usize,
) -> Option<CodePointMapRange<bool>> {
    let mut runs = map.iter_ranges_mapped(|category| {
        matches!(
            category,
            GeneralCategory::UppercaseLetter | GeneralCategory::LowercaseLetter
        )
    });
    runs.nth(index)
}

/// Whether the map answers so.
fn answers(
    alloc: Global,
    map: CodePointMapDataBorrowed<'_, GeneralCategory>,
    expected: Expected,
) -> bool {
    match expected {
        Expected::Character(ch, category) => map.get(ch) == category,
        Expected::Number(number, category) => map.get32(number) == category,
        Expected::Run(index, run) => is_run(map.iter_ranges().nth(index), run),
        Expected::MappedRun(index, run) => is_run(mapped_run(map, index), run),
        Expected::Range(category, index, ends) => {
            is_range(map.iter_ranges_for_value(category).nth(index), ends)
        }
        Expected::Other(category, index, ends) => {
            is_range(
                map.iter_ranges_for_value_complemented(category).nth(index),
                ends,
            )
        }
        Expected::Letters(index, ends) => is_range(
            map.iter_ranges_for_group(GeneralCategoryGroup::Letter)
                .nth(index),
            ends,
        ),
        Expected::Set(category, list) => is_set(map.get_set_for_value(alloc, category), list),
        Expected::SetOfLetters(list) => is_set(
            map.get_set_for_value_group(alloc, GeneralCategoryGroup::Letter),
            list,
        ),
    }
}

/// Whether a copy of the map answers so.
fn copy_answers(
    alloc: Global,
    map: &CodePointMapData<GeneralCategory>,
    expected: Expected,
) -> bool {
    match map.copy(alloc) {
        Ok(copy) => answers(alloc, copy.as_borrowed(), expected),
        Err(_) => false,
    }
}

/// Whether the map of a copy of the map's trie answers so.
fn made_again_answers(
    alloc: Global,
    map: &CodePointMapData<GeneralCategory>,
    expected: Expected,
) -> bool {
    let Ok(trie) = map.to_code_point_trie(alloc) else {
        return false;
    };
    let again = CodePointMapData::from_code_point_trie(trie);
    answers(alloc, again.as_borrowed(), expected)
}

/// Whether the map and what is copied of it answer so.
fn each_answers(alloc: Global, database: &PropertyDatabase, expected: Expected) -> bool {
    match CodePointMapData::<GeneralCategory>::new(alloc, database) {
        Ok(map) => {
            answers(alloc, map.as_borrowed(), expected)
                && copy_answers(alloc, &map, expected)
                && made_again_answers(alloc, &map, expected)
        }
        Err(_) => false,
    }
}

/// Whether the map of the other call answers so.
fn other_answers(alloc: Global, database: &PropertyDatabase, expected: Expected) -> bool {
    match CodePointMapData::<GeneralCategory>::try_new_unstable(alloc, database) {
        Ok(map) => answers(alloc, map.as_borrowed(), expected),
        Err(_) => false,
    }
}

impl Row for Expected {
    fn holds(&self, alloc: Global, database: &PropertyDatabase) -> bool {
        each_answers(alloc, database, *self) && other_answers(alloc, database, *self)
    }
}

const ANSWERS: &[Expected] = &[
    // both ends of each run, and numbers past the last code point
    Expected::Number(0, GeneralCategory::Unassigned),
    Expected::Number(0x2F, GeneralCategory::Unassigned),
    Expected::Number(0x30, GeneralCategory::DecimalNumber),
    Expected::Number(0x39, GeneralCategory::DecimalNumber),
    Expected::Number(0x3A, GeneralCategory::Unassigned),
    Expected::Number(0x40, GeneralCategory::Unassigned),
    Expected::Number(0x41, GeneralCategory::UppercaseLetter),
    Expected::Number(0x5A, GeneralCategory::UppercaseLetter),
    Expected::Number(0x5B, GeneralCategory::Unassigned),
    Expected::Number(0x60, GeneralCategory::Unassigned),
    Expected::Number(0x61, GeneralCategory::LowercaseLetter),
    Expected::Number(0x7A, GeneralCategory::LowercaseLetter),
    Expected::Number(0x7B, GeneralCategory::Unassigned),
    Expected::Number(0xD7FF, GeneralCategory::Unassigned),
    Expected::Number(0xD800, GeneralCategory::Surrogate),
    Expected::Number(0xDFFF, GeneralCategory::Surrogate),
    Expected::Number(0xE000, GeneralCategory::Unassigned),
    Expected::Number(0x10_FFFF, GeneralCategory::Unassigned),
    Expected::Character('a', GeneralCategory::LowercaseLetter),
    Expected::Number(0x11_0000, GeneralCategory::Unassigned),
    Expected::Number(u32::MAX, GeneralCategory::Unassigned),
    // the runs, and none behind them
    Expected::Run(0, Some(((0, 0x2F), GeneralCategory::Unassigned))),
    Expected::Run(1, Some(((0x30, 0x39), GeneralCategory::DecimalNumber))),
    Expected::Run(2, Some(((0x3A, 0x40), GeneralCategory::Unassigned))),
    Expected::Run(3, Some(((0x41, 0x5A), GeneralCategory::UppercaseLetter))),
    Expected::Run(4, Some(((0x5B, 0x60), GeneralCategory::Unassigned))),
    Expected::Run(5, Some(((0x61, 0x7A), GeneralCategory::LowercaseLetter))),
    Expected::Run(6, Some(((0x7B, 0xD7FF), GeneralCategory::Unassigned))),
    Expected::Run(7, Some(((0xD800, 0xDFFF), GeneralCategory::Surrogate))),
    Expected::Run(8, Some(((0xE000, 0x10_FFFF), GeneralCategory::Unassigned))),
    Expected::Run(9, None),
    // the runs of letters and of other code points: those of neighbours with one answer are joined
    Expected::MappedRun(0, Some(((0, 0x40), false))),
    Expected::MappedRun(1, Some(((0x41, 0x5A), true))),
    Expected::MappedRun(2, Some(((0x5B, 0x60), false))),
    Expected::MappedRun(3, Some(((0x61, 0x7A), true))),
    Expected::MappedRun(4, Some(((0x7B, 0x10_FFFF), false))),
    Expected::MappedRun(5, None),
    // ranges and sets of categories
    Expected::Range(GeneralCategory::DecimalNumber, 0, Some((0x30, 0x39))),
    Expected::Range(GeneralCategory::DecimalNumber, 1, None),
    Expected::Other(GeneralCategory::DecimalNumber, 0, Some((0, 0x2F))),
    Expected::Other(GeneralCategory::DecimalNumber, 1, Some((0x3A, 0x10_FFFF))),
    Expected::Other(GeneralCategory::DecimalNumber, 2, None),
    Expected::Letters(0, Some((0x41, 0x5A))),
    Expected::Letters(1, Some((0x61, 0x7A))),
    Expected::Letters(2, None),
    Expected::Set(GeneralCategory::UppercaseLetter, &[0x41, 0x5B]),
    Expected::SetOfLetters(&[0x41, 0x5B, 0x61, 0x7B]),
];

#[test]
fn a_map_has_values_runs_ranges_and_sets(rt: HostRuntime) {
    assert_rows(&rt, EVERY_KIND, ANSWERS);
}

/// A code point, and the category that the trie of a map and a copy of it have there.
#[derive(Clone, Copy)]
struct InTries(u32, GeneralCategory);

/// Whether the trie that the map lends and a copy of it have the category.
fn is_in_tries(alloc: Global, map: &CodePointMapData<GeneralCategory>, expected: InTries) -> bool {
    let InTries(code_point, category) = expected;
    match (map.as_code_point_trie(), map.to_code_point_trie(alloc)) {
        (Some(lent), Ok(copy)) => {
            lent.get32(code_point) == category && copy.get32(code_point) == category
        }
        _ => false,
    }
}

impl Row for InTries {
    fn holds(&self, alloc: Global, database: &PropertyDatabase) -> bool {
        match CodePointMapData::<GeneralCategory>::new(alloc, database) {
            Ok(map) => is_in_tries(alloc, &map, *self),
            Err(_) => false,
        }
    }
}

const IN_TRIES: &[InTries] = &[
    InTries(0, GeneralCategory::Unassigned),
    InTries(0x30, GeneralCategory::DecimalNumber),
    InTries(0x3A, GeneralCategory::Unassigned),
    InTries(0x41, GeneralCategory::UppercaseLetter),
    InTries(0x5B, GeneralCategory::Unassigned),
    InTries(0x61, GeneralCategory::LowercaseLetter),
    InTries(0x7B, GeneralCategory::Unassigned),
    InTries(0xD800, GeneralCategory::Surrogate),
    InTries(0xE000, GeneralCategory::Unassigned),
];

#[test]
fn tries_of_a_map_have_its_values(rt: HostRuntime) {
    assert_rows(&rt, EVERY_KIND, IN_TRIES);
}

/// The number of the general category of a character or of a number, as the table text has it.
#[derive(Clone, Copy)]
enum Converted {
    Character(char, u8),
    Number(u32, u8),
}

/// The map of the numbers of general categories.
fn numbers_of(alloc: Global, database: &PropertyDatabase) -> Option<CodePointMapData<u8>> {
    let map = CodePointMapData::<GeneralCategory>::new(alloc, database).ok()?;
    map.try_into_converted::<u8>(alloc).ok()
}

/// Whether the numbers answer so.
fn number_answers(numbers: CodePointMapDataBorrowed<'_, u8>, expected: Converted) -> bool {
    match expected {
        Converted::Character(ch, expected) => numbers.get(ch) == expected,
        Converted::Number(number, expected) => numbers.get32(number) == expected,
    }
}

impl Row for Converted {
    fn holds(&self, alloc: Global, database: &PropertyDatabase) -> bool {
        match numbers_of(alloc, database) {
            Some(numbers) => number_answers(numbers.as_borrowed(), *self),
            None => false,
        }
    }
}

const CONVERTED: &[Converted] = &[
    Converted::Character('a', 2),
    Converted::Number(0x2F, 0),
    Converted::Number(0x39, 9),
    Converted::Number(0x41, 1),
    Converted::Number(0xD800, 18),
    Converted::Number(0x11_0000, 0),
];

#[test]
fn numbers_of_categories_are_those_of_the_text(rt: HostRuntime) {
    assert_rows(&rt, EVERY_KIND, CONVERTED);
}

/// A call that needs the map of blocks.
#[derive(Clone, Copy)]
enum Absent {
    New,
    TryNew,
}

const BLOCKS: TableName = TableName::Map(MapTable::BLOCK);

impl Row for Absent {
    fn holds(&self, alloc: Global, database: &PropertyDatabase) -> bool {
        match *self {
            Absent::New => lacks(CodePointMapData::<Block>::new(alloc, database), BLOCKS),
            Absent::TryNew => lacks(
                CodePointMapData::<Block>::try_new_unstable(alloc, database),
                BLOCKS,
            ),
        }
    }
}

const ABSENT: &[Absent] = &[Absent::New, Absent::TryNew];

#[test]
fn a_database_without_a_map_says_so(rt: HostRuntime) {
    assert_rows(&rt, EMPTY, ABSENT);
    assert_rows(&rt, EVERY_KIND, ABSENT);
}

/// The index of the run that keeps a map from a conversion to general categories.
#[derive(Clone, Copy)]
enum Unconverted {
    Classes(usize),
    Scripts(usize),
}

/// What keeps the map of a property from a conversion to general categories.
fn refusal<T: EnumeratedProperty>(
    alloc: Global,
    database: &PropertyDatabase,
) -> Option<ConvertError> {
    let map = CodePointMapData::<T>::new(alloc, database).ok()?;
    map.try_into_converted::<GeneralCategory>(alloc).err()
}

impl Row for Unconverted {
    fn holds(&self, alloc: Global, database: &PropertyDatabase) -> bool {
        let (found, index) = match *self {
            Unconverted::Classes(index) => (
                refusal::<CanonicalCombiningClass>(alloc, database),
                index,
            ),
            Unconverted::Scripts(index) => (refusal::<Script>(alloc, database), index),
        };
        found == Some(ConvertError::Value { index })
    }
}

/// A map with the class 230 in its second run, and one whose value past 10FFFF alone is that of no general category.
const UNCONVERTED: &str = "map Canonical_Combining_Class 0\n300-314 230\nmap Script 0\nend";

#[test]
fn a_map_with_the_number_of_no_category_is_not_converted(rt: HostRuntime) {
    let rows: &[Unconverted] = &[Unconverted::Classes(1), Unconverted::Scripts(1)];
    assert_rows(&rt, UNCONVERTED, rows);
}
