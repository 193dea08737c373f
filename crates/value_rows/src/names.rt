//! The tables of names that the property types have.
use crate::fixtures::{assert_equal, assert_names, first_false};
use cp_trie::TrieValue;
use prop_values::{
    Block, CanonicalCombiningClass, GeneralCategory, GeneralCategoryGroup,
    ParseableEnumeratedProperty, Script, laws,
};

/// A number, and whether categories and combining classes have it.
type Row = (u16, bool, bool);

/// The other types have each of the numbers.
const ROWS: &[Row] = &[
    (0, true, true),
    (29, true, true),
    (30, false, true),
    (255, false, true),
    (256, false, false),
    (65535, false, false),
];

/// Whether the number unpacks and the table of names accepts it, where it is expected to, and neither where not.
fn answers<T: ParseableEnumeratedProperty>(number: u16, expected: bool) -> bool {
    let unpacks = T::try_from_u32(u32::from(number)).is_ok();
    (unpacks, T::NAMES.accepts(number)) == (expected, expected)
}

/// The first type that does not answer the number so.
fn first_wrong((number, category, class): Row) -> Option<&'static str> {
    first_false(&[
        (answers::<GeneralCategory>(number, category), "a category"),
        (answers::<CanonicalCombiningClass>(number, class), "a class"),
        (answers::<Script>(number, true), "a script"),
        (answers::<Block>(number, true), "a block"),
        (answers::<GeneralCategoryGroup>(number, true), "a group"),
    ])
}

#[test]
fn a_table_of_names_accepts_the_numbers_that_unpack(rt: HostRuntime) {
    laws::numbers_of_names_tables();
    for row in ROWS {
        assert_equal(&rt, (row.0, first_wrong(*row)), (row.0, None));
    }
}

#[test]
fn the_table_of_names_has_the_name_of_the_property(rt: HostRuntime) {
    let names = &[
        (Script::NAMES.name(), "Script"),
        (
            CanonicalCombiningClass::NAMES.name(),
            "Canonical_Combining_Class",
        ),
        (GeneralCategory::NAMES.name(), "General_Category"),
        (Block::NAMES.name(), "Block"),
        (GeneralCategoryGroup::NAMES.name(), "General_Category_Mask"),
    ];
    assert_names(&rt, names);
}
