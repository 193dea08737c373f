//! The rows of the enumerated properties and of their values.
use crate::fixtures::{assert_equal, assert_facts, assert_names, assert_pairs, assert_unpacks};
use crate::maps::fixtures::map_of;
use cp_trie::{CodePointTrie, ConvertError, TrieError, TrieValue};
use prop_values::{
    BidiClass, BidiMirroringGlyph, BidiPairedBracketType, GeneralCategory, GeneralCategoryGroup,
    GeneralCategoryOutOfBoundsError, HangulSyllableType, MapTable, NamesTable, Script,
    ScriptWithExt, Subtag, rows,
};
use std::alloc::Global;
use std::test::Fail;

/// The long name of each property, in the order of the tables' numbers.
const NAMES: [&str; 18] = [
    "Bidi_Class",
    "Block",
    "Numeric_Type",
    "General_Category",
    "Script",
    "Hangul_Syllable_Type",
    "East_Asian_Width",
    "Line_Break",
    "Grapheme_Cluster_Break",
    "Word_Break",
    "Sentence_Break",
    "Canonical_Combining_Class",
    "Indic_Conjunct_Break",
    "Indic_Syllabic_Category",
    "Joining_Group",
    "Joining_Type",
    "Vertical_Orientation",
    "Bidi_Mirroring_Glyph",
];

/// The short names of the groups, each union behind its members.
const GROUP_NAMES: [&str; 38] = [
    "Lu", "Ll", "Lt", "Lm", "Lo", "LC", "L", "Mn", "Me", "Mc", "M", "Nd", "Nl", "No", "N", "Zs",
    "Zl", "Zp", "Z", "Cc", "Cf", "Co", "Cs", "Cn", "C", "Pd", "Ps", "Pe", "Pc", "Pi", "Pf", "Po",
    "P", "Sm", "Sc", "Sk", "So", "S",
];

#[test]
fn a_property_has_its_short_name(rt: HostRuntime) {
    assert_names(&rt, &[(rows::names_of_properties()[8].1, "GCB")]);
}

/// Whether the table has this number and is found by its name, which is this one but for the names of groups.
fn is_found(table: NamesTable, number: u8, name: &str) -> bool {
    table.number() == number
        && NamesTable::from_name(table.name()) == Some(table)
        && (number == 17 || table.name() == name.as_bytes())
}

/// How many tables of names there are, or the name of the first that does not stand at its number.
fn count_of_names_tables() -> Result<u8, &'static str> {
    let mut number = 0u8;
    for (table, name) in rows::names_tables().iter().zip(&NAMES) {
        if !is_found(*table, number, name) {
            return Err(*name);
        }
        number = number.wrapping_add(1);
    }
    Ok(number)
}

#[test]
fn tables_of_names_are_found_by_the_names_that_they_have(rt: HostRuntime) {
    assert_equal(&rt, count_of_names_tables(), Ok(18));
}

#[test]
fn the_default_script_is_unknown(rt: HostRuntime) {
    assert_equal(&rt, Script::default(), Script::Unknown);
    assert_equal(&rt, MapTable::SCRIPT.default_number(), 103);
    assert_equal(&rt, MapTable::BLOCK.default_number(), 0);
}

#[test]
fn tables_are_found_by_their_exact_names(rt: HostRuntime) {
    let mask = NamesTable::from_name(b"General_Category_Mask");
    let word_break = NamesTable::from_name(b"Word_Break");
    let tables = &[
        (mask, Some(NamesTable::GENERAL_CATEGORY_MASK)),
        (word_break, Some(NamesTable::WORD_BREAK)),
        (NamesTable::from_name(b"Bidi_Mirroring_Glyph"), None),
    ];
    assert_pairs(&rt, tables);
    let maps = &[
        (MapTable::from_name(b"General_Category_Mask"), None),
        (MapTable::from_name(b"word_break"), None),
    ];
    assert_pairs(&rt, maps);
}

/// Whether the table accepts the number and not the next.
fn accepts_up_to(table: MapTable, last: u32) -> bool {
    table.accepts(last) && !table.accepts(last.wrapping_add(1))
}

#[test]
fn tables_accept_the_numbers_of_their_types(rt: HostRuntime) {
    let facts = &[
        (accepts_up_to(MapTable::BIDI_CLASS, 255), "classes"),
        (accepts_up_to(MapTable::BLOCK, 65_535), "blocks"),
        (accepts_up_to(MapTable::GENERAL_CATEGORY, 29), "categories"),
        (accepts_up_to(MapTable::SCRIPT, 65_535), "scripts"),
        (
            accepts_up_to(MapTable::VERTICAL_ORIENTATION, 255),
            "orientations",
        ),
        (
            NamesTable::GENERAL_CATEGORY_MASK.accepts(u16::MAX),
            "all groups have names",
        ),
        (
            !NamesTable::GENERAL_CATEGORY.accepts(30),
            "30 is no category",
        ),
    ];
    assert_facts(&rt, facts);
}

#[test]
fn groups_pack_to_their_numbers(rt: HostRuntime) {
    let both = GeneralCategoryGroup::Lu.union(GeneralCategoryGroup::Nd);
    let packed = &[
        (GeneralCategoryGroup::Letter.to_u32(), 65_534),
        (GeneralCategoryGroup::Sc.to_u32(), 25),
        // a group without a number of its own
        (both.to_u32(), 0xFF00),
        (u32::from(GeneralCategoryGroup::all()), 0x3FFF_FFFF),
    ];
    assert_pairs(&rt, packed);
    let unpacked = &[
        (0xFF00, Some(GeneralCategoryGroup::empty())),
        (30, Some(GeneralCategoryGroup::empty())),
        (0xFFF8, Some(GeneralCategoryGroup::Symbol)),
        (65_536, None),
    ];
    assert_unpacks(&rt, unpacked);
    let of_all_bits = GeneralCategoryGroup::from(u32::MAX);
    assert_equal(&rt, of_all_bits, GeneralCategoryGroup::all());
}

/// How many groups have a number of their own, or the first number that is not that of its group.
fn count_of_groups() -> Result<u32, u32> {
    let mut count = 0u32;
    for (long, short) in rows::groups() {
        let number = if count < 30 {
            count
        } else {
            0x1_001D_u32.saturating_sub(count)
        };
        let unpacked = GeneralCategoryGroup::try_from_u32(number);
        if long != short || long.to_u32() != number || unpacked != Ok(long) {
            return Err(number);
        }
        count = count.wrapping_add(1);
    }
    Ok(count)
}

#[test]
fn groups_with_a_number_of_their_own_pack_to_it(rt: HostRuntime) {
    assert_equal(&rt, count_of_groups(), Ok(38));
}

#[test]
fn groups_are_sets_of_categories(rt: HostRuntime) {
    let cased = GeneralCategoryGroup::CasedLetter;
    let others = cased.complement();
    let facts = &[
        (
            cased.contains(GeneralCategory::TitlecaseLetter),
            "a titlecase letter has case",
        ),
        (
            !cased.contains(GeneralCategory::ModifierLetter),
            "a modifier letter has none",
        ),
        (
            !others.contains(GeneralCategory::TitlecaseLetter),
            "the complement lacks what the group has",
        ),
    ];
    assert_facts(&rt, facts);
    let capitals = GeneralCategoryGroup::from(GeneralCategory::UppercaseLetter);
    let groups = &[
        (capitals, GeneralCategoryGroup::Lu),
        (cased.intersection(capitals), GeneralCategoryGroup::Lu),
        (others.union(cased), GeneralCategoryGroup::all()),
    ];
    assert_pairs(&rt, groups);
}

#[test]
fn groups_have_their_short_names(rt: HostRuntime) {
    for ((name, _), expected) in GeneralCategoryGroup::names().iter().zip(&GROUP_NAMES) {
        assert_equal(&rt, *name, *expected);
    }
    let seventh = GeneralCategoryGroup::names()[6].1;
    assert_equal(&rt, seventh, GeneralCategoryGroup::Letter);
}

/// The glyph of an opening bracket.
const OPEN: BidiMirroringGlyph = BidiMirroringGlyph {
    mirroring_glyph: Some(')'),
    mirrored: true,
    paired_bracket_type: BidiPairedBracketType::Open,
};

/// Numbers, and the glyphs that they unpack to.
const GLYPHS: &[(u32, Option<BidiMirroringGlyph>)] = &[
    (0x60_0029, Some(OPEN)),
    (0xFF60_0029, Some(OPEN)),
    (0xC0_0000, None),
    (0xD800, None),
    (0x11_0000, None),
];

#[test]
fn mirroring_glyphs_pack_their_three_parts(rt: HostRuntime) {
    assert_unpacks(&rt, GLYPHS);
    assert_equal(&rt, OPEN.to_u32(), 0x60_0029);
    let default = BidiMirroringGlyph::default().paired_bracket_type;
    assert_equal(&rt, default, BidiPairedBracketType::default());
}

#[test]
fn scripts_with_extensions_tell_their_kind(rt: HostRuntime) {
    let packed = &[
        (ScriptWithExt::new(Script::Common, 0), ScriptWithExt(1024)),
        (
            ScriptWithExt::new(Script::Inherited, 5),
            ScriptWithExt(2053),
        ),
        (ScriptWithExt::new(Script::Latin, 5), ScriptWithExt(3077)),
        (ScriptWithExt::single(Script::Chisoi), ScriptWithExt(608)),
        (
            ScriptWithExt::single(Script::Unknown),
            ScriptWithExt::Unknown,
        ),
    ];
    assert_pairs(&rt, packed);
    assert_unpacks::<ScriptWithExt>(&rt, &[(65_536, None)]);
    assert_equal(&rt, Script::from(ScriptWithExt(25)), Script::Latin);
    assert_equal(&rt, u32::from(ScriptWithExt(3077)), 3077);
    let indices = [1024, 2053, 3077].map(|number| ScriptWithExt(number).list_index());
    assert_equal(&rt, indices, [0, 5, 5]);
}

#[test]
fn numbers_tell_the_kind_of_their_script(rt: HostRuntime) {
    let facts = &[
        (ScriptWithExt(1024).is_common(), "1024 is of Common"),
        (ScriptWithExt(2053).is_inherited(), "2053 is of Inherited"),
        (ScriptWithExt(3077).is_other(), "3077 is of another"),
        (ScriptWithExt(3077).has_extensions(), "3077 has a list"),
        (!ScriptWithExt(608).has_extensions(), "608 has none"),
    ];
    assert_facts(&rt, facts);
}

/// Texts, and the subtags that they are brought to.
const SUBTAGS: &[(&str, Option<&str>)] = &[
    ("LATN", Some("Latn")),
    ("", None),
    ("Lat", None),
    ("Latin", None),
    ("La1n", None),
    ("Látn", None),
];

/// Whether the text is brought to this subtag, or is none.
fn is_subtag(text: &str, expected: Option<&str>) -> bool {
    match Subtag::try_from_str(text) {
        Some(subtag) => expected == Some(subtag.as_str()),
        None => expected.is_none(),
    }
}

#[test]
fn subtags_are_brought_to_their_case(rt: HostRuntime) {
    for (text, expected) in SUBTAGS {
        assert!(rt; is_subtag(text, *expected), "for {text}");
    }
}

/// The map in which `A` to `Z` have this value.
fn letters(alloc: Global, letter: u8) -> Result<CodePointTrie<u8>, TrieError> {
    map_of(alloc, &[(0, 0), (0x41, letter), (0x5B, 0)], 0)
}

#[test]
fn maps_convert_to_categories(rt: HostRuntime) -> Result<(), Fail> {
    let alloc = rt.alloc();
    let map = letters(alloc, 1)?.try_into_converted::<GeneralCategory>(alloc)?;
    assert_equal(&rt, map.get32(0x41), GeneralCategory::UppercaseLetter);
    let refusal = letters(alloc, 30)?
        .try_into_converted::<GeneralCategory>(alloc)
        .err();
    assert_equal(&rt, refusal, Some(ConvertError::Value { index: 1 }));
    Ok(())
}

#[test]
fn constants_have_their_numbers(rt: HostRuntime) {
    for (number, class) in rows::bidi_classes().iter().enumerate() {
        assert_equal(&rt, usize::from(class.to_icu4c_value()), number);
    }
    assert_equal(&rt, rows::scripts()[8], Script::Latin);
    assert_equal(&rt, rows::unknown_script(), ScriptWithExt(103));
    assert_equal(&rt, rows::defaults()[4], 103);
    let syllable = rows::hangul_syllable_types()[6];
    assert_equal(&rt, syllable, HangulSyllableType::LVSyllable);
}

#[test]
fn values_are_ordered_by_their_numbers(rt: HostRuntime) {
    let facts = &[
        (Script::Common < Script::Latin, "Common before Latin"),
        (
            GeneralCategory::Unassigned < GeneralCategory::FinalPunctuation,
            "the first category before the last",
        ),
    ];
    assert_facts(&rt, facts);
    assert_equal(&rt, Script::Ethiopic, Script::Ethiopian);
    let syllable = HangulSyllableType::LVSyllable;
    assert_equal(&rt, syllable, HangulSyllableType::LeadingVowelSyllable);
    assert_equal(&rt, BidiClass::PopDirectionalIsolate.to_icu4c_value(), 22);
    let letter = BidiClass::from_icu4c_value(13);
    assert_equal(&rt, letter, BidiClass::ArabicLetter);
    // a number past the others
    assert_equal(&rt, Script::from_icu4c_value(60_000), Script::Chisoi);
}

#[test]
fn the_error_of_a_category_shows_its_name(rt: HostRuntime) -> Result<(), Fail> {
    let last = Ok(GeneralCategory::FinalPunctuation);
    assert_equal(&rt, GeneralCategory::try_from(29), last);
    let refusal = Err(GeneralCategoryOutOfBoundsError);
    assert_equal(&rt, GeneralCategory::try_from(30), refusal);
    let text = format!(in rt.alloc(); "{}", GeneralCategoryOutOfBoundsError)?;
    assert_equal(&rt, text.as_str(), "GeneralCategoryOutOfBoundsError");
    Ok(())
}
