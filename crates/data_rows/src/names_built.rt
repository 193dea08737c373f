//! Tables of names that are built name by name.
ghost use Rattle.prop_names.specs.Folding.{stored_folding};
ghost use Rattle.std.specs.Prelude.{◌≡◌, IfSome};
ghost use Rattle.std.specs.String.{string_bytes};

use crate::fixtures::assert_equal;
use prop_names::{NamesBuilder, PropertyValueNameToEnumMap, ascii_text, stored_folding};
use std::alloc::Global;

/// The text of a name of ASCII and its folding, if memory is left for them.
fn text_and_folding(alloc: Global, name: &[u8]) -> Option<(String, String)>
    ensures { IfSome result (λ texts. string_bytes texts.1 ≡ stored_folding (string_bytes texts.0)) }
{
    if !name.is_ascii() {
        return None;
    }
    let Ok(text) = ascii_text(alloc, name) else {
        return None;
    };
    let Ok(folding) = stored_folding(alloc, name) else {
        return None;
    };
    Some((text, folding))
}

/// Adds a name of ASCII. The answer is whether memory was left for it, and its folding has no other value.
fn insert(alloc: Global, builder: &mut NamesBuilder, name: &[u8], value: u16) -> bool {
    let Some((text, folding)) = text_and_folding(alloc, name) else {
        return false;
    };
    match builder.value_of_folding(&folding) {
        Some(other) if other != value => false,
        _ => builder.insert(text, folding, value).is_ok(),
    }
}

/// Three names, of which two have one value.
const SCRIPTS: &[(&[u8], u16)] = &[(b"Old_Italic", 30), (b"Latn", 25), (b"Ital", 30)];

/// Adds the three names.
fn insert_scripts(alloc: Global, builder: &mut NamesBuilder) -> bool {
    for (name, value) in SCRIPTS {
        if !insert(alloc, builder, name, *value) {
            return false;
        }
    }
    true
}

/// The table of these names.
fn scripts(alloc: Global) -> Option<PropertyValueNameToEnumMap> {
    let mut builder = NamesBuilder::new(alloc);
    if !insert_scripts(alloc, &mut builder) {
        return None;
    }
    builder.build(alloc).ok()
}

/// Names, and the numbers of their values by the spelling and by the folding.
const FOUND: &[(&str, Option<u16>, Option<u16>)] = &[
    ("Old_Italic", Some(30), Some(30)),
    ("Ital", Some(30), Some(30)),
    ("Latn", Some(25), Some(25)),
    ("old italic", None, Some(30)),
    ("Latin", None, None),
];

/// The first name that is found otherwise.
fn wrong_in(table: &PropertyValueNameToEnumMap) -> Option<&'static str> {
    for (name, strict, loose) in FOUND {
        let by_spelling = table.get_strict_u16(name.as_bytes());
        let by_folding = table.get_loose_u16(name.as_bytes());
        if by_spelling != *strict || by_folding != *loose {
            return Some(*name);
        }
    }
    None
}

/// The first name that is found otherwise in the table of scripts.
fn wrong_in_scripts(alloc: Global) -> Option<&'static str> {
    let Some(table) = scripts(alloc) else {
        return Some("no table");
    };
    wrong_in(&table)
}

#[test]
fn names_that_were_added_in_any_order_are_found(rt: HostRuntime) {
    assert_equal(&rt, wrong_in_scripts(rt.alloc()), None);
}

/// Names, and their foldings.
const FOLDINGS: &[(&str, &str)] = &[
    ("Old_Italic", "olditalic"),
    ("A-b C", "a-b c"),
    ("[9]", "[9]"),
    ("_", ""),
    ("", ""),
];

/// Whether the text of the name is the name, and its folding is this.
fn folds_to(alloc: Global, name: &str, expected: &str) -> bool {
    match text_and_folding(alloc, name.as_bytes()) {
        Some((text, folding)) => text.as_str() == name && folding.as_str() == expected,
        None => false,
    }
}

#[test]
fn a_name_is_folded_without_low_lines_in_lower_case(rt: HostRuntime) {
    for (name, expected) in FOLDINGS {
        let folds = folds_to(rt.alloc(), name, expected);
        assert_equal(&rt, (*name, folds), (*name, true));
    }
}

/// The values of three foldings.
type Values = (Option<u16>, Option<u16>, Option<u16>);

/// The values of three foldings, of which the first is that of `La_tn`, whose value is 25.
fn values_of_foldings(alloc: Global) -> Option<Values> {
    let mut builder = NamesBuilder::new(alloc);
    if !insert(alloc, &mut builder, b"La_tn", 25) {
        return None;
    }
    Some((
        builder.value_of_folding("latn"),
        builder.value_of_folding("la_tn"),
        builder.value_of_folding("lat"),
    ))
}

#[test]
fn a_folding_has_the_value_of_its_names(rt: HostRuntime) {
    let values = values_of_foldings(rt.alloc());
    assert_equal(&rt, values, Some((Some(25), None, None)));
}
