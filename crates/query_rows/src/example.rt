//! The examples of README.md.
use prop_binary::Alphabetic;
use prop_data::PropertyDatabase;
use prop_query::{CodePointSetData, ScriptWithExtensions, for_char, try_from_str};
use prop_values::{GeneralCategory, Script};
use std::test::Fail;

/// A few rows of four tables: a set, general categories, the names of scripts, and scripts with extensions.
const TABLES: &str = "set Alphabetic\n41-5A\n61-7A\n\
    map General_Category 0\n41-5A 1\n61-7A 2\n\
    names Script\n25 Latn\n25 Latin\n\
    scx 103\n61-7A 25\n30FC 1024\next 0\n20\n22\n\
    end\n";

#[test]
fn the_example_of_the_guide_has_its_answers(rt: HostRuntime) -> Result<(), Fail> {
    let alloc = rt.alloc();
    let database = PropertyDatabase::from_text(alloc, TABLES)?;
    let category = for_char::<GeneralCategory>(&database, 'a')?;
    let script = try_from_str::<Script>(&database, "latin")?;
    let extensions = ScriptWithExtensions::new(&database)?.get_script_extensions_val('\u{30fc}');
    let scripts = [
        extensions.array_get(0),
        extensions.array_get(1),
        extensions.array_get(2),
    ];
    assert_eq!(rt;
        (category, script, scripts),
        (
            GeneralCategory::LowercaseLetter,
            Some(Script::Latin),
            [
                Some(Script::from_icu4c_value(20)),
                Some(Script::from_icu4c_value(22)),
                None
            ]
        )
    );
    Ok(())
}

#[test]
fn a_set_with_an_index_answers_alike(rt: HostRuntime) -> Result<(), Fail> {
    let alloc = rt.alloc();
    let database = PropertyDatabase::from_text(alloc, TABLES)?;
    let mut letters = CodePointSetData::try_new_unstable::<Alphabetic>(alloc, &database)?;
    letters.index(alloc)?;
    let words = letters
        .as_code_point_inversion_list()
        .map(|list| list.words().len());
    let set = letters.as_borrowed();
    let found = [
        set.contains32(0x40),
        set.contains('A'),
        set.contains('z'),
        set.contains32(0x10_FFFF),
        set.contains32(0x11_0000),
    ];
    assert_eq!(rt;
        (words, found),
        (Some(17_408), [false, true, true, false, false])
    );
    Ok(())
}
