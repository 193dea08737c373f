//! Single answers of a database: the value of a character, a value by its name, and a name by its value.
ghost use Rattle.std.specs.Prelude.{◌≡◌, Some, IfOk, option_map};
ghost use Rattle.std.specs.Option.{option_copied};
ghost use Rattle.cp_invlist.specs.InversionList.{contains};
ghost use Rattle.cp_strset.specs.StringSet.{contains_text};
ghost use Rattle.prop_data.specs.Database.{set_of, map_of, names_of, long_of, short_of, emoji_of};
ghost use Rattle.prop_query.specs.Answers.{NeedsTable, answer_of};
ghost use Rattle.prop_query.specs.Lookups.{subtag_or_unknown, script_or_unknown, value_loosely};
ghost use Rattle.prop_query.specs.Maps.{unpacked_at};
ghost use Rattle.prop_values.specs.Tables.{script_table};

use crate::absent::absent;
use crate::emoji::EmojiSetData;
use crate::names::{PropertyNamesLong, PropertyNamesShort, PropertyParser};
use crate::set::CodePointSetData;
use crate::value::value_of;
use prop_binary::{BinaryProperty, EmojiSet};
use prop_data::{DataError, NamedEnumeratedProperty, PropertyDatabase, TableName};
use prop_values::{EnumeratedProperty, Script, Subtag};

/// The value of a character. `Absent` names the property's map where the database has none.
pub fn for_char<T: EnumeratedProperty>(
    database: &PropertyDatabase,
    ch: char,
) -> Result<T, DataError>
    ensures value { IfOk result (λ value.
        unpacked_at T.unpacked (map_of database.now T.TABLE) ch ≡ Some value) }
    ensures needs { NeedsTable (TableName.Map T.TABLE) (map_of database.now T.TABLE) result }
{
    let numbers = database
        .map(T::TABLE)
        .ok_or(absent(TableName::Map(T::TABLE)))?;
    Ok(value_of(numbers.get(ch)))
}

/// Whether a character has a binary property. `Absent` names the property's set where the database has none.
pub fn binary_for_char<P: BinaryProperty>(
    database: &PropertyDatabase,
    ch: char,
) -> Result<bool, DataError>
    ensures { result ≡ answer_of (TableName.Set P.TABLE)
        (option_map (λ set. contains set ch) (set_of database.now P.TABLE)) }
{
    Ok(CodePointSetData::new::<P>(database)?.contains(ch))
}

/// Whether a character is in an emoji set. `Absent` names the set where the database has none.
pub fn emoji_for_char<P: EmojiSet>(database: &PropertyDatabase, ch: char) -> Result<bool, DataError>
    ensures { result ≡ answer_of (TableName.Emoji P.TABLE)
        (option_map (λ set. contains set.code_points ch) (emoji_of database.now P.TABLE)) }
{
    Ok(EmojiSetData::new::<P>(database)?.contains(ch))
}

/// Whether a text is in an emoji set: a text of exactly one character as a code point, any other as a string. `Absent`
/// names the set where the database has none.
pub fn emoji_for_str<P: EmojiSet>(database: &PropertyDatabase, s: &str) -> Result<bool, DataError>
    ensures { result ≡ answer_of (TableName.Emoji P.TABLE)
        (option_map (λ set. contains_text set s.now) (emoji_of database.now P.TABLE)) }
{
    Ok(EmojiSetData::new::<P>(database)?.contains_str(s))
}

/// The value of the least name that folds as this one (UAX 44, section 5.9), if there is one. `Absent` names the
/// table of the names where the database has none.
pub fn try_from_str<T: NamedEnumeratedProperty>(
    database: &PropertyDatabase,
    s: &str,
) -> Result<Option<T>, DataError>
    ensures { result ≡ answer_of (TableName.Names T.NAMES)
        (option_map (value_loosely T.unpacked s.now) (names_of database.now T.NAMES)) }
{
    try_from_utf8(database, s.as_bytes())
}

/// The value of the least name that folds as this one (UAX 44, section 5.9), if there is one. `Absent` names the
/// table of the names where the database has none.
pub fn try_from_utf8<T: NamedEnumeratedProperty>(
    database: &PropertyDatabase,
    s: &[u8],
) -> Result<Option<T>, DataError>
    ensures { result ≡ answer_of (TableName.Names T.NAMES)
        (option_map (value_loosely T.unpacked s.now) (names_of database.now T.NAMES)) }
{
    Ok(PropertyParser::<T>::new(database)?.get_loose_utf8(s))
}

/// The long name of a value, if it has one. `Absent` names the table of the long names where the database has none.
pub fn long_name<'a, T: NamedEnumeratedProperty + 'a>(
    database: &'a PropertyDatabase,
    value: T,
) -> Result<Option<&'a str>, DataError>
    ensures name { IfOk result (λ name.
        option_map (λ name_of. name_of (T.packed value)) (long_of database.now T.TABLE)
        ≡ Some (option_copied name)) }
    ensures needs { NeedsTable (TableName.Long T.TABLE) (long_of database.now T.TABLE) result }
{
    Ok(PropertyNamesLong::<T>::new(database)?.get(value))
}

/// The short name of a value, if it has one. `Absent` names the table of the short names where the database has none.
pub fn short_name<'a, T: NamedEnumeratedProperty + 'a>(
    database: &'a PropertyDatabase,
    value: T,
) -> Result<Option<&'a str>, DataError>
    ensures name { IfOk result (λ name.
        option_map (λ name_of. name_of (T.packed value)) (short_of database.now T.TABLE)
        ≡ Some (option_copied name)) }
    ensures needs { NeedsTable (TableName.Short T.TABLE) (short_of database.now T.TABLE) result }
{
    Ok(PropertyNamesShort::<T>::new(database)?.get(value))
}

/// The subtag of unknown scripts (ISO 15924).
const UNKNOWN: &str = "Zzzz";

/// The subtag of a script, which is `Zzzz` for a script without a short name. `Absent` names the table of the short
/// names of scripts where the database has none.
pub fn script_to_subtag(database: &PropertyDatabase, script: Script) -> Result<Subtag, DataError>
    ensures { result ≡ answer_of (TableName.Short script_table)
        (option_map (λ name_of. subtag_or_unknown (name_of script)) (short_of database.now script_table)) }
{
    let names = PropertyNamesShort::<Script>::new(database)?;
    match names.get_locale_script(script) {
        Some(subtag) => Ok(subtag),
        None => Ok(Subtag::try_from_str(UNKNOWN).unwrap()),
    }
}

/// The script with this subtag as a name, compared byte for byte, or Unknown where none has it. `Absent` names the
/// table of the names of scripts where the database has none.
pub fn subtag_to_script(database: &PropertyDatabase, subtag: Subtag) -> Result<Script, DataError>
    ensures { result ≡ answer_of (TableName.Names script_table)
        (option_map (λ names. script_or_unknown names subtag) (names_of database.now script_table)) }
{
    let names = PropertyParser::<Script>::new(database)?;
    match names.get_strict_u16(subtag.as_str()) {
        Some(number) => Ok(Script::from_icu4c_value(number)),
        None => Ok(Script::Unknown),
    }
}
