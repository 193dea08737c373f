//! The tables of the names of a property's values.
ghost use Rattle.std.specs.Prelude.{◌≡◌, false, nat_eq, option_map, refl};
ghost use Rattle.std.specs.Option.{option_copied};
ghost use Rattle.prop_data.specs.Database.{long_of, short_of};
ghost use Rattle.prop_values.specs.Tables.{script_table, combining_class_table};

use crate::database::PropertyDatabase;
use prop_names::{
    PropertyEnumToValueNameLinearMap, PropertyEnumToValueNameLookup,
    PropertyEnumToValueNameSparseMap, PropertyScriptToIcuScriptMap,
};
use prop_values::{
    BidiClass, Block, CanonicalCombiningClass, EastAsianWidth, EnumeratedProperty, GeneralCategory,
    GraphemeClusterBreak, HangulSyllableType, IndicConjunctBreak, IndicSyllabicCategory,
    JoiningGroup, JoiningType, LineBreak, NumericType, ParseableEnumeratedProperty, Script,
    SentenceBreak, VerticalOrientation, WordBreak,
};

/// A property whose values have long and short names. Its tables are those of the database that have the number of its
/// table of values.
pub trait NamedEnumeratedProperty: ParseableEnumeratedProperty + EnumeratedProperty {
    /// How the long names are kept.
    type DataStructLong: PropertyEnumToValueNameLookup + Drop;

    /// How the short names are kept.
    type DataStructShort: PropertyEnumToValueNameLookup + Drop;

    /// The long names of the values, `None` where the database has no such table.
    fn long_table(database: &PropertyDatabase) -> Option<&Self::DataStructLong>
        ensures { option_map Self.DataStructLong.name_of (option_copied result) ≡ long_of database.now Self.TABLE };

    /// The short names of the values, `None` where the database has no such table.
    fn short_table(database: &PropertyDatabase) -> Option<&Self::DataStructShort>
        ensures { option_map Self.DataStructShort.name_of (option_copied result) ≡ short_of database.now Self.TABLE };
}

/// A named property whose long and short names are both kept in linear tables: each but those of combining classes and
/// scripts.
pub trait LinearlyNamedProperty: ParseableEnumeratedProperty + EnumeratedProperty {
    /// Its table is not that of combining classes, and not that of scripts.
    ghost kept_linearly: { (nat_eq Self.TABLE combining_class_table ≡ false) × (nat_eq Self.TABLE script_table ≡ false) };
}

impl<T: LinearlyNamedProperty> NamedEnumeratedProperty for T {
    type DataStructLong = PropertyEnumToValueNameLinearMap;

    type DataStructShort = PropertyEnumToValueNameLinearMap;

    fn long_table(database: &PropertyDatabase) -> Option<&PropertyEnumToValueNameLinearMap> {
        database.long_linear(T::TABLE)
    }

    fn short_table(database: &PropertyDatabase) -> Option<&PropertyEnumToValueNameLinearMap> {
        database.short_linear(T::TABLE)
    }
}

impl NamedEnumeratedProperty for CanonicalCombiningClass {
    type DataStructLong = PropertyEnumToValueNameSparseMap;

    type DataStructShort = PropertyEnumToValueNameSparseMap;

    fn long_table(database: &PropertyDatabase) -> Option<&PropertyEnumToValueNameSparseMap> {
        database.long_ccc()
    }

    fn short_table(database: &PropertyDatabase) -> Option<&PropertyEnumToValueNameSparseMap> {
        database.short_ccc()
    }
}

impl NamedEnumeratedProperty for Script {
    type DataStructLong = PropertyEnumToValueNameLinearMap;

    type DataStructShort = PropertyScriptToIcuScriptMap;

    fn long_table(database: &PropertyDatabase) -> Option<&PropertyEnumToValueNameLinearMap> {
        database.long_linear(Script::TABLE)
    }

    fn short_table(database: &PropertyDatabase) -> Option<&PropertyScriptToIcuScriptMap> {
        database.short_script()
    }
}

impl LinearlyNamedProperty for BidiClass {
    ghost kept_linearly = { (refl, refl) };
}

impl LinearlyNamedProperty for Block {
    ghost kept_linearly = { (refl, refl) };
}

impl LinearlyNamedProperty for NumericType {
    ghost kept_linearly = { (refl, refl) };
}

impl LinearlyNamedProperty for GeneralCategory {
    ghost kept_linearly = { (refl, refl) };
}

impl LinearlyNamedProperty for HangulSyllableType {
    ghost kept_linearly = { (refl, refl) };
}

impl LinearlyNamedProperty for EastAsianWidth {
    ghost kept_linearly = { (refl, refl) };
}

impl LinearlyNamedProperty for LineBreak {
    ghost kept_linearly = { (refl, refl) };
}

impl LinearlyNamedProperty for GraphemeClusterBreak {
    ghost kept_linearly = { (refl, refl) };
}

impl LinearlyNamedProperty for WordBreak {
    ghost kept_linearly = { (refl, refl) };
}

impl LinearlyNamedProperty for SentenceBreak {
    ghost kept_linearly = { (refl, refl) };
}

impl LinearlyNamedProperty for IndicConjunctBreak {
    ghost kept_linearly = { (refl, refl) };
}

impl LinearlyNamedProperty for IndicSyllabicCategory {
    ghost kept_linearly = { (refl, refl) };
}

impl LinearlyNamedProperty for JoiningGroup {
    ghost kept_linearly = { (refl, refl) };
}

impl LinearlyNamedProperty for JoiningType {
    ghost kept_linearly = { (refl, refl) };
}

impl LinearlyNamedProperty for VerticalOrientation {
    ghost kept_linearly = { (refl, refl) };
}
