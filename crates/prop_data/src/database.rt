//! The database.
ghost use Rattle.std.specs.Prelude.{◌≡◌, ℕ, List, Some};
ghost use Rattle.std.specs.BTreeMap.{get};
ghost use Rattle.std.specs.Ordering.{nat_cmp};
ghost use Rattle.cp_invlist.specs.InversionList.{contains};
ghost use Rattle.cp_trie.specs.Map.{CodePointMap, value_at};
ghost use Rattle.prop_data.specs.Accepted.{AreAccepted};
ghost use Rattle.prop_data.specs.Forbidden.{IsAllowed};
ghost use Rattle.prop_values.specs.Tables.{script_table, combining_class_table};

use crate::count::table_count;
use crate::error::LoadError;
use crate::linear::keep_linear;
use crate::load::{Length, Loader};
use crate::scripts::{
    ListedScripts, ScriptTable, ScriptWithExtensionsProperty, keep_list, lacks_some, take_lists,
};
use crate::table::TableKind;
use cp_invlist::{CodePointInversionList, NoMemory};
use cp_strset::CodePointInversionListAndStringList;
use cp_trie::CodePointTrie;
use prop_binary::{EmojiTable, SetTable};
use prop_names::{
    NamesByNumber, PropertyEnumToValueNameLinearMap, PropertyEnumToValueNameSparseMap,
    PropertyScriptToIcuScriptMap, PropertyValueNameToEnumMap,
};
use prop_values::{MapTable, NamesTable, ScriptWithExt};
use std::alloc::Global;
use std::collections::BTreeMap;
use text_lines::laws::lines_in_order;

/// The tables of a table text. Every table may be absent.
pub struct PropertyDatabase {
    pub(crate) sets: BTreeMap<u8, CodePointInversionList>,
    pub(crate) maps: BTreeMap<u8, CodePointTrie<u32>>,
    pub(crate) names: BTreeMap<u8, PropertyValueNameToEnumMap>,
    pub(crate) long_linear: BTreeMap<u8, PropertyEnumToValueNameLinearMap>,
    pub(crate) long_ccc: Option<PropertyEnumToValueNameSparseMap>,
    pub(crate) short_linear: BTreeMap<u8, PropertyEnumToValueNameLinearMap>,
    pub(crate) short_ccc: Option<PropertyEnumToValueNameSparseMap>,
    pub(crate) short_script: Option<PropertyScriptToIcuScriptMap>,
    pub(crate) emoji: BTreeMap<u8, CodePointInversionListAndStringList>,
    pub(crate) scripts: Option<ScriptTable>,
    /// The extension lists, as long as there are no scripts with extensions, which have them then.
    pub(crate) lists: BTreeMap<u64, ListedScripts>,
    ghost allowed: { (table : ℕ) (set : List ℕ) → get nat_cmp sets table ≡ Some set → IsAllowed table (contains set) },
    ghost accepted: { (table : ℕ) (map : CodePointMap ℕ) →
        get nat_cmp maps table ≡ Some map → AreAccepted table (value_at map) },
}

// By hand, so that letting a value go is one call in each proof.
impl Drop for PropertyDatabase {
    fn drop(self) {
        let Self {
            sets: _,
            maps: _,
            names: _,
            long_linear: _,
            long_ccc: _,
            short_linear: _,
            short_ccc: _,
            short_script: _,
            emoji: _,
            scripts: _,
            lists: _,
        } = self;
    }
}

impl PropertyDatabase {
    ghost use Rattle.std.specs.Prelude.{◌≡◌, nat_eq, ◌||◌, if◌then◌else◌, true, None, is_some, option_map, OnOk, IfOk, IfErr, IfSome};
    ghost use Rattle.std.specs.Option.{option_copied};
    ghost use Rattle.std.specs.Str.Lines.{lines};
    ghost use Rattle.cp_invlist.specs.InversionList.{contains};
    ghost use Rattle.prop_data.specs.Accepted.{AreAccepted};
    ghost use Rattle.prop_data.specs.Forbidden.{IsAllowed, AreAllowed};
    ghost use Rattle.cp_trie.specs.Map.{value_at};
    ghost use Rattle.prop_names.specs.Subtags.{AreSubtags};
    ghost use Rattle.prop_data.specs.Rows.{is_subtags};
    ghost use Rattle.prop_names.specs.ValueNameTables.{linear_text, name_at, sparse_text, subtag_text};
    ghost use Rattle.prop_data.specs.Changes.{no_tables, with_set, with_map, with_names, with_texts, with_emoji, with_scripts, with_list};
    ghost use Rattle.prop_data.specs.Database.{set_of, map_of, names_of, long_of, short_of, texts_of, emoji_of, emoji_seen, scripts_of, list_at, tables_of, IsFault};
    ghost use Rattle.prop_data.specs.Counts.{table_count};
    ghost use Rattle.prop_data.specs.Extensions.{list_seen};
    ghost use Rattle.prop_data.specs.LineFault.{lacks_some_list};
    ghost use Rattle.prop_data.specs.TableText.{table_fault, tables_in};

    /// Reads a text of tables (its rules stand in docs/TABLES.md). The answer is the database
    /// that the text means, or the first faulty line with the first test that it fails, or that
    /// memory was refused.
    pub fn from_text(alloc: Global, text: &str) -> Result<PropertyDatabase, LoadError>
        ensures whole { IfOk result (λ database. table_fault (lines text.now) ≡ None) }
        ensures tables { IfOk result (λ database. tables_of database ≡ tables_in (lines text.now)) }
        ensures fault { IfErr result (IsFault (lines text.now)) }
    {
        lines_in_order();
        let mut loader = Loader::new(alloc);
        let mut number = 1;
        for line in text.lines() {
            if let Err(error) = loader.take(line.as_bytes()) {
                return Err(error.at(number));
            }
            number += 1;
        }
        loader.finish().map_err(|error| error.at(number))
    }

    pub(crate) fn new(alloc: Global) -> PropertyDatabase
        ensures { tables_of result ≡ no_tables }
    {
        PropertyDatabase {
            sets: BTreeMap::new(alloc),
            maps: BTreeMap::new(alloc),
            names: BTreeMap::new(alloc),
            long_linear: BTreeMap::new(alloc),
            long_ccc: None,
            short_linear: BTreeMap::new(alloc),
            short_ccc: None,
            short_script: None,
            emoji: BTreeMap::new(alloc),
            scripts: None,
            lists: BTreeMap::new(alloc),
        }
    }

    /// Keeps the set as the table's.
    pub(crate) fn insert_set(
        &mut self,
        table: SetTable,
        set: CodePointInversionList,
    ) -> Result<(), NoMemory>
        requires { IsAllowed table (contains set) }
        ensures { OnOk result (tables_of self.new ≡ with_set table (contains set) (tables_of self.old)) }
    {
        self.sets.insert(table.number(), set)?;
        Ok(())
    }

    /// Keeps the map as the table's.
    pub(crate) fn insert_map(
        &mut self,
        table: MapTable,
        map: CodePointTrie<u32>,
    ) -> Result<(), NoMemory>
        requires { AreAccepted table (value_at map) }
        ensures { OnOk result (tables_of self.new ≡ with_map table (value_at map) (tables_of self.old)) }
    {
        self.maps.insert(table.number(), map)?;
        Ok(())
    }

    /// Keeps the names as the table's.
    pub(crate) fn insert_names(
        &mut self,
        table: NamesTable,
        names: PropertyValueNameToEnumMap,
    ) -> Result<(), NoMemory>
        ensures { OnOk result (tables_of self.new ≡ with_names table names (tables_of self.old)) }
    {
        self.names.insert(table.number(), names)?;
        Ok(())
    }

    /// Keeps the long names as the table's.
    pub(crate) fn insert_long(
        &mut self,
        table: MapTable,
        texts: NamesByNumber,
    ) -> Result<(), NoMemory>
        ensures { OnOk result (tables_of self.new ≡ with_texts Length.Long table (name_at texts) (tables_of self.old)) }
    {
        if table == MapTable::CANONICAL_COMBINING_CLASS {
            self.long_ccc = Some(PropertyEnumToValueNameSparseMap::from_ordered(texts));
            return Ok(());
        }
        keep_linear(&mut self.long_linear, table, texts)
    }

    /// Keeps the short names as the table's. Those of scripts are subtags.
    pub(crate) fn insert_short(
        &mut self,
        table: MapTable,
        texts: NamesByNumber,
    ) -> Result<(), NoMemory>
        requires { is_subtags table ≡ true → AreSubtags texts }
        ensures { OnOk result
            (tables_of self.new ≡ with_texts Length.Short table (name_at texts) (tables_of self.old)) }
    {
        if table == MapTable::CANONICAL_COMBINING_CLASS {
            self.short_ccc = Some(PropertyEnumToValueNameSparseMap::from_ordered(texts));
            return Ok(());
        }
        if table == MapTable::SCRIPT {
            self.short_script = Some(PropertyScriptToIcuScriptMap::from_ordered(texts));
            return Ok(());
        }
        keep_linear(&mut self.short_linear, table, texts)
    }

    /// Keeps the emoji set as the table's.
    pub(crate) fn insert_emoji(
        &mut self,
        table: EmojiTable,
        set: CodePointInversionListAndStringList,
    ) -> Result<(), NoMemory>
        ensures { OnOk result (tables_of self.new ≡ with_emoji table (emoji_seen set) (tables_of self.old)) }
    {
        self.emoji.insert(table.number(), set)?;
        Ok(())
    }

    /// Keeps the scripts with extensions, with the lists that are there.
    pub(crate) fn insert_scripts(
        &mut self,
        alloc: Global,
        trie: CodePointTrie<ScriptWithExt>,
        named: Vec<u16>,
    )
        ensures { tables_of self.new ≡
            with_scripts (record { values = value_at trie; named = named.items }) (tables_of self.old) }
    {
        let lists = take_lists(&mut self.scripts, &mut self.lists, alloc);
        self.scripts = Some(ScriptTable {
            property: ScriptWithExtensionsProperty { trie, lists },
            named,
        });
    }

    /// Keeps the list of scripts at its index.
    pub(crate) fn insert_list(&mut self, index: u64, list: ListedScripts) -> Result<(), NoMemory>
        ensures { OnOk result (tables_of self.new ≡ with_list index (list_seen list) (tables_of self.old)) }
    {
        match &mut self.scripts {
            Some(table) => keep_list(&mut table.property.lists, index, list),
            None => keep_list(&mut self.lists, index, list),
        }
    }

    /// The set of a binary property's table, `None` where the text has no such table. The tables of the syntax of
    /// patterns hold no ASCII character that the syntax needs otherwise.
    pub fn set(&self, table: SetTable) -> Option<&CodePointInversionList>
        ensures value { option_copied result ≡ set_of self.now table }
        ensures allowed { IfSome result (λ set. IsAllowed table (contains set.now)) }
        ensures syntax { AreAllowed (tables_of self.now) }
    {
        self.sets.get(&table.number())
    }

    /// The map of a property's table, with the numbers of the values, `None` where the text has no such table. The table
    /// accepts each of these numbers, also that past 10FFFF.
    pub fn map(&self, table: MapTable) -> Option<&CodePointTrie<u32>>
        ensures value { option_copied result ≡ map_of self.now table }
        ensures accepted { IfSome result (λ map. AreAccepted table (value_at map.now)) }
    {
        self.maps.get(&table.number())
    }

    /// The names of the values of a property, `None` where the text has no such table.
    pub fn names(&self, table: NamesTable) -> Option<&PropertyValueNameToEnumMap>
        ensures { option_copied result ≡ names_of self.now table }
    {
        self.names.get(&table.number())
    }

    /// The long names of the values of a property, `None` where the text has no such table, and for combining classes,
    /// whose names are kept otherwise.
    pub fn long_linear(&self, table: MapTable) -> Option<&PropertyEnumToValueNameLinearMap>
        ensures { option_map linear_text (option_copied result) ≡
            (if nat_eq table combining_class_table then None else long_of self.now table) }
    {
        if table == MapTable::CANONICAL_COMBINING_CLASS {
            return None;
        }
        self.long_linear.get(&table.number())
    }

    /// The short names of the values of a property, `None` where the text has no such table, and for combining classes
    /// and scripts, whose names are kept otherwise.
    pub fn short_linear(&self, table: MapTable) -> Option<&PropertyEnumToValueNameLinearMap>
        ensures { option_map linear_text (option_copied result) ≡
            (if nat_eq table combining_class_table || nat_eq table script_table then None
            else short_of self.now table) }
    {
        if table == MapTable::CANONICAL_COMBINING_CLASS || table == MapTable::SCRIPT {
            return None;
        }
        self.short_linear.get(&table.number())
    }

    /// The long names of combining classes, `None` where the text has no such table.
    pub fn long_ccc(&self) -> Option<&PropertyEnumToValueNameSparseMap>
        ensures { option_map sparse_text (option_copied result) ≡ long_of self.now combining_class_table }
    {
        self.long_ccc.as_ref()
    }

    /// The short names of combining classes, `None` where the text has no such table.
    pub fn short_ccc(&self) -> Option<&PropertyEnumToValueNameSparseMap>
        ensures { option_map sparse_text (option_copied result) ≡ short_of self.now combining_class_table }
    {
        self.short_ccc.as_ref()
    }

    /// The subtags of scripts, `None` where the text has no short names of scripts.
    pub fn short_script(&self) -> Option<&PropertyScriptToIcuScriptMap>
        ensures { option_map subtag_text (option_copied result) ≡ short_of self.now script_table }
    {
        self.short_script.as_ref()
    }

    /// The emoji set of a table, `None` where the text has no such table.
    pub fn emoji(&self, table: EmojiTable) -> Option<&CodePointInversionListAndStringList>
        ensures { option_copied result ≡ emoji_of self.now table }
    {
        self.emoji.get(&table.number())
    }

    /// The scripts with extensions, `None` where the text has no such table.
    pub fn scripts(&self) -> Option<&ScriptWithExtensionsProperty>
        ensures { option_copied result ≡ scripts_of self.now }
    {
        self.scripts.as_ref().map(|table| &table.property)
    }

    /// How many tables of the kind the text has.
    pub fn table_count(&self, kind: TableKind) -> usize
        ensures { result ≡ table_count kind (tables_of self.now) }
    {
        table_count(self, kind)
    }

    /// Whether there is a list at the index.
    pub(crate) fn has_list(&self, index: u64) -> bool
        ensures { result ≡ is_some (list_at self.now index) }
    {
        match &self.scripts {
            Some(table) => table.property.lists.contains_key(&index),
            None => self.lists.contains_key(&index),
        }
    }

    /// Whether a number of the scripts with extensions tells the place of a list that isn't there.
    #[tactic(auto, unfolding(crate::specs::LineFault::lacks_some_list))]
    pub(crate) fn lacks_list(&self) -> bool
        ensures { result ≡ lacks_some_list (tables_of self.now) }
    {
        match &self.scripts {
            Some(table) => lacks_some(table),
            None => false,
        }
    }

    /// Whether there are names of this length of the table.
    pub(crate) fn has_texts(&self, length: Length, table: MapTable) -> bool
        ensures { result ≡ is_some (texts_of self.now length table) }
    {
        match length {
            Length::Long => self.has_long(table.number()),
            Length::Short => self.has_short(table.number()),
        }
    }

    /// Whether there are long names of the table with this number.
    pub(crate) fn has_long(&self, number: u8) -> bool
        ensures { result ≡ is_some (long_of self.now number) }
    {
        if number == MapTable::CANONICAL_COMBINING_CLASS.number() {
            self.long_ccc.is_some()
        } else {
            self.long_linear.contains_key(&number)
        }
    }

    /// Whether there are short names of the table with this number.
    pub(crate) fn has_short(&self, number: u8) -> bool
        ensures { result ≡ is_some (short_of self.now number) }
    {
        if number == MapTable::CANONICAL_COMBINING_CLASS.number() {
            self.short_ccc.is_some()
        } else if number == MapTable::SCRIPT.number() {
            self.short_script.is_some()
        } else {
            self.short_linear.contains_key(&number)
        }
    }
}
