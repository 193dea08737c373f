//! The script and the script extensions of a code point.
ghost use Rattle.std.specs.Prelude.{◌≡◌, ◌↔◌, ℕ, ◌%◌, List, Some, IfOk, IsSomeAnd, IsTrue, Contains};
ghost use Rattle.cp_invlist.specs.InversionList.{contains};
ghost use Rattle.cp_invlist.specs.Ranges.{in_ranges, AreMaximalRanges};
ghost use Rattle.cp_invlist.specs.declared.ranges.CodePointRange.{CodePointRange};
ghost use Rattle.prop_data.specs.Database.{scripts_of};
ghost use Rattle.prop_data.specs.Extensions.{list_of};
ghost use Rattle.prop_query.specs.Answers.{NeedsTable, NeedsTableAndMemory};
ghost use Rattle.prop_query.specs.Scripts.{script_of, extensions_of, has_script, number_has, extensions_of_number, scripts_listed, others, AnswersAs};

mod extensions;
mod has_script;

use crate::absent::absent;
use crate::ranges::RangesWhere;
use cp_invlist::laws::{one_list_of_ranges, ranges_hold_members};
use cp_invlist::{CodePointInversionList, LAST_CODE_POINT, NoMemory};
pub use extensions::{ScriptExtensionsIter, ScriptExtensionsSet};
use has_script::HasScript;
use prop_data::{DataError, PropertyDatabase, ScriptWithExtensionsProperty, TableName};
use prop_values::{Script, ScriptWithExt};
use std::alloc::Global;

/// The scripts with extensions of a database (UAX 24, section 2.8), as a copy of its own.
#[derive(Drop)]
pub struct ScriptWithExtensions {
    property: ScriptWithExtensionsProperty,
}

/// The scripts with extensions of a database (UAX 24, section 2.8), borrowed.
#[derive(Clone, Copy)]
pub struct ScriptWithExtensionsBorrowed<'a> {
    property: &'a ScriptWithExtensionsProperty,
}

/// The maximal ranges of the code points that have a script among their script extensions, in order.
pub type ScriptExtensionsRanges<'a> = RangesWhere<'a, ScriptWithExt, HasScript<'a>>;

impl ScriptWithExtensions {
    ghost use Rattle.prop_query.specs.ScriptTypes.{table_of, table_owned};

    /// The scripts of the database, borrowed. `Absent` names the scripts, exactly where the database has none.
    pub fn new<'a>(
        database: &'a PropertyDatabase,
    ) -> Result<ScriptWithExtensionsBorrowed<'a>, DataError>
        ensures table { IfOk result (λ scripts. scripts_of database.now ≡ Some (table_of scripts)) }
        ensures needs { NeedsTable TableName.Scripts (scripts_of database.now) result }
    {
        ScriptWithExtensionsBorrowed::new(database)
    }

    /// A copy of the scripts of the database. `Absent` names the scripts, exactly where the database has none, and `NoMemory` says
    /// that a request for memory was refused.
    pub fn try_new_unstable(
        alloc: Global,
        database: &PropertyDatabase,
    ) -> Result<ScriptWithExtensions, DataError>
        ensures table { IfOk result (λ scripts.
            IsSomeAnd (scripts_of database.now) (AnswersAs (table_owned scripts))) }
        ensures needs { NeedsTableAndMemory TableName.Scripts (scripts_of database.now) result }
    {
        let property = database.scripts().ok_or(absent(TableName::Scripts))?;
        Ok(ScriptWithExtensions {
            property: property.copy(alloc)?,
        })
    }

    /// These scripts, borrowed.
    pub fn as_borrowed(&self) -> ScriptWithExtensionsBorrowed<'_>
        ensures { table_of result ≡ table_owned self.now }
    {
        ScriptWithExtensionsBorrowed {
            property: &self.property,
        }
    }
}

impl<'a> ScriptWithExtensionsBorrowed<'a> {
    ghost use Rattle.prop_query.specs.ScriptTypes.{table_of, scripts_in};

    /// The scripts of the database. `Absent` names the scripts, exactly where the database has none.
    pub fn new(
        database: &'a PropertyDatabase,
    ) -> Result<ScriptWithExtensionsBorrowed<'a>, DataError>
        ensures table { IfOk result (λ scripts. scripts_of database.now ≡ Some (table_of scripts)) }
        ensures needs { NeedsTable TableName.Scripts (scripts_of database.now) result }
    {
        let property = database.scripts().ok_or(absent(TableName::Scripts))?;
        Ok(ScriptWithExtensionsBorrowed { property })
    }

    /// The script of a character.
    pub fn get_script_val(self, ch: char) -> Script
        ensures { result ≡ script_of (table_of self.entry) ch }
    {
        self.get_script_val32(u32::from(ch))
    }

    /// The script of a code point: Unknown past 10FFFF.
    pub fn get_script_val32(self, code_point: u32) -> Script
        ensures { result ≡ script_of (table_of self.entry) code_point }
    {
        if LAST_CODE_POINT < code_point {
            return Script::Unknown;
        }
        let number = self.property.script_trie().get32(code_point);
        if number.is_common() {
            Script::Common
        } else if number.is_inherited() {
            Script::Inherited
        } else if number.is_other() {
            let scripts = self.list(number);
            scripts.first().copied().unwrap_or(Script::Unknown)
        } else {
            Script::from(number)
        }
    }

    /// The script extensions of a character.
    pub fn get_script_extensions_val(self, ch: char) -> ScriptExtensionsSet<'a>
        ensures { scripts_in result ≡ extensions_of (table_of self.entry) ch }
    {
        self.get_script_extensions_val32(u32::from(ch))
    }

    /// The script extensions of a code point: none past 10FFFF.
    pub fn get_script_extensions_val32(self, code_point: u32) -> ScriptExtensionsSet<'a>
        ensures { scripts_in result ≡ extensions_of (table_of self.entry) code_point }
    {
        if LAST_CODE_POINT < code_point {
            return ScriptExtensionsSet::listed(&[]);
        }
        self.extensions(self.property.script_trie().get32(code_point))
    }

    /// Whether the script is among the script extensions of a character.
    pub fn has_script(self, ch: char, script: Script) -> bool
        ensures value { result ≡ has_script (table_of self.entry) script ch }
        ensures member { IsTrue result ↔ Contains (extensions_of (table_of self.entry) ch) script }
    {
        self.has_script32(u32::from(ch), script)
    }

    /// Whether the script is among the script extensions of a code point, as those of `get_script_extensions_val32`.
    pub fn has_script32(self, code_point: u32, script: Script) -> bool
        ensures value { result ≡ has_script (table_of self.entry) script code_point }
        ensures member { IsTrue result ↔ Contains (extensions_of (table_of self.entry) code_point) script }
    {
        self.get_script_extensions_val32(code_point)
            .contains(&script)
    }

    /// The maximal ranges of the code points that have the script among their script extensions, in order.
    pub fn get_script_extensions_ranges(self, script: Script) -> ScriptExtensionsRanges<'a>
        ensures maximal { AreMaximalRanges (has_script (table_of self.entry) script) result }
        ensures only { (rs : List CodePointRange) →
            AreMaximalRanges (has_script (table_of self.entry) script) rs → rs ≡ result }
        ensures covered { (c : ℕ) → in_ranges result c ≡ has_script (table_of self.entry) script c }
    {
        one_list_of_ranges();
        ranges_hold_members();
        let runs = self.property.script_trie().iter_ranges();
        RangesWhere::new(runs, HasScript::new(self, script))
    }

    /// The code points that have the script among their script extensions. `NoMemory` says that a request for memory
    /// was refused.
    pub fn get_script_extensions_set(
        self,
        alloc: Global,
        script: Script,
    ) -> Result<CodePointInversionList, NoMemory>
        ensures { IfOk result (λ set. (c : ℕ) → contains set c ≡ has_script (table_of self.entry) script c) }
    {
        let mut test = HasScript::new(self, script);
        self.property.script_trie().get_set_where(alloc, &mut test)
    }

    /// The scripts of the list at the index in the low ten bits of the number.
    fn list(self, number: ScriptWithExt) -> &'a [Script]
        ensures { result.now ≡ scripts_listed (list_of (table_of self.entry) (number % 1024)) }
    {
        self.property.extensions(number.list_index()).unwrap_or(&[])
    }

    /// The script extensions that a number stands for.
    fn extensions(self, number: ScriptWithExt) -> ScriptExtensionsSet<'a>
        ensures { scripts_in result ≡ extensions_of_number (list_of (table_of self.entry)) number }
    {
        if number.is_common() || number.is_inherited() {
            return ScriptExtensionsSet::listed(self.list(number));
        }
        if number.is_other() {
            // The first of the list is the script of the code point.
            return ScriptExtensionsSet::listed(behind_first(self.list(number)));
        }
        ScriptExtensionsSet::single(Script::from(number))
    }

    /// Whether the script of a number is among the script extensions that another number stands for.
    fn number_has(self, number: ScriptWithExt, script: u16) -> bool
        ensures { result ≡ number_has (table_of self.entry) script number }
    {
        let script = Script::from_icu4c_value(script);
        self.extensions(number).contains(&script)
    }
}

/// The scripts behind the first.
fn behind_first(scripts: &[Script]) -> &[Script]
    ensures { result.now ≡ others scripts.now }
{
    match scripts {
        [_, others @ ..] => others,
        [] => scripts,
    }
}
