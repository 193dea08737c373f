//! The scripts of code points with their extensions (UAX 24, section 2.8).
ghost use Rattle.std.specs.Prelude.{◌≡◌, ℕ, nat_eq, Some, IfOk, OnOk, if◌then◌else◌};
ghost use Rattle.std.specs.List.{list_any};
ghost use Rattle.prop_data.specs.Database.{lists_beside};
ghost use Rattle.prop_data.specs.Extensions.{list_in, list_of, list_seen};
ghost use Rattle.prop_data.specs.LineFault.{lacks_list, is_plain_list, is_script_list};

use cp_invlist::NoMemory;
use cp_trie::CodePointTrie;
use prop_values::{Script, ScriptWithExt};
use std::alloc::{AllocError, Global};
use std::collections::BTreeMap;
use std::mem::replace;

/// A list of scripts, which begins with that of its header, where the header has one.
#[derive(Drop)]
pub(crate) struct ListedScripts {
    has_script: bool,
    scripts: Vec<Script>,
}

impl ListedScripts {
    ghost use Rattle.std.specs.Prelude.{◌≡◌};
    ghost use Rattle.prop_data.specs.Extensions.{list_seen};

    pub(crate) fn new(has_script: bool, scripts: Vec<Script>) -> ListedScripts
        ensures { list_seen result ≡ record { has_script = has_script; scripts = scripts.items } }
    {
        ListedScripts {
            has_script,
            scripts,
        }
    }
}

impl Clone for ListedScripts {
    ghost use Rattle.std.specs.Prelude.{◌≡◌};
    ghost use Rattle.prop_data.specs.Extensions.{list_seen};

    ghost is_clone = { λ list copy. list_seen copy ≡ list_seen list };

    fn clone(&self) -> Result<ListedScripts, AllocError> {
        Ok(ListedScripts {
            has_script: self.has_script,
            scripts: self.scripts.clone()?,
        })
    }
}

/// The scripts with extensions of a table text: a number for each code point, and lists of scripts.
#[derive(Drop)]
pub struct ScriptWithExtensionsProperty {
    pub(crate) trie: CodePointTrie<ScriptWithExt>,
    pub(crate) lists: BTreeMap<u64, ListedScripts>,
}

impl ScriptWithExtensionsProperty {
    ghost use Rattle.std.specs.Prelude.{◌≡◌, ℕ, IfOk, option_map};
    ghost use Rattle.std.specs.Option.{option_copied};
    ghost use Rattle.cp_trie.specs.Map.{value_at};
    ghost use Rattle.prop_data.specs.Extensions.{scripts_map, list_of};

    /// The script, or the place of a list, of each code point.
    pub fn script_trie(&self) -> &CodePointTrie<ScriptWithExt>
        ensures { result.now ≡ scripts_map self.now }
    {
        &self.trie
    }

    /// The list of scripts at this index, with the script of its header first, where the header has one. `None` where no list has
    /// the index.
    pub fn extensions(&self, index: u16) -> Option<&[Script]>
        ensures { option_copied result ≡ option_map (λ list. list.scripts) (list_of self.now index) }
    {
        let list = self.lists.get(&u64::from(index))?;
        Some(list.scripts.as_slice())
    }

    /// The same numbers and lists. `NoMemory` says that a request for memory was refused.
    pub fn copy(&self, alloc: Global) -> Result<ScriptWithExtensionsProperty, NoMemory>
        ensures numbers { IfOk result
            (λ copy. (c : ℕ) → value_at (scripts_map copy) c ≡ value_at (scripts_map self.now) c) }
        ensures lists { IfOk result (λ copy. (n : ℕ) → list_of copy n ≡ list_of self.now n) }
    {
        Ok(ScriptWithExtensionsProperty {
            trie: self.trie.copy(alloc)?,
            lists: copy_lists(&self.lists)?,
        })
    }
}

/// The same lists.
fn copy_lists(
    lists: &BTreeMap<u64, ListedScripts>,
) -> Result<BTreeMap<u64, ListedScripts>, NoMemory>
    ensures { IfOk result (λ copy. (n : ℕ) → list_in copy n ≡ list_in lists.now n) }
{
    Ok(lists.clone()?)
}

/// Keeps the list at its index.
pub(crate) fn keep_list(
    lists: &mut BTreeMap<u64, ListedScripts>,
    index: u64,
    list: ListedScripts,
) -> Result<(), NoMemory>
    ensures { OnOk result
        ((n : ℕ) → list_in lists.new n ≡ (if nat_eq index n then Some (list_seen list) else list_in lists.old n)) }
{
    lists.insert(index, list)?;
    Ok(())
}

/// The scripts with extensions as a database keeps them.
#[derive(Drop)]
pub(crate) struct ScriptTable {
    pub(crate) property: ScriptWithExtensionsProperty,
    /// The numbers that the header and the rows name.
    pub(crate) named: Vec<u16>,
}

/// Takes the lists from where a database keeps them: beside its scripts with extensions, where it has them.
pub(crate) fn take_lists(
    scripts: &mut Option<ScriptTable>,
    lists: &mut BTreeMap<u64, ListedScripts>,
    alloc: Global,
) -> BTreeMap<u64, ListedScripts>
    ensures { (n : ℕ) → list_in result n ≡ lists_beside scripts.old (list_in lists.old) n }
{
    match scripts.take() {
        Some(table) => table.property.lists,
        None => replace(lists, BTreeMap::new(alloc)),
    }
}

/// Whether the number tells the place of a list that isn't there.
fn lacks_list(property: &ScriptWithExtensionsProperty, number: u16) -> bool
    ensures { result ≡ lacks_list (list_of property.now) number }
{
    let place = ScriptWithExt(number);
    let list = property.lists.get(&u64::from(place.list_index()));
    if place.is_common() || place.is_inherited() {
        list.is_none_or(|list| list.has_script)
    } else if place.is_other() {
        list.is_none_or(|list| !list.has_script)
    } else {
        false
    }
}

/// Whether one of the numbers that the table names tells the place of a list that isn't there.
pub(crate) fn lacks_some(table: &ScriptTable) -> bool
    ensures { result ≡ list_any (lacks_list (list_of table.now.property)) table.now.named.items }
{
    table
        .named
        .iter()
        .any(|number| lacks_list(&table.property, *number))
}
