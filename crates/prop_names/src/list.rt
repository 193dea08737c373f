//! Names in order, found by binary search.
ghost use Rattle.std.specs.Prelude.{◌≡◌, IfOk};
ghost use Rattle.std.specs.List.Sorted.{IsStrictlySortedBy};
ghost use Rattle.std.specs.Map.{lookup, keys_of};
ghost use Rattle.std.specs.Str.{bytes_eq};
ghost use Rattle.std.specs.String.{string_cmp};
ghost use Rattle.prop_names.specs.Folding.{query_folding};
ghost use Rattle.prop_names.specs.Texts.{texts};

use crate::folding::compare_folded;
use cp_invlist::NoMemory;
use std::alloc::Global;
use std::collections::BTreeMap;
use std::marker::Model;

/// Names with the numbers of values, in order. A contract sees it as the list of both.
#[derive(Drop)]
pub(crate) struct NameList {
    rows: Vec<(String, u16)>,
}

impl Model for NameList {
    ghost use Rattle.std.specs.Prelude.{◌≡◌, true};
    ghost use Rattle.prop_names.specs.Names.{Names, ascend};
    ghost use Rattle.prop_names.specs.Texts.{texts};

    ghost Value = { Names };

    ghost view = { λ s. texts s.rows.items };

    ghost invariant = { λ s. ascend (texts s.rows.items) ≡ true };
}

impl NameList {
    /// The names of an ordered map.
    pub(crate) fn from_map(alloc: Global, map: BTreeMap<String, u16>) -> Result<NameList, NoMemory>
        ensures { IfOk result (λ list. list ≡ texts map.entries) }
    {
        Ok(NameList {
            rows: rows_of(alloc, map)?,
        })
    }

    /// The same names.
    pub(crate) fn copy(&self, alloc: Global) -> Result<NameList, NoMemory>
        ensures { IfOk result (λ list. list ≡ self.now) }
    {
        Ok(NameList {
            rows: copy_of(alloc, &self.rows)?,
        })
    }

    /// The value of the name.
    pub(crate) fn get(&self, name: &[u8]) -> Option<u16>
        ensures { result ≡ lookup (bytes_eq name.now) self.now }
    {
        match self.rows.binary_search_by(|row| row.0.as_bytes().cmp(name)) {
            Ok(place) => Some(self.rows[place].1),
            Err(_) => None,
        }
    }

    /// The value of the name that is the folded query.
    pub(crate) fn get_folded(&self, query: &[u8]) -> Option<u16>
        ensures { result ≡ lookup (bytes_eq (query_folding query.now)) self.now }
    {
        match self
            .rows
            .binary_search_by(|row| compare_folded(row.0.as_bytes(), query))
        {
            Ok(place) => Some(self.rows[place].1),
            Err(_) => None,
        }
    }
}

/// The entries of an ordered map.
fn rows_of(alloc: Global, map: BTreeMap<String, u16>) -> Result<Vec<(String, u16)>, NoMemory>
    ensures rows { IfOk result (λ rows. rows.items ≡ map.entries) }
    ensures ordered { IsStrictlySortedBy string_cmp (keys_of map.entries) }
{
    Ok(map.into_iter().collect(alloc)?)
}

/// The same rows.
fn copy_of(alloc: Global, rows: &[(String, u16)]) -> Result<Vec<(String, u16)>, NoMemory>
    ensures { IfOk result (λ copy. texts copy.items ≡ texts rows.now) }
{
    let mut copy = Vec::with_capacity(alloc, rows.len())?;
    for (name, value) in rows {
        copy.push((name.clone()?, *value))?;
    }
    Ok(copy)
}
