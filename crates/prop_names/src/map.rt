//! The table that finds the value of a name.
ghost use Rattle.std.specs.Prelude.{◌≡◌, Some, IfSome, IfOk};
ghost use Rattle.prop_names.specs.Folding.{LacksSpacesAndHyphens};
ghost use Rattle.prop_names.specs.Names.{AreFoldings, value_of_name, value_of_query};

use crate::list::NameList;
use cp_invlist::NoMemory;
use std::alloc::Global;
use std::marker::Model;

/// The values of a property by their names. A contract sees it as the names with the numbers of their values, in the
/// order of the names.
pub struct PropertyValueNameToEnumMap {
    names: NameList,
    /// The foldings of the names.
    foldings: NameList,
}

// By hand, so that letting a value go is one call in each proof.
impl Drop for PropertyValueNameToEnumMap {
    fn drop(self) {
        let Self {
            names: _,
            foldings: _,
        } = self;
    }
}

impl Model for PropertyValueNameToEnumMap {
    ghost use Rattle.prop_names.specs.Names.{Names, AreFoldings};

    ghost Value = { Names };

    ghost view = { λ s. s.names };

    ghost invariant = { λ s. AreFoldings s.names s.foldings };
}

impl PropertyValueNameToEnumMap {
    pub(crate) fn new(names: NameList, foldings: NameList) -> PropertyValueNameToEnumMap
        requires foldings { AreFoldings names foldings }
        ensures { result ≡ names }
    {
        PropertyValueNameToEnumMap { names, foldings }
    }

    /// The same names. `NoMemory` says that a request for memory was refused.
    pub fn copy(&self, alloc: Global) -> Result<PropertyValueNameToEnumMap, NoMemory>
        ensures { IfOk result (λ table. table ≡ self.now) }
    {
        Ok(PropertyValueNameToEnumMap {
            names: self.names.copy(alloc)?,
            foldings: self.foldings.copy(alloc)?,
        })
    }

    /// The number of the value with this name, compared byte for byte. A name without white space and hyphens that is
    /// found so is found loosely too, with the same value.
    pub fn get_strict_u16(&self, name: &[u8]) -> Option<u16>
        ensures value { result ≡ value_of_name self.now name.now }
        ensures loosely { LacksSpacesAndHyphens name.now →
            IfSome result (λ value. value_of_query self.now name.now ≡ Some value) }
    {
        self.names.get(name)
    }

    /// The number of the value of the least name that folds as this one (UAX 44, section 5.9): in lower case and without
    /// U+0009 to U+000D, U+0020, `_` and hyphens. A name of the table loses its `_` alone, so that one with a hyphen is never
    /// found so. A prefix `is` stays.
    pub fn get_loose_u16(&self, name: &[u8]) -> Option<u16>
        ensures value { result ≡ value_of_query self.now name.now }
        ensures strictly { LacksSpacesAndHyphens name.now →
            IfSome (value_of_name self.now name.now) (λ value. result ≡ Some value) }
    {
        self.foldings.get_folded(name)
    }
}
