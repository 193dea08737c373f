//! Names that are being read.
ghost use Rattle.std.specs.Prelude.{◌≡◌, [], IfSome, IfOk, OnOk, OnErr};
ghost use Rattle.std.specs.String.{string_bytes};
ghost use Rattle.prop_names.specs.Folding.{stored_folding};
ghost use Rattle.prop_names.specs.Names.{value_of_folding, with_name};

use crate::list::NameList;
use crate::map::PropertyValueNameToEnumMap;
use cp_invlist::NoMemory;
use std::alloc::Global;
use std::collections::BTreeMap;
use std::marker::Model;

/// Names with the numbers of values, in any order. Names with equal foldings have one value. A contract sees it as the
/// list of both in the order of the names.
#[derive(Drop)]
pub struct NamesBuilder {
    names: BTreeMap<String, u16>,
    /// The values by the foldings of the names.
    foldings: BTreeMap<String, u16>,
}

impl Model for NamesBuilder {
    ghost use Rattle.prop_names.specs.Names.{Names, AreFoldings};
    ghost use Rattle.prop_names.specs.Texts.{texts};

    ghost Value = { Names };

    ghost view = { λ s. texts s.names.entries };

    ghost invariant = { λ s. AreFoldings (texts s.names.entries) (texts s.foldings.entries) };
}

impl NamesBuilder {
    /// No names.
    pub fn new(alloc: Global) -> NamesBuilder
        ensures { result ≡ [] }
    {
        NamesBuilder {
            names: BTreeMap::new(alloc),
            foldings: BTreeMap::new(alloc),
        }
    }

    /// The value of the names with this folding.
    pub fn value_of_folding(&self, folding: &str) -> Option<u16>
        ensures { result ≡ value_of_folding self.now folding.now }
    {
        self.foldings.get(folding).copied()
    }

    /// Adds a name, whose folding has no other value. Where memory is refused nothing has changed.
    pub fn insert(&mut self, name: String, folding: String, value: u16) -> Result<(), NoMemory>
        requires folds { string_bytes folding ≡ stored_folding (string_bytes name) }
        requires agrees { IfSome (value_of_folding self.old (string_bytes folding)) (λ other. other ≡ value) }
        ensures ok { OnOk result (self.new ≡ with_name self.old (string_bytes name) value) }
        ensures err { OnErr result (self.new ≡ self.old) }
    {
        let key = folding.clone()?;
        let before = self.foldings.insert(folding, value)?;
        if let Err(refused) = self.names.insert(name, value) {
            if before.is_none() {
                self.foldings.remove(key.as_str());
            }
            return Err(NoMemory::from(refused));
        }
        Ok(())
    }

    /// The table of the names. `NoMemory` says that a request for memory was refused.
    pub fn build(self, alloc: Global) -> Result<PropertyValueNameToEnumMap, NoMemory>
        ensures { IfOk result (λ table. table ≡ self) }
    {
        Ok(PropertyValueNameToEnumMap::new(
            NameList::from_map(alloc, self.names)?,
            NameList::from_map(alloc, self.foldings)?,
        ))
    }
}
