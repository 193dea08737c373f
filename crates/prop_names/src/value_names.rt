//! The tables that find the name of a value.
ghost use Rattle.std.specs.Prelude.{◌≡◌, ◌<◌, ℕ, List, Option, length, map, IfOk, IfSome};
ghost use Rattle.std.specs.Option.{option_copied};
ghost use Rattle.std.specs.String.{string_bytes};
ghost use Rattle.prop_names.specs.Subtags.{AreSubtags};

use crate::by_number::NamesByNumber;
use crate::texts::{copy_listed, listed};
use cp_invlist::NoMemory;
use prop_values::Subtag;
use std::alloc::Global;

/// A table of names by the numbers of the values.
pub trait PropertyEnumToValueNameLookup {
    /// The name of a number, if it has one.
    ghost name_of: { Self → ℕ → Option (List ℕ) };

    /// The name of the value with this number. An empty text is no name.
    fn get(&self, prop: u32) -> Option<&str>
        ensures value { option_copied result ≡ name_of self.now prop }
        ensures filled { IfSome result (λ name. 0 < length name.now) };

    /// The same names. `NoMemory` says that a request for memory was refused.
    fn copy(&self, alloc: Global) -> Result<Self, NoMemory>
    where
        Self: Sized,
        ensures { IfOk result (λ table. (n : ℕ) → name_of table n ≡ name_of self.now n) };
}

/// Names by number: as a list, where an empty text is none, or in the order of the numbers that have one.
pub(crate) enum LinearNames {
    Listed(Vec<String>),
    Ordered(NamesByNumber),
}

// By hand, so that letting a value go is one call in each proof.
impl Drop for LinearNames {
    fn drop(self) {
        match self {
            LinearNames::Listed(_) => {}
            LinearNames::Ordered(_) => {}
        }
    }
}

/// The names of values, most of which have one: as a list by their numbers, or in the order of these.
#[derive(Drop)]
pub struct PropertyEnumToValueNameLinearMap {
    names: LinearNames,
}

impl PropertyEnumToValueNameLinearMap {
    ghost use Rattle.prop_names.specs.ValueNames.{listed_at};
    ghost use Rattle.prop_names.specs.ValueNameTables.{linear_text, name_at};

    /// The table in which each text is the name of its index. An empty text is no name.
    pub fn from_names(names: Vec<String>) -> PropertyEnumToValueNameLinearMap
        ensures { (n : ℕ) → linear_text result n ≡ listed_at (map string_bytes names.items) n }
    {
        PropertyEnumToValueNameLinearMap {
            names: LinearNames::Listed(names),
        }
    }

    /// The table of these names.
    pub fn from_ordered(names: NamesByNumber) -> PropertyEnumToValueNameLinearMap
        ensures { (n : ℕ) → linear_text result n ≡ name_at names n }
    {
        PropertyEnumToValueNameLinearMap {
            names: LinearNames::Ordered(names),
        }
    }
}

impl PropertyEnumToValueNameLookup for PropertyEnumToValueNameLinearMap {
    ghost use Rattle.prop_names.specs.ValueNameTables.{linear_text};

    ghost name_of = { linear_text };

    fn get(&self, prop: u32) -> Option<&str> {
        match &self.names {
            LinearNames::Listed(names) => listed(names, prop as usize),
            LinearNames::Ordered(names) => names.get(prop),
        }
    }

    fn copy(&self, alloc: Global) -> Result<PropertyEnumToValueNameLinearMap, NoMemory> {
        let names = match &self.names {
            LinearNames::Listed(names) => LinearNames::Listed(copy_listed(alloc, names)?),
            LinearNames::Ordered(names) => LinearNames::Ordered(names.copy()?),
        };
        Ok(PropertyEnumToValueNameLinearMap { names })
    }
}

/// The names of values of which few have one.
#[derive(Drop)]
pub struct PropertyEnumToValueNameSparseMap {
    names: NamesByNumber,
}

impl PropertyEnumToValueNameSparseMap {
    ghost use Rattle.prop_names.specs.ValueNameTables.{sparse_text, name_at};

    /// The table of these names.
    pub fn from_ordered(names: NamesByNumber) -> PropertyEnumToValueNameSparseMap
        ensures { (n : ℕ) → sparse_text result n ≡ name_at names n }
    {
        PropertyEnumToValueNameSparseMap { names }
    }
}

impl PropertyEnumToValueNameLookup for PropertyEnumToValueNameSparseMap {
    ghost use Rattle.prop_names.specs.ValueNameTables.{sparse_text};

    ghost name_of = { sparse_text };

    fn get(&self, prop: u32) -> Option<&str> {
        self.names.get(prop)
    }

    fn copy(&self, _alloc: Global) -> Result<PropertyEnumToValueNameSparseMap, NoMemory> {
        Ok(PropertyEnumToValueNameSparseMap {
            names: self.names.copy()?,
        })
    }
}

/// The subtags of scripts.
#[derive(Drop)]
pub struct PropertyScriptToIcuScriptMap {
    subtags: NamesByNumber,
    ghost each: { AreSubtags subtags },
}

impl PropertyScriptToIcuScriptMap {
    ghost use Rattle.prop_names.specs.ValueNameTables.{subtag_text, name_at};

    /// The table of these subtags.
    pub fn from_ordered(subtags: NamesByNumber) -> PropertyScriptToIcuScriptMap
        requires { AreSubtags subtags }
        ensures { (n : ℕ) → subtag_text result n ≡ name_at subtags n }
    {
        PropertyScriptToIcuScriptMap { subtags }
    }

    /// The subtag of the script with this number.
    pub fn get_script(&self, prop: u32) -> Option<Subtag>
        ensures { result ≡ subtag_text self.now prop }
    {
        Subtag::try_from_str(self.subtags.get(prop)?)
    }
}

impl PropertyEnumToValueNameLookup for PropertyScriptToIcuScriptMap {
    ghost use Rattle.prop_names.specs.ValueNameTables.{subtag_text};

    ghost name_of = { subtag_text };

    fn get(&self, prop: u32) -> Option<&str> {
        self.subtags.get(prop)
    }

    fn copy(&self, _alloc: Global) -> Result<PropertyScriptToIcuScriptMap, NoMemory> {
        Ok(PropertyScriptToIcuScriptMap {
            subtags: self.subtags.copy()?,
        })
    }
}
