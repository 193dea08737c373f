//! Where the sets that are kept stand.
use crate::name::Name;
use cp_invlist::NoMemory;
use std::alloc::Global;
use std::collections::BTreeMap;
use uset_read::Query;

/// The place of each set that is kept, by its name.
pub(crate) struct Places {
    variables: BTreeMap<String, usize>,
    properties: BTreeMap<Query, usize>,
}

// By hand, so that letting a value go is one call in each proof.
impl Drop for Places {
    fn drop(self) {
        let Self {
            variables: _,
            properties: _,
        } = self;
    }
}

impl Places {
    ghost use Rattle.std.specs.Prelude.{IfSome, IfNone, OnOk};
    ghost use Rattle.uset_read.specs.Queries.{query_seen};
    ghost use Rattle.uset_steps.specs.Names.{Name as SeenName, property, name_seen};
    ghost use Rattle.uset_steps.specs.Places.{IsPlaceIn, HasNoPlace, Adds};

    /// None yet.
    pub(crate) fn new(alloc: Global) -> Places
        ensures { (name : SeenName) → HasNoPlace result name }
    {
        Places {
            variables: BTreeMap::new(alloc),
            properties: BTreeMap::new(alloc),
        }
    }

    /// The place of the set of the property, if it is kept.
    pub(crate) fn of_property(&self, query: &Query) -> Option<usize>
        ensures found { IfSome result (IsPlaceIn self.now (property (query_seen query.now))) }
        ensures absent { IfNone result (HasNoPlace self.now (property (query_seen query.now))) }
    {
        self.properties.get(query).copied()
    }

    /// The place of the set with this name, if it is kept.
    pub(crate) fn of(&self, name: &Name) -> Option<usize>
        ensures found { IfSome result (IsPlaceIn self.now (name_seen name.now)) }
        ensures absent { IfNone result (HasNoPlace self.now (name_seen name.now)) }
    {
        match name {
            Name::Variable(name) => self.variables.get(name.as_str()).copied(),
            Name::Property(query) => self.of_property(query),
        }
    }

    /// Gives a name its place.
    pub(crate) fn add(&mut self, name: Name, place: usize) -> Result<(), NoMemory>
        ensures { OnOk result (Adds (name_seen name) place self.old self.new) }
    {
        match name {
            Name::Variable(name) => self.variables.insert(name, place)?,
            Name::Property(query) => self.properties.insert(query, place)?,
        };
        Ok(())
    }
}
