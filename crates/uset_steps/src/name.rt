//! The names of sets.
use cp_invlist::NoMemory;
use std::alloc::Global;
use uset_read::Query;

/// What a set is called in a pattern. As long as a pattern is read, one name stands for one set.
#[derive(Drop)]
pub enum Name {
    /// A variable, by its name.
    Variable(String),
    /// A property, by what it asks.
    Property(Query),
}

impl Name {
    ghost use Rattle.std.specs.Prelude.{◌≡◌, IfOk};
    ghost use Rattle.uset_steps.specs.Names.{name_seen};

    /// An equal name.
    pub(crate) fn copy(&self, alloc: Global) -> Result<Name, NoMemory>
        ensures { IfOk result (λ name. name_seen name ≡ name_seen self.now) }
    {
        match self {
            Name::Variable(name) => Ok(Name::Variable(String::from_str(alloc, name.as_str())?)),
            Name::Property(query) => Ok(Name::Property(query.copy(alloc)?)),
        }
    }
}
