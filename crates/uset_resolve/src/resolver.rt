//! The lists that were made for the properties of patterns.
ghost use Rattle.std.specs.Prelude.{◌≡◌, IfOk, IfSome};
ghost use Rattle.prop_data.specs.Database.{tables_of};
ghost use Rattle.uset_gather.specs.Gathered.{list_in};
ghost use Rattle.uset_resolve.specs.Made.{AreMade, of_origin};
ghost use Rattle.uset_resolve.specs.Sources.{HasSource, IsList, IsSource};

use cp_invlist::{CodePointInversionList, NoMemory};
use prop_data::PropertyDatabase;
use std::alloc::Global;
use std::collections::{BTreeMap, BTreeSet};
use std::marker::Model;
use std::rc::Rc;
use uset_gather::Source;

/// Where what is kept takes the room of so many ranges, it is forgotten before a further pattern is read.
const FULL: usize = 1 << 23;

/// The index of a list takes the room of so many ranges.
const INDEX: usize = 17_408;

/// What the code points of a list have in common.
#[derive(Clone, Copy, PartialEq, Eq, PartialOrd, Ord)]
pub(crate) enum Origin {
    /// Their categories are in the group with this number.
    Group(u16),
    /// The script with this number is among their script extensions.
    Extension(u16),
    /// The table with this number gives them this value.
    Value(u8, u16),
}

/// Resolves properties over the tables of a database. A list that is made for one is kept, and shared by all that ask for the same
/// code points, in whatever words. A contract sees it as the database.
pub struct Resolver<'a> {
    pub(crate) database: &'a PropertyDatabase,
    made: BTreeMap<Origin, Rc<CodePointInversionList>>,
    /// What was asked for a second time, of that whose list is long.
    again: BTreeSet<Origin>,
    /// What the lists that are kept take, with their indexes: the room of so many ranges.
    ranges: usize,
}

// By hand, so that letting a value go is one call in each proof.
impl Drop for Resolver<'_> {
    fn drop(self) {
        let Self {
            database: _,
            made: _,
            again: _,
            ranges: _,
        } = self;
    }
}

impl<'a> Model for Resolver<'a> {
    ghost use Rattle.std.specs.Coded.{codes};
    ghost use Rattle.prop_data.specs.Database.{tables_of};
    ghost use Rattle.prop_data.specs.contracts.database.PropertyDatabase as seen;
    ghost use Rattle.prop_data.specs.declared.database.PropertyDatabase.{PropertyDatabase as Seen};
    ghost use Rattle.uset_resolve.specs.Made.{AreMade};

    ghost Value = { Seen };

    ghost coded = { Prim.hlevel (codes, seen.the_row.coded) };

    ghost view = { λ r. r.database.now };

    ghost invariant = { λ r. AreMade (tables_of r.database.now) r.made };
}

impl<'a> Resolver<'a> {
    /// A resolver over the database.
    pub fn new(alloc: Global, database: &'a PropertyDatabase) -> Resolver<'a>
        ensures { result ≡ database.now }
    {
        Resolver {
            database,
            made: BTreeMap::new(alloc),
            again: BTreeSet::new(alloc),
            ranges: 0,
        }
    }

    /// The database.
    pub fn database(&self) -> &'a PropertyDatabase
        ensures { result.now ≡ self.now }
    {
        self.database
    }

    /// Forgets the lists where they take much memory. They are made anew where they are asked for.
    pub fn forget_many(&mut self, alloc: Global)
        ensures { self.new ≡ self.old }
    {
        if self.ranges >= FULL {
            self.made = BTreeMap::new(alloc);
            self.again = BTreeSet::new(alloc);
            self.ranges = 0;
        }
    }

    /// Keeps the list of these code points.
    fn keep(
        &mut self,
        alloc: Global,
        origin: Origin,
        list: CodePointInversionList,
    ) -> Result<Source<'a>, NoMemory>
        requires { HasSource list (of_origin (tables_of self.old) origin) }
        ensures list { IfOk result (λ source. list_in source ≡ list) }
        ensures same { self.new ≡ self.old }
    {
        let list = Rc::new(alloc, list)?;
        self.made.insert(origin, list.clone()?)?;
        Ok(Source::Shared(list))
    }

    /// The list that is kept of these code points. One that is long gets an index when it is asked for the third time: a
    /// pattern that names it once asks twice, as it's read and for its set.
    fn get(&mut self, alloc: Global, origin: Origin) -> Result<Option<Source<'a>>, NoMemory>
        ensures source { IfOk result (λ source.
            IfSome source (λ s. HasSource (list_in s) (of_origin (tables_of self.old) origin))) }
        ensures same { self.new ≡ self.old }
    {
        let Some(list) = self.made.get(&origin) else {
            return Ok(None);
        };
        if !list.is_long() || !list.words().is_empty() || self.again.insert(origin)? {
            return Ok(Some(Source::Shared(list.clone()?)));
        }
        let mut indexed = list.copy(alloc)?;
        indexed.index(alloc)?;
        self.ranges = self.ranges.saturating_add(INDEX);
        Ok(Some(self.keep(alloc, origin, indexed)?))
    }

    /// The list of these code points, which is made where none is kept.
    pub(crate) fn get_or_make<F>(
        &mut self,
        alloc: Global,
        origin: Origin,
        make: F,
    ) -> Result<Option<Source<'a>>, NoMemory>
    where
        F: FnOnce() -> Result<Option<CodePointInversionList>, NoMemory>,
        requires callable { F.IsAlwaysCallable make }
        requires makes { (made : _) → F.post make made →
            IfOk made (λ list. IsList list (of_origin (tables_of self.old) origin)) }
        ensures source { IfOk result (λ source. IsSource source (of_origin (tables_of self.old) origin)) }
        ensures same { self.new ≡ self.old }
    {
        if let Some(source) = self.get(alloc, origin)? {
            return Ok(Some(source));
        }
        let Some(list) = make()? else {
            return Ok(None);
        };
        let ranges = list.get_range_count();
        self.ranges = self.ranges.saturating_add(ranges);
        Ok(Some(self.keep(alloc, origin, list)?))
    }
}
