//! Sets in the making whose steps are put off.
use crate::closed::Closed;
use crate::later::Later;
use crate::literal::{Span, Spelled};
use crate::named_set::Named;
use crate::step::{Operation, Step, gather};
use cp_invlist::{CodePointRange, NoMemory};
use std::alloc::Global;
use std::mem::replace;
use uset_gather::{Gathered, Operand};
use uset_read::Query;

/// What a bracket gathers. From the first large set with a name on, steps are put off until the set is needed, or about 8 MB of
/// named sets and inner brackets are kept, so that a set which is named again and again costs little more than its names do.
/// Where memory is refused to `gather` or `gather_named` it is empty then; the other calls leave it as it was.
pub struct Gathering<'a> {
    gathered: Gathered,
    later: Option<Box<Later<'a>>>,
}

// By hand, so that letting a value go is one call in each proof.
impl Drop for Gathering<'_> {
    fn drop(self) {
        let Self {
            gathered: _,
            later: _,
        } = self;
    }
}

/// Where a set that was named before is kept.
#[derive(Clone, Copy)]
pub struct Place {
    index: usize,
}

impl<'a> Gathering<'a> {
    ghost use Rattle.std.specs.Prelude.{◌≡◌, ◌≤◌, ◌||◌, true, None, IfSome, IfNone, IfOk, OnOk, OnErr};
    ghost use Rattle.std.specs.Str.{chars};
    ghost use Rattle.std.specs.String.{string_bytes};
    ghost use Rattle.cp_strset.specs.StringList.{sole_of};
    ghost use Rattle.uset_grammar.specs.Tree.{Member, in_range};
    ghost use Rattle.uset_gather.specs.Gathered.{gathered_in, is_string};
    ghost use Rattle.uset_read.specs.Queries.{query_seen};
    ghost use Rattle.uset_steps.specs.Names.{property, Sets, IsSetOf, name_seen, named_in, is_large};
    ghost use Rattle.uset_steps.specs.Operations.{operated};
    ghost use Rattle.uset_steps.specs.Terms.{closed_in};
    ghost use Rattle.uset_steps.specs.Gathering.{gathering_in, closed, kept_at, Fits, IsPlaceOf, IsNowhere, IsSomewhere, StandsForSome, GathersKept, KeepsPlaces, Settles, Becomes, BecomesWith, IsEmpty};

    /// Nothing yet.
    pub fn new(alloc: Global) -> Gathering<'a>
        ensures empty { IsEmpty result }
        ensures kept { (place : Place) → kept_at result place ≡ None }
    {
        Gathering {
            gathered: Gathered::new(alloc),
            later: None,
        }
    }

    /// Adds the code points of the range. Where memory is refused nothing has changed.
    #[inline]
    pub fn add_range(&mut self, range: CodePointRange) -> Result<(), NoMemory>
        requires { range.end ≤ 0x10_FFFF }
        ensures becomes { OnOk result
            (Becomes self.old self.new (λ sets m. gathering_in sets self.old m || in_range range.start range.end m)) }
        ensures err { OnErr result (Settles self.old self.new) }
        ensures places { KeepsPlaces self.old self.new }
    {
        let Some(later) = &mut self.later else {
            return self.gathered.add_range(range);
        };
        later.put_off(Step::Range(Span::new(range)))
    }

    /// Adds a string, which isn't one character. Where memory is refused nothing has changed.
    pub fn add_text(&mut self, alloc: Global, text: String) -> Result<(), NoMemory>
        requires { sole_of (chars (string_bytes text)) ≡ None }
        ensures becomes { OnOk result
            (Becomes self.old self.new (λ sets m. gathering_in sets self.old m || is_string (string_bytes text) m)) }
        ensures err { OnErr result (Settles self.old self.new) }
        ensures places { KeepsPlaces self.old self.new }
    {
        match &mut self.later {
            Some(later) => later.put_off(Step::Text(Box::new(alloc, Spelled::new(text))?)),
            None => self.gathered.add_text(text),
        }
    }

    /// Does the steps that were put off. Where they make a term it is the one that is put off then.
    #[cold]
    fn settle(&mut self, alloc: Global) -> Result<(), NoMemory>
        ensures { OnOk result (Settles self.old self.new) }
    {
        let Some(later) = self.later.take() else {
            return Ok(());
        };
        let gathered = replace(&mut self.gathered, Gathered::new(alloc));
        match Box::into_inner(later).closed(alloc, gathered)? {
            Closed::Plain(set) => {
                self.gathered = set;
                Ok(())
            }
            set => self.put_off_first(alloc, Operation::Join, set),
        }
    }

    /// Does the steps that were put off where they keep too much.
    #[inline]
    fn make_way(&mut self, alloc: Global) -> Result<(), NoMemory>
        ensures { OnOk result (Settles self.old self.new) }
    {
        match &self.later {
            Some(later) if later.is_full() => self.settle(alloc),
            _ => Ok(()),
        }
    }

    /// Puts off the gathering of the set of another bracket, where nothing was put off before.
    #[cold]
    fn put_off_first(
        &mut self,
        alloc: Global,
        operation: Operation,
        set: Closed,
    ) -> Result<(), NoMemory>
        requires { self.old.later ≡ None }
        ensures { OnOk result (Becomes self.old self.new
            (λ sets m. operated operation (closed_in sets set m) (gathering_in sets self.old m))) }
    {
        let mut later = Box::new(alloc, Later::new(alloc))?;
        later.put_off_set(alloc, operation, set)?;
        self.later = Some(later);
        Ok(())
    }

    /// Gathers the set of another bracket. The places that were told may end with it, as with `gather_named`. Where memory is
    /// refused all is empty.
    #[inline]
    pub fn gather(
        &mut self,
        alloc: Global,
        operation: Operation,
        set: Closed,
    ) -> Result<(), NoMemory>
        ensures becomes { OnOk result (Becomes self.old self.new
            (λ sets m. operated operation (closed_in sets set m) (gathering_in sets self.old m))) }
        ensures err { OnErr result (IsEmpty self.new) }
    {
        let Err(refused) = self.try_gather(alloc, operation, set) else {
            return Ok(());
        };
        *self = Gathering::new(alloc);
        Err(refused)
    }

    /// Gathers the set of another bracket.
    #[inline]
    fn try_gather(
        &mut self,
        alloc: Global,
        operation: Operation,
        set: Closed,
    ) -> Result<(), NoMemory>
        ensures { OnOk result (Becomes self.old self.new
            (λ sets m. operated operation (closed_in sets set m) (gathering_in sets self.old m))) }
    {
        self.make_way(alloc)?;
        match (&mut self.later, set) {
            (Some(later), set) => later.put_off_set(alloc, operation, set),
            (None, Closed::Plain(set)) => gather(
                alloc,
                &mut self.gathered,
                operation,
                Operand::Gathered(set),
            ),
            (None, set) => self.put_off_first(alloc, operation, set),
        }
    }

    /// Gathers a set with a name. Each name stands for one set: whatever `sets` gives the names, where it gives those that were
    /// told before the sets that were told with them, and so this one. A large set is kept. Where memory is refused all is
    /// empty.
    pub fn gather_named(
        &mut self,
        alloc: Global,
        operation: Operation,
        named: Named<'a>,
    ) -> Result<(), NoMemory>
        ensures becomes { OnOk result ((sets : Sets) → Fits sets self.old → IsSetOf sets named.entry → BecomesWith
            sets self.new (λ m. operated operation (named_in named.entry.set m) (gathering_in sets self.old m))) }
        ensures kept { OnOk result
            (is_large named.entry.set ≡ true → IsSomewhere self.new (name_seen named.entry.name)) }
        ensures err { OnErr result (IsEmpty self.new) }
    {
        let Err(refused) = self.try_gather_named(alloc, operation, named) else {
            return Ok(());
        };
        *self = Gathering::new(alloc);
        Err(refused)
    }

    /// Gathers a set with a name, and keeps a large one.
    fn try_gather_named(
        &mut self,
        alloc: Global,
        operation: Operation,
        named: Named<'a>,
    ) -> Result<(), NoMemory>
        ensures becomes { OnOk result ((sets : Sets) → Fits sets self.old → IsSetOf sets named.entry → BecomesWith
            sets self.new (λ m. operated operation (named_in named.entry.set m) (gathering_in sets self.old m))) }
        ensures kept { OnOk result
            (is_large named.entry.set ≡ true → IsSomewhere self.new (name_seen named.entry.name)) }
    {
        self.make_way(alloc)?;
        let mut later = match self.later.take() {
            Some(later) => later,
            None if named.set.is_large() || named.set.is_huge() => {
                Box::new(alloc, Later::new(alloc))?
            }
            None => {
                return gather(alloc, &mut self.gathered, operation, named.set.operand());
            }
        };
        later.put_off_named(alloc, operation, named)?;
        self.later = Some(later);
        Ok(())
    }

    /// Where the set of the property is kept, if it is.
    pub fn place_of(&self, query: &Query) -> Option<Place>
        ensures found { IfSome result (IsPlaceOf self.now (property (query_seen query.now))) }
        ensures stands { IfSome result (λ place. StandsForSome self.now (property (query_seen query.now))) }
        ensures absent { IfNone result (IsNowhere self.now (property (query_seen query.now))) }
    {
        let Some(later) = &self.later else {
            return None;
        };
        let index = later.place_of(query)?;
        Some(Place { index })
    }

    /// Gathers the set that is kept at this place, as `gather_named` does the set that its name stands for, and nothing where
    /// none is kept there. A place that another bracket told may hold another set here, or none. Where memory is refused nothing
    /// has changed.
    pub fn gather_again(&mut self, operation: Operation, place: Place) -> Result<(), NoMemory>
        ensures gathers { OnOk result (GathersKept operation place self.old self.new) }
        ensures elsewhere { OnOk result (kept_at self.old place ≡ None → Settles self.old self.new) }
        ensures err { OnErr result (Settles self.old self.new) }
        ensures places { KeepsPlaces self.old self.new }
    {
        match &mut self.later {
            Some(later) => later.put_off_again(operation, place.index),
            None => Ok(()),
        }
    }

    /// The set of what was gathered, or where it is negated that of the other code points. `NoMemory` says that a
    /// request for memory was refused.
    #[inline]
    pub fn close(self, alloc: Global, negated: bool) -> Result<Closed, NoMemory>
        ensures { IfOk result (λ set. (sets : Sets) → Fits sets self.entry → (m : Member) →
            closed_in sets set m ≡ closed negated m (gathering_in sets self.entry m)) }
    {
        let Self { gathered, later } = self;
        let set = match later {
            Some(later) => Box::into_inner(later).closed(alloc, gathered)?,
            None => Closed::Plain(gathered),
        };
        if negated {
            return set.negated(alloc);
        }
        Ok(set)
    }
}
