//! Sets that have a name.
use crate::closed::Closed;
use crate::name::Name;
use crate::term::Term;
use cp_invlist::NoMemory;
use cp_strset::CodePointInversionListAndStringList;
use std::alloc::Global;
use uset_gather::{Gathered, Operand, Source};

/// Gathering fewer ranges takes less time than putting them off.
const MANY_RANGES: usize = 32;

/// The same of strings, each of which is copied.
const MANY_STRINGS: usize = 4;

/// A set that has a name, without the name.
pub enum NamedSet<'a> {
    /// A set with strings.
    Set(&'a CodePointInversionListAndStringList),
    /// These code points, and no strings.
    CodePoints(Source<'a>),
    /// The other code points, and no strings.
    Complement(Source<'a>),
}

// By hand, so that letting a value go is one call in each proof.
impl Drop for NamedSet<'_> {
    fn drop(self) {
        match self {
            NamedSet::Set(_) => {}
            NamedSet::CodePoints(_) => {}
            NamedSet::Complement(_) => {}
        }
    }
}

/// A set with its name.
pub struct Named<'a> {
    /// What the set is called in the pattern.
    pub name: Name,
    /// The set that the name stands for.
    pub set: NamedSet<'a>,
}

// By hand, so that letting a value go is one call in each proof.
impl Drop for Named<'_> {
    fn drop(self) {
        let Self { name: _, set: _ } = self;
    }
}

impl Named<'_> {
    ghost use Rattle.std.specs.Prelude.{◌≡◌, IfOk};
    ghost use Rattle.uset_grammar.specs.Tree.{Member};
    ghost use Rattle.uset_steps.specs.Names.{Sets, IsSetOf, named_in};
    ghost use Rattle.uset_steps.specs.Terms.{closed_in};

    /// The set alone. A very large one is left as a term. `NoMemory` says that a request for memory was refused.
    pub fn closed(self, alloc: Global) -> Result<Closed, NoMemory>
        ensures { IfOk result (λ set. (sets : Sets) → IsSetOf sets self.entry → (m : Member) →
            closed_in sets set m ≡ named_in self.entry.set m) }
    {
        let Self { name, set } = self;
        if set.is_huge() {
            let term = Term::of_name(alloc, name)?;
            return Ok(Closed::Term(Box::new(alloc, term)?));
        }
        Ok(Closed::Plain(set.gathered(alloc)?))
    }
}

impl NamedSet<'_> {
    ghost use Rattle.std.specs.Prelude.{◌≡◌, IfOk};
    ghost use Rattle.uset_grammar.specs.Tree.{Member};
    ghost use Rattle.uset_gather.specs.Gathered.{gathered_in, operand_in};
    ghost use Rattle.uset_steps.specs.Names.{named_in, ranges_of, strings_of, is_large as is_large_seen};

    /// The set, to be gathered.
    pub(crate) fn operand(&self) -> Operand<'_>
        ensures { (m : Member) → operand_in result m ≡ named_in self.now m }
    {
        match self {
            NamedSet::Set(set) => Operand::Set(set),
            NamedSet::CodePoints(source) => Operand::CodePoints(Source::Lent(source.list())),
            NamedSet::Complement(source) => Operand::Complement(Source::Lent(source.list())),
        }
    }

    /// The set alone. `NoMemory` says that a request for memory was refused.
    pub fn gathered(&self, alloc: Global) -> Result<Gathered, NoMemory>
        ensures { IfOk result (λ g. (m : Member) → gathered_in g m ≡ named_in self.now m) }
    {
        let mut gathered = Gathered::new(alloc);
        gathered.join(alloc, self.operand())?;
        Ok(gathered)
    }

    /// How many ranges the set has, and how many strings.
    fn sizes(&self) -> (usize, usize)
        ensures ranges { result.0 ≡ ranges_of self.now }
        ensures strings { result.1 ≡ strings_of self.now }
    {
        let (list, strings) = match self {
            NamedSet::Set(set) => (set.code_points(), set.strings().len()),
            NamedSet::CodePoints(source) | NamedSet::Complement(source) => (source.list(), 0),
        };
        (list.get_range_count(), strings)
    }

    /// Whether gathering the set takes more time than putting it off.
    pub(crate) fn is_large(&self) -> bool
        ensures { result ≡ is_large_seen self.now }
    {
        let (ranges, strings) = self.sizes();
        ranges >= MANY_RANGES || strings >= MANY_STRINGS
    }

    /// Whether the set is so large that brackets which name it are left as terms.
    pub(crate) fn is_huge(&self) -> bool {
        match self {
            NamedSet::Set(set) => set.code_points().is_long() || set.has_many_strings(),
            NamedSet::CodePoints(source) | NamedSet::Complement(source) => source.list().is_long(),
        }
    }
}
