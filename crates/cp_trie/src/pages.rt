//! Page tables: three reads lead from a code point to its value.
ghost use Rattle.std.specs.Prelude.{◌≡◌, ◌+◌, ◌%◌, ◌≤◌, None, Some, IsSome, IfOk, length};
ghost use Rattle.cp_trie.specs.Faults.{first_fault as fault_of};
ghost use Rattle.cp_trie.specs.Pages.{values_of, value_by, led_to, PlacesStandFor, StandFor};
ghost use Rattle.cp_trie.specs.Rows.{IsCut, laid, spelled};

use crate::ranges::CodePointMapRange;
use crate::rows::{NONE, ROW, Repeated, Rows};
use crate::table::Table;
use crate::value::TrieValue;
use cp_invlist::Steps;
use std::alloc::{AllocError, Global};
use std::marker::Model;
use std::sync::ledger::Ledger;

/// How many runs a row with a boundary has in the maps of Unicode's properties, about: an expectation, no limit.
const RUNS_A_ROW: usize = 7;

/// How many places the outer table has.
const OUTER: usize = 272;

/// What the values of a map are read from.
pub(crate) enum Pages<V> {
    /// The value of all code points, where the map has one run.
    One(V),
    /// Page tables, where it has several.
    Several(Tables<V>),
}

// By hand, so that letting a value go is one call in each proof.
impl<V: Drop> Drop for Pages<V> {
    fn drop(self) {
        match self {
            Pages::One(_) => {}
            Pages::Several(_) => {}
        }
    }
}

impl<V: TrieValue> Pages<V> {
    /// What the values of runs that cover 0 to 10FFFF in order are read from. The time is that of the runs and of the
    /// pages with a boundary. Some value is asked for the places of a page that have none yet.
    pub(crate) fn new(
        alloc: Global,
        runs: &[CodePointMapRange<V>],
        some: V,
    ) -> Result<Pages<V>, AllocError>
        requires { fault_of runs.now ≡ None }
        ensures { IfOk result (λ pages. StandFor pages runs.now) }
    {
        if let [only] = runs {
            return Ok(Pages::One(only.value));
        }
        Ok(Pages::Several(Tables::new(alloc, runs, some)?))
    }

    /// The value that stands at the place of a number, by at most three reads.
    pub(crate) fn value<L: Ledger>(&self, c: u32, steps: &mut Steps<L>) -> V
        requires { IsSome (led_to self.now c) }
        ensures value { led_to self.now c ≡ Some result }
        ensures cost { steps.new ≤ steps.old + 3 }
    {
        match self {
            Pages::One(value) => *value,
            Pages::Several(tables) => tables.value(c, steps),
        }
    }

    /// The same.
    pub(crate) fn copy(&self, alloc: Global) -> Result<Pages<V>, AllocError>
        ensures { IfOk result (λ pages. pages ≡ self.now) }
    {
        match self {
            Pages::One(value) => Ok(Pages::One(*value)),
            Pages::Several(tables) => Ok(Pages::Several(tables.copy(alloc)?)),
        }
    }
}

/// The 272 places of the outer table lead to blocks of 64 page numbers, and a page number to a page of 64 values. A page
/// inside one run is the page of its value, and equal pages and equal blocks are kept once.
pub(crate) struct Tables<V> {
    outer: Table<u16>,
    blocks: Table<u16>,
    values: Table<V>,
}

// By hand, so that letting a value go is one call in each proof.
impl<V: Drop> Drop for Tables<V> {
    fn drop(self) {
        let Self {
            outer: _,
            blocks: _,
            values: _,
        } = self;
    }
}

impl<V> Model for Tables<V> {
    ghost use Rattle.cp_trie.specs.PageTables.{PageTables};

    ghost Value = { PageTables V };

    ghost view = { λ s. record { outer = s.outer; blocks = s.blocks; values = s.values } };
}

impl<V: TrieValue> Tables<V> {
    fn new(alloc: Global, runs: &[CodePointMapRange<V>], some: V) -> Result<Tables<V>, AllocError>
        requires { fault_of runs.now ≡ None }
        ensures { IfOk result (λ tables. PlacesStandFor tables runs.now) }
    {
        let pages = pages_of(alloc, runs, some)?;
        let blocks = blocks_of(alloc, &pages.numbers)?;
        let outer = outer_of(alloc, &blocks.numbers)?;
        Ok(Tables {
            outer: Table::new(outer),
            blocks: Table::new(blocks.into_values()),
            values: Table::new(pages.into_values()),
        })
    }

    /// The value that the tables lead to from a number: one read of each.
    fn value<L: Ledger>(&self, c: u32, steps: &mut Steps<L>) -> V
        requires { IsSome (value_by self.now c) }
        ensures value { value_by self.now c ≡ Some result }
        ensures cost { steps.new ≡ steps.old + 3 }
    {
        let c = c as usize;
        let block = usize::from(self.outer.read(c / (ROW * ROW), steps));
        let page = usize::from(self.blocks.read(block * ROW + c / ROW % ROW, steps));
        self.values.read(page * ROW + c % ROW, steps)
    }

    /// The same tables.
    fn copy(&self, alloc: Global) -> Result<Tables<V>, AllocError>
        ensures { IfOk result (λ tables. tables ≡ self.now) }
    {
        Ok(Tables {
            outer: self.outer.copy(alloc)?,
            blocks: self.blocks.copy(alloc)?,
            values: self.values.copy(alloc)?,
        })
    }
}

/// The values of the runs, cut into pages.
fn pages_of<V: TrieValue>(
    alloc: Global,
    runs: &[CodePointMapRange<V>],
    some: V,
) -> Result<Rows<V>, AllocError>
    requires { fault_of runs.now ≡ None }
    ensures cut { IfOk result (λ pages. IsCut pages) }
    ensures laid { IfOk result (λ pages. laid pages ≡ values_of runs.now) }
{
    let mut pages = Rows::new(alloc, runs.len() / RUNS_A_ROW, some)?;
    let mut begun = NONE;
    for run in runs {
        let range = run.range;
        let count = (range.end - range.start) as usize + 1;
        begun = if begun.len + count < ROW {
            pages.take_within(begun, run.value, count)
        } else {
            pages.take_across(begun, run.value, count)?
        };
    }
    Ok(pages)
}

/// The numbers of the pages, cut into blocks.
fn blocks_of(alloc: Global, pages: &[Repeated]) -> Result<Rows<u16>, AllocError>
    requires few { length (spelled pages.now) ≤ 0x11_0000 }
    requires whole { length (spelled pages.now) % 64 ≡ 0 }
    ensures cut { IfOk result (λ blocks. IsCut blocks) }
    ensures laid { IfOk result (λ blocks. laid blocks ≡ spelled pages.now) }
{
    let mut blocks = Rows::new(alloc, pages.len() / RUNS_A_ROW, 0)?;
    let mut begun = NONE;
    for page in pages {
        begun = if begun.len + page.count < ROW {
            blocks.take_within(begun, page.number, page.count)
        } else {
            blocks.take_across(begun, page.number, page.count)?
        };
    }
    Ok(blocks)
}

/// The numbers of the blocks.
fn outer_of(alloc: Global, blocks: &[Repeated]) -> Result<Vec<u16>, AllocError>
    requires { length (spelled blocks.now) ≤ 0x11_0000 }
    ensures { IfOk result (λ outer. outer.items ≡ spelled blocks.now) }
{
    let mut outer = Vec::with_capacity(alloc, OUTER)?;
    for block in blocks {
        outer.resize(outer.len() + block.count, block.number)?;
    }
    Ok(outer)
}
