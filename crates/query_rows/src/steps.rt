//! Look-ups with a ledger of the caller's.
ghost use Rattle.std.specs.Prelude.{◌≡◌, ◌+◌, ◌<◌, ◌≤◌};

use crate::fixtures::{Row, assert_rows};
use cp_invlist::Steps;
use prop_data::PropertyDatabase;
use prop_query::{CodePointMapData, CodePointMapDataBorrowed};
use prop_values::GeneralCategory;
use row_fixtures::EVERY_KIND;
use std::alloc::Global;
use std::marker::Brand;
use std::sync::ledger::{Blank, Ledger};

/// A look-up takes three reads at most, as its clause says; the test sees the values alone.
fn look_up<L: Ledger>(
    map: CodePointMapDataBorrowed<'_, GeneralCategory>,
    c: u32,
    steps: &mut Steps<L>,
) -> GeneralCategory
    ensures { steps.new ≤ steps.old + 3 }
{
    map.get32_steps(c, steps)
}

/// The category of a number, counted in the blank ledger.
fn look_up_in<L: Ledger>(
    map: CodePointMapDataBorrowed<'_, GeneralCategory>,
    c: u32,
    blank: Blank,
) -> GeneralCategory
    requires name { blank.name ≡ L.name }
    requires parts { blank.parts ≡ L.parts }
    requires some { 0 < blank.parts }
{
    let mut steps = Steps::<L>::new(blank);
    look_up(map, c, &mut steps)
}

/// The category of a number by the map of the database, counted.
fn counted(alloc: Global, database: &PropertyDatabase, c: u32) -> Option<GeneralCategory> {
    let map = CodePointMapData::<GeneralCategory>::new(alloc, database).ok()?;
    Some(look_up_in::<Brand>(map.as_borrowed(), c, Blank::new(1)))
}

/// A number, and its general category.
type Counted = (u32, GeneralCategory);

impl Row for Counted {
    fn holds(&self, alloc: Global, database: &PropertyDatabase) -> bool {
        let (c, category) = *self;
        counted(alloc, database, c) == Some(category)
    }
}

const COUNTED: &[Counted] = &[
    (0x61, GeneralCategory::LowercaseLetter),
    (0x11_0000, GeneralCategory::Unassigned),
];

#[test]
fn a_look_up_takes_three_reads_at_most(rt: HostRuntime) {
    assert_rows(&rt, EVERY_KIND, COUNTED);
}
