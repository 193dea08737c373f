//! The only way to an element of a list that is merged.
ghost use Rattle.std.specs.Prelude.{◌≡◌, ◌+◌, ◌<◌, ◌≤◌, false, Some, length, take, drop, All, IfSome};
ghost use Rattle.std.specs.List.{slice_get};
ghost use Rattle.cp_invlist.specs.Merge.{inside_behind, DifferAt};

use crate::steps::Steps;
use std::sync::ledger::Ledger;

/// What is left of a list, and whether the walk is inside the set. Elements are looked at from the front on, and each
/// that is taken is one step.
#[derive(Drop)]
pub(crate) struct Cursor<'a> {
    rest: &'a [u32],
    pub(crate) inside: bool,
}

impl<'a> Cursor<'a> {
    pub(crate) fn new(list: &'a [u32]) -> Cursor<'a>
        ensures list { result.rest.now ≡ list.now }
        ensures outside { result.inside ≡ false }
    {
        Cursor {
            rest: list,
            inside: false,
        }
    }

    /// How many elements are left.
    pub(crate) fn len(&self) -> usize
        ensures { result ≡ length self.now.rest.now }
    {
        self.rest.len()
    }

    /// The first element that is left.
    pub(crate) fn first(&self) -> Option<u32>
        ensures { result ≡ slice_get self.now.rest.now 0 }
    {
        self.rest.first().copied()
    }

    /// How many of the elements that are left stand before the first that isn't below the number.
    pub(crate) fn count_below(&self, number: u32) -> usize
        ensures bound { result ≤ length self.now.rest.now }
        ensures below { All (λ x. x < number) (take result self.now.rest.now) }
        ensures behind { IfSome (slice_get self.now.rest.now result) (λ x. number ≤ x) }
    {
        for (index, element) in self.rest.iter().enumerate() {
            if *element >= number {
                return index;
            }
        }
        self.rest.len()
    }

    /// How many elements both lists have in common at their fronts, of which this is the first.
    pub(crate) fn count_equal(&self, other: &Cursor<'_>, first: u32) -> usize
        requires own { slice_get self.now.rest.now 0 ≡ Some first }
        requires its { slice_get other.now.rest.now 0 ≡ Some first }
        ensures some { 0 < result }
        ensures within_own { result ≤ length self.now.rest.now }
        ensures within_its { result ≤ length other.now.rest.now }
        ensures equal { take result self.now.rest.now ≡ take result other.now.rest.now }
        ensures ended { DifferAt result self.now.rest.now other.now.rest.now }
    {
        let (own, its) = (self.rest, other.rest);
        let mut count = 1;
        'equal: while count < own.len() && count < its.len() && own[count] == its[count] {
            count += 1;
        }
        count
    }

    /// Takes so many elements from the front.
    pub(crate) fn take<L: Ledger>(&mut self, count: usize, steps: &mut Steps<L>) -> &'a [u32]
        requires { count ≤ length self.old.rest.now }
        ensures front { result.now ≡ take count self.old.rest.now }
        ensures rest { self.new.rest.now ≡ drop count self.old.rest.now }
        ensures inside { self.new.inside ≡ inside_behind (take count self.old.rest.now) self.old.inside }
        ensures cost { steps.new + length self.new.rest.now ≡ steps.old + length self.old.rest.now }
    {
        let (front, rest) = self.rest.split_at(count);
        self.rest = rest;
        self.inside = self.inside != (count % 2 == 1);
        steps.count(front.len());
        front
    }
}
