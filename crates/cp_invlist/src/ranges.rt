//! Ranges of code points, and the walk over the maximal ranges of a set.
ghost use Rattle.std.specs.Prelude.{◌≡◌};
ghost use Rattle.cp_invlist.specs.InversionList.{IsInversionList};
ghost use Rattle.cp_invlist.specs.Ranges.{AreMaximalRanges, is_outside, ranges_of};
ghost use Rattle.std.specs.Iterator.{YieldsFirst, item_count};

use std::marker::Model;

/// The last code point: 10FFFF.
pub const LAST_CODE_POINT: u32 = 0x10_FFFF;

/// The code points from `start` to `end`, both ends included. Where `start` is above `end` it holds nothing.
#[derive(Clone, Copy, Debug, PartialEq, Eq)]
pub struct CodePointRange {
    /// The first code point.
    pub start: u32,
    /// The last code point.
    pub end: u32,
}

/// The maximal ranges of a set in order. A contract sees it as the list of those still to come.
#[derive(Drop)]
pub struct InversionListRanges<'a> {
    elements: &'a [u32],
}

impl<'a> Model for InversionListRanges<'a> {
    ghost use Rattle.std.specs.Prelude.{List};
    ghost use Rattle.cp_invlist.specs.InversionList.{IsInversionList};
    ghost use Rattle.cp_invlist.specs.Ranges.{ranges_of};
    ghost use Rattle.cp_invlist.specs.declared.ranges.CodePointRange.{CodePointRange};

    ghost Value = { List CodePointRange };

    ghost view = { λ s. ranges_of s.elements.now };

    ghost invariant = { λ s. IsInversionList s.elements.now };
}

impl<'a> InversionListRanges<'a> {
    pub(crate) fn new(elements: &'a [u32]) -> InversionListRanges<'a>
        requires { IsInversionList elements.now }
        ensures { result ≡ ranges_of elements.now }
    {
        InversionListRanges { elements }
    }
}

impl Iterator for InversionListRanges<'_> {
    type Item = CodePointRange;

    ghost next_gives = { YieldsFirst (λ ranges. ranges) };

    ghost remaining = { item_count (λ ranges. ranges) };

    fn next(&mut self) -> Option<CodePointRange> {
        let [start, past, rest @ ..] = self.elements else {
            return None;
        };
        let range = CodePointRange {
            start: *start,
            end: *past - 1,
        };
        self.elements = rest;
        Some(range)
    }
}

/// The maximal ranges of the code points that are no members of a set, in order. A contract sees it as the list of those
/// still to come.
#[derive(Drop)]
pub struct ComplementedRanges<'a> {
    start: u32,
    elements: &'a [u32],
}

impl<'a> Model for ComplementedRanges<'a> {
    ghost use Rattle.std.specs.Prelude.{List};
    ghost use Rattle.cp_invlist.specs.Gap.{IsGapBefore};
    ghost use Rattle.cp_invlist.specs.Ranges.{gaps_from};
    ghost use Rattle.cp_invlist.specs.declared.ranges.CodePointRange.{CodePointRange};

    ghost Value = { List CodePointRange };

    ghost view = { λ s. gaps_from s.start s.elements.now };

    ghost invariant = { λ s. IsGapBefore s.start s.elements.now };
}

impl<'a> ComplementedRanges<'a> {
    pub(crate) fn new(elements: &'a [u32]) -> ComplementedRanges<'a>
        requires { IsInversionList elements.now }
        ensures { AreMaximalRanges (is_outside elements.now) result }
    {
        let [first, past, rest @ ..] = elements else {
            return ComplementedRanges { start: 0, elements };
        };
        if *first > 0 {
            return ComplementedRanges { start: 0, elements };
        }
        // The first range starts at 0, so no gap stands before it.
        ComplementedRanges {
            start: *past,
            elements: rest,
        }
    }
}

impl Iterator for ComplementedRanges<'_> {
    type Item = CodePointRange;

    ghost next_gives = { YieldsFirst (λ ranges. ranges) };

    ghost remaining = { item_count (λ ranges. ranges) };

    #[tactic(auto, using(crate::proofs::GapsLemmas::gaps_from_first))]
    fn next(&mut self) -> Option<CodePointRange> {
        let start = self.start;
        let [end, past, rest @ ..] = self.elements else {
            if start > LAST_CODE_POINT {
                return None;
            }
            self.start = LAST_CODE_POINT + 1;
            return Some(CodePointRange {
                start,
                end: LAST_CODE_POINT,
            });
        };
        self.start = *past;
        self.elements = rest;
        Some(CodePointRange {
            start,
            end: *end - 1,
        })
    }
}
