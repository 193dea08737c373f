//! The code points of a set in the making.
ghost use Rattle.std.specs.Prelude.{◌≡◌, ℕ, IfOk};
ghost use Rattle.std.specs.List.{list_all};
ghost use Rattle.cp_invlist.specs.InversionList.{contains};
ghost use Rattle.cp_invlist.specs.Ranges.{is_outside};

use crate::layers::{Layer, flattened, layered, push, size_of};
use cp_invlist::laws::{members_are_code_points, ranges_hold_members};
use cp_invlist::{CodePointInversionList, CodePointInversionListBuilder, CodePointRange, NoMemory};
use std::alloc::Global;
use std::mem::{replace, swap};

/// Sets of at most so many ranges are painted without a limit: a pattern that joins one is about as long as its ranges.
const FEW: usize = 8;

/// A set of at least so many ranges becomes a layer at once: copying its list takes less time than painting range by range.
const MANY: usize = 32;

/// From so many painted ranges on they become a layer before those of a set that isn't few are painted.
const FULL: usize = 4096;

/// A range of code points that was painted: as members, or as no members.
#[derive(Clone, Copy)]
pub(crate) struct PaintedRange {
    pub(crate) range: CodePointRange,
    pub(crate) member: bool,
}

/// A set of code points in the making: layers, and over them ranges in the order in which they were painted. The last range
/// that covers a code point says whether it is a member, or where none does, what the layers make of it. Where the painting is
/// complemented, it is the other way round. Ranges aren't merged before the set is needed, or a large set is painted over
/// them. The list of such a set is a layer, and layers are merged so that each of its ranges is merged a logarithm of times.
#[derive(Drop)]
pub(crate) struct Painting {
    alloc: Global,
    /// What was painted first, the lowest in front.
    layers: Vec<Layer>,
    /// What was painted over the layers, the first in front.
    ranges: Vec<PaintedRange>,
    complemented: bool,
}

/// Whether all the ranges were painted as members.
fn are_members(ranges: &[PaintedRange]) -> bool
    ensures { result ≡ list_all (λ p. p.member) ranges.now }
{
    ranges.iter().all(|painted| painted.member)
}

/// A copy of the set.
fn copied(
    alloc: Global,
    set: &CodePointInversionList,
) -> Result<CodePointInversionListBuilder, NoMemory>
    ensures { IfOk result (λ copy. (c : ℕ) → contains copy c ≡ contains set.now c) }
{
    let mut copy = CodePointInversionListBuilder::new(alloc);
    copy.add_set(set)?;
    Ok(copy)
}

/// The code points that aren't in the set.
fn outside(
    alloc: Global,
    set: &CodePointInversionList,
) -> Result<CodePointInversionListBuilder, NoMemory>
    ensures { IfOk result (λ others. (c : ℕ) → contains others c ≡ is_outside set.now c) }
{
    let mut others = copied(alloc, set)?;
    others.complement()?;
    Ok(others)
}

impl Painting {
    ghost use Rattle.std.specs.Prelude.{◌≡◌, ℕ, ◌||◌, ◌&&◌, not, false, [], IfOk, OnOk, OnErr};
    ghost use Rattle.cp_invlist.specs.InversionList.{contains, is_code_point};
    ghost use Rattle.cp_invlist.specs.Ranges.{in_code_points, is_outside};
    ghost use Rattle.uset_gather.specs.Painting.{in_painting, covered};
    ghost use Rattle.std.specs.Bool.{OnTrue};

    /// Nothing yet.
    #[tactic(auto, unfolding(crate::specs::Painting::in_painting))]
    pub(crate) fn new(alloc: Global) -> Painting
        ensures { (c : ℕ) → in_painting result c ≡ false }
    {
        Painting {
            alloc,
            layers: Vec::new(alloc),
            ranges: Vec::new(alloc),
            complemented: false,
        }
    }

    /// About how many ranges were painted.
    fn size(&self) -> usize {
        size_of(&self.layers).saturating_add(self.ranges.len())
    }

    /// Makes a layer of the ranges that were painted.
    fn settle(&mut self) -> Result<(), NoMemory>
        ensures same { OnOk result ((c : ℕ) → in_painting self.new c ≡ in_painting self.old c) }
        ensures settled { OnOk result (self.new.ranges.items ≡ []) }
    {
        if self.ranges.is_empty() {
            return Ok(());
        }
        let ranges = replace(&mut self.ranges, Vec::new(self.alloc));
        let layer = layered(self.alloc, ranges)?;
        push(&mut self.layers, layer)
    }

    /// Paints a set of about so many ranges as a layer.
    fn put_on(&mut self, set: CodePointInversionListBuilder, size: usize) -> Result<(), NoMemory>
        ensures { OnOk result ((c : ℕ) → in_painting self.new c ≡ (in_painting self.old c || contains set c)) }
    {
        members_are_code_points();
        self.settle()?;
        let layer = Layer::new(self.alloc, set, size, !self.complemented);
        push(&mut self.layers, layer)
    }

    /// Makes a layer of what was painted where so many ranges more would be too many: one name in a pattern may stand for all of
    /// them.
    fn make_way(&mut self, count: usize) -> Result<(), NoMemory>
        ensures { OnOk result ((c : ℕ) → in_painting self.new c ≡ in_painting self.old c) }
    {
        if count > FEW && self.ranges.len() >= FULL {
            return self.settle();
        }
        Ok(())
    }

    /// Adds the code points of the range.
    #[tactic(auto, using(crate::proofs::PaintingLemmas::painting_same))]
    pub(crate) fn add_range(&mut self, range: CodePointRange) -> Result<(), NoMemory>
        ensures ok { OnOk result
            ((c : ℕ) → in_painting self.new c ≡ (in_painting self.old c || in_code_points range c)) }
        ensures err { OnErr result ((c : ℕ) → in_painting self.new c ≡ in_painting self.old c) }
    {
        self.ranges.push(PaintedRange {
            range,
            member: !self.complemented,
        })?;
        Ok(())
    }

    /// Adds the members of the set.
    pub(crate) fn add_set(&mut self, set: &CodePointInversionList) -> Result<(), NoMemory>
        ensures { OnOk result ((c : ℕ) → in_painting self.new c ≡ (in_painting self.old c || contains set.now c)) }
    {
        let count = set.get_range_count();
        if count >= MANY {
            return self.put_on(copied(self.alloc, set)?, count);
        }
        self.make_way(count)?;
        self.paint_set(set)
    }

    /// Paints the members of the set.
    fn paint_set(&mut self, set: &CodePointInversionList) -> Result<(), NoMemory>
        ensures { OnOk result ((c : ℕ) → in_painting self.new c ≡ (in_painting self.old c || contains set.now c)) }
    {
        ranges_hold_members();
        self.ranges.reserve(set.get_range_count())?;
        for range in set.iter_ranges() {
            self.add_range(range)?;
        }
        Ok(())
    }

    /// Adds the code points that aren't in the set.
    pub(crate) fn add_outside(&mut self, set: &CodePointInversionList) -> Result<(), NoMemory>
        ensures { OnOk result ((c : ℕ) → in_painting self.new c ≡ (in_painting self.old c || is_outside set.now c)) }
    {
        let count = set.get_range_count();
        if count >= MANY {
            return self.put_on(outside(self.alloc, set)?, count);
        }
        self.make_way(count)?;
        self.paint_outside(set)
    }

    /// Paints the code points that aren't in the set.
    fn paint_outside(&mut self, set: &CodePointInversionList) -> Result<(), NoMemory>
        ensures { OnOk result ((c : ℕ) → in_painting self.new c ≡ (in_painting self.old c || is_outside set.now c)) }
    {
        ranges_hold_members();
        for range in set.iter_ranges_complemented() {
            self.add_range(range)?;
        }
        Ok(())
    }

    /// Exchanges the members and the other code points.
    pub(crate) fn complement(&mut self)
        ensures { (c : ℕ) → in_painting self.new c ≡ (is_code_point c && not (in_painting self.old c)) }
    {
        self.complemented = !self.complemented;
    }

    /// Joins the members of the other set. The set with more ranges stays, and the other is painted onto it.
    pub(crate) fn join(&mut self, mut other: Painting) -> Result<(), NoMemory>
        ensures { OnOk result ((c : ℕ) → in_painting self.new c ≡ (in_painting self.old c || in_painting other c)) }
    {
        if self.size() < other.size() {
            swap(self, &mut other);
        }
        self.paint(other)
    }

    /// Paints the members of the other set onto this one.
    fn paint(&mut self, other: Painting) -> Result<(), NoMemory>
        ensures { OnOk result ((c : ℕ) → in_painting self.new c ≡ (in_painting self.old c || in_painting other c)) }
    {
        if other.is_plain() {
            return self.add_ranges(&other.ranges);
        }
        let size = other.size();
        if size >= MANY {
            return self.put_on(other.into_builder()?, size);
        }
        members_are_code_points();
        let complemented = other.complemented;
        let set = flattened(other.alloc, other.layers, other.ranges)?.build();
        if complemented {
            self.add_outside(&set)
        } else {
            self.add_set(&set)
        }
    }

    /// Whether the set is that of all its ranges.
    fn is_plain(&self) -> bool
        ensures { OnTrue result ((c : ℕ) → in_painting self.now c ≡ covered self.now.ranges.items c) }
    {
        self.layers.is_empty() && !self.complemented && are_members(&self.ranges)
    }

    /// Adds the code points of all the ranges.
    fn add_ranges(&mut self, ranges: &[PaintedRange]) -> Result<(), NoMemory>
        ensures { OnOk result ((c : ℕ) → in_painting self.new c ≡ (in_painting self.old c || covered ranges.now c)) }
    {
        self.make_way(ranges.len())?;
        self.paint_ranges(ranges)
    }

    /// Paints the code points of all the ranges.
    fn paint_ranges(&mut self, ranges: &[PaintedRange]) -> Result<(), NoMemory>
        ensures { OnOk result ((c : ℕ) → in_painting self.new c ≡ (in_painting self.old c || covered ranges.now c)) }
    {
        self.ranges.reserve(ranges.len())?;
        for painted in ranges {
            self.add_range(painted.range)?;
        }
        Ok(())
    }

    /// Takes the members of the set away: what stays is what neither that set has nor the complement.
    pub(crate) fn remove(&mut self, set: Painting) -> Result<(), NoMemory>
        ensures { OnOk result ((c : ℕ) → in_painting self.new c ≡ (in_painting self.old c && not (in_painting set c))) }
    {
        self.complement();
        self.join(set)?;
        self.complement();
        Ok(())
    }

    /// Takes the members of the set away.
    pub(crate) fn remove_set(&mut self, set: &CodePointInversionList) -> Result<(), NoMemory>
        ensures { OnOk result
            ((c : ℕ) → in_painting self.new c ≡ (in_painting self.old c && not (contains set.now c))) }
    {
        self.complement();
        self.add_set(set)?;
        self.complement();
        Ok(())
    }

    /// Keeps only the members of the set.
    pub(crate) fn retain_set(&mut self, set: &CodePointInversionList) -> Result<(), NoMemory>
        ensures { OnOk result ((c : ℕ) → in_painting self.new c ≡ (in_painting self.old c && contains set.now c)) }
    {
        self.complement();
        self.add_outside(set)?;
        self.complement();
        Ok(())
    }

    /// Keeps only the members of the other set: takes away what it lacks.
    pub(crate) fn retain(&mut self, mut other: Painting) -> Result<(), NoMemory>
        ensures { OnOk result ((c : ℕ) → in_painting self.new c ≡ (in_painting self.old c && in_painting other c)) }
    {
        other.complement();
        self.remove(other)
    }

    /// The set that was painted, still in a builder.
    #[tactic(auto, unfolding(crate::specs::Painting::in_painting))]
    fn into_builder(self) -> Result<CodePointInversionListBuilder, NoMemory>
        ensures { IfOk result (λ set. (c : ℕ) → contains set c ≡ in_painting self c) }
    {
        members_are_code_points();
        let mut set = flattened(self.alloc, self.layers, self.ranges)?;
        if self.complemented {
            set.complement()?;
        }
        Ok(set)
    }

    /// The set that was painted.
    pub(crate) fn into_set(self) -> Result<CodePointInversionList, NoMemory>
        ensures { IfOk result (λ set. (c : ℕ) → contains set c ≡ in_painting self c) }
    {
        Ok(self.into_builder()?.build())
    }
}
