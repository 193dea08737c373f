//! Layers: what painted ranges make of a set, and how many of them become one.
ghost use Rattle.std.specs.Prelude.{◌≡◌, ℕ, Bool, false, if◌then◌else◌, IfOk, OnOk, IfNone, option_to_list, [], ◌++◌};
ghost use Rattle.cp_invlist.specs.InversionList.{contains};
ghost use Rattle.uset_gather.specs.Painting.{in_changed, IsPutOnto, painted, painted_alike, behind, behind_all};

use crate::painting::PaintedRange;
use crate::run::Run;
use cp_invlist::{CodePointInversionList, CodePointInversionListBuilder, NoMemory};
use std::alloc::Global;
use std::mem::replace;

/// What some ranges make of a set below: they take `removed` away, and then join `added`.
#[derive(Drop)]
pub(crate) struct Layer {
    removed: CodePointInversionListBuilder,
    added: CodePointInversionListBuilder,
    /// How many ranges it was made of.
    size: usize,
}

impl Layer {
    /// The layer of a set of about so many ranges that is painted: as members, or as no members.
    pub(crate) fn new(
        alloc: Global,
        set: CodePointInversionListBuilder,
        size: usize,
        member: bool,
    ) -> Layer
        ensures { (c : ℕ) (b : Bool) → behind result c b ≡ (if contains set c then member else b) }
    {
        let none = CodePointInversionListBuilder::new(alloc);
        let (removed, added) = if member { (none, set) } else { (set, none) };
        Layer {
            removed,
            added,
            size,
        }
    }
}

/// About how many ranges the layers were made of: the lowest of as many as all others together, or more.
pub(crate) fn size_of(layers: &[Layer]) -> usize {
    layers.first().map_or(0, |lowest| lowest.size)
}

/// The set without one set, and with another.
fn without_and_with(
    mut set: CodePointInversionListBuilder,
    removed: &CodePointInversionList,
    added: CodePointInversionListBuilder,
) -> Result<CodePointInversionListBuilder, NoMemory>
    ensures { IfOk result (λ changed. (c : ℕ) → contains changed c ≡ in_changed set removed.now added c) }
{
    let added = added.build();
    if !removed.is_empty() {
        set.remove_set(removed)?;
    }
    if !added.is_empty() {
        set.add_set(&added)?;
    }
    Ok(set)
}

/// The layer of both, the upper one over the lower.
fn over(lower: Layer, upper: Layer) -> Result<Layer, NoMemory>
    ensures { IfOk result (λ both. (c : ℕ) (b : Bool) → behind both c b ≡ behind upper c (behind lower c b)) }
{
    let covered = upper.removed.build();
    let mut removed = lower.removed;
    if !covered.is_empty() {
        removed.add_set(&covered)?;
    }
    Ok(Layer {
        removed,
        added: without_and_with(lower.added, &covered, upper.added)?,
        size: lower.size.saturating_add(upper.size),
    })
}

/// Puts the layer onto the others. It is merged with the one below as long as that one isn't at least twice
/// as large: so there are few layers, and each range is merged a logarithm of times.
pub(crate) fn push(layers: &mut Vec<Layer>, layer: Layer) -> Result<(), NoMemory>
    ensures { OnOk result (IsPutOnto layers.old.items layer layers.new.items) }
{
    let mut top = layer;
    while let Some(lower) = layers.pop() {
        if lower.size / 2 >= top.size {
            layers.push(lower)?;
            break;
        }
        top = over(lower, top)?;
    }
    layers.push(top)?;
    Ok(())
}

/// The layer of all, the last of them over the others.
fn merged(mut layers: Vec<Layer>, last: Layer) -> Result<Layer, NoMemory>
    ensures { IfOk result (λ all. (c : ℕ) (b : Bool) → behind all c b ≡ behind last c (behind_all layers.items c b)) }
{
    let mut top = last;
    while let Some(below) = layers.pop() {
        top = over(below, top)?;
    }
    Ok(top)
}

/// The layer of ranges that were painted alike.
fn layer_of(alloc: Global, run: Run, member: bool) -> Result<Layer, NoMemory>
    ensures { IfOk result (λ layer. (c : ℕ) (b : Bool) → behind layer c b ≡ painted_alike run member c b) }
{
    let size = run.len();
    Ok(Layer::new(alloc, run.into_builder()?, size, member))
}

/// From this capacity on a list gives back the room that falls free.
const LARGE: usize = 4096;

/// Takes the last range, and gives back the room behind it from time to time.
fn take_last(ranges: &mut Vec<PaintedRange>) -> Option<PaintedRange>
    ensures last { ranges.old.items ≡ ranges.new.items ++ option_to_list result }
    ensures ended { IfNone result (ranges.old.items ≡ []) }
{
    let capacity = ranges.capacity();
    if capacity >= LARGE && ranges.len() <= capacity - capacity / 8 {
        ranges.shrink_to_fit();
    }
    ranges.pop()
}

/// The layer of ranges in the order in which they were painted. Their room is given back while it is made.
pub(crate) fn layered(alloc: Global, mut ranges: Vec<PaintedRange>) -> Result<Layer, NoMemory>
    ensures { IfOk result (λ layer. (c : ℕ) (b : Bool) → behind layer c b ≡ painted ranges.items c b) }
{
    let mut layers = Vec::new(alloc);
    let mut run = Run::new(alloc);
    let mut member = ranges.first().is_some_and(|painted| painted.member);
    ranges.reverse();
    'to_come: while let Some(painted) = take_last(&mut ranges) {
        if painted.member != member {
            let before = replace(&mut run, Run::new(alloc));
            push(&mut layers, layer_of(alloc, before, member)?)?;
            member = painted.member;
        }
        run.add_range(painted.range)?;
    }
    merged(layers, layer_of(alloc, run, member)?)
}

/// The set that layers, and over them ranges in the order in which they were painted, make of no members.
pub(crate) fn flattened(
    alloc: Global,
    layers: Vec<Layer>,
    ranges: Vec<PaintedRange>,
) -> Result<CodePointInversionListBuilder, NoMemory>
    ensures { IfOk result (λ set. (c : ℕ) → contains set c ≡ painted ranges.items c (behind_all layers.items c false)) }
{
    Ok(merged(layers, layered(alloc, ranges)?)?.added)
}
