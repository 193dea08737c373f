//! The strings of a term.
ghost use Rattle.std.specs.Prelude.{◌≡◌, ◌≤◌, ◌++◌, ℕ, All, Bool, List, IfOk, OnOk, length, map, filter};
ghost use Rattle.std.specs.String.{string_bytes};
ghost use Rattle.cp_invlist.specs.InversionList.{contains};
ghost use Rattle.cp_strset.specs.StringList.{AreCanonical, holds};
ghost use Rattle.cp_terms.specs.Terms.{value_of};
ghost use Rattle.cp_strset_terms.specs.Leaves.{leaf_holds, FitsNumbers};
ghost use Rattle.cp_strset_terms.specs.Places.{texts, IsAt};
ghost use Rattle.cp_strset_terms.specs.Steps.{without_complement, without_complements};

use crate::candidates::candidates;
use crate::leaf::Leaf;
use crate::narrowed::table_of_term;
use crate::number_set::PIECE;
use crate::places::places_of_leaves;
use crate::string_numbers::StringNumbers;
use cp_invlist::{CodePointInversionList, NoMemory};
use cp_terms::Step;
use std::alloc::Global;

/// The step that makes of strings what the step makes of sets: a complement has none.
fn complement_free_step(step: Step) -> Step
    ensures { result ≡ without_complement step }
{
    match step {
        Step::Complement => Step::Clear,
        other => other,
    }
}

/// The steps that make of strings what the steps make of sets.
fn complement_free(alloc: Global, steps: &[Step]) -> Result<Vec<Step>, NoMemory>
    ensures { IfOk result (λ free. free.items ≡ without_complements steps.now) }
{
    let mut free = Vec::with_capacity(alloc, steps.len())?;
    for step in steps {
        free.push(complement_free_step(*step))?;
    }
    Ok(free)
}

/// A reference to each set.
fn references<'a>(
    alloc: Global,
    sets: &'a [CodePointInversionList],
) -> Result<Vec<&'a CodePointInversionList>, NoMemory>
    ensures { IfOk result (λ references. map (λ set. set.now) references.items ≡ sets.now) }
{
    let mut references = Vec::with_capacity(alloc, sets.len())?;
    for set in sets {
        references.push(set)?;
    }
    Ok(references)
}

/// Puts copies of the texts whose places are in the set behind the others.
fn push_members(
    alloc: Global,
    strings: &mut Vec<String>,
    list: &[&str],
    places: &CodePointInversionList,
) -> Result<(), NoMemory>
    requires { length list.now ≤ 0x11_0000 }
    ensures { OnOk result ((test : List ℕ → Bool) →
        ((place : ℕ) (text : List ℕ) → IsAt (texts list.now) place text →
        contains places.now place ≡ test text) →
        map string_bytes strings.new.items ≡
        map string_bytes strings.old.items ++ filter test (texts list.now)) }
{
    for (place, text) in list.iter().enumerate() {
        if places.contains32(place as u32) {
            strings.push(String::from_str(alloc, text)?)?;
        }
    }
    Ok(())
}

/// Puts copies of the texts that the term has behind the others.
fn push_kept(
    alloc: Global,
    strings: &mut Vec<String>,
    list: &[&str],
    leaves: &[Leaf<'_>],
    steps: &[Step],
) -> Result<(), NoMemory>
    requires canonical { AreCanonical (texts list.now) }
    requires numbered { length list.now ≤ 0x11_0000 }
    ensures { OnOk result (map string_bytes strings.new.items ≡ map string_bytes strings.old.items ++
        filter (λ text. value_of (leaf_holds leaves.now text) steps.now) (texts list.now)) }
{
    let sets = places_of_leaves(alloc, list, leaves)?;
    let places = cp_terms::evaluate(alloc, &references(alloc, &sets)?, steps)?;
    push_members(alloc, strings, list, &places)
}

/// Copies of the texts that the term has.
fn kept_texts(
    alloc: Global,
    table: &[&str],
    leaves: &[Leaf<'_>],
    steps: &[Step],
) -> Result<Vec<String>, NoMemory>
    requires { AreCanonical (texts table.now) }
    ensures { IfOk result (λ strings. map string_bytes strings.items ≡
        filter (λ text. value_of (leaf_holds leaves.now text) steps.now) (texts table.now)) }
{
    let mut strings = Vec::new(alloc);
    for piece in table.chunks(PIECE) {
        push_kept(alloc, &mut strings, piece, leaves, steps)?;
    }
    Ok(strings)
}

/// The strings of the set that the steps make of the leaves.
pub(crate) fn strings_of_term(
    alloc: Global,
    all: &StringNumbers,
    leaves: &[Leaf<'_>],
    steps: &[Step],
) -> Result<Vec<String>, NoMemory>
    requires { All (FitsNumbers all.now) leaves.now }
    ensures canonical { IfOk result (λ strings. AreCanonical (map string_bytes strings.items)) }
    ensures strings { IfOk result (λ strings. (bytes : List ℕ) → holds (map string_bytes strings.items) bytes ≡
        value_of (leaf_holds leaves.now bytes) (without_complements steps.now)) }
{
    let candidates = candidates(alloc, leaves, steps)?;
    let steps = complement_free(alloc, steps)?;
    let table = table_of_term(alloc, all, leaves, &candidates, &steps)?;
    kept_texts(alloc, &table, leaves, &steps)
}
