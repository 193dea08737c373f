//! Set expressions over sets with strings, evaluated at once.
#![tactic(auto)]

ghost use Rattle.std.specs.Prelude.{◌≡◌, ◌&&◌, ℕ, All, List, IfOk};
ghost use Rattle.cp_invlist.specs.InversionList.{contains, is_code_point};
ghost use Rattle.cp_strset.specs.StringList.{holds};
ghost use Rattle.cp_terms.specs.Terms.{value_of};
ghost use Rattle.cp_strset_terms.specs.Leaves.{leaf_contains, leaf_holds, FitsNumbers};
ghost use Rattle.cp_strset_terms.specs.Steps.{without_complements};

mod candidates;
mod cut;
mod leaf;
mod leaf_numbers;
mod members;
mod narrowed;
mod number_set;
mod places;
mod string_numbers;
mod table;

use cp_invlist::NoMemory;
use cp_strset::CodePointInversionListAndStringList;
use cp_strset::laws::faultless;
pub use cp_terms::{SetOperation, Step};
pub use leaf::Leaf;
use leaf::code_point_lists;
use members::strings_of_term;
pub use number_set::NumberSet;
use std::alloc::Global;
pub use string_numbers::StringNumbers;

/// The set that the steps make of the leaves, which they name by their indices. A leaf that isn't there is the empty set, and
/// a complement has code points alone. `numbers` has the number of each string of a leaf that has numbers: by these a set of few
/// strings is found without going along the strings of leaves that have many. `NoMemory` says that a request for memory was
/// refused.
pub fn evaluate(
    alloc: Global,
    numbers: &StringNumbers,
    leaves: &[Leaf<'_>],
    steps: &[Step],
) -> Result<CodePointInversionListAndStringList, NoMemory>
    requires { All (FitsNumbers numbers.now) leaves.now }
    ensures code_points { IfOk result (λ set. (c : ℕ) → contains set.code_points c ≡
        (is_code_point c && value_of (leaf_contains leaves.now c) steps.now)) }
    ensures strings { IfOk result (λ set. (bytes : List ℕ) → holds set.strings bytes ≡
        value_of (leaf_holds leaves.now bytes) (without_complements steps.now)) }
{
    let lists = code_point_lists(alloc, leaves)?;
    let code_points = cp_terms::evaluate(alloc, &lists, steps)?;
    let strings = strings_of_term(alloc, numbers, leaves, steps)?;
    faultless();
    match CodePointInversionListAndStringList::try_from(code_points, strings) {
        Ok(set) => Ok(set),
        Err(_) => unreachable!(),
    }
}
