//! The runs of a map.
ghost use Rattle.std.specs.Prelude.{◌≡◌, None, IfOk, IsTrue};
ghost use Rattle.cp_trie.specs.Faults.{first_fault as fault_of};
ghost use Rattle.cp_trie.specs.Joined.{joined as join_of};

use crate::error::TrieError;
use crate::ranges::CodePointMapRange;
use cp_invlist::LAST_CODE_POINT;
use std::alloc::{AllocError, Global};
use std::marker::Model;

/// Runs that cover 0 to 10FFFF in order. A contract sees them as their list.
#[derive(Drop)]
pub(crate) struct Runs<T> {
    runs: Vec<CodePointMapRange<T>>,
}

impl<T> Model for Runs<T> {
    ghost use Rattle.std.specs.Prelude.{◌≡◌, None, List};
    ghost use Rattle.cp_trie.specs.Faults.{first_fault};
    ghost use Rattle.cp_trie.specs.declared.ranges.CodePointMapRange.{CodePointMapRange};

    ghost Value = { List (CodePointMapRange T) };

    ghost view = { λ s. s.runs.items };

    ghost invariant = { λ s. first_fault s.runs.items ≡ None };
}

impl<T: Copy + Eq> Runs<T> {
    ghost use Rattle.std.specs.Prelude.{◌≡◌, None, IfOk, OnOk};
    ghost use Rattle.cp_trie.specs.Faults.{first_fault as fault_of, AnswersFault};
    ghost use Rattle.cp_trie.specs.Joined.{joined as join_of};

    /// The runs that were handed in, with neighbours of equal value joined, or their first fault.
    pub(crate) fn try_new(
        alloc: Global,
        runs: Vec<CodePointMapRange<T>>,
    ) -> Result<Runs<T>, TrieError>
        ensures no_fault { OnOk result (fault_of runs.items ≡ None) }
        ensures joined { IfOk result (λ made. made ≡ join_of T.eq runs.items) }
        ensures faults { AnswersFault runs.items result }
    {
        if are_maximal(&runs) {
            return Ok(Runs { runs });
        }
        if let Some(fault) = first_fault(&runs) {
            return Err(fault);
        }
        Ok(Runs {
            runs: joined_list(alloc, &runs)?,
        })
    }

    /// The runs in order.
    pub(crate) fn as_slice(&self) -> &[CodePointMapRange<T>]
        ensures { result.now ≡ self.now }
    {
        &self.runs
    }

    /// The same runs.
    pub(crate) fn copy(&self, alloc: Global) -> Result<Runs<T>, AllocError>
        ensures { IfOk result (λ runs. runs ≡ self.now) }
    {
        Ok(Runs {
            runs: Vec::from_slice(alloc, &self.runs)?,
        })
    }
}

/// The first fault of runs that are to cover 0 to 10FFFF in order, if there is one.
fn first_fault<T: Copy>(runs: &[CodePointMapRange<T>]) -> Option<TrieError>
    ensures { result ≡ fault_of runs.now }
{
    let mut next = 0;
    for (index, run) in runs.iter().enumerate() {
        let range = run.range;
        if range.start != next {
            return Some(TrieError::Gap { index });
        }
        if range.end < range.start || LAST_CODE_POINT < range.end {
            return Some(TrieError::Order { index });
        }
        next = range.end + 1;
    }
    if next == LAST_CODE_POINT + 1 {
        None
    } else {
        Some(TrieError::Gap { index: runs.len() })
    }
}

/// The runs with neighbours of equal value joined. Where none are equal, they are kept as they are.
pub(crate) fn joined<T: Copy + Eq>(
    alloc: Global,
    runs: Vec<CodePointMapRange<T>>,
) -> Result<Runs<T>, AllocError>
    requires { fault_of runs.items ≡ None }
    ensures { IfOk result (λ joined. joined ≡ join_of T.eq runs.items) }
{
    if are_maximal(&runs) {
        return Ok(Runs { runs });
    }
    Ok(Runs {
        runs: joined_list(alloc, &runs)?,
    })
}

/// Whether the runs cover 0 to 10FFFF in order and no neighbours have an equal value. Each run is looked at, since a
/// loop that may end early does not become vector code.
fn are_maximal<T: Copy + Eq>(runs: &[CodePointMapRange<T>]) -> bool
    ensures no_fault { IsTrue result → fault_of runs.now ≡ None }
    ensures joined { IsTrue result → join_of T.eq runs.now ≡ runs.now }
{
    let Some((first, rest)) = runs.split_first() else {
        return false;
    };
    let mut maximal = first.range.start == 0;
    let mut range = first.range;
    let mut value = first.value;
    for run in rest {
        maximal &= run.range.start == range.end.wrapping_add(1);
        maximal &= range.end < run.range.end;
        maximal &= value != run.value;
        range = run.range;
        value = run.value;
    }
    maximal & (range.end == LAST_CODE_POINT)
}

/// The list of the runs with neighbours of equal value joined.
fn joined_list<T: Copy + Eq>(
    alloc: Global,
    runs: &[CodePointMapRange<T>],
) -> Result<Vec<CodePointMapRange<T>>, AllocError>
    ensures { IfOk result (λ joined. joined.items ≡ join_of T.eq runs.now) }
{
    let mut joined = Vec::with_capacity(alloc, runs.len())?;
    let Some((first, rest)) = runs.split_first() else {
        return Ok(joined);
    };
    let mut range = first.range;
    let mut value = first.value;
    for run in rest {
        if value == run.value {
            range.end = run.range.end;
        } else {
            joined.push(CodePointMapRange { range, value })?;
            range = run.range;
            value = run.value;
        }
    }
    joined.push(CodePointMapRange { range, value })?;
    Ok(joined)
}
