//! The conversion of a map to another type of values.
ghost use Rattle.std.specs.Prelude.{◌≡◌, Some, IfOk, IfErr};
ghost use Rattle.cp_trie.specs.Conversion.{conversion, ConvertsTo, NamesFirstRefused};
ghost use Rattle.cp_trie.specs.ConvertedRuns.{runs_by, PassesEach, NamesRefusedRun};

use crate::error::ConvertError;
use crate::ranges::CodePointMapRange;
use crate::trie::CodePointTrie;
use crate::value::TrieValue;
use std::alloc::Global;

impl<T: TrieValue> CodePointTrie<T> {
    /// The map whose values are those that the numbers of this map's values unpack to, the error value's too.
    /// `Value` names the first maximal run whose value does not convert, or the number of maximal runs where the
    /// error value alone does not. `NoMemory` says that a request for memory was refused.
    pub fn try_into_converted<P: TrieValue>(
        self,
        alloc: Global,
    ) -> Result<CodePointTrie<P>, ConvertError>
        ensures values { IfOk result (λ map. ConvertsTo (conversion T.packed P.unpacked) self map) }
        ensures past_end { IfOk result (λ map. conversion T.packed P.unpacked self.error_value ≡ Some map.error_value) }
        ensures refusal { NamesFirstRefused T.eq (conversion T.packed P.unpacked) self result }
    {
        self.to_converted(alloc)
    }

    /// The same of a map that stays, so that no exit lets it go.
    fn to_converted<P: TrieValue>(&self, alloc: Global) -> Result<CodePointTrie<P>, ConvertError>
        ensures values { IfOk result (λ map. ConvertsTo (conversion T.packed P.unpacked) self.now map) }
        ensures past_end { IfOk result
            (λ map. conversion T.packed P.unpacked self.now.error_value ≡ Some map.error_value) }
        ensures refusal { NamesFirstRefused T.eq (conversion T.packed P.unpacked) self.now result }
    {
        let runs = converted_runs(alloc, self.runs())?;
        let Some(error_value) = converted(self.error_value()) else {
            return Err(ConvertError::Value {
                index: self.runs().len(),
            });
        };
        Ok(CodePointTrie::from_cover(alloc, runs, error_value)?)
    }
}

/// The runs with their values converted. A refusal names the first run whose value does not convert.
fn converted_runs<T: TrieValue, P: TrieValue>(
    alloc: Global,
    runs: &[CodePointMapRange<T>],
) -> Result<Vec<CodePointMapRange<P>>, ConvertError>
    ensures converted { IfOk result (λ made. made.items ≡ runs_by (conversion T.packed P.unpacked) runs.now) }
    ensures whole { IfOk result (λ _. PassesEach (conversion T.packed P.unpacked) runs.now) }
    ensures refusal { IfErr result (NamesRefusedRun (conversion T.packed P.unpacked) runs.now) }
{
    let mut made = Vec::with_capacity(alloc, runs.len())?;
    for (index, run) in runs.iter().enumerate() {
        let Some(value) = converted(run.value) else {
            return Err(ConvertError::Value { index });
        };
        let range = run.range;
        made.push(CodePointMapRange { range, value })?;
    }
    Ok(made)
}

/// The value of the other type that the number of this one unpacks to, if there is one.
fn converted<T: TrieValue, P: TrieValue>(value: T) -> Option<P>
    ensures { result ≡ conversion T.packed P.unpacked value }
{
    P::try_from_u32(value.to_u32()).ok()
}
