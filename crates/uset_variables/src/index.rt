//! The numbers of the strings of what a name is bound to.

use crate::value::{KeptValue, VariableValue};
use cp_invlist::NoMemory;
use cp_strset::{CodePointInversionListAndStringList, MANY_STRING_BYTES};
use cp_strset_terms::{NumberSet, StringNumbers};
use std::alloc::Global;

/// What is kept for a name so that its strings needn't be gone along.
pub(crate) struct Index {
    /// The numbers of the strings.
    pub(crate) numbers: NumberSet,
    /// The set of the string alone, where the name is bound to a string.
    alone: Option<CodePointInversionListAndStringList>,
}

// By hand, so that letting a value go is one call in each proof.
impl Drop for Index {
    fn drop(self) {
        let Self {
            numbers: _,
            alone: _,
        } = self;
    }
}

impl Index {
    ghost use Rattle.std.specs.Prelude.{◌≡◌, Some, IfOk, IfSome, is_some};
    ghost use Rattle.std.specs.Option.{option_copied};
    ghost use Rattle.cp_strset_terms.specs.Numbers.{KeepsNumbers};
    ghost use Rattle.uset_variables.specs.Numbered.{gets_numbers, indexed_set, GrowsWithin, IsIndexOf};

    /// The index of the value, where it gets numbers: each of its strings has one from now on.
    pub(crate) fn of(
        alloc: Global,
        strings: &mut StringNumbers,
        kept: &KeptValue,
    ) -> Result<Option<Index>, NoMemory>
        ensures kept { KeepsNumbers strings.old strings.new }
        ensures grown { GrowsWithin (Some kept.now.value) strings.old strings.new }
        ensures index { IfOk result (λ index. IfSome index (IsIndexOf strings.new (Some kept.now.value))) }
        ensures some { IfOk result (λ index. is_some index ≡ gets_numbers kept.now.value) }
    {
        match kept.as_value() {
            VariableValue::UnicodeSet(set) if set.has_many_strings() => Ok(Some(Index {
                numbers: strings.number(alloc, set)?,
                alone: None,
            })),
            VariableValue::String(s) if s.as_str().len() >= MANY_STRING_BYTES => {
                let set = s.alone(alloc)?;
                Ok(Some(Index {
                    numbers: strings.number(alloc, &set)?,
                    alone: Some(set),
                }))
            }
            _ => Ok(None),
        }
    }

    /// The set whose strings have the numbers: that of the string alone, or the value itself.
    pub(crate) fn set<'a>(
        &'a self,
        value: &'a VariableValue,
    ) -> Option<&'a CodePointInversionListAndStringList>
        ensures { option_copied result ≡ indexed_set value.now self.now }
    {
        match &self.alone {
            Some(set) => Some(set),
            None => value.as_set(),
        }
    }
}
