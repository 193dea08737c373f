//! What variables are bound to.
ghost use Rattle.std.specs.Prelude.{◌≡◌, true};
ghost use Rattle.uset_variables.specs.Values.{is_kept};

use cp_invlist::NoMemory;
use cp_strset::{CodePointInversionListAndStringList, sole_char};
use std::alloc::Global;
use std::marker::Model;
use uset_gather::Gathered;

/// A string that a variable is bound to. A contract sees it by its bytes.
#[derive(Drop)]
pub struct VariableString {
    text: String,
}

impl Model for VariableString {
    ghost use Rattle.std.specs.Prelude.{ℕ, List};
    ghost use Rattle.std.specs.String.{string_bytes};

    ghost Value = { List ℕ };

    ghost view = { λ s. string_bytes s.text };
}

impl VariableString {
    ghost use Rattle.std.specs.Prelude.{None, IfOk};
    ghost use Rattle.std.specs.Str.{chars};
    ghost use Rattle.std.specs.String.{string_bytes};
    ghost use Rattle.cp_strset.specs.StringList.{sole_of};
    ghost use Rattle.uset_grammar.specs.Tree.{Member};
    ghost use Rattle.uset_gather.specs.Gathered.{in_set, is_string};

    /// The string.
    pub fn new(s: String) -> VariableString
        ensures { result ≡ string_bytes s }
    {
        VariableString { text: s }
    }

    /// Its text.
    pub fn as_str(&self) -> &str
        ensures { result.now ≡ self.now }
    {
        self.text.as_str()
    }

    /// The set of this string alone, which isn't one character. `NoMemory` says that a request for memory was refused.
    pub fn alone(&self, alloc: Global) -> Result<CodePointInversionListAndStringList, NoMemory>
        requires { sole_of (chars self.now) ≡ None }
        ensures { IfOk result (λ set. (m : Member) → in_set set m ≡ is_string self.now m) }
    {
        let mut gathered = Gathered::new(alloc);
        gathered.add_text(String::from_str(alloc, self.as_str())?)?;
        gathered.into_set(alloc)
    }

    /// An equal string.
    pub(crate) fn copy(&self, alloc: Global) -> Result<VariableString, NoMemory>
        ensures { IfOk result (λ s. s ≡ self.now) }
    {
        let text = String::from_str(alloc, self.text.as_str())?;
        Ok(VariableString { text })
    }
}

/// What a variable is bound to.
pub enum VariableValue {
    /// A set with strings.
    UnicodeSet(CodePointInversionListAndStringList),
    /// A character.
    Char(char),
    /// A string.
    String(VariableString),
}

// By hand, so that letting a value go is one call in each proof.
impl Drop for VariableValue {
    fn drop(self) {
        match self {
            VariableValue::UnicodeSet(_) => {}
            VariableValue::Char(_) => {}
            VariableValue::String(_) => {}
        }
    }
}

impl VariableValue {
    ghost use Rattle.std.specs.Prelude.{false, IfOk, MatchOption};
    ghost use Rattle.uset_grammar.specs.Language.{is_set};
    ghost use Rattle.uset_variables.specs.declared.value.VariableValue.TheVariants.{UnicodeSet};
    ghost use Rattle.uset_variables.specs.Values.{kept, value_seen};

    /// The set, where it is one.
    pub fn as_set(&self) -> Option<&CodePointInversionListAndStringList>
        ensures { MatchOption result (is_set (value_seen self.now) ≡ false) (λ set. self.now ≡ UnicodeSet set.now) }
    {
        match self {
            VariableValue::UnicodeSet(set) => Some(set),
            _ => None,
        }
    }

    /// An equal value. A set has no index of its code points in it. `NoMemory` says that a request for memory was refused.
    pub fn copy(&self, alloc: Global) -> Result<VariableValue, NoMemory>
        ensures { IfOk result (λ value. value ≡ self.now) }
    {
        match self {
            VariableValue::UnicodeSet(set) => Ok(VariableValue::UnicodeSet(set.copy(alloc)?)),
            VariableValue::Char(c) => Ok(VariableValue::Char(*c)),
            VariableValue::String(s) => Ok(VariableValue::String(s.copy(alloc)?)),
        }
    }

    /// The value as a map keeps it: a string of exactly one character as that character.
    fn kept(self) -> VariableValue
        ensures value { result ≡ kept self }
        ensures kept { is_kept result ≡ true }
    {
        match self {
            VariableValue::String(s) => match sole_char(s.as_str()) {
                Some(c) => VariableValue::Char(c),
                None => VariableValue::String(s),
            },
            _ => self,
        }
    }
}

/// A value that is no string of exactly one character.
#[derive(Drop)]
pub(crate) struct KeptValue {
    value: VariableValue,
    ghost kept: { is_kept value ≡ true },
}

impl KeptValue {
    ghost use Rattle.std.specs.Prelude.{IfOk};
    ghost use Rattle.uset_variables.specs.Values.{kept};

    /// The value as a map keeps it: a string of exactly one character as that character.
    pub(crate) fn new(value: VariableValue) -> KeptValue
        ensures { result.value ≡ kept value }
    {
        KeptValue {
            value: value.kept(),
        }
    }

    /// The value.
    pub(crate) fn as_value(&self) -> &VariableValue
        ensures value { result.now ≡ self.now.value }
        ensures kept { is_kept result.now ≡ true }
    {
        &self.value
    }

    /// The value itself.
    pub(crate) fn into_value(self) -> VariableValue
        ensures value { result ≡ self.value }
        ensures kept { is_kept result ≡ true }
    {
        self.value
    }

    /// An equal value.
    pub(crate) fn copy(&self, alloc: Global) -> Result<KeptValue, NoMemory>
        ensures { IfOk result (λ kept. kept.value ≡ self.now.value) }
    {
        let value = self.value.copy(alloc)?;
        Ok(KeptValue { value })
    }
}
