//! The variables of a pattern (UTS 35, Unicode Sets).
ghost use Rattle.std.specs.Prelude.{◌≡◌, ℕ, List, Some, IfSome, IfOk, OnOk, cond, is_some, option_map};
ghost use Rattle.std.specs.Str.{bytes_eq};
ghost use Rattle.uset_variables.specs.declared.value.VariableValue.TheVariants.{UnicodeSet};
ghost use Rattle.uset_variables.specs.Numbered.{value_at, some_value_in, some_gets_numbers, AreIndices, GrowsWithin};

use crate::index::Index;
use crate::value::{KeptValue, VariableString, VariableValue};
use cp_invlist::NoMemory;
use cp_strset::CodePointInversionListAndStringList;
use cp_strset_terms::{NumberSet, StringNumbers};
use std::alloc::{AllocError, Global};
use std::collections::BTreeMap;

/// Why a name is not bound anew.
#[derive(Clone, Copy, Drop)]
pub enum InsertError<'a> {
    /// It is bound already, to this value.
    Present(&'a VariableValue),
    /// A request for memory was refused.
    NoMemory,
}

impl<'a> From<NoMemory> for InsertError<'a> {
    ghost use Rattle.uset_variables.specs.declared.map.InsertError.TheVariants.{NoMemory as OutOfMemory};

    ghost from_gives = { λ _ error. error ≡ OutOfMemory };

    fn from(_error: NoMemory) -> InsertError<'a> {
        InsertError::NoMemory
    }
}

impl<'a> From<AllocError> for InsertError<'a> {
    ghost use Rattle.uset_variables.specs.declared.map.InsertError.TheVariants.{NoMemory as OutOfMemory};

    ghost from_gives = { λ _ error. error ≡ OutOfMemory };

    fn from(_error: AllocError) -> InsertError<'a> {
        InsertError::NoMemory
    }
}

/// A map from the names of variables to their values. A string of exactly one character is kept as that character. Of names
/// whose strings were asked to be numbered (`number_strings`) it keeps the numbers of the strings of their sets, and those
/// of long strings.
#[derive(Drop)]
pub struct VariableMap {
    values: BTreeMap<String, KeptValue>,
    /// The strings that have numbers.
    strings: StringNumbers,
    /// The numbers of the strings of a variable, by its name.
    indices: BTreeMap<String, Index>,
    ghost indexed: { AreIndices values strings indices },
}

impl VariableMap {
    ghost use Rattle.std.specs.Prelude.{◌&&◌, ◌||◌, [], None, OnErr, true};
    ghost use Rattle.std.specs.Borrow.{sem};
    ghost use Rattle.std.specs.Option.{option_copied};
    ghost use Rattle.std.specs.String.{string_bytes};
    ghost use Rattle.uset_variables.specs.declared.value.VariableValue.TheVariants.{Char, String as Spelled};
    ghost use Rattle.uset_variables.specs.Values.{is_kept, kept};
    ghost use Rattle.uset_grammar.specs.Tree.{Member};
    ghost use Rattle.uset_gather.specs.Gathered.{in_set};
    ghost use Rattle.cp_strset_terms.specs.Numbers.{AreNumbersOf, KeepsNumbers};
    ghost use Rattle.uset_variables.specs.Variables.{bound, numbered_strings, numbers_at};
    ghost use Rattle.uset_variables.specs.Variables.{Binds, IsSame, HasSameNumbers};
    ghost use Rattle.uset_variables.specs.Insertions.{value_present, present_in, EndsInserted};

    /// The map that binds no name.
    pub fn new(alloc: Global) -> VariableMap
        ensures free { (name : List ℕ) → bound result name ≡ None }
        ensures unnumbered { (name : List ℕ) → numbers_at result name ≡ None }
        ensures strings { numbered_strings result ≡ [] }
    {
        VariableMap {
            values: BTreeMap::new(alloc),
            strings: StringNumbers::new(alloc),
            indices: BTreeMap::new(alloc),
        }
    }

    /// The value of the name, `None` where it is bound to nothing.
    pub fn get(&self, key: &str) -> Option<&VariableValue>
        ensures value { option_copied result ≡ bound self.now key.now }
        ensures kept { IfSome result (λ v. is_kept v.now ≡ true) }
    {
        self.values.get(key).map(KeptValue::as_value)
    }

    /// Binds the name to the value, where it is bound to nothing. A string of exactly one character is kept as that
    /// character. A name that is bound already is refused with its value, also where memory is short. After a refusal all
    /// names are bound as they were. The strings of sets keep their numbers.
    pub fn insert(&mut self, key: String, value: VariableValue) -> Result<(), InsertError<'_>>
        ensures* ends { sem 𝓛 (EndsInserted self.entry (string_bytes key) (kept value) result) }
        ensures present { present_in result ≡ bound self.old (string_bytes key) }
    {
        if self.get(key.as_str()).is_some() {
            return Err(self.refusal(key.as_str()));
        }
        self.bind(key, KeptValue::new(value))?;
        Ok(())
    }

    /// Binds the name to a character, as `insert`.
    pub fn insert_char(&mut self, key: String, c: char) -> Result<(), InsertError<'_>>
        ensures* ends { sem 𝓛 (EndsInserted self.entry (string_bytes key) (Char c) result) }
        ensures present { present_in result ≡ bound self.old (string_bytes key) }
    {
        self.insert(key, VariableValue::Char(c))
    }

    /// Binds the name to a string, or to its one character where it has exactly one, as `insert`.
    pub fn insert_string(&mut self, key: String, s: String) -> Result<(), InsertError<'_>>
        ensures* ends { sem 𝓛 (EndsInserted self.entry (string_bytes key) (kept (Spelled (string_bytes s))) result) }
        ensures present { present_in result ≡ bound self.old (string_bytes key) }
    {
        self.insert(key, VariableValue::String(VariableString::new(s)))
    }

    /// Binds the name to a copy of a string, or to its one character where it has exactly one, as `insert`.
    pub fn insert_str(&mut self, key: String, s: &str) -> Result<(), InsertError<'_>>
        ensures* ends { sem 𝓛 (EndsInserted self.entry (string_bytes key) (kept (Spelled s.now)) result) }
        ensures present { present_in result ≡ bound self.old (string_bytes key) }
    {
        if self.get(key.as_str()).is_none() {
            let text = String::from_str(*key.allocator(), s)?;
            return self.insert_string(key, text);
        }
        Err(self.refusal(key.as_str()))
    }

    /// Binds the name to a set, as `insert`.
    pub fn insert_set(
        &mut self,
        key: String,
        set: CodePointInversionListAndStringList,
    ) -> Result<(), InsertError<'_>>
        ensures* ends { sem 𝓛 (EndsInserted self.entry (string_bytes key) (UnicodeSet set) result) }
        ensures present { present_in result ≡ bound self.old (string_bytes key) }
    {
        self.insert(key, VariableValue::UnicodeSet(set))
    }

    /// Frees the name. The answer is the value that it was bound to, as it was kept, and `None` where it was bound to nothing.
    /// Strings that got numbers by `number_strings` keep them for good: the map holds these strings until it is let go itself.
    pub fn remove(&mut self, key: &str) -> Option<VariableValue>
        ensures value { result ≡ bound self.old key.now }
        ensures kept { IfSome result (λ v. is_kept v ≡ true) }
        ensures removes { Binds self.old key.now None self.new }
        ensures numbers { (name : List ℕ) →
            numbers_at self.new name ≡ cond (bytes_eq key.now name) None (numbers_at self.old name) }
        ensures strings { numbered_strings self.new ≡ numbered_strings self.old }
    {
        let _ = self.indices.remove(key);
        self.values.remove(key).map(KeptValue::into_value)
    }

    /// Numbers the strings of the set that the name is bound to, where there are at least 64 or they have at least 4,096 bytes
    /// together, or the string of at least 4,096 bytes that it is bound to. With these numbers set expressions over the
    /// variable needn't go along its strings. A name that is bound to nothing or to another value gets none, no other string
    /// gets a number, and all names are bound as they were. `NoMemory` says that a request for memory was refused: each name
    /// has the numbers that it had then.
    pub fn number_strings(&mut self, alloc: Global, key: &str) -> Result<(), NoMemory>
        ensures same { IsSame self.old self.new }
        ensures strings { KeepsNumbers (numbered_strings self.old) (numbered_strings self.new) }
        ensures grown { GrowsWithin (bound self.old key.now) (numbered_strings self.old) (numbered_strings self.new) }
        ensures ok { OnOk result ((name : List ℕ) → is_some (numbers_at self.new name) ≡
            ((bytes_eq key.now name && some_gets_numbers (bound self.old key.now))
            || is_some (numbers_at self.old name))) }
        ensures err { OnErr result ((name : List ℕ) → numbers_at self.new name ≡ numbers_at self.old name) }
    {
        if self.indices.contains_key(key) {
            return Ok(());
        }
        let Some(kept) = self.values.get(key) else {
            return Ok(());
        };
        let Some(index) = Index::of(alloc, &mut self.strings, kept)? else {
            return Ok(());
        };
        let name = String::from_str(alloc, key)?;
        self.indices.insert(name, index)?;
        Ok(())
    }

    /// The strings that have numbers.
    pub fn string_numbers(&self) -> &StringNumbers
        ensures { result.now ≡ numbered_strings self.now }
    {
        &self.strings
    }

    /// The set that the name is bound to, or that of the string alone that it is bound to, with the numbers of its strings,
    /// where it got some (`number_strings`).
    pub fn numbered_set(
        &self,
        key: &str,
    ) -> Option<(&CodePointInversionListAndStringList, &NumberSet)>
        ensures numbers { option_map (λ found. found.1.now) result ≡ numbers_at self.now key.now }
        ensures members { IfSome result (λ found. (m : Member) →
            in_set found.0.now m ≡ some_value_in (bound self.now key.now) m) }
        ensures theirs { IfSome result (λ found.
            AreNumbersOf (numbered_strings self.now) found.0.now.strings found.1.now) }
    {
        let index = self.indices.get(key)?;
        let set = index.set(self.get(key)?)?;
        Some((set, &index.numbers))
    }

    /// A map that binds the same names to equal values. No strings have numbers in it until they are given some again, and no set
    /// has an index of its code points. `NoMemory` says that a request for memory was refused.
    pub fn copy(&self, alloc: Global) -> Result<VariableMap, NoMemory>
        ensures bound { IfOk result (λ map. IsSame self.now map) }
        ensures unnumbered { IfOk result (λ map. (name : List ℕ) → numbers_at map name ≡ None) }
        ensures strings { IfOk result (λ map. numbered_strings map ≡ []) }
    {
        Ok(VariableMap {
            values: copied_values(alloc, &self.values)?,
            strings: StringNumbers::new(alloc),
            indices: BTreeMap::new(alloc),
        })
    }

    /// Why the name is not bound: its value, where it is bound already, or else that memory was refused.
    fn refusal(&self, key: &str) -> InsertError<'_>
        ensures { value_present result ≡ bound self.now key.now }
    {
        match self.get(key) {
            Some(value) => InsertError::Present(value),
            None => InsertError::NoMemory,
        }
    }

    /// Binds the name, which is bound to nothing, to the value.
    fn bind(&mut self, key: String, value: KeptValue) -> Result<(), NoMemory>
        requires { bound self.old (string_bytes key) ≡ None }
        ensures numbers { HasSameNumbers self.old self.new }
        ensures ok { OnOk result (Binds self.old (string_bytes key) (Some value.value) self.new) }
        ensures err { OnErr result (IsSame self.old self.new) }
    {
        self.values.insert(key, value)?;
        Ok(())
    }
}

/// Puts an equal value at an equal name.
fn insert_copy(
    alloc: Global,
    values: &mut BTreeMap<String, KeptValue>,
    key: &str,
    kept: &KeptValue,
) -> Result<(), NoMemory>
    ensures { OnOk result ((name : List ℕ) → value_at values.new name ≡
        cond (bytes_eq key.now name) (Some kept.now.value) (value_at values.old name)) }
{
    let name = String::from_str(alloc, key)?;
    values.insert(name, kept.copy(alloc)?)?;
    Ok(())
}

/// Equal values at equal names.
fn copied_values(
    alloc: Global,
    values: &BTreeMap<String, KeptValue>,
) -> Result<BTreeMap<String, KeptValue>, NoMemory>
    ensures { IfOk result (λ copied. (name : List ℕ) → value_at copied name ≡ value_at values.now name) }
{
    let mut copied = BTreeMap::new(alloc);
    for (key, kept) in values {
        insert_copy(alloc, &mut copied, key.as_str(), kept)?;
    }
    Ok(copied)
}
