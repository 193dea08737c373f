//! The strings of a set in the making.
use crate::CodePointInversionListAndStringList;
use cp_invlist::{CodePointInversionList, NoMemory};
use std::alloc::Global;
use std::collections::BTreeSet;
use std::marker::Model;
use std::mem::swap;

/// The strings of a set in the making. None is exactly one character, since that is a code point. A contract sees it as the
/// ordered set of the strings.
#[derive(Drop)]
pub struct Strings {
    texts: BTreeSet<String>,
}

impl Model for Strings {
    ghost use Rattle.std.specs.Prelude.{◌≡◌, ℕ, List, None, true};
    ghost use Rattle.std.specs.BTreeSet.{BTreeSet as Seen, contains_text};
    ghost use Rattle.std.specs.Str.{chars};
    ghost use Rattle.std.specs.Global.{Global};
    ghost use Rattle.std.specs.declared.string.String.{String as Bytes};
    ghost use Rattle.cp_strset.specs.StringList.{sole_of};

    ghost Value = { Seen (Bytes Global) };

    ghost view = { λ s. s.texts };

    ghost invariant = { λ s. (bytes : List ℕ) → contains_text s.texts bytes ≡ true → sole_of (chars bytes) ≡ None };
}

impl Strings {
    ghost use Rattle.std.specs.Prelude.{◌≡◌, ◌↔◌, ◌||◌, ◌&&◌, not, ℕ, List, map, None, false, IsTrue, IfOk, OnOk, OnErr};
    ghost use Rattle.std.specs.BTreeSet.{contains_text};
    ghost use Rattle.std.specs.Str.{chars, bytes_eq};
    ghost use Rattle.std.specs.String.{string_bytes};
    ghost use Rattle.cp_strset.specs.StringList.{sole_of, holds, AreCanonical};

    /// No strings.
    pub fn new(alloc: Global) -> Strings
        ensures { (bytes : List ℕ) → contains_text result bytes ≡ false }
    {
        Strings {
            texts: BTreeSet::new(alloc),
        }
    }

    /// Whether there is no string.
    pub fn is_empty(&self) -> bool
        ensures { IsTrue result ↔ ((bytes : List ℕ) → contains_text self.now bytes ≡ false) }
    {
        self.texts.is_empty()
    }

    /// Whether the text is one of the strings.
    pub fn contains(&self, text: &str) -> bool
        ensures { result ≡ contains_text self.now text.now }
    {
        self.texts.contains(text)
    }

    /// Adds a string, which isn't one character. Where memory is refused nothing has changed.
    pub fn insert(&mut self, text: String) -> Result<(), NoMemory>
        requires { sole_of (chars (string_bytes text)) ≡ None }
        ensures ok { OnOk result ((bytes : List ℕ) →
            contains_text self.new bytes ≡ (contains_text self.old bytes || bytes_eq (string_bytes text) bytes)) }
        ensures err { OnErr result (self.new ≡ self.old) }
    {
        self.texts.insert(text)?;
        Ok(())
    }

    /// These strings and the others. The fewer are moved. `NoMemory` says that a request for memory was refused.
    pub fn append(self, other: Strings) -> Result<Strings, NoMemory>
        ensures { IfOk result (λ all. (bytes : List ℕ) →
            contains_text all bytes ≡ (contains_text self bytes || contains_text other bytes)) }
    {
        if self.texts.len() < other.texts.len() {
            other.with_all(self)
        } else {
            self.with_all(other)
        }
    }

    /// These strings, into which the others are moved.
    fn with_all(self, other: Strings) -> Result<Strings, NoMemory>
        ensures { IfOk result (λ all. (bytes : List ℕ) →
            contains_text all bytes ≡ (contains_text self bytes || contains_text other bytes)) }
    {
        let mut texts = self.texts;
        let mut more = other.texts;
        texts.append(&mut more)?;
        Ok(Strings { texts })
    }

    /// Takes the other strings away. It goes along the fewer, and looks each up among the others.
    pub fn remove_all(&mut self, other: Strings)
        ensures { (bytes : List ℕ) →
            contains_text self.new bytes ≡ (contains_text self.old bytes && not (contains_text other bytes)) }
    {
        if self.texts.len() < other.texts.len() {
            self.keep_others(&other);
        } else {
            self.remove_each(other);
        }
    }

    /// Goes along the strings, and keeps those that the other lacks.
    fn keep_others(&mut self, other: &Strings)
        ensures { (bytes : List ℕ) →
            contains_text self.new bytes ≡ (contains_text self.old bytes && not (contains_text other.now bytes)) }
    {
        self.texts
            .retain(|text| !other.texts.contains(text.as_str()));
    }

    /// Goes along the other strings, and takes each away.
    fn remove_each(&mut self, other: Strings)
        ensures { (bytes : List ℕ) →
            contains_text self.new bytes ≡ (contains_text self.old bytes && not (contains_text other bytes)) }
    {
        for text in other.texts {
            self.texts.remove(text.as_str());
        }
    }

    /// These strings and copies of those of the set. `NoMemory` says that a request for memory was refused.
    pub fn insert_copies(
        mut self,
        alloc: Global,
        set: &CodePointInversionListAndStringList,
    ) -> Result<Strings, NoMemory>
        ensures { IfOk result (λ all. (bytes : List ℕ) →
            contains_text all bytes ≡ (contains_text self bytes || holds set.now.strings bytes)) }
    {
        self.insert_each(alloc, set.strings())?;
        Ok(self)
    }

    /// Adds a copy of each string of the list.
    fn insert_each(&mut self, alloc: Global, strings: &[String]) -> Result<(), NoMemory>
        requires { AreCanonical (map string_bytes strings.now) }
        ensures { OnOk result ((bytes : List ℕ) → contains_text self.new bytes ≡
            (contains_text self.old bytes || holds (map string_bytes strings.now) bytes)) }
    {
        for text in strings {
            self.insert(String::from_str(alloc, text.as_str())?)?;
        }
        Ok(())
    }

    /// Takes the strings of the set away. It goes along the fewer, and looks each up among the others.
    pub fn remove_listed(&mut self, set: &CodePointInversionListAndStringList)
        ensures { (bytes : List ℕ) →
            contains_text self.new bytes ≡ (contains_text self.old bytes && not (holds set.now.strings bytes)) }
    {
        if self.texts.len() < set.strings().len() {
            self.keep_unlisted(set);
        } else {
            self.remove_each_listed(set.strings());
        }
    }

    /// Goes along the strings, and keeps those that the set lacks.
    fn keep_unlisted(&mut self, set: &CodePointInversionListAndStringList)
        ensures { (bytes : List ℕ) →
            contains_text self.new bytes ≡ (contains_text self.old bytes && not (holds set.now.strings bytes)) }
    {
        self.texts.retain(|text| !set.contains_str(text));
    }

    /// Goes along the strings of the list, and takes each away.
    fn remove_each_listed(&mut self, strings: &[String])
        ensures { (bytes : List ℕ) → contains_text self.new bytes ≡
            (contains_text self.old bytes && not (holds (map string_bytes strings.now) bytes)) }
    {
        for text in strings {
            self.texts.remove(text.as_str());
        }
    }

    /// Goes along the strings, and keeps those that the set has too.
    pub fn keep_listed(&mut self, set: &CodePointInversionListAndStringList)
        ensures { (bytes : List ℕ) →
            contains_text self.new bytes ≡ (contains_text self.old bytes && holds set.now.strings bytes) }
    {
        self.texts.retain(|text| set.contains_str(text));
    }

    /// Keeps only the strings that the other has too. It goes along the fewer, and looks each up among the others.
    pub fn keep_only(&mut self, mut other: Strings)
        ensures { (bytes : List ℕ) →
            contains_text self.new bytes ≡ (contains_text self.old bytes && contains_text other bytes) }
    {
        if other.texts.len() < self.texts.len() {
            swap(self, &mut other);
        }
        self.keep_each(&other);
    }

    /// Goes along the strings, and keeps those that the other has too.
    fn keep_each(&mut self, other: &Strings)
        ensures { (bytes : List ℕ) →
            contains_text self.new bytes ≡ (contains_text self.old bytes && contains_text other.now bytes) }
    {
        self.texts
            .retain(|text| other.texts.contains(text.as_str()));
    }

    /// The strings as a list.
    fn into_list(self, alloc: Global) -> Result<Vec<String>, NoMemory>
        ensures strings { IfOk result
            (λ list. (bytes : List ℕ) → holds (map string_bytes list.items) bytes ≡ contains_text self bytes) }
        ensures canonical { IfOk result (λ list. AreCanonical (map string_bytes list.items)) }
    {
        let mut list = Vec::with_capacity(alloc, self.texts.len())?;
        for text in self.texts {
            list.push(text)?;
        }
        Ok(list)
    }

    /// The set of the code points and of these strings. `NoMemory` says that a request for memory was refused.
    pub fn into_set(
        self,
        alloc: Global,
        code_points: CodePointInversionList,
    ) -> Result<CodePointInversionListAndStringList, NoMemory>
        ensures code_points { IfOk result (λ set. set.code_points ≡ code_points) }
        ensures strings { IfOk result (λ set. (bytes : List ℕ) → holds set.strings bytes ≡ contains_text self bytes) }
    {
        let strings = self.into_list(alloc)?;
        Ok(CodePointInversionListAndStringList {
            code_points,
            strings,
        })
    }
}
