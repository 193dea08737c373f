//! A set of code points together with strings.
#![tactic(auto)]

ghost use Rattle.std.specs.Prelude.{◌≡◌, ◌+◌, ◌&&◌, ◌↔◌, nat_le, false, IsTrue, IfOk, OnOk, List, length, map, None, Some};
ghost use Rattle.std.specs.List.{AllPass};
ghost use Rattle.std.specs.Option.{option_copied};
ghost use Rattle.std.specs.Str.{IsUtf8, chars};
ghost use Rattle.std.specs.String.{string_bytes};
ghost use Rattle.cp_invlist.specs.InversionList.{contains};
ghost use Rattle.cp_invlist.specs.Size.{count_members};
ghost use Rattle.cp_strset.specs.PatternText.{IsPatternOf, is_printable_ascii};
ghost use Rattle.cp_strset.specs.StringList.{AreCanonical, sole_of, holds, fault_at, first_fault};
ghost use Rattle.cp_strset.specs.StringSet.{bytes_of, contains_text, has_many_strings, same_members, HaveSameMembers};

pub mod laws;
mod pattern_text;
mod strings;

use cp_invlist::{CodePointInversionList, NoMemory};
use pattern_text::{push_ranges, push_strings};
use std::alloc::Global;
use std::cmp::Ordering;
use std::marker::Model;
pub use strings::Strings;
use thiserror::Error;

/// Why a list of strings is refused.
#[derive(Clone, Copy, Debug, Drop, PartialEq, Eq, Error)]
pub enum StringListError {
    /// The string at this index has exactly one character.
    #[error("StringOfOne")]
    StringOfOne {
        /// The first index with a fault.
        index: usize,
    },
    /// The string at this index is below the one before it by bytes.
    #[error("NotSorted")]
    NotSorted {
        /// The first index with a fault.
        index: usize,
    },
    /// The string at this index equals the one before it.
    #[error("NotUnique")]
    NotUnique {
        /// The first index with a fault.
        index: usize,
    },
}

/// From so many strings on a set has many.
const MANY_STRINGS: usize = 64;

/// Strings of so many bytes are many, however few they are: to copy them, or to compare those that begin alike, goes along
/// their bytes.
pub const MANY_STRING_BYTES: usize = 4096;

/// A set of code points and of strings. The strings are strictly ascending by bytes, and none has exactly one character,
/// since that is a code point. A contract sees it as both lists, and each string by its bytes.
pub struct CodePointInversionListAndStringList {
    code_points: CodePointInversionList,
    strings: Vec<String>,
}

// By hand, so that letting a value go is one call in each proof.
impl Drop for CodePointInversionListAndStringList {
    fn drop(self) {
        let Self {
            code_points: _,
            strings: _,
        } = self;
    }
}

impl Model for CodePointInversionListAndStringList {
    ghost use Rattle.std.specs.Prelude.{◌≡◌, map, None};
    ghost use Rattle.std.specs.String.{string_bytes};
    ghost use Rattle.cp_strset.specs.StringSet.{StringSet};
    ghost use Rattle.cp_strset.specs.StringList.{first_fault};

    ghost Value = { StringSet };

    ghost view = { λ s. record { code_points = s.code_points; strings = map string_bytes s.strings.items } };

    ghost invariant = { λ s. first_fault (map string_bytes s.strings.items) ≡ None };
}

impl CodePointInversionListAndStringList {
    /// The set of both. The strings are tested in order, and the first index with a fault is named; at one index the first
    /// of `StringOfOne`, `NotSorted` and `NotUnique` that holds.
    pub fn try_from(
        list: CodePointInversionList,
        strings: Vec<String>,
    ) -> Result<CodePointInversionListAndStringList, StringListError>
        ensures accepted { IfOk result (λ s.
            s ≡ record { code_points = list; strings = map string_bytes strings.items }) }
        ensures faultless { OnOk result (first_fault (map string_bytes strings.items) ≡ None) }
        ensures refused { (e : StringListError) →
            (result ≡ Err e) ↔ (first_fault (map string_bytes strings.items) ≡ Some e) }
    {
        if let Some(fault) = find_fault(&strings) {
            return Err(fault);
        }
        Ok(CodePointInversionListAndStringList {
            code_points: list,
            strings,
        })
    }

    /// The code points.
    pub fn code_points(&self) -> &CodePointInversionList
        ensures { result.now ≡ self.now.code_points }
    {
        &self.code_points
    }

    /// Keeps an index of the code points (`CodePointInversionList::index`). The set stays as it is. `NoMemory` says
    /// that a request for memory was refused.
    pub fn index(&mut self, alloc: Global) -> Result<(), NoMemory>
        ensures { self.new ≡ self.old }
    {
        self.code_points.index(alloc)
    }

    /// Keeps an index of the code points where their list is long (`CodePointInversionList::index_if_long`). The set stays as
    /// it is. `NoMemory` says that a request for memory was refused.
    pub fn index_if_long(&mut self, alloc: Global) -> Result<(), NoMemory>
        ensures { self.new ≡ self.old }
    {
        self.code_points.index_if_long(alloc)
    }

    /// The strings, in order.
    pub fn strings(&self) -> &[String]
        ensures bytes { map string_bytes result.now ≡ self.now.strings }
        ensures canonical { AreCanonical self.now.strings }
    {
        &self.strings
    }

    /// Whether it takes long to go along the strings: there are at least 64, or they have at least 4,096 bytes together.
    pub fn has_many_strings(&self) -> bool
        ensures { result ≡ has_many_strings self.now.strings }
    {
        self.strings.len() >= MANY_STRINGS || have_bytes(&self.strings, MANY_STRING_BYTES)
    }

    /// Whether the text is in the set: a text of exactly one character as a code point, any other as a string.
    pub fn contains_str(&self, s: &str) -> bool
        ensures { result ≡ contains_text self.now s.now }
    {
        match sole_char(s) {
            Some(c) => self.code_points.contains(c),
            None => contains_string(&self.strings, s),
        }
    }

    /// Whether the bytes are a text that is in the set. Bytes that aren't well-formed UTF-8 are in none.
    pub fn contains_utf8(&self, s: &[u8]) -> bool
        ensures text { IsUtf8 s.now → result ≡ contains_text self.now s.now }
        ensures other { ¬ IsUtf8 s.now → result ≡ false }
    {
        match str::from_utf8(s) {
            Ok(text) => self.contains_str(text),
            Err(_) => false,
        }
    }

    /// Whether the character is one of the code points.
    pub fn contains(&self, c: char) -> bool
        ensures { result ≡ contains self.now.code_points c }
    {
        self.code_points.contains(c)
    }

    /// Whether the number is one of the code points.
    pub fn contains32(&self, c: u32) -> bool
        ensures { result ≡ contains self.now.code_points c }
    {
        self.code_points.contains32(c)
    }

    /// How many code points and strings the set has together.
    pub fn size(&self) -> usize
        ensures { result ≡ count_members (contains self.now.code_points) 0x11_0000 + length self.now.strings }
    {
        self.code_points.size() + self.strings.len()
    }

    /// An equal set, without an index of its code points. `NoMemory` says that a request for memory was refused.
    pub fn copy(&self, alloc: Global) -> Result<CodePointInversionListAndStringList, NoMemory>
        ensures { IfOk result (λ s. s ≡ self.now) }
    {
        let code_points = self.code_points.copy(alloc)?;
        let strings = Vec::from_clones(alloc, &self.strings)?;
        Ok(CodePointInversionListAndStringList {
            code_points,
            strings,
        })
    }

    /// The set as a pattern of UTS 35 in escapes alone. It is `[`, then each maximal range as `\u{h}` where it has one
    /// member, else as `\u{h}-\u{h}`, then each string as `{`, `\u{h}` for each character and `}`, then `]`, where `h` is
    /// lower-case hexadecimal with no leading zero. The text is printable ASCII. `NoMemory` says that a request for
    /// memory was refused.
    pub fn to_pattern(&self, alloc: Global) -> Result<String, NoMemory>
        ensures pattern { IfOk result (λ text. IsPatternOf self.now (string_bytes text)) }
        ensures printable { IfOk result (λ text. AllPass is_printable_ascii (string_bytes text)) }
    {
        let mut text = String::new(alloc);
        text.push('[')?;
        push_ranges(&mut text, self.code_points.iter_ranges())?;
        push_strings(&mut text, &self.strings)?;
        text.push(']')?;
        Ok(text)
    }
}

impl PartialEq for CodePointInversionListAndStringList {
    ghost use Rattle.cp_strset.specs.StringSet.{same_members};
    ghost use Rattle.std.specs.Cmp.{partial_equiv_from_equiv, and_equiv, on_equiv};
    ghost use Rattle.std.specs.Cmp.Lexicographic.{lists_equiv, nat_list_eq_equiv};

    ghost eq = { same_members };

    ghost laws = { partial_equiv_from_equiv (and_equiv
        (on_equiv (λ s. s.code_points) nat_list_eq_equiv)
        (on_equiv (λ s. s.strings) (lists_equiv nat_list_eq_equiv))) };

    fn eq(&self, other: &CodePointInversionListAndStringList) -> bool
        ensures value { result ≡ same_members self.now other.now }
        ensures same { IsTrue result ↔ (self.now ≡ other.now) }
        ensures members { IsTrue result ↔ HaveSameMembers self.now other.now }
    {
        self.code_points == other.code_points && self.strings == other.strings
    }
}

impl Eq for CodePointInversionListAndStringList {
    ghost use Rattle.std.specs.Cmp.{and_equiv, on_equiv};
    ghost use Rattle.std.specs.Cmp.Lexicographic.{lists_equiv, nat_list_eq_equiv};

    ghost laws = { and_equiv
        (on_equiv (λ s. s.code_points) nat_list_eq_equiv)
        (on_equiv (λ s. s.strings) (lists_equiv nat_list_eq_equiv)) };
}

/// Whether the text is one of the strings, by binary search.
fn contains_string(strings: &[String], text: &str) -> bool
    requires { first_fault (map string_bytes strings.now) ≡ None }
    ensures { result ≡ holds (map string_bytes strings.now) text.now }
{
    strings
        .binary_search_by(|string| string.as_str().cmp(text))
        .is_ok()
}

/// The character of a text that has exactly one. Characters are counted, not bytes.
pub fn sole_char(text: &str) -> Option<char>
    ensures { result ≡ sole_of (chars text.now) }
{
    let mut chars = text.chars();
    let first = chars.next()?;
    match chars.next() {
        None => Some(first),
        Some(_) => None,
    }
}

/// The fault of a string behind another.
fn fault_at(before: Option<&str>, string: &str, index: usize) -> Option<StringListError>
    ensures { result ≡ fault_at (option_copied before.entry) string.now index }
{
    if sole_char(string).is_some() {
        return Some(StringListError::StringOfOne { index });
    }
    let before = before?;
    match string.cmp(before) {
        Ordering::Less => Some(StringListError::NotSorted { index }),
        Ordering::Equal => Some(StringListError::NotUnique { index }),
        Ordering::Greater => None,
    }
}

/// The first fault of a list of strings.
fn find_fault(strings: &[String]) -> Option<StringListError>
    ensures { result ≡ first_fault (map string_bytes strings.now) }
{
    let mut before: Option<&str> = None;
    for (index, string) in strings.iter().enumerate() {
        if let Some(fault) = fault_at(before, string.as_str(), index) {
            return Some(fault);
        }
        before = Some(string.as_str());
    }
    None
}

/// Whether the strings have at least so many bytes together.
fn have_bytes(strings: &[String], count: usize) -> bool
    ensures { result ≡ nat_le count (bytes_of (map string_bytes strings.now)) }
{
    let mut missing = count;
    for string in strings {
        missing = missing.saturating_sub(string.len());
    }
    missing == 0
}
