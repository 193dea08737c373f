//! Numbers of strings.
ghost use Rattle.std.specs.Prelude.{◌≡◌, ℕ, IfOk};

use crate::number_set::{NumberSet, PIECE};
use cp_invlist::NoMemory;
use cp_strset::CodePointInversionListAndStringList;
use std::alloc::Global;
use std::collections::BTreeMap;
use std::marker::Model;

/// Strings with numbers, which they are given in the order in which they come, and keep. A contract sees it as the list of the
/// strings by their bytes, in which each stands at its number.
#[derive(Drop)]
pub struct StringNumbers {
    texts: Vec<String>,
    indices: BTreeMap<String, usize>,
}

impl Model for StringNumbers {
    ghost use Rattle.std.specs.Prelude.{ℕ, List, map};
    ghost use Rattle.std.specs.String.{string_bytes};
    ghost use Rattle.cp_strset_terms.specs.Numbers.{AreIndexed};

    ghost Value = { List (List ℕ) };

    ghost view = { λ s. map string_bytes s.texts.items };

    ghost invariant = { λ s. AreIndexed (map string_bytes s.texts.items) s.indices };
}

impl StringNumbers {
    ghost use Rattle.std.specs.Prelude.{◌≢◌, ◌<◌, ◌/◌, ◌↔◌, List, [], ◌∷◌, All, Some, length, map};
    ghost use Rattle.std.specs.Str.{chars};
    ghost use Rattle.std.specs.String.{string_bytes};
    ghost use Rattle.cp_strset_terms.specs.Numbers.{AreNumbersOf, KeepsNumbers, AreNumbered, Grows, StandOnce};
    ghost use Rattle.cp_strset_terms.specs.Places.{IsAt};

    /// No string has a number yet.
    pub fn new(alloc: Global) -> StringNumbers
        ensures { result ≡ [] }
    {
        StringNumbers {
            texts: Vec::new(alloc),
            indices: BTreeMap::new(alloc),
        }
    }

    /// The strings that have a number, each at that index.
    pub(crate) fn texts(&self) -> &[String]
        ensures bytes { map string_bytes result.now ≡ self.now }
        ensures once { StandOnce self.now }
        ensures none_of_one { All (λ s. length (chars s) ≢ 1) self.now }
    {
        &self.texts
    }

    /// The number of the string, if it has one.
    pub fn get(&self, text: &str) -> Option<usize>
        ensures { (number : ℕ) → (result ≡ Some number) ↔ IsAt self.now number text.now }
    {
        self.indices.get(text).copied()
    }

    /// How many pieces a set of all numbers takes at most.
    pub(crate) fn count_pieces(&self) -> usize
        ensures { (number : ℕ) → number < length self.now → number / 0x11_0000 < result }
    {
        self.texts.len() / PIECE + 1
    }

    /// Gives the string, which has none, the next number.
    fn add(&mut self, alloc: Global, text: &str) -> Result<usize, NoMemory>
        requires none_of_one { length (chars text.now) ≢ 1 }
        requires unnumbered { (number : ℕ) → IsAt self.old number text.now → ⊥ }
        ensures grown { Grows (text.now ∷ []) self.old self.new }
        ensures kept { KeepsNumbers self.old self.new }
        ensures number { IfOk result (λ number. IsAt self.new number text.now) }
    {
        let number = self.texts.len();
        let key = String::from_str(alloc, text)?;
        self.texts.push(String::from_str(alloc, text)?)?;
        if self.indices.insert(key, number).is_err() {
            self.texts.pop();
            return Err(NoMemory);
        }
        Ok(number)
    }

    /// The number of the string, which has one from now on.
    #[tactic(auto, using(crate::proofs::NumbersLemmas::grows_same))]
    fn number_of(&mut self, alloc: Global, text: &str) -> Result<usize, NoMemory>
        requires { length (chars text.now) ≢ 1 }
        ensures grown { Grows (text.now ∷ []) self.old self.new }
        ensures kept { KeepsNumbers self.old self.new }
        ensures number { IfOk result (λ number. IsAt self.new number text.now) }
    {
        match self.get(text) {
            Some(number) => Ok(number),
            None => self.add(alloc, text),
        }
    }

    /// The number of each string, which has one from now on.
    #[tactic(auto, using(crate::proofs::NumbersLemmas::grows_same))]
    fn numbers_of(&mut self, alloc: Global, strings: &[String]) -> Result<Vec<usize>, NoMemory>
        requires { All (λ s. length (chars s) ≢ 1) (map string_bytes strings.now) }
        ensures grown { Grows (map string_bytes strings.now) self.old self.new }
        ensures kept { KeepsNumbers self.old self.new }
        ensures numbers { IfOk result
            (λ numbers. AreNumbered self.new numbers.items (map string_bytes strings.now)) }
    {
        let mut numbers = Vec::with_capacity(alloc, strings.len())?;
        for string in strings {
            numbers.push(self.number_of(alloc, string.as_str())?)?;
        }
        Ok(numbers)
    }

    /// The numbers of the strings of the set, each of which has one from now on, as no others do that had none. The numbers of
    /// other sets stay theirs. `NoMemory` says that a request for memory was refused: some of the strings may have their numbers
    /// then.
    pub fn number(
        &mut self,
        alloc: Global,
        set: &CodePointInversionListAndStringList,
    ) -> Result<NumberSet, NoMemory>
        ensures grown { Grows set.now.strings self.old self.new }
        ensures kept { KeepsNumbers self.old self.new }
        ensures numbers { IfOk result (AreNumbersOf self.new set.now.strings) }
    {
        let numbers = self.numbers_of(alloc, set.strings())?;
        // Only this call says that each string stands once.
        let _ = self.texts();
        NumberSet::from_numbers(alloc, numbers)
    }
}
