//! The scripts among the script extensions of a code point.
ghost use Rattle.std.specs.Prelude.{◌≡◌, ◌↔◌, ◌∷◌, [], ◌++◌, IsSome, IsTrue, Contains, length};
ghost use Rattle.std.specs.Iterator.{YieldsFirst, YieldsLast, item_count};
ghost use Rattle.std.specs.List.{slice_get};
ghost use Rattle.std.specs.Option.{option_to_list};
ghost use Rattle.prop_query.specs.Scripts.{is_among};

use prop_values::Script;
use std::marker::Model;
use std::slice;

/// The script extensions of a code point (UAX 24, section 2.8), in the order of their list. Two are equal exactly where
/// their scripts are the same in the same order, also where one holds a single script and the other a list.
#[derive(Clone, Copy, Debug)]
pub struct ScriptExtensionsSet<'a> {
    /// The number of the script that stands alone.
    single: Option<u16>,
    /// The scripts of a list: none beside a single one.
    list: &'a [Script],
    ghost single_or_list: { IsSome single → list.now ≡ [] },
}

impl<'a> ScriptExtensionsSet<'a> {
    ghost use Rattle.prop_query.specs.ScriptTypes.{scripts_in};

    pub(crate) fn single(script: Script) -> ScriptExtensionsSet<'a>
        ensures { scripts_in result ≡ script ∷ [] }
    {
        ScriptExtensionsSet {
            single: Some(script.to_icu4c_value()),
            list: &[],
        }
    }

    pub(crate) fn listed(scripts: &'a [Script]) -> ScriptExtensionsSet<'a>
        ensures { scripts_in result ≡ scripts.now }
    {
        ScriptExtensionsSet {
            single: None,
            list: scripts,
        }
    }

    /// The script that stands alone.
    fn single_script(&self) -> Option<Script>
        ensures { result ≡ self.now.single }
    {
        self.single.map(Script::from_icu4c_value)
    }

    /// Whether the script is one of them.
    pub fn contains(&self, x: &Script) -> bool
        ensures value { result ≡ is_among (scripts_in self.now) x.now }
        ensures member { IsTrue result ↔ Contains (scripts_in self.now) x.now }
    {
        let single = self.single_script();
        slice_of(&single, self.list).contains(x)
    }

    /// The scripts in order, from both ends.
    pub fn iter(&self) -> ScriptExtensionsIter<'a>
        ensures { result ≡ scripts_in self.now }
    {
        ScriptExtensionsIter {
            single: self.single,
            list: self.list,
        }
    }

    /// How many scripts there are.
    pub fn array_len(&self) -> usize
        ensures { result ≡ length (scripts_in self.now) }
    {
        let single = self.single_script();
        slice_of(&single, self.list).len()
    }

    /// The script at the index, `None` behind the last.
    pub fn array_get(&self, index: usize) -> Option<Script>
        ensures { result ≡ slice_get (scripts_in self.now) index }
    {
        let single = self.single_script();
        slice_of(&single, self.list).get(index).copied()
    }
}

/// The scripts in order, of which one stands alone or all in a list.
fn slice_of<'a>(single: &'a Option<Script>, list: &'a [Script]) -> &'a [Script]
    requires { IsSome single.now → list.now ≡ [] }
    ensures { result.now ≡ option_to_list single.now ++ list.now }
{
    match single {
        Some(script) => slice::from_ref(script),
        None => list,
    }
}

impl<'a> PartialEq for ScriptExtensionsSet<'a> {
    ghost use Rattle.std.specs.Prelude.{nat_eq};
    ghost use Rattle.std.specs.Ordering.{on};
    ghost use Rattle.std.specs.Cmp.Lexicographic.{pointwise, on_texts_equal};
    ghost use Rattle.std.specs.Cmp.{partial_equiv_from_equiv};
    ghost use Rattle.prop_query.specs.ScriptTypes.{scripts_in};

    ghost eq = { on scripts_in (pointwise nat_eq) };

    ghost laws = { partial_equiv_from_equiv (on_texts_equal scripts_in) };

    fn eq(&self, other: &ScriptExtensionsSet<'a>) -> bool
        ensures value { result ≡ pointwise nat_eq (scripts_in self.now) (scripts_in other.now) }
        ensures items { IsTrue result ↔ (scripts_in self.now ≡ scripts_in other.now) }
    {
        let single = self.single_script();
        let other_single = other.single_script();
        slice_of(&single, self.list) == slice_of(&other_single, other.list)
    }
}

impl Eq for ScriptExtensionsSet<'_> {
    ghost use Rattle.std.specs.Cmp.Lexicographic.{on_texts_equal};
    ghost use Rattle.prop_query.specs.ScriptTypes.{scripts_in};

    ghost laws = { on_texts_equal scripts_in };
}

/// The script extensions of a code point, from both ends. A contract sees it as the list of those still to come.
#[derive(Drop)]
pub struct ScriptExtensionsIter<'a> {
    /// The number of the script that comes before those of the list.
    single: Option<u16>,
    list: &'a [Script],
}

impl<'a> Model for ScriptExtensionsIter<'a> {
    ghost use Rattle.std.specs.Prelude.{ℕ, List, ◌++◌};
    ghost use Rattle.std.specs.Option.{option_to_list};

    ghost Value = { List ℕ };

    ghost view = { λ s. option_to_list s.single ++ s.list.now };
}

impl Iterator for ScriptExtensionsIter<'_> {
    type Item = Script;

    ghost next_gives = { YieldsFirst (λ scripts. scripts) };

    ghost remaining = { item_count (λ scripts. scripts) };

    fn next(&mut self) -> Option<Script> {
        if let Some(number) = self.single.take() {
            return Some(Script::from_icu4c_value(number));
        }
        let (first, rest) = self.list.split_first()?;
        self.list = rest;
        Some(*first)
    }
}

impl DoubleEndedIterator for ScriptExtensionsIter<'_> {
    ghost next_back_gives = { YieldsLast (λ scripts. scripts) };

    fn next_back(&mut self) -> Option<Script> {
        let Some((last, rest)) = self.list.split_last() else {
            return self.single.take().map(Script::from_icu4c_value);
        };
        self.list = rest;
        Some(*last)
    }
}
