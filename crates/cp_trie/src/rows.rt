//! Lists of values cut into rows of 64, where equal rows are kept once.
ghost use Rattle.std.specs.Prelude.{IsTrue, ◌≡◌, ◌+◌, ◌*◌, ◌-◌, ◌%◌, ◌<◌, ◌≤◌, [], ◌++◌, length, take, replicate, IfOk, IfSome, OnOk};
ghost use Rattle.std.specs.List.{repeat};
ghost use Rattle.cp_trie.specs.Rows.{row_of, spelled, laid, Extends, taken, IsCut};

use crate::value::TrieValue;
use std::alloc::{AllocError, Global};
use std::marker::Model;

/// How many values a row has.
pub(crate) const ROW: usize = 64;

/// The number of a row, and how often it comes one behind another.
#[derive(Clone, Copy)]
pub(crate) struct Repeated {
    pub(crate) number: u16,
    pub(crate) count: usize,
}

/// How many bits at the front of a fingerprint tell its chain.
const CHAIN_BITS: u32 = 10;

/// How many chains the rows stand in.
const CHAINS: usize = 1 << CHAIN_BITS;

/// The number of no row, since a list of values has at most 17,408 of them.
const NO_ROW: u16 = u16::MAX;

/// How many rows all code points have.
const MOST_ROWS: usize = 17_408;

/// The number of the chain of a fingerprint.
fn chain_of(fingerprint: u64) -> usize {
    (fingerprint >> (u64::BITS - CHAIN_BITS)) as usize
}

/// A row in its chain.
#[derive(Clone, Copy)]
struct Link {
    fingerprint: u64,
    /// The number of the row before it in the chain.
    before: u16,
}

/// Chains of rows whose fingerprints begin alike. They only say which rows may be equal to one, so nothing is promised
/// of them.
struct Chains {
    /// For each chain the number of its last row.
    last: Vec<u16>,
    /// For each row its link.
    links: Vec<Link>,
}

// By hand, so that letting a value go is one call in each proof.
impl Drop for Chains {
    fn drop(self) {
        let Self { last: _, links: _ } = self;
    }
}

impl Chains {
    fn new(alloc: Global, expected: usize) -> Result<Chains, AllocError> {
        let mut last = Vec::with_capacity(alloc, CHAINS)?;
        last.resize(CHAINS, NO_ROW)?;
        Ok(Chains {
            last,
            links: Vec::with_capacity(alloc, expected)?,
        })
    }

    /// The number of the last row in the chain of the fingerprint.
    fn last_of(&self, fingerprint: u64) -> u16 {
        self.last
            .get(chain_of(fingerprint))
            .copied()
            .unwrap_or(NO_ROW)
    }

    /// Puts the row behind all others, and at the end of its chain.
    fn add(&mut self, fingerprint: u64, number: u16) -> Result<(), AllocError> {
        let before = self.last_of(fingerprint);
        self.links.push(Link {
            fingerprint,
            before,
        })?;
        if let Some(last) = self.last.get_mut(chain_of(fingerprint)) {
            *last = number;
        }
        Ok(())
    }
}

/// Rows one behind another, each kept once. The number of a row says how many stand in front of it.
pub(crate) struct Shelf<V> {
    pub(crate) values: Vec<V>,
    chains: Chains,
}

// By hand, so that letting a value go is one call in each proof.
impl<V: Drop> Drop for Shelf<V> {
    fn drop(self) {
        let Self {
            values: _,
            chains: _,
        } = self;
    }
}

impl<V: TrieValue> Shelf<V> {
    /// No rows yet, where about so many are expected.
    fn new(alloc: Global, expected: usize) -> Result<Shelf<V>, AllocError>
        ensures { IfOk result (λ shelf. shelf.values.items ≡ []) }
    {
        let expected = expected.min(MOST_ROWS);
        Ok(Shelf {
            values: Vec::with_capacity(alloc, expected * ROW)?,
            chains: Chains::new(alloc, expected)?,
        })
    }

    fn into_values(self) -> Vec<V>
        ensures { result.items ≡ self.values.items }
    {
        let Self { values, chains: _ } = self;
        values
    }

    /// Whether the row of the number has these values by `==` in all 64 places.
    fn is_row(&self, number: u16, row: &[V]) -> bool
        requires { length row.now ≡ 64 }
        ensures row { IsTrue result → row_of self.now.values.items number ≡ row.now }
        ensures within { IsTrue result → number * 64 + 64 ≤ length self.now.values.items }
    {
        let start = usize::from(number) * ROW;
        match self.values.get(start..start + ROW) {
            Some(kept) => are_equal(kept, row),
            None => false,
        }
    }

    /// The number of a row that has these values, if there is one with their fingerprint.
    fn find(&self, row: &[V], fingerprint: u64) -> Option<u16>
        requires { length row.now ≡ 64 }
        ensures row { IfSome result (λ n. row_of self.now.values.items n ≡ row.now) }
        ensures within { IfSome result (λ n. n * 64 + 64 ≤ length self.now.values.items) }
    {
        let mut number = self.chains.last_of(fingerprint);
        for _ in 0..self.chains.links.len() {
            let link = *self.chains.links.get(usize::from(number))?;
            if link.fingerprint == fingerprint && self.is_row(number, row) {
                return Some(number);
            }
            number = link.before;
        }
        None
    }

    /// The number of the row with these values. Where no row is found by their fingerprint, they are kept as a row of
    /// their own.
    fn number_of(&mut self, row: &[V], fingerprint: u64) -> Result<u16, AllocError>
        requires full { length row.now ≡ 64 }
        requires whole { length self.old.values.items % 64 ≡ 0 }
        requires room { length self.old.values.items < 0x40_0000 }
        ensures row { IfOk result (λ n. row_of self.new.values.items n ≡ row.now) }
        ensures within { IfOk result (λ n. n * 64 + 64 ≤ length self.new.values.items) }
        ensures kept { OnOk result (Extends self.old.values.items self.new.values.items) }
    {
        if let Some(number) = self.find(row, fingerprint) {
            return Ok(number);
        }
        let number = (self.values.len() / ROW) as u16;
        self.values.extend_from_slice(row)?;
        self.chains.add(fingerprint, number)?;
        Ok(number)
    }
}

/// Whether two rows are equal by `==` in all places. Each place is looked at, since a loop that may end early does not
/// become vector code.
fn are_equal<V: TrieValue>(row: &[V], other: &[V]) -> bool
    requires { length row.now ≡ length other.now }
    ensures { IsTrue result → row.now ≡ other.now }
{
    let mut equal = true;
    for index in 0..row.len() {
        equal &= row[index] == other[index];
    }
    equal
}

/// Writes the value to each place.
#[inline(always)]
fn fill<V: Copy>(places: &mut [V], value: V)
    ensures { places.new ≡ replicate (length places.old) value }
{
    for place in places.iter_mut() {
        *place = value;
    }
}

/// Writes the value to so many places from one on.
#[inline(always)]
fn fill_from<V: Copy>(places: &mut [V], start: usize, value: V, count: usize)
    requires { start + count ≤ length places.old }
    ensures { take (start + count) places.new ≡ take start places.old ++ replicate count value }
{
    fill(&mut places[start..start + count], value);
}

/// How many values a short piece has at most. Of the pieces inside a row of General_Category seven of eight are short.
const SHORT: usize = 8;

/// How many values a piece of middle length has at most. Of the others five of six are of middle length.
const MIDDLE: usize = 32;

/// Writes the value to so many places from one on, and to some behind them: fills of a length that the compiler knows
/// are faster than one that is as long as the piece.
#[inline(always)]
fn fill_piece<V: Copy>(places: &mut [V], start: usize, value: V, count: usize)
    requires room { start + 64 ≤ length places.old }
    requires most { count ≤ 64 }
    ensures { take (start + count) places.new ≡ take start places.old ++ replicate count value }
{
    fill_from(places, start, value, SHORT);
    if SHORT < count {
        fill_from(places, start + SHORT, value, MIDDLE - SHORT);
        if MIDDLE < count {
            fill_from(places, start + MIDDLE, value, ROW - MIDDLE);
        }
    }
}

/// An odd factor that spreads a number over 64 bits.
const SPREAD: u64 = 0x9E37_79B9_7F4A_7C15;

/// How far a row is begun.
#[derive(Clone, Copy)]
pub(crate) struct Begun {
    /// How many of its places have their value.
    pub(crate) len: usize,
    /// A number made of the places where pieces begin, and of the values there.
    fingerprint: u64,
}

/// No row is begun.
pub(crate) const NONE: Begun = Begun {
    len: 0,
    fingerprint: 0,
};

/// The places of the row that is begun, and as many behind them, since a piece is filled past the end of the row. A
/// contract sees them as their list.
#[derive(Drop)]
pub(crate) struct Row<V> {
    places: Vec<V>,
}

impl<V> Model for Row<V> {
    ghost use Rattle.std.specs.Prelude.{◌≡◌, List, length};

    ghost Value = { List V };

    ghost view = { λ s. s.places.items };

    ghost invariant = { λ s. length s.places.items ≡ 128 };
}

impl<V: TrieValue> Row<V> {
    /// A row with this value at each place.
    fn new(alloc: Global, value: V) -> Result<Row<V>, AllocError>
        ensures { IfOk result (λ row. length row ≡ 128) }
    {
        let mut places = Vec::with_capacity(alloc, 2 * ROW)?;
        places.resize(2 * ROW, value)?;
        Ok(Row { places })
    }

    /// Puts the value so many times behind those of the row that is begun.
    #[inline(always)]
    fn push(&mut self, begun: Begun, value: V, count: usize) -> Begun
        requires { begun.len + count ≤ 64 }
        ensures values { take result.len self.new ≡ take begun.len self.old ++ replicate count value }
        ensures places { length self.new ≡ 128 }
        ensures len { result.len ≡ begun.len + count }
    {
        fill_piece(&mut self.places, begun.len, value, count);
        let piece = (begun.len as u64) << 32 | u64::from(value.to_u32());
        Begun {
            len: begun.len + count,
            fingerprint: (begun.fingerprint ^ piece).wrapping_mul(SPREAD),
        }
    }

    /// The values of the row, where it is whole.
    fn as_slice(&self) -> &[V]
        ensures { result.now ≡ take 64 self.now }
    {
        &self.places[..ROW]
    }
}

/// A list of values that is taken piece by piece: its whole rows, and the row that is begun.
pub(crate) struct Rows<V> {
    pub(crate) shelf: Shelf<V>,
    pub(crate) numbers: Vec<Repeated>,
    pub(crate) row: Row<V>,
}

// By hand, so that letting a value go is one call in each proof.
impl<V: Drop> Drop for Rows<V> {
    fn drop(self) {
        let Self {
            shelf: _,
            numbers: _,
            row: _,
        } = self;
    }
}

impl<V: TrieValue> Rows<V> {
    /// Nothing taken yet, where about so many rows that differ are expected. The places of the row have some value
    /// from the first on.
    pub(crate) fn new(alloc: Global, expected: usize, value: V) -> Result<Rows<V>, AllocError>
        ensures cut { IfOk result (λ rows. IsCut rows) }
        ensures none { IfOk result (λ rows. laid rows ≡ []) }
    {
        Ok(Rows {
            shelf: Shelf::new(alloc, expected)?,
            numbers: Vec::with_capacity(alloc, expected.min(MOST_ROWS))?,
            row: Row::new(alloc, value)?,
        })
    }

    /// The values of the rows, without those of the row that is begun.
    pub(crate) fn into_values(self) -> Vec<V>
        ensures { result.items ≡ self.shelf.values.items }
    {
        let Self {
            shelf,
            numbers: _,
            row: _,
        } = self;
        shelf.into_values()
    }

    /// Takes the value so many times, where the row that is begun does not end. What is begun then is returned.
    #[inline(always)]
    pub(crate) fn take_within(&mut self, begun: Begun, value: V, count: usize) -> Begun
        requires cut { IsCut self.old }
        requires within { begun.len + count < 64 }
        ensures cut { IsCut self.new }
        ensures begun { result.len < 64 }
        ensures taken { taken self.new result.len ≡ taken self.old begun.len ++ replicate count value }
    {
        self.row.push(begun, value, count)
    }

    /// The same, where it ends.
    #[inline(never)]
    pub(crate) fn take_across(
        &mut self,
        begun: Begun,
        value: V,
        count: usize,
    ) -> Result<Begun, AllocError>
        requires cut { IsCut self.old }
        requires begun { begun.len < 64 }
        requires across { 64 ≤ begun.len + count }
        requires room { length (taken self.old begun.len) + count ≤ 0x11_0000 }
        ensures cut { OnOk result (IsCut self.new) }
        ensures begun { IfOk result (λ now. now.len < 64) }
        ensures taken { IfOk result
            (λ now. taken self.new now.len ≡ taken self.old begun.len ++ replicate count value) }
    {
        let rest = self.complete(begun, value, count)?;
        self.take_rows(value, rest / ROW)?;
        if rest % ROW == 0 {
            return Ok(NONE);
        }
        Ok(self.row.push(NONE, value, rest % ROW))
    }

    /// Takes the value up to the end of the row that is begun, if one is, and says how often it is still to come.
    fn complete(&mut self, begun: Begun, value: V, count: usize) -> Result<usize, AllocError>
        requires cut { IsCut self.old }
        requires begun { begun.len < 64 }
        requires across { 64 ≤ begun.len + count }
        requires room { length (taken self.old begun.len) + count ≤ 0x11_0000 }
        ensures cut { OnOk result (IsCut self.new) }
        ensures rest { IfOk result (λ rest. rest ≤ count) }
        ensures laid { IfOk result
            (λ rest. laid self.new ≡ taken self.old begun.len ++ replicate (count - rest) value) }
    {
        if begun.len == 0 {
            return Ok(count);
        }
        let missing = ROW - begun.len;
        let whole = self.row.push(begun, value, missing);
        self.close(whole.fingerprint, 1)?;
        Ok(count - missing)
    }

    /// Takes so many rows of the value, where no row is begun.
    fn take_rows(&mut self, value: V, times: usize) -> Result<(), AllocError>
        requires cut { IsCut self.old }
        requires room { length (laid self.old) + times * 64 ≤ 0x11_0000 }
        ensures cut { OnOk result (IsCut self.new) }
        ensures laid { OnOk result (laid self.new ≡ laid self.old ++ replicate (times * 64) value) }
    {
        if times == 0 {
            return Ok(());
        }
        let whole = self.row.push(NONE, value, ROW);
        self.close(whole.fingerprint, times)
    }

    /// Puts the row that is begun, and now whole, so many times behind the others.
    fn close(&mut self, fingerprint: u64, times: usize) -> Result<(), AllocError>
        requires cut { IsCut self.old }
        requires some { 0 < times }
        requires room { 64 * (length (spelled self.old.numbers.items) + times) ≤ 0x11_0000 }
        ensures cut { OnOk result (IsCut self.new) }
        ensures laid { OnOk result (laid self.new ≡ laid self.old ++ repeat times (take 64 self.old.row)) }
    {
        let number = self.shelf.number_of(self.row.as_slice(), fingerprint)?;
        self.numbers.push(Repeated {
            number,
            count: times,
        })?;
        Ok(())
    }
}
