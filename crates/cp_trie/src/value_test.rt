//! Tests of values.
ghost use Rattle.std.specs.Prelude.{◌≡◌, Bool};

use crate::value::TrieValue;

/// A test of values, which may keep what it finds.
pub trait ValueTest<T> {
    /// Whether a value passes the test.
    ghost passes: { Self → T → Bool };

    /// Whether the value passes. The test stays the same test.
    fn passes(&mut self, value: T) -> bool
        ensures value { result ≡ passes self.old value }
        ensures same { passes self.new ≡ passes self.old };
}

/// The test that one value passes.
#[derive(Clone, Copy, Debug, PartialEq, Eq)]
pub struct IsValue<T> {
    /// The value that passes.
    pub value: T,
}

impl<T: TrieValue> ValueTest<T> for IsValue<T> {
    ghost passes = { λ test value. T.eq value test.value };

    fn passes(&mut self, value: T) -> bool {
        value == self.value
    }
}
