//! Values that are packed into numbers.
ghost use Rattle.std.specs.Prelude.{◌≡◌, ℕ, Option, Some, None, true, ◌↔◌, MatchResult};
ghost use Rattle.cp_trie.specs.Values.{below, scalar_value};
ghost use Rattle.cp_trie.specs.ValueLaws.{below-again, scalar_value-again, nat_eq-same};

use crate::error::ValueError;

/// A value that is packed into a number. What a number unpacks to and what a value packs to are functions, a number
/// that unpacks gives a value whose packing unpacks to it, and `==` holds exactly between the same values.
pub trait TrieValue: Copy + Eq {
    /// The value that a number unpacks to, if there is one.
    ghost unpacked: { ℕ → Option Self };

    /// The number that a value packs to.
    ghost packed: { Self → ℕ };

    /// The value that the number unpacks to. A refusal carries the number.
    fn try_from_u32(i: u32) -> Result<Self, ValueError>
        ensures { MatchResult result
            (λ value. unpacked i ≡ Some value)
            (λ error. (unpacked i ≡ None) × (error.value ≡ i)) };

    /// The number that the value packs to.
    fn to_u32(self) -> u32
        ensures { result ≡ packed self };

    /// The packing of a value that a number unpacks to unpacks to that value.
    ghost unpacks_again: { (n : ℕ) (value : Self) → unpacked n ≡ Some value → unpacked (packed value) ≡ Some value };

    /// Values are equal by `==` exactly where they are the same.
    ghost eq_is_same: { (x y : Self) → (Self.eq x y ≡ true) ↔ (x ≡ y) };
}

impl TrieValue for u8 {
    ghost unpacked = { below 256 };

    ghost packed = { λ value. value };

    ghost unpacks_again = { below-again 256 };

    ghost eq_is_same = { nat_eq-same };

    fn try_from_u32(i: u32) -> Result<u8, ValueError> {
        u8::try_from(i).ok().ok_or(ValueError { value: i })
    }

    fn to_u32(self) -> u32 {
        u32::from(self)
    }
}

impl TrieValue for u16 {
    ghost unpacked = { below 65536 };

    ghost packed = { λ value. value };

    ghost unpacks_again = { below-again 65536 };

    ghost eq_is_same = { nat_eq-same };

    fn try_from_u32(i: u32) -> Result<u16, ValueError> {
        u16::try_from(i).ok().ok_or(ValueError { value: i })
    }

    fn to_u32(self) -> u32 {
        u32::from(self)
    }
}

impl TrieValue for u32 {
    ghost unpacked = { below 4294967296 };

    ghost packed = { λ value. value };

    ghost unpacks_again = { below-again 4294967296 };

    ghost eq_is_same = { nat_eq-same };

    fn try_from_u32(i: u32) -> Result<u32, ValueError> {
        Ok(i)
    }

    fn to_u32(self) -> u32 {
        self
    }
}

impl TrieValue for char {
    ghost unpacked = { scalar_value };

    ghost packed = { λ value. value };

    ghost unpacks_again = { scalar_value-again };

    ghost eq_is_same = { nat_eq-same };

    fn try_from_u32(i: u32) -> Result<char, ValueError> {
        char::from_u32(i).ok_or(ValueError { value: i })
    }

    fn to_u32(self) -> u32 {
        u32::from(self)
    }
}
