//! Enumerated properties.
ghost use Rattle.std.specs.Prelude.{◌≡◌, ◌<◌, ◌^◌, ℕ, is_some};
ghost use Rattle.prop_values.specs.Tables.{accepts, accepts_name_of, default_number};

use crate::tables::{MapTable, NamesTable};
use cp_trie::TrieValue;

/// A property whose values are packed into numbers. Its table accepts exactly the numbers that unpack to a value, and the
/// number of its default is that of the table. Its names are those of UAX 44, section 5.1.
pub trait EnumeratedProperty: TrieValue + Default {
    /// The number of the table.
    ghost TABLE: { ℕ };

    /// The long name of the property.
    const NAME: &'static [u8];

    /// The short name of the property.
    const SHORT_NAME: &'static [u8];

    /// The table of the property's values.
    const TABLE: MapTable;

    /// The table accepts exactly the numbers that unpack to a value.
    ghost accepted: { (n : ℕ) → n < 2 ^ 32 → is_some (Self.unpacked n) ≡ accepts TABLE n };

    /// The number of the default is that of the table.
    ghost default_packed: { (value : Self) → Self.is_default value → Self.packed value ≡ default_number TABLE };
}

/// A property whose values are found by their names. Its table of names accepts exactly the numbers, of those that are
/// 16 bits wide, that unpack to a value.
pub trait ParseableEnumeratedProperty: TrieValue {
    /// The number of the table of names.
    ghost NAMES: { ℕ };

    /// The table of the names of the values.
    const NAMES: NamesTable;

    /// Of the numbers that are 16 bits wide, the table accepts exactly those that unpack to a value.
    ghost names_accepted: { (n : ℕ) → n < 2 ^ 16 → is_some (Self.unpacked n) ≡ accepts_name_of NAMES n };
}
