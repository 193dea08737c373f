//! Binary properties.
ghost use Rattle.std.specs.Prelude.{ℕ};

use crate::table::SetTable;

/// A binary property of code points (UAX 44, section 5.3), which is a set of them.
pub trait BinaryProperty {
    /// The number of the table.
    ghost TABLE: { ℕ };

    /// The long name of the property.
    const NAME: &'static [u8];

    /// The short name of the property.
    const SHORT_NAME: &'static [u8];

    /// The table of the property's set.
    const TABLE: SetTable;
}
