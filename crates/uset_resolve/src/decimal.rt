//! Values that are written as decimal numbers.
ghost use Rattle.std.specs.Prelude.{◌≡◌};
ghost use Rattle.uset_resolve.specs.Decimal.{decimal};
ghost use Rattle.uset_resolve.specs.Resolution.{written};

use prop_values::NamesTable;

/// The number of at most 255 that the text writes.
fn up_to_255(text: &str) -> Option<u16>
    ensures { result ≡ decimal 255 text.now }
{
    Some(u16::from(text.parse::<u8>().ok()?))
}

/// The number of at most 65535 that the text writes.
fn up_to_65535(text: &str) -> Option<u16>
    ensures { result ≡ decimal 65535 text.now }
{
    text.parse::<u16>().ok()
}

/// The number that a value writes, where its property has decimal values: a combining class or a block.
pub(crate) fn written(table: NamesTable, value: &str) -> Option<u16>
    ensures { result ≡ written table value.now }
{
    if table == NamesTable::CANONICAL_COMBINING_CLASS {
        return up_to_255(value);
    }
    if table == NamesTable::BLOCK {
        return up_to_65535(value);
    }
    None
}
