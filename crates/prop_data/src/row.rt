//! The tests of a row's range.
ghost use Rattle.std.specs.Prelude.{◌≡◌, List};
ghost use Rattle.std.specs.Result.{result_err};
ghost use Rattle.std.specs.List.{list_any};
ghost use Rattle.prop_data.specs.LineFault.{overlaps, forbidden, range_fault, syntax_fault, is_not_above};

use crate::error::TableErrorKind;
use cp_invlist::{CodePointRange, LAST_CODE_POINT};
use prop_binary::SetTable;

fn overlaps(range: CodePointRange, first: u32, last: u32) -> bool
    ensures { result ≡ overlaps (range.start, range.end) (first, last) }
{
    range.start <= last && first <= range.end
}

/// Whether the range holds an ASCII character that the table must not hold, since the pattern syntax needs it.
fn holds_syntax(table: SetTable, range: CodePointRange) -> bool
    ensures { result ≡ list_any (overlaps (range.start, range.end)) (forbidden table) }
{
    if table == SetTable::PATTERN_WHITE_SPACE {
        overlaps(range, 0x21, 0x7E)
    } else if table == SetTable::XID_CONTINUE || table == SetTable::XID_START {
        overlaps(range, 0x00, 0x2F)
            || overlaps(range, 0x3A, 0x40)
            || overlaps(range, 0x5B, 0x5E)
            || overlaps(range, 0x60, 0x60)
            || overlaps(range, 0x7B, 0x7F)
    } else {
        false
    }
}

/// Whether a row that starts so does not stand above the last number of the row before it, where there is one.
pub(crate) fn is_not_above(last: Option<u32>, start: u32) -> bool
    ensures { result ≡ is_not_above last start }
{
    match last {
        Some(last) => start <= last,
        None => false,
    }
}

/// Refuses a range by the first test that it fails in a row of any table, where `last` is the last code point of the row
/// above.
#[tactic(auto, unfolding(crate::specs::LineFault::range_fault))]
pub(crate) fn check_range(last: Option<u32>, range: CodePointRange) -> Result<(), TableErrorKind>
    ensures { result_err result ≡ range_fault last (range.start, range.end) }
{
    if range.start.max(range.end) > LAST_CODE_POINT {
        Err(TableErrorKind::TooLarge)
    } else if range.end < range.start || is_not_above(last, range.start) {
        Err(TableErrorKind::RangeOrder)
    } else {
        Ok(())
    }
}

/// Refuses a range that holds an ASCII character which the table must not hold.
#[tactic(auto, unfolding(crate::specs::LineFault::syntax_fault))]
pub(crate) fn check_syntax(table: SetTable, range: CodePointRange) -> Result<(), TableErrorKind>
    ensures { result_err result ≡ syntax_fault table (range.start, range.end) }
{
    if holds_syntax(table, range) {
        Err(TableErrorKind::SyntaxAscii)
    } else {
        Ok(())
    }
}
