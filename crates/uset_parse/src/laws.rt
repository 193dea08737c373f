//! Laws of the language, each the contract of a function that does nothing.
ghost use Rattle.uset_parse.specs.Brackets.{BracketsAreAscii, BracketsAreRead, BracketsAreReadUnder};
ghost use Rattle.uset_parse.specs.Denotation.{EqualDenotations};
ghost use Rattle.uset_parse.specs.ReadBack.{EscapesAreRead, Inverse};

use cp_invlist::laws::{members_are_code_points, ranges_hold_members, same_members};
use cp_strset::laws::one_list;
pub use uset_grammar::laws::free_rest;
pub use uset_reader::laws::one_answer;

/// A set that is written as a pattern, as `to_pattern` does, is read back with the same members, whatever follows it.
pub fn inverse()
    ensures escapes { EscapesAreRead }
    ensures sets { Inverse }
{
    members_are_code_points();
    ranges_hold_members();
}

/// A bracket of brackets, each around a range that is written in escapes, is read as the union of the ranges, whatever
/// follows it.
pub fn brackets()
    ensures ascii { BracketsAreAscii }
    ensures escapes { BracketsAreRead }
    ensures tables { BracketsAreReadUnder }
{}

/// Sets that are read of sources which denote the same members are one value.
pub fn equal_denotations()
    ensures { EqualDenotations }
{
    same_members();
    one_list();
}
