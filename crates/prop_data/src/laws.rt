//! Laws of table texts, each the contract of a function that does nothing.
ghost use Rattle.prop_data.specs.Laws.{SetsAreAllowed, SetsAreBounded};

/// The sets of a table text without a fault hold no ASCII character that the syntax of patterns needs otherwise.
pub fn allowed_sets()
    ensures { SetsAreAllowed }
{}

/// Each set of a table text has a number from which on nothing is a member.
pub fn bounded_sets()
    ensures { SetsAreBounded }
{}
