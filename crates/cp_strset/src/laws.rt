//! Laws of lists of strings, each the contract of a function that does nothing.
ghost use Rattle.cp_strset.specs.Laws.{FaultlessAreCanonical, OneListOfStrings};

/// The lists without a fault are those that are strictly ascending by bytes and have no string of one character.
pub fn faultless()
    ensures { FaultlessAreCanonical }
{}

/// Two lists of strings in order that hold the same strings are one list.
pub fn one_list()
    ensures { OneListOfStrings }
{}
