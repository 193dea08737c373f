//! Laws of inversion lists, each the contract of a function that does nothing.
ghost use Rattle.cp_invlist.specs.Laws.{OneListOfMembers, FaultsAreFirst, FaultlessAreInversionLists, MembersAreCodePoints, MembersAreBelowTheLast, OneListOfRanges, RangesHoldMembers};

/// Two inversion lists with the same members are the same list.
pub fn same_members()
    ensures { OneListOfMembers }
{}

/// The fault of a list is its first.
pub fn first_fault()
    ensures { FaultsAreFirst }
{}

/// The inversion lists are the lists without a fault.
pub fn faultless()
    ensures { FaultlessAreInversionLists }
{}

/// The members of an inversion list are code points.
pub fn members_are_code_points()
    ensures { MembersAreCodePoints }
{}

/// No number from the last element of an inversion list on is a member.
pub fn members_are_below_the_last()
    ensures { MembersAreBelowTheLast }
{}

/// A set has one list of maximal ranges.
pub fn one_list_of_ranges()
    ensures { OneListOfRanges }
{}

/// The maximal ranges of a set hold its members, and no other number.
pub fn ranges_hold_members()
    ensures { RangesHoldMembers }
{}
