//! Laws of the grammar, each the contract of a function that does nothing.
ghost use Rattle.uset_grammar.specs.Laws.{OneAnswer, OneEscape, OneString, OneProperty, OneUnit, ThreeListsTell, CloseFitsBehindBody, AwaitedTells, KindsTell, EscapesByParts, StringsByParts, PropertiesByParts, CutByTest, UnitsAreRead, TurnsMean, ReadAtLast, MovesOn, PlacesAre, AllRestsAreBehind, FiniteSets, RestsAreLast, FreeRest};

/// Every source has exactly one answer: it is read, with one tree and one rest, or refused, with one
/// kind and one place. So no source has two readings, two faults, both or neither.
pub fn one_answer()
    ensures { OneAnswer }
{}

/// What begins as an escape is read in one way, fails in one way, or ends inside the escape.
pub fn one_escape()
    ensures { OneEscape }
{}

/// The same of strings.
pub fn one_string()
    ensures { OneString }
{}

/// The same of properties.
pub fn one_property()
    ensures { OneProperty }
{}

/// The same of what begins as any of them in a bracket.
pub fn one_unit()
    ensures { OneUnit }
{}

/// Whether items fit is told by three lists.
pub fn fits_by_lists()
    ensures items { ThreeListsTell }
    ensures close { CloseFitsBehindBody }
{}

/// Items that are arranged one by one fit and are arranged as the rules for bodies say.
pub fn arranging()
    ensures { AwaitedTells }
{}

/// A unit in a bracket has the outcome of the escape, the string or the property that it is.
pub fn kinds_of_units()
    ensures { KindsTell }
{}

/// What is read part by part has the outcome of the escape, the string or the property that it is.
pub fn units_by_parts()
    ensures escapes { EscapesByParts }
    ensures strings { StringsByParts }
    ensures properties { PropertiesByParts }
{}

/// The characters in front that pass a test, and the rest, are the text.
pub fn cut_by_a_test()
    ensures { CutByTest }
{}

/// A reader that takes turns moves on, stops at a fault, or has read the source.
pub fn turns()
    ensures units { UnitsAreRead }
    ensures means { TurnsMean }
    ensures last { ReadAtLast }
    ensures onward { MovesOn }
    ensures places { PlacesAre }
    ensures behind { AllRestsAreBehind }
{}

/// What is read has finitely many members, where the variables and the sources of the properties have, and it ends in
/// front of its rest.
pub fn finite_sets()
    ensures members { FiniteSets }
    ensures front { RestsAreLast }
{}

/// What is read in front of a rest is read in front of any other: whatever stands behind a bracket or a property, and
/// whatever doesn't continue the name of a variable.
pub fn free_rest()
    ensures { FreeRest }
{}
