//! Laws of the language, each the contract of a function that does nothing.
ghost use Rattle.uset_reader.specs.Laws.{OneAnswer};

use uset_grammar::laws::one_answer as one_answer_of_a_language;

/// Under the tables of every database and all variables every source has exactly one answer: it is read, with one tree
/// and one rest, or refused, with one kind and one place. So no source has two readings, two faults, both or neither.
pub fn one_answer()
    ensures { OneAnswer }
{
    one_answer_of_a_language();
}
