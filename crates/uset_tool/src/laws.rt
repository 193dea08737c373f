//! The laws of answers and of patterns that numbers tell, each the contract of a function that does nothing.
ghost use Rattle.uset_tool.specs.Laws.{ErrLinesBeginWithErr, GeneratedPatternsAreRead, OneAnswer};

use cp_invlist::laws::one_list_of_ranges;
use cp_strset::laws::one_list;
use prop_data::laws::{allowed_sets, bounded_sets};
use uset_grammar::laws::finite_sets;
use uset_parse::laws::{brackets, one_answer as one_answer_of_a_source};
use uset_resolve::laws::bounded_sources;

/// Any words and any input have exactly one answer: one text to print, with one status.
pub fn one_answer()
    ensures { OneAnswer }
{
    allowed_sets();
    brackets();
    bounded_sets();
    bounded_sources();
    finite_sets();
    one_answer_of_a_source();
    one_list_of_ranges();
    one_list();
}

/// The pattern that a number tells, as one from 1 to 10000 that follows `gen`, is read, whatever follows it.
pub fn generated()
    ensures { GeneratedPatternsAreRead }
{
    brackets();
}

/// An answer is an `err` line, by which the status is 1, exactly where it begins with `err `.
pub fn err_lines()
    ensures { ErrLinesBeginWithErr }
{}
