//! The answers to a script.
ghost use Rattle.std.specs.Prelude.{◌≡◌};
ghost use Rattle.std.specs.Str.Lines.{lines};
ghost use Rattle.prop_data.specs.Database.{tables_of};
ghost use Rattle.prop_data.specs.Forbidden.{AreAllowed};
ghost use Rattle.uset_variables.specs.Variables.{no_variables};
ghost use Rattle.uset_tool.specs.Answered.{AnswersScript};
ghost use Rattle.uset_tool.specs.Device.{count_after, has_failed};

use crate::binding::answer_line;
use crate::sink::{Sink, WriteError, gather, write_all};
use cp_invlist::laws::one_list_of_ranges;
use cp_strset::laws::one_list;
use prop_data::PropertyDatabase;
use std::alloc::Global;
use text_lines::laws::lines_in_order;
use uset_parse::laws::one_answer;
use uset_parse::{Resolver, VariableMap};

/// Answers the lines of a script one by one. The answers are gathered into pieces, which are written as
/// they are full. Tells whether an `err` line is among the answers.
pub(crate) fn answer_script<K: Sink>(
    alloc: Global,
    script: &str,
    database: &PropertyDatabase,
    sink: &mut K,
) -> Result<bool, WriteError>
    requires { AreAllowed (tables_of database.now) }
    ensures written { AnswersScript (tables_of database.now) no_variables (lines script.now) (K.written sink.old)
        (K.written sink.new) result }
    ensures counted { K.faults sink.new ≡ count_after (has_failed result) (K.faults sink.old) }
{
    // The laws by which lines come in order and each has one answer, so that what is written begins every answer.
    lines_in_order();
    one_answer();
    one_list_of_ranges();
    one_list();
    let mut has_err = false;
    let mut variables = VariableMap::new(alloc);
    let mut resolver = Resolver::new(alloc, database);
    let mut pending = Vec::new(alloc);
    for line in script.lines() {
        let answer = answer_line(alloc, line, &mut variables, &mut resolver)?;
        gather(sink, &mut pending, answer.text.as_bytes())?;
        has_err |= answer.is_err;
    }
    write_all(sink, &pending)?;
    Ok(has_err)
}
