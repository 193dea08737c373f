//! A set that is written as a pattern, and read back.
ghost use Rattle.std.specs.Prelude.{◌≡◌, true, is_some, IfOk, IfErr};
ghost use Rattle.uset_parse.specs.ReadBack.{IsWholeSet, LacksSyntax};
ghost use Rattle.uset_parse.specs.Reading.{language_with};

use crate::calls::parse_with_variables;
use crate::laws;
use cp_invlist::laws::same_members;
use cp_strset::CodePointInversionListAndStringList;
use cp_strset::laws::one_list;
use prop_data::{PropertyDatabase, SetTable};
use std::alloc::Global;
use uset_fault::ParseError;
use uset_variables::VariableMap;

/// Writes the set as its pattern, as `to_pattern` does, and reads that with these variables. The answer is an equal set, and
/// the number of bytes of the pattern, all of which were read. It is refused only where a table of the syntax is absent from
/// the database, with `Internal`, and where a request for memory was refused, with `NoMemory`.
pub fn read_back(
    alloc: Global,
    set: &CodePointInversionListAndStringList,
    variable_map: &VariableMap,
    database: &PropertyDatabase,
) -> Result<(CodePointInversionListAndStringList, usize), ParseError>
    ensures whole { IfOk result (λ p. IsWholeSet set.now p.0 p.1) }
    ensures syntax { IfOk result (λ _. is_some (language_with variable_map.now database.now) ≡ true) }
    ensures refused { IfErr result (LacksSyntax (language_with variable_map.now database.now)) }
{
    laws::inverse();
    laws::one_answer();
    same_members();
    one_list();
    // The tables of the syntax leave escapes alone, and the lists of a set are in order: so these calls say.
    let _ = database.set(SetTable::PATTERN_WHITE_SPACE);
    let _ = set.code_points().get_inversion_list();
    let _ = set.strings();
    let pattern = set.to_pattern(alloc)?;
    let (read, length) = parse_with_variables(alloc, &pattern, variable_map, database)?;
    let _ = read.code_points().get_inversion_list();
    let _ = read.strings();
    Ok((read, length))
}
