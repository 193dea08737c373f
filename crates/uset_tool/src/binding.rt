//! Answers to the lines of a script, and what they bind.
ghost use Rattle.std.specs.Prelude.{◌≡◌, None, true, false, IfOk, OnOk};
ghost use Rattle.std.specs.String.{string_bytes};
ghost use Rattle.uset_variables.specs.Values.{value_seen, kept};
ghost use Rattle.uset_variables.specs.Variables.{bound, variables_of};
ghost use Rattle.uset_tool.specs.Script.{script_line, set as set_definition};
ghost use Rattle.uset_tool.specs.Lines.{definition_seen};
ghost use Rattle.uset_tool.specs.Answer.{bound_text, is_bound_text, text_after_text, with_binding, IsBound};
ghost use Rattle.uset_tool.specs.Answered.{AnswersDefinition, AnswersBinding, AnswersLine};

use crate::answer::{Answer, answer_err, answer_fault, answer_pattern};
use crate::line::{Definition, Line, read_line};
use cp_invlist::NoMemory;
use std::alloc::Global;
use uset_parse::{
    InsertError, Resolver, VariableMap, VariableString, VariableValue, WholeSource,
    parse_whole_with_resolver,
};

/// The answer to a name that is bound now.
fn answer_bound(alloc: Global, name: &str) -> Result<Answer, NoMemory>
    ensures text { IfOk result (λ a. string_bytes a.text ≡ bound_text name.now) }
    ensures err { IfOk result (λ a. a.is_err ≡ false) }
{
    let text = format!(in alloc; "bound {name}\n")?;
    Ok(Answer {
        text,
        is_err: false,
    })
}

/// The answer to a name that was bound before.
fn answer_bound_before(alloc: Global, name: &str) -> Result<Answer, NoMemory>
    ensures text { IfOk result (λ a. string_bytes a.text ≡ is_bound_text name.now) }
    ensures err { IfOk result (λ a. a.is_err ≡ true) }
{
    let text = format!(in alloc; "err {name} is bound\n")?;
    Ok(Answer { text, is_err: true })
}

/// The answer to a definition whose pattern ends before its line, behind this many bytes.
fn answer_text_after(alloc: Global, length: usize) -> Result<Answer, NoMemory>
    ensures text { IfOk result (λ a. string_bytes a.text ≡ text_after_text length) }
    ensures err { IfOk result (λ a. a.is_err ≡ true) }
{
    let text = format!(in alloc; "err text after the set at byte {length}\n")?;
    Ok(Answer { text, is_err: true })
}

/// Binds a name that is bound to nothing. Where memory is refused, it stays so.
fn bind(
    alloc: Global,
    name: &str,
    value: VariableValue,
    variables: &mut VariableMap,
) -> Result<(), NoMemory>
    requires { bound variables.old name.now ≡ None }
    ensures { OnOk result
        (variables_of variables.new ≡ with_binding name.now (value_seen (kept value)) (variables_of variables.old)) }
{
    match variables.insert(String::from_str(alloc, name)?, value) {
        Ok(()) => Ok(()),
        Err(InsertError::NoMemory) => Err(NoMemory),
        Err(InsertError::Present(_)) => unreachable!(),
    }
}

/// Binds a name that is bound to nothing, gives its strings numbers where they are many or long, and answers that it is bound.
fn answer_value(
    alloc: Global,
    name: &str,
    value: VariableValue,
    variables: &mut VariableMap,
) -> Result<Answer, NoMemory>
    requires { bound variables.old name.now ≡ None }
    ensures { IfOk result
        (IsBound name.now (value_seen (kept value)) (variables_of variables.old) (variables_of variables.new)) }
{
    let answer = answer_bound(alloc, name)?;
    bind(alloc, name, value, variables)?;
    variables.number_strings(alloc, name)?;
    Ok(answer)
}

/// Binds a name that is bound to nothing to the set of a pattern, where the pattern is the whole source.
fn answer_set(
    alloc: Global,
    name: &str,
    source: &str,
    variables: &mut VariableMap,
    resolver: &mut Resolver<'_>,
) -> Result<Answer, NoMemory>
    requires { bound variables.old name.now ≡ None }
    ensures answer { IfOk result
        (AnswersDefinition resolver.old name.now (set_definition source.now) variables.old variables.new) }
    ensures same { resolver.new ≡ resolver.old }
{
    match parse_whole_with_resolver(alloc, source, variables, resolver) {
        Ok(WholeSource::Pattern(mut set)) => {
            set.index_if_long(alloc)?;
            answer_value(alloc, name, VariableValue::UnicodeSet(set), variables)
        }
        Ok(WholeSource::TextBehind(length)) => answer_text_after(alloc, length),
        Err(error) => answer_fault(alloc, source, error),
    }
}

/// Binds a name that is bound to nothing.
fn answer_definition(
    alloc: Global,
    name: &str,
    definition: Definition<'_>,
    variables: &mut VariableMap,
    resolver: &mut Resolver<'_>,
) -> Result<Answer, NoMemory>
    requires { bound variables.old name.now ≡ None }
    ensures answer { IfOk result
        (AnswersDefinition resolver.old name.now (definition_seen definition.entry) variables.old variables.new) }
    ensures same { resolver.new ≡ resolver.old }
{
    match definition {
        Definition::Char(c) => answer_value(alloc, name, VariableValue::Char(c), variables),
        Definition::String(text) => {
            let value = VariableValue::String(VariableString::new(text));
            answer_value(alloc, name, value, variables)
        }
        Definition::Set(source) => answer_set(alloc, name, source, variables, resolver),
    }
}

/// The answer to a `let` line: a name is bound once.
fn answer_binding(
    alloc: Global,
    name: &str,
    definition: Definition<'_>,
    variables: &mut VariableMap,
    resolver: &mut Resolver<'_>,
) -> Result<Answer, NoMemory>
    ensures answer { IfOk result
        (AnswersBinding resolver.old name.now (definition_seen definition.entry) variables.old variables.new) }
    ensures same { resolver.new ≡ resolver.old }
{
    if variables.get(name).is_some() {
        return answer_bound_before(alloc, name);
    }
    answer_definition(alloc, name, definition, variables, resolver)
}

/// The answer to a line of a script, which may bind a name.
pub(crate) fn answer_line(
    alloc: Global,
    line: &str,
    variables: &mut VariableMap,
    resolver: &mut Resolver<'_>,
) -> Result<Answer, NoMemory>
    ensures answer { IfOk result (AnswersLine resolver.old (script_line line.now) variables.old variables.new) }
    ensures same { resolver.new ≡ resolver.old }
{
    match read_line(alloc, line)? {
        Line::Silent => Ok(Answer {
            text: String::new(alloc),
            is_err: false,
        }),
        Line::Pattern(source) => answer_pattern(alloc, source, variables, resolver),
        Line::Binding(name, definition) => answer_binding(
            alloc, name, definition, variables, resolver,
        ),
        Line::Bad => answer_err(alloc, "bad line"),
    }
}
