//! The words after the program's name.
ghost use Rattle.std.specs.Prelude.{◌≡◌, None, Some, map, IfNone, IfSome};
ghost use Rattle.std.specs.String.{string_bytes};
ghost use Rattle.uset_tool.specs.Words.{command_named, command_of};
ghost use Rattle.uset_tool.specs.Commands.{command_seen};

use crate::pattern_number::{PatternNumber, pattern_number_of};

/// What the words ask for.
#[derive(Clone, Copy, Drop)]
pub(crate) enum Command {
    /// `eval`: the input is a table text and a script behind it.
    Eval,
    /// `tables`: the input is a table text, whose tables are counted.
    Tables,
    /// `gen` and a number: the input is a table text, under which the pattern of the number is read and its set measured.
    Gen(PatternNumber),
}

/// The command of one word.
fn command_named(word: &str) -> Option<Command>
    ensures known { IfSome result (λ c. command_named word.now ≡ Some (command_seen c)) }
    ensures unknown { IfNone result (command_named word.now ≡ None) }
{
    match word {
        "eval" => Some(Command::Eval),
        "tables" => Some(Command::Tables),
        _ => None,
    }
}

/// The command that the words are, where they are a known list.
pub(crate) fn find_command(words: &[String]) -> Option<Command>
    ensures known { IfSome result (λ c. command_of (map string_bytes words.now) ≡ Some (command_seen c)) }
    ensures unknown { IfNone result (command_of (map string_bytes words.now) ≡ None) }
{
    match words {
        [word] => command_named(word),
        [word, number] if word.as_str() == "gen" => Some(Command::Gen(pattern_number_of(number)?)),
        _ => None,
    }
}
