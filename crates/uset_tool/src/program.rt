//! A run of the program.
ghost use Rattle.std.specs.Prelude.{◌≡◌, true, false, map, IfSome, if◌then◌else◌};
ghost use Rattle.std.specs.String.{string_bytes};
ghost use Rattle.uset_tool.specs.Device.{Rose, NoFault, count_after};
ghost use Rattle.uset_tool.specs.Commands.{command_seen};
ghost use Rattle.uset_tool.specs.Status.{is_read_fault, is_write_fault};
ghost use Rattle.uset_tool.specs.Words.{is_known, table_fault_text, usage_text};
ghost use Rattle.std.specs.Str.Lines.{lines};
ghost use Rattle.prop_data.specs.Database.{tables_of};
ghost use Rattle.prop_data.specs.Forbidden.{AreAllowed};
ghost use Rattle.uset_tool.specs.Run.{Answers, Results, Evaluates, Counts, SaysCounts, Generates, SaysSizes, LacksSyntax, Writes, AppendsAnswer, IsLeft, HasStatus, IsSettled, IsAccepted, IsAnswered, EndsAs, Says, SaysError, ScriptWrites, is_of_text};

use crate::counts::counts_text;
use crate::generator::answer_generated;
use crate::input::{InputError, read_input};
use crate::laws::{generated, one_answer};
use crate::pattern_number::PatternNumber;
use crate::script::answer_script;
use crate::sink::{Sink, WriteError, write_all};
use crate::source::Source;
use crate::status::Status;
use crate::table_fault::table_fault_text;
use crate::words::{Command, find_command};
use cp_invlist::laws::one_list_of_ranges;
use prop_data::laws::allowed_sets;
use prop_data::{LoadError, PropertyDatabase, TableError};
use std::alloc::Global;
use text_lines::split_behind;
use uset_parse::laws::one_answer as one_answer_of_a_source;

/// Writes a text, and gives the status that is wanted where all of it was written.
fn say<K: Sink>(sink: &mut K, text: &str, wanted: Status) -> Status
    ensures says { Says (K.written sink.old) (K.written sink.new) text.now wanted result }
    ensures ends { EndsAs wanted result }
    ensures counted { is_write_fault wanted ≡ false →
        K.faults sink.new ≡ count_after (is_write_fault result) (K.faults sink.old) }
{
    match write_all(sink, text.as_bytes()) {
        Ok(()) => wanted,
        Err(WriteError::Failed) => Status::WriteFault,
        Err(WriteError::NoMemory) => Status::NoMemory,
    }
}

/// Says the first fault of the table text.
fn say_fault<K: Sink>(alloc: Global, fault: TableError, sink: &mut K) -> Status
    ensures says { Says (K.written sink.old) (K.written sink.new) (table_fault_text fault) Status.Tables result }
    ensures counted { K.faults sink.new ≡ count_after (is_write_fault result) (K.faults sink.old) }
{
    match table_fault_text(alloc, fault) {
        Ok(text) => say(sink, &text, Status::Tables),
        Err(_) => Status::NoMemory,
    }
}

/// Says why the table text gave no database.
fn say_load_error<K: Sink>(alloc: Global, error: LoadError, sink: &mut K) -> Status
    ensures says { SaysError error (K.written sink.old) (K.written sink.new) result }
    ensures counted { K.faults sink.new ≡ count_after (is_write_fault result) (K.faults sink.old) }
{
    match error {
        LoadError::Table(fault) => say_fault(alloc, fault, sink),
        LoadError::NoMemory => Status::NoMemory,
    }
}

/// Says how many tables of each kind there are.
fn say_counts<K: Sink>(alloc: Global, database: &PropertyDatabase, sink: &mut K) -> Status
    ensures says { SaysCounts (tables_of database.now) (K.written sink.old) (K.written sink.new) result }
    ensures counted { K.faults sink.new ≡ count_after (is_write_fault result) (K.faults sink.old) }
{
    match counts_text(alloc, database) {
        Ok(text) => say(sink, &text, Status::Done),
        Err(_) => Status::NoMemory,
    }
}

/// The status of an answer, by whether it is an `err` line.
fn status_of(is_err: bool) -> Status
    ensures { result ≡ (if is_err then Status.SomeErr else Status.Done) }
{
    if is_err {
        return Status::SomeErr;
    }
    Status::Done
}

/// Says the sizes of the set of the pattern that the number tells, or its fault.
fn say_sizes<K: Sink>(
    alloc: Global,
    number: PatternNumber,
    database: &PropertyDatabase,
    sink: &mut K,
) -> Status
    ensures says { SaysSizes (tables_of database.now) number.value (K.written sink.old) (K.written sink.new) result }
    ensures counted { K.faults sink.new ≡ count_after (is_write_fault result) (K.faults sink.old) }
{
    match answer_generated(alloc, number, database) {
        Ok(answer) => say(sink, &answer.text, status_of(answer.is_err)),
        Err(_) => Status::NoMemory,
    }
}

/// Answers the lines of a script.
fn answer<K: Sink>(alloc: Global, script: &str, database: &PropertyDatabase, sink: &mut K) -> Status
    requires { AreAllowed (tables_of database.now) }
    ensures written { ScriptWrites (tables_of database.now) (lines script.now) (K.written sink.old)
        (K.written sink.new) result }
    ensures counted { K.faults sink.new ≡ count_after (is_write_fault result) (K.faults sink.old) }
{
    match answer_script(alloc, script, database, sink) {
        Ok(some_err) => status_of(some_err),
        Err(WriteError::Failed) => Status::WriteFault,
        Err(WriteError::NoMemory) => Status::NoMemory,
    }
}

/// Answers an input that is text: a table text and a script behind it.
fn eval<K: Sink>(alloc: Global, input: &str, sink: &mut K) -> Status
    ensures written { AppendsAnswer (Evaluates input.now) (K.written sink.old) (K.written sink.new) result }
    ensures status { is_of_text result ≡ true }
    ensures counted { K.faults sink.new ≡ count_after (is_write_fault result) (K.faults sink.old) }
{
    allowed_sets();
    let (tables, script) = split_behind(input, b"end");
    match PropertyDatabase::from_text(alloc, tables) {
        Ok(database) => answer(alloc, script, &database, sink),
        Err(error) => say_load_error(alloc, error, sink),
    }
}

/// Answers an input that is text and a table text alone: how many tables of each kind it has.
fn count_tables<K: Sink>(alloc: Global, input: &str, sink: &mut K) -> Status
    ensures written { AppendsAnswer (Counts input.now) (K.written sink.old) (K.written sink.new) result }
    ensures status { is_of_text result ≡ true }
    ensures counted { K.faults sink.new ≡ count_after (is_write_fault result) (K.faults sink.old) }
{
    match PropertyDatabase::from_text(alloc, input) {
        Ok(database) => say_counts(alloc, &database, sink),
        Err(error) => say_load_error(alloc, error, sink),
    }
}

/// Answers an input that is text and a table text alone: the sizes of the set of the pattern that the number tells.
fn generate<K: Sink>(alloc: Global, number: PatternNumber, input: &str, sink: &mut K) -> Status
    ensures written { AppendsAnswer (Generates number.value input.now) (K.written sink.old)
        (K.written sink.new) result }
    ensures status { is_of_text result ≡ true }
    ensures counted { K.faults sink.new ≡ count_after (is_write_fault result) (K.faults sink.old) }
{
    // The laws by which a pattern has one answer, so that what is written begins every answer.
    allowed_sets();
    one_answer_of_a_source();
    one_list_of_ranges();
    match PropertyDatabase::from_text(alloc, input) {
        Ok(database) => say_sizes(alloc, number, &database, sink),
        Err(error) => say_load_error(alloc, error, sink),
    }
}

/// Answers an input that is text.
fn answer_text<K: Sink>(alloc: Global, command: Command, input: &str, sink: &mut K) -> Status
    ensures written { AppendsAnswer (Results (command_seen command) input.now)
        (K.written sink.old) (K.written sink.new) result }
    ensures status { is_of_text result ≡ true }
    ensures counted { K.faults sink.new ≡ count_after (is_write_fault result) (K.faults sink.old) }
{
    match command {
        Command::Eval => eval(alloc, input, sink),
        Command::Tables => count_tables(alloc, input, sink),
        Command::Gen(number) => generate(alloc, number, input, sink),
    }
}

/// Answers the words and the input.
fn answer_words<S: Source, K: Sink>(
    alloc: Global,
    words: &Vec<String>,
    source: &mut S,
    sink: &mut K,
) -> Status
    ensures written { IfSome (S.left source.old) (λ input.
        AppendsAnswer (Answers (map string_bytes words.now.items) input)
        (K.written sink.old) (K.written sink.new) result) }
    ensures left { IfSome (S.left source.old) (λ input. IsLeft input (S.left source.new) result) }
    ensures usage { result ≡ Status.Usage → is_known (map string_bytes words.now.items) ≡ false }
    ensures unknown { is_known (map string_bytes words.now.items) ≡ false →
        Says (K.written sink.old) (K.written sink.new) usage_text Status.Usage result }
    ensures untouched { is_known (map string_bytes words.now.items) ≡ false → source.new ≡ source.old }
    ensures read_fault_words { result ≡ Status.ReadFault → is_known (map string_bytes words.now.items) ≡ true }
    ensures silent { result ≡ Status.ReadFault → K.written sink.new ≡ K.written sink.old }
    ensures reads_counted { S.faults source.new ≡ count_after (is_read_fault result) (S.faults source.old) }
    ensures writes_counted { K.faults sink.new ≡ count_after (is_write_fault result) (K.faults sink.old) }
{
    let Some(command) = find_command(words) else {
        return say(sink, "usage: uset COMMAND\n", Status::Usage);
    };
    let input = match read_input(alloc, source) {
        Ok(input) => input,
        Err(InputError::Failed) => return Status::ReadFault,
        Err(InputError::TooLong) => return say(sink, "input is too long\n", Status::TooLong),
        Err(InputError::NoMemory) => return Status::NoMemory,
    };
    match str::from_utf8(&input) {
        Ok(text) => answer_text(alloc, command, text, sink),
        Err(_) => say(sink, "input is not UTF-8\n", Status::NotText),
    }
}

/// Runs the program: the words after its name, the bytes of the source, and the answer to the sink.
/// The known lists of words are `eval`, where the input is a table text through its first line that is
/// `end` alone and then a script, `tables`, where it is a table text, and `gen` with a number from 1 to 10000 in decimal
/// digits, the first no 0, where it is one too. At most 2^23 bytes are an input. What is written is the answer that the
/// grammar and the tables give, as `written` says; `settled` and `complete` say that without a fault of the source or the
/// sink no other end comes but want of memory. The pattern that `gen` makes is always read, as `generated` says, where the
/// tables of the syntax are there.
pub fn run<S: Source, K: Sink>(
    alloc: Global,
    words: &Vec<String>,
    source: &mut S,
    sink: &mut K,
) -> Status
    ensures written { IfSome (S.left source.old) (λ input.
        Writes (Answers (map string_bytes words.now.items) input) (K.written sink.old) (K.written sink.new) result) }
    ensures left { IfSome (S.left source.old) (λ input. IsLeft input (S.left source.new) result) }

    // A status of an answer is that of this input's, also where the sink tells nothing.
    ensures status { IfSome (S.left source.old) (λ input.
        HasStatus (Answers (map string_bytes words.now.items) input) result) }

    // Why the run ended before an answer, also where the source tells nothing.
    ensures usage { result ≡ Status.Usage → is_known (map string_bytes words.now.items) ≡ false }
    ensures unknown { is_known (map string_bytes words.now.items) ≡ false →
        Says (K.written sink.old) (K.written sink.new) usage_text Status.Usage result }
    ensures untouched { is_known (map string_bytes words.now.items) ≡ false → source.new ≡ source.old }
    ensures read_fault_words { result ≡ Status.ReadFault → is_known (map string_bytes words.now.items) ≡ true }
    ensures silent { result ≡ Status.ReadFault → K.written sink.new ≡ K.written sink.old }
    ensures read_fault { result ≡ Status.ReadFault → Rose (S.faults source.old) (S.faults source.new) }
    ensures write_fault { result ≡ Status.WriteFault → Rose (K.faults sink.old) (K.faults sink.new) }

    // A read and a write that failed are counted, and no other: so the run ended with the first that did.
    ensures reads_counted { S.faults source.new ≡ count_after (is_read_fault result) (S.faults source.old) }
    ensures writes_counted { K.faults sink.new ≡ count_after (is_write_fault result) (K.faults sink.old) }

    // The pattern that a number tells has a fault only where a table of the syntax is absent.
    ensures generated { IfSome (S.left source.old) (λ input.
        result ≡ Status.SomeErr → LacksSyntax (map string_bytes words.now.items) input) }

    // Where no fault was counted, the status is that of the one answer, or memory was refused, whatever the sink tells.
    ensures settled { IfSome (S.left source.old) (λ input.
        NoFault (S.faults source.old) (S.faults source.new) → NoFault (K.faults sink.old) (K.faults sink.new) →
        IsSettled (Answers (map string_bytes words.now.items) input) result) }
    ensures complete { IfSome (S.left source.old) (λ input.
        NoFault (S.faults source.old) (S.faults source.new) → NoFault (K.faults sink.old) (K.faults sink.new) →
        IsAccepted (map string_bytes words.now.items) input → IsAnswered result) }
{
    // The laws by which an input has one answer, and the pattern that a number tells is read.
    one_answer();
    generated();
    allowed_sets();
    one_answer_of_a_source();
    answer_words(alloc, words, source, sink)
}
