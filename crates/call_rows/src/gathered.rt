//! What a bracket gathers.
use crate::fixtures::{Row, assert_rows_of_set, is_set};
use cp_invlist::{CodePointRange, NoMemory};
use cp_strset::{CodePointInversionListAndStringList, sole_char};
use std::alloc::Global;
use std::rc::Rc;
use uset_gather::{Gathered, Operand, Source};

/// What is done with the letters.
#[derive(Clone, Copy)]
enum Step {
    Join,
    Remove,
    Retain,
    Negate,
}

/// What an operand is made of the other set.
#[derive(Clone, Copy)]
enum Made {
    Gathered,
    Set,
    CodePoints,
    Complement,
}

/// Adds the string, which is not one character.
fn add_text(alloc: Global, gathered: &mut Gathered, text: &str) -> Result<(), NoMemory> {
    let text = String::from_str(alloc, text)?;
    match sole_char(&text) {
        None => gathered.add_text(text),
        Some(_) => Ok(()),
    }
}

/// Adds the letters `a` to `e`, the empty string and the string `ab`.
fn add_letters(alloc: Global, gathered: &mut Gathered) -> Result<(), NoMemory> {
    gathered.add_range(CodePointRange {
        start: 0x61,
        end: 0x65,
    })?;
    add_text(alloc, gathered, "ab")?;
    add_text(alloc, gathered, "")
}

/// What a bracket with the members of the set gathered.
fn gathered_of(
    alloc: Global,
    set: &CodePointInversionListAndStringList,
) -> Result<Gathered, NoMemory> {
    let mut gathered = Gathered::new(alloc);
    gathered.join(alloc, Operand::Set(set))?;
    Ok(gathered)
}

/// The operand that is made of the set.
fn operand_of(
    alloc: Global,
    made: Made,
    set: &CodePointInversionListAndStringList,
) -> Result<Operand<'_>, NoMemory> {
    match made {
        Made::Gathered => Ok(Operand::Gathered(gathered_of(alloc, set)?)),
        Made::Set => Ok(Operand::Set(set)),
        Made::CodePoints => Ok(Operand::CodePoints(Source::Lent(set.code_points()))),
        Made::Complement => {
            let code_points = Rc::new(alloc, set.code_points().copy(alloc)?)?;
            Ok(Operand::Complement(Source::Shared(code_points)))
        }
    }
}

/// Takes the step with the operand.
fn take_step(
    alloc: Global,
    gathered: &mut Gathered,
    step: Step,
    operand: Operand<'_>,
) -> Result<(), NoMemory> {
    match step {
        Step::Join => gathered.join(alloc, operand),
        Step::Remove => gathered.remove(alloc, operand),
        Step::Retain => gathered.retain(alloc, operand),
        Step::Negate => {
            gathered.negate(alloc);
            Ok(())
        }
    }
}

/// Adds the letters, and takes the step with the operand of the other set.
fn gather(
    alloc: Global,
    gathered: &mut Gathered,
    step: Step,
    made: Made,
    other: &CodePointInversionListAndStringList,
) -> Result<(), NoMemory> {
    add_letters(alloc, gathered)?;
    take_step(alloc, gathered, step, operand_of(alloc, made, other)?)
}

/// The set that the step makes of the letters with the operand of the other set.
fn stepped(
    alloc: Global,
    step: Step,
    made: Made,
    other: &CodePointInversionListAndStringList,
) -> Result<CodePointInversionListAndStringList, NoMemory> {
    let mut gathered = Gathered::new(alloc);
    gather(alloc, &mut gathered, step, made, other)?;
    gathered.into_set(alloc)
}

/// A step, its operand, and the inversion list and the strings of what the letters become.
type Stepped = (Step, Made, &'static [u32], &'static [&'static str]);

impl Row<CodePointInversionListAndStringList> for Stepped {
    fn holds(&self, alloc: Global, other: &CodePointInversionListAndStringList) -> bool {
        let (step, made, list, texts) = *self;
        match stepped(alloc, step, made, other) {
            Ok(set) => is_set(&set, list, texts),
            Err(_) => false,
        }
    }
}

/// The letters `a` to `e`, the empty string and `ab` with `c` to `g`, `ab` and `cd`.
const STEPPED: &[Stepped] = &[
    (Step::Join, Made::Gathered, &[0x61, 0x68], &["", "ab", "cd"]),
    (Step::Join, Made::Set, &[0x61, 0x68], &["", "ab", "cd"]),
    (Step::Join, Made::CodePoints, &[0x61, 0x68], &["", "ab"]),
    (
        Step::Join,
        Made::Complement,
        &[0, 0x66, 0x68, 0x11_0000],
        &["", "ab"],
    ),
    (Step::Remove, Made::Gathered, &[0x61, 0x63], &[""]),
    (Step::Remove, Made::Set, &[0x61, 0x63], &[""]),
    (Step::Remove, Made::CodePoints, &[0x61, 0x63], &["", "ab"]),
    (Step::Remove, Made::Complement, &[0x63, 0x66], &["", "ab"]),
    (Step::Retain, Made::Gathered, &[0x63, 0x66], &["ab"]),
    (Step::Retain, Made::Set, &[0x63, 0x66], &["ab"]),
    (Step::Retain, Made::CodePoints, &[0x63, 0x66], &[]),
    (Step::Retain, Made::Complement, &[0x61, 0x63], &[]),
    (Step::Negate, Made::Set, &[0, 0x61, 0x66, 0x11_0000], &[]),
];

#[test]
fn letters_become_what_the_step_makes_of_them(rt: HostRuntime) {
    assert_rows_of_set(&rt, rt.alloc(), &[0x63, 0x68], &["ab", "cd"], STEPPED);
}
