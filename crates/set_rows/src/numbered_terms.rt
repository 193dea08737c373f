//! Terms over sets whose strings have numbers, and the numbers themselves.
ghost use Rattle.std.specs.Prelude.{All, IfSome};
ghost use Rattle.cp_strset_terms.specs.Leaves.{FitsNumbers};
ghost use Rattle.cp_strset_terms.specs.Numbers.{AreNumbersOf, KeepsNumbers};

use crate::fixtures::{assert_equal, set_of};
use cp_invlist::CodePointInversionListBuilder;
use cp_strset::CodePointInversionListAndStringList;
use cp_strset_terms::{Leaf, NumberSet, SetOperation, Step, StringNumbers, evaluate};
use std::alloc::Global;

/// The strings `s` with a number behind, so many from the first on, each two further.
struct Strings {
    first: u32,
    count: u32,
}

const ODD: Strings = Strings {
    first: 101,
    count: 300,
};

const EVEN: Strings = Strings {
    first: 100,
    count: 300,
};

const EVEN_BUT_THE_LAST: Strings = Strings {
    first: 100,
    count: 299,
};

/// Strings without numbers: two of those above, and another.
const FEW: &[&str] = &["s101", "s102", "x1"];

/// The steps of a term, and the strings of its set. The leaves are the odd and the even ones, the even ones but the last, the
/// few, and the odd ones again; the last two have no numbers.
const ROWS: &[(&[Step], &[&str])] = &[
    (
        &[
            Step::Push(1),
            Step::Push(0),
            Step::Both(SetOperation::Intersection),
        ],
        &[],
    ),
    (
        &[
            Step::Push(1),
            Step::Push(0),
            Step::Push(3),
            Step::Both(SetOperation::Union),
            Step::Both(SetOperation::Intersection),
        ],
        &["s102"],
    ),
    (
        &[
            Step::Push(1),
            Step::Push(3),
            Step::Both(SetOperation::Union),
            Step::Push(0),
            Step::Both(SetOperation::Intersection),
        ],
        &["s101"],
    ),
    (
        &[
            Step::Push(1),
            Step::Push(2),
            Step::Both(SetOperation::Difference),
        ],
        &["s698"],
    ),
    (
        &[
            Step::Push(2),
            Step::Push(1),
            Step::Both(SetOperation::ReverseDifference),
        ],
        &["s698"],
    ),
    (
        &[
            Step::Push(1),
            Step::Push(0),
            Step::Both(SetOperation::Intersection),
            Step::Push(3),
            Step::Both(SetOperation::Union),
        ],
        &["s101", "s102", "x1"],
    ),
    // Of leaves without numbers too, each of whose strings is looked up.
    (
        &[
            Step::Push(1),
            Step::Push(4),
            Step::Both(SetOperation::Intersection),
        ],
        &[],
    ),
    (
        &[
            Step::Push(1),
            Step::Push(2),
            Step::Both(SetOperation::Difference),
            Step::Push(0),
            Step::Push(4),
            Step::Both(SetOperation::Difference),
            Step::Both(SetOperation::Union),
        ],
        &["s698"],
    ),
    (
        &[
            Step::Push(1),
            Step::Push(2),
            Step::Both(SetOperation::Difference),
            Step::Push(3),
            Step::Both(SetOperation::Union),
            Step::Push(1),
            Step::Both(SetOperation::Intersection),
        ],
        &["s102", "s698"],
    ),
    // A complement has no strings.
    (
        &[
            Step::Push(1),
            Step::Complement,
            Step::Push(0),
            Step::Both(SetOperation::Intersection),
        ],
        &[],
    ),
];

/// The strings one behind another.
fn listed(alloc: Global, strings: &Strings) -> Option<Vec<String>> {
    let mut list = Vec::new(alloc);
    for index in 0..strings.count {
        let number = strings.first.saturating_add(index.saturating_mul(2));
        let Ok(string) = format!(in alloc; "s{number}") else {
            return None;
        };
        let Ok(()) = list.push(string) else {
            return None;
        };
    }
    Some(list)
}

/// The set of the strings, which has no code points.
fn set(alloc: Global, strings: &Strings) -> Option<CodePointInversionListAndStringList> {
    let strings = listed(alloc, strings)?;
    let none = CodePointInversionListBuilder::new(alloc).build();
    CodePointInversionListAndStringList::try_from(none, strings).ok()
}

/// The numbers of the strings of the set, each of which has one from now on.
fn numbers(
    alloc: Global,
    all: &mut StringNumbers,
    set: &CodePointInversionListAndStringList,
) -> Option<NumberSet>
    ensures kept { KeepsNumbers all.old all.new }
    ensures numbers { IfSome result (AreNumbersOf all.new set.now.strings) }
{
    all.number(alloc, set).ok()
}

/// Whether the steps make the set of the strings of the leaves.
fn is_evaluated(
    alloc: Global,
    all: &StringNumbers,
    leaves: &[Leaf<'_>],
    steps: &[Step],
    texts: &[&str],
) -> bool
    requires { All (FitsNumbers all.now) leaves.now }
{
    let Ok(found) = evaluate(alloc, all, leaves, steps) else {
        return false;
    };
    match set_of(alloc, &[], texts) {
        Some(expected) => found == expected,
        None => false,
    }
}

/// The first row that doesn't hold of the leaves.
fn first_wrong(alloc: Global, all: &StringNumbers, leaves: &[Leaf<'_>]) -> Option<usize>
    requires { All (FitsNumbers all.now) leaves.now }
{
    for (index, (steps, texts)) in ROWS.iter().enumerate() {
        if !is_evaluated(alloc, all, leaves, steps, texts) {
            return Some(index);
        }
    }
    None
}

/// The first row that doesn't hold, if memory is left for the leaves.
fn first_wrong_row(alloc: Global) -> Option<Option<usize>> {
    let (odd, even) = (set(alloc, &ODD)?, set(alloc, &EVEN)?);
    let (but_the_last, few) = (set(alloc, &EVEN_BUT_THE_LAST)?, set_of(alloc, &[], FEW)?);
    let mut all = StringNumbers::new(alloc);
    let of_odd = numbers(alloc, &mut all, &odd)?;
    let of_even = numbers(alloc, &mut all, &even)?;
    let of_but_the_last = numbers(alloc, &mut all, &but_the_last)?;
    let leaves = [
        Leaf::Numbered(&odd, &of_odd),
        Leaf::Numbered(&even, &of_even),
        Leaf::Numbered(&but_the_last, &of_but_the_last),
        Leaf::WithStrings(&few),
        Leaf::WithStrings(&odd),
    ];
    Some(first_wrong(alloc, &all, &leaves))
}

#[test]
fn terms_over_numbers_are_evaluated(rt: HostRuntime) {
    assert_equal(&rt, first_wrong_row(rt.alloc()), Some(None));
}

/// What was told of the numbers of a set.
#[derive(PartialEq, Debug, Drop)]
struct Told {
    /// How many numbers the set has.
    count: usize,
    /// How many of its strings have one of them.
    known: usize,
    /// Whether the same set has the same numbers again.
    is_same: bool,
}

/// How many of the strings have a number that is in the set.
fn count_known(all: &StringNumbers, numbers: &NumberSet, strings: &[String]) -> usize {
    strings
        .iter()
        .filter(|string| {
            all.get(string.as_str())
                .is_some_and(|number| numbers.contains(number))
        })
        .count()
}

/// More numbers than the rows give.
const MORE_THAN_ALL: usize = 1000;

/// What is told of the even strings behind the odd ones.
fn told_behind(
    alloc: Global,
    odd: &CodePointInversionListAndStringList,
    even: &CodePointInversionListAndStringList,
) -> Option<Told> {
    let mut all = StringNumbers::new(alloc);
    numbers(alloc, &mut all, odd)?;
    let first = numbers(alloc, &mut all, even)?;
    let again = numbers(alloc, &mut all, even)?;
    Some(Told {
        count: (0..MORE_THAN_ALL)
            .filter(|number| first.contains(*number))
            .count(),
        known: count_known(&all, &first, even.strings()),
        is_same: (0..MORE_THAN_ALL).all(|number| first.contains(number) == again.contains(number)),
    })
}

/// What is told of the even strings but the last behind the odd ones.
fn numbered_behind(alloc: Global) -> Option<Told> {
    let (odd, even) = (set(alloc, &ODD)?, set(alloc, &EVEN_BUT_THE_LAST)?);
    told_behind(alloc, &odd, &even)
}

#[test]
fn strings_keep_their_numbers(rt: HostRuntime) {
    let expected = Told {
        count: 299,
        known: 299,
        is_same: true,
    };
    assert_equal(&rt, numbered_behind(rt.alloc()), Some(expected));
}

/// More strings than there are code points.
const MANY: Strings = Strings {
    first: 1_000_000,
    count: 0x11_0001,
};

/// The last 300 of these, and 300 further ones.
const SOME_OF_THEM: Strings = Strings {
    first: 3_227_626,
    count: 600,
};

/// The first and the last string that both have, those that `SOME_OF_THEM` alone has, and of each how many there are.
const SHARED: (&str, &str, usize) = ("s3227626", "s3228224", 300);

const OTHERS: (&str, &str, usize) = ("s3228226", "s3228824", 300);

/// Whether the set has so many strings, of which these are the first and the last.
fn has_strings(set: &CodePointInversionListAndStringList, expected: (&str, &str, usize)) -> bool {
    let strings = set.strings();
    match (strings.first(), strings.last()) {
        (Some(first), Some(last)) => {
            first.as_str() == expected.0
                && last.as_str() == expected.1
                && strings.len() == expected.2
        }
        _ => false,
    }
}

/// Whether the steps make a set with these strings of the leaves.
fn makes(
    alloc: Global,
    all: &StringNumbers,
    leaves: &[Leaf<'_>],
    steps: &[Step],
    expected: (&str, &str, usize),
) -> bool
    requires { All (FitsNumbers all.now) leaves.now }
{
    match evaluate(alloc, all, leaves, steps) {
        Ok(set) => has_strings(&set, expected),
        Err(_) => false,
    }
}

/// The steps of what both sets have, and of what the second alone has.
const BOTH: &[Step] = &[
    Step::Push(0),
    Step::Push(1),
    Step::Both(SetOperation::Intersection),
];

const SECOND_ALONE: &[Step] = &[
    Step::Push(1),
    Step::Push(0),
    Step::Both(SetOperation::Difference),
];

/// Whether the strings past the first 1,114,112 have numbers, and terms over them the strings that they should.
fn are_numbered_on(alloc: Global) -> Option<bool> {
    let (many, some) = (set(alloc, &MANY)?, set(alloc, &SOME_OF_THEM)?);
    let mut all = StringNumbers::new(alloc);
    let of_many = numbers(alloc, &mut all, &many)?;
    let of_some = numbers(alloc, &mut all, &some)?;
    let leaves = [
        Leaf::Numbered(&many, &of_many),
        Leaf::Numbered(&some, &of_some),
    ];
    Some(
        count_known(&all, &of_many, many.strings()) == 0x11_0001
            && makes(alloc, &all, &leaves, BOTH, SHARED)
            && makes(alloc, &all, &leaves, SECOND_ALONE, OTHERS),
    )
}

#[test]
fn more_strings_than_code_points_have_numbers(rt: HostRuntime) {
    assert_equal(&rt, are_numbered_on(rt.alloc()), Some(true));
}
