//! Units at the front of a text: escapes, strings, properties and names.
ghost use Rattle.std.specs.Prelude.{◌≤◌, length};
ghost use Rattle.uset_read.specs.Stops.{left_at};
ghost use Rattle.uset_read.specs.Cursors.{left_of};

use crate::fixtures::{Row, assert_equal, assert_rows, first_wrong};
use cp_invlist::{CodePointInversionList, InversionListError};
use std::alloc::Global;
use std::process::Abort;
use uset_read::{
    Around, Cursor, Form, Kind, Query, Spelled, Stop, close_property, read_escape, read_name,
    read_property, read_string, skip_white_space, split_first,
};

/// White space of patterns.
const SPACES: &[u32] = &[
    0x9, 0xE, 0x20, 0x21, 0x85, 0x86, 0x200E, 0x2010, 0x2028, 0x202A,
];

/// The index of the first row that does not hold of the code points of an inversion list, which are white space where
/// nothing else is said.
fn first_wrong_of_list<R: Row<CodePointInversionList>>(
    alloc: Global,
    list: &[u32],
    rows: &[R],
) -> Result<Option<usize>, InversionListError> {
    let code_points = CodePointInversionList::try_from_inversion_list(alloc, list)?;
    Ok(first_wrong(alloc, &code_points, rows))
}

/// Asserts that each row holds of the code points of an inversion list. A failure tells the index of the first that does not.
fn assert_rows_of_list<R: Row<CodePointInversionList>>(
    rt: &impl Abort,
    alloc: Global,
    list: &[u32],
    rows: &[R],
) {
    assert_equal(rt, first_wrong_of_list(alloc, list, rows), Ok(None));
}

/// What an escape spells, as a constant can have it.
#[derive(Clone, Copy)]
enum Spelling {
    /// A character, by itself or by its letter.
    Itself(char),
    /// Numbers: the first, and those behind it.
    Numbers(u32, &'static [u32]),
}

/// Whether the escape spells this.
fn spells(spelled: &Spelled, expected: Spelling) -> bool {
    match (spelled, expected) {
        (Spelled::Itself(c), Spelling::Itself(expected)) => *c == expected,
        (Spelled::Numbers(number, more), Spelling::Numbers(first, behind)) => {
            *number == first && more.as_slice() == behind
        }
        _ => false,
    }
}

/// A text, what the escape in front spells, and the text behind the escape.
type Escape = (&'static str, Spelling, &'static str);

impl Row<CodePointInversionList> for Escape {
    fn holds(&self, alloc: Global, white_space: &CodePointInversionList) -> bool {
        let (text, expected, rest) = *self;
        match read_escape(alloc, white_space, Around::Bracket { several: true }, text) {
            Ok((spelled, behind)) => behind == rest && spells(&spelled, expected),
            Err(_) => false,
        }
    }
}

const ESCAPES: &[Escape] = &[
    ("\\u0041]", Spelling::Numbers(0x41, &[]), "]"),
    (
        "\\x{ 61 0062   63 }-",
        Spelling::Numbers(0x61, &[0x62, 0x63]),
        "-",
    ),
    (
        "\\u{10FFFF d800 0}",
        Spelling::Numbers(0x10_FFFF, &[0xD800, 0]),
        "",
    ),
    ("\\U0010FFFFx", Spelling::Numbers(0x10_FFFF, &[]), "x"),
    ("\\u{d800}", Spelling::Numbers(0xD800, &[]), ""),
    ("\\n]", Spelling::Itself('\n'), "]"),
    ("\\ ]", Spelling::Itself(' '), "]"),
];

#[test]
fn escapes_are_read(rt: HostRuntime) {
    assert_rows_of_list(&rt, rt.alloc(), SPACES, ESCAPES);
}

/// Why a unit is not read.
#[derive(Clone, Copy)]
enum Why {
    /// It has a fault of this kind, at this place in bytes.
    Fault(Kind, usize),
    /// The text ends inside it.
    Ended,
}

/// Whether a unit at the cursor is not read for this.
fn is_stopped(cursor: Cursor<'_>, stop: Stop<'_>, why: Why) -> bool
    requires { left_at stop ≤ length (left_of cursor) }
{
    match (stop, why) {
        (Stop::Fault(kind, rest), Why::Fault(expected, offset)) => {
            kind == expected && cursor.at(rest).offset() == offset
        }
        (Stop::Ended, Why::Ended) => true,
        _ => false,
    }
}

/// What is read at the front of a text.
#[derive(Clone, Copy)]
enum Unit {
    Escape(Around),
    String,
    Property,
}

/// Whether the unit at the cursor is not read for this.
fn is_not_read(
    alloc: Global,
    white_space: &CodePointInversionList,
    unit: Unit,
    cursor: Cursor<'_>,
    why: Why,
) -> bool {
    let text = cursor.rest();
    let stop = match unit {
        Unit::Escape(around) => read_escape(alloc, white_space, around, text).err(),
        Unit::String => read_string(alloc, white_space, text).err(),
        Unit::Property => read_property(alloc, white_space, text).err(),
    };
    match stop {
        Some(stop) => is_stopped(cursor, stop, why),
        None => false,
    }
}

/// A unit, a source, and why the unit is not read at the front of that.
type Stopped = (Unit, &'static str, Why);

impl Row<CodePointInversionList> for Stopped {
    fn holds(&self, alloc: Global, white_space: &CodePointInversionList) -> bool {
        let (unit, source, why) = *self;
        is_not_read(alloc, white_space, unit, Cursor::new(source), why)
    }
}

/// An escape in a bracket, where an escape of several numbers fits.
const IN_BRACKET: Unit = Unit::Escape(Around::Bracket { several: true });

/// An escape in a bracket, where an escape of several numbers does not fit.
const IN_RANGE: Unit = Unit::Escape(Around::Bracket { several: false });

/// An escape in a string.
const IN_STRING: Unit = Unit::Escape(Around::String);

const STOPPED_ESCAPES: &[Stopped] = &[
    (
        IN_BRACKET,
        "\\xag",
        Why::Fault(Kind::UnexpectedChar('g'), 3),
    ),
    (
        IN_BRACKET,
        "\\x{}",
        Why::Fault(Kind::UnexpectedChar('}'), 3),
    ),
    (
        IN_BRACKET,
        "\\x{10ffff0}",
        Why::Fault(Kind::UnexpectedChar('0'), 9),
    ),
    (
        IN_RANGE,
        "\\u{41 42}",
        Why::Fault(Kind::UnexpectedChar('\\'), 0),
    ),
    (
        IN_BRACKET,
        "\\x{dabeef}",
        Why::Fault(Kind::InvalidEscape, 8),
    ),
    (IN_BRACKET, "\\N{DASH}", Why::Fault(Kind::Unimplemented, 1)),
    (IN_STRING, "\\uD800", Why::Fault(Kind::InvalidEscape, 0)),
    (
        IN_STRING,
        "\\u{D800 62}",
        Why::Fault(Kind::InvalidEscape, 0),
    ),
    (
        IN_STRING,
        "\\x{61 D800}",
        Why::Fault(Kind::InvalidEscape, 6),
    ),
    (IN_STRING, "\\", Why::Ended),
    (IN_STRING, "\\u", Why::Ended),
    (IN_STRING, "\\u{", Why::Ended),
    (IN_STRING, "\\u{6", Why::Ended),
    (IN_STRING, "\\u{61 ", Why::Ended),
    (IN_STRING, "\\U00", Why::Ended),
];

#[test]
fn a_fault_of_an_escape_has_one_place(rt: HostRuntime) {
    assert_rows_of_list(&rt, rt.alloc(), SPACES, STOPPED_ESCAPES);
}

/// A source, what is left of it, and where that begins and the last character in front of it, in bytes.
type Placed = (&'static str, &'static str, usize, usize);

impl Row<()> for Placed {
    fn holds(&self, _alloc: Global, _lent: &()) -> bool {
        let (source, rest, offset, last) = *self;
        if rest.len() >= source.len() {
            return false;
        }
        let cursor = Cursor::new(source).at(rest);
        cursor.rest() == rest && cursor.offset() == offset && cursor.last_offset() == last
    }
}

const PLACED: &[Placed] = &[
    ("ä]", "]", 2, 0),
    ("ä]", "", 3, 2),
    ("aä", "", 3, 1),
    ("[\u{1F600}]", "]", 5, 1),
    ("[\u{2260}a", "a", 4, 1),
];

#[test]
fn a_cursor_counts_bytes(rt: HostRuntime) {
    assert_rows(&rt, rt.alloc(), PLACED);
}

#[test]
fn a_new_cursor_stands_in_front(rt: HostRuntime) {
    let cursor = Cursor::new("ä]");
    assert_equal(&rt, (cursor.offset(), cursor.rest()), (0, "ä]"));
}

/// A text, and its first character and the text behind that, if it has one.
type Split = (&'static str, Option<(char, &'static str)>);

impl Row<()> for Split {
    fn holds(&self, _alloc: Global, _lent: &()) -> bool {
        let (text, expected) = *self;
        split_first(text) == expected
    }
}

const SPLIT: &[Split] = &[
    ("ab", Some(('a', "b"))),
    ("ä]", Some(('ä', "]"))),
    ("\u{1F600}", Some(('\u{1F600}', ""))),
    (" a", Some((' ', "a"))),
    ("", None),
];

#[test]
fn a_text_is_split_behind_its_first_character(rt: HostRuntime) {
    assert_rows(&rt, rt.alloc(), SPLIT);
}

/// An inversion list of white space, a text, and the text without that in front.
type Skipped = (&'static [u32], &'static str, &'static str);

impl Row<()> for Skipped {
    fn holds(&self, alloc: Global, _lent: &()) -> bool {
        let (list, text, rest) = *self;
        match CodePointInversionList::try_from_inversion_list(alloc, list) {
            Ok(white_space) => skip_white_space(&white_space, text) == rest,
            Err(_) => false,
        }
    }
}

const SKIPPED: &[Skipped] = &[
    (SPACES, "a b", "a b"),
    (SPACES, " \t\r\na b ", "a b "),
    // no-break and ideographic spaces are none of patterns
    (SPACES, "\u{85}\u{200E}\u{2029}\u{A0}", "\u{A0}"),
    (SPACES, "\u{2028}\u{3000} ", "\u{3000} "),
    (SPACES, "  ", ""),
    (SPACES, "", ""),
    (&[], " a", " a"),
    (&[0x61, 0x62], "aab a", "b a"),
    (&[0, 0x11_0000], "ä \u{10FFFF}", ""),
];

#[test]
fn white_space_in_front_is_skipped(rt: HostRuntime) {
    assert_rows(&rt, rt.alloc(), SKIPPED);
}

/// A text, the characters of the string in front, and the text behind the string.
type Braced = (&'static str, &'static str, &'static str);

impl Row<CodePointInversionList> for Braced {
    fn holds(&self, alloc: Global, white_space: &CodePointInversionList) -> bool {
        let (text, characters, rest) = *self;
        match read_string(alloc, white_space, text) {
            Ok((string, behind)) => behind == rest && string.as_str() == characters,
            Err(_) => false,
        }
    }
}

const STRINGS: &[Braced] = &[
    ("{}}]", "", "}]"),
    ("{ [ a - z } ]", "[a-z", " ]"),
    ("{h\\u{65}llo\\ world}", "hello world", ""),
    ("{\\x{61 62  1F600}\\p}x", "ab\u{1F600}p", "x"),
];

#[test]
fn strings_are_read(rt: HostRuntime) {
    assert_rows_of_list(&rt, rt.alloc(), SPACES, STRINGS);
}

const STOPPED_STRINGS: &[Stopped] = &[
    (
        Unit::String,
        "{\\uD800}",
        Why::Fault(Kind::InvalidEscape, 1),
    ),
    (
        Unit::String,
        "{a\\x{61 D800g}",
        Why::Fault(Kind::InvalidEscape, 8),
    ),
    (
        Unit::String,
        "{a\\x{61 62g}",
        Why::Fault(Kind::UnexpectedChar('g'), 10),
    ),
    (
        Unit::String,
        "{{\\udFFF ]",
        Why::Fault(Kind::InvalidEscape, 2),
    ),
    (
        Unit::String,
        "{ab\\N{DASH}}",
        Why::Fault(Kind::Unimplemented, 4),
    ),
    (
        Unit::String,
        "{\\u{65}\\xag}",
        Why::Fault(Kind::UnexpectedChar('g'), 10),
    ),
    (Unit::String, "{a", Why::Ended),
];

#[test]
fn a_fault_of_a_string_has_one_place(rt: HostRuntime) {
    assert_rows_of_list(&rt, rt.alloc(), SPACES, STOPPED_STRINGS);
}

/// A text, and the name in front and the text behind that, if it begins with one.
type Front = (&'static str, Option<(&'static str, &'static str)>);

impl Row<CodePointInversionList> for Front {
    fn holds(&self, alloc: Global, continuing: &CodePointInversionList) -> bool {
        let (text, expected) = *self;
        match CodePointInversionList::try_from_inversion_list(alloc, LETTERS) {
            Ok(letters) => read_name(&letters, continuing, text) == expected,
            Err(_) => false,
        }
    }
}

/// The letters that begin a name.
const LETTERS: &[u32] = &[0x61, 0x7B, 0xE4, 0xE5];

/// The letters and the digits that continue a name.
const CONTINUING: &[u32] = &[0x30, 0x3A, 0x61, 0x7B, 0xE4, 0xE5];

const NAMES: &[Front] = &[
    ("ab1-x", Some(("ab1", "-x"))),
    ("äö", Some(("ä", "ö"))),
    ("1a", None),
    ("", None),
];

#[test]
fn the_longest_name_is_read(rt: HostRuntime) {
    assert_rows_of_list(&rt, rt.alloc(), CONTINUING, NAMES);
}

/// Whether the property asks this.
fn asks(query: &Query, negated: bool, key: &str, value: Option<&str>) -> bool {
    query.negated == negated && query.key.as_str() == key && query.value.as_deref() == value
}

/// A text, how the property in front is written, what it asks (whether it is negated, its key and its value), and the
/// text from its end mark on.
type Asked = (
    &'static str,
    Form,
    bool,
    &'static str,
    Option<&'static str>,
    &'static str,
);

impl Row<CodePointInversionList> for Asked {
    fn holds(&self, alloc: Global, white_space: &CodePointInversionList) -> bool {
        let (text, form, negated, key, value, rest) = *self;
        match read_property(alloc, white_space, text) {
            Ok((written, query, at)) => {
                written == form && at == rest && asks(&query, negated, key, value)
            }
            Err(_) => false,
        }
    }
}

const PROPERTIES: &[Asked] = &[
    (
        "[:^AHex≠True:]",
        Form::Posix,
        false,
        "AHex",
        Some("True"),
        ":]",
    ),
    (
        "\\p{AHex≠False}",
        Form::Perl,
        true,
        "AHex",
        Some("False"),
        "}",
    ),
    (
        "[:gc=lower-case-letter:]",
        Form::Posix,
        false,
        "gc",
        Some("lower-case-letter"),
        ":]",
    ),
    ("\\P{ L l }]", Form::Perl, true, "Ll", None, "}]"),
    ("[:^L:]", Form::Posix, true, "L", None, ":]"),
];

#[test]
fn properties_are_read(rt: HostRuntime) {
    assert_rows_of_list(&rt, rt.alloc(), SPACES, PROPERTIES);
}

const SIGNED: &[Asked] = &[("\\p{A≠Hex}", Form::Perl, false, "AHex", None, "}")];

#[test]
fn a_sign_that_is_white_space_is_dropped(rt: HostRuntime) {
    assert_rows_of_list(&rt, rt.alloc(), &[0x2260, 0x2261], SIGNED);
}

/// Why the property can't be closed, if there is a fault, and the text behind what closes it or from the fault on. `None`
/// where the text ends.
fn closed(form: Form, text: &str) -> Option<(Option<Kind>, &str)> {
    match close_property(form, text) {
        Ok(rest) => Some((None, rest)),
        Err(Stop::Fault(kind, rest)) => Some((Some(kind), rest)),
        Err(_) => None,
    }
}

/// How a property is written, what follows it, and how that closes it, as `closed` tells.
type Closed = (Form, &'static str, Option<(Option<Kind>, &'static str)>);

impl Row<()> for Closed {
    fn holds(&self, _alloc: Global, _lent: &()) -> bool {
        let (form, text, expected) = *self;
        closed(form, text) == expected
    }
}

const CLOSED: &[Closed] = &[
    (Form::Posix, ":]x", Some((None, "x"))),
    (
        Form::Posix,
        ": ]",
        Some((Some(Kind::UnexpectedChar(' ')), " ]")),
    ),
    (
        Form::Posix,
        "}]",
        Some((Some(Kind::UnexpectedChar('}')), "}]")),
    ),
    (Form::Posix, ":", None),
    (Form::Posix, "", None),
    (Form::Perl, "}x", Some((None, "x"))),
    (
        Form::Perl,
        ":]",
        Some((Some(Kind::UnexpectedChar(':')), ":]")),
    ),
    (Form::Perl, "", None),
];

#[test]
fn properties_are_closed(rt: HostRuntime) {
    assert_rows(&rt, rt.alloc(), CLOSED);
}

const STOPPED_PROPERTIES: &[Stopped] = &[
    (
        Unit::Property,
        "[:=",
        Why::Fault(Kind::UnexpectedChar('='), 2),
    ),
    (
        Unit::Property,
        "[:=hello:]",
        Why::Fault(Kind::UnexpectedChar('='), 2),
    ),
    (
        Unit::Property,
        "[::]",
        Why::Fault(Kind::UnexpectedChar(':'), 2),
    ),
    (
        Unit::Property,
        "[:gc=:]",
        Why::Fault(Kind::UnexpectedChar(':'), 5),
    ),
    (
        Unit::Property,
        "[:L]",
        Why::Fault(Kind::UnexpectedChar(']'), 3),
    ),
    (
        Unit::Property,
        "[:]",
        Why::Fault(Kind::UnexpectedChar(']'), 2),
    ),
    (
        Unit::Property,
        "\\p {L}",
        Why::Fault(Kind::UnexpectedChar(' '), 2),
    ),
    (
        Unit::Property,
        "\\p{lower-case}",
        Why::Fault(Kind::UnexpectedChar('-'), 8),
    ),
    (Unit::Property, "[:", Why::Ended),
    (Unit::Property, "[:^", Why::Ended),
    (Unit::Property, "[:L", Why::Ended),
    (Unit::Property, "[:gc≠ ", Why::Ended),
    (Unit::Property, "\\", Why::Ended),
    (Unit::Property, "\\P", Why::Ended),
    (Unit::Property, "\\p{", Why::Ended),
    (Unit::Property, "\\p{a=b:", Why::Ended),
];

#[test]
fn a_fault_of_a_property_has_one_place(rt: HostRuntime) {
    assert_rows_of_list(&rt, rt.alloc(), SPACES, STOPPED_PROPERTIES);
}
