//! A line of a table text, by its fields.
ghost use Rattle.std.specs.Prelude.{◌≡◌};
ghost use Rattle.text_lines.specs.Fields.{fields};
ghost use Rattle.std.specs.Option.{option_copied};
ghost use Rattle.prop_data.specs.Line.{line_of, header_of_two, header_of_three, line_without_word};
ghost use Rattle.prop_data.specs.Loading.{line_seen};

use crate::load::Length;
use crate::table::TableKind;
use text_lines::{before_comment, split_field};

/// The header of a table, by the fields behind its word.
#[derive(Clone, Copy)]
pub(crate) enum Header<'a> {
    /// `set NAME`
    Set {
        name: &'a [u8],
    },
    /// `map NAME DEFAULT`
    Map {
        name: &'a [u8],
        default: &'a [u8],
    },
    /// `names NAME`
    Names {
        name: &'a [u8],
    },
    /// `long NAME`, or `short NAME`
    Texts {
        length: Length,
        name: &'a [u8],
    },
    /// `emoji NAME`
    Emoji {
        name: &'a [u8],
    },
    /// `scx DEFAULT`
    Scripts {
        default: &'a [u8],
    },
    /// `ext INDEX`, or `ext INDEX SCRIPT`
    Extensions {
        index: &'a [u8],
        script: Option<&'a [u8]>,
    },
}

/// The one or two fields of a row.
#[derive(Clone, Copy)]
pub(crate) struct Row<'a> {
    pub(crate) first: &'a [u8],
    pub(crate) second: Option<&'a [u8]>,
}

/// What a line is, whatever stands above it.
#[derive(Clone, Copy)]
pub(crate) enum Line<'a> {
    /// A line without fields.
    Blank,
    Header(Header<'a>),
    /// One field, or two, the first neither a header word nor `end`.
    Row(Row<'a>),
    /// `end` alone.
    Closing,
    /// Anything else.
    Other,
}

/// The word that closes a text.
const END: &[u8] = b"end";

/// The header of a kind with one field behind its word.
fn header_of_two(kind: TableKind, field: &[u8]) -> Line<'_>
    ensures { line_seen result ≡ header_of_two kind field.now }
{
    let header = match kind {
        TableKind::Set => Header::Set { name: field },
        TableKind::Map => return Line::Other,
        TableKind::Names => Header::Names { name: field },
        TableKind::Long => Header::Texts {
            length: Length::Long,
            name: field,
        },
        TableKind::Short => Header::Texts {
            length: Length::Short,
            name: field,
        },
        TableKind::Scripts => Header::Scripts { default: field },
        TableKind::Extensions => Header::Extensions {
            index: field,
            script: None,
        },
        TableKind::Emoji => Header::Emoji { name: field },
    };
    Line::Header(header)
}

/// The header of a kind with two fields behind its word.
fn header_of_three<'a>(kind: TableKind, second: &'a [u8], third: &'a [u8]) -> Line<'a>
    ensures { line_seen result ≡ header_of_three kind second.now third.now }
{
    match kind {
        TableKind::Map => Line::Header(Header::Map {
            name: second,
            default: third,
        }),
        TableKind::Extensions => Line::Header(Header::Extensions {
            index: second,
            script: Some(third),
        }),
        _ => Line::Other,
    }
}

/// A line of one field, or of two, the first no word of a header: a row, or `end` alone.
fn line_without_word<'a>(first: &'a [u8], second: Option<&'a [u8]>) -> Line<'a>
    ensures { line_seen result ≡ line_without_word first.now (option_copied second.entry) }
{
    if first != END {
        Line::Row(Row { first, second })
    } else if second.is_none() {
        Line::Closing
    } else {
        Line::Other
    }
}

/// Reads a line's fields.
pub(crate) fn read_line(line: &[u8]) -> Line<'_>
    ensures { line_seen result ≡ line_of (fields line.now) }
{
    let Some((first, rest)) = split_field(before_comment(line)) else {
        return Line::Blank;
    };
    let kind = TableKind::from_word(first);
    let Some((second, rest)) = split_field(rest) else {
        return match kind {
            Some(_) => Line::Other,
            None => line_without_word(first, None),
        };
    };
    let Some((third, rest)) = split_field(rest) else {
        return match kind {
            Some(kind) => header_of_two(kind, second),
            None => line_without_word(first, Some(second)),
        };
    };
    if split_field(rest).is_some() {
        return Line::Other;
    }
    match kind {
        Some(kind) => header_of_three(kind, second, third),
        None => Line::Other,
    }
}
