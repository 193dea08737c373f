//! The faults of a table text.
ghost use Rattle.std.specs.Prelude.{◌≡◌};
ghost use Rattle.prop_data.specs.Loading.{error_at};

use cp_invlist::NoMemory;
use std::error::Error;
use std::fmt;
use thiserror::Error;

/// Which test of a line failed.
#[derive(Clone, Copy, Debug, Drop, PartialEq, Eq)]
pub enum TableErrorKind {
    /// The line is no header, no lone `end`, and no row of the table above it. Behind `end` no line is a row.
    UnknownLine,
    /// The header names no table of its kind.
    UnknownTable,
    /// An earlier header has the same word and name, as `ext` an equal index, or both are of `scx`.
    TableTwice,
    /// A number, range or string isn't spelled as it must be, or a number of a string is a surrogate.
    BadNumber,
    /// A code point is above 10FFFF, or the index of an extension list above 1023.
    TooLarge,
    /// A range's first code point is above its last, or not above the last of the range before it.
    RangeOrder,
    /// A value, a default or the script of a header isn't accepted by its property, or a number of `names`, `scx` or `ext` is
    /// above 65535.
    ValueOutOfType,
    /// A name has another character than ASCII letters, digits, `_` and `-`, or as a short name of a script is no four letters.
    BadName,
    /// In `names`, an earlier row has another value for a name that folds alike; in `long` and `short`, one has the same value.
    NamesClash,
    /// A syntax table holds an ASCII character that the pattern syntax needs.
    SyntaxAscii,
    /// The script of a row of an extension list isn't above that of the row before it.
    ExtensionOrder,
    /// A string of an emoji table has one character.
    StringOfOne,
    /// An earlier row of the emoji table is the same string.
    StringTwice,
    /// At `end`, a number of `scx` has no list of its kind at its index.
    ExtensionMissing,
    /// No line is `end`. The fault is told of the line behind the last.
    NoEnd,
    /// A header or another `end` stands behind `end`.
    AfterEnd,
}

impl TableErrorKind {
    ghost use Rattle.prop_data.specs.TableErrorKind.{kind_name};

    /// The name of the variant.
    pub fn name(self) -> &'static str
        ensures { result.now ≡ kind_name self }
    {
        match self {
            TableErrorKind::UnknownLine => "UnknownLine",
            TableErrorKind::UnknownTable => "UnknownTable",
            TableErrorKind::TableTwice => "TableTwice",
            TableErrorKind::BadNumber => "BadNumber",
            TableErrorKind::TooLarge => "TooLarge",
            TableErrorKind::RangeOrder => "RangeOrder",
            TableErrorKind::ValueOutOfType => "ValueOutOfType",
            TableErrorKind::BadName => "BadName",
            TableErrorKind::NamesClash => "NamesClash",
            TableErrorKind::SyntaxAscii => "SyntaxAscii",
            TableErrorKind::ExtensionOrder => "ExtensionOrder",
            TableErrorKind::StringOfOne => "StringOfOne",
            TableErrorKind::StringTwice => "StringTwice",
            TableErrorKind::ExtensionMissing => "ExtensionMissing",
            TableErrorKind::NoEnd => "NoEnd",
            TableErrorKind::AfterEnd => "AfterEnd",
        }
    }
}

impl fmt::Display for TableErrorKind {
    ghost use Rattle.std.specs.Prelude.{Some};
    ghost use Rattle.prop_data.specs.TableErrorKind.{kind_name};

    ghost output = { λ kind. Some (kind_name kind) };

    fn fmt<W: fmt::Write>(&self, f: &mut fmt::Formatter<W>) -> fmt::Result {
        f.write_str(self.name())
    }
}

impl Error for TableErrorKind {}

/// The first fault of a table text.
#[derive(Clone, Copy, Debug, Drop, PartialEq, Eq, Error)]
#[error("TableError")]
pub struct TableError {
    /// The line, counted from 1.
    pub line: usize,
    /// The first test that fails there.
    pub kind: TableErrorKind,
}

/// Why a table text gave no database.
#[derive(Clone, Copy, Debug, Drop, PartialEq, Eq, Error)]
pub enum LoadError {
    /// The text has a fault.
    #[error("Table")]
    Table(TableError),
    /// A request for memory was refused.
    #[error("NoMemory")]
    NoMemory,
}

impl From<NoMemory> for LoadError {
    ghost use Rattle.prop_data.specs.declared.error.LoadError.TheVariants.{NoMemory as OutOfMemory};

    ghost from_gives = { λ _ e. e ≡ OutOfMemory };

    fn from(_error: NoMemory) -> LoadError {
        LoadError::NoMemory
    }
}

/// Why a line is not taken.
pub(crate) enum LineError {
    /// The line has a fault.
    Fault(TableErrorKind),
    /// A request for memory was refused.
    NoMemory,
}

impl LineError {
    /// The error of the line with this number.
    pub(crate) fn at(self, line: usize) -> LoadError
        ensures { result ≡ error_at line self }
    {
        match self {
            LineError::Fault(kind) => LoadError::Table(TableError { line, kind }),
            LineError::NoMemory => LoadError::NoMemory,
        }
    }
}

impl From<NoMemory> for LineError {
    ghost use Rattle.prop_data.specs.declared.error.LineError.TheVariants.{NoMemory as OutOfMemory};

    ghost from_gives = { λ _ e. e ≡ OutOfMemory };

    fn from(_error: NoMemory) -> LineError {
        LineError::NoMemory
    }
}

impl From<TableErrorKind> for LineError {
    ghost use Rattle.prop_data.specs.declared.error.LineError.TheVariants.{Fault};

    ghost from_gives = { λ kind e. e ≡ Fault kind };

    fn from(kind: TableErrorKind) -> LineError {
        LineError::Fault(kind)
    }
}
