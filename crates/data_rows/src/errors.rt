//! How errors show themselves.
use crate::fixtures::assert_equal;
use cp_invlist::NoMemory;
use prop_data::{DataError, EmojiTable, LoadError, TableError, TableErrorKind, TableName};
use std::alloc::{AllocError, Global};

/// The kinds of faults and their names.
const KINDS: &[(TableErrorKind, &str)] = &[
    (TableErrorKind::UnknownLine, "UnknownLine"),
    (TableErrorKind::UnknownTable, "UnknownTable"),
    (TableErrorKind::TableTwice, "TableTwice"),
    (TableErrorKind::BadNumber, "BadNumber"),
    (TableErrorKind::TooLarge, "TooLarge"),
    (TableErrorKind::RangeOrder, "RangeOrder"),
    (TableErrorKind::ValueOutOfType, "ValueOutOfType"),
    (TableErrorKind::BadName, "BadName"),
    (TableErrorKind::NamesClash, "NamesClash"),
    (TableErrorKind::SyntaxAscii, "SyntaxAscii"),
    (TableErrorKind::ExtensionOrder, "ExtensionOrder"),
    (TableErrorKind::StringOfOne, "StringOfOne"),
    (TableErrorKind::StringTwice, "StringTwice"),
    (TableErrorKind::ExtensionMissing, "ExtensionMissing"),
    (TableErrorKind::NoEnd, "NoEnd"),
    (TableErrorKind::AfterEnd, "AfterEnd"),
];

/// Whether a text could be made, and is this.
fn is_text(made: Result<String, AllocError>, expected: &str) -> bool {
    match made {
        Ok(text) => text.as_str() == expected,
        Err(_) => false,
    }
}

/// What the kind shows.
fn shown_kind(alloc: Global, kind: TableErrorKind) -> Result<String, AllocError> {
    format!(in alloc; "{kind}")
}

#[test]
fn kinds_show_their_names(rt: HostRuntime) {
    for (kind, name) in KINDS {
        let shows = is_text(shown_kind(rt.alloc(), *kind), name);
        assert_equal(&rt, (kind.name(), shows), (*name, true));
    }
}

const ABSENT: DataError = DataError::Absent {
    table: TableName::Emoji(EmojiTable::BASIC_EMOJI),
};

/// What errors of data show.
fn shown_data_errors(alloc: Global) -> Result<String, AllocError> {
    format!(in alloc; "{ABSENT} {}", DataError::NoMemory)
}

#[test]
fn an_error_of_data_shows_its_name(rt: HostRuntime) {
    let shows = is_text(shown_data_errors(rt.alloc()), "Absent NoMemory");
    assert_equal(&rt, (shows, ABSENT != DataError::NoMemory), (true, true));
}

/// What errors of a table text show.
fn shown_errors(alloc: Global) -> Result<String, AllocError> {
    let fault = TableError {
        line: 7,
        kind: TableErrorKind::NoEnd,
    };
    format!(in alloc;
        "{fault} {} {}",
        LoadError::Table(fault),
        LoadError::NoMemory
    )
}

#[test]
fn errors_show_their_names(rt: HostRuntime) {
    let shows = is_text(shown_errors(rt.alloc()), "TableError Table NoMemory");
    let refused = LoadError::from(NoMemory);
    assert_equal(&rt, (shows, refused), (true, LoadError::NoMemory));
}
