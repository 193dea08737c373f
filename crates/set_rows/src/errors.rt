//! The texts that errors show.
use crate::fixtures::assert_equal;
use cp_invlist::{InversionListError, NoMemory};
use cp_strset::StringListError;
use std::alloc::{AllocError, Global};

/// An error of one of the types.
#[derive(Clone, Copy)]
enum Shown {
    NoMemory(NoMemory),
    List(InversionListError),
    Strings(StringListError),
}

/// Errors, and the names that they show.
const SHOWN: &[(Shown, &str)] = &[
    (Shown::NoMemory(NoMemory), "NoMemory"),
    (
        Shown::List(InversionListError::Invalid { index: 7 }),
        "Invalid",
    ),
    (Shown::List(InversionListError::NoMemory), "NoMemory"),
    (
        Shown::Strings(StringListError::NotUnique { index: 7 }),
        "NotUnique",
    ),
    (
        Shown::Strings(StringListError::NotSorted { index: 7 }),
        "NotSorted",
    ),
    (
        Shown::Strings(StringListError::StringOfOne { index: 7 }),
        "StringOfOne",
    ),
];

fn text_of(alloc: Global, shown: Shown) -> Result<String, AllocError> {
    match shown {
        Shown::NoMemory(error) => format!(in alloc; "{error}"),
        Shown::List(error) => format!(in alloc; "{error}"),
        Shown::Strings(error) => format!(in alloc; "{error}"),
    }
}

#[test]
fn errors_show_their_names(rt: HostRuntime) -> Result<(), AllocError> {
    for (shown, name) in SHOWN {
        let text = text_of(rt.alloc(), *shown)?;
        assert_equal(&rt, text.as_str(), name);
    }
    Ok(())
}
