//! The texts that errors of devices show.
use crate::fixtures::assert_equal;
use std::alloc::{AllocError, Global};
use uset_tool::{Failed, WriteError};

/// An error of one of the types.
#[derive(Clone, Copy)]
enum Shown {
    Failed(Failed),
    Write(WriteError),
}

/// Errors, and the names that they show.
const SHOWN: &[(Shown, &str)] = &[
    (Shown::Failed(Failed), "Failed"),
    (Shown::Write(WriteError::Failed), "Failed"),
    (Shown::Write(WriteError::NoMemory), "NoMemory"),
];

fn text_of(alloc: Global, shown: Shown) -> Result<String, AllocError> {
    match shown {
        Shown::Failed(error) => format!(in alloc; "{error}"),
        Shown::Write(error) => format!(in alloc; "{error}"),
    }
}

#[test]
fn errors_show_their_names(rt: HostRuntime) -> Result<(), AllocError> {
    for (shown, name) in SHOWN {
        let text = text_of(rt.alloc(), *shown)?;
        assert_equal(&rt, text.as_str(), name);
    }
    Ok(())
}
