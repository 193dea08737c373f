//! How errors show themselves.
use crate::fixtures::assert_equal;
use cp_trie::{ConvertError, TrieError, ValueError};
use std::alloc::{AllocError, Global};

/// An error of one of the types.
#[derive(Clone, Copy)]
enum Shown {
    Value(ValueError),
    Runs(TrieError),
    Conversion(ConvertError),
}

/// Errors, and the names that they show.
const SHOWN: &[(Shown, &str)] = &[
    (Shown::Value(ValueError { value: 7 }), "ValueError"),
    (Shown::Runs(TrieError::Gap { index: 7 }), "Gap"),
    (Shown::Runs(TrieError::Order { index: 7 }), "Order"),
    (Shown::Runs(TrieError::NoMemory), "NoMemory"),
    (Shown::Conversion(ConvertError::Value { index: 7 }), "Value"),
    (Shown::Conversion(ConvertError::NoMemory), "NoMemory"),
];

fn text_of(alloc: Global, shown: Shown) -> Result<String, AllocError> {
    match shown {
        Shown::Value(error) => format!(in alloc; "{error}"),
        Shown::Runs(error) => format!(in alloc; "{error}"),
        Shown::Conversion(error) => format!(in alloc; "{error}"),
    }
}

#[test]
fn errors_show_their_names(rt: HostRuntime) -> Result<(), AllocError> {
    for (shown, name) in SHOWN {
        let text = text_of(rt.alloc(), *shown)?;
        assert_equal(&rt, text.as_str(), name);
    }
    Ok(())
}
