//! Inputs that are refused.
use crate::fixtures::{assert_equal, assert_holds, is_answered, is_evaluated};
use std::alloc::{AllocError, Global};

/// Inputs, with the answer and the number of the status.
const REFUSED: &[(&[u8], &str, u8)] = &[
    (
        b"# own\nset Pattern_White_Space\n41\nend\n",
        "tables line 3: SyntaxAscii\n",
        3,
    ),
    (b"", "tables line 1: NoEnd\n", 3),
    (b"\xFF", "input is not UTF-8\n", 7),
    (b"end\npat [a]\n", "err error: internal error\n", 1),
];

/// Whether the input has this answer, and the run over it ends with the status of this number.
fn is_refused(alloc: Global, input: &[u8], expected: &str, code: u8) -> Result<bool, AllocError> {
    is_evaluated(alloc, input.to_vec(alloc)?, expected, code)
}

#[test]
fn inputs_are_refused_with_their_cause(rt: HostRuntime) {
    for (input, expected, code) in REFUSED {
        let holds = is_refused(rt.alloc(), input, expected, *code);
        assert_holds(&rt, holds, "an input", expected);
    }
}

/// Whether an input of so many bytes, a comment, has this answer and the status of this number.
fn comment_ends(
    alloc: Global,
    length: usize,
    expected: &str,
    code: u8,
) -> Result<bool, AllocError> {
    is_evaluated(alloc, vec![in alloc; b'#'; length]?, expected, code)
}

/// Lengths of comments, up to the limit and past it, each with its answer and the number of its status.
const LENGTHS: &[(usize, &str, u8)] = &[
    (8_388_608, "tables line 2: NoEnd\n", 3),
    (8_388_609, "input is too long\n", 8),
];

#[test]
fn an_input_past_the_limit_is_too_long(rt: HostRuntime) {
    for (length, expected, code) in LENGTHS {
        let holds = comment_ends(rt.alloc(), *length, expected, *code);
        assert_holds(&rt, holds, "a comment", expected);
    }
}

/// Whether no words are answered with the usage.
fn no_words_end(alloc: Global) -> Result<bool, AllocError> {
    let input = b"end\n".to_vec(alloc)?;
    let none = Vec::new(alloc);
    Ok(is_answered(alloc, &none, input, "usage: uset COMMAND\n", 2))
}

#[test]
fn no_words_are_answered_with_the_usage(rt: HostRuntime) {
    assert_equal(&rt, no_words_end(rt.alloc()), Ok(true));
}
