//! Ranges and strings that may be gathered.
ghost use Rattle.std.specs.Prelude.{◌≡◌, ◌≤◌, None};
ghost use Rattle.std.specs.Str.{chars};
ghost use Rattle.std.specs.String.{string_bytes};
ghost use Rattle.cp_strset.specs.StringList.{sole_of};

use cp_invlist::CodePointRange;

/// A range of code points.
#[derive(Clone, Copy)]
pub(crate) struct Span {
    pub(crate) range: CodePointRange,
    ghost within: { range.end ≤ 0x10_FFFF },
}

impl Span {
    ghost use Rattle.std.specs.Prelude.{◌≡◌, ◌≤◌};

    pub(crate) fn new(range: CodePointRange) -> Span
        requires { range.end ≤ 0x10_FFFF }
        ensures { result.range ≡ range }
    {
        Span { range }
    }
}

/// A string that isn't one character.
#[derive(Drop)]
pub(crate) struct Spelled {
    pub(crate) text: String,
    ghost proper: { sole_of (chars (string_bytes text)) ≡ None },
}

impl Spelled {
    ghost use Rattle.std.specs.Prelude.{◌≡◌, None};
    ghost use Rattle.std.specs.Str.{chars};
    ghost use Rattle.std.specs.String.{string_bytes};
    ghost use Rattle.cp_strset.specs.StringList.{sole_of};

    pub(crate) fn new(text: String) -> Spelled
        requires { sole_of (chars (string_bytes text)) ≡ None }
        ensures { string_bytes result.text ≡ string_bytes text }
    {
        Spelled { text }
    }
}
