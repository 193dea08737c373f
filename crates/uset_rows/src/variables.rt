//! Lines that bind variables.
use crate::fixtures::{assert_answers, assert_equal, assert_holds, have_answer};
use std::alloc::{AllocError, Global};

/// Scripts whose every line is answered.
const BOUND: &[(&str, &str)] = &[
    ("let a char 61\npat [$a]", "bound a\nok 4 0061\n"),
    ("let a char 000061\npat [$a-c]", "bound a\nok 6 0061-0063\n"),
    ("let a char 10FFFF\npat [$a]", "bound a\nok 4 10FFFF\n"),
    (
        "let a char d7ff\nlet b char E000\npat [$a-$b]",
        "bound a\nbound b\nok 7 D7FF-E000\n",
    ),
    ("let a str\npat [$a]", "bound a\nok 4 {}\n"),
    ("let a str 61\npat [$a-c]", "bound a\nok 6 0061-0063\n"),
    (
        "let a str 61 0062 10ffff\npat [$a$a]",
        "bound a\nok 6 {0061_0062_10FFFF}\n",
    ),
    (
        "let a set [b-c{de}]\npat $a$a\npat [^$a]\npat [$a-[b]]",
        "bound a\nok 2 0062-0063 {0064_0065}\nok 5 0000-0061 0064-10FFFF\nok 8 0063 {0064_0065}\n",
    ),
    (
        "let a char 61\nlet b set [$a-c]\nlet c set $b\npat $c x",
        "bound a\nbound b\nbound c\nok 2 0061-0063\n",
    ),
    (
        "let a char 61\nlet ab char 62\npat [$a]\npat [$ab]\npat [$a b]",
        "bound a\nbound ab\nok 4 0061\nok 5 0062\nok 6 0061-0062\n",
    ),
    (
        "let A char 61\nlet a char 62\npat [$A-$a]",
        "bound A\nbound a\nok 7 0061-0062\n",
    ),
    (
        "let ä char 61\nlet $ char 62\nlet 1 str\npat [$]",
        "bound ä\nbound $\nbound 1\nok 3 FFFF\n",
    ),
    (
        "let let char 61\nlet char str 62\nlet set set []\npat [$let$char$set]",
        "bound let\nbound char\nbound set\nok 15 0061-0062\n",
    ),
    ("let s_1 char 61\npat [$s_1]", "bound s_1\nok 6 0061\n"),
];

/// Scripts with refused lines, which bind nothing.
const REFUSED: &[(&str, &str)] = &[
    (
        "let a char 61\nlet set set [a-z {Hello,\\ World!}]\npat [$set-[b-z]]\npat [$a-$set]",
        "bound a\nbound set\nok 12 0061 {0048_0065_006C_006C_006F_002C_0020_0057_006F_0072_006C_0064_0021}\nerr [$a-$set← error: unexpected variable\n",
    ),
    (
        "let a char 61\nlet a char 62\nlet b set [a]x\nnonsense\npat [$a]\npat [$b]",
        "bound a\nerr a is bound\nerr text after the set at byte 3\nerr bad line\nok 4 0061\nerr [$b← error: unknown variable\n",
    ),
    (
        "let a char 61\npat [z-$a]\npat [$ a]",
        "bound a\nerr [z-$a← error: unexpected character 'a'\nerr [$ a← error: unexpected character 'a'\n",
    ),
    ("let t set [a-b]x", "err text after the set at byte 5\n"),
    ("let t set [ä] ", "err text after the set at byte 4\n"),
    (
        "let a str 61 62\nlet a str\nlet a set [\nlet a set [b]x\npat [$a]",
        "bound a\nerr a is bound\nerr a is bound\nerr a is bound\nok 4 {0061_0062}\n",
    ),
    (
        "let a char 61\nlet a char\nlet a str zz\nlet a",
        "bound a\nerr bad line\nerr bad line\nerr bad line\n",
    ),
    (
        "let a set \nlet a set [b\nlet a set [z-y]\nlet a set $b\npat [$a]\nlet a set [b]\npat $a",
        "err ← error: unexpected end of input\nerr [b← error: unexpected end of input\nerr [z-y← error: unexpected character 'y'\nerr $b← error: unknown variable\nerr [$a← error: unknown variable\nbound a\nok 2 0062\n",
    ),
    (
        "let b set [$b]\nlet b set [b-$b]",
        "err [$b← error: unknown variable\nerr [b-$b← error: unknown variable\n",
    ),
];

/// Lines that have no form.
const BAD: &[&str] = &[
    "let",
    "let ",
    "let a",
    "let a ",
    "let  char 61",
    "let  a char 61",
    "let a  char 61",
    "let a char",
    "let a char ",
    "let a char  61",
    "let a char 61 ",
    "let a char 61 62",
    "let a char 6g",
    "let a char +61",
    "let a char U+61",
    "let a char 0x61",
    "let a char 0000061",
    "let a char 110000",
    "let a char D800",
    "let a char DFFF",
    "let a char ffffff",
    "let a char\t61",
    "let a str ",
    "let a str  61",
    "let a str61",
    "let a str 61  62",
    "let a str 61 ",
    "let a str D800",
    "let a str 61 DFFF",
    "let a str 0000061",
    "let a str 110000",
    "let a str x",
    "let a set",
    "let a sets [b]",
    "let a Char 61",
    "let a 61",
    "let\ta char 61",
    "Let a char 61",
    " let a char 61",
    "pat",
    "pat\t[a]",
    " pat [a]",
    "Pat [a]",
    "nonsense",
    " ",
    " # no comment",
    "letters",
    "hello",
];

/// The answers to such a line, which binds nothing, and to a pattern that names a variable.
const BAD_LINE: &str = "err bad line\nerr [$a← error: unknown variable\n";

/// Whether the line is refused, and binds nothing.
fn is_bad(alloc: Global, line: &str) -> Result<bool, AllocError> {
    let lines = format!(in alloc; "{line}\npat [$a]")?;
    have_answer(alloc, &lines, BAD_LINE, 1)
}

#[test]
fn names_are_bound_once_by_lines_of_their_form(rt: HostRuntime) {
    assert_answers(&rt, rt.alloc(), BOUND, 0);
    assert_answers(&rt, rt.alloc(), REFUSED, 1);
    for line in BAD {
        let holds = is_bad(rt.alloc(), line);
        assert_holds(&rt, holds, line, BAD_LINE);
    }
}

/// The answers to lines that bind the set of every second letter, that join it a thousand times, alone and to all other
/// code points, and that take it away from the letters as often.
const OF_EVERY_SECOND: &str =
    "bound s\nok 2002 0061 0063 0065 0067 0069 006B 006D 006F 0071 0073 0075 0077 0079\nok 2007 0000-10FFFF\nok 3007 0062 0064 0066 0068 006A 006C 006E 0070 0072 0074 0076 0078 007A\n";

/// Whether a set that is joined or taken away a thousand times counts once.
fn counts_once(alloc: Global) -> Result<bool, AllocError> {
    let joined = "$s".repeat(alloc, 1_000)?;
    let removed = "-$s".repeat(alloc, 1_000)?;
    let lines = format!(in alloc;
        "let s set [acegikmoqsuwy]\npat [{joined}]\npat [[^$s]{joined}]\npat [[a-z]{removed}]"
    )?;
    have_answer(alloc, &lines, OF_EVERY_SECOND, 0)
}

#[test]
fn a_set_that_is_joined_or_taken_away_a_thousand_times_counts_once(rt: HostRuntime) {
    assert_equal(&rt, counts_once(rt.alloc()), Ok(true));
}
