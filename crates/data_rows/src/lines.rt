//! Lines of a text, the fields of a line, and numbers as fields spell them.
use crate::fixtures::assert_equal;
use text_lines::{before_comment, decimal_number, hex, split_behind, split_field};

/// Lines, their first fields and what stands behind these.
const FIELDS: &[(&[u8], Option<(&[u8], &[u8])>)] = &[
    (b"a", Some((b"a", b""))),
    (b" \tab c ", Some((b"ab", b" c "))),
    (b"a\tb", Some((b"a", b"\tb"))),
    (b"a\r", Some((b"a\r", b""))),
    (b"a#b", Some((b"a#b", b""))),
    (b"", None),
    (b" \t ", None),
];

#[test]
fn fields_are_split(rt: HostRuntime) {
    for (line, parts) in FIELDS {
        assert_equal(&rt, (*line, split_field(line)), (*line, *parts));
    }
}

/// Lines, and what of them is no comment.
const COMMENTS: &[(&[u8], &[u8])] = &[
    (b"a b", b"a b"),
    (b"a #b # c", b"a "),
    (b"a#b", b"a"),
    (b"#", b""),
    (b"", b""),
];

#[test]
fn a_comment_is_left_out(rt: HostRuntime) {
    for (line, rest) in COMMENTS {
        assert_equal(&rt, (*line, before_comment(line)), (*line, *rest));
    }
}

/// Texts, cut behind their first line that is `end`.
const PARTS: &[(&str, (&str, &str))] = &[
    ("a\nend\nb\n", ("a\nend\n", "b\n")),
    ("end", ("end", "")),
    ("a\r\n end\t# b\r\nend\n", ("a\r\n end\t# b\r\n", "end\n")),
    ("a\nend b\nends\n#end\n", ("a\nend b\nends\n#end\n", "")),
    ("end b\nb end\nend#\nc", ("end b\nb end\nend#\n", "c")),
    ("END\n", ("END\n", "")),
    ("end\r\nb", ("end\r\n", "b")),
    ("a\rend\n", ("a\rend\n", "")),
    ("end\r\r\nb", ("end\r\r\nb", "")),
    ("\n\nend\n\nb", ("\n\nend\n", "\nb")),
    (
        "end\u{85}\nend\u{2028}\nend",
        ("end\u{85}\nend\u{2028}\nend", ""),
    ),
    ("", ("", "")),
];

#[test]
fn a_text_is_cut_behind_a_word(rt: HostRuntime) {
    for (text, parts) in PARTS {
        assert_equal(&rt, (*text, split_behind(text, b"end")), (*text, *parts));
    }
}

/// Bytes, with the number that they spell as hexadecimal digits and the one that they spell as decimal digits.
const NUMBERS: &[(&[u8], Option<u32>, Option<u64>)] = &[
    (b"0", Some(0), Some(0)),
    (b"41", Some(0x41), Some(41)),
    (b"10FfFf", Some(0x10_FFFF), None),
    (b"000041", Some(0x41), Some(41)),
    (b"FFFFFF", Some(0xFF_FFFF), None),
    (b"0000041", None, Some(41)),
    (b"9999999999", None, Some(9_999_999_999)),
    (b"00000000041", None, None),
    (b"4G", None, None),
    (b"+1", None, None),
    (b"1 ", None, None),
    (b"", None, None),
];

#[test]
fn digits_spell_numbers(rt: HostRuntime) {
    for (digits, hexadecimal, decimal) in NUMBERS {
        let numbers = (*digits, hex(digits), decimal_number(digits));
        assert_equal(&rt, numbers, (*digits, *hexadecimal, *decimal));
    }
}
