//! Subtags of scripts.
ghost use Rattle.std.specs.Prelude.{◌≡◌, ◌↔◌, true, IsSome, IfSome};
ghost use Rattle.prop_values.specs.Subtag.{is_four_letters, in_subtag_case, IsSubtag};

use std::marker::Model;
use std::str;

/// The subtag of a script in a language tag (RFC 5646, section 2.2.3): four ASCII letters, the first upper-case and the
/// others lower-case, as ISO 15924 writes them. A contract sees it as those letters.
#[derive(Clone, Copy, Debug, PartialEq, Eq)]
pub struct Subtag {
    letters: [u8; 4],
}

impl Model for Subtag {
    ghost use Rattle.std.specs.Prelude.{ℕ, List};
    ghost use Rattle.prop_values.specs.Subtag.{IsSubtag};

    ghost Value = { List ℕ };

    ghost view = { λ subtag. subtag.letters };

    ghost invariant = { λ subtag. IsSubtag subtag.letters };

    ghost inverse = { λ letters. record { letters = letters } };
}

impl Subtag {
    /// The subtag of these letters, which are brought to its case. It is none exactly where the text is not four
    /// ASCII letters.
    pub fn try_from_str(s: &str) -> Option<Subtag>
        ensures some { IsSome result ↔ (is_four_letters s.now ≡ true) }
        ensures letters { IfSome result (λ tag. tag ≡ in_subtag_case s.now) }
    {
        let [a, b, c, d] = s.as_bytes() else {
            return None;
        };
        let letters = [*a, *b, *c, *d];
        if !is_letters(letters) {
            return None;
        }
        Some(Subtag {
            letters: [
                a.to_ascii_uppercase(),
                b.to_ascii_lowercase(),
                c.to_ascii_lowercase(),
                d.to_ascii_lowercase(),
            ],
        })
    }

    /// The letters.
    pub fn as_str(&self) -> &str
        ensures text { result.now ≡ self.now }
        ensures subtag { IsSubtag result.now }
    {
        str::from_utf8(&self.letters).unwrap()
    }
}

/// Whether all four bytes are ASCII letters.
fn is_letters(letters: [u8; 4]) -> bool
    ensures { result ≡ is_four_letters letters }
{
    let [a, b, c, d] = letters;
    a.is_ascii_alphabetic()
        && b.is_ascii_alphabetic()
        && c.is_ascii_alphabetic()
        && d.is_ascii_alphabetic()
}
