//! Code points, surrogates among them.
ghost use Rattle.std.specs.Prelude.{◌≤◌};

use cp_invlist::CodePointRange;

/// A code point.
#[derive(Clone, Copy)]
pub(crate) struct CodePoint {
    number: u32,
    ghost within: { number ≤ 0x10_FFFF },
}

impl CodePoint {
    ghost use Rattle.std.specs.Prelude.{◌≡◌, ◌≤◌};
    ghost use Rattle.uset_grammar.specs.Fault.{as_character};
    ghost use Rattle.uset_reader.specs.Items.{number_of};

    /// The code point of the number.
    pub(crate) fn from_number(number: u32) -> CodePoint
        requires { number ≤ 0x10_FFFF }
        ensures { number_of result ≡ number }
    {
        CodePoint { number }
    }

    /// The code point of the character.
    pub(crate) fn from_char(c: char) -> CodePoint
        ensures { number_of result ≡ c }
    {
        CodePoint { number: c as u32 }
    }

    /// The number of the code point.
    pub(crate) fn number(self) -> u32
        ensures value { result ≡ number_of self }
        ensures bound { result ≤ 0x10_FFFF }
    {
        self.number
    }

    /// The range of the code point alone.
    pub(crate) fn range(self) -> CodePointRange
        ensures start { result.start ≡ number_of self }
        ensures end { result.end ≡ number_of self }
        ensures bound { result.end ≤ 0x10_FFFF }
    {
        CodePointRange {
            start: self.number,
            end: self.number,
        }
    }

    /// The code point as a character, U+FFFD for a surrogate.
    #[tactic(auto, unfolding(uset_grammar::specs::Escape::is_surrogate))]
    pub(crate) fn as_character(self) -> char
        ensures { result ≡ as_character (number_of self) }
    {
        char::from_u32(self.number).unwrap_or(char::REPLACEMENT_CHARACTER)
    }
}
