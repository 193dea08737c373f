//! A place in a source.
ghost use Rattle.std.specs.Prelude.{◌≡◌, ◌<◌, ◌≤◌, ◌+◌, length, encode_utf8_all};
ghost use Rattle.std.specs.Str.{chars};

/// A source, and what is left of it to read.
#[derive(Clone, Copy, Drop)]
pub struct Cursor<'a> {
    source: &'a str,
    rest: &'a str,
    ghost within: { length rest.now ≤ length source.now },
    ghost source_text: { encode_utf8_all (chars source.now) ≡ source.now },
    ghost rest_text: { encode_utf8_all (chars rest.now) ≡ rest.now },
}

impl<'a> Cursor<'a> {
    ghost use Rattle.uset_grammar.specs.Place.{size};
    ghost use Rattle.uset_read.specs.Cursors.{source_of, left_of, IsPlace, IsLastPlace};

    /// The cursor in front of the whole source.
    pub fn new(source: &'a str) -> Cursor<'a>
        ensures source { source_of result ≡ source.now }
        ensures left { left_of result ≡ source.now }
    {
        Cursor {
            source,
            rest: source,
        }
    }

    /// What is left to read.
    pub fn rest(&self) -> &'a str
        ensures { result.now ≡ left_of self.now }
    {
        self.rest
    }

    /// The cursor in front of a rest that is further on.
    pub fn at(&self, rest: &'a str) -> Cursor<'a>
        requires { length rest.now ≤ length (left_of self.now) }
        ensures source { source_of result ≡ source_of self.now }
        ensures left { left_of result ≡ rest.now }
    {
        Cursor {
            source: self.source,
            rest,
        }
    }

    /// The number of bytes of the source before what is left.
    pub fn offset(&self) -> usize
        ensures bytes { result + length (left_of self.now) ≡ length (source_of self.now) }
        ensures rest { result + size (chars (left_of self.now)) ≡ length (source_of self.now) }
        ensures place { IsPlace result self.now }
    {
        self.source.len() - self.rest.len()
    }

    /// The number of bytes of the source before the last character in front of what is left. There is one.
    pub fn last_offset(&self) -> usize
        requires { length (left_of self.now) < length (source_of self.now) }
        ensures { IsLastPlace result self.now }
    {
        self.source.floor_char_boundary(self.offset() - 1)
    }
}
