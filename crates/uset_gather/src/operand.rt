//! What is joined, taken away or kept.
use crate::gathered::Gathered;
use cp_invlist::CodePointInversionList;
use cp_strset::CodePointInversionListAndStringList;
use std::rc::Rc;

/// A set that is joined, taken away or kept.
#[derive(Drop)]
pub enum Operand<'a> {
    /// What another bracket gathered.
    Gathered(Gathered),
    /// A set with strings.
    Set(&'a CodePointInversionListAndStringList),
    /// These code points, and no strings.
    CodePoints(Source<'a>),
    /// The other code points, and no strings.
    Complement(Source<'a>),
}

/// The code points of a property.
pub enum Source<'a> {
    /// Those of a set that stands elsewhere.
    Lent(&'a CodePointInversionList),
    /// Those of a set that was made for a property, wherever it is named.
    Shared(Rc<CodePointInversionList>),
}

// By hand, so that letting a value go is one call in each proof.
impl Drop for Source<'_> {
    fn drop(self) {
        match self {
            Source::Lent(_) => {}
            Source::Shared(_) => {}
        }
    }
}

impl Source<'_> {
    ghost use Rattle.std.specs.Prelude.{◌≡◌};
    ghost use Rattle.uset_gather.specs.Gathered.{list_in};

    /// The list of the code points.
    pub fn list(&self) -> &CodePointInversionList
        ensures { result.now ≡ list_in self.now }
    {
        match self {
            Source::Lent(list) => list,
            Source::Shared(list) => list.as_ref(),
        }
    }
}
