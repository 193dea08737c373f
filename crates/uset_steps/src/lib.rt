//! The steps of a bracket (UTS 35, Unicode Sets). From the first large set with a name on they are put off until the bracket's
//! set is needed, or about 8 MB of named sets and inner brackets are kept. So a set that is named again and again is gathered
//! once or twice, which is measured and said by no clause.
#![tactic(auto)]

mod closed;
mod composing;
mod counting;
mod gathering;
mod growing;
mod later;
mod literal;
mod name;
mod named_set;
mod numbering;
mod places;
mod step;
mod term;

pub use closed::Closed;
pub use gathering::{Gathering, Place};
pub use name::Name;
pub use named_set::{Named, NamedSet};
pub use numbering::{NumberedTerm, TermSet};
pub use step::Operation;
pub use term::Term;
