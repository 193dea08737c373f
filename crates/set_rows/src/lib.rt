//! Tests of sets of code points, of sets with strings and of set expressions over both, over the crates that declare them:
//! they stand here so that a change of a test proves no set and no expression anew, and neither is proved a second time
//! with tests.
#![tactic(auto)]

#[cfg(test)]
mod built;
#[cfg(test)]
mod counted;
#[cfg(test)]
mod errors;
#[cfg(test)]
mod fixtures;
#[cfg(test)]
mod indexed;
#[cfg(test)]
mod indexed_terms;
#[cfg(test)]
mod lists;
#[cfg(test)]
mod numbered_terms;
#[cfg(test)]
mod string_terms;
#[cfg(test)]
mod strings;
#[cfg(test)]
mod terms;
