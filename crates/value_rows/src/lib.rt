//! Tests of maps from code points and of the property types that are their values, over the crates that declare them:
//! they stand here so that a change of a test proves no map and no type anew, and neither is proved a second time with
//! tests.
#![tactic(auto)]

#[cfg(test)]
mod binary;
#[cfg(test)]
mod bounds;
#[cfg(test)]
mod fixtures;
#[cfg(test)]
mod maps;
#[cfg(test)]
mod names;
#[cfg(test)]
mod values;
