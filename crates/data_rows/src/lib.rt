//! Tests of lines, table texts and the database, over the crates that these stand on: they stand here so that a change of a test
//! proves none of them anew, and none of them is proved a second time with its tests.
#![tactic(auto)]

#[cfg(test)]
mod counts;
#[cfg(test)]
mod emoji;
#[cfg(test)]
mod errors;
#[cfg(test)]
mod fixtures;
#[cfg(test)]
mod lines;
#[cfg(test)]
mod maps;
#[cfg(test)]
mod names;
#[cfg(test)]
mod names_built;
#[cfg(test)]
mod names_tables;
#[cfg(test)]
mod nearest;
#[cfg(test)]
mod scripts;
#[cfg(test)]
mod sets;
#[cfg(test)]
mod structure;
#[cfg(test)]
mod texts;
