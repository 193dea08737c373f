//! Tests of queries over a database. They stand here so that a change of a test proves no query anew, and no query is
//! proved a second time with its tests.
#![tactic(auto)]

#[cfg(test)]
mod emoji;
#[cfg(test)]
mod example;
#[cfg(test)]
mod fixtures;
#[cfg(test)]
mod free;
#[cfg(test)]
mod maps;
#[cfg(test)]
mod names;
#[cfg(test)]
mod scripts;
#[cfg(test)]
mod sets;
#[cfg(test)]
mod steps;
