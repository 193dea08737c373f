//! Tests of maps.
mod converted;
mod errors;
pub(crate) mod fixtures;
mod numbers;
mod pages;
mod runs;
mod steps;
mod values;
