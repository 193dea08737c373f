//! Tests of the readers of units, of what brackets gather and properties resolve to, of faults, of variables and of the calls
//! that read a source. They stand here so that a change of a test proves no reader anew, and no reader is proved a second
//! time with its tests.
#![tactic(auto)]

#[cfg(test)]
mod calls;
#[cfg(test)]
mod example;
#[cfg(test)]
mod fixtures;
#[cfg(test)]
mod gathered;
#[cfg(test)]
mod kept;
#[cfg(test)]
mod patterns;
#[cfg(test)]
mod resolved;
#[cfg(test)]
mod shown;
#[cfg(test)]
mod terms;
#[cfg(test)]
mod units;
#[cfg(test)]
mod variables;
