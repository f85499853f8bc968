//! Tests of the heap, of runs and of values made of data that no row of `rows/` reaches.
//!
//! They stand above the crates that they try, since a crate with tests is proved twice.
#![tactic(auto)]

#[cfg(test)]
mod convert;
#[cfg(test)]
mod heap;
#[cfg(test)]
mod memory;
#[cfg(test)]
mod runs;
#[cfg(test)]
mod slices;
