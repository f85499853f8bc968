//! Tests of the program where what is outside it fails at one call, which no row of `rows/` reaches.
//!
//! They stand above the crates that they try, since a crate with tests is proved twice.
#![tactic(auto)]

#[cfg(test)]
mod failing;
#[cfg(test)]
mod knocks;
#[cfg(test)]
mod running;
