//! Tests of values, data, trees, the outside in memory and the real one, tables, logs and requests that no row of `rows/` reaches.
//!
//! They stand above the crates that they try, since a crate with tests is proved twice.
#![tactic(auto)]

#[cfg(test)]
mod data;
#[cfg(test)]
mod early;
#[cfg(test)]
mod http;
#[cfg(test)]
mod log;
#[cfg(test)]
mod outer;
#[cfg(test)]
mod real;
#[cfg(test)]
mod table;
#[cfg(test)]
mod values;
