//! Theorems of the runs of the server model.
//!
//! | module | what |
//! |---|---|
//! | [`runs`] | runs are legal histories, handle what is asked, and keep sessions apart |
//! | [`ranges`] | the entries of runs are in range |
#![tactic(auto)]

pub mod ranges;
pub mod runs;
