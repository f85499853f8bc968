//! Theorems of the server model that no code needs.
//!
//! | module | what |
//! |---|---|
//! | [`requests`] | the requests that the lines of a trace mean |
//! | [`pace`] | a client that keeps pace is served, and answered where it asked |
//! | [`openings`] | an opening is answered with its page |
//! | [`answered`] | on each connection what is sent are the answers to its requests, in order |
//! | [`ending`] | runs come to their end |
//! | [`going`] | a run that breaks off is the beginning of a longer one |
#![tactic(auto)]

pub mod answered;
pub mod ending;
pub mod going;
pub mod openings;
pub mod pace;
pub mod requests;
