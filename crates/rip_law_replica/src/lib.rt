//! Theorems of every session, whatever its items and its page are.
//!
//! | module | what |
//! |---|---|
//! | [`stages`] | a session stands at the stage that the history says |
//! | [`prefix`] | the served calls are a longest matching prefix |
//! | [`truth`] | an honest client is ended by no mismatch and no bad report |
#![tactic(auto)]

pub mod prefix;
pub mod stages;
pub mod truth;
