//! Theorems of scripts and pages that no code needs.
//!
//! | module | what |
//! |---|---|
//! | [`scoping`] | each node that declares a name resolves to that declaration |
//! | [`page_refusals`] | a page is refused at the first token with which no page goes on |
#![tactic(auto)]

pub mod page_refusals;
pub mod scoping;
