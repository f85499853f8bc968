//! Theorems of the sessions of an application.
//!
//! | module | what |
//! |---|---|
//! | [`served`] | the served calls are a longest matching prefix of those that the script makes |
//! | [`ranges`] | what sessions do is in range |
//! | [`honest`] | an honest client of an application is served |
#![tactic(auto)]

pub mod honest;
pub mod ranges;
pub mod served;
