//! What a session may use, and in which versions an application speaks: its manifest, its language, what browsers report.
//!
//! | what | its definition in `specs/` |
//! |---|---|
//! | [`Limits`] | `Limits.AreInRange`, of the greatest of a [`Version`], `Limits.greatest`; `Limits.default` |
//! | [`Language`], [`Wire`] | contracts see their variants |
//!
//! A layer above may rest on this: the limits of an application are in the range of version 2.
#![tactic(auto)]

mod limits;
mod version;

pub use limits::Limits;
pub use version::{Language, Version, Wire};
