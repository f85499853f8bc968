//! The application: a page and a manifest, and what they say.
//!
//! [`load`] answers the application: its page, the program of the page's scripts, and what the manifest says, or the first
//! cause why there is none.
//!
//! | what | its definition in `specs/` |
//! |---|---|
//! | the trees of a page's scripts | `App.HaveTrees` |
//! | [`load`] | `App.AppOf`, or `App.IsAppRefusal`: the first cause in the order of its lines |
//! | [`applications_are_one`]: any page and manifest have one answer | `Laws.HasAnAnswer`, `HasOneApp`, `HasOneRefusal`, `IsNeverBoth` |
//!
//! The file `Script` of `specs/` says what the functions below [`load`] do, and no public clause cites it.
#![tactic(auto)]

mod app;
mod refusal;
mod script;
mod scripts;

pub use app::{App, applications_are_one, load};
pub use refusal::AppRefusal;
