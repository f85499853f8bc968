//! The sessions of an application.
//!
//! An [`Application`] is what a page, its scripts and a manifest are, as sessions go by it. A [`Session`] is a replica of the
//! machine over the browser of that page: it opens with the charges of the page, the scripts and `load`, and goes on batch
//! by batch.
//!
//! | what | its definition in `specs/` |
//! |---|---|
//! | what a session does | `Application.meaning_of_app`, by the one `Application.doing_of` its seed and time |
//! | how it is opened: the charges in their order, the heap and the browser, by [`open`] | `Opening.opened_of` |
//! | a session at a stage of the server's course, within the limits of the manifest: its heap always, its page and its runs while it lives, and then with its rooms | `Application.StandsAt` by `Limits.HasLimits`, `Limits.PassesNoLimit`, `Limits.HasPageLimits`, `Limits.PassesNoPageLimit` |
//! | that it is ended for want of memory only at a call, by [`resume_session`] | `IsCallAt` of `rip_replica`, by `Rooms.HasRoomsIn` |
//! | [`Application`] as the sessions of a server | `rip_history::Sessions` |
//!
//! A layer above may rest on this: what a session does is a function of the application, its seed and time, its batches and
//! what its served calls are given, however its units are cut and whatever other sessions do.
#![tactic(auto)]

mod application;
mod opening;
pub mod work;

pub use application::{Application, Session, resume_session};
pub use opening::{Opened, open};
