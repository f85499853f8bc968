//! That what a file of gestures makes is what an honest client tells, and is served.
//!
//! | what | its definition in `specs/` |
//! |---|---|
//! | the calls that batches report, in order | `Driven.calls_of` |
//! | what a service replies to calls in order, at moment 0 | `Driven.replies_of` |
//! | [`driven_clients_are_honest`] | `Driven.DrivenAreTold`: the batches that gestures make are those of an honest client (`rip_law_served` `Honest.IsReportOf`) whose calls are given the replies of the application's functions; or there are none, where a limit or a fault ended the session in its opening |
//! | [`driven_clients_are_served`] | `Driven.DrivenAreServed`: the session of an application, given any front of the batches that gestures make and the replies of its functions to the calls in them, has no mismatch and no bad report |
//!
//! A layer above may rest on this: it holds of any application and any gestures that are legal at their places, of those too
//! at which a limit or a fault ends the session.

mod laws;

pub use laws::{driven_clients_are_honest, driven_clients_are_served};
