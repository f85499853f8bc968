//! That a truthful client of an application is served.
//!
//! | what | its definition in `specs/` |
//! |---|---|
//! | the call that a client reads off a page as the next | `Honest.next_in` |
//! | the batches that an honest client of an application tells | `Honest.IsReportOf`, by `rip_law_replica::truth`'s `Truthful.IsReport`; with replies that are due `Honest.IsDueReportOf` |
//! | that the call which is read off a page so is served or stopped where it is reported | `rip_law_replica::truth`'s `Truthful.ServesNext`, proved of each application |
//! | [`honest_clients_are_served`] | `Honest.HonestAreServed`: a session that is given any front of them has no mismatch and no bad report |
//!
//! A layer above may rest on this: it holds of any application, seed, time, gestures and replies.

mod laws;

pub use laws::honest_clients_are_served;
