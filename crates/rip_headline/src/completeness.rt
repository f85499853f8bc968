//! That an honest client of an application is served to the end.
//!
//! | what | its definition in `specs/` |
//! |---|---|
//! | the batches that an honest client of an application tells of gestures | `rip_law_served::honest`'s `Honest.IsReportOf` |
//! | [`replies_are_due`] | `Complete.RepliesAreDue`: its replies are due; `Complete.ClientsAreServed`: a session that is given any front of these batches has no mismatch and no bad report |
//! | a session of a run that has an honest client | `Complete.IsTruthful` |
//! | a session of a history whose admitted batches are a front of what a client tells, whatever else was asked for it | `Histories.IsTruthfulIn` |
//! | [`truth_is_served`] | `Histories.TruthIsServed`: in each legal course no entry ends such a session with a mismatch or a bad report; `Histories.BrokenTruthIsServed`: nor does one that a run put which broke off |
//! | [`truthful_clients_are_complete`] | `Complete.TruthfulAreComplete`: each batch of it is admitted as the next, and its close is decided, unless the session ended before or memory was wanting at the request; and no batch ends the session for a lie |
//!
//! A layer above may rest on this: it holds of any application, whatever other clients ask of the server.

mod laws;

pub use laws::{replies_are_due, truth_is_served, truthful_clients_are_complete};
