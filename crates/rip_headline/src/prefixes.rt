//! Which calls the sessions of each application serve: the longest prefix of the reported ones that its script made; and that
//! a session is ended for want of memory only at an item that reports a call.
//!
//! | law | its definition in `specs/` |
//! |---|---|
//! | [`applications_serve_prefixes`] | `Matched.ApplicationsServePrefixes` |
//! | [`histories_serve_prefixes`]: so it is of the entries of each legal course, up to the last turn | `Histories.HistoriesServePrefixes`, by `Histories.Serves`; they are one list: `Histories.CallsAreOne` |
//! | [`sessions_serve_by_lists`]: their number is that of two whole lists, by `Served.IsServed` (`rip_replica`) | `ServedLists.ServeByLists`, `ServedLists.HistoriesServeByLists` |
//! | [`broken_runs_serve_prefixes`]: so it is where a run breaks off, of the history of which it put a front | `Broken.BrokenRunsServePrefixes`, by `Broken.ServesFirst` |
//! | [`lacks_are_at_calls`] | `Lacks.LacksAreAtCalls` |

mod laws;

pub use laws::{
    applications_serve_prefixes, broken_runs_serve_prefixes, histories_serve_prefixes,
    lacks_are_at_calls, sessions_serve_by_lists,
};
