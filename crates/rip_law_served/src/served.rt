//! Which calls the sessions of an application serve: the longest prefix of the reported ones that its script made.
//!
//! | law | its definition in `specs/` |
//! |---|---|
//! | [`sessions_serve_prefixes`] | `Served.SessionsServePrefixes`, by `Prefix.ServesPrefix` (`rip_law_replica::prefix`) |
//! | [`sessions_serve_first`]: they are numbered from 1 | `Served.SessionsServeFirst` |
//! | [`sessions_count`]: the position of the next call is one more than the browser has counted | `Served.SessionsCount` |
//!
//! No run of a script, no event and no reply changes how many served calls a browser counts.

mod laws;

pub use laws::{sessions_count, sessions_serve_first, sessions_serve_prefixes};
