//! How much of its limits a session has taken: no count passes its limit, and neither a heap nor a page or a run of a session
//! that lives passes a limit of the manifest.
//!
//! | what | its definition in `specs/` |
//! |---|---|
//! | [`used_by`] | `Within.used_in`, within `Within.IsWithin` |
//! | [`used_by_session`] | the same, and within `Sessions.IsAllowed`, and while it lives within `Sessions.IsPageAllowed`; of a busy one `Sessions.IsUsedAtCut`, of an idle one `Sessions.IsUsedBehind`, of one that has ended `Sessions.IsUsedAtEnd` |
//!
//! | law | its definition |
//! |---|---|
//! | [`sessions_stay_within`] | `Sessions.SessionsStayWithin` |

mod counts;
mod laws;

pub use counts::{Used, used_by, used_by_session};
pub use laws::sessions_stay_within;
