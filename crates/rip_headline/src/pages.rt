//! The page of a session passes no limit of the manifest, also where the session has ended.
//!
//! | law | its definition in `specs/` |
//! |---|---|
//! | [`pages_have_limits`] | `Bounded.PagesHaveLimits`: at each stage the page has the manifest's limits of nodes, of the bytes that wait and of undelivered replies |
//! | [`pages_pass_no_limit`] | `Bounded.PassesNone`: and passes none; and no more of the depth is open than the manifest allows |
//!
//! A layer above may rest on this: what the item that ended a session did to its page stands within the manifest's limits.

ghost use Rattle.rip_headline.specs.Bounded.{PagesHaveLimits, PassesNone};

use crate::limits::used_by_session;
use rip_session::Session;

/// A law, and no work: at whatever stage a session of an application stands, its page has the manifest's limits, also where the
/// session has ended.
pub fn pages_have_limits()
    ensures { PagesHaveLimits }
{}

/// A law of each session, for which nothing is done but to count: at whatever stage it stands, also where it has ended, its page
/// and its runs have the limits of the manifest and pass none.
pub fn pages_pass_no_limit(session: &Session)
    ensures { PassesNone session.now.replica }
{
    // What is counted tells that no count passes the limit of its own.
    let _ = used_by_session(session);
}
