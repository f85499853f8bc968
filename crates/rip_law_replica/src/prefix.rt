//! Which calls a session serves: the longest prefix of the reported ones that the script made.
//!
//! Two whole lists are compared: the items of a session, each played whole one after another, and the parts of what the
//! session does.
//!
//! | what | its definition in `specs/` |
//! |---|---|
//! | the items before the one at which a session ends | `Prefix.handled` of `Prefix.items_of` |
//! | an item that reports a call | `Prefix.ReportsBy` |
//! | the calls that the script made on the items before | `Prefix.AreMade` |
//!
//! | law | its definition |
//! |---|---|
//! | [`served_are_made`] | `Prefix.ServedAreMade` |
//! | [`served_are_first`]: they are numbered from 1, one after another | `Prefix.ServedAreFirst` |
//! | [`served_are_counted`]: the position of the next call is told by the page's count | `Prefix.ServedAreCounted` |

mod laws;

pub use laws::{served_are_counted, served_are_first, served_are_made};
