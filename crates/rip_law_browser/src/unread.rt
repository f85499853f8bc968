//! That no script reads the replies that wait to be delivered.
//!
//! | law | its definition in `specs/` |
//! |---|---|
//! | [`replies_are_unread`] | `Unread.AnswersReadNoReply`: a browser with other replies that wait answers alike, and keeps them; `Unread.RunsReadNoReply`: so does each run of a program over it, cut after any unit |
//!
//! A layer above may rest on this: what a script does before a reply is delivered it does whatever that reply is.

mod laws;

pub use laws::replies_are_unread;
