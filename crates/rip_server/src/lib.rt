//! The connections of a server: what a door tells of them, which answers are owed on them and sent, and what is put to
//! the log.
//!
//! | what | its definition in `specs/` |
//! |---|---|
//! | [`Connections`] | `Links.links_of`: those that are there, as the machine of `rip_history` has them; `Links.AreLinks`: in the order of their numbers, open at the door, at most 64 |
//! | [`Connections::open`], [`Connections::feed`], [`Connections::lose`] | `rip_history`'s `after_opened`, `after_piece` and `without`, and what is done at the door, `opened_acts` and `piece_acts` |
//! | [`Connections::send`], [`Connections::answer`] | `rip_history`'s `answer_acts`; `Links.answered_with`, an answer that is owed |
//! | [`Connections::are_due`], [`is_due`] | `rip_history`'s `AreQuiet`, `IsQuiet`: nothing is to be handled |
//! | [`send_answer`] | what an answer does at a door; `Acts.Did`, all of some acts; `Acts.Stopped`, a front of them |
//! | [`put_entry`], [`put_entries`] | `Puts.IsPut`, `Puts.Logged`: the lines of entries, or a front of them |
//!
//! A layer above may rest on this: where nothing stops a call, the connections and what a door tells are those of the
//! machine, and where something does, a front of its acts was done. Each call takes time in proportion to the connections
//! that are there, at most 64, and to the bytes that it is handed.
#![tactic(auto)]

mod connection;
mod connections;
mod halt;
mod put;
mod send;
pub mod turn;

pub use connection::{Connection, Wait, is_due};
pub use connections::{Connections, MOST_CONNECTIONS};
pub use halt::Halt;
pub use put::{put_entries, put_entry, put_line};
pub use send::{Reached, send_answer};
