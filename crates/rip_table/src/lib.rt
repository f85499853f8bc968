//! The sessions of a server, found by their identifiers and by their ordinals.
//!
//! A table is a list of sessions in the order of their opening. Each has an identifier of its own and a value, and is
//! live until it is ended; one that has ended stays, with its value, so that its identifier is known for ever.
//!
//! | what | its definition in `specs/` |
//! |---|---|
//! | [`Table`] | `Table.ids`, `Table.values`, `Table.ended`: three lists of one length; `Table.IsTable` is what each keeps |
//! | [`Table::insert`] | `Table.Opens`; refused as [`InsertRefused`] says, in that order, and the value comes back |
//! | [`Table::get`], [`Table::at`], [`Table::any_at`] | `Table.live_session`, `Table.live_value`, `Table.values` |
//! | [`Table::get_mut`], [`Table::at_mut`] | the same, and `Lending.LendsSession`, `Lending.LendsPlace` |
//! | [`Table::any`], [`Table::ordinal`], [`Table::id`] | `Table.any_session`, `Table.place_of`, `Table.at_ordinal` |
//! | [`Table::end`], [`Table::end_at`] | `Table.Ends` |
//!
//! A layer above may rest on this: no ordinal and no identifier is used twice; a refused session changes nothing; no
//! call but `insert` takes memory, and none takes longer where there are more sessions, but for the copy when a list
//! grows, which `insert` pays over the sessions. An ended session takes what its value takes, so the caller puts a
//! small one there before it ends the session.
#![tactic(auto)]

mod laws;
mod refused;
pub mod roll;
mod table;

pub use laws::lent_table_stays;
pub use refused::InsertRefused;
pub use table::{MOST_SESSIONS, Table};
