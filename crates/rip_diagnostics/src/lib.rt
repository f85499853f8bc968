//! Diagnostics for whoever writes a page: why its files are refused, with line, column and cure.
//!
//! [`explain`] reads the files of a run of `ripley` again and says, for a person, what its one line on standard output says
//! to a program: where it is, by file, line and column, the line itself with a mark below the place, what is wrong in one
//! sentence, what to write instead, and the heading of the docs to read. [`explain_script`] does so for `script`. The texts
//! stand in one table, the file `table`. [`list_nodes`] lists the nodes of a page with their numbers.
//!
//! | what | its definition in `specs/` |
//! |---|---|
//! | [`spot_of`]: the line and the column of a place | `Spots.line_ends`, `Spots.begins_character`, `Spots.line_before`, `Spots.line_behind` |
//!
//! Lines end in LF, CR or CR LF. Columns count characters, a tab as one, and a mark of UTF-8 as none; places of a page count
//! bytes, and those of a script units.
#![tactic(auto)]

mod cause;
mod judged;
mod lines;
mod manifest;
mod members;
mod mending;
mod mismatch;
mod nodes;
mod page;
mod script;
mod sheet;
mod spot;
mod table;
mod tags;
mod top;
mod word;

pub use mismatch::Noting;
pub use nodes::{Listing, list_nodes};
pub use spot::{Spot, begins_character, line_of, spot_of};
pub use top::{Wishes, explain, explain_script};
