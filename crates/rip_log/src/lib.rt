//! The history of a run, entry by entry, and its text, the log.
//!
//! Each entry is one line: words with a space between two.
//!
//! | what | its definition in `specs/` |
//! |---|---|
//! | [`Entry`] | `Entries.recorded_of`, what it records; `Ranges.IsRecorded`, when it is in range |
//! | [`write_entry`] | `Entries.entry_text`, its line, of `Entries.entry_words` and `Endings.ending_words` |
//! | [`read_log`] | `Histories.history_text`, the log of a history; `Histories.IsRefusedAt`, the first line that is no entry's |
//!
//! A layer above may rest on this: a text is read exactly where it is the log of a history in range, and as that history
//! alone ([`logs_tell_histories`]); any other is refused at its first line that is no entry's, and at no other line
//! ([`refusals_are_one`]). Both calls take time in proportion to the text.
#![tactic(auto)]

mod endings;
mod entry;
mod error;
mod kinds;
mod laws;
mod parts;
mod read;
mod words;
mod write;

pub use entry::{Entries, Entry};
pub use error::LogRefusal;
pub use laws::{logs_tell_histories, refusals_are_one};
pub use read::read_log;
pub use write::write_entry;
