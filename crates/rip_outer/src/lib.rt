//! The outside: files, a sink, a door with its connections, a clock and random words.
//!
//! Whatever reaches outside the program stands behind one of five traits, [`Files`], [`Sink`], [`Door`], [`Clock`] and
//! [`Words`]. A call answers `Failed` only where the count `faults` of its object rose in it. What an object holds or
//! has told is an optional meaning: the forms in memory tell it, the real ones what they know of it, and a clause that speaks
//! of it holds of both. [`MemoryFiles`], [`MemorySink`], [`PartSink`], [`MemoryDoor`], [`MemoryClock`] and [`MemoryWords`] are forms in
//! memory; [`NoDoor`], [`NoClock`] and [`NoWords`] stand where a run asks nothing of the outside. A [`KnockList`] is
//! what a door in memory is made of, and [`answer_of`] tells one of its knocks. [`lines`] gives the pieces of a text between line feeds.
#![tactic(auto)]

mod connections;
mod knock_list;
mod knocks;
mod listed;
mod memory_connections;
mod memory_door;
mod memory_files;
mod memory_moments;
mod memory_sink;
mod moments;
mod nothing;
mod part_sink;
mod pieces;
mod reading;
mod text;
mod writing;

pub use connections::{Door, Knock, Sent, TraceKnock};
pub use knock_list::{KnockError, KnockList, MAX_PIECE};
pub use knocks::{answer_of, copy_of_knocks};
pub use memory_door::MemoryDoor;
pub use memory_files::MemoryFiles;
pub use memory_moments::{MemoryClock, MemoryWords};
pub use memory_sink::MemorySink;
pub use moments::{Clock, Words};
pub use nothing::{NoClock, NoDoor, NoWords};
pub use part_sink::PartSink;
pub use pieces::Lines;
pub use reading::{FileList, Files, FilesError, MAX_FILE, NamedFile};
pub use text::lines;
pub use writing::{Sink, SinkError};
