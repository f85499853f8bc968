//! The top call: the words of the command line, the files that they name, and what is done with them.
//!
//! [`ripley`] does what the program does, over any files, door, clock, random words and sink.
//!
//! | what | its definition in `specs/` |
//! |---|---|
//! | what a run did, by its status | `Run.Ran` |
//! | the words that are answered | `Words.IsForm`, by `rip_words` |
//! | why input is refused, the first cause that applies, and the line that says so | `Input.Refuses`, `Lines` |
//! | what is done for input that is accepted | `Service.Does`: `ServesTrace` of `replay`, over what a trace brings (`brought`); `ServesDoor` of `serve`, at the door that is handed in; both by `rip_serve`'s `ServesApp`: a run of the machine, `Serves`, and each entry of its log in range; `PutsDriven` of `drive`, by `rip_drive`'s `IsTrace`; `PutsGenerated` of `generate`, by `rip_gen::generate`'s `IsGenerated` |
//! | [`accepted_files_are_served`] | `Laws.AcceptedIsDone` |
//!
//! The files `Steps`, `Settling`, `Content` and `TraceDoor` of `specs/` say what the functions below [`ripley`] do.
//!
//! A layer above may rest on this: a run ends at the first call that fails, with what was put up to it; a run whose files are
//! accepted is refused nothing; words other than `serve` leave door, clock and random words as they were. Files are read whole,
//! and nothing else of a run grows with anything but what its sessions, its connections and its store hold.
#![tactic(auto)]

mod input;
mod lines;
mod refusal;
mod serving;
mod status;
mod top;
mod trace_door;

pub use status::Status;
pub use top::{accepted_files_are_served, ripley};
