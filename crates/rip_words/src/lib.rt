//! The words of the command line: what they ask for.
//!
//! | what | its definition in `specs/` |
//! |---|---|
//! | [`Command`] | `Commands.Task`; `Commands.task_of`, what a command asks for |
//! | [`command_of`] | `Commands.IsTask`, the five forms of words; `Commands.IsOption`, the option behind them |
//!
//! | words | what they ask for |
//! |---|---|
//! | `check PAGE APP` | whether a page and a manifest are an application |
//! | `replay PAGE APP TRACE [--turns=N]` | the log of a trace; 1,000,000,000 turns where no number is given |
//! | `serve PAGE APP ADDRESS [--turns=N]` | service at an address; 9,007,199,254,740,991 turns where no number is given |
//! | `drive PAGE APP GESTURES` | the trace of a user's gestures |
//! | `generate N` | the line of the work that the number makes |
//!
//! The option is the last word. So `replay PAGE APP --turns=5` has none: its trace is the file `--turns=5`.
//!
//! A layer above may rest on this: words are read exactly where they ask for something, and as that alone
//! ([`words_are_one`]).
#![tactic(auto)]

mod command;
mod laws;
pub mod numerals;

pub use command::{Command, command_of};
pub use laws::words_are_one;
