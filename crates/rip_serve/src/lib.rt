//! Runs of a server: turns until the run is over or the turns are spent, and then the last line of the log.
//!
//! | what | its definition in `specs/` |
//! |---|---|
//! | [`serve`] | `Serving.Serves`: with status 0 or 3 a whole run of the machine (`rip_history`'s `Runs.IsRun`), or one that breaks off (`Serving.Breaks`), and all that is told of it at the door, the clock, the words and the sink (`Serving.Tells`) |
//!
//! A layer above may rest on this. That what the sink holds is then the text of a legal history, or a prefix of one, is a
//! theorem over `Serves` (`rip_law_server::going`). Each turn takes the time of [`rip_server::turn::Server::turn`], and nothing is kept of one.
#![tactic(auto)]

mod serving;
pub mod site;

pub use serving::{Stop, serve};
