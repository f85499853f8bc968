//! The evaluator of scripts, which can be cut after any unit (ECMA-262 5.1, sections 10 to 14).
//!
//! A [`Machine`] is a run (`rip_eval_rows::Run`) of the rows of the language, with where the texts of its program stand: what a
//! part does is in `rip_eval_expressions` and `rip_eval_statements`, what is done of it in place in `rip_eval_in_place`, and what both come to
//! is the table in `rip_eval_language`. [`Machine::resume`] carries the law of cuts: after it answered `More`, the world is that of the run cut
//! after exactly these units, and what is left is what was left, later; after `Done` both are those of the end of the run.
//!
//! | what | its definition in `specs/` |
//! |---|---|
//! | [`Machine`] | contracts see `Law.Standing` |
//! | [`Machine::load`] | `Loading.Loads`; where each text stands then `Loading.TextsStand` |
//! | [`Machine::start`], [`Machine::resume`] | `Law.Starts`, `Law.Resumes`; what a start comes to `Starting.begun` |
//! | a start, and then a `resume` with all its fuel (`started_runs_whole`) | `Run.GoesWhole`: the whole run of that start, `Run.run_from` |
//! | [`Machine::depth`] | `Law.open_depth` |
//! | [`Machine`] as plans see it (`Evaluator`) | `Plans.evaluation` |
//! | loops, with the completions of their parts | `Turns.antt` |
//!
//! A layer above may rest on this: the law of cuts holds for every program, heap and machine.
#![tactic(auto)]

mod evaluator;
mod language;
mod law;
mod loading;
mod machine;
mod outcome;
mod rows;
mod starting;

pub use law::{begun_is_whole, loops_are_their_rows, started_runs_on, started_runs_whole};
pub use machine::Machine;
pub use outcome::Start;
pub use rip_eval_rows::{Outcome, Turned};
