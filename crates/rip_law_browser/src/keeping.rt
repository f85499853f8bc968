//! What a browser keeps in each answer, and in each run of a program over it.
//!
//! | law | its definition in `specs/` |
//! |---|---|
//! | [`limits_stay`] | `Laws.LimitsStay` |
//! | [`calls_stay_in_range`] | `Laws.CallsStayInRange`: the texts of the calls that were made are those of calls in range |
//!
//! For laws above: what a host keeps in each answer a run keeps, and so does one that stands (`proofs/KeepsRuns.antt`:
//! `begun_has`, `left_has`); a browser keeps in each answer how many served calls it counts, which replies wait, and both limits,
//! and its calls in each but that of `ripley.call` (`proofs/KeepsAnswers.antt`).

mod laws;

pub use laws::{calls_stay_in_range, limits_stay};
