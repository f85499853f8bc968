//! What holds of every session, whatever its items and its page are: the layer that has the items rests on it.
//!
//! | what | its definition in `specs/` |
//! |---|---|
//! | what is asked of what sessions do | `AtStage.AreDoneBy` by the items, `Sound.HaveShapes`, `Sound.IsSound` |
//! | a replica at a stage of the server's course | `AtStage.IsAtStage` |
//! | [`open`], [`admit`] | the stage is `begun`, or `with_batch` (`Stages` of `rip_history`) |
//! | [`resume`]: any number of units, also none | `Stages.Resumed` |
//! | where a session stands that was opened, or admitted a batch | `Spots.IsOpened`, `Spots.IsAdmitted` |
//!
//! | law | its definition |
//! |---|---|
//! | [`meanings_are_lawful`] | `Laws.MeaningsAreLawful` |
//! | [`opened_are_begun`] | `Laws.OpenedAreBegun` |
//! | [`admitted_are_next`] | `Laws.AdmittedAreNext` |
//! | [`busy_are_not_done`] | `Laws.BusyAreNotDone` |
//! | [`busy_are_cut`]: where a busy session stands | `Laws.BusyAreCut`, by `Cuts.CutAfter` (`rip_replica`) |
//! | [`cuts_are_one`] | `Laws.CutsAreOne` |
//! | [`done_are_behind`]: where an idle session stands | `Laws.DoneAreBehind`, by `Cuts.StandsDone` (`rip_replica`) |
//! | [`ended_are_left`]: where a session stands that has ended | `Laws.EndedAreLeft`, by `Cuts.StandsEnded` (`rip_replica`) |
//! | [`ends_are_one`] | `Laws.EndsAreOne`, by `Cuts.EndedBy` (`rip_replica`) |

mod going;
mod laws;

pub use going::{admit, open, resume};
pub use laws::{
    admitted_are_next, busy_are_cut, busy_are_not_done, cuts_are_one, done_are_behind,
    ended_are_left, ends_are_one, meanings_are_lawful, opened_are_begun,
};
