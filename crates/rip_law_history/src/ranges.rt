//! The entries of a run of the machine that a server follows are in range, so its log is that of no other history.
//!
//! | what | its definition in `specs/` |
//! |---|---|
//! | what sessions do is in range | `Ranged.MeansInRange`: each part, where the batches are in range |
//! | what a service replies is in range | `Ranged.RepliesInRange`: each reply, where the calls are in range |
//! | [`runs_are_in_range`] | `Ranged.RunsAreInRange`: each entry of the history of turns; `Ranged.LogsAreInRange`: each entry that a whole run puts, its status too; `Ranged.BrokenRunsAreInRange`: each of a run that breaks off |
//! | [`functions_reply_in_range`] | `Ranged.FunctionsReplyInRange`: so does the service of an application's functions |
//!
//! A layer above may rest on this: [`rip_log::logs_tell_histories`] holds of the log of each such run. Fewer turns than 2^64
//! are made, and the moments are below 2^64.

ghost use Rattle.rip_law_history.specs.Ranged.{BrokenRunsAreInRange, FunctionsReplyInRange, LogsAreInRange, RunsAreInRange};

/// Where sessions and service do what is in range, each entry of the history of turns is, and so is each that a whole run
/// puts, and each of a run that breaks off.
pub fn runs_are_in_range()
    ensures histories { RunsAreInRange }
    ensures logs { LogsAreInRange }
    ensures broken { BrokenRunsAreInRange }
{}

/// The functions of an application, called in order from an empty store, reply in range to calls in range.
pub fn functions_reply_in_range()
    ensures { FunctionsReplyInRange }
{}
