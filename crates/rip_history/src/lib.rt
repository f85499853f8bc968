//! What a legal course of the server is, from the requests that are handled in each turn on: when what a session does
//! comes, how a session stands after a history, what is decided on a request, which entry may follow which, and that what
//! a session does depends on nothing but what it is given.
//!
//! A history is a list of entries (`rip_log`). What a session does is an argument of the definitions, `Parts.Meaning`: of
//! a seed and a time, of batches and of what its served calls are given. So nothing here rests on an evaluator: what runs
//! sessions is a [`Sessions`], and what replies to their calls a [`Service`].
//!
//! | what | its definition in `specs/` |
//! |---|---|
//! | [`turn_of_cost`] | `Turns.turn_at`; `Turns.IsFirstTurn`, the first turn by whose end the units cover the cost |
//! | [`Standing`] and what changes it | `Standings.when_opened`, `when_admitted`, `when_done`, `when_closed`; `Standings.standing_of`, how a session stands after a history |
//! | [`Standing::decide_batch`], [`Standing::decide_close`] | `Decisions.batch_decision`, `Decisions.close_decision`: the first answer that applies |
//! | a request | `Requests.Asks`, what a message asks; `Requests.decide`, what is decided on it by the history so far |
//! | the turns of a connection's requests | `Handlings.AreHandled`, each in the first turn in which it may be; `Handlings.handled_turns`, the same one after another |
//! | a history | `Sequences.IsOrderly`: each of its entries may come after those before it |
//! | what a session does | `Parts.Meaning`, a part for each item; `Parts.IsLack`, where memory may be wanting |
//! | [`Service`] | `Services.Service`, what is replied to a call after other calls; `Services.RepliesAs`, of the functions of an application |
//! | [`Sessions`] | `Stages.Stage`, how far a session went; `Stages.GoesOn`, that it goes on by some units; `Stages.Resumed`, what comes of a slice |
//! | a session of a history | `Sessions.IsSessionOf`: up to the last turn it did what the meaning says, each in the turn of its cost |
//! | what a server does | `Run.IsTurn`, one turn of the machine that a server follows: a knock (`Connections.after_knock`), the requests (`Run.AreHandledSo`), the busy sessions (`Run.AreAdvancedSo`), and what is put, sent and shut (`Connections.Act`); `Runs.IsRun`, its runs; `Runs.IsBroken`, a run that breaks off |
//! | the answers | `Answering.refusal_answer`, `decided_answer`, `batch_answer` |
//! | a course | `Course.IsCourse`: openings, admissions and closings are those that are decided on the requests of each turn, in order; behind them each session does what the meaning says; moments, words and replies are those of one clock, one source of words and one service |
//!
//! | law | its definition |
//! |---|---|
//! | [`turns_are_first`] | `Turns.TurnsAreFirst`, `TurnsKeepOrder`, `DistanceIsOfCost` |
//! | [`standings_follow`] | `Standings.StandingsFollow`, `StandingsAreOwn` |
//! | [`next_are_admitted`] | `Decisions.AdmitsNext`, `ClosesIdle` |
//! | [`decisions_are_exact`] | `Requests.AskedIsOne`, `AdmissionsAre`, `OpeningsAre` |
//! | [`requests_are_handled_once`] | `Handlings.TurnsAreHandled`, `HandledOnce` |
//! | [`sequences_count`] | `Sequences.OrdinalsCount`, `BatchesCount`, `IdentifiersDiffer`, `EndsLast` |
//! | [`meanings_keep`] | `Stages.MeaningsKeep`, of a lawful meaning (`Parts.IsLawful`) |
//! | [`sessions_are_alone`] | `Sessions.SessionsAreAlone`, of sessions that want no memory, whose meaning reads what is given at its served calls (`Parts.ReadsGivenInTurn`) |
//! | [`courses_hold`] | `Course.CoursesAreInOrder`, `CoursesCount`, `CoursesIsolate` |
//!
//! A layer above may rest on these. That each run of the machine is a course is a law of the crate above (`rip_law_history::runs`). Not
//! said of courses: that the requests handled are those of the connections, which answers are sent, and when a run stops;
//! the machine says it. The functions take no memory and the
//! time of a few comparisons.
#![tactic(auto)]

mod decision;
mod laws;
mod service;
mod sessions;
mod standing;
mod turn;

pub use decision::{BatchDecision, CloseDecision};
pub use laws::{
    courses_hold, decisions_are_exact, meanings_keep, next_are_admitted, requests_are_handled_once,
    sequences_count, sessions_are_alone, standings_follow, turns_are_first,
};
pub use service::Service;
pub use sessions::{Made, Progress, Sessions, Slice};
pub use standing::Standing;
pub use turn::{SLICE, turn_of_cost};
