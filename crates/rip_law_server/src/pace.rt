//! That a client which keeps pace is served.
//!
//! | what | its definition in `specs/` |
//! |---|---|
//! | the requests of a run, each with the history before it and what is decided on it | `Paced.requests_of` |
//! | a client's pace: it tells batches 1, 2, 3 and so on, each once the one before it is done, the opening the first | `Paced.KeepsPace` |
//! | what its requests come to | `Paced.AreMet`: each batch is admitted, and its close is decided once its last batch is done, unless memory is wanting at the request, or the session has ended before |
//! | [`paced_clients_are_served`] | `Paced.PacedAreServed`: so it is in each run of the machine that a server follows |
//! | the connection on which a session's last batch was asked for | `Answered.asker_of` |
//! | [`askers_are_answered`] | `Answered.AskersAreAnswered`: in each turn of a run a batch that is done is answered on that connection, if it is still there, and on no other; `Paced.BatchesAreAnswered`: the answer has code 200, and tells its number and its served calls |
//! | [`requests_are_handled_first`] | `Turned.TurnsAreLeast`: in each run what is handled on a connection is handled in the first turn in which it may be (`Handlings.AreHandled` of `rip_history`), by the bytes that came and the answers that are owed |
//!
//! A layer above may rest on this: it holds of any lawful meaning of sessions, whatever other clients ask.

mod laws;

pub use laws::{askers_are_answered, paced_clients_are_served, requests_are_handled_first};
