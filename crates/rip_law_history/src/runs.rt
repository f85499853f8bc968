//! Runs of the machine that a server follows are legal courses.
//!
//! The machine (`rip_history`, `Run.IsTurn`) is what a server does turn by turn; a course (`Course.IsCourse`) says of a whole
//! history what may stand in it. This crate proves that they agree.
//!
//! | law | its definition in `specs/` |
//! |---|---|
//! | [`runs_are_courses`] | `Legal.RunsAreCourses`: the history after any turns of the machine is a course of these turns, moments and words; `RunsPut`: a whole run puts it and its status; `RunsEnd`: with 0 the last batch of each session is done |
//! | [`broken_runs_are_fronts`] | `Broken.BrokenRunsPut`: what a run that breaks off put is a front of the history of whole turns, a course, and of a turn that broke off |
//! | [`sessions_are_sliced`] | `Sliced.SessionsAreSliced`: the stage of each session is told by the history, and a busy one got exactly 1,000 units in each turn since its batch was admitted |
//! | [`runs_isolate`] | `Alone.RunsIsolate`: a session that is given the same in two runs of one application does the same, each so many turns after the admission of its batch, and its batches are answered the same, as far as both go |
//! | [`streams_are_handled`] | `Streams.StreamsAreHandled`: the messages handled on a connection stand one behind the other at the front of the bytes that came on it; `Streams.NothingIsLeft`: in each turn they are all requests of these bytes, where no answer is owed |
//!
//! A layer above may rest on this: what is known of courses ([`rip_history::courses_hold`]) is known of each run, and what
//! is known of the messages of a stream ([`rip_http::taken_stands`], [`rip_http::cuts_do_not_matter`]) is known of what is
//! handled on a connection. That a run that breaks off is the beginning of one that goes on is said a layer above, by
//! `rip_law_server::going`.

ghost use Rattle.rip_law_history.specs.Alone.{RunsIsolate};
ghost use Rattle.rip_law_history.specs.Broken.{BrokenRunsPut};
ghost use Rattle.rip_law_history.specs.Legal.{RunsAreCourses, RunsEnd, RunsPut};
ghost use Rattle.rip_law_history.specs.Sliced.{SessionsAreSliced};
ghost use Rattle.rip_law_history.specs.Streams.{NothingIsLeft, StreamsAreHandled};

/// The history of each run of the machine is a legal course; a whole run puts it, and behind it its status; where that is 0
/// nothing is undone.
pub fn runs_are_courses()
    ensures courses { RunsAreCourses }
    ensures ends { RunsEnd }
    ensures puts { RunsPut }
{}

/// In each run of the machine, what is handled on a connection is what is asked in the bytes that came on it, in order.
/// And in each turn all is handled that was asked, on each connection on which no answer is owed.
pub fn streams_are_handled()
    ensures taken { StreamsAreHandled }
    ensures all { NothingIsLeft }
{}

/// Isolation: a session that is given the same in two runs, and wants no memory there, does the same in both, in turns
/// counted from the admission of each batch, and is answered the same, as far as both go.
pub fn runs_isolate()
    ensures { RunsIsolate }
{}

/// After any turns of a run the stage of each session is told by the history, and a session whose batch is not done got
/// exactly 1,000 units in each turn since that was admitted.
pub fn sessions_are_sliced()
    ensures { SessionsAreSliced }
{}

/// What a run that breaks off put is a front of the history of whole turns, a legal course, and of a turn that broke off,
/// up to which or the one before each session did what the meaning says.
pub fn broken_runs_are_fronts()
    ensures { BrokenRunsPut }
{}
