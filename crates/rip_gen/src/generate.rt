//! Generated work, served: the sessions that a number makes, one of which lies, and the line of what came of them.
//!
//! [`generate`] plans by `rip_gen`. All sessions open in order, and then each tells its gestures round by round; in
//! round 20 or later the liar tells its next call by the name `x`, and has ended. What all tell makes a trace, each
//! request behind the answer to the one before. The trace is served from its start over memory, and the line
//! `generate N sessions S served A ended B turns T` has the counts of that history.
//!
//! | what | its definition in `specs/` |
//! |---|---|
//! | [`PAGE`], [`MANIFEST`] | `Form.IsForm`: the application that they are |
//! | how sessions open and tell the gestures of a plan | `Work.Played`, over any sessions |
//! | what the liar tells | `Lies.lied` |
//! | the trace of a plan | `Trace.IsTraceOf`: its lines, in sessions driven as `rip_drive`'s are |
//! | a trace that is served until nothing is to be done | `Served.IsServed`, by `rip_serve`'s `Serving.Serves` |
//! | requests right behind answers | `Pace.IsPaced`: the turn of each, by that of the answer before it |
//! | what is counted, and the line of it | `Counts.many`, [`Kind`], `Counts.EndsIn`, `Counts.IsSummedUp` |
//! | [`generate`] | `Generated.IsGenerated`: the line sums up such a history of the plan's trace |
//!
//! In code work is written over any sessions, and one small block makes them of the application. A session in code
//! goes as one on paper does (`proofs/Carried`, `proofs/FormLemmas`).
//!
//! A layer above may rest on this: the line is told of a history of the plan's trace, in which each session was opened
//! and none ended for want of memory. How many `quiet` lines stand behind a request is told by that history alone,
//! which has the next request in the turn behind the answer. Of want of memory nothing is said: it is also the answer
//! where the server would not open a session of the plan, or answers in another turn. All this takes time in
//! proportion to the rounds and to what is told in them.

mod count;
mod forms;
mod generating;
mod lie;
mod pace;
mod page;
mod serving;
mod summing;
mod trace;
mod work;

pub use count::Kind;
pub use generating::generate;
pub use page::{MANIFEST, PAGE};
pub use serving::TURNS;
