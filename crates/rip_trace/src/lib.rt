//! Traces: what comes to a server from outside, line by line.
//!
//! A trace gives the knocks of a door, the moments of a clock and random words. Each line is one of these: `# ..`, which
//! is skipped; `time M`, `word H`, which take no turn; `open C`, `send C HEX`, `gone C`, `quiet`, `say C get`,
//! `say C e S BODY`, `say C q S`.
//!
//! | what | its definition in `specs/` |
//! |---|---|
//! | a line | `Lines.Line`; how it is spelled: `Spelling.IsSpelled`; which may follow others: `Traces.MayCome` |
//! | a request that a line stands for | `Requests.request`, its bytes; `Requests.in_pieces`, how they come; `Requests.identifier_of`, the session's identifier |
//! | [`Trace`], [`read_trace`] | `Traces.IsTrace`: of which knocks, moments and words the text is a trace; `Traces.IsRefusedAt`, the first line that is none |
//!
//! A layer above may rest on this: a text is read exactly where it is a trace, as that of one list of knocks, of moments
//! and of words ([`traces_are_one`]); any other is refused at its first line that is none, and at no other line
//! ([`refusals_are_one`]). The knocks are such as a door may give (`rip_outer`'s `KnockList`). A trace is read in time in
//! proportion to its text, and takes the memory of its pieces.
#![tactic(auto)]

mod gesture_line;
mod gestures;
mod laws;
mod line;
pub mod lines;
mod read;
mod request;
mod say;
mod text;
mod trace;

pub use gestures::{Gestures, LinedGesture, read_gestures};
pub use laws::{gestures_are_one, refusals_are_one, traces_are_one};
pub use read::read_trace;
pub use request::identifier;
pub use trace::{Trace, TraceRefusal};
