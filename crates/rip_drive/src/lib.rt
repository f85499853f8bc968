//! Driving an application in memory: the trace that a truthful client makes of a file of gestures.
//!
//! [`drive`] opens one session, whose client tells each gesture, and gives each call a reply of the application's own store,
//! at moment 0. It makes the text of a trace: `open 0`, `say 0 get`, and a line `say 0 e 1 BODY` for each batch. Where a
//! limit or a fault ends the session, the batch that meets it is the last, and the line `# ended REASON LINE` stands behind
//! it, with the line of the gesture, or 0 of the opening.
//!
//! | what | its definition in `specs/` |
//! |---|---|
//! | a session of a client whose calls are given the replies of a service at moment 0 | `Driving.driven`, by `rip_law_replica::truth`'s `Truthful.playing_of` |
//! | what gestures come to, from a client on | `Driving.Drives`, by `rip_client`'s `Truth.TellsGesture` |
//! | how that ends: whole, stopped at a line, or refused at a line | `Driving.End` |
//! | what the gestures of an application come to, from seed 3 and at moment 0 | `Driving.DrivesApp` |
//! | [`drive`] answers a trace | `Driving.IsTrace`: the text is `Driving.trace_text` of these batches |
//! | [`drive`] refuses the gesture of a line | `Driving.IsRefusal`: it is not legal at its place |
//!
//! A [`PageActor`] is one session of an application whose items are played whole at moment 0: `Actors.page_session`, which goes
//! as `Driving.driven` does (`proofs/Played`).
//!
//! A layer above may rest on this: the batches of the trace are those that a truthful client of the application tells of
//! these gestures, with the replies of a store that is called by this session alone. Of want of memory nothing is said.
#![tactic(auto)]

mod driver;
mod driving;
mod opening;
mod page_actor;

pub use driver::DriveRefusal;
pub use driving::drive;
pub use page_actor::PageActor;
