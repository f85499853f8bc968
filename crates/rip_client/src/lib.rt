//! A truthful client: what a browser reports of a user's gestures, where the page's own script runs in it unchanged.
//!
//! A gesture makes a list of items, in this order: the calls that the opening made, in the first list alone; the replies
//! that were received before and wait to be delivered, in the order of their calls, each followed by the calls that its
//! callback made; the event, followed by the calls that were made in its flow. The list is cut into batches, each as long as
//! it can be, and a list without items makes one empty batch. Each item is played whole in a session of the client's own
//! ([`Actor`]) as it is told, and each call is given its reply then.
//!
//! | what | its definition in `specs/` |
//! |---|---|
//! | [`Actor`], a session of which items are played whole | `Truth.Playing`: how items come out, and which call waits |
//! | [`Client`] | contracts see its fields; where it stands in a list is a `Truth.Place` |
//! | [`Client::gesture`] | `Truth.TellsGesture`, by `Truth.TellsList`: the batches of a gesture, and how it was told |
//! | where a client is at its end | `Sizes.end_of`: a gesture was not told whole, and each later one is answered likewise |
//! | which batch an item is put into | `Truth.IsPut`: into the open one where `Truth.Fits` says that it has room |
//!
//! A layer above may rest on this: a client tells what its session does and nothing else, whatever gives the replies. A
//! gesture takes time in proportion to its texts and to what its items take.
#![tactic(auto)]

mod actor;
mod client;
pub mod cutting;
mod list;
mod tale;
pub mod whole;

pub use actor::{Actor, Over, WaitingCall};
pub use client::{Client, HowTold, Told};
pub use list::ToldBatch;
