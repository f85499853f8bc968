//! A session that is played item by item, each item whole.
//!
//! A [`Replica`](rip_replica::Replica) is cut after any unit, since many sessions share a server. Who plays one session alone
//! plays each item with all its fuel at once: [`play_next`] takes the item that is next in the batch of a replica and goes
//! on until it closes. A call that waits is served within, with the reply of a service.
//!
//! | what | its definition in `specs/` |
//! |---|---|
//! | [`play_next`] | `Wholes.IsWhole`: what the item does is `rip_replica`'s `Parts.whole_item`, from the world and the page before |
//! | [`open_batch`], [`put_item`] | the batch of the replica, and an item more in it |
//!
//! A layer above may rest on this: an item that was played whole closed so, took so much fuel, and left the world and the
//! page that a server's replica comes to by that item, however its units are cut. Of an item for which memory was wanting
//! nothing is said.

mod play;
mod serve;

pub use play::{Over, open_batch, play_next, put_item};
