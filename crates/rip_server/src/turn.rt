//! One turn of a server: a knock at the door, each request that is there, and a slice for each busy session.
//!
//! | what | its definition in `specs/` |
//! |---|---|
//! | [`Server`] | `Standing.IsServer`: it stands as the machine of `rip_history` does; `Standing.IsReady`: what holds of it between two turns |
//! | [`Server::session`], a session that lives | `rip_table::roll`'s `Rolls.lives_at`, and that it stands at its stage `Rolls.IsLiveAt` |
//! | [`Server::turn`] | `Turning.Turned`: a turn of the machine (`rip_history`'s `IsTurn`), all of whose acts were done; `Turning.Halted`: one that broke off, of whose acts a front was done |
//!
//! A layer above may rest on this: whatever comes, the server does what the machine does, and door, clock, words and sink
//! tell that and nothing else. A turn takes time in proportion to what came, what is answered and the sessions that are
//! busy, and none that grows with idle sessions.

mod advance;
mod answers;
mod decide;
mod draw;
mod handle;
mod knock;
mod reply;
mod said;
mod server;

pub use server::{Server, Site, TurnEnd};
