//! The sessions of a server: what is kept of each, by ordinal, live or ended, and which are busy.
//!
//! | what | its definition in `specs/` |
//! |---|---|
//! | [`Roll`] | `Rolls.IsKept`, what the history tells of all sessions; `Rolls.IsRollOf`, and each that lives stands at its stage |
//! | what is kept of a session | `Seats.IsSeat`: its standing, and while it lives its opening and the calls that its batches served; `Seats.StandsAt`, its stage |
//! | the busy sessions | `rip_history`'s `busy_in`; `Walks.waiting_in`, those that a walk over them has not passed |
//! | [`Roll::named`], [`Roll::was_opened`] | `rip_history`'s `session_named`, `was_opened` |
//! | [`Roll::room`] | `Rolls.room_in` |
//! | [`Roll::standing`], [`Roll::opening`], [`Roll::served`] | `rip_history`'s `standing_of`, `opening_told`, `served_in` |
//! | [`Roll::session`], a session that lives | `Rolls.lives_at`, and that it stands at its stage `Rolls.IsLiveAt` |
//! | [`Roll::open`], [`Roll::admit`], [`Roll::close`] | the roll of one entry more, and of the stages after that decision (`rip_history`'s `decided_stages`); want of memory leaves all |
//! | [`Roll::next_busy`], [`Roll::advance`], [`Roll::end_walk`] | `Rolls.WentOn`, as the machine of `rip_history` advances the session; `Seats.Leaves`, what one leaves that its batch ended |
//!
//! A layer above may rest on this: a session is found by its identifier and by its ordinal; one that ends gives up all that
//! it had, and its last number and the reason stay: 24 bytes, beside its entry in the table. An admission takes time in
//! proportion to the busy sessions, an opening and an answer none that grows with the sessions, but for the copy when a list
//! grows, and a walk the time of the busy sessions alone. To go on with a session takes no memory of the roll, so nothing
//! fails there.

mod busy;
mod roll;
mod seat;

pub use roll::{Roll, Room};
pub use seat::{Advanced, Legacy};
