//! The listeners of a session, and the flow of an event along them (DOM Level 2 Events 1.2 and 1.3).
//!
//! Listeners are numbered in the order of registration, and no number comes twice. A flow goes along stations, which
//! are fixed when it begins; a station takes the listeners whose numbers are below the count that there was when it was
//! reached, each if it still stands at its turn. So nothing need be known of what a listener does to the others.
//!
//! | what | its definition in `specs/` |
//! |---|---|
//! | [`Listeners`] | contracts see `Listed.Listed`: all that were ever registered, and which of them stand |
//! | [`Listeners::add`] | `Listed.registered`, which is charged as `Listed.cost_of_listener`; `Listed.Registers` says what each answer leaves |
//! | [`Listeners::remove`] | `Listed.without_listener` of the one that is `Listed.found` |
//! | [`Listeners::has`] | whether there is a `Listed.typed`, found by a text that need be in no pool |
//! | [`Listeners::first_between`] | `Listed.first_between`, the first that stands and is wanted |
//! | [`Phase`], [`Phase::number`] | `Flow.number_of` |
//! | [`Cursor`] | contracts see `Flow.Course`, a flow under way: the station at hand, and those ahead |
//! | [`Cursor::begin`] | `Flow.begun`, along `Flow.stations` |
//! | [`Cursor::next`] | `Flow.next_call`, for whatever listeners are there then |
//!
//! Laws of whole flows stand in `Laws`, over `Laws.calls_of`: all calls of a flow, whatever is done to the listeners
//! between two of them. Each is the contract of a function: the calls come in the order of the stations and at each in
//! that of registration, so that a listener is called at most once at a station ([`calls_are_in_order`]), and their
//! phases in the order 1, 2, 3 ([`phases_are_in_order`]); what is called stands ([`removed_are_not_called`]), and was
//! registered before its station was reached ([`added_are_not_called`]); a flow that was stopped calls nothing behind
//! the station at hand ([`stopped_go_no_further`]); and no listener is left out ([`none_is_left_out`]).
//!
//! A layer above may rest on this: `next` is the next call of the flow whatever was done to the document and to the
//! listeners since the last one; no call but the makers takes memory; a station costs the listeners of its node.
#![tactic(auto)]

mod calls;
mod cursor;
mod laws;
mod listener;
mod listeners;
mod station;

pub use cursor::Cursor;
pub use laws::{
    added_are_not_called, calls_are_in_order, none_is_left_out, phases_are_in_order,
    removed_are_not_called, stopped_go_no_further,
};
pub use listener::{Listener, Wanted};
pub use listeners::Listeners;
pub use station::{Phase, Place, Station};
