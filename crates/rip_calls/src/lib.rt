//! The calls that a script makes, as they wait to be reported.
//!
//! A call of a script is text, one line of it, and may have a callback, which is an object of the script. It waits, with
//! a line feed, until it is reported, is compared with what was reported, and is taken. The bytes that wait are limited,
//! and all room is taken when the queue is made.
//!
//! | what | its definition in `specs/` |
//! |---|---|
//! | [`Queue`] | contracts see `Calls.Calls`: text and callback of all calls that were made, how many were taken, and the limit |
//! | [`Queue::push_made`] | `Calls.with_call`; refused where `Calls.used` would pass the limit |
//! | [`Queue::compare`], [`Queue::front`], [`Queue::front_callback`] | `Calls.front_text` and `Calls.front_callback` of the first that waits |
//! | [`Queue::is_next`] | the number is one more than `taken` |
//! | [`Queue::take`] | `Calls.without_front` |
//! | [`Queue::made`], [`Queue::taken`], [`Queue::used`] | `Calls.number_at`, `Calls.used` |
//!
//! A layer above may rest on this: all calls that were made can be read off a queue, those too that were taken; a
//! refused call changes nothing; no call but the maker and `front` takes memory. A call takes time in proportion to
//! the text that it is handed or that is next.
#![tactic(auto)]

mod lines;
mod past;
mod queue;

pub use queue::{Match, Queue};
