//! Generated work: how many sessions there are, which of them lies once, and what the users of all do, as functions of one
//! number.
//!
//! | what | its definition in `specs/` |
//! |---|---|
//! | [`plan`], [`GenPlan`] | `Plans.plan_of`, what is drawn behind the number; `Plans.gesture_drawn`, a gesture |
//! | [`GenPlan::gesture`] | `Plans.place_of`: which gesture a session's user makes in a round |
//!
//! The draws are those of a page's `ripley.random`. The gestures are those of a page whose nodes 7 and 8 are text inputs, 9
//! a select of two options and 14 a button.
//!
//! A layer above may rest on this: the plan of a number is that one plan, and it has 4 to 32 sessions, of which one lies,
//! and 40 rounds, each gesture of which a batch may report ([`plans_are_in_range`]). A plan takes memory in proportion to
//! its gestures, at most 1,280.
#![tactic(auto)]

mod draws;
pub mod generate;
mod gesture;
mod laws;
mod plans;

pub use laws::plans_are_in_range;
pub use plans::{GenPlan, ROUNDS, plan};
