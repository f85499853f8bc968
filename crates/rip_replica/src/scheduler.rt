//! Goes on with a plan for any number of units, and stops between any two of them.
//!
//! What an item of a session does, or a whole batch of items, is a *plan* (`rip_eval_rows`): a program that asks for runs of the
//! evaluator, takes units that are no fuel, and waits for the outside. A plan is played by one interpreter, which alone has
//! the units, the fuel of each item and what the outside changes. A [`Runner`] goes on with any plan, of any planner, over
//! any evaluator and any host, and its contract is the law of cuts: after n units it stands at the plan cut after exactly
//! n units more, and what is left is what was left, later. So flows, items and batches are definitions that make plans, and
//! none of them can get units, fuel or a cut wrong.
//!
//! | what | its definition in `specs/` |
//! |---|---|
//! | a plan that is played | `Play.play`; what follows a run `Play.after_run`; one plan after another `Play.followed` |
//! | [`Planner`], which makes a plan step by step | its words `plan` and `steps`, and what each step keeps: `kept` |
//! | [`Runner`] | contracts see its fields; with the meaning of its planner it is `Going.Going` |
//! | what is left of the plan | `Going.rest`, by the phase `Going.rest_in` |
//! | [`Runner::resume`] | `Going.Rests`, with no change of the outside |
//! | that it wants no memory where it has the rooms for it | `Rooms.HasNoLack` by `Rooms.HasRooms` |
//! | that it changes no number of the host that runs and steps keep | `Numbers.HasNumber` by `Numbers.KeepsNumber` |
//! | that a runner stands at a batch after so many units | `Laws.StandsAt` |
//!
//! | law, for every evaluator, planner and host | its definition |
//! |---|---|
//! | [`cuts_add`]: what stood at a batch after j units stands there after j + n | `Laws.CutsAdd` |
//! | [`plays_once`]: a number of units at or above the cost stands for the end | `Laws.PlaysOnce` |
//! | [`plain_closes`]: as many units as fuel are enough for one item | `Laws.PlainCloses` |
//! | [`plans_fold`]: a batch is its items, one after another, each with what those before it did not need | `Laws.PlansFold` |
//!
//! A layer above may rest on this: want of memory at a step of a plan leaves heap and host as before that step
//! ([`Rested::Unplanned`]), and want of memory of the outside leaves all as it was ([`Rested::Awaits`]). Of a run that wanted
//! memory nothing is said. The runner itself takes no memory, and a turn of it takes the time of what it asks.

mod laws;
mod planner;
mod runner;

pub use laws::{cuts_add, plain_closes, plans_fold, plays_once};
pub use planner::Planner;
pub use runner::{Rested, Runner};
