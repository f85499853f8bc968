//! How many turns are enough: a run of an application with so many comes to its end.
//!
//! | law | its definition in `specs/` |
//! |---|---|
//! | [`runs_end_in_time`] | `Enough.RunsEndInTime`: a whole run at a door with these knocks, whose turns are enough (`Enough.AreEnough`), has status 0 |
//! | [`batches_of_applications_cost`] | `Enough.ApplicationsCost`: a batch of each application comes to its end within the units of its first and of 64 items with all their fuel (`Enough.batch_cost`) |
//! | [`applications_are_served_in_time`] | `Enough.ApplicationsEndInTime`: so an application that is served to these knocks within such turns never stops for want of turns |
//!
//! The knocks are known before a run, and so is a bound of the requests that they ask (`rip_law_server::ending`'s `Asked.AskNoMore`): each
//! message in the bytes of a connection, and a refused head behind them; or the bytes themselves. So there is such a number of
//! turns for all knocks. Nothing is said of time, nor of a door that does not tell its knocks.

mod laws;

pub use laws::{applications_are_served_in_time, batches_of_applications_cost, runs_end_in_time};
