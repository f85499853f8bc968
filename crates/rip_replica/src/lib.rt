//! One session: its batches of items, played over the page that stands behind its script, and cut after any unit.
//!
//! A session is opened (batch 0), and then it is given batches of items that a browser reports. What it does is a list of
//! *parts*, one for each item: an event or a reply was handled, a call was served, or the batch is done and may end the
//! session; each part has its cost, the units of the batch up to it. The parts are defined item by item, each played whole
//! with all its fuel (`Parts.session_parts`), and know nothing of slices. A [`Replica`] goes on with the batch for any
//! number of units, and exactly the parts come whose cost is spent, however the units are cut.
//!
//! | what | its definition in `specs/` |
//! |---|---|
//! | what a session does | `Parts.session_parts`, by `Parts.items_parts` over the items of a batch; `Parts.meaning_of` for all seeds and times |
//! | the parts of one item: a unit, and each unit of fuel that it needs | `Parts.after_item` of `Parts.whole_item` |
//! | what is asked of runs, so that their units count | `Plays.CountsUnits` |
//! | what is asked of items: only a call waits, and no item takes a unit but for its fuel; a call changes nothing before it is served | `Plays.IsItemPlan`, `Plays.IsStill` |
//! | [`Works`], the items of a session over any page | its words `plans`, `fact`, `served`, `ending`, `shapes` and `still` |
//! | a session in the middle of a batch | `Standing.Stands`, by its place `Standing.Left` |
//! | [`Replica::resume`] | `Slices.SlicedSo`: what comes of a slice is `Slices.Comes`, with the served calls `Slices.AreServed`; at a stage of the server's course `Stages.Resumed` (`rip_history`) |
//! | a session at such a stage: busy, idle, ended | `Sessions.IsAt` |
//! | in which world and with which page it stands there | `Cuts.CutAfter`, `Cuts.StandsDone`, `Cuts.StandsEnded` |
//! | a batch that goes on; that is done; that an item ends; where memory is wanting | `Slices.BusySo`, `DoneSo`, `EndsSo`, `LacksSo` |
//! | that memory is wanting only at a call, where there are rooms for the items | `Rooms.IsCallAt`, by `Rooms.HasRooms` (`rip_replica::scheduler`) |
//! | [`AtItem`], one item of a batch as a plan | `Standing.planned`, and what each step keeps `Kept.IsKept` |
//!
//! | law | its definition |
//! |---|---|
//! | [`runs_want`]: runs of rows leave no more units than they had, and one that is cut wants one more | `Plays.RunsWant` |
//!
//! A layer above may rest on this: within a slice each call is served once, at its place among the parts, with the reply of
//! the service after all calls before; the entries and the answers that are told are those of the served calls and no
//! others. Want of memory ends the session within the item under way: what was served and told until then is that of the
//! items before it, and the service is as after these. The memory for an entry is taken before the service is asked.
#![tactic(auto)]

mod item;
pub mod items;
mod laws;
mod replica;
mod resume;
pub mod scheduler;
mod serving;
mod works;

pub use item::AtItem;
pub use laws::runs_want;
pub use replica::{Place, Replica};
pub use works::{Call, Works};
