//! The items of a session over a visited page, and how they end it.
//!
//! A session opens with one item, which runs the scripts of its page, and is then given batches of items that a browser
//! reports. A [`Work`] is an item of either; [`PageItems`] plans them over a browser, serves the calls among them, and says
//! how an item that closed ends the session. [`works_of`] makes the items of a batch, as copies, so that a batch for which
//! memory is wanting is there as it was.
//!
//! | what | its definition in `specs/` |
//! |---|---|
//! | [`Work`] | contracts see a `Tasks.Task`: the opening, or what an item reports |
//! | [`works_of`] | `Tasks.tasks_of` the contents of the batch |
//! | what an item does | `Plans.work_plan`: `Opening.opening_plan` (`rip_browser`) or `Items.item_plan` (`rip_replica::items`) over a browser |
//! | what an item comes to that is over and fine | `Tasks.fact_of` |
//! | whether a call may be served, and the browser after it | `Serving.may_serve`, `Serving.served` |
//! | how an item that closed ends the session | `Endings.ending_of` |
//!
//! A layer above may rest on this: [`PageItems`] is `rip_replica::Works`, so a session of these items is cut after any unit
//! and comes to what its items are played whole. The rooms of two flows are taken when it is made: where they are
//! for as many nodes as the document may have, no step of an item wants memory.

mod copy;
mod ending;
mod items;
mod serving;
mod work;

pub use items::PageItems;
pub use serving::moment_of;
pub use work::{Work, works_of};
