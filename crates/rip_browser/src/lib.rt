//! A page visited: what stands behind the page as the items of a session use it.
//!
//! A browser (`rip_host`) is the page of a session's items (`rip_replica::items`). An event is judged, has its effect on the form, and
//! its flow takes place; a reported call stands so to the calls that the script made; a reply is delivered once, in a batch
//! behind that in which its call was served. A session opens with its scripts and the flow of `load`, as the one item of its
//! first batch.
//!
//! | what | its definition in `specs/` |
//! |---|---|
//! | a browser as the page of items ([`rip_replica::items::PageHost`]) | `Visits.browser_rules` |
//! | a reported event | `Events.event_plan`: the refusal, the charge of the text, the effect, and `rip_host`'s `Flow.flow` |
//! | a checkbox that a click turned over, once its flow is over | `Events.settled` |
//! | [`Flow`], the flow under way | `Events.left_of` |
//! | how a reported call stands | `Calls.position_of`; that this is told is `Positions.tells` |
//! | the delivery of a reply | `Replies.delivered` |
//! | [`Start`], the one item of the opening, and [`StartItems`], which plans it | `Opening.opening_plan`: `Opening.scripts` and `Opening.loading` |
//!
//! A layer above may rest on this: where a limit or a fault ends a flow, nothing that follows the flow is done; want of memory
//! at an event and at `load` comes only where the flow has room for fewer nodes than the document may have, and leaves heap
//! and browser as they were; a reply never wants memory.
#![tactic(auto)]

mod event;
mod flow;
mod flowing;
mod opening;
mod page;
mod replies;

pub use flow::Flow;
pub use opening::{Start, StartItems, StartStage};
