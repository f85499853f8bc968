//! The items of a batch, as plans over the page that stands behind its script.
//!
//! A browser reports what happened in items, many to a batch. What an item does is a plan (`rip_eval_rows`), and a batch is its
//! items one after another: a unit that does nothing, and then for each item a unit that is no fuel and what it does. The
//! first item that closes otherwise than fine closes the batch. What stands behind the page is any [`PageHost`]: the plans of
//! events, calls and replies are made over what it promises.
//!
//! | what | its definition in `specs/` |
//! |---|---|
//! | a batch of items, whatever the items do ([`Items`]) | `Batch.batch_plan`, by `Batch.items_from` |
//! | [`Batch`], which plans one item after another | `Batch.left_of_batch` |
//! | an event, a call and a reply | `Items.item_plan`: `Rules.event` of the page, `Items.call_plan`, `Items.reply_plan` |
//! | what items come to over a page ([`PageHost`]) | `Rules.Rules`: events by `Rules.Reports`, replies by `Rules.Delivers`, calls by `Rules.StandsSo` |
//! | which reported calls are served | `Served.IsServed`, the longest prefix of them that the script made |
//!
//! | law | its definition |
//! |---|---|
//! | [`served_is_one`]: there is one such prefix | `Served.ServedIsOne` |
//! | [`served_stepwise`]: it is found call by call | `Served.ServedStepwise` |
//!
//! A layer above may rest on this: want of memory at a step of an item comes only where its flow has room for fewer nodes than
//! the page's document may have, and leaves heap and page as before that step.

mod batch;
mod laws;
mod page_host;
mod session;

pub use batch::{Batch, Items, Stage};
pub use laws::{served_is_one, served_stepwise};
pub use page_host::{Callback, FlowCall, PageHost, Position, ReplyRefused, ReportRefused};
pub use session::{Item, SessionItems, UnderWay};
