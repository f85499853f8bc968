use crate::events::Events;
use crate::replies::Undelivered;
use rip_base::{Span, Whole};
use rip_calls::Queue;
use rip_convert::CallRow;
use rip_dom::Dom;
use rip_events::Listeners;
use rip_forms::Forms;
use std::alloc::Global;

/// What stands behind the objects of a page that are not the heap's: the document, its listeners and events, and
/// `ripley`. The rooms of all are taken when it is made, so that no call after that takes memory.
#[derive(Drop)]
pub struct Browser {
    pub dom: Dom,
    pub forms: Forms,
    pub listeners: Listeners,
    pub events: Events,
    /// The calls that the script made, until they are served.
    pub calls: Queue,
    /// The replies to those that were served, until they are delivered.
    pub undelivered: Undelivered,
    /// Where the text of a call is written.
    pub row: CallRow,
    /// The moment that `ripley.now` tells, in milliseconds.
    pub moment: Whole,
    /// The random word.
    pub random: u32,
    /// The body of the page, also where a script took it out.
    pub body: Option<u32>,
    /// Where the text `class` stands, for `className`.
    pub class: Span,
    pub alloc: Global,
}
