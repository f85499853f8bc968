use crate::ending::Ending;
use rip_base::List;
use rip_data::Datum;

/// A call that was served: its number, when, and what was replied.
#[derive(Drop)]
pub struct ServedCall {
    pub number: u64,
    pub time: u64,
    pub reply: Datum,
}

/// The served calls of a batch, in order.
pub type ServedList = List<ServedCall>;

/// What a batch comes to: how it ended the session, if it did, and its served calls.
#[derive(Drop)]
pub struct Answer {
    pub number: u64,
    pub ended: Option<Ending>,
    pub served: ServedList,
}
