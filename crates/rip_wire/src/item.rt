use rip_base::{EventKind, List, Units};
use rip_data::DatumList;

/// The most items that a batch has.
pub const MOST_ITEMS: usize = 64;

/// The greatest number of a batch.
pub const MOST_BATCHES: u64 = 9_007_199_254_740_991;

/// The most letters of a name of a call.
pub const LONGEST_NAME: usize = 64;

/// What a browser reports, in the order in which it happened.
#[derive(Drop)]
pub enum Item {
    /// An event of the user at the node of this number. It has a text exactly where it is an input, and a place only
    /// where it is a change.
    Event {
        kind: EventKind,
        node: u32,
        text: Option<Units>,
        place: Option<u32>,
    },
    /// The script made its call of this number, counted from 1.
    Call {
        number: u64,
        name: Units,
        args: DatumList,
    },
    /// The reply to the call of this number was delivered.
    Reply {
        number: u64,
    },
}

/// The items of a batch, in order.
pub type ItemList = List<Item>;

/// Items that are reported together. A session's batches are numbered from 1.
#[derive(Drop)]
pub struct Batch {
    pub number: u64,
    pub items: ItemList,
}
