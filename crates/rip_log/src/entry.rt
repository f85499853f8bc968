use rip_base::{List, Units};
use rip_data::{Datum, DatumList};
use rip_wire::{Batch, Ending};

/// One event of a run. Turns are numbered from 1, and so are sessions, in the order of their opening; moments are
/// milliseconds.
#[derive(Drop)]
pub enum Entry {
    /// A session was opened.
    Opened {
        turn: u64,
        session: u32,
        id: u128,
        seed: u32,
        time: u64,
    },
    /// A batch was admitted.
    Admitted {
        turn: u64,
        session: u32,
        batch: Batch,
    },
    /// A reported call was served: the script made it in its place.
    Served {
        turn: u64,
        session: u32,
        batch: u64,
        number: u64,
        name: Units,
        args: DatumList,
        time: u64,
        reply: Datum,
    },
    /// A batch ran to its end, or ended its session. The opening is batch 0.
    Done {
        turn: u64,
        session: u32,
        batch: u64,
        ended: Option<Ending>,
    },
    /// The client closed the session.
    Closed {
        turn: u64,
        session: u32,
    },
    /// The run is over: with 0 all is over, with 3 the turns are spent.
    Ended {
        turn: u64,
        status: u8,
    },
}

/// The entries of a history, in order.
pub type Entries = List<Entry>;
