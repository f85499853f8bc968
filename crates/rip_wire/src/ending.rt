ghost use Rattle.std.specs.Prelude.{◌≡◌};
ghost use Rattle.rip_wire.specs.Reasons.{reason_of, reason_word};

use rip_base::{BadReport, Bytes, Fault, Limit};

/// Why a session ended. An item is counted from 1 within its batch.
#[derive(Debug, Drop)]
pub enum Ending {
    /// The reported call is not the call that the script made at its position, if it made one; both as the canonical
    /// text of `[NAME,ARGS]`.
    Mismatch {
        item: u32,
        number: u64,
        reported: Bytes,
        made: Option<Bytes>,
    },
    /// The item is not legal where it stands.
    BadReport {
        item: u32,
        kind: BadReport,
    },
    /// The item would have passed the limit.
    Limit {
        item: u32,
        limit: Limit,
    },
    /// The item left the profile.
    Fault {
        item: u32,
        fault: Fault,
    },
    /// Memory ran out at the item.
    Memory {
        item: u32,
    },
    /// The client closed the session.
    Closed,
}

/// Why a session ended, in one word.
#[derive(Clone, Copy, Debug, PartialEq, Eq)]
pub enum Reason {
    Mismatch,
    Report,
    Fuel,
    Cells,
    Units,
    Nodes,
    Depth,
    Queue,
    Replies,
    NotWhole,
    Infinite,
    OutOfRange,
    Hole,
    NotInProfile,
    ObjectToPrimitive,
    BadArgument,
    LoneSurrogate,
    TextTooLong,
    Memory,
    Closed,
}

impl Ending {
    /// The reason, without what the ending keeps.
    pub fn reason(&self) -> Reason
        ensures { result ≡ reason_of self.now }
    {
        match self {
            Ending::Mismatch { .. } => Reason::Mismatch,
            Ending::BadReport { .. } => Reason::Report,
            Ending::Limit { limit, .. } => Reason::from(*limit),
            Ending::Fault { fault, .. } => Reason::from(*fault),
            Ending::Memory { .. } => Reason::Memory,
            Ending::Closed => Reason::Closed,
        }
    }
}

impl From<Limit> for Reason {
    ghost use Rattle.rip_wire.specs.Reasons.{limit_reason};

    ghost from_gives = { λ limit reason. reason ≡ limit_reason limit };

    fn from(limit: Limit) -> Reason {
        match limit {
            Limit::Fuel => Reason::Fuel,
            Limit::Cells => Reason::Cells,
            Limit::Units => Reason::Units,
            Limit::Nodes => Reason::Nodes,
            Limit::Depth => Reason::Depth,
            Limit::Queue => Reason::Queue,
            Limit::Replies => Reason::Replies,
        }
    }
}

impl From<Fault> for Reason {
    ghost use Rattle.rip_wire.specs.Reasons.{fault_reason};

    ghost from_gives = { λ fault reason. reason ≡ fault_reason fault };

    fn from(fault: Fault) -> Reason {
        match fault {
            Fault::NotWhole => Reason::NotWhole,
            Fault::Infinite => Reason::Infinite,
            Fault::OutOfRange => Reason::OutOfRange,
            Fault::Hole => Reason::Hole,
            Fault::NotInProfile => Reason::NotInProfile,
            Fault::ObjectToPrimitive => Reason::ObjectToPrimitive,
            Fault::BadArgument => Reason::BadArgument,
            Fault::LoneSurrogate => Reason::LoneSurrogate,
            Fault::TextTooLong => Reason::TextTooLong,
        }
    }
}

impl Reason {
    /// The word by which answers and logs spell it.
    pub fn word(self) -> &'static str
        ensures { result.now ≡ reason_word self }
    {
        match self {
            Reason::Mismatch => "mismatch",
            Reason::Report => "report",
            Reason::Fuel => "fuel",
            Reason::Cells => "cells",
            Reason::Units => "units",
            Reason::Nodes => "nodes",
            Reason::Depth => "depth",
            Reason::Queue => "queue",
            Reason::Replies => "replies",
            Reason::NotWhole => "not-whole",
            Reason::Infinite => "infinite",
            Reason::OutOfRange => "out-of-range",
            Reason::Hole => "hole",
            Reason::NotInProfile => "not-in-profile",
            Reason::ObjectToPrimitive => "object-to-primitive",
            Reason::BadArgument => "bad-argument",
            Reason::LoneSurrogate => "lone-surrogate",
            Reason::TextTooLong => "text-too-long",
            Reason::Memory => "memory",
            Reason::Closed => "closed",
        }
    }
}
