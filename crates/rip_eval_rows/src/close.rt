use crate::completion::Stop;
use rip_base::BadReport;

/// How a plan closes. Items are counted from 1 within their batch; each close but the first names the item that ended the
/// batch, and with it the session.
#[derive(Clone, Copy, Debug, PartialEq, Eq)]
pub enum Close {
    /// All is done.
    Fine,
    /// The item is not legal where it stands.
    Refused { item: u32, kind: BadReport },
    /// The item reports another call than the one that the script made at its position, or none was made there.
    Mismatch { item: u32 },
    /// The item met a fault or a limit.
    Stopped { item: u32, stop: Stop },
}
