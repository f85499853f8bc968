ghost use Rattle.std.specs.Prelude.{◌≡◌, IfOk, OnErr};
ghost use Rattle.rip_replica.specs.Rooms.{IsMismatch, IsNoLack};
ghost use Rattle.rip_session.specs.Endings.{ending_of, mismatch, stopped};

use crate::work::work::Work;
use rip_base::{Bytes, NoMemory};
use rip_eval_rows::{Close, Stop};
use rip_host::Browser;
use rip_wire::Ending;
use std::alloc::Global;

/// How an item of this batch that closed so, and left this browser, ends the session.
pub(crate) fn ending_of(
    alloc: Global,
    batch: &Vec<Work>,
    close: Close,
    browser: &Browser,
) -> Result<Ending, NoMemory>
    ensures ending { IfOk result (λ e. e ≡ ending_of batch.now.items close browser.now) }
    ensures told { IfOk result IsNoLack }
    ensures memory { OnErr result (IsMismatch close) }
{
    match close {
        Close::Fine => Ok(Ending::Closed),
        Close::Refused { item, kind } => Ok(Ending::BadReport { item, kind }),
        Close::Mismatch { item } => mismatch(alloc, batch, item, browser),
        Close::Stopped { item, stop } => Ok(stopped(item, stop)),
    }
}

/// An item met a fault or a limit.
fn stopped(item: u32, stop: Stop) -> Ending
    ensures stopped { result ≡ stopped item stop }
    ensures told { IsNoLack result }
{
    match stop {
        Stop::Fault(fault) => Ending::Fault { item, fault },
        Stop::Limit(limit) => Ending::Limit { item, limit },
    }
}

/// The item of this number reports another call than the one that the script made, if it made one.
fn mismatch(
    alloc: Global,
    batch: &Vec<Work>,
    item: u32,
    browser: &Browser,
) -> Result<Ending, NoMemory>
    ensures mismatch { IfOk result (λ e. e ≡ mismatch batch.now.items item browser.now) }
    ensures told { IfOk result IsNoLack }
{
    let (number, reported) = match batch.get(item.saturating_sub(1) as usize) {
        Some(work) => work.reported(alloc)?,
        None => (0, Bytes::new(alloc)),
    };
    Ok(Ending::Mismatch {
        item,
        number,
        reported,
        made: browser.calls.front(alloc)?,
    })
}
