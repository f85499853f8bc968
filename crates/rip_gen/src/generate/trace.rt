ghost use Rattle.std.specs.Prelude.{◌≡◌, ◌++◌, ◌<◌, ℕ, OnOk};
ghost use Rattle.rip_gen.specs.Work.{open_lines, told_line, told_lines, waits};

use rip_base::{NoMemory, Writer};
use rip_client::ToldBatch;
use rip_trace::lines::{write_batch_line, write_opening, write_quiet};
use std::alloc::Global;

/// The units of a slice.
const SLICE: u64 = 1_000;

/// The opening of the session at a place, which takes so many units, and the turns in which its answer is waited for.
pub(crate) fn write_open(text: &mut Writer, place: u32, cost: u64) -> Result<(), NoMemory>
    ensures { OnOk result (text.new ≡ text.old ++ open_lines place (waits cost)) }
{
    write_opening(text, u64::from(place))?;
    write_quiet(text, waits(cost))
}

/// The batches of a gesture of the session at a place, and behind each the turns in which its answer is waited for.
pub(crate) fn write_told(
    alloc: Global,
    text: &mut Writer,
    place: u32,
    batches: &[ToldBatch],
) -> Result<(), NoMemory>
    ensures { OnOk result (text.new ≡ text.old ++ told_lines place batches.now) }
{
    for told in batches {
        write_batch(alloc, text, place, told)?;
    }
    Ok(())
}

/// A batch, and the turns behind it.
fn write_batch(
    alloc: Global,
    text: &mut Writer,
    place: u32,
    told: &ToldBatch,
) -> Result<(), NoMemory>
    ensures { OnOk result (text.new ≡ text.old ++ told_line place told.now) }
{
    let connection = u64::from(place);
    write_batch_line(alloc, text, connection, connection + 1, &told.batch)?;
    write_quiet(text, waits(told.cost))
}

/// The turns behind the first of what takes so many units.
fn waits(cost: u64) -> u64
    ensures { result ≡ waits cost }
{
    cost.saturating_sub(1) / SLICE
}
