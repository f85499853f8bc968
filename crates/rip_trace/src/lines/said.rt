ghost use Rattle.std.specs.Prelude.{◌≡◌, ◌++◌, OnOk};
ghost use Rattle.rip_wire.specs.Batches.{contents_of};
ghost use Rattle.rip_trace.specs.Said.{batch_line, ended_line, opening_lines, quiet_lines};

use rip_base::{NoMemory, Writer};
use rip_wire::{Batch, Reason, write_batch};
use std::alloc::Global;

/// A session opens on a connection: `open C` and `say C get`.
#[tactic(auto, using(crate::proofs::SaidLemmas::opening_is))]
pub fn write_opening(text: &mut Writer, connection: u64) -> Result<(), NoMemory>
    ensures { OnOk result (text.new ≡ text.old ++ opening_lines connection) }
{
    text.text(b"open ")?;
    text.number(connection)?;
    text.text(b"\nsay ")?;
    text.number(connection)?;
    text.text(b" get\n")
}

/// A session sends a batch: `say C e S BODY`.
#[tactic(auto, using(crate::proofs::SaidLemmas::batch_is))]
pub fn write_batch_line(
    alloc: Global,
    text: &mut Writer,
    connection: u64,
    session: u64,
    batch: &Batch,
) -> Result<(), NoMemory>
    ensures { OnOk result
        (text.new ≡ text.old ++ batch_line connection session (contents_of batch.now)) }
{
    let body = write_batch(batch, alloc)?;
    text.text(b"say ")?;
    text.number(connection)?;
    text.text(b" e ")?;
    text.number(session)?;
    text.text(b" ")?;
    text.text(body.as_slice())?;
    text.text(b"\n")
}

/// So many turns pass in which nothing comes.
#[tactic(auto, using(crate::proofs::SaidLemmas::quiet_more))]
pub fn write_quiet(text: &mut Writer, turns: u64) -> Result<(), NoMemory>
    ensures { OnOk result (text.new ≡ text.old ++ quiet_lines turns) }
{
    for turn in 0..turns {
        text.text(b"quiet\n")?;
    }
    Ok(())
}

/// A session ended so at the gesture of this line, or at 0, its opening.
#[tactic(auto, using(crate::proofs::SaidLemmas::ended_is))]
pub fn write_ended(text: &mut Writer, reason: Reason, line: u64) -> Result<(), NoMemory>
    ensures { OnOk result (text.new ≡ text.old ++ ended_line reason line) }
{
    text.text(b"# ended ")?;
    text.text(reason.word().as_bytes())?;
    text.text(b" ")?;
    text.number(line)?;
    text.text(b"\n")
}
