ghost use Rattle.std.specs.Prelude.{◌≡◌, [], OnOk};
ghost use Rattle.rip_outer.specs.Writing.{CountsPut};
ghost use Rattle.rip_script.specs.Steps.{Passes};

use rip_base::Writer;
use rip_outer::{Sink, SinkError};

/// The bytes from which on a block goes to the sink.
const BLOCK: usize = 4096;

/// Puts the block and begins a new one.
pub fn put_block<S: Sink>(block: &mut Writer, out: &mut S) -> Result<(), SinkError>
    ensures passed { Passes result block.old block.new (S.held out.old) (S.held out.new) }
    ensures counted { CountsPut result (S.count out.old) (S.count out.new) }
    ensures all { OnOk result (block.new ≡ []) }
{
    out.put(block.as_slice())?;
    block.clear();
    Ok(())
}

/// Puts the block and begins a new one, once the block is long enough.
pub fn put_full_block<S: Sink>(block: &mut Writer, out: &mut S) -> Result<(), SinkError>
    ensures passed { Passes result block.old block.new (S.held out.old) (S.held out.new) }
    ensures counted { CountsPut result (S.count out.old) (S.count out.new) }
{
    if block.as_slice().len() < BLOCK {
        return Ok(());
    }
    put_block(block, out)
}
