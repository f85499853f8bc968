ghost use Rattle.std.specs.Prelude.{map};
ghost use Rattle.rip_log.specs.Entries.{recorded_of, entry_text};
ghost use Rattle.rip_server.specs.Puts.{IsPut, Logged, Counts};

use crate::halt::Halt;
use rip_base::Bytes;
use rip_log::{Entry, write_entry};
use rip_outer::Sink;
use std::alloc::Global;

/// Puts the line of an entry to the sink, in one put.
pub fn put_line<K: Sink>(out: &mut K, line: Bytes) -> Result<(), Halt>
    ensures put { IsPut result line (K.held out.old) (K.held out.new) }
    ensures counted { Counts result (K.count out.old) (K.count out.new) }
{
    out.put(line.as_slice())?;
    Ok(())
}

/// Puts an entry to the sink.
pub fn put_entry<K: Sink>(alloc: Global, out: &mut K, entry: &Entry) -> Result<(), Halt>
    ensures put { IsPut result (entry_text (recorded_of entry.now)) (K.held out.old)
        (K.held out.new) }
    ensures counted { Counts result (K.count out.old) (K.count out.new) }
{
    let line = write_entry(entry, alloc)?;
    put_line(out, line)
}

/// Puts entries, one after another.
pub fn put_entries<K: Sink>(alloc: Global, out: &mut K, entries: &[Entry]) -> Result<(), Halt>
    ensures logged { Logged result (map recorded_of entries.now) (K.held out.old) (K.held out.new) }
    ensures counted { Counts result (K.count out.old) (K.count out.new) }
{
    for entry in entries {
        put_entry(alloc, out, entry)?;
    }
    Ok(())
}
