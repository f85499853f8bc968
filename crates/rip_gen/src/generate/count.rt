ghost use Rattle.std.specs.Prelude.{◌≡◌, IfOk, map};
ghost use Rattle.rip_log.specs.Entries.{recorded_of};
ghost use Rattle.rip_gen.specs.Counts.{EndsIn, is_of, many};

use rip_base::NoMemory;
use rip_log::Entry;
use rip_wire::Ending;

/// What is counted in a history.
#[derive(Clone, Copy, Debug)]
pub enum Kind {
    /// A session was opened.
    Opening,
    /// A call was served.
    Service,
    /// A batch ended its session.
    End,
    /// A batch ended its session for want of memory.
    Lack,
}

/// How many entries are of a kind.
#[tactic(auto, using(crate::proofs::CountLemmas::many_none, crate::proofs::CountLemmas::many_more, crate::proofs::CountLemmas::many_same, crate::proofs::CountLemmas::many_all))]
pub(crate) fn many(entries: &[Entry], kind: Kind) -> u64
    ensures { result ≡ many kind (map recorded_of entries.now) }
{
    let mut many = 0;
    for entry in entries {
        if is_of(entry, kind) {
            many += 1;
        }
    }
    many
}

/// Whether an entry is of a kind.
fn is_of(entry: &Entry, kind: Kind) -> bool
    ensures { result ≡ is_of kind (recorded_of entry.now) }
{
    match kind {
        Kind::Opening => matches!(entry, Entry::Opened { .. }),
        Kind::Service => matches!(entry, Entry::Served { .. }),
        Kind::End => matches!(entry, Entry::Done { ended: Some(_), .. }),
        Kind::Lack => matches!(
            entry,
            Entry::Done {
                ended: Some(Ending::Memory { .. }),
                ..
            }
        ),
    }
}

/// The turn of the last entry, which ends the history.
pub(crate) fn last_turn(entries: &[Entry]) -> Result<u64, NoMemory>
    ensures { IfOk result (λ turn. EndsIn turn (map recorded_of entries.now)) }
{
    match entries.last() {
        Some(Entry::Ended { turn, status: 0 }) => Ok(*turn),
        _ => Err(NoMemory),
    }
}
