ghost use Rattle.std.specs.Prelude.{◌≡◌, ◌+◌, ◌↔◌, IsTrue, IfOk, OnOk, map};
ghost use Rattle.rip_log.specs.Entries.{recorded_of};
ghost use Rattle.rip_gen.specs.Pace.{IsPaced, Paces};

use rip_base::NoMemory;
use rip_log::Entry;

/// Whether each request came right behind the answer to the one before. Answers want of memory where one did not.
pub(crate) fn check_pace(entries: &[Entry]) -> Result<(), NoMemory>
    ensures { OnOk result (IsPaced (map recorded_of entries.now)) }
{
    let mut answered = Some(0);
    for entry in entries {
        answered = pace(answered, entry)?;
    }
    Ok(())
}

/// What holds behind an entry, where the request before it was answered in this turn, or its answer is awaited.
fn pace(answered: Option<u64>, entry: &Entry) -> Result<Option<u64>, NoMemory>
    ensures { IfOk result (Paces answered (recorded_of entry.now)) }
{
    match (answered, entry) {
        (Some(last), Entry::Opened { turn, .. }) if is_behind(*turn, last, 2) => Ok(None),
        (Some(last), Entry::Admitted { turn, .. }) if is_behind(*turn, last, 1) => Ok(None),
        (None, Entry::Served { .. }) => Ok(None),
        (None, Entry::Done { turn, .. }) => Ok(Some(*turn)),
        (Some(last), Entry::Ended { turn, .. }) if is_behind(*turn, last, 1) => Ok(Some(last)),
        _ => Err(NoMemory),
    }
}

/// Whether a turn is so many behind another.
fn is_behind(turn: u64, last: u64, many: u64) -> bool
    ensures { IsTrue result ↔ (turn ≡ last + many) }
{
    last <= turn && turn - last == many
}
