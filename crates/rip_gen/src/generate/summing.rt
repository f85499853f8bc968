ghost use Rattle.std.specs.Prelude.{◌≡◌, IfOk, map};
ghost use Rattle.rip_gen.specs.Plans.{plan_of};
ghost use Rattle.rip_log.specs.Entries.{recorded_of};
ghost use Rattle.rip_gen.specs.Counts.{IsSummedUp, generate_line};

use crate::generate::count::{Kind, last_turn, many};
use rip_base::{Bytes, NoMemory, Writer};
use rip_log::Entry;
use std::alloc::Global;

/// The line that sums up a history in which so many sessions are to be opened.
#[tactic(auto, using(crate::proofs::SumLemmas::summed_up_so))]
pub(crate) fn sum_up(
    alloc: Global,
    n: u32,
    sessions: u32,
    entries: &[Entry],
) -> Result<Bytes, NoMemory>
    requires { sessions ≡ (plan_of n).sessions }
    ensures { IfOk result (IsSummedUp n (map recorded_of entries.now)) }
{
    let turns = last_turn(entries)?;
    if many(entries, Kind::Lack) != 0 || many(entries, Kind::Opening) != u64::from(sessions) {
        return Err(NoMemory);
    }
    let served = many(entries, Kind::Service);
    let ended = many(entries, Kind::End);
    line(alloc, n, sessions, served, ended, turns)
}

/// The line.
fn line(
    alloc: Global,
    n: u32,
    sessions: u32,
    served: u64,
    ended: u64,
    turns: u64,
) -> Result<Bytes, NoMemory>
    ensures { IfOk result (λ line. line ≡ generate_line n sessions served ended turns) }
{
    let mut text = Writer::new(alloc);
    text.text(b"generate ")?;
    text.number(u64::from(n))?;
    text.text(b" sessions ")?;
    text.number(u64::from(sessions))?;
    text.text(b" served ")?;
    text.number(served)?;
    text.text(b" ended ")?;
    text.number(ended)?;
    text.text(b" turns ")?;
    text.number(turns)?;
    text.text(b"\n")?;
    Ok(text.into_bytes())
}
