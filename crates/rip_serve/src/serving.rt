ghost use Rattle.std.specs.Prelude.{◌≡◌, ◌≤◌, ◌<◌, ℕ, [], OnOk};
ghost use Rattle.rip_log.specs.Entries.{ended, entry_text};
ghost use Rattle.rip_history.specs.Run.{first_state};
ghost use Rattle.rip_history.specs.Services.{Service as Meant};
ghost use Rattle.rip_server.specs.Acts.{seen};
ghost use Rattle.rip_server.specs.Puts.{Counts, IsPut};
ghost use Rattle.rip_server.specs.Standing.{IsReady, IsServer};
ghost use Rattle.rip_server.specs.Turning.{Faults, outer, site_of, source};
ghost use Rattle.rip_serve.specs.Making.{MakesTo, RunsTo, status_for, stop_for};
ghost use Rattle.rip_serve.specs.Serving.{Serves};

use rip_history::{Service, Sessions};
use rip_log::Entry;
use rip_outer::{Clock, Door, Sink, Words};
use rip_server::turn::{Server, Site, TurnEnd};
use rip_server::{Halt, put_entry};
use std::alloc::Global;

/// How serving stops.
#[derive(Clone, Copy, Debug, PartialEq, Eq)]
pub enum Stop {
    /// The door is closed, and nothing is to be done any more: status 0.
    Idle,
    /// As many turns were made as may be: status 3.
    TurnsSpent,
    /// The sink or the door failed.
    Outside,
    /// Want of memory for the server, a connection, its bytes, the log or an answer.
    Memory,
}

/// Serves a site: makes turns until the door is closed and nothing is to be done, or as many as may
/// be, and then puts the last line of the log, with the status. Where the outside fails, or memory
/// is wanting, it stops at once.
pub fn serve<S: Sessions, V: Service, D: Door, C: Clock, W: Words, K: Sink>(
    alloc: Global,
    site: &Site<'_, S>,
    service: &mut V,
    door: &mut D,
    clock: &mut C,
    words: &mut W,
    out: &mut K,
    turns: u64,
) -> Stop
    ensures serves { (meant : Meant) → V.replies_as service.old meant []
        → Serves (site_of (S.meaning site.now.sessions.now) meant site.now.limit site.now.page.now)
        turns result
        (outer (seen (D.sent door.old) (D.knocks door.old) (D.shuts door.old)
        (D.asked door.old) (K.held out.old)) (source (C.told clock.old) (C.coming clock.old))
        (source (W.told words.old) (W.coming words.old)) (D.count door.old) (K.count out.old))
        (outer (seen (D.sent door.new) (D.knocks door.new) (D.shuts door.new)
        (D.asked door.new) (K.held out.new)) (source (C.told clock.new) (C.coming clock.new))
        (source (W.told words.new) (W.coming words.new)) (D.count door.new) (K.count out.new)) }
{
    match run(alloc, site, service, door, clock, words, out, turns) {
        Ok(TurnEnd::Over) => Stop::Idle,
        Ok(TurnEnd::On) => Stop::TurnsSpent,
        Err(halt) => stop_of(halt),
    }
}

/// Why serving stops before its end.
fn stop_of(halt: Halt) -> Stop
    ensures { result ≡ stop_for halt }
{
    match halt {
        Halt::Outside => Stop::Outside,
        Halt::Memory => Stop::Memory,
    }
}

/// A whole run, with its last line.
fn run<S: Sessions, V: Service, D: Door, C: Clock, W: Words, K: Sink>(
    alloc: Global,
    site: &Site<'_, S>,
    service: &mut V,
    door: &mut D,
    clock: &mut C,
    words: &mut W,
    out: &mut K,
    turns: u64,
) -> Result<TurnEnd, Halt>
    ensures faults { Faults result (D.count door.old) (D.count door.new)
        (K.count out.old) (K.count out.new) }
    ensures runs { (meant : Meant) → V.replies_as service.old meant []
        → RunsTo (site_of (S.meaning site.now.sessions.now) meant site.now.limit site.now.page.now)
        turns result
        (outer (seen (D.sent door.old) (D.knocks door.old) (D.shuts door.old)
        (D.asked door.old) (K.held out.old)) (source (C.told clock.old) (C.coming clock.old))
        (source (W.told words.old) (W.coming words.old)) (D.count door.old) (K.count out.old))
        (outer (seen (D.sent door.new) (D.knocks door.new) (D.shuts door.new)
        (D.asked door.new) (K.held out.new)) (source (C.told clock.new) (C.coming clock.new))
        (source (W.told words.new) (W.coming words.new)) (D.count door.new) (K.count out.new)) }
{
    let mut server = Server::make::<S, D>(alloc, site.limit)?;
    let end = make_turns(
        alloc,
        &mut server,
        site,
        service,
        door,
        clock,
        words,
        out,
        turns,
    )?;
    put_end(alloc, out, server.turns, end)?;
    Ok(end)
}

/// Makes turns until one is the last, or as many as may be.
fn make_turns<S: Sessions, V: Service, D: Door, C: Clock, W: Words, K: Sink>(
    alloc: Global,
    server: &mut Server<S::Session>,
    site: &Site<'_, S>,
    service: &mut V,
    door: &mut D,
    clock: &mut C,
    words: &mut W,
    out: &mut K,
    turns: u64,
) -> Result<TurnEnd, Halt>
    requires none { server.old.turns ≡ 0 }
    requires ready { IsReady (D.is_open door.old) server.old }
    ensures faults { Faults result (D.count door.old) (D.count door.new)
        (K.count out.old) (K.count out.new) }
    ensures makes { (meant : Meant)
        → IsServer (S.stands site.now.sessions.now) (S.meaning site.now.sessions.now)
        site.now.limit server.old first_state
        → V.replies_as service.old meant []
        → MakesTo (site_of (S.meaning site.now.sessions.now) meant site.now.limit site.now.page.now)
        turns result server.new.turns
        (outer (seen (D.sent door.old) (D.knocks door.old) (D.shuts door.old)
        (D.asked door.old) (K.held out.old)) (source (C.told clock.old) (C.coming clock.old))
        (source (W.told words.old) (W.coming words.old)) (D.count door.old) (K.count out.old))
        (outer (seen (D.sent door.new) (D.knocks door.new) (D.shuts door.new)
        (D.asked door.new) (K.held out.new)) (source (C.told clock.new) (C.coming clock.new))
        (source (W.told words.new) (W.coming words.new)) (D.count door.new) (K.count out.new)) }
{
    while server.turns < turns {
        match server.turn(alloc, site, service, door, clock, words, out)? {
            TurnEnd::On => {}
            TurnEnd::Over => return Ok(TurnEnd::Over),
        }
    }
    Ok(TurnEnd::On)
}

/// Puts the last line of the log: how many turns were made, and the status.
fn put_end<K: Sink>(alloc: Global, out: &mut K, turns: u64, end: TurnEnd) -> Result<(), Halt>
    ensures put { IsPut result (entry_text (ended turns (status_for end)))
        (K.held out.old) (K.held out.new) }
    ensures counted { Counts result (K.count out.old) (K.count out.new) }
{
    let entry = Entry::Ended {
        turn: turns,
        status: status_of(end),
    };
    put_entry(alloc, out, &entry)
}

/// The status of a run: 0 where it is over, 3 where its turns are spent.
fn status_of(end: TurnEnd) -> u8
    ensures { result ≡ status_for end }
{
    match end {
        TurnEnd::Over => 0,
        TurnEnd::On => 3,
    }
}
