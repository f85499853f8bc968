ghost use Rattle.std.specs.Prelude.{◌≡◌, ◌<◌, ◌^◌, ◌∷◌, List, ℕ, Some, map, option_map, OnOk};
ghost use Rattle.rip_log.specs.Entries.{Recorded, recorded_of};
ghost use Rattle.rip_history.specs.Run.{Site, called_so_far};
ghost use Rattle.rip_history.specs.Services.{Service as Meant};
ghost use Rattle.rip_history.specs.Stages.{Stage};
ghost use Rattle.rip_table.specs.Rolls.{IsAtRest, IsKept, IsRollOf, IsSound, waiting};
ghost use Rattle.rip_server.specs.Acts.{seen};
ghost use Rattle.rip_server.specs.Links.{links_of, there_of, AreLinks};
ghost use Rattle.rip_wire.specs.Reasons.{reason_of};
ghost use Rattle.rip_server.specs.Advancing.{Answered, IsDoneIn, IsDoneSo, Told, AdvancedOne, AdvancedSo};
ghost use Rattle.rip_server.specs.Handling.{state_of, AreAt};
ghost use Rattle.rip_server.specs.Turning.{Faults, site_of};

use crate::turn::answers::batch_answer;
use crate::turn::decide::Moment;
use crate::{Connections, Halt, put_entries, put_entry};
use rip_history::{Progress, SLICE, Service, Sessions, Slice};
use rip_log::Entry;
use rip_outer::{Door, Sink};
use rip_table::roll::{Advanced, Legacy, Roll};
use rip_wire::{Ending, Reason};
use std::alloc::Global;

/// A batch that is done: its session, its number, how it ended that, and what that leaves.
#[derive(Drop)]
struct DoneBatch {
    session: u32,
    batch: u64,
    how: Option<Ending>,
    legacy: Option<Legacy>,
}

/// Why a session ended, if it did.
fn reason_in(how: &Option<Ending>) -> Option<Reason>
    ensures { result ≡ option_map reason_of how.now }
{
    match how {
        Some(ending) => Some(ending.reason()),
        None => None,
    }
}

/// Puts that a batch is done, and answers it on the connection that waits for it.
fn finish<T: Drop, D: Door, K: Sink>(
    connections: &mut Connections,
    roll: &Roll<T>,
    alloc: Global,
    page: &[u8],
    door: &mut D,
    out: &mut K,
    turn: u64,
    done: DoneBatch,
) -> Result<(), Halt>
    requires { AreLinks (D.is_open door.old) (links_of connections.old) }
    ensures links { OnOk result (AreLinks (D.is_open door.new) (links_of connections.new)) }
    ensures opened { connections.new.opened ≡ connections.old.opened }
    ensures finished { (site : Site) (limit : ℕ) (h : List Recorded)
        → site.page ≡ page.now → IsKept limit roll.now h
        → IsDoneSo done.how done.legacy done.session done.batch h
        → Answered site turn done.session done.batch done.how h result
        (there_of connections.old.list.items) (there_of connections.new.list.items)
        (seen (D.sent door.old) (D.knocks door.old) (D.shuts door.old)
        (D.asked door.old) (K.held out.old))
        (seen (D.sent door.new) (D.knocks door.new) (D.shuts door.new)
        (D.asked door.new) (K.held out.new)) }
    ensures faults { Faults result (D.count door.old) (D.count door.new)
        (K.count out.old) (K.count out.new) }
{
    let DoneBatch {
        session,
        batch,
        how,
        legacy,
    } = done;
    let ended = reason_in(&how);
    let entry = Entry::Done {
        turn,
        session,
        batch,
        ended: how,
    };
    put_entry(alloc, out, &entry)?;
    let answer = batch_answer(alloc, roll, page, session, batch, ended, &legacy)?;
    connections.answer(alloc, door, session, answer)?;
    Ok(())
}

/// Puts what a session did in a slice, and answers its batch, if that is done.
fn tell<T: Drop, D: Door, K: Sink>(
    connections: &mut Connections,
    roll: &Roll<T>,
    alloc: Global,
    page: &[u8],
    door: &mut D,
    out: &mut K,
    turn: u64,
    session: u32,
    advanced: Advanced,
) -> Result<(), Halt>
    requires { AreLinks (D.is_open door.old) (links_of connections.old) }
    ensures links { OnOk result (AreLinks (D.is_open door.new) (links_of connections.new)) }
    ensures opened { connections.new.opened ≡ connections.old.opened }
    ensures told { (site : Site) (limit : ℕ) (h es : List Recorded)
        → site.page ≡ page.now → IsKept limit roll.now h
        → IsDoneIn advanced.progress advanced.legacy session advanced.batch h
        → map recorded_of advanced.entries.items ≡ es
        → Told site turn session advanced.batch es advanced.progress h result
        (there_of connections.old.list.items) (there_of connections.new.list.items)
        (seen (D.sent door.old) (D.knocks door.old) (D.shuts door.old)
        (D.asked door.old) (K.held out.old))
        (seen (D.sent door.new) (D.knocks door.new) (D.shuts door.new)
        (D.asked door.new) (K.held out.new)) }
    ensures faults { Faults result (D.count door.old) (D.count door.new)
        (K.count out.old) (K.count out.new) }
{
    let Advanced {
        batch,
        entries,
        progress,
        legacy,
    } = advanced;
    put_entries(alloc, out, entries.as_slice())?;
    match progress {
        Progress::Busy => Ok(()),
        Progress::Finished(how) => finish(
            connections,
            roll,
            alloc,
            page,
            door,
            out,
            turn,
            DoneBatch {
                session,
                batch,
                how,
                legacy,
            },
        ),
    }
}

/// The next busy session goes on for a slice.
fn advance_one<S: Sessions, V: Service, D: Door, K: Sink>(
    connections: &mut Connections,
    roll: &mut Roll<S::Session>,
    alloc: Global,
    sessions: &S,
    page: &[u8],
    service: &mut V,
    door: &mut D,
    out: &mut K,
    at: Moment,
    session: u32,
) -> Result<(), Halt>
    requires links { AreLinks (D.is_open door.old) (links_of connections.old) }
    requires sound { IsSound roll.old }
    requires next { (rest : List ℕ) × (waiting roll.old ≡ session ∷ rest) }
    requires time { at.time < 2 ^ 53 }
    ensures links { OnOk result (AreLinks (D.is_open door.new) (links_of connections.new)) }
    ensures opened { connections.new.opened ≡ connections.old.opened }
    ensures sound { IsSound roll.new }
    ensures waiting { (rest : List ℕ) → waiting roll.old ≡ session ∷ rest
        → waiting roll.new ≡ rest }
    ensures advanced { (meant : Meant) (limit : ℕ) (h : List Recorded) (stages : List Stage)
        → IsRollOf (S.stands sessions.now) (S.meaning sessions.now) limit roll.old h stages
        → V.replies_as service.old meant (called_so_far h)
        → AdvancedOne (site_of (S.meaning sessions.now) meant limit page.now) at.turn at.time
        session
        (state_of (links_of connections.old) h stages) result
        (λ s. AreAt (S.stands sessions.now) (S.meaning sessions.now) limit connections.new
        roll.new s
        × V.replies_as service.new meant (called_so_far s.history))
        (seen (D.sent door.old) (D.knocks door.old) (D.shuts door.old)
        (D.asked door.old) (K.held out.old))
        (seen (D.sent door.new) (D.knocks door.new) (D.shuts door.new)
        (D.asked door.new) (K.held out.new)) }
    ensures faults { Faults result (D.count door.old) (D.count door.new)
        (K.count out.old) (K.count out.new) }
{
    let slice = Slice {
        turn: at.turn,
        session,
        time: at.time,
        units: SLICE,
    };
    let advanced = roll.advance(alloc, sessions, service, &slice);
    tell(
        connections,
        roll,
        alloc,
        page,
        door,
        out,
        at.turn,
        session,
        advanced,
    )
}

/// Each busy session goes on for a slice, by ordinal.
pub(crate) fn advance_all<S: Sessions, V: Service, D: Door, K: Sink>(
    connections: &mut Connections,
    roll: &mut Roll<S::Session>,
    alloc: Global,
    sessions: &S,
    page: &[u8],
    service: &mut V,
    door: &mut D,
    out: &mut K,
    at: Moment,
) -> Result<(), Halt>
    requires links { AreLinks (D.is_open door.old) (links_of connections.old) }
    requires sound { IsSound roll.old }
    requires time { at.time < 2 ^ 53 }
    ensures links { OnOk result (AreLinks (D.is_open door.new) (links_of connections.new)) }
    ensures opened { connections.new.opened ≡ connections.old.opened }
    ensures sound { OnOk result (IsSound roll.new) }
    ensures rest { OnOk result (IsAtRest roll.new) }
    ensures advanced { (meant : Meant) (limit : ℕ) (h : List Recorded) (stages : List Stage)
        → IsRollOf (S.stands sessions.now) (S.meaning sessions.now) limit roll.old h stages
        → V.replies_as service.old meant (called_so_far h)
        → AdvancedSo (site_of (S.meaning sessions.now) meant limit page.now) at.turn at.time
        (waiting roll.old) (state_of (links_of connections.old) h stages) result
        (λ s. AreAt (S.stands sessions.now) (S.meaning sessions.now) limit connections.new
        roll.new s
        × V.replies_as service.new meant (called_so_far s.history))
        (seen (D.sent door.old) (D.knocks door.old) (D.shuts door.old)
        (D.asked door.old) (K.held out.old))
        (seen (D.sent door.new) (D.knocks door.new) (D.shuts door.new)
        (D.asked door.new) (K.held out.new)) }
    ensures faults { Faults result (D.count door.old) (D.count door.new)
        (K.count out.old) (K.count out.new) }
{
    while let Some(session) = roll.next_busy() {
        advance_one(
            connections,
            roll,
            alloc,
            sessions,
            page,
            service,
            door,
            out,
            at,
            session,
        )?;
    }
    roll.end_walk::<S>();
    Ok(())
}
