ghost use Rattle.std.specs.Prelude.{◌≡◌, ◌+◌, ◌-◌, ◌<◌, ◌^◌, ℕ, Option, OnOk, IfOk, IfSome, is_some};
ghost use Rattle.std.specs.Option.{option_copied};
ghost use Rattle.rip_history.specs.Run.{State, first_state, called_so_far};
ghost use Rattle.rip_history.specs.Runs.{IsAsking};
ghost use Rattle.rip_history.specs.Services.{Service as Meant};
ghost use Rattle.rip_table.specs.Rolls.{IsLiveAt, lives_at};
ghost use Rattle.rip_outer.specs.declared.connections.TraceKnock.{TraceKnock};
ghost use Rattle.rip_server.specs.Acts.{seen};
ghost use Rattle.rip_server.specs.Asking.{IsClosedBy};
ghost use Rattle.rip_server.specs.Standing.{IsReady, IsServer};
ghost use Rattle.rip_server.specs.Turning.{EndsSo, Faults, TurnsTo, outer, site_of, source};

use crate::turn::advance::advance_all;
use crate::turn::decide::Moment;
use crate::turn::handle::handle_all;
use crate::turn::knock::{is_asking, knock};
use crate::{Connections, Halt};
use rip_base::NoMemory;
use rip_history::{Service, Sessions};
use rip_outer::{Clock, Door, Sink, Words};
use rip_table::roll::Roll;
use std::alloc::Global;

/// What a server serves.
#[derive(Drop)]
pub struct Site<'a, S> {
    pub sessions: &'a S,
    /// How many sessions may live at once.
    pub limit: u32,
    /// The page, as it is answered.
    pub page: &'a [u8],
}

/// Whether another turn is to follow.
#[derive(Clone, Copy, Debug, PartialEq, Eq)]
pub enum TurnEnd {
    On,
    /// The door is closed, and nothing is to be done any more.
    Over,
}

/// A server: its connections, its sessions, and how many turns it made.
#[derive(Drop)]
pub struct Server<T> {
    pub connections: Connections,
    pub roll: Roll<T>,
    pub turns: u64,
}

impl<T: Drop> Server<T> {
    /// A server that has made no turn, of whose sessions so many may live at once.
    pub fn make<S: Sessions<Session = T>, D: Door>(
        alloc: Global,
        limit: u32,
    ) -> Result<Server<T>, NoMemory>
        ensures turns { IfOk result (λ server. server.turns ≡ 0) }
        ensures ready { (door : D) → IfOk result (IsReady (D.is_open door)) }
        ensures stands { (sessions : S) → IfOk result (λ server.
            IsServer (S.stands sessions) (S.meaning sessions) limit server first_state) }
    {
        Ok(Server {
            connections: Connections::make(alloc),
            roll: Roll::make(alloc, limit)?,
            turns: 0,
        })
    }

    /// The session of an ordinal, as it stands at its stage, if one that lives has it.
    pub fn session<S: Sessions<Session = T>>(&self, ordinal: u32) -> Option<&T>
        ensures lives { (sessions : S) (limit : ℕ) (state : State)
            → IsServer (S.stands sessions) (S.meaning sessions) limit self.now state
            → is_some (option_copied result) ≡ lives_at ordinal state.history }
        ensures stands { (sessions : S) (limit : ℕ) (state : State)
            → IsServer (S.stands sessions) (S.meaning sessions) limit self.now state
            → IfSome (option_copied result)
            (IsLiveAt (S.stands sessions) (S.meaning sessions) ordinal state.stages) }
    {
        self.roll.session::<S>(ordinal)
    }

    /// One turn: a knock at the door, the moment, each request that is there, and a slice for each busy session.
    pub fn turn<S: Sessions<Session = T>, V: Service, D: Door, C: Clock, W: Words, K: Sink>(
        &mut self,
        alloc: Global,
        site: &Site<'_, S>,
        service: &mut V,
        door: &mut D,
        clock: &mut C,
        words: &mut W,
        out: &mut K,
    ) -> Result<TurnEnd, Halt>
        requires turns { self.old.turns < 2 ^ 64 - 1 }
        requires ready { IsReady (D.is_open door.old) self.old }
        ensures turns { OnOk result (self.new.turns ≡ self.old.turns + 1) }
        ensures ready { OnOk result (IsReady (D.is_open door.new) self.new) }
        ensures faults { Faults result (D.count door.old) (D.count door.new)
            (K.count out.old) (K.count out.new) }
        ensures turned { (state : State) (meant : Meant)
            → IsServer (S.stands site.now.sessions.now) (S.meaning site.now.sessions.now)
            site.now.limit self.old state
            → V.replies_as service.old meant (called_so_far state.history)
            → TurnsTo (site_of (S.meaning site.now.sessions.now) meant site.now.limit
            site.now.page.now) (self.old.turns + 1) state result
            (λ next. IsServer (S.stands site.now.sessions.now) (S.meaning site.now.sessions.now)
            site.now.limit self.new next
            × V.replies_as service.new meant (called_so_far next.history))
            (outer (seen (D.sent door.old) (D.knocks door.old) (D.shuts door.old)
            (D.asked door.old) (K.held out.old))
            (source (C.told clock.old) (C.coming clock.old))
            (source (W.told words.old) (W.coming words.old)) (D.count door.old) (K.count out.old))
            (outer (seen (D.sent door.new) (D.knocks door.new) (D.shuts door.new)
            (D.asked door.new) (K.held out.new))
            (source (C.told clock.new) (C.coming clock.new))
            (source (W.told words.new) (W.coming words.new)) (D.count door.new) (K.count out.new)) }
    {
        self.turns += 1;
        let busy = is_asking(&self.connections, &self.roll);
        let closed = knock(&mut self.connections, alloc, door, busy)?;
        let at = Moment {
            turn: self.turns,
            time: clock.now(),
        };
        handle_all(
            &mut self.connections,
            &mut self.roll,
            alloc,
            site.sessions,
            door,
            words,
            out,
            at,
        )?;
        advance_all(
            &mut self.connections,
            &mut self.roll,
            alloc,
            site.sessions,
            site.page,
            service,
            door,
            out,
            at,
        )?;
        Ok(end_of(closed, is_asking(&self.connections, &self.roll)))
    }
}

/// Whether the run is over: the door is closed, and nothing is to be done.
fn end_of(closed: bool, busy: bool) -> TurnEnd
    ensures { (knock : Option TraceKnock) (s : State) → IsClosedBy closed knock → IsAsking s busy
        → EndsSo result knock s }
{
    if closed && !busy {
        TurnEnd::Over
    } else {
        TurnEnd::On
    }
}
