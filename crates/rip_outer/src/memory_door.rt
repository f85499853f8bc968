ghost use Rattle.std.specs.Prelude.{◌≡◌, IfOk};
ghost use Rattle.rip_outer.specs.MemoryDoor.{hushed_by};

use crate::connections::{Door, Knock, Sent, TraceKnock};
use crate::knock_list::KnockList;
use crate::knocks::{answer_of, copy_of_knocks};
use crate::listed::Calls;
use crate::memory_connections::MemoryConnections;
use rip_base::{NoMemory, NumberList};
use std::alloc::Global;
use std::collections::VecDeque;
use std::marker::Model;

/// A door in memory, at which these knocks come in turn, and which fails at chosen calls. After the last knock it is
/// closed. It never finds a connection gone when it sends. The room for what it tells is taken when it is made.
#[derive(Debug, Drop)]
pub struct MemoryDoor {
    told: Vec<TraceKnock>,
    left: VecDeque<TraceKnock>,
    busy: Vec<bool>,
    connections: MemoryConnections,
    next_calls: Calls,
    send_calls: Calls,
    faults: u64,
}

impl Model for MemoryDoor {
    ghost use Rattle.std.specs.Prelude.{map, vec_capacity};
    ghost use Rattle.rip_outer.specs.MemoryDoor.{DoorState, hushed_by, IsMemoryDoor};

    ghost Value = { DoorState };

    ghost view = { λ d. record {
      told = d.told.items;
      left = map (hushed_by d.connections.is_shut) d.left.items;
      busy = d.busy.items;
      sent = d.connections.sent;
      shuts = d.connections.shuts;
      next_calls = d.next_calls;
      send_calls = d.send_calls;
      faults = d.faults;
    } };

    ghost invariant = { λ d. IsMemoryDoor d.told.items d.left.items d.busy.items d.connections
        d.next_calls (vec_capacity d.told) (vec_capacity d.busy) };
}

impl MemoryDoor {
    ghost use Rattle.std.specs.Prelude.{◌↔◌, [], get_or, IsTrue};
    ghost use Rattle.rip_outer.specs.Connections.{IsShut};
    ghost use Rattle.rip_outer.specs.MemoryDoor.{new_door};

    /// The door at which these knocks come; the calls with these numbers, from 1, fail.
    pub fn make(
        alloc: Global,
        knocks: &KnockList,
        failing_next: &NumberList,
        failing_send: &NumberList,
    ) -> Result<MemoryDoor, NoMemory>
        ensures { IfOk result
            (λ door. door ≡ new_door knocks.now failing_next.now failing_send.now) }
    {
        let room = knocks.as_slice().len();
        let Some(busy_room) = room.checked_add(failing_next.len()) else {
            return Err(NoMemory);
        };
        Ok(MemoryDoor {
            told: Vec::with_capacity(alloc, room)?,
            left: copy_of_knocks(alloc, knocks.as_slice())?,
            busy: Vec::with_capacity(alloc, busy_room)?,
            connections: MemoryConnections::make(alloc, room)?,
            next_calls: Calls::make(alloc, failing_next)?,
            send_calls: Calls::make(alloc, failing_send)?,
            faults: 0,
        })
    }

    /// All bytes sent to a connection, none where none were.
    pub fn sent(&self, c: u64) -> &[u8]
        ensures { result.now ≡ get_or self.now.sent c [] }
    {
        self.connections.sent(c as usize)
    }

    /// Whether a connection was shut.
    pub fn was_shut(&self, c: u64) -> bool
        ensures { IsTrue result ↔ IsShut self.now.shuts c }
    {
        self.connections.is_shut(c as usize)
    }
}

impl Door for MemoryDoor {
    ghost use Rattle.std.specs.Prelude.{◌≡◌, ◌≢◌, ◌≤◌, ◌↔◌, ℕ, Some, map, option_map};
    ghost use Rattle.rip_outer.specs.Outside.{also, IsOver};
    ghost use Rattle.rip_outer.specs.Connections.{knocked, IsShut, Goes, telling, FitsRoom, AreAllowed, busy_told, CountsKnock};
    ghost use Rattle.rip_outer.specs.Connections.{loses, left_after, Sends, CountsSent, hushed, also_shut};
    ghost use Rattle.rip_outer.specs.Calls.{after_call, FailsNext};
    ghost use Rattle.rip_outer.specs.MemoryDoor.{telling_of, sent_to, IsOpen};

    ghost knocks = { telling_of };

    ghost asked = { λ d. Some d.busy };

    ghost sent = { sent_to };

    ghost shuts = { λ d. Some d.shuts };

    ghost is_open = { IsOpen };

    ghost count = { λ d. d.faults };

    fn faults(&self) -> u64 {
        self.faults
    }

    fn next(&mut self, room: &mut [u8; 4096], busy: bool) -> Knock
        ensures failed { result ≡ Knock.Failed ↔ FailsNext self.old.next_calls }
        ensures called { self.new.next_calls ≡ after_call self.old.next_calls }
        ensures sends { self.new.send_calls ≡ self.old.send_calls }
        ensures fits { FitsRoom result }
        ensures allowed { AreAllowed (Some (map knocked self.old.told)) (Some self.old.shuts)
            (telling result room.new) }
        ensures told { Goes (telling_of self.old) (telling_of self.new) (telling result room.new) }
        ensures over { result ≡ Knock.Closed → IsOver (telling_of self.new).left }
        ensures asked { Some self.new.busy ≡ also (busy_told result busy) (Some self.old.busy) }
        ensures sent { (c : ℕ) → sent_to self.new c ≡ sent_to self.old c }
        ensures shuts { Some self.new.shuts ≡ Some self.old.shuts }
        ensures opens { (c : ℕ) → result ≡ Knock.Opened c → IsOpen self.new c }
        ensures stays { (c : ℕ) → IsOpen self.old c → IsOpen self.new c }
        ensures counted { CountsKnock result self.old.faults self.new.faults }
        ensures later { self.old.faults ≤ self.new.faults }
    {
        if self.next_calls.fails() {
            self.faults = self.faults.saturating_add(1);
            self.busy.push_reserved(busy);
            return Knock::Failed;
        }
        let Some(knock) = self.left.pop_front() else {
            return Knock::Closed;
        };
        let knock = hush(&self.connections, knock);
        let answer = answer_of(&knock, room);
        self.connections.note(&knock);
        self.busy.push_reserved(busy);
        self.told.push_reserved(knock);
        answer
    }

    fn send(&mut self, c: u64, bytes: &[u8]) -> Sent
        requires { IsOpen self.old c }
        ensures failed { result ≡ Sent.Failed ↔ FailsNext self.old.send_calls }
        ensures unsent { result ≡ Sent.Failed → self.new.sent ≡ self.old.sent }
        ensures here { result ≢ Sent.Gone }
        ensures called { self.new.send_calls ≡ after_call self.old.send_calls }
        ensures knocks { self.new.next_calls ≡ self.old.next_calls }
        ensures sent { Sends result bytes.now (sent_to self.old c) (sent_to self.new c) }
        ensures others { (d : ℕ) → d ≢ c → sent_to self.new d ≡ sent_to self.old d }
        ensures told { (telling_of self.new).told
            ≡ also (loses result c) (telling_of self.old).told }
        ensures left { (telling_of self.new).left ≡ left_after result c (telling_of self.old).left }
        ensures asked { Some self.new.busy ≡ Some self.old.busy }
        ensures shuts { Some self.new.shuts ≡ Some self.old.shuts }
        ensures stays { (d : ℕ) → IsOpen self.old d → IsOpen self.new d }
        ensures counted { CountsSent result self.old.faults self.new.faults }
        ensures later { self.old.faults ≤ self.new.faults }
    {
        if self.send_calls.fails() {
            self.faults = self.faults.saturating_add(1);
            return Sent::Failed;
        }
        match self.connections.send(c as usize, bytes) {
            Ok(()) => Sent::Done,
            Err(NoMemory) => Sent::Memory,
        }
    }

    fn shut(&mut self, c: u64) {
        self.connections.shut(c as usize, self.told.len() as u64);
    }
}

/// The knock as it comes: a piece or a going of a connection that was shut is quiet.
fn hush(connections: &MemoryConnections, knock: TraceKnock) -> TraceKnock
    ensures { result ≡ hushed_by connections.now.is_shut knock }
{
    match knock {
        TraceKnock::Bytes(c, _) | TraceKnock::Gone(c) if connections.is_shut(c as usize) => {
            TraceKnock::Quiet
        }
        knock => knock,
    }
}
