ghost use Rattle.std.specs.Prelude.{◌≡◌, ◌<◌, ◌-◌, ◌∷◌, ◌++◌, [], ℕ, List, false, true, length, get_or, set, is_ok, if◌then◌else◌, IfOk};
ghost use Rattle.rip_outer.specs.MemoryDoor.{no_connections, after_knock};

use crate::connections::TraceKnock;
use rip_base::NoMemory;
use std::alloc::Global;
use std::marker::Model;

/// The bytes sent to one connection.
#[derive(Debug, Drop)]
pub struct SentBytes {
    bytes: Vec<u8>,
}

impl Model for SentBytes {
    ghost Value = { List ℕ };

    ghost view = { λ s. s.bytes.items };
}

impl SentBytes {
    fn new(alloc: Global) -> SentBytes
        ensures { result ≡ [] }
    {
        SentBytes {
            bytes: Vec::new(alloc),
        }
    }

    fn add(&mut self, bytes: &[u8]) -> Result<(), NoMemory>
        ensures { self.new ≡ (if is_ok result then self.old ++ bytes.now else self.old) }
    {
        self.bytes.extend_from_slice(bytes)?;
        Ok(())
    }

    fn as_slice(&self) -> &[u8]
        ensures { result.now ≡ self.now }
    {
        self.bytes.as_slice()
    }
}

/// The connections of a door in memory: the bytes sent to each, in the order of their numbers, and which were shut, with
/// how many knocks before. The room for so many more of them, and for their shuts, is taken before.
#[derive(Debug, Drop)]
pub struct MemoryConnections {
    alloc: Global,
    sent: Vec<SentBytes>,
    is_shut: Vec<bool>,
    shuts: Vec<(u64, u64)>,
    room: usize,
}

impl Model for MemoryConnections {
    ghost use Rattle.std.specs.Prelude.{vec_capacity};
    ghost use Rattle.rip_outer.specs.MemoryDoor.{ConnectionsState, AreConnections};

    ghost Value = { ConnectionsState };

    ghost view = { λ s. record {
      sent = s.sent.items;
      is_shut = s.is_shut.items;
      shuts = s.shuts.items;
      room = s.room;
    } };

    ghost invariant = { λ s. AreConnections s.sent.items s.is_shut.items s.shuts.items s.room
        (vec_capacity s.sent) (vec_capacity s.is_shut) (vec_capacity s.shuts) };
}

impl MemoryConnections {
    /// None yet, with room for so many.
    pub fn make(alloc: Global, room: usize) -> Result<MemoryConnections, NoMemory>
        ensures { IfOk result (λ connections. connections ≡ no_connections room) }
    {
        Ok(MemoryConnections {
            alloc,
            sent: Vec::with_capacity(alloc, room)?,
            is_shut: Vec::with_capacity(alloc, room)?,
            shuts: Vec::with_capacity(alloc, room)?,
            room,
        })
    }

    /// The connections after a knock was told, which may open one more.
    pub fn note(&mut self, knock: &TraceKnock)
        requires { 0 < self.old.room }
        ensures { self.new ≡ after_knock self.old knock.now }
    {
        if let TraceKnock::Opened(_) = knock {
            self.open();
        }
    }

    /// One more, to which nothing was sent.
    fn open(&mut self)
        requires { 0 < self.old.room }
        ensures { self.new ≡ record self.old {
          sent = self.old.sent ++ [] ∷ [];
          is_shut = self.old.is_shut ++ false ∷ [];
          room = self.old.room - 1;
        } }
    {
        self.sent.push_reserved(SentBytes::new(self.alloc));
        self.is_shut.push_reserved(false);
        self.room -= 1;
    }

    /// Adds bytes to those sent to a connection.
    pub fn send(&mut self, c: usize, bytes: &[u8]) -> Result<(), NoMemory>
        requires { c < length self.old.sent }
        ensures { self.new ≡ record self.old {
          sent = (if is_ok result then set self.old.sent c (get_or self.old.sent c [] ++ bytes.now) else self.old.sent);
        } }
    {
        self.sent[c].add(bytes)
    }

    /// The bytes sent to a connection; none where there is no such connection.
    pub fn sent(&self, c: usize) -> &[u8]
        ensures { result.now ≡ get_or self.now.sent c [] }
    {
        match self.sent.get(c) {
            Some(sent) => sent.as_slice(),
            None => &[],
        }
    }

    /// Shuts a connection after so many knocks.
    pub fn shut(&mut self, c: usize, knocks: u64)
        requires within { c < length self.old.sent }
        requires not_shut { get_or self.old.is_shut c false ≡ false }
        ensures { self.new ≡ record self.old {
          is_shut = set self.old.is_shut c true;
          shuts = self.old.shuts ++ (c, knocks) ∷ [];
        } }
    {
        self.is_shut[c] = true;
        self.shuts.push_reserved((c as u64, knocks));
    }

    /// Whether a connection was shut.
    pub fn is_shut(&self, c: usize) -> bool
        ensures { result ≡ get_or self.now.is_shut c false }
    {
        self.is_shut.get(c).copied().unwrap_or(false)
    }
}
