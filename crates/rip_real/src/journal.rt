//! The journal of a door: it notes what the door does, and lets it tell of each connection only what it may.
ghost use Rattle.std.specs.Prelude.{◌≡◌, ◌<◌, ◌≤◌, IsTrue, Contains, vec_len, vec_capacity};
ghost use Rattle.rip_outer.specs.Connections.{FitsRoom};
ghost use Rattle.rip_real.specs.Journal.{new_journal, AreOthers, Tells, Answers, Shuts};

use crate::history::{Deed, History};
use rip_outer::{Knock, MAX_PIECE, Sent};
use std::alloc::Global;
use std::marker::Model;

/// What a door did, and of which connections it may still tell.
#[derive(Drop)]
pub struct Journal {
    history: History,
    opened: u64,
    live: Vec<u64>,
    faults: u64,
}

impl Model for Journal {
    ghost use Rattle.rip_real.specs.History.{told_in, shuts_in};
    ghost use Rattle.rip_real.specs.Journal.{JournalState, IsJournal};

    ghost Value = { JournalState };

    ghost view = { λ j. record {
      deeds = j.history.deeds;
      opened = j.opened;
      live = j.live.items;
      faults = j.faults;
    } };

    ghost invariant = { λ j. IsJournal (told_in j.history.deeds) (shuts_in j.history.deeds) j.opened j.live.items };
}

impl Journal {
    /// Nothing was done yet.
    pub fn new(alloc: Global) -> Journal
        ensures { result ≡ new_journal }
    {
        Journal {
            history: History::new(),
            opened: 0,
            live: Vec::new(alloc),
            faults: 0,
        }
    }

    /// How many connections were opened, which is the number of the next.
    pub fn opened(&self) -> u64
        ensures { result ≡ self.now.opened }
    {
        self.opened
    }

    /// How often the outside failed.
    pub fn faults(&self) -> u64
        ensures { result ≡ self.now.faults }
    {
        self.faults
    }

    /// Tells a knock where it may come, and `Quiet` where it may not: an opening with another number than the next or
    /// for which there is no room, and a piece or a going of a connection that is gone or shut.
    pub fn tell(&mut self, knock: Knock, room: &[u8; 4096], busy: bool) -> Knock
        ensures { Tells self.old self.new result room.now busy }
    {
        match knock {
            Knock::Opened(c) if c == self.opened => self.open(room, busy),
            Knock::Bytes(c, count) => self.hear(c, count, room, busy),
            Knock::Gone(c) if is_listed(&self.live, c) => self.leave(c, room, busy),
            Knock::Failed => self.fail(room, busy),
            _ => self.quiet(room, busy),
        }
    }

    /// Tells that nothing came.
    fn quiet(&mut self, room: &[u8; 4096], busy: bool) -> Knock
        ensures { Tells self.old self.new result room.now busy }
    {
        self.history = self.history.then(&Deed::Next(Knock::Quiet, room, busy));
        Knock::Quiet
    }

    /// Tells that the outside failed.
    fn fail(&mut self, room: &[u8; 4096], busy: bool) -> Knock
        ensures { Tells self.old self.new result room.now busy }
    {
        self.faults = self.faults.saturating_add(1);
        self.history = self.history.then(&Deed::Next(Knock::Failed, room, busy));
        Knock::Failed
    }

    /// Tells of the next connection, where there is room for it.
    fn open(&mut self, room: &[u8; 4096], busy: bool) -> Knock
        ensures { Tells self.old self.new result room.now busy }
    {
        if self.opened == u64::MAX {
            return self.quiet(room, busy);
        }
        if self.live.reserve(1).is_err() {
            return self.quiet(room, busy);
        }
        let c = self.opened;
        self.live.push_reserved(c);
        self.opened += 1;
        self.history = self.history.then(&Deed::Next(Knock::Opened(c), room, busy));
        Knock::Opened(c)
    }

    /// Tells the first bytes of the room, where they may come.
    fn hear(&mut self, c: u64, count: usize, room: &[u8; 4096], busy: bool) -> Knock
        ensures { Tells self.old self.new result room.now busy }
    {
        if !may_come(&self.live, c, count) {
            return self.quiet(room, busy);
        }
        let knock = Knock::Bytes(c, count);
        self.history = self.history.then(&Deed::Next(knock, room, busy));
        knock
    }

    /// Tells that a live connection is gone.
    fn leave(&mut self, c: u64, room: &[u8; 4096], busy: bool) -> Knock
        requires { Contains self.old.live c }
        ensures { Tells self.old self.new result room.now busy }
    {
        strike(&mut self.live, c);
        self.history = self.history.then(&Deed::Next(Knock::Gone(c), room, busy));
        Knock::Gone(c)
    }

    /// Notes what became of bytes for a connection: they were taken, it was found gone, or the outside failed.
    pub fn answer(&mut self, c: u64, bytes: &[u8], became: Sent) -> Sent
        requires { c < self.old.opened }
        ensures { Answers self.old self.new result c bytes.now }
    {
        match became {
            Sent::Done => self.take(c, bytes),
            Sent::Failed => self.fail_to_send(c, bytes),
            Sent::Gone | Sent::Memory => self.lose(c, bytes),
        }
    }

    /// Notes that bytes were taken for a connection.
    fn take(&mut self, c: u64, bytes: &[u8]) -> Sent
        requires { c < self.old.opened }
        ensures { Answers self.old self.new result c bytes.now }
    {
        self.history = self.history.then(&Deed::Send(Sent::Done, c, bytes));
        Sent::Done
    }

    /// Notes that the outside failed, and that nothing was sent.
    fn fail_to_send(&mut self, c: u64, bytes: &[u8]) -> Sent
        requires { c < self.old.opened }
        ensures { Answers self.old self.new result c bytes.now }
    {
        self.faults = self.faults.saturating_add(1);
        self.history = self.history.then(&Deed::Send(Sent::Failed, c, bytes));
        Sent::Failed
    }

    /// Notes that a connection was found gone.
    fn lose(&mut self, c: u64, bytes: &[u8]) -> Sent
        requires { c < self.old.opened }
        ensures { Answers self.old self.new result c bytes.now }
    {
        strike(&mut self.live, c);
        self.history = self.history.then(&Deed::Send(Sent::Gone, c, bytes));
        Sent::Gone
    }

    /// Notes that a connection was shut.
    pub fn shut(&mut self, c: u64)
        requires { c < self.old.opened }
        ensures { Shuts self.old self.new c }
    {
        strike(&mut self.live, c);
        self.history = self.history.then(&Deed::Shut(c));
    }
}

/// Whether a piece of so many bytes of a connection may come, where these are live.
fn may_come(live: &[u64], c: u64, count: usize) -> bool
    ensures listed { IsTrue result → Contains live.now c }
    ensures fits { IsTrue result → FitsRoom (Knock.Bytes c count) }
{
    is_listed(live, c) && 1 <= count && count <= MAX_PIECE
}

/// Whether a connection is among these.
fn is_listed(live: &[u64], c: u64) -> bool
    ensures { IsTrue result → Contains live.now c }
{
    for number in live {
        if *number == c {
            return true;
        }
    }
    false
}

/// Takes a connection out of these.
fn strike(live: &mut Vec<u64>, c: u64)
    ensures { AreOthers live.old.items c live.new.items }
{
    live.retain(|number| *number != c);
}
