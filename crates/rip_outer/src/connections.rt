use rip_base::Bytes;

/// What a door answers when it is asked what came from outside. Connections are numbered 0, 1, 2 in the order of
/// `Opened`.
#[derive(Clone, Copy, Debug, PartialEq, Eq)]
pub enum Knock {
    /// A connection was opened, with this number.
    Opened(u64),
    /// Bytes came on a connection: they are the first so many of the room.
    Bytes(u64, usize),
    /// The other side of a connection is gone.
    Gone(u64),
    /// Nothing came.
    Quiet,
    /// Nothing will come any more.
    Closed,
    /// The outside failed.
    Failed,
}

/// What became of bytes that were sent.
#[derive(Clone, Copy, Debug, PartialEq, Eq)]
pub enum Sent {
    Done,
    /// The other side of the connection is gone.
    Gone,
    /// The outside failed; a front of the bytes may have been sent.
    Failed,
    /// Want of memory; nothing was sent.
    Memory,
}

/// A knock as it is written down: with the bytes that came.
#[derive(Debug, PartialEq, Drop)]
pub enum TraceKnock {
    Opened(u64),
    Bytes(u64, Bytes),
    Gone(u64),
    Quiet,
}

/// A door to connections from outside.
///
/// A door that tells its knocks tells a piece or a going only of a connection that was opened and is neither gone nor
/// shut.
pub trait Door {
    ghost use Rattle.std.specs.Prelude.{◌≡◌, ◌≢◌, ◌≤◌, ℕ, Bool, List, Option, option_map};
    ghost use Rattle.rip_outer.specs.Outside.{also, IsOver};
    ghost use Rattle.rip_outer.specs.Connections.{Telling, Goes, telling, FitsRoom, AreAllowed, busy_told, CountsKnock};
    ghost use Rattle.rip_outer.specs.Connections.{loses, left_after, Sends, CountsSent, hushed, also_shut};

    // Each where the object tells it: what the door has told, and the knocks that it will tell if nothing more is shut
    // and no send finds its connection gone; the `busy` of each knock other than Closed; the bytes sent to a connection; the connections that were shut, each
    // with the number of knocks told before.
    ghost knocks: { Self → Telling };

    ghost asked: { Self → Option (List Bool) };

    ghost sent: { Self → ℕ → Option (List ℕ) };

    ghost shuts: { Self → Option (List (ℕ × ℕ)) };

    // The connections that may be named: each that was opened and isn't shut. How many calls failed.
    ghost is_open: { Self → ℕ → Type 0 };

    ghost count: { Self → ℕ };

    /// How often the outside failed so far.
    fn faults(&self) -> u64
        ensures { result ≡ count self.now };

    /// What came from outside. It waits for the outside only where `busy` is false.
    fn next(&mut self, room: &mut [u8; 4096], busy: bool) -> Knock
        ensures fits { FitsRoom result }
        ensures allowed { AreAllowed (knocks self.old).told (shuts self.old)
            (telling result room.new) }
        ensures told { Goes (knocks self.old) (knocks self.new) (telling result room.new) }
        ensures over { result ≡ Knock.Closed → IsOver (knocks self.new).left }
        ensures asked { asked self.new ≡ also (busy_told result busy) (asked self.old) }
        ensures sent { (c : ℕ) → sent self.new c ≡ sent self.old c }
        ensures shuts { shuts self.new ≡ shuts self.old }
        ensures opens { (c : ℕ) → result ≡ Knock.Opened c → is_open self.new c }
        ensures stays { (c : ℕ) → is_open self.old c → is_open self.new c }
        ensures counted { CountsKnock result (count self.old) (count self.new) }
        ensures later { count self.old ≤ count self.new };

    /// Sends the bytes to a connection that was opened and isn't shut.
    fn send(&mut self, c: u64, bytes: &[u8]) -> Sent
        requires { is_open self.old c }
        ensures sent { Sends result bytes.now (sent self.old c) (sent self.new c) }
        ensures others { (d : ℕ) → d ≢ c → sent self.new d ≡ sent self.old d }
        ensures told { (knocks self.new).told ≡ also (loses result c) (knocks self.old).told }
        ensures left { (knocks self.new).left ≡ left_after result c (knocks self.old).left }
        ensures asked { asked self.new ≡ asked self.old }
        ensures shuts { shuts self.new ≡ shuts self.old }
        ensures stays { (d : ℕ) → is_open self.old d → is_open self.new d }
        ensures counted { CountsSent result (count self.old) (count self.new) }
        ensures later { count self.old ≤ count self.new };

    /// Shuts a connection that was opened and isn't shut: nothing more is told of it.
    fn shut(&mut self, c: u64)
        requires { is_open self.old c }
        ensures told { (knocks self.new).told ≡ (knocks self.old).told }
        ensures left { (knocks self.new).left ≡ option_map (hushed c) (knocks self.old).left }
        ensures asked { asked self.new ≡ asked self.old }
        ensures sent { (d : ℕ) → sent self.new d ≡ sent self.old d }
        ensures shuts { shuts self.new ≡ also_shut c (knocks self.old).told (shuts self.old) }
        ensures stays { (d : ℕ) → d ≢ c → is_open self.old d → is_open self.new d }
        ensures counted { count self.new ≡ count self.old };
}
