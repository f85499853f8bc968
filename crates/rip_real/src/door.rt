//! The TCP door.
use crate::journal::Journal;
use crate::random_words::RandomFailure;
use crate::sockets::Sockets;
use rip_outer::{Door, Knock, Sent};
use std::alloc::Global;
use std::io;
use std::io::Stderr;
use std::marker::Model;
use std::net::{Net, SocketAddr};

/// A door to connections over TCP. It tells what it answered: its knocks with the `busy` of each, the bytes that were
/// sent, and the shuts. What will come it can't tell. It is never closed. To people it says on standard error where it
/// listens, once it is first asked for a knock, and it keeps why it failed. Where random words failed, it fails too: so
/// no session is opened whose identifier could be foreseen.
#[derive(Drop)]
pub struct TcpDoor<'a> {
    sockets: io::Result<Sockets>,
    journal: Journal,
    random: &'a RandomFailure,
    stderr: Stderr,
    is_said: bool,
}

impl<'a> Model for TcpDoor<'a> {
    ghost use Rattle.rip_real.specs.Journal.{JournalState};

    ghost Value = { JournalState };

    ghost view = { λ d. d.journal };
}

impl<'a> TcpDoor<'a> {
    ghost use Rattle.std.specs.Prelude.{◌≡◌};
    ghost use Rattle.rip_real.specs.Journal.{new_journal};

    /// A door on an address, as `127.0.0.1:8080` or `localhost:8080`. Where it can't be had, each knock fails.
    pub fn bind(
        rt: &impl Net,
        alloc: Global,
        address: &str,
        random: &'a RandomFailure,
        stderr: Stderr,
    ) -> TcpDoor<'a>
        ensures { result ≡ new_journal }
    {
        TcpDoor {
            sockets: Sockets::bind(rt, alloc, address),
            journal: Journal::new(alloc),
            random,
            stderr,
            is_said: false,
        }
    }

    /// A door on no address: each knock fails.
    pub fn nowhere(alloc: Global, random: &'a RandomFailure, stderr: Stderr) -> TcpDoor<'a>
        ensures { result ≡ new_journal }
    {
        TcpDoor {
            sockets: Err(io::Error::from(io::ErrorKind::AddrNotAvailable)),
            journal: Journal::new(alloc),
            random,
            stderr,
            is_said: false,
        }
    }

    /// The address on which it listens.
    pub fn address(&self) -> Option<SocketAddr> {
        self.sockets.as_ref().ok()?.address()
    }

    /// Why it failed last.
    pub fn failure(&self) -> Option<io::Error> {
        match &self.sockets {
            Ok(sockets) => sockets.failure(),
            Err(error) => Some(*error),
        }
    }
}

/// Says where it listens, unless it is said, or it fails.
fn say_address(
    sockets: &io::Result<Sockets>,
    random: &RandomFailure,
    stderr: Stderr,
    is_said: &mut bool,
) {
    if *is_said || random.get().is_some() {
        return;
    }
    *is_said = true;
    if let Ok(sockets) = sockets
        && let Some(address) = sockets.address()
    {
        let _said = eprintln!(stderr; "listening on http://{address}");
    }
}

/// What came from outside; the next connection gets this number.
fn what_came(
    sockets: &mut io::Result<Sockets>,
    room: &mut [u8; 4096],
    busy: bool,
    number: u64,
    random: &RandomFailure,
) -> Knock {
    match sockets {
        Ok(sockets) if random.get().is_none() => sockets.knock(room, busy, number),
        _ => Knock::Failed,
    }
}

/// Sends the bytes to a connection, and says what became of them. Where random words failed, nothing is sent.
fn what_became(
    sockets: &mut io::Result<Sockets>,
    c: u64,
    bytes: &[u8],
    random: &RandomFailure,
) -> Sent {
    if random.get().is_some() {
        return Sent::Failed;
    }
    let is_taken = match sockets {
        Ok(sockets) => sockets.send(c, bytes),
        Err(_) => false,
    };
    if is_taken { Sent::Done } else { Sent::Gone }
}

impl<'a> Door for TcpDoor<'a> {
    ghost use Rattle.std.specs.Prelude.{◌<◌, Some};
    ghost use Rattle.rip_real.specs.History.{telling_of, busy_in, sent_in, shuts_in};

    ghost knocks = { λ d. telling_of d.deeds };

    ghost asked = { λ d. busy_in d.deeds };

    ghost sent = { λ d c. sent_in d.deeds c };

    ghost shuts = { λ d. Some (shuts_in d.deeds) };

    ghost is_open = { λ d c. c < d.opened };

    ghost count = { λ d. d.faults };

    fn faults(&self) -> u64 {
        self.journal.faults()
    }

    fn next(&mut self, room: &mut [u8; 4096], busy: bool) -> Knock {
        say_address(&self.sockets, self.random, self.stderr, &mut self.is_said);
        let number = self.journal.opened();
        let came = what_came(&mut self.sockets, room, busy, number, self.random);
        let told = self.journal.tell(came, room, busy);
        forget_untold(&mut self.sockets, came, told);
        told
    }

    fn send(&mut self, c: u64, bytes: &[u8]) -> Sent {
        let became = what_became(&mut self.sockets, c, bytes, self.random);
        self.journal.answer(c, bytes, became)
    }

    fn shut(&mut self, c: u64) {
        shut_link(&mut self.sockets, c);
        self.journal.shut(c);
    }
}

/// Shuts a connection.
fn shut_link(sockets: &mut io::Result<Sockets>, c: u64) {
    if let Ok(sockets) = sockets {
        sockets.shut(c);
    }
}

/// Lets a connection go whose opening could not be told.
fn forget_untold(sockets: &mut io::Result<Sockets>, came: Knock, told: Knock) {
    if let (Ok(sockets), Knock::Opened(c), Knock::Quiet) = (sockets, came, told) {
        sockets.drop_link(c);
    }
}
