//! The sockets behind the TCP door: a listener and the connections, and the wait for either.
ghost use Rattle.std.specs.Prelude.{◌<◌, length, IfSome};

use crate::link::{Link, Piece};
use mio::net::{TcpListener, TcpStream};
use mio::{Events, Interest, Poll, Token};
use rip_outer::Knock;
use std::alloc::Global;
use std::io;
use std::io::ErrorKind;
use std::net::{Net, SocketAddr, ToSocketAddrs};
use std::time::Duration;

/// The token of the listener. A connection's token is its number.
const LISTENER: Token = Token(usize::MAX);

/// The most events of one wait, and the most connections that were shut of which the rest is thrown away.
const MOST: usize = 128;

/// The most connections that a server has: of one more it shuts the newest.
const MOST_LINKS: usize = 64;

/// A listener and its connections. Each has its seat; the listener's is 0. The seats are served in turn, each one read
/// or one acceptance, and before each round the system is asked what has come. Where one more connection comes than a
/// server has, the longest idle one goes first, and the new one waits for that in `coming`. Time is counted in knocks.
#[derive(Drop)]
pub struct Sockets {
    alloc: Global,
    poll: Poll,
    events: Events,
    listener: TcpListener,
    is_accepting: bool,
    links: Vec<Link>,
    leaving: Vec<Link>,
    coming: Option<TcpStream>,
    seat: usize,
    now: u64,
    failure: Option<io::Error>,
}

impl Sockets {
    /// Listens on an address, the first that can be had of those that a name stands for.
    pub fn bind(rt: &impl Net, alloc: Global, address: &str) -> io::Result<Sockets> {
        let mut listener = listen(rt, address)?;
        let poll = Poll::new(rt)?;
        poll.registry()
            .register(&mut listener, LISTENER, Interest::READABLE)?;
        Ok(Sockets {
            alloc,
            poll,
            events: Events::with_capacity(alloc, MOST)?,
            listener,
            is_accepting: true,
            links: Vec::new(alloc),
            leaving: Vec::new(alloc),
            coming: None,
            seat: 0,
            now: 0,
            failure: None,
        })
    }

    /// The address on which it listens.
    pub fn address(&self) -> Option<SocketAddr> {
        self.listener.local_addr().ok()
    }

    /// Why the outside failed last.
    pub fn failure(&self) -> Option<io::Error> {
        self.failure
    }

    /// What came; the next connection gets this number. It waits where nothing came, unless `busy` is true.
    pub fn knock(&mut self, room: &mut [u8; 4096], busy: bool, number: u64) -> Knock {
        self.now = self.now.saturating_add(1);
        if !busy {
            settle(&mut self.links);
        }
        if let Some(stream) = self.coming.take()
            && let Some(knock) = self.seat_of(number, stream)
        {
            return knock;
        }
        for waits in 0..u64::MAX {
            if let Some(knock) = self.serve_round(room, number) {
                return knock;
            }
            if busy && waits > 0 {
                return Knock::Quiet;
            }
            if let Err(error) = self.wait(busy) {
                return self.fail(error);
            }
        }
        Knock::Quiet
    }

    /// The outside failed.
    fn fail(&mut self, error: io::Error) -> Knock {
        self.failure = Some(error);
        Knock::Failed
    }

    /// Serves the seats that are left of this round, up to the first at which something came.
    fn serve_round(&mut self, room: &mut [u8; 4096], number: u64) -> Option<Knock> {
        if self.seat == 0 {
            self.seat = 1;
            if let Some(knock) = self.accept(number) {
                return Some(knock);
            }
        }
        for _ in 0..u64::MAX {
            let place = self.seat.saturating_sub(1);
            if place >= self.links.len() {
                break;
            }
            let count = self.links.len();
            let knock = self.serve(place, room);
            if self.links.len() == count {
                self.seat = place + 2;
            }
            if knock.is_some() {
                return knock;
            }
        }
        self.seat = 0;
        None
    }

    /// Accepts a connection where one may wait. One that was lost before is passed over.
    fn accept(&mut self, number: u64) -> Option<Knock> {
        if !self.is_accepting || self.links.reserve(1).is_err() {
            return None;
        }
        match self.listener.accept() {
            Ok((stream, _)) => self.make_room(number, stream),
            Err(error) => self.not_accepted(error),
        }
    }

    /// Has a connection take its seat; where a server has as many as it may, the longest idle one goes first. Where an
    /// answer may be owed to each, none goes.
    fn make_room(&mut self, number: u64, stream: TcpStream) -> Option<Knock> {
        if self.links.len() >= MOST_LINKS
            && let Some(idle) = longest_idle(&self.links)
        {
            self.shut(idle);
            self.coming = Some(stream);
            return Some(Knock::Gone(idle));
        }
        self.seat_of(number, stream)
    }

    /// Registers a connection, and gives it the last seat.
    fn seat_of(&mut self, number: u64, stream: TcpStream) -> Option<Knock> {
        let mut link = Link::new(self.alloc, number, self.now, stream);
        let _set = link.stream().set_nodelay(true);
        let both = Interest::READABLE | Interest::WRITABLE;
        let registry = self.poll.registry();
        if let Err(error) = registry.register(link.stream(), Token(number as usize), both) {
            return Some(self.fail(error));
        }
        match self.links.push(link) {
            Ok(()) => Some(Knock::Opened(number)),
            Err(_) => None,
        }
    }

    /// What a failed acceptance means: nothing waits, a connection was lost before it was accepted, or the outside
    /// failed.
    fn not_accepted(&mut self, error: io::Error) -> Option<Knock> {
        match error.kind() {
            ErrorKind::WouldBlock => {
                self.is_accepting = false;
                None
            }
            ErrorKind::Interrupted
            | ErrorKind::ConnectionAborted
            | ErrorKind::ConnectionReset
            | ErrorKind::HostUnreachable
            | ErrorKind::NetworkUnreachable
            | ErrorKind::NetworkDown => None,
            _ => Some(self.fail(error)),
        }
    }

    /// Reads once from the connection at a place, where there may be something to read.
    fn serve(&mut self, place: usize, room: &mut [u8; 4096]) -> Option<Knock> {
        let link = self.links.get_mut(place)?;
        if !link.is_ready() {
            return None;
        }
        let number = link.number;
        match link.read(room) {
            Piece::Bytes(count) => {
                link.hear(room.get(..count).unwrap_or(b""), self.now);
                Some(Knock::Bytes(number, count))
            }
            Piece::Later => None,
            Piece::End => {
                self.shut(number);
                Some(Knock::Gone(number))
            }
            Piece::Broken => {
                self.drop_link(number);
                Some(Knock::Gone(number))
            }
        }
    }

    /// Asks the system what is ready. It waits for something where nothing is known to be ready and `busy` is false.
    fn wait(&mut self, busy: bool) -> io::Result<()> {
        let is_ready = busy
            || self.is_accepting
            || self.links.iter().any(|link| link.is_ready())
            || self.leaving.iter().any(|link| link.is_ready());
        let most = if is_ready { Some(Duration::ZERO) } else { None };
        self.poll.poll(&mut self.events, most)?;
        for event in self.events.iter() {
            if event.token() == LISTENER {
                self.is_accepting = true;
            }
            let number = usize::from(event.token()) as u64;
            note(&mut self.links, number, event, self.now);
            note(&mut self.leaving, number, event, self.now);
        }
        self.throw_away();
        Ok(())
    }

    /// Goes on with the connections that were shut, and lets go those that are done with.
    fn throw_away(&mut self) {
        self.leaving.retain_mut(|link| link.throw_away());
    }

    /// Sends an answer to a connection. False where it is gone.
    pub fn send(&mut self, number: u64, bytes: &[u8]) -> bool {
        let is_sent = match find(&mut self.links, number) {
            Some(link) => link.send(bytes, self.now),
            None => return false,
        };
        if !is_sent {
            self.drop_link(number);
        }
        is_sent
    }

    /// Shuts a connection: what waits is still written, and what still comes is thrown away.
    pub fn shut(&mut self, number: u64) {
        let Some(place) = place_of(&self.links, number) else {
            return;
        };
        let mut link = self.links.remove(place);
        link.end();
        if self.leaving.len() >= MOST {
            drop(self.leaving.remove(0));
        }
        let _kept = self.leaving.push(link);
    }

    /// Lets a connection go at once.
    pub fn drop_link(&mut self, number: u64) {
        if let Some(place) = place_of(&self.links, number) {
            drop(self.links.remove(place));
        }
    }
}

/// A listener on an address.
fn listen<R: Net>(rt: &R, address: &str) -> io::Result<TcpListener> {
    let mut last = io::Error::from(ErrorKind::AddrNotAvailable);
    for address in address.to_socket_addrs(rt)? {
        match TcpListener::bind(rt, address) {
            Ok(listener) => return Ok(listener),
            Err(error) => last = error,
        }
    }
    Err(last)
}

/// The place of a connection among these.
fn place_of(links: &[Link], number: u64) -> Option<usize>
    ensures { IfSome result (λ place. place < length links.now) }
{
    links.iter().position(|link| link.number == number)
}

/// The connection with a number among these.
fn find(links: &mut [Link], number: u64) -> Option<&mut Link> {
    links.iter_mut().find(|link| link.number == number)
}

/// Tells a connection, if it is among these, what was reported of it.
fn note(links: &mut [Link], number: u64, event: &mio::event::Event, now: u64) {
    if let Some(link) = find(links, number) {
        link.note(event, now);
    }
}

/// No answer is owed to any of these.
fn settle(links: &mut [Link]) {
    for link in links {
        link.settle();
    }
}

/// The number of the connection among these that is idle for longest, of those to which no answer is owed; one for which
/// bytes wait comes behind all others.
fn longest_idle(links: &[Link]) -> Option<u64> {
    links
        .iter()
        .filter(|link| !link.is_owed())
        .min_by_key(|link| (link.has_waiting(), link.active))
        .map(|link| link.number)
}
