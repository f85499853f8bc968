//! One connection of the TCP door.
ghost use Rattle.std.specs.Prelude.{◌≤◌, length, vec_len, IfSome};

use crate::requests::Requests;
use mio::event::Event;
use mio::net::TcpStream;
use std::alloc::Global;
use std::io::{ErrorKind, Read, Write};
use std::net::Shutdown;

/// The most bytes that may wait to be written when more are sent.
const MAX_WAITING: usize = 4_194_304;

/// The most pieces of a connection that was shut which are read and thrown away.
const MAX_THROWN: u32 = 256;

/// A connection with its number. Readiness is noted as the system reports it, at each change, and holds until a call
/// would block. `active` is the time of its last read or write, by whatever clock its owner has.
#[derive(Drop)]
pub struct Link {
    pub number: u64,
    pub active: u64,
    alloc: Global,
    stream: TcpStream,
    waiting: Vec<u8>,
    written: usize,
    is_readable: bool,
    is_closing: bool,
    is_broken: bool,
    is_ending: bool,
    thrown: u32,
    requests: Requests,
    ghost within: { written ≤ vec_len waiting },
}

/// What a read found.
#[derive(Clone, Copy, PartialEq, Eq)]
pub enum Piece {
    /// So many bytes.
    Bytes(usize),
    /// Nothing yet.
    Later,
    /// The other side will send no more.
    End,
    /// The connection failed.
    Broken,
}

impl Link {
    /// A connection that was just accepted.
    pub fn new(alloc: Global, number: u64, active: u64, stream: TcpStream) -> Link {
        Link {
            number,
            active,
            alloc,
            stream,
            waiting: Vec::new(alloc),
            written: 0,
            is_readable: false,
            is_closing: false,
            is_broken: false,
            is_ending: false,
            thrown: 0,
            requests: Requests::new(),
        }
    }

    /// Its stream, to be registered.
    pub fn stream(&mut self) -> &mut TcpStream {
        &mut self.stream
    }

    /// Whether there may be something to read, or to say of it.
    pub fn is_ready(&self) -> bool {
        self.is_readable || self.is_broken
    }

    /// Whether bytes wait to be written.
    pub fn has_waiting(&self) -> bool {
        self.written < self.waiting.len()
    }

    /// Whether an answer may be owed to it, or something of it is still to be read.
    pub fn is_owed(&self) -> bool {
        self.is_ready() || self.requests.are_open()
    }

    /// No answer is owed to it.
    pub fn settle(&mut self) {
        self.requests.settle();
    }

    /// Notes bytes that were read from it.
    pub fn hear(&mut self, bytes: &[u8], now: u64) {
        self.active = now;
        self.requests.hear(bytes);
    }

    /// Notes what was reported, and goes on writing where the connection may be written to.
    pub fn note(&mut self, event: &Event, now: u64) {
        self.is_readable = self.is_readable || event.is_readable() || event.is_error();
        self.is_closing = self.is_closing || event.is_read_closed() || event.is_error();
        if self.is_closing {
            self.is_readable = true;
        }
        if event.is_writable() && self.has_waiting() {
            self.active = now;
            if !self.flush() {
                self.is_broken = true;
            }
        }
    }

    /// Reads once. Fewer bytes than there is room for are all that have come, unless the other side has closed.
    pub fn read(&mut self, room: &mut [u8; 4096]) -> Piece {
        if self.is_broken {
            return Piece::Broken;
        }
        match self.stream.read(room) {
            Ok(0) => Piece::End,
            Ok(count) => {
                self.is_readable = count == room.len() || self.is_closing;
                Piece::Bytes(count)
            }
            Err(error) => match error.kind() {
                ErrorKind::WouldBlock => {
                    self.is_readable = false;
                    Piece::Later
                }
                ErrorKind::Interrupted => Piece::Later,
                _ => Piece::Broken,
            },
        }
    }

    /// Sends an answer: the bytes that the system doesn't take wait. False where the connection failed, or too many wait.
    pub fn send(&mut self, bytes: &[u8], now: u64) -> bool {
        self.active = now;
        self.requests.answer();
        if self.has_waiting() {
            return self.waiting.len() - self.written <= MAX_WAITING && self.keep(bytes);
        }
        match write_front(&mut self.stream, bytes) {
            Some(count) => self.keep(&bytes[count..]),
            None => false,
        }
    }

    /// Has the bytes wait behind those that wait. False for want of memory.
    fn keep(&mut self, bytes: &[u8]) -> bool {
        if self.written > self.waiting.len() / 2 {
            self.waiting.drain(..self.written);
            self.written = 0;
        }
        self.waiting.extend_from_slice(bytes).is_ok()
    }

    /// Writes what waits, as far as the system takes it. False where the connection failed.
    fn flush(&mut self) -> bool {
        let Some(count) = write_front(&mut self.stream, &self.waiting[self.written..]) else {
            return false;
        };
        self.written += count;
        if self.written == self.waiting.len() {
            self.waiting = Vec::new(self.alloc);
            self.written = 0;
            self.end_written();
        }
        true
    }

    /// Nothing more will be sent. What comes is then to be read and thrown away, since a connection that is closed over
    /// unread bytes takes the last answer with it.
    pub fn end(&mut self) {
        self.is_ending = true;
        self.is_readable = true;
        self.end_written();
    }

    /// Tells the other side that nothing more will be written, once all is.
    fn end_written(&mut self) {
        if self.is_ending && !self.has_waiting() {
            let _ended = self.stream.shutdown(Shutdown::Write);
        }
    }

    /// Reads on and throws away what comes, once the connection was shut. False where it is done with.
    pub fn throw_away(&mut self) -> bool {
        let mut room = [0u8; 4096];
        for _ in 0..16 {
            if !self.is_ready() {
                return true;
            }
            match self.read(&mut room) {
                Piece::Bytes(_) => self.thrown = self.thrown.saturating_add(1),
                Piece::Later => return true,
                Piece::End => {
                    self.is_readable = false;
                    return self.has_waiting();
                }
                Piece::Broken => return false,
            }
            if self.thrown > MAX_THROWN {
                return false;
            }
        }
        true
    }
}

/// Writes the bytes, and says how many of them the system took: all but where it would block. None where the
/// connection failed.
fn write_front(stream: &mut TcpStream, bytes: &[u8]) -> Option<usize>
    ensures { IfSome result (λ count. count ≤ length bytes.now) }
{
    let mut count = 0;
    for _ in 0..u64::MAX {
        if count == bytes.len() {
            break;
        }
        match stream.write(&bytes[count..]) {
            Ok(0) => return None,
            Ok(more) => count += more,
            Err(error) => match error.kind() {
                ErrorKind::WouldBlock => break,
                ErrorKind::Interrupted => {}
                _ => return None,
            },
        }
    }
    Some(count)
}
