ghost use Rattle.std.specs.Prelude.{◌≡◌, ◌≤◌, ◌<◌, ◌+◌, ◌++◌, ◌↔◌, [], length, drop, IsTrue, IfOk, OnOk, OnErr, IsErrOf};
ghost use Rattle.std.specs.Bool.{OnFalse};
ghost use Rattle.rip_http.specs.Stream.{Next, waits, IsNext, allowed_at, bare_at};
ghost use Rattle.rip_http.specs.Conns.{IsTaken};

use crate::head::Scan;
use crate::request::{Message, Method};
use crate::routes::Routes;
use crate::stage::{Front, Stage, first_look};
use rip_base::NoMemory;
use std::alloc::{AllocError, Global};
use std::marker::Model;
use thiserror::Error;

/// The most unread bytes of a connection.
pub const MOST_UNREAD: usize = 77_824;

/// Why a piece is not fed. The connection is as before.
#[derive(Debug, Drop, Error)]
pub enum FeedRefused {
    #[error("more than 77824 bytes would be unread")]
    Overflow,
    #[error("out of memory")]
    Memory,
}

impl From<AllocError> for FeedRefused {
    ghost use Rattle.std.specs.Prelude.{◌≡◌};
    ghost use Rattle.rip_http.specs.declared.conn.FeedRefused.{FeedRefused};

    ghost from_gives = { λ _ e. e ≡ FeedRefused.Memory };

    fn from(_: AllocError) -> FeedRefused {
        FeedRefused::Memory
    }
}

/// What stands at the front of the unread bytes.
#[derive(Debug, Drop)]
pub enum Taken {
    /// A message, which is taken out.
    Message(Message),
    NotYet,
    /// A head that is refused, with the status code that tells it.
    Refused(u16),
    /// Want of memory. The message is still there.
    Memory,
}

/// A connection: the bytes that were fed and belong to no message that was taken. Contracts see these bytes.
#[derive(Drop)]
pub struct Conn {
    bytes: Vec<u8>,
    /// Where the unread bytes begin.
    start: usize,
    stage: Stage,
    routes: Routes,
}

impl Model for Conn {
    ghost use Rattle.std.specs.Prelude.{List, ℕ, drop};
    ghost use Rattle.rip_http.specs.Stages.{IsConn};

    ghost Value = { List ℕ };

    ghost view = { λ c. drop c.start c.bytes.items };

    ghost invariant = { λ c. IsConn c.bytes.items c.start c.stage };
}

/// Drops the bytes that were taken, where they are no fewer than those unread: each byte is moved but a few times.
fn compact(bytes: &mut Vec<u8>, start: usize) -> usize
    requires { start ≤ length bytes.old.items }
    ensures kept { drop result bytes.new.items ≡ drop start bytes.old.items }
    ensures within { result ≤ length bytes.new.items }
{
    if start == bytes.len() {
        bytes.clear();
        return 0;
    }
    if start == 0 || start < bytes.len() - start {
        return start;
    }
    drop(bytes.drain(..start));
    0
}

/// The bytes behind the start.
fn unread(bytes: &[u8], start: usize) -> &[u8]
    requires { start ≤ length bytes.now }
    ensures { result.now ≡ drop start bytes.now }
{
    &bytes[start..]
}

impl Conn {
    /// A connection of which nothing has come.
    pub fn make(alloc: Global) -> Result<Conn, NoMemory>
        ensures { IfOk result (λ c. c ≡ []) }
    {
        Ok(Conn {
            bytes: Vec::new(alloc),
            start: 0,
            stage: Stage::Head(Scan::Before),
            routes: Routes::make(alloc)?,
        })
    }

    /// Adds a piece behind the unread bytes.
    pub fn feed(&mut self, _alloc: Global, piece: &[u8]) -> Result<(), FeedRefused>
        ensures ok { OnOk result (self.new ≡ self.old ++ piece.now) }
        ensures err { OnErr result (self.new ≡ self.old) }
        ensures overflow { IsErrOf result FeedRefused.Overflow
            ↔ (77824 < length self.old + length piece.now) }
    {
        let held = self.bytes.len() - self.start;
        if piece.len() > MOST_UNREAD - held {
            return Err(FeedRefused::Overflow);
        }
        self.start = compact(&mut self.bytes, self.start);
        self.bytes.extend_from_slice(piece)?;
        let bytes = unread(self.bytes.as_slice(), self.start);
        self.stage = if held == 0 {
            first_look(&self.routes, bytes)
        } else {
            self.stage.look(&self.routes, bytes, held)
        };
        Ok(())
    }

    /// Takes the message at the front, if it has come and its head is not refused.
    pub fn take_message(&mut self, alloc: Global) -> Taken
        ensures { IsTaken self.old self.new result }
    {
        match self
            .stage
            .front(alloc, unread(self.bytes.as_slice(), self.start))
        {
            Front::Whole(count, message) => {
                self.start += count;
                self.stage = first_look(&self.routes, unread(self.bytes.as_slice(), self.start));
                Taken::Message(message)
            }
            Front::NotYet => Taken::NotYet,
            Front::Refused(refused) => Taken::Refused(refused.refusal.code()),
            Front::Memory => Taken::Memory,
        }
    }

    /// Whether a message, or a refusal, waits to be taken.
    pub fn ready(&self) -> bool
        ensures ready { IsTrue result ↔ ¬ IsNext self.now waits }
        ensures waits { OnFalse result (IsNext self.now waits) }
    {
        self.stage
            .is_ready(unread(self.bytes.as_slice(), self.start))
    }

    /// The method that the answer 405 names; where the head is not refused by 405, GET.
    pub fn allowed(&self) -> Method
        ensures { (next : Next) → IsNext self.now next → result ≡ allowed_at next }
    {
        match self.stage.refused() {
            Some(refused) => refused.refusal.allowed().unwrap_or(Method::Get),
            None => Method::Get,
        }
    }

    /// Whether a refused head is at the front that is answered without a body: its method is HEAD.
    pub fn bare(&self) -> bool
        ensures { (next : Next) → IsNext self.now next → result ≡ bare_at next }
    {
        match self.stage.refused() {
            Some(refused) => refused.bare,
            None => false,
        }
    }
}
