ghost use Rattle.std.specs.Prelude.{◌≡◌, ◌≤◌, ◌+◌, ◌↔◌, length, take, IsTrue, IfOk};
ghost use Rattle.std.specs.Bool.{OnTrue, OnFalse};
ghost use Rattle.rip_http.specs.Heads.{head_at, head_end};
ghost use Rattle.rip_http.specs.Stream.{takes, waits, IsNext};
ghost use Rattle.rip_http.specs.Stages.{IsStage, IsFront, refused_of};
ghost use Rattle.rip_http.specs.declared.stage.Stage.TheVariants.{Head as HeadStage, Body as BodyStage};

use crate::head::{Scan, Sought, count_blank, seek_end};
use crate::request::{Going, Message, Refusal, RefusedHead};
use crate::routes::Routes;
use crate::target::segment_of;
use crate::verdict::{Judged, judge, judge_front};
use httparse::spans::Span;
use rip_base::{Bytes, NoMemory};
use std::alloc::Global;

/// The bytes of a message in which its head must end.
const LONGEST_HEAD: usize = 8_192;

/// A request whose head has come.
#[derive(Clone, Copy)]
pub(crate) struct Awaited {
    pub going: Going,
    /// How many bytes stand up to the end of the head.
    pub end: usize,
    /// Where the target stands in the head.
    pub target: Span,
}

/// How far the message at the front of the unread bytes has come. All of them are looked at.
#[derive(Clone, Copy)]
pub(crate) enum Stage {
    Head(Scan),
    Body(Awaited),
    Refused(RefusedHead),
}

/// What stands at the front of the unread bytes.
#[derive(Drop)]
pub(crate) enum Front {
    /// A message, and how many bytes it has.
    Whole(usize, Message),
    NotYet,
    Refused(RefusedHead),
    /// Want of memory.
    Memory,
}

/// The head that ends behind the first `end` bytes.
fn head_of(bytes: &[u8], end: usize) -> &[u8]
    requires { end ≤ length bytes.now }
    ensures { result.now ≡ head_at bytes.now end }
{
    let message = &bytes[..end];
    &message[count_blank(message)..]
}

/// The stage behind a head's end.
fn look_behind(routes: &Routes, bytes: &[u8], end: usize) -> Stage
    requires { head_end (take 8192 bytes.now) ≡ Some end }
    ensures { IsStage bytes.now result }
{
    match judge(routes, head_of(bytes, end)) {
        Judged::Refused(refused) => Stage::Refused(refused),
        Judged::Passed(going, target) => Stage::Body(Awaited { going, end, target }),
    }
}

/// Looks for the head's end behind the first `from` bytes.
fn look_on(routes: &Routes, bytes: &[u8], from: usize, scan: Scan) -> Stage
    requires within { from ≤ length bytes.now }
    requires stage { IsStage (take from bytes.now) (HeadStage scan) }
    ensures { IsStage bytes.now result }
{
    let limit = bytes.len().min(LONGEST_HEAD);
    match seek_end(&bytes[..limit], from, scan) {
        Sought::Ended(end) => look_behind(routes, bytes, end),
        Sought::Open(next) => {
            if bytes.len() < LONGEST_HEAD {
                Stage::Head(next)
            } else {
                Stage::Refused(RefusedHead {
                    refusal: Refusal::Fields,
                    bare: false,
                })
            }
        }
    }
}

impl Stage {
    /// The stage behind all the bytes, from that behind the first `from`.
    pub(crate) fn look(self, routes: &Routes, bytes: &[u8], from: usize) -> Stage
        requires within { from ≤ length bytes.now }
        requires stage { IsStage (take from bytes.now) self }
        ensures { IsStage bytes.now result }
    {
        match self {
            Stage::Head(scan) => look_on(routes, bytes, from, scan),
            Stage::Body(awaited) => Stage::Body(awaited),
            Stage::Refused(refused) => Stage::Refused(refused),
        }
    }

    /// The refusal of the head, if it is refused.
    pub(crate) fn refused(&self) -> Option<RefusedHead>
        ensures { result ≡ refused_of self.now }
    {
        match self {
            Stage::Head(_) | Stage::Body(_) => None,
            Stage::Refused(refused) => Some(*refused),
        }
    }

    /// Whether a message has come, or is refused.
    pub(crate) fn is_ready(&self, bytes: &[u8]) -> bool
        requires { IsStage bytes.now self.now }
        ensures come { OnTrue result (¬ IsNext bytes.now waits) }
        ensures waits { OnFalse result (IsNext bytes.now waits) }
    {
        match self {
            Stage::Head(_) => false,
            Stage::Refused(_) => true,
            Stage::Body(awaited) => awaited.has_come(bytes),
        }
    }

    /// What stands at the front of the unread bytes.
    pub(crate) fn front(&self, alloc: Global, bytes: &[u8]) -> Front
        requires { IsStage bytes.now self.now }
        ensures { IsFront bytes.now result }
    {
        match self {
            Stage::Head(_) => Front::NotYet,
            Stage::Refused(refused) => Front::Refused(*refused),
            Stage::Body(awaited) => awaited.front(alloc, bytes),
        }
    }
}

/// The stage behind bytes of which none is looked at. Most heads come whole: the parse then finds their end.
pub(crate) fn first_look(routes: &Routes, bytes: &[u8]) -> Stage
    ensures { IsStage bytes.now result }
{
    if bytes.is_empty() {
        return Stage::Head(Scan::Before);
    }
    let window = &bytes[..bytes.len().min(LONGEST_HEAD)];
    let blank = count_blank(window);
    match judge_front(routes, &window[blank..]) {
        Some((_, Judged::Refused(refused))) => Stage::Refused(refused),
        Some((size, Judged::Passed(going, target))) => Stage::Body(Awaited {
            going,
            end: blank + size,
            target,
        }),
        None => look_on(routes, bytes, 0, Scan::Before),
    }
}

impl Awaited {
    /// Whether the body has come.
    fn has_come(&self, bytes: &[u8]) -> bool
        requires { IsStage bytes.now (BodyStage self.now) }
        ensures { IsTrue result ↔ (self.now.end + self.now.going.size ≤ length bytes.now) }
    {
        (bytes.len() - self.end) as u64 >= self.going.size
    }

    /// The message, copied out of the unread bytes.
    fn message(&self, alloc: Global, bytes: &[u8]) -> Result<Message, NoMemory>
        requires stage { IsStage bytes.now (BodyStage self.now) }
        requires come { self.now.end + self.now.going.size ≤ length bytes.now }
        ensures { IfOk result
            (λ m. IsNext bytes.now (takes (self.now.end + self.now.going.size) m)) }
    {
        let segment = segment_of(self.target.of(head_of(bytes, self.end)));
        let body = &bytes[self.end..self.end + self.going.size as usize];
        Ok(Message {
            route: self.going.route,
            segment: Bytes::from_slice(alloc, segment)?,
            body: Bytes::from_slice(alloc, body)?,
            close: self.going.close,
        })
    }

    /// The message, if its body has come.
    fn front(&self, alloc: Global, bytes: &[u8]) -> Front
        requires { IsStage bytes.now (BodyStage self.now) }
        ensures { IsFront bytes.now result }
    {
        if !self.has_come(bytes) {
            return Front::NotYet;
        }
        match self.message(alloc, bytes) {
            Ok(message) => Front::Whole(self.end + self.going.size as usize, message),
            Err(NoMemory) => Front::Memory,
        }
    }
}
