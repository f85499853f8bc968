ghost use Rattle.std.specs.Prelude.{◌≡◌, ◌≢◌, ◌↔◌, ◌+◌, ◌<◌, ◌≤◌, [], length, OnOk, OnErr, IfOk, IfErr, IsTrue, Some};
ghost use Rattle.rip_calls.specs.Calls.{IsOneLine, least_text, none_made, waiting, front_text, front_callback, used, number_at, with_call, without_front};

use crate::lines::{begins_with_line, first_bytes, line_end};
use crate::past::{Call, Past};
use circular_buffer::HeapCircularBuffer;
use rip_base::{Bytes, Limit, NoMemory, Refused};
use std::alloc::Global;
use std::marker::Model;

/// The byte behind each call that waits.
pub(crate) const LINE_FEED: u8 = 10;

/// The bytes that a call takes at least: those of `["",0]` and a line feed.
const LEAST_LINE: usize = 7;

/// How a reported call compares with the one that is to be taken next.
#[derive(Clone, Copy, Debug, PartialEq, Eq)]
pub enum Match {
    Same,
    Other,
    None,
}

/// The calls that a script makes, until they are taken, each with its callback. A call is the canonical text of its name
/// and arguments, which holds no line feed.
#[derive(Drop)]
pub struct Queue {
    bytes: HeapCircularBuffer<u8>,
    callbacks: HeapCircularBuffer<Option<u32>>,
    number: u64,
    took: u64,
    past: Past,
}

impl Model for Queue {
    ghost use Rattle.rip_calls.specs.Calls.{Calls, IsQueue, callback_room};
    ghost use Rattle.std.specs.Prelude.{◌≡◌};

    ghost Value = { Calls };

    ghost view = { λ q. record {
      made = q.past.made;
      taken = q.past.taken;
      limit = q.bytes.capacity;
    } };

    ghost invariant = { λ q. IsQueue (record {
      made = q.past.made;
      taken = q.past.taken;
      limit = q.bytes.capacity;
    }) q.bytes.items q.callbacks.items q.number q.took
        × (q.callbacks.capacity ≡ callback_room q.bytes.capacity) };
}

impl Queue {
    /// A queue in which so many bytes may wait, line feeds among them. It takes all its memory.
    pub fn make(alloc: Global, limit: u32) -> Result<Queue, NoMemory>
        ensures { IfOk result (λ queue. queue ≡ none_made limit) }
    {
        let limit = limit as usize;
        Ok(Queue {
            bytes: HeapCircularBuffer::with_capacity(alloc, limit)?,
            callbacks: HeapCircularBuffer::with_capacity(alloc, limit / LEAST_LINE + 1)?,
            number: 0,
            took: 0,
            past: Past::new(),
        })
    }

    /// Puts a call behind those that wait, and answers its number. It takes no memory.
    pub fn push_made(&mut self, call: &[u8], callback: Option<u32>) -> Result<u64, Refused>
        requires line { IsOneLine call.now }
        requires least { least_text ≤ length call.now }
        ensures limit { (result ≡ Err (Refused.Limit Limit.Queue)) ↔
            (self.old.limit < used self.old + (length call.now + 1)) }
        ensures only_limit { IfErr result (λ refused. refused ≡ Refused.Limit Limit.Queue) }
        ensures made { OnOk result (self.new ≡ with_call self.old call.now callback) }
        ensures number { IfOk result (λ number. number ≡ number_at (length self.new.made)) }
        ensures err { OnErr result (self.new ≡ self.old) }
    {
        if call.len() >= self.bytes.capacity() - self.bytes.len() {
            return Err(Refused::Limit(Limit::Queue));
        }
        self.bytes.extend_from_slice(call);
        self.bytes.push_back(LINE_FEED);
        self.callbacks.push_back(callback);
        self.number = self.number.saturating_add(1);
        self.past = self.past.with(&Call {
            text: call,
            callback,
        });
        Ok(self.number)
    }

    /// Compares a reported call with the one that is to be taken next.
    pub fn compare(&self, reported: &[u8]) -> Match
        ensures none { (result ≡ Match.None) ↔ (waiting self.now ≡ []) }
        ensures same { (result ≡ Match.Same) ↔ (front_text self.now ≡ Some reported.now) }
    {
        match line_end(&self.bytes) {
            None => Match::None,
            Some(end) => if end == reported.len() && begins_with_line(&self.bytes, reported) {
                Match::Same
            } else {
                Match::Other
            },
        }
    }

    /// Whether the call that is to be taken next, if one waits, has this number.
    pub fn is_next(&self, number: u64) -> bool
        ensures { IsTrue result ↔ (number ≡ self.now.taken + 1) }
    {
        self.took < number && number - self.took == 1
    }

    /// The callback of the call that is to be taken next.
    pub fn front_callback(&self) -> Option<u32>
        ensures { result ≡ front_callback self.now }
    {
        match self.callbacks.front() {
            Some(callback) => *callback,
            None => None,
        }
    }

    /// Takes the call that is next.
    pub fn take(&mut self)
        requires { waiting self.old ≢ [] }
        ensures { self.new ≡ without_front self.old }
    {
        let end = line_end(&self.bytes).unwrap();
        self.bytes.truncate_front(self.bytes.len() - end - 1);
        self.callbacks.pop_front();
        self.took = self.took.saturating_add(1);
        self.past = self.past.without_first();
    }

    /// The text of the call that is to be taken next.
    pub fn front(&self, alloc: Global) -> Result<Option<Bytes>, NoMemory>
        ensures { IfOk result (λ text. text ≡ front_text self.now) }
    {
        match line_end(&self.bytes) {
            Some(end) => Ok(Some(first_bytes(alloc, &self.bytes, end)?)),
            None => Ok(None),
        }
    }

    /// How many calls were made: the number of the last.
    pub fn made(&self) -> u64
        ensures made { result ≡ number_at (length self.now.made) }
        ensures taken { self.now.taken ≤ length self.now.made }
    {
        self.number
    }

    /// How many calls were taken: the number of the last.
    pub fn taken(&self) -> u64
        ensures { result ≡ number_at self.now.taken }
    {
        self.took
    }

    /// The bytes waiting, line feeds among them.
    pub fn used(&self) -> u32
        ensures used { result ≡ used self.now }
        ensures within { result ≤ self.now.limit }
    {
        self.bytes.len() as u32
    }
}
