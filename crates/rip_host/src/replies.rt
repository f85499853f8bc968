ghost use Rattle.std.specs.Prelude.{◌≡◌, ◌≢◌, ◌<◌, ◌≤◌, ◌^◌, ◌+◌, ◌++◌, ◌∷◌, [], All, IfOk, IfSome, length, position, MatchOption, None, Some};
ghost use Rattle.rip_base.specs.declared.value.Value.TheVariants.{Object};
ghost use Rattle.rip_heap.specs.Growth.{Belongs};
ghost use Rattle.rip_heap.specs.World.{World};
ghost use Rattle.rip_calls.specs.Calls.{front_callback, waiting};
ghost use Rattle.rip_data.specs.Datum.{tree_of};
ghost use Rattle.rip_host.specs.Replies.{call_served, due, is_due, without_reply_to};
ghost use Rattle.rip_host.specs.Visit.{Fits};
ghost use Rattle.rip_host.specs.Waiting.{is_full, none_waits};

use crate::browser::Browser;
use rip_base::{NoMemory, Whole};
use rip_data::Datum;
use std::alloc::Global;
use std::marker::Model;

/// A reply as it waits. Contracts see the tree that its datum stands for.
#[derive(Drop)]
pub struct KeptReply {
    datum: Datum,
}

impl Model for KeptReply {
    ghost use Rattle.rip_data.specs.Datum.{Tree, tree_of};
    ghost use Rattle.rip_host.specs.Trees.{tree_code};

    ghost Value = { Tree };

    ghost coded = { tree_code };

    ghost view = { λ r. tree_of r.datum };
}

impl KeptReply {
    /// A reply that is kept, of this datum.
    pub fn new(datum: Datum) -> KeptReply
        ensures { result ≡ tree_of datum }
    {
        KeptReply { datum }
    }

    /// Its datum.
    pub fn datum(&self) -> &Datum
        ensures { tree_of result.now ≡ self.now }
    {
        &self.datum
    }
}

/// The reply to a call that was served and has a callback: the call's number, the batch in which it was served, its
/// callback, and the moment at which it was served.
#[derive(Drop)]
pub struct WaitingReply {
    pub number: u64,
    pub batch: u64,
    pub callback: u32,
    pub time: Whole,
    pub reply: KeptReply,
}

/// The replies that are not delivered, in the order of their calls, and the most that there may be. The room for all is
/// taken at once.
#[derive(Drop)]
pub struct Undelivered {
    most: u32,
    replies: Vec<WaitingReply>,
}

impl Model for Undelivered {
    ghost use Rattle.std.specs.Prelude.{◌^◌, ◌<◌, ◌≤◌, length, vec_capacity};
    ghost use Rattle.std.specs.Coded.{codes};
    ghost use Rattle.rip_host.specs.Trees.{tree_code};
    ghost use Rattle.rip_host.specs.Waiting.{Waiting};

    ghost Value = { Waiting };

    ghost coded = { Prim.hlevel (codes, tree_code) };

    ghost view = { λ u. record { most = u.most; replies = u.replies.items } };

    ghost invariant = { λ u. (length u.replies.items ≤ u.most) × (u.most ≤ vec_capacity u.replies)
        × (u.most < 2 ^ 32) };
}

impl Undelivered {
    /// No reply, and the room for so many.
    pub fn make(alloc: Global, most: u32) -> Result<Undelivered, NoMemory>
        ensures { IfOk result (λ u. u ≡ none_waits most) }
    {
        Ok(Undelivered {
            most,
            replies: Vec::with_capacity(alloc, most as usize)?,
        })
    }

    /// Whether no reply more may wait.
    pub fn is_full(&self) -> bool
        ensures { result ≡ is_full self.now }
    {
        self.most <= self.count()
    }

    /// How many there are.
    pub fn count(&self) -> u32
        ensures count { result ≡ length self.now.replies }
        ensures most { result ≤ self.now.most }
    {
        self.replies.len() as u32
    }

    /// The reply that is due to this call in this batch: it was served in a batch before, and is not delivered.
    pub fn due(&self, number: u64, batch: u64) -> Option<&WaitingReply>
        ensures { MatchOption result (due number batch self.now.replies ≡ None)
            (λ r. due number batch self.now.replies ≡ Some r.now) }
    {
        let place = self.place(number, batch);
        match place {
            Some(place) => self.replies.get(place),
            None => None,
        }
    }

    /// Takes the reply that is due to this call in this batch.
    pub fn take_due(&mut self, number: u64, batch: u64) -> Option<WaitingReply>
        ensures taken { result ≡ due number batch self.old.replies }
        ensures left { self.new ≡ without_reply_to number batch self.old }
        ensures callbacks { (w : World) → All (λ r. Belongs w (Object r.callback)) self.old.replies
            → All (λ r. Belongs w (Object r.callback)) self.new.replies
            × IfSome result (λ r. Belongs w (Object r.callback)) }
    {
        match self.place(number, batch) {
            Some(place) => Some(self.replies.remove(place)),
            None => None,
        }
    }

    // Where the reply is that is due.
    fn place(&self, number: u64, batch: u64) -> Option<usize>
        ensures { result ≡ position (is_due number batch) self.now.replies }
    {
        self.replies
            .iter()
            .position(|reply| reply.number == number && reply.batch < batch)
    }

    // A reply more.
    fn push(&mut self, reply: WaitingReply)
        requires { length self.old.replies < self.old.most }
        ensures { self.new ≡ record self.old { replies = self.old.replies ++ reply ∷ [] } }
    {
        self.replies.push_reserved(reply);
    }
}

impl Browser {
    /// Serves the call that is next, in this batch at this moment, with this reply, which waits to be delivered where the
    /// call has a callback. It takes no memory.
    pub fn serve(&mut self, batch: u64, time: Whole, reply: Datum)
        requires waits { waiting self.old.calls ≢ [] }
        requires room { front_callback self.old.calls ≢ None → length self.old.undelivered.replies
            < self.old.undelivered.most }
        requires number { self.old.calls.taken + 1 < 2 ^ 64 }
        ensures served { self.new ≡ call_served self.old batch time (tree_of reply) }
        ensures fits { (w : World) → Fits self.old w → Fits self.new w }
    {
        let callback = self.calls.front_callback();
        let number = self.calls.taken() + 1;
        self.calls.take();
        match callback {
            Some(callback) => self.undelivered.push(WaitingReply {
                number,
                batch,
                callback,
                time,
                reply: KeptReply::new(reply),
            }),
            None => {}
        }
    }
}
