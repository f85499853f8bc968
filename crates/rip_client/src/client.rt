ghost use Rattle.std.specs.Prelude.{◌≡◌, ◌≢◌, ◌+◌, ◌++◌, ◌∷◌, [], ℕ, List as Sequence, None, Some, IfOk, IfErr, OnOk, if◌then◌else◌};
ghost use Rattle.rip_eval_rows.specs.declared.close.Close.{Close as Closes};
ghost use Rattle.rip_wire.specs.Items.{reported_of};
ghost use Rattle.rip_client.specs.Truth.{IsPut, Then, waiting_of, TellsCall, TellsCalls, TellsEvent, TellsGesture, TellsItem, TellsList, TellsReplies};
ghost use Rattle.rip_client.specs.Sizes.{Comes, IsGesture, IsTold, MayBeTold, ToldSo, end_of, how_told, place_of};
ghost use Rattle.rip_client.specs.declared.client.HowTold.{HowTold as Ways};
ghost use Rattle.rip_client.specs.Bytes.{batches_of, size_of};

use crate::actor::{Actor, WaitingCall};
use crate::list::{Telling, ToldBatch};
use crate::tale::{Tale, item_of, text_size};
use rip_base::NoMemory;
use rip_eval_rows::Close;
use rip_wire::{Gesture, Item};
use std::alloc::Global;
use std::mem;

/// A client with its session, after some gestures.
#[derive(Drop)]
pub struct Client<A> {
    pub(crate) actor: A,
    /// The numbers of the calls whose replies wait to be delivered, in order.
    pub(crate) waiting: Vec<u64>,
    /// The list of the gesture under way.
    pub(crate) list: Telling,
    /// How the last gesture was told, where the client is at its end.
    pub(crate) over: Option<HowTold>,
}

/// How a gesture was told.
#[derive(Clone, Copy, Debug, PartialEq, Eq)]
pub enum HowTold {
    /// To its end.
    Whole,
    /// Up to the last of its items, which closed so and ended the client's session.
    Ended(Close),
    /// Up to the last of its items, for which memory was wanting.
    Memory,
}

/// The batches of a gesture, and how it was told.
#[derive(Drop)]
pub struct Told {
    pub batches: Vec<ToldBatch>,
    pub how: HowTold,
}

impl Told {
    /// No batch.
    fn nothing(alloc: Global, how: HowTold) -> Told
        ensures batches { result.batches.items ≡ [] }
        ensures how { result.how ≡ how }
    {
        Told {
            batches: Vec::new(alloc),
            how,
        }
    }
}

/// Why a list breaks off.
pub(crate) enum Stop {
    Closed(Close),
    Memory,
}

impl From<NoMemory> for Stop {
    ghost use Rattle.std.specs.Prelude.{◌≡◌};
    ghost use Rattle.rip_client.specs.declared.client.Stop.TheVariants.{Memory};

    ghost from_gives = { λ _ stop. stop ≡ Memory };

    fn from(_: NoMemory) -> Stop {
        Stop::Memory
    }
}

impl<A> Client<A> {
    /// A client whose session was opened, before its first gesture.
    pub fn new(alloc: Global, actor: A) -> Client<A>
        ensures actor { result.actor ≡ actor }
        ensures waiting { result.waiting.items ≡ [] }
        ensures number { result.list.number ≡ 1 }
        ensures over { result.over ≡ None }
    {
        Client {
            actor,
            waiting: Vec::new(alloc),
            list: Telling::begin(alloc, 1),
            over: None,
        }
    }

    /// The batches that report a gesture. Each call that is told is given its reply. A gesture that is not told whole is
    /// the client's end: each later one is answered likewise, with no batch, and changes nothing.
    pub fn gesture<G>(&mut self, alloc: Global, giver: &mut G, gesture: &Gesture) -> Told
    where
        A: Actor<G>,
        requires { IsGesture gesture.now }
        ensures told { self.old.over ≡ None → (close : Closes) → ToldSo result.how close
            → TellsGesture A.session gesture.now self.old.actor giver.old self.old.list.number
            self.old.waiting.items close
            (batches_of result.batches.items) self.new.actor giver.new self.new.list.number self.new.waiting.items }
        ensures over { self.old.over ≡ None → self.new.over ≡ end_of result.how }
        ensures later { (how : Ways) → self.old.over ≡ Some how → (result.how ≡ how)
            × (result.batches.items ≡ []) × (self.new ≡ self.old) × (giver.new ≡ giver.old) }
    {
        if let Some(how) = self.over {
            return Told::nothing(alloc, how);
        }
        let told = match self.tell_batches(alloc, giver, gesture) {
            Ok(told) => told,
            Err(NoMemory) => Told::nothing(alloc, HowTold::Memory),
        };
        self.over = end_of(told.how);
        told
    }

    /// The same of a client that is not at its end.
    fn tell_batches<G>(
        &mut self,
        alloc: Global,
        giver: &mut G,
        gesture: &Gesture,
    ) -> Result<Told, NoMemory>
    where
        A: Actor<G>,
        requires { IsGesture gesture.now }
        ensures { IfOk result (λ told. (close : Closes) → ToldSo told.how close
            → TellsGesture A.session gesture.now self.old.actor giver.old self.old.list.number
            self.old.waiting.items close
            (batches_of told.batches.items) self.new.actor giver.new self.new.list.number self.new.waiting.items) }
    {
        let number = self.list.number;
        self.list = Telling::begin(alloc, number);
        self.actor.begin_batch(alloc, number);
        let how = how_told(self.tell_list(alloc, giver, gesture));
        self.list.close(alloc)?;
        let batches = mem::replace(&mut self.list.closed, Vec::new(alloc));
        Ok(Told { batches, how })
    }

    /// The calls that wait, the replies that waited before, and the event.
    fn tell_list<G>(&mut self, alloc: Global, giver: &mut G, gesture: &Gesture) -> Result<(), Stop>
    where
        A: Actor<G>,
        requires { IsGesture gesture.now }
        ensures { Comes (TellsList A.session gesture.now) (place_of self.old giver.old) result
            (place_of self.new giver.new) }
    {
        let due = mem::replace(&mut self.waiting, Vec::new(alloc));
        self.tell_calls(alloc, giver)?;
        self.tell_behind(alloc, giver, due, gesture)
    }

    /// The replies, and then the event.
    fn tell_behind<G>(
        &mut self,
        alloc: Global,
        giver: &mut G,
        due: Vec<u64>,
        gesture: &Gesture,
    ) -> Result<(), Stop>
    where
        A: Actor<G>,
        requires { IsGesture gesture.now }
        ensures { Comes (Then (TellsReplies A.session due.items) (TellsEvent A.session gesture.now))
            (place_of self.old giver.old) result (place_of self.new giver.new) }
    {
        self.tell_replies(alloc, giver, due.as_slice())?;
        self.tell_event(alloc, giver, gesture)
    }

    /// The replies to the calls of these numbers, each followed by the calls that wait then.
    fn tell_replies<G>(&mut self, alloc: Global, giver: &mut G, due: &[u64]) -> Result<(), Stop>
    where
        A: Actor<G>,
        ensures { Comes (TellsReplies A.session due.now) (place_of self.old giver.old) result
            (place_of self.new giver.new) }
    {
        for number in due {
            self.tell(alloc, giver, Tale::Reply(*number))?;
            self.tell_calls(alloc, giver)?;
        }
        Ok(())
    }

    /// The event, followed by the calls that were made in its flow.
    fn tell_event<G>(&mut self, alloc: Global, giver: &mut G, gesture: &Gesture) -> Result<(), Stop>
    where
        A: Actor<G>,
        requires { IsGesture gesture.now }
        ensures { Comes (TellsEvent A.session gesture.now) (place_of self.old giver.old) result
            (place_of self.new giver.new) }
    {
        match gesture {
            Gesture::Event(report) => {
                self.tell(alloc, giver, Tale::Event(report))?;
                self.tell_calls(alloc, giver)
            }
            Gesture::Flush => Ok(()),
        }
    }

    /// All calls that wait to be reported.
    fn tell_calls<G>(&mut self, alloc: Global, giver: &mut G) -> Result<(), Stop>
    where
        A: Actor<G>,
        ensures { Comes (TellsCalls A.session) (place_of self.old giver.old) result
            (place_of self.new giver.new) }
    {
        for told in 0..u32::MAX {
            match self.actor.next_call(alloc)? {
                Some(call) => self.tell_call(alloc, giver, &call)?,
                None => return Ok(()),
            }
        }
        Err(Stop::Memory)
    }

    /// A call that waits.
    fn tell_call<G>(&mut self, alloc: Global, giver: &mut G, call: &WaitingCall) -> Result<(), Stop>
    where
        A: Actor<G>,
        ensures { Comes (TellsCall A.session (waiting_of call.now)) (place_of self.old giver.old)
            result (place_of self.new giver.new) }
    {
        self.tell(alloc, giver, Tale::Call(call))?;
        self.keep_waiting(call)?;
        Ok(())
    }

    /// The reply to a call that was told waits to be delivered, if the call has a callback.
    fn keep_waiting(&mut self, call: &WaitingCall) -> Result<(), NoMemory>
        ensures waiting { OnOk result (self.new.waiting.items ≡ (if call.now.calls_back
            then self.old.waiting.items ++ call.now.number ∷ [] else self.old.waiting.items)) }
        ensures others { (self.new.actor ≡ self.old.actor) × (self.new.list ≡ self.old.list) }
    {
        if call.calls_back {
            self.waiting.push(call.number)?;
        }
        Ok(())
    }

    /// One item more, which is played as it is told.
    fn tell<G>(&mut self, alloc: Global, giver: &mut G, tale: Tale<'_>) -> Result<(), Stop>
    where
        A: Actor<G>,
        requires { MayBeTold tale }
        ensures { Comes (TellsItem A.session (IsTold tale.entry)) (place_of self.old giver.old)
            result (place_of self.new giver.new) }
    {
        let size = text_size(alloc, tale)?;
        let item = item_of(alloc, tale)?;
        let played = item_of(alloc, tale)?;
        self.put::<G>(alloc, item, size)?;
        let over = self.actor.play(alloc, giver, played)?;
        self.list.spend(over.fuel);
        closed_so(over.close)
    }

    /// Puts an item into the open batch, or into the next where it has no room.
    fn put<G>(&mut self, alloc: Global, item: Item, size: usize) -> Result<(), NoMemory>
    where
        A: Actor<G>,
        requires { size ≡ size_of (reported_of item) }
        ensures { (giver : G) → OnOk result
            (IsPut A.session (reported_of item) (place_of self.old giver) (place_of self.new giver)) }
    {
        if self.list.has_room(size) {
            return self.list.push(item, size);
        }
        self.list.close(alloc)?;
        self.actor.begin_batch(alloc, self.list.number);
        self.list.push(item, size)
    }
}

/// An item closed so.
fn closed_so(close: Close) -> Result<(), Stop>
    ensures fine { IfOk result (λ _. close ≡ Close.Fine) }
    ensures other { IfErr result (λ stop. (close ≢ Close.Fine) × (stop ≡ Stop.Closed close)) }
{
    match close {
        Close::Fine => Ok(()),
        _ => Err(Stop::Closed(close)),
    }
}

/// How a gesture was told that comes to this.
fn how_told(told: Result<(), Stop>) -> HowTold
    ensures { result ≡ how_told told }
{
    match told {
        Ok(()) => HowTold::Whole,
        Err(Stop::Closed(close)) => HowTold::Ended(close),
        Err(Stop::Memory) => HowTold::Memory,
    }
}

/// The end of a client whose gesture was told so, if it is one.
fn end_of(how: HowTold) -> Option<HowTold>
    ensures { result ≡ end_of how }
{
    match how {
        HowTold::Whole | HowTold::Ended(Close::Fine) => None,
        HowTold::Ended(_) | HowTold::Memory => Some(how),
    }
}
