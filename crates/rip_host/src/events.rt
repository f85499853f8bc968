ghost use Rattle.std.specs.Prelude.{◌≡◌, ◌<◌, ◌≤◌, ◌++◌, ◌∷◌, [], ℕ, All, IfOk, IfSome, length, vec_capacity};
ghost use Rattle.rip_host.specs.Events.{IsAscending, IsSplitAt, event_at, event_of, replaced};

use rip_base::{NoMemory, Span};
use rip_events::Station;
use std::alloc::Global;
use std::marker::Model;

/// An event that was dispatched (DOM Level 2 Events 1.4): the object that it is, the text of its type, its target, where
/// its flow is, and whether it was stopped and prevented. After the flow it is nowhere.
#[derive(Clone, Copy, Debug)]
pub struct Event {
    pub object: u32,
    pub kind: Span,
    pub target: u32,
    pub at: Option<Station>,
    pub stopped: bool,
    pub prevented: bool,
}

/// The events of a session, in the order of their objects. The room for all is taken at once.
#[derive(Debug, Drop)]
pub struct Events {
    limit: u32,
    events: Vec<Event>,
}

impl Model for Events {
    ghost use Rattle.std.specs.Prelude.{◌^◌, ◌<◌, ◌≤◌, length, vec_capacity};
    ghost use Rattle.rip_host.specs.Events.{Occurred, IsAscending};

    ghost Value = { Occurred };

    ghost view = { λ e. record { limit = e.limit; events = e.events.items } };

    ghost invariant = { λ e. IsAscending e.events.items × (length e.events.items ≤ e.limit)
        × (e.limit ≤ vec_capacity e.events) × (e.limit < 2 ^ 32) };
}

impl Events {
    /// No event, and the room for so many.
    pub fn make(alloc: Global, limit: u32) -> Result<Events, NoMemory>
        ensures { IfOk result (λ events. events ≡ record { limit = limit; events = [] }) }
    {
        Ok(Events {
            limit,
            events: Vec::with_capacity(alloc, limit as usize)?,
        })
    }

    /// The event that this object is.
    pub fn get(&self, object: u32) -> Option<Event>
        ensures { result ≡ event_of self.now.events object }
    {
        get_at(&self.events, place_of(&self.events, object), object)
    }

    /// An event more, whose object is behind all others.
    #[tactic(auto, using(crate::proofs::EventLemmas::ascends_more))]
    pub fn push(&mut self, event: Event)
        requires room { length self.old.events < self.old.limit }
        requires behind { All (λ e. e.object < event.object) self.old.events }
        ensures { self.new ≡ record self.old { events = self.old.events ++ event ∷ [] } }
    {
        self.events.push_reserved(event);
    }

    /// The event in place of the one of the same object; where there is none, nothing is changed.
    pub fn put(&mut self, event: Event)
        ensures { self.new ≡ record self.old { events = replaced event self.old.events } }
    {
        let place = place_of(&self.events, event.object);
        put_at(&mut self.events, place, event);
    }
}

// The event at this place, where it is of this object.
#[tactic(auto, using(crate::proofs::EventLemmas::found))]
fn get_at(events: &Vec<Event>, place: usize, object: u32) -> Option<Event>
    requires split { IsSplitAt events.now.items object place }
    requires ascending { IsAscending events.now.items }
    ensures { result ≡ event_of events.now.items object }
{
    match events.get(place) {
        Some(event) => if event.object == object {
            Some(*event)
        } else {
            None
        },
        None => None,
    }
}

// The event at this place; past the end it is none.
fn event_at(events: &Vec<Event>, place: usize) -> Event
    ensures { result ≡ event_at events.now.items place }
{
    match events.get(place) {
        Some(event) => *event,
        None => Event {
            object: 0,
            kind: Span { start: 0, count: 0 },
            target: 0,
            at: None,
            stopped: false,
            prevented: false,
        },
    }
}

// How many events have a lesser object.
#[tactic(auto, using(crate::proofs::EventLemmas::between))]
fn place_of(events: &Vec<Event>, object: u32) -> usize
    requires { IsAscending events.now.items }
    ensures split { IsSplitAt events.now.items object result }
    ensures within { result ≤ length events.now.items }
{
    let mut low = 0;
    let mut high = events.len();
    while low < high {
        let middle = low + (high - low) / 2;
        let found = event_at(events, middle);
        if found.object < object {
            low = middle + 1;
        } else {
            high = middle;
        }
    }
    low
}

// The event at this place is another, where it is of the same object.
#[tactic(auto, using(crate::proofs::EventLemmas::kept))]
fn put_at(events: &mut Vec<Event>, place: usize, event: Event)
    requires split { IsSplitAt events.old.items event.object place }
    requires ascending { IsAscending events.old.items }
    ensures put { events.new.items ≡ replaced event events.old.items }
    ensures ascending { IsAscending events.new.items }
    ensures count { length events.new.items ≡ length events.old.items }
    ensures room { vec_capacity events.new ≡ vec_capacity events.old }
{
    if place >= events.len() {
        return;
    }
    let found = event_at(events, place);
    if found.object != event.object {
        return;
    }
    events[place] = event;
}
