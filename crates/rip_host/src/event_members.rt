ghost use Rattle.std.specs.Prelude.{◌≡◌, ◌<◌, ℕ, IfSome};
ghost use Rattle.rip_heap.specs.Growth.{Belongs};
ghost use Rattle.rip_heap.specs.World.{first_node};
ghost use Rattle.rip_host.specs.EventMembers.{bubbles, can_be_cancelled, event_member, event_member_of, node_of, phase_value, prevented, stopped};
ghost use Rattle.rip_host.specs.Visit.{AreNodes};

use crate::events::Event;
use rip_base::{Span, Value, Whole};
use rip_events::Station;
use rip_heap::Heap;
use rip_nodes::{member_named, node_or_null, node_value, text_value};
use rip_values::{Builtin, FixedText};

/// A member that events have (DOM Level 2 Events 1.4).
#[derive(Clone, Copy, Debug, PartialEq, Eq)]
pub enum EventMember {
    Type,
    Target,
    CurrentTarget,
    EventPhase,
    Bubbles,
    Cancelable,
    StopPropagation,
    PreventDefault,
}

impl EventMember {
    /// The member that has this name.
    pub fn of(name: FixedText) -> Option<EventMember>
        ensures { result ≡ event_member_of name }
    {
        match name {
            FixedText::EventType => Some(EventMember::Type),
            FixedText::Target => Some(EventMember::Target),
            FixedText::CurrentTarget => Some(EventMember::CurrentTarget),
            FixedText::EventPhase => Some(EventMember::EventPhase),
            FixedText::Bubbles => Some(EventMember::Bubbles),
            FixedText::Cancelable => Some(EventMember::Cancelable),
            FixedText::StopPropagation => Some(EventMember::StopPropagation),
            FixedText::PreventDefault => Some(EventMember::PreventDefault),
            _ => None,
        }
    }
}

/// What an event has as this member.
pub(crate) fn event_member(heap: &Heap, event: &Event, member: EventMember) -> Value
    requires target { event.now.target < first_node }
    requires at { IfSome event.now.at (λ s. s.node < first_node) }
    ensures value { result ≡ event_member heap.now event.now member }
    ensures belongs { Belongs heap.now result }
{
    match member {
        EventMember::Type => text_value(heap, event.kind),
        EventMember::Target => node_value(event.target),
        EventMember::CurrentTarget => node_or_null(node_of(event.at)),
        EventMember::EventPhase => phase_value(event.at),
        EventMember::Bubbles => Value::Bool(bubbles(heap, event.kind)),
        EventMember::Cancelable => Value::Bool(can_be_cancelled(heap, event.kind)),
        EventMember::StopPropagation => Value::Object(Builtin::StopPropagation.number()),
        EventMember::PreventDefault => Value::Object(Builtin::PreventDefault.number()),
    }
}

fn node_of(at: Option<Station>) -> Option<u32>
    ensures node { result ≡ node_of at }
    ensures there { (b : ℕ) → IfSome at (λ s. s.node < b) → IfSome result (λ n. n < b) }
{
    match at {
        Some(station) => Some(station.node),
        None => None,
    }
}

// The number of the phase as a value.
fn phase_value(at: Option<Station>) -> Value
    ensures { result ≡ phase_value at }
{
    let number = match at {
        Some(station) => station.phase.number(),
        None => 0,
    };
    match Whole::new(i64::from(number)) {
        Some(whole) => Value::Num(whole),
        None => Value::NaN,
    }
}

/// Whether events of the type that has this text bubble.
pub fn bubbles(heap: &Heap, kind: Span) -> bool
    ensures { result ≡ bubbles heap.now.pool kind }
{
    match member_named(heap, kind) {
        Some(name) => matches!(
            name,
            FixedText::Click | FixedText::Submit | FixedText::Input | FixedText::Change
        ),
        None => false,
    }
}

/// Whether events of the type that has this text can be cancelled.
pub fn can_be_cancelled(heap: &Heap, kind: Span) -> bool
    ensures { result ≡ can_be_cancelled heap.now.pool kind }
{
    match member_named(heap, kind) {
        Some(name) => matches!(name, FixedText::Click | FixedText::Submit),
        None => false,
    }
}

/// The event, stopped.
pub(crate) fn stopped(event: &Event) -> Event
    ensures event { result ≡ stopped event.now }
    ensures object { result.object ≡ event.now.object }
    ensures nodes { AreNodes event.now → AreNodes result }
{
    Event {
        stopped: true,
        ..*event
    }
}

/// The event, prevented where it can be.
pub(crate) fn prevented(heap: &Heap, event: &Event) -> Event
    ensures event { result ≡ prevented heap.now.pool event.now }
    ensures object { result.object ≡ event.now.object }
    ensures nodes { AreNodes event.now → AreNodes result }
{
    Event {
        prevented: event.prevented || can_be_cancelled(heap, event.kind),
        ..*event
    }
}
