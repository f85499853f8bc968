ghost use Rattle.std.specs.Prelude.{◌≡◌, ◌<◌, ℕ, Option, Some, None, IfSome, IfOk, OnErr};
ghost use Rattle.rip_base.specs.declared.value.Refused.TheVariants.{Limit as At};
ghost use Rattle.rip_heap.specs.Growth.{Grows};
ghost use Rattle.rip_heap.specs.Step.{TakesNoMemory};
ghost use Rattle.rip_heap.specs.World.{first_node};
ghost use Rattle.rip_host.specs.Flow.{event_changed, event_opened, is_prevented, is_stopped, reached};
ghost use Rattle.rip_host.specs.Opening.{Opens};
ghost use Rattle.rip_host.specs.Visit.{Fits};

use crate::browser::Browser;
use crate::events::Event;
use rip_base::{Refused, Span};
use rip_events::Station;
use rip_heap::{Class, Heap};
use std::alloc::Global;

impl Browser {
    /// The object of a new event of this type and target, at one cell. Its flow has not begun.
    pub fn open_event(
        &mut self,
        alloc: Global,
        heap: &mut Heap,
        kind: Span,
        target: u32,
    ) -> Result<u32, Refused>
        requires fits { Fits self.old heap.old }
        requires target { target < first_node }
        ensures opens { Opens (event_opened heap.old self.old kind target)
            heap.old self.old result heap.new self.new }
        ensures memory { TakesNoMemory result }
        ensures document { self.new.dom ≡ self.old.dom }
        ensures fits { Fits self.new heap.new }
        ensures grows { Grows heap.old heap.new }
    {
        match heap.new_of(alloc, Class::Event) {
            Ok(object) => {
                self.events.push(Event {
                    object,
                    kind,
                    target,
                    at: None,
                    stopped: false,
                    prevented: false,
                });
                Ok(object)
            }
            Err(refused) => Err(refused),
        }
    }

    /// The flow of the event is at this station now, or over. An object that is no event changes nothing.
    pub fn event_at(&mut self, event: u32, at: Option<Station>)
        requires { IfSome at (λ s. s.node < first_node) }
        ensures { self.new ≡ reached event at self.old }
    {
        match self.events.get(event) {
            Some(found) => self.events.put(Event { at, ..found }),
            None => {}
        }
    }

    /// Whether the flow of the event was stopped.
    pub fn stopped(&self, event: u32) -> bool
        ensures { result ≡ is_stopped self.now event }
    {
        match self.events.get(event) {
            Some(found) => found.stopped,
            None => false,
        }
    }

    /// Whether what the event would have done was prevented.
    pub fn prevented(&self, event: u32) -> bool
        ensures { result ≡ is_prevented self.now event }
    {
        match self.events.get(event) {
            Some(found) => found.prevented,
            None => false,
        }
    }
}
