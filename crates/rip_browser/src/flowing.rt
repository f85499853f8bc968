ghost use Rattle.std.specs.Prelude.{◌≡◌, ◌<◌, ◌≤◌, ℕ, MatchOption, OnOk, Err};
ghost use Rattle.rip_heap.specs.Growth.{Grows};
ghost use Rattle.rip_heap.specs.World.{first_node};
ghost use Rattle.rip_host.specs.Visit.{Fits};
ghost use Rattle.rip_replica.specs.Rules.{flow_ahead};
ghost use Rattle.rip_browser.specs.Events.{Going, left_of, most_steps, steps_of};
ghost use Rattle.rip_browser.specs.Steps.{BeginsLoad};

use crate::event::settle;
use crate::flow::Flow;
use rip_base::Refused;
use rip_heap::Heap;
use rip_host::{Browser, bubbles};
use rip_replica::items::FlowCall;
use rip_values::{FIRST_NODE, FixedText};
use std::alloc::Global;

/// What is called next in a flow; none where it is over, and then a checkbox is settled.
pub(crate) fn next_call(browser: &mut Browser, heap: &Heap, flow: &mut Flow) -> Option<FlowCall>
    requires { Fits browser.old heap.now }
    ensures fits { Fits browser.new heap.now }
    ensures plan { (item : ℕ) (next : Going) → left_of flow.old item next heap.now browser.old
        ≡ flow_ahead item (left_of flow.new item next) next result heap.now browser.new }
    ensures fewer { MatchOption result (steps_of flow.new ≤ steps_of flow.old)
        (λ _. steps_of flow.new < steps_of flow.old) }
    ensures room { flow.new.nodes ≡ flow.old.nodes }
{
    if flow.over {
        return None;
    }
    let event = flow.event;
    match rip_host::next_call(&mut flow.cursor, heap, browser, event) {
        Some(place) => Some(FlowCall {
            function: place.function,
            node: FIRST_NODE + place.node,
            event,
        }),
        None => {
            settle(browser, heap, flow.turned, event);
            flow.over = true;
            None
        }
    }
}

impl Flow {
    /// Begins the flow of `load` at this node. Memory is wanting only where there is too little room for the document.
    pub(crate) fn begin_load(
        &mut self,
        alloc: Global,
        heap: &mut Heap,
        browser: &mut Browser,
        body: u32,
    ) -> Result<(), Refused>
        requires fits { Fits browser.old heap.old }
        requires body { body < first_node }
        ensures fits { Fits browser.new heap.new }
        ensures grows { Grows heap.old heap.new }
        ensures plan { (item : ℕ) → BeginsLoad item body heap.old browser.old result heap.new
            browser.new self.new }
        ensures steps { OnOk result (steps_of self.new ≤ most_steps) }
        ensures memory { result ≡ Err Refused.Memory → self.old.nodes < browser.old.dom.limit }
        ensures room { self.new.nodes ≡ self.old.nodes }
    {
        if browser.dom.limit() > self.nodes {
            return Err(Refused::Memory);
        }
        let kind = FixedText::Load.span();
        self.turned = None;
        match browser.open_event(alloc, heap, kind, body) {
            Ok(event) => {
                let _made = browser.dom.made();
                let bubbling = bubbles(heap, kind);
                self.cursor.begin(&browser.dom, kind, body, bubbling);
                self.event = event;
                self.over = false;
                Ok(())
            }
            Err(refused) => Err(refused),
        }
    }
}
