ghost use Rattle.rip_browser.specs.Events.{most_steps, steps_of};
ghost use Rattle.rip_browser.specs.Positions.{tells};
ghost use Rattle.rip_browser.specs.Visits.{browser_rules};

use crate::flow::Flow;
use crate::{event, flowing, replies};
use rip_base::Report;
use rip_heap::Heap;
use rip_host::Browser;
use rip_replica::items::{Callback, FlowCall, PageHost, Position, ReplyRefused, ReportRefused};

impl PageHost<Flow> for Browser {
    ghost use Rattle.rip_browser.specs.Events.{most_steps, steps_of};
    ghost use Rattle.rip_browser.specs.Positions.{tells};
    ghost use Rattle.rip_browser.specs.Visits.{browser_rules};

    ghost rules = { browser_rules };

    ghost flow_steps = { λ flow. steps_of flow };

    ghost most_flow_steps = { most_steps };

    ghost flow_room = { λ flow. flow.nodes };

    ghost most_nodes = { λ s. s.dom.limit };

    ghost positions = { λ s. tells s };

    fn report(
        &mut self,
        heap: &mut Heap,
        report: &Report,
        flow: &mut Flow,
    ) -> Result<(), ReportRefused> {
        event::report(self, heap, report, flow)
    }

    fn next_call(&mut self, heap: &mut Heap, flow: &mut Flow) -> Option<FlowCall> {
        flowing::next_call(self, heap, flow)
    }

    fn deliver(
        &mut self,
        heap: &mut Heap,
        batch: u64,
        number: u64,
    ) -> Result<Callback, ReplyRefused> {
        replies::deliver(self, heap, batch, number)
    }

    fn position_of(&self, number: u64, text: &[u8]) -> Position {
        replies::position_in(&self.calls, &self.undelivered, number, text)
    }
}
