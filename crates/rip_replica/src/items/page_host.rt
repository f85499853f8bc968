use rip_base::{BadReport, Limit, Report, Value};
use rip_eval_rows::Stop;
use rip_heap::{Heap, Host};

/// A listener that is to be called: the function, the object that is the node whose listener it is, and that of the event.
#[derive(Clone, Copy, Debug, PartialEq, Eq)]
pub struct FlowCall {
    pub function: u32,
    pub node: u32,
    pub event: u32,
}

/// How a reported call stands to the calls that the script made.
#[derive(Clone, Copy, Debug, PartialEq, Eq)]
pub enum Position {
    /// Its number is not one more than that of the call that was served last.
    NotNext,
    /// Another call stands there, or none was made.
    Other,
    /// It is the call that stands there, but as many replies wait as may.
    TooMany,
    /// It is the call that stands there, and is to be served.
    Served,
}

/// Why a report has no flow.
#[derive(Clone, Copy, Debug, PartialEq, Eq)]
pub enum ReportRefused {
    Illegal(BadReport),
    Limit(Limit),
    /// All is as before.
    Memory,
}

/// A callback that is to be called with a reply.
#[derive(Clone, Copy, Debug, PartialEq, Eq)]
pub struct Callback {
    pub function: u32,
    pub reply: Value,
}

/// Why a reply is not delivered.
#[derive(Clone, Copy, Debug, PartialEq, Eq)]
pub enum ReplyRefused {
    NotDue,
    /// Its value has a fault, or would pass a limit.
    Stopped(Stop),
}

/// What stands behind the script of a page, as the items of a batch use it, where F is the type of a flow under way.
pub trait PageHost<F>: Host {
    ghost use Rattle.std.specs.Prelude.{◌≡◌, ◌<◌, ◌≤◌, ℕ, MatchOption, OnOk, Err};
    ghost use Rattle.rip_heap.specs.Growth.{Grows};
    ghost use Rattle.rip_heap.specs.World.{World};
    ghost use Rattle.rip_eval_rows.specs.Plan.{Plan};
    ghost use Rattle.rip_replica.specs.Rules.{Delivers, Reports, Rules, TellsPositions, flow_ahead};

    // What items come to.
    ghost rules: { Rules F Self };

    // A bound of the steps of a flow, and one for all flows.
    ghost flow_steps: { F → ℕ };

    ghost most_flow_steps: { ℕ };

    // For how many nodes a flow has room, and how many the document of the page may have.
    ghost flow_room: { F → ℕ };

    ghost most_nodes: { Self → ℕ };

    /// Does what an event does before its flow: what is left of it is the flow. Memory is wanting only where the flow has too
    /// little room for the page's document.
    fn report(
        &mut self,
        heap: &mut Heap,
        report: &Report,
        flow: &mut F,
    ) -> Result<(), ReportRefused>
        requires { Self.fits self.old heap.old }
        ensures fits { Self.fits self.new heap.new }
        ensures grows { Grows heap.old heap.new }
        ensures reports { Reports rules report.now heap.old self.old result heap.new self.new
            flow.new }
        ensures steps { OnOk result (flow_steps flow.new ≤ most_flow_steps) }
        ensures memory { result ≡ Err ReportRefused.Memory → flow_room flow.old
            < most_nodes self.old }
        ensures room { flow_room flow.new ≡ flow_room flow.old };

    /// What is to be called next in a flow; none where it is over, and then what follows it is done.
    fn next_call(&mut self, heap: &mut Heap, flow: &mut F) -> Option<FlowCall>
        requires { Self.fits self.old heap.old }
        ensures fits { Self.fits self.new heap.new }
        ensures grows { Grows heap.old heap.new }
        ensures flow { (item : ℕ) (done : World → Self → Plan Self)
            → rules.flow flow.old item done heap.old self.old
            ≡ flow_ahead item (rules.flow flow.new item done) done result heap.new self.new }
        ensures fewer { MatchOption result (flow_steps flow.new ≤ flow_steps flow.old)
            (λ _. flow_steps flow.new < flow_steps flow.old) }
        ensures room { flow_room flow.new ≡ flow_room flow.old };

    /// Makes the value of a reply, and tells its callback.
    fn deliver(
        &mut self,
        heap: &mut Heap,
        batch: u64,
        number: u64,
    ) -> Result<Callback, ReplyRefused>
        requires { Self.fits self.old heap.old }
        ensures fits { Self.fits self.new heap.new }
        ensures grows { Grows heap.old heap.new }
        ensures delivers { Delivers (rules.delivered self.old heap.old batch number) heap.old
            self.old result heap.new self.new };

    /// How a reported call stands to the calls that the script made.
    fn position_of(&self, number: u64, text: &[u8]) -> Position
        ensures { result ≡ rules.position self.now number text.now };

    // Each reported call is told as it stands to the calls that the script made.
    ghost positions: { (s : Self) → TellsPositions rules s };
}
