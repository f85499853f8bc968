ghost use Rattle.std.specs.Prelude.{◌≡◌, ◌+◌, ◌<◌, IfOk, OnErr};
ghost use Rattle.rip_heap.specs.Growth.{Grows};
ghost use Rattle.rip_eval_rows.specs.Plan.{IsFewer, ahead};
ghost use Rattle.rip_replica.specs.Items.{call_step, fine, item_plan, left_of_item, reply_plan, steps_of_item, under_way_of};

use crate::items::batch::Items;
use crate::items::page_host::{PageHost, Position, ReplyRefused, ReportRefused};
use rip_base::{BadReport, Bytes, Limit, NoMemory, Report, Value};
use rip_eval_rows::{Close, Opening, Step, Stop};
use rip_heap::Heap;
use std::alloc::Global;

/// What a browser reports, in the order in which it happened.
#[derive(Drop)]
pub enum Item {
    Event(Report),
    /// The script made its call of this number, counted from 1: the canonical text of its name and arguments.
    Call { number: u64, text: Bytes },
    /// The reply to the call of this number was delivered.
    Reply { number: u64 },
}

/// Where the item under way stands.
#[derive(Clone, Copy, Debug, PartialEq, Eq)]
pub enum UnderWay {
    /// Before its first step.
    Fresh,
    /// Within its flow.
    Flowing,
    /// At its end, which is fine.
    Ending,
}

/// The items of a batch of this number, where F is the type of a flow under way.
#[derive(Drop)]
pub struct SessionItems<F> {
    pub batch: u64,
    pub flow: F,
    pub under_way: UnderWay,
}

impl<F, H: PageHost<F>> Items<H, Item> for SessionItems<F> {
    ghost use Rattle.std.specs.Prelude.{◌+◌};
    ghost use Rattle.rip_replica.specs.Items.{item_plan, left_of_item, steps_of_item};

    ghost item_plan = { λ items. item_plan H.rules items.batch };

    ghost under_way = { λ items. left_of_item H.rules items.batch items.flow items.under_way };

    ghost steps = { λ items. steps_of_item H.most_flow_steps (H.flow_steps items.flow) items.under_way };

    ghost most = { λ _. H.most_flow_steps + 2 };

    ghost room = { λ items. H.flow_room items.flow };

    ghost need = { H.most_nodes };

    fn begin(&mut self) {
        self.under_way = UnderWay::Fresh;
    }

    fn next_of(
        &mut self,
        _alloc: Global,
        item: &Item,
        number: u32,
        heap: &mut Heap,
        host: &mut H,
    ) -> Result<Step, NoMemory> {
        match self.under_way {
            UnderWay::Fresh => self.first_step(item, number, heap, host),
            UnderWay::Flowing => Ok(self.flow_step(number, heap, host)),
            UnderWay::Ending => Ok(Step::Over(Close::Fine)),
        }
    }
}

impl<F> SessionItems<F> {
    /// The first step of an item.
    fn first_step<H: PageHost<F>>(
        &mut self,
        item: &Item,
        number: u32,
        heap: &mut Heap,
        host: &mut H,
    ) -> Result<Step, NoMemory>
        requires fits { H.fits host.old heap.old }
        requires fresh { self.old.under_way ≡ UnderWay.Fresh }
        ensures fits { H.fits host.new heap.new }
        ensures grows { Grows heap.old heap.new }
        ensures plan { IfOk result
            (λ step. item_plan H.rules self.old.batch item.now number heap.old host.old
            ≡ ahead (left_of_item H.rules self.old.batch self.new.flow self.new.under_way item.now
            number) step heap.new host.new) }
        ensures batch { self.new.batch ≡ self.old.batch }
        ensures fewer { IfOk result
            (λ step. IsFewer step
            (steps_of_item H.most_flow_steps (H.flow_steps self.new.flow) self.new.under_way)
            (H.most_flow_steps + 2)) }
        ensures memory { OnErr result
            ((self.new.under_way ≡ UnderWay.Fresh) × (heap.new ≡ heap.old)
            × (host.new ≡ host.old)) }
        ensures lack { OnErr result (H.flow_room self.old.flow < H.most_nodes host.old) }
        ensures room { H.flow_room self.new.flow ≡ H.flow_room self.old.flow }
    {
        match item {
            Item::Event(report) => self.event_step(report, number, heap, host),
            Item::Call { number: call, text } => {
                let position = host.position_of(*call, text.as_slice());
                Ok(self.call_step(number, position))
            },
            Item::Reply { number: call } => Ok(self.reply_step(*call, number, heap, host)),
        }
    }

    /// The first step of an event: its effect on the form, and what is called first in its flow.
    fn event_step<H: PageHost<F>>(
        &mut self,
        report: &Report,
        number: u32,
        heap: &mut Heap,
        host: &mut H,
    ) -> Result<Step, NoMemory>
        requires fits { H.fits host.old heap.old }
        requires fresh { self.old.under_way ≡ UnderWay.Fresh }
        ensures fits { H.fits host.new heap.new }
        ensures grows { Grows heap.old heap.new }
        ensures plan { IfOk result
            (λ step. (item : Item) → H.rules.event host.old heap.old report.now number fine
            ≡ ahead (left_of_item H.rules self.old.batch self.new.flow self.new.under_way item
            number) step heap.new host.new) }
        ensures batch { self.new.batch ≡ self.old.batch }
        ensures fewer { IfOk result
            (λ step. IsFewer step
            (steps_of_item H.most_flow_steps (H.flow_steps self.new.flow) self.new.under_way)
            (H.most_flow_steps + 2)) }
        ensures memory { OnErr result
            ((self.new.under_way ≡ UnderWay.Fresh) × (heap.new ≡ heap.old)
            × (host.new ≡ host.old)) }
        ensures lack { OnErr result (H.flow_room self.old.flow < H.most_nodes host.old) }
        ensures room { H.flow_room self.new.flow ≡ H.flow_room self.old.flow }
    {
        match host.report(heap, report, &mut self.flow) {
            Ok(()) => {
                self.under_way = UnderWay::Flowing;
                Ok(self.flow_step(number, heap, host))
            },
            Err(ReportRefused::Illegal(kind)) => Ok(refused(number, kind)),
            Err(ReportRefused::Limit(limit)) => Ok(stopped(number, Stop::Limit(limit))),
            Err(ReportRefused::Memory) => Err(NoMemory),
        }
    }

    /// What is called next in a flow.
    fn flow_step<H: PageHost<F>>(&mut self, number: u32, heap: &mut Heap, host: &mut H) -> Step
        requires fits { H.fits host.old heap.old }
        requires flowing { self.old.under_way ≡ UnderWay.Flowing }
        ensures fits { H.fits host.new heap.new }
        ensures grows { Grows heap.old heap.new }
        ensures plan { (item : Item) → H.rules.flow self.old.flow number fine heap.old host.old
            ≡ ahead (left_of_item H.rules self.old.batch self.new.flow self.new.under_way item
            number) result heap.new host.new }
        ensures batch { self.new.batch ≡ self.old.batch }
        ensures fewer { IsFewer result
            (steps_of_item H.most_flow_steps (H.flow_steps self.new.flow) self.new.under_way)
            (H.flow_steps self.old.flow + 1) }
        ensures room { H.flow_room self.new.flow ≡ H.flow_room self.old.flow }
    {
        match host.next_call(heap, &mut self.flow) {
            None => {
                self.under_way = UnderWay::Ending;
                Step::Over(Close::Fine)
            },
            Some(call) => {
                let opening = Opening::Call {
                    function: call.function,
                    this: Value::Object(call.node),
                    argument: Some(Value::Object(call.event)),
                };
                Step::Run {
                    item: number,
                    opening,
                }
            },
        }
    }

    /// The first step of a call, by how it stands to the calls that the script made.
    fn call_step(&mut self, number: u32, position: Position) -> Step
        requires { self.old.under_way ≡ UnderWay.Fresh }
        ensures step { result ≡ call_step number position }
        ensures rest { self.new ≡ record self.old { under_way = under_way_of position } }
    {
        match position {
            Position::NotNext => refused(number, BadReport::Number),
            Position::Other => Step::Over(Close::Mismatch { item: number }),
            Position::TooMany => stopped(number, Stop::Limit(Limit::Replies)),
            Position::Served => {
                self.under_way = UnderWay::Ending;
                Step::Await
            },
        }
    }

    /// The first step of a reply: its value, and the call of its callback.
    fn reply_step<H: PageHost<F>>(
        &mut self,
        call: u64,
        number: u32,
        heap: &mut Heap,
        host: &mut H,
    ) -> Step
        requires fits { H.fits host.old heap.old }
        requires fresh { self.old.under_way ≡ UnderWay.Fresh }
        ensures fits { H.fits host.new heap.new }
        ensures grows { Grows heap.old heap.new }
        ensures plan { (item : Item)
            → reply_plan number (H.rules.delivered host.old heap.old self.old.batch call) heap.old
            host.old ≡ ahead (left_of_item H.rules self.old.batch self.new.flow self.new.under_way
            item number) result heap.new host.new }
        ensures kept { (self.new.batch ≡ self.old.batch) × (self.new.flow ≡ self.old.flow) }
        ensures fewer { IsFewer result
            (steps_of_item H.most_flow_steps (H.flow_steps self.new.flow) self.new.under_way)
            (H.most_flow_steps + 2) }
    {
        match host.deliver(heap, self.batch, call) {
            Ok(callback) => {
                self.under_way = UnderWay::Ending;
                let opening = Opening::Call {
                    function: callback.function,
                    this: Value::Undefined,
                    argument: Some(callback.reply),
                };
                Step::Run {
                    item: number,
                    opening,
                }
            },
            Err(ReplyRefused::NotDue) => refused(number, BadReport::Due),
            Err(ReplyRefused::Stopped(stop)) => stopped(number, stop),
        }
    }
}

/// An item is not legal where it stands.
fn refused(item: u32, kind: BadReport) -> Step
    ensures { result ≡ Step.Over (Close.Refused item kind) }
{
    Step::Over(Close::Refused { item, kind })
}

/// An item has a fault, or would pass a limit.
fn stopped(item: u32, stop: Stop) -> Step
    ensures { result ≡ Step.Over (Close.Stopped item stop) }
{
    Step::Over(Close::Stopped { item, stop })
}
