ghost use Rattle.std.specs.Prelude.{◌≡◌, ◌+◌, ◌<◌, IfOk, OnErr};
ghost use Rattle.rip_heap.specs.Growth.{Grows};
ghost use Rattle.rip_host.specs.Visit.{Fits};
ghost use Rattle.rip_eval_rows.specs.Plan.{IsFewer, ahead};
ghost use Rattle.rip_replica.specs.Items.{fine};
ghost use Rattle.rip_browser.specs.Events.{left_of, steps_of};
ghost use Rattle.rip_browser.specs.Opening.{left_of_opening, left_of_scripts, listener_step, load_at, loading, most_of_opening, opening_plan, steps_of_opening};

use crate::flow::Flow;
use crate::flowing::next_call;
use rip_base::{Limit, NoMemory, Refused, Value};
use rip_eval_rows::{Close, Opening, Step, Stop};
use rip_heap::Heap;
use rip_host::Browser;
use rip_replica::items::{FlowCall, Items};
use rip_values::FixedText;
use std::alloc::Global;

/// The one item of the batch with which a session opens.
#[derive(Clone, Copy, Debug, PartialEq, Eq, Drop)]
pub enum Start {
    /// A charge of the page or of its program would pass this limit.
    Passes(Limit),
    /// They were made, and the page has so many scripts.
    Loads { scripts: u32 },
}

/// Where the opening stands.
#[derive(Clone, Copy, Debug, PartialEq, Eq)]
pub enum StartStage {
    /// Before a script, or before `load`.
    Scripts,
    /// Within the flow of `load`.
    Flowing,
    /// At its end, which is fine.
    Ending,
}

/// The opening of a session, step by step.
#[derive(Drop)]
pub struct StartItems {
    pub flow: Flow,
    /// How many scripts were begun.
    pub begun: u32,
    pub stage: StartStage,
}

impl StartItems {
    /// Before the first step, where a flow has this room.
    pub fn new(flow: Flow) -> StartItems
        ensures flow { result.flow ≡ flow }
        ensures begun { result.begun ≡ 0 }
        ensures stage { result.stage ≡ StartStage.Scripts }
    {
        StartItems {
            flow,
            begun: 0,
            stage: StartStage::Scripts,
        }
    }

    /// The next script, or the first step of `load`.
    fn script_step(
        &mut self,
        alloc: Global,
        scripts: u32,
        number: u32,
        heap: &mut Heap,
        browser: &mut Browser,
    ) -> Result<Step, NoMemory>
        requires fits { Fits browser.old heap.old }
        requires stage { self.old.stage ≡ StartStage.Scripts }
        ensures fits { Fits browser.new heap.new }
        ensures grows { Grows heap.old heap.new }
        ensures plan { IfOk result
            (λ step. left_of_scripts (Start.Loads scripts) self.old.begun number heap.old
            browser.old
            ≡ ahead (left_of_opening self.new.stage self.new.begun self.new.flow
            (Start.Loads scripts) number) step heap.new browser.new) }
        ensures fewer { IfOk result
            (λ step. IsFewer step (steps_of_opening self.new.stage self.new.begun self.new.flow)
            (steps_of_opening StartStage.Scripts self.old.begun self.old.flow)) }
        ensures memory { OnErr result
            ((self.new.stage ≡ self.old.stage) × (self.new.begun ≡ self.old.begun)
            × (heap.new ≡ heap.old) × (browser.new ≡ browser.old)) }
        ensures lack { OnErr result (self.old.flow.nodes < browser.old.dom.limit) }
        ensures room { self.new.flow.nodes ≡ self.old.flow.nodes }
    {
        if self.begun < scripts {
            self.begun += 1;
            let opening = Opening::Script(self.begun);
            return Ok(Step::Run {
                item: number,
                opening,
            });
        }
        self.load_step(alloc, number, heap, browser)
    }

    /// Begins the flow of `load`.
    fn load_step(
        &mut self,
        alloc: Global,
        number: u32,
        heap: &mut Heap,
        browser: &mut Browser,
    ) -> Result<Step, NoMemory>
        requires fits { Fits browser.old heap.old }
        requires stage { self.old.stage ≡ StartStage.Scripts }
        ensures fits { Fits browser.new heap.new }
        ensures grows { Grows heap.old heap.new }
        ensures plan { IfOk result
            (λ step. (start : Start) → loading number fine heap.old browser.old
            ≡ ahead (left_of_opening self.new.stage self.new.begun self.new.flow start number) step
            heap.new browser.new) }
        ensures begun { self.new.begun ≡ self.old.begun }
        ensures fewer { IfOk result
            (λ step. IsFewer step (steps_of_opening self.new.stage self.new.begun self.new.flow)
            (steps_of_opening StartStage.Scripts self.old.begun self.old.flow)) }
        ensures memory { OnErr result
            ((self.new.stage ≡ self.old.stage) × (heap.new ≡ heap.old)
            × (browser.new ≡ browser.old)) }
        ensures lack { OnErr result (self.old.flow.nodes < browser.old.dom.limit) }
        ensures room { self.new.flow.nodes ≡ self.old.flow.nodes }
    {
        let body = match browser.body {
            Some(body) => body,
            None => {
                self.stage = StartStage::Ending;
                return Ok(Step::Over(Close::Fine));
            }
        };
        match self.flow.begin_load(alloc, heap, browser, body) {
            Ok(()) => {
                self.stage = StartStage::Flowing;
                Ok(self.flow_step(number, heap, browser))
            }
            Err(Refused::Limit(limit)) => {
                let stop = Stop::Limit(limit);
                Ok(Step::Over(Close::Stopped { item: number, stop }))
            }
            Err(Refused::Memory) => Err(NoMemory),
        }
    }

    /// What is called next in the flow of `load`.
    fn flow_step(&mut self, number: u32, heap: &mut Heap, browser: &mut Browser) -> Step
        requires fits { Fits browser.old heap.old }
        requires stage { self.old.stage ≡ StartStage.Flowing }
        ensures fits { Fits browser.new heap.new }
        ensures grows { Grows heap.old heap.new }
        ensures plan { (start : Start) → left_of self.old.flow number fine heap.old browser.old
            ≡ ahead (left_of_opening self.new.stage self.new.begun self.new.flow start number)
            result heap.new browser.new }
        ensures begun { self.new.begun ≡ self.old.begun }
        ensures fewer { IsFewer result
            (steps_of_opening self.new.stage self.new.begun self.new.flow)
            (steps_of self.old.flow + 1) }
        ensures room { self.new.flow.nodes ≡ self.old.flow.nodes }
    {
        match next_call(browser, heap, &mut self.flow) {
            None => {
                self.stage = StartStage::Ending;
                Step::Over(Close::Fine)
            }
            Some(call) => listener_step(number, &call),
        }
    }
}

/// The call of a listener.
fn listener_step(item: u32, call: &FlowCall) -> Step
    ensures { result ≡ listener_step item call.now }
{
    let opening = Opening::Call {
        function: call.function,
        this: Value::Object(call.node),
        argument: Some(Value::Object(call.event)),
    };
    Step::Run { item, opening }
}

impl Items<Browser, Start> for StartItems {
    ghost use Rattle.rip_browser.specs.Opening.{left_of_opening, most_of_opening, opening_plan, steps_of_opening};

    ghost item_plan = { λ items. opening_plan };

    ghost under_way = { λ items. left_of_opening items.stage items.begun items.flow };

    ghost steps = { λ items. steps_of_opening items.stage items.begun items.flow };

    ghost most = { λ _. most_of_opening };

    ghost room = { λ items. items.flow.nodes };

    ghost need = { λ browser. browser.dom.limit };

    fn begin(&mut self) {
        self.begun = 0;
        self.stage = StartStage::Scripts;
    }

    fn next_of(
        &mut self,
        alloc: Global,
        item: &Start,
        number: u32,
        heap: &mut Heap,
        host: &mut Browser,
    ) -> Result<Step, NoMemory> {
        match self.stage {
            StartStage::Scripts => match item {
                Start::Passes(limit) => {
                    let stop = Stop::Limit(*limit);
                    Ok(Step::Over(Close::Stopped { item: number, stop }))
                }
                Start::Loads { scripts } => {
                    self.script_step(alloc, *scripts, number, heap, host)
                }
            },
            StartStage::Flowing => Ok(self.flow_step(number, heap, host)),
            StartStage::Ending => Ok(Step::Over(Close::Fine)),
        }
    }
}
