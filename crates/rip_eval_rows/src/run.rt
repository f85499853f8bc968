ghost use Rattle.std.specs.Prelude.{◌≡◌, ◌+◌, ◌<◌, ◌≤◌, ◌^◌, [], length, max, IfOk, OnErr, OnOk};
ghost use Rattle.rip_heap.specs.Growth.{Grows};
ghost use Rattle.rip_heap.specs.World.{World};
ghost use Rattle.rip_eval_rows.specs.Law.{Begins, Resumes, open_depth, outcome_of, stop_outcome, turned_of, values_of};
ghost use Rattle.rip_eval_rows.specs.Nesting.{IsInside};
ghost use Rattle.rip_eval_rows.specs.Rest.{as_row};
ghost use Rattle.rip_eval_rows.specs.Room.{WantsMemory};
ghost use Rattle.rip_eval_rows.specs.Row.{Table};
ghost use Rattle.rip_eval_rows.specs.Stack.{framed};

use crate::completion::{Completion, Stop};
use crate::frame::Frame;
use crate::next::{Control, Next};
use crate::outcome::{Outcome, Turned};
use crate::part::Part;
use crate::rows::Rows;
use crate::stack::Stack;
use crate::steps::{Ahead, keep_values, open, pushed, steps};
use rip_base::{Limit, NoMemory, Value};
use rip_heap::{Heap, Host};
use std::alloc::Global;
use std::marker::Model;

/// A run that stands, and can go on: of any table of rows, which is handed in where rows are run.
#[derive(Debug, Drop)]
pub struct Run {
    stack: Stack,
    control: Control,
    fuel: u64,
    spent: u64,
    depth: u32,
}

impl Model for Run {
    ghost use Rattle.rip_eval_rows.specs.Keeping.{IsRun};
    ghost use Rattle.rip_eval_rows.specs.Law.{Standing};

    ghost Value = { Standing };

    ghost view = { λ m. record {
      control = m.control;
      frames = m.stack.frames;
      fuel = m.fuel;
      spent = m.spent;
      depth = m.depth;
      value_room = m.stack.room;
    } };

    ghost invariant = { λ m. IsRun m.fuel m.spent m.depth m.stack.most m.stack.room m.control m.stack.frames };
}

impl Run {
    /// Nothing runs yet, and one value beside frames has room. Runs may nest so deep; a depth that 32 bits cannot count with one
    /// more is want of memory.
    pub fn make(alloc: Global, depth: u32) -> Result<Run, NoMemory>
        ensures { IfOk result (λ run. run ≡ record {
          control = Control.Give (Completion.Normal Value.Undefined);
          frames = [];
          fuel = 0;
          spent = 0;
          depth = depth;
          value_room = 1;
        }) }
    {
        if depth == u32::MAX {
            return Err(NoMemory);
        }
        let mut stack = Stack::make(alloc, depth + 1)?;
        stack.reserve(1)?;
        Ok(Run {
            stack,
            control: Control::Give(Completion::Normal(Value::Undefined)),
            fuel: 0,
            spent: 0,
            depth,
        })
    }

    /// Takes the room for so many values beside frames in all, where there is less.
    pub fn reserve(&mut self, values: u32) -> Result<(), NoMemory>
        ensures ok { OnOk result (self.new ≡ record self.old
            { value_room = max self.old.value_room values }) }
        ensures err { OnErr result (self.new ≡ self.old) }
    {
        let _ = &self.depth;
        self.stack.reserve(values)
    }

    /// How many values beside frames have room.
    pub fn value_room(&self) -> u32
        ensures { result ≡ self.now.value_room }
    {
        self.stack.room()
    }

    /// The greatest depth. The open frames are inside it, as each run keeps.
    pub fn greatest_depth(&self) -> u32
        ensures depth { result ≡ self.now.depth }
        ensures numbered { result + 1 < 2 ^ 32 }
        ensures nested { IsInside (self.now.depth + 1) self.now.control self.now.frames }
    {
        self.depth
    }

    /// How many nodes are entered and not ended, and how many functions are running. After a fault or a limit they are those
    /// that were open where the run ended.
    pub fn depth(&self) -> u32
        ensures open { result ≡ open_depth self.now }
        ensures within { result ≤ self.now.depth }
    {
        match &self.control {
            Control::Enter(part) => self.depth.saturating_sub(part.room),
            Control::Give(_) => match self.stack.top() {
                Some(frame) => (self.depth + 1).saturating_sub(frame.at.room),
                None => 0,
            },
            Control::Halted { room, .. } => self.depth.saturating_sub(*room),
        }
    }

    /// The units that were entered.
    pub fn spent(&self) -> u64
        ensures { result ≡ self.now.spent }
    {
        self.spent
    }

    /// The fuel that is left.
    pub fn fuel(&self) -> u64
        ensures { result ≡ self.now.fuel }
    {
        self.fuel
    }

    /// Stands at the beginning of a run with so much fuel: at what a part does next that has all the depth.
    pub fn begin(&mut self, at: &Part, next: &Next, fuel: u64)
        requires depth { at.now.room ≡ self.old.depth + 1 }
        ensures begins { (t : Table) (w : World)
            → Begins t (as_row t at.now next.now [] w) fuel w self.new }
        ensures nested { IsInside (self.new.depth + 1) self.new.control self.new.frames }
        ensures depth { self.new.depth ≡ self.old.depth }
        ensures values { (self.new.value_room ≡ self.old.value_room)
            × (values_of self.new ≤ fuel + 1) }
    {
        self.stack.clear();
        open(&mut self.stack, at, next, &mut self.control);
        self.fuel = fuel;
        self.spent = 0;
    }

    /// Stands where undefined is given to this frame, which is the only one and has all the depth, with these values beside
    /// it, which have room.
    pub fn begin_beside(&mut self, frame: &Frame, values: &[Value], fuel: u64)
        requires depth { frame.now.at.room ≡ self.old.depth + 1 }
        requires room { length values.now ≤ self.old.value_room }
        ensures begins { (t : Table) (w : World)
            → Begins t (t.rest (framed frame.now values.now) (Completion.Normal Value.Undefined) w)
            fuel w self.new }
        ensures nested { IsInside (self.new.depth + 1) self.new.control self.new.frames }
        ensures depth { self.new.depth ≡ self.old.depth }
        ensures values { (self.new.value_room ≡ self.old.value_room)
            × (values_of self.new ≤ length values.now + fuel + 1) }
    {
        self.control = Control::Give(Completion::Normal(Value::Undefined));
        self.stack.clear();
        pushed(&mut self.stack, frame);
        keep_values(&mut self.stack, frame, values);
        self.fuel = fuel;
        self.spent = 0;
    }

    /// Goes on for at most `n` units. Memory is wanting only where the host may want it, or where the values that may be beside
    /// frames have no room, which then is taken as they come.
    pub fn resume<R: Rows, H: Host>(
        &mut self,
        rows: &R,
        heap: &mut Heap,
        host: &mut H,
        n: u64,
    ) -> Turned
        requires { H.fits host.old heap.old }
        ensures fits { H.fits host.new heap.new }
        ensures depth { self.new.depth ≡ self.old.depth }
        ensures nested { IsInside (self.new.depth + 1) self.new.control self.new.frames }
        ensures value_room { self.old.value_room ≤ self.new.value_room }
        ensures memory { result ≡ Turned.Done Outcome.Memory → WantsMemory H.may_want_memory
            self.old.value_room (values_of self.old) }
        ensures values { values_of self.new ≤ values_of self.old }
        ensures counted { self.new.spent + self.new.fuel ≡ self.old.spent + self.old.fuel }
        ensures later { self.old.spent ≤ self.new.spent }
        ensures grows { Grows heap.old heap.new }
        ensures law { Resumes H.answers (R.table rows.now) self.old heap.old host.old n self.new
            heap.new host.new result }
    {
        let budget = n.min(self.fuel);
        let more = n < self.fuel;
        let mut ahead = Ahead {
            control: self.control,
            next: Next::End(Completion::Normal(Value::Undefined)),
            left: budget,
        };
        let ran = steps(rows, heap, host, &mut self.stack, &mut ahead);
        let used = budget - ahead.left;
        self.control = ahead.control;
        self.fuel -= used;
        self.spent += used;
        match ran {
            Ok(()) => turned_of(&self.control, more),
            Err(NoMemory) => Turned::Done(Outcome::Memory),
        }
    }
}

/// What is answered where the run stands so, and whether its fuel reaches further.
fn turned_of(control: &Control, more: bool) -> Turned
    ensures { result ≡ turned_of control.now more }
{
    match control {
        Control::Enter(_) => {
            if more {
                Turned::More
            } else {
                Turned::Done(Outcome::Limit(Limit::Fuel))
            }
        },
        Control::Give(c) => Turned::Done(outcome_of(*c)),
        Control::Halted { stop, .. } => Turned::Done(stop_outcome(*stop)),
    }
}

fn outcome_of(c: Completion) -> Outcome
    ensures { result ≡ outcome_of c }
{
    match c {
        Completion::Normal(v) => Outcome::Value(v),
        Completion::Thrown(v) => Outcome::Thrown(v),
        Completion::Returned(v) => Outcome::Value(v),
        _ => Outcome::Value(Value::Undefined),
    }
}

fn stop_outcome(stop: Stop) -> Outcome
    ensures { result ≡ stop_outcome stop }
{
    match stop {
        Stop::Fault(fault) => Outcome::Fault(fault),
        Stop::Limit(limit) => Outcome::Limit(limit),
    }
}
