ghost use Rattle.std.specs.Prelude.{◌≡◌, IfOk, IfErr};
ghost use Rattle.rip_script.specs.Evaluation.{IsEvaluated, machine_at_first, outcome_of, world_at_first};
ghost use Rattle.rip_script.specs.Steps.{BeginsRun, IsOver};

use crate::words::RunLimits;
use rip_base::{Fault, Limit, NoMemory, Refused, Value};
use rip_heap::{EmptyHost, Heap, HeapLimits};
use rip_machine::{Machine, Outcome, Start, Turned};
use rip_tree::Program;
use std::alloc::Global;

/// The longest text that a run may make, in units.
const TEXT_LIMIT: u32 = 65_535;

/// How a run of a script ended. One that memory was wanting for has no end.
#[derive(Clone, Copy, Debug)]
pub enum End {
    /// The value of the script.
    Value(Value),
    /// What was thrown.
    Thrown(Value),
    Fault(Fault),
    Limit(Limit),
}

/// What a run of a script came to.
#[derive(Debug, Drop)]
pub struct Ended {
    pub end: End,
    /// The fuel that it took.
    pub spent: u64,
    /// The heap at its end.
    pub heap: Heap,
}

/// Runs the only script of a program, with nothing behind the objects of the host. A run that memory is wanting for comes to
/// nothing.
pub fn evaluate(alloc: Global, program: &Program, limits: RunLimits) -> Result<Ended, NoMemory>
    ensures { IfOk result (IsEvaluated limits program.now) }
{
    let mut heap = Heap::make(
        alloc,
        HeapLimits {
            cells: limits.cells,
            units: limits.units,
            text: TEXT_LIMIT,
        },
    )?;
    let mut machine = Machine::make(alloc, limits.depth)?;
    let script = Start::Script(1);
    match begin(alloc, program, &mut heap, &mut machine, &script, limits) {
        Ok(()) => {
            let fuel = u64::from(limits.fuel);
            let turned = machine.resume(alloc, program, &mut heap, &mut EmptyHost, fuel);
            let end = end_of(turned)?;
            Ok(Ended {
                end,
                spent: machine.spent(),
                heap,
            })
        }
        Err(Refused::Limit(limit)) => Ok(Ended {
            end: End::Limit(limit),
            spent: 0,
            heap,
        }),
        Err(Refused::Memory) => Err(NoMemory),
    }
}

/// Makes the top scope, loads the program and stands at the beginning of its script.
fn begin(
    alloc: Global,
    program: &Program,
    heap: &mut Heap,
    machine: &mut Machine,
    script: &Start<'_>,
    limits: RunLimits,
) -> Result<(), Refused>
    requires script { script.now ≡ Start.Script 1 }
    requires heap { heap.old ≡ world_at_first limits }
    requires machine { machine.old ≡ machine_at_first limits }
    ensures { BeginsRun limits program.now result heap.new machine.new }
{
    heap.new_scope(alloc, None, program.top_names())?;
    let fuel = u64::from(limits.fuel);
    machine.load(alloc, program, heap)?;
    machine.start(alloc, program, heap, script, fuel)
}

/// How a run ended that had all its fuel, or want of memory.
pub fn end_of(turned: Turned) -> Result<End, NoMemory>
    requires { IsOver turned }
    ensures end { IfOk result (λ end. turned ≡ Turned.Done (outcome_of end)) }
    ensures memory { IfErr result (λ _. turned ≡ Turned.Done Outcome.Memory) }
{
    match turned {
        Turned::Done(Outcome::Value(v)) => Ok(End::Value(v)),
        Turned::Done(Outcome::Thrown(v)) => Ok(End::Thrown(v)),
        Turned::Done(Outcome::Fault(fault)) => Ok(End::Fault(fault)),
        Turned::Done(Outcome::Limit(limit)) => Ok(End::Limit(limit)),
        Turned::Done(Outcome::Memory) => Err(NoMemory),
        Turned::More => unreachable!(),
    }
}
