ghost use Rattle.std.specs.Prelude.{◌≡◌, ℕ};
ghost use Rattle.rip_heap.specs.World.{World};
ghost use Rattle.rip_eval_rows.specs.Cut.{run_of};
ghost use Rattle.rip_eval_rows.specs.Row.{Row};
ghost use Rattle.rip_eval_rows.specs.Started.{Started};
ghost use Rattle.rip_machine.specs.Law.{Begins, left, loaded};
ghost use Rattle.rip_machine.specs.Run.{GoesWhole, RunsOn, StopsAtOnce};
ghost use Rattle.rip_eval_language.specs.Table.{table};
ghost use Rattle.rip_machine.specs.Turns.{LoopsAreTheirRows};

use crate::machine::Machine;
use rip_eval_rows::Part;
use rip_heap::{Heap, Host};
use rip_tree::Program;

/// A law, and no work: after [`Machine::start`], what is left of the run with any number of units is the whole run of the
/// row that it begins with these, for every host.
pub fn begun_is_whole<H: Host>(
    machine: &Machine,
    program: &Program,
    heap: &Heap,
    host: &H,
    fuel: u64,
)
    ensures { (row : Row) → Begins (table (loaded program.now machine.now)) row fuel heap.now
        machine.now → (k : ℕ) → left H.answers (table (loaded program.now machine.now)) machine.now
        heap.now host.now k ≡ run_of H.answers (table (loaded program.now machine.now))
        machine.now.depth row host.now fuel k }
{
    let _ = machine;
    let _ = program;
    let _ = heap;
    let _ = host;
    let _ = fuel;
}

/// A law, and no work: where a machine stands as [`Machine::start`] left it, what is left of its run with any number of
/// units is the run of that start with these, for every host.
pub fn started_runs_on<H: Host>(
    machine: &Machine,
    program: &Program,
    heap: &Heap,
    host: &H,
    fuel: u64,
)
    ensures { (start : Started) (w : World) (depth : ℕ)
        → RunsOn H.answers (loaded program.now machine.now) depth start w host.now fuel heap.now
        machine.now }
{
    let _ = machine;
    let _ = program;
    let _ = heap;
    let _ = host;
    let _ = fuel;
}

/// A law, and no work: where a machine stands as [`Machine::start`] left it, with so much fuel, [`Machine::resume`] for as many
/// units makes the whole run of that start, for every host; and a start that would pass a limit is a run that ends with that
/// limit before its first unit.
pub fn started_runs_whole<H: Host>(
    machine: &Machine,
    program: &Program,
    heap: &Heap,
    host: &H,
    fuel: u64,
)
    ensures goes { (start : Started) (w : World) (depth : ℕ)
        → GoesWhole H.answers (loaded program.now machine.now) depth start w host.now fuel heap.now
        machine.now }
    ensures stops { (start : Started) (w : World) (depth : ℕ)
        → StopsAtOnce H.answers (loaded program.now machine.now) depth start w host.now fuel }
{
    let _ = machine;
    let _ = program;
    let _ = heap;
    let _ = host;
    let _ = fuel;
}

/// A law, and no work: each loop runs as the row that the standard gives it, with the completions of its parts, in every
/// program, at every place and in every world.
pub fn loops_are_their_rows<H: Host>(
    machine: &Machine,
    program: &Program,
    heap: &Heap,
    host: &H,
    at: Part,
)
    ensures { LoopsAreTheirRows H.answers (loaded program.now machine.now) at heap.now host.now }
{
    let _ = machine;
    let _ = program;
    let _ = heap;
    let _ = host;
}
