ghost use Rattle.std.specs.Prelude.{◌≡◌, ◌+◌, ◌<◌, ◌≤◌, ◌^◌, length, List, None, Ok, Some, OnOk};
ghost use Rattle.rip_base.specs.declared.value.Value.{Value as ScriptValue};
ghost use Rattle.rip_heap.specs.Growth.{Grows};
ghost use Rattle.rip_heap.specs.Step.{TakesNoMemory};
ghost use Rattle.rip_heap.specs.World.{charging};
ghost use Rattle.rip_tree.specs.Program.{root_of};
ghost use Rattle.rip_eval_rows.specs.Law.{values_of};
ghost use Rattle.rip_eval_rows.specs.Nesting.{IsInside};
ghost use Rattle.rip_machine.specs.Law.{StartsRun};
ghost use Rattle.rip_eval_language.specs.Reading.{Loaded};
ghost use Rattle.rip_eval_language.specs.Rows.Calls.{callable};
ghost use Rattle.rip_eval_language.specs.Rows.Scripts.{script_entered};
ghost use Rattle.rip_machine.specs.Starting.{arguments_in, begun, builtin_begun, call_begun, outside, script_begun, started_of};
ghost use Rattle.rip_eval_language.specs.Table.{table};

use crate::outcome::Start;
use rip_base::{Limit, Refused, Value};
use rip_eval_language::answers::throw;
use rip_eval_language::{Invocable, Source};
use rip_eval_rows::{Ending, Frame, HostedWait, Part, Role, Run, Wait};
use rip_eval_statements::{
    call_statements, callable, enter_function, enter_script, running, script_part, statements,
};
use rip_heap::{Class, Heap};
use rip_values::Builtin;
use std::alloc::Global;

/// Begins a run of a script or of a function.
pub(crate) fn start_run(
    run: &mut Run,
    p: &Source,
    heap: &mut Heap,
    s: &Start<'_>,
    fuel: u64,
) -> Result<(), Refused>
    ensures starts { StartsRun (table p.now) (begun p.now run.old.depth s.now heap.old) fuel
        heap.old heap.new run.old run.new result }
    ensures memory { arguments_in (started_of s.now) ≤ run.old.value_room → TakesNoMemory result }
    ensures values { OnOk result (values_of run.new ≤ arguments_in (started_of s.now) + fuel + 1) }
    ensures depth { run.new.depth ≡ run.old.depth }
    ensures value_room { run.new.value_room ≡ run.old.value_room }
    ensures nested { IsInside (run.new.depth + 1) run.new.control run.new.frames }
    ensures grows { Grows heap.old heap.new }
{
    match s {
        Start::Script(script) => start_script(run, p, heap, *script, fuel),
        Start::Function {
            function,
            this,
            args,
        } => start_function(run, p, heap, *function, this, args, fuel),
    }
}

/// Begins the run of a script, at its first statement.
fn start_script(
    run: &mut Run,
    p: &Source,
    heap: &mut Heap,
    script: u32,
    fuel: u64,
) -> Result<(), Refused>
    ensures starts { StartsRun (table p.now) (script_begun p.now run.old.depth
        (root_of p.now.code.grove script) (script_entered p.now script heap.old)) fuel heap.old
        heap.new run.old run.new result }
    ensures memory { TakesNoMemory result }
    ensures values { OnOk result (values_of run.new ≤ fuel + 1) }
    ensures depth { run.new.depth ≡ run.old.depth }
    ensures value_room { run.new.value_room ≡ run.old.value_room }
    ensures nested { IsInside (run.new.depth + 1) run.new.control run.new.frames }
    ensures grows { Grows heap.old heap.new }
{
    let depth = run.greatest_depth();
    let at = script_part(p.root(script), depth);
    let first = statements(p, &at, Ending::Script, 0).next(&at);
    if !enter_script(p, heap, script) {
        return Err(Refused::Limit(Limit::Cells));
    }
    run.begin(&at, &first, fuel);
    Ok(())
}

/// Begins the call of an object, as it is called from outside a script.
fn start_function(
    run: &mut Run,
    p: &Source,
    heap: &mut Heap,
    function: u32,
    this: &Value,
    args: &[Value],
    fuel: u64,
) -> Result<(), Refused>
    ensures starts { StartsRun (table p.now) (call_begun p.now run.old.depth this.now args.now
        (callable heap.old (Value.Object function)) heap.old) fuel heap.old heap.new run.old run.new
        result }
    ensures memory { length args.now ≤ run.old.value_room → TakesNoMemory result }
    ensures values { OnOk result (values_of run.new ≤ length args.now + fuel + 1) }
    ensures depth { run.new.depth ≡ run.old.depth }
    ensures value_room { run.new.value_room ≡ run.old.value_room }
    ensures nested { IsInside (run.new.depth + 1) run.new.control run.new.frames }
    ensures grows { Grows heap.old heap.new }
{
    match callable(heap, &Value::Object(function)) {
        Invocable::OfScript(f, scope) => { start_call(run, p, heap, (f, scope), this, args, fuel) },
        Invocable::OfBuiltin(b) => start_builtin(run, heap, b, this, args, fuel),
        Invocable::NotCallable => {
            start_throw(run, p.alloc(), heap, this, fuel);
            Ok(())
        },
    }
}

/// The place outside all code where a function is called.
fn outside(depth: u32, this: &Value) -> Part
    requires { depth + 1 < 2 ^ 32 }
    ensures { result ≡ outside depth this.now }
{
    Part {
        node: 0,
        scope: 0,
        this: *this,
        room: depth + 1,
        role: Role::Value,
    }
}

/// Begins the call of a function of the script, at its first statement.
fn start_call(
    run: &mut Run,
    p: &Source,
    heap: &mut Heap,
    function: (u32, u32),
    this: &Value,
    args: &[Value],
    fuel: u64,
) -> Result<(), Refused>
    ensures starts { StartsRun (table p.now) (call_begun p.now run.old.depth this.now args.now
        (Invocable.OfScript function.0 function.1) heap.old) fuel heap.old heap.new run.old run.new
        result }
    ensures memory { TakesNoMemory result }
    ensures values { OnOk result (values_of run.new ≤ fuel + 1) }
    ensures depth { run.new.depth ≡ run.old.depth }
    ensures value_room { run.new.value_room ≡ run.old.value_room }
    ensures nested { IsInside (run.new.depth + 1) run.new.control run.new.frames }
    ensures grows { Grows heap.old heap.new }
{
    let depth = run.greatest_depth();
    if depth == 0 {
        return Err(Refused::Limit(Limit::Depth));
    }
    let (f, scope) = function;
    let at = outside(depth, this);
    let first = call_statements(p, &at, &running(f, heap.scopes(), this), Ending::Call);
    match enter_function(p, heap, f, scope, args) {
        Some(_) => {
            run.begin(&at, &first, fuel);
            Ok(())
        },
        None => Err(Refused::Limit(Limit::Cells)),
    }
}

/// Charges the arguments of a built-in function, and stands where it is called from outside.
fn start_builtin(
    run: &mut Run,
    heap: &mut Heap,
    b: Builtin,
    this: &Value,
    args: &[Value],
    fuel: u64,
) -> Result<(), Refused>
    ensures starts { (p : Loaded) → StartsRun (table p)
        (builtin_begun p run.old.depth b this.now args.now
        (charging (length args.now) heap.old (λ x. x))) fuel heap.old heap.new run.old run.new
        result }
    ensures memory { length args.now ≤ run.old.value_room → TakesNoMemory result }
    ensures values { OnOk result (values_of run.new ≤ length args.now + fuel + 1) }
    ensures depth { run.new.depth ≡ run.old.depth }
    ensures value_room { run.new.value_room ≡ run.old.value_room }
    ensures nested { IsInside (run.new.depth + 1) run.new.control run.new.frames }
    ensures grows { Grows heap.old heap.new }
{
    let depth = run.greatest_depth();
    if args.len() > heap.free_cells() as usize {
        return Err(Refused::Limit(Limit::Cells));
    }
    if args.len() > run.value_room() as usize {
        return Err(Refused::Memory);
    }
    heap.charge(args.len() as u32)?;
    let frame = Frame {
        at: outside(depth, this),
        wait: Wait::Hosted(HostedWait::Called {
            function: b,
            this: *this,
        }),
    };
    run.begin_beside(&frame, args, fuel);
    Ok(())
}

/// Stands where a TypeError was thrown, since what is called is no function.
fn start_throw(run: &mut Run, alloc: Global, heap: &mut Heap, this: &Value, fuel: u64)
    ensures starts { (p : Loaded) (args : List ScriptValue) → StartsRun (table p)
        (call_begun p run.old.depth this.now args Invocable.NotCallable heap.old) fuel heap.old
        heap.new run.old run.new (Ok tt) }
    ensures values { values_of run.new ≤ fuel + 1 }
    ensures depth { run.new.depth ≡ run.old.depth }
    ensures value_room { run.new.value_room ≡ run.old.value_room }
    ensures nested { IsInside (run.new.depth + 1) run.new.control run.new.frames }
    ensures grows { Grows heap.old heap.new }
{
    let depth = run.greatest_depth();
    let thrown = throw(alloc, heap, Class::ThrownTypeError);
    run.begin(&outside(depth, this), &thrown, fuel);
}
