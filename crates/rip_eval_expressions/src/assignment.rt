ghost use Rattle.std.specs.Prelude.{[], IfOk, IsTrue, OnErr};
ghost use Rattle.rip_heap.specs.Growth.{Grows};
ghost use Rattle.rip_eval_language.specs.Does.{DoesPurely, DoesWithHost, GivesValue};
ghost use Rattle.rip_eval_language.specs.Reading.{part_at};
ghost use Rattle.rip_eval_rows.specs.Row.{Asks};
ghost use Rattle.rip_eval_language.specs.Rows.Expressions.{assign_row, compound_row, compound_value, numbers_of_step, read_target, step_row, stepped, target_found, writes};
ghost use Rattle.rip_eval_language.specs.Table.{own_rest, hosted_rest};

use crate::members::{read_value, target_of, write_value};
use rip_base::{Fault, NoMemory, Value};
use rip_eval_language::answers::{Answer, abrupt, ask, ask_hosted, end, give, halt, throw};
use rip_eval_language::{Source, numbers_of_step, target_found, value_of, write};
use rip_eval_rows::{Completion, HostedWait, Next, OwnWait, Part, Stop};
use rip_heap::{Class, Heap, Host, Reference};
use rip_ops::binary;

/// The value of a target, for which the host may be asked, or what the row does instead.
#[tactic(auto, using(rip_eval_rows::proofs::Settles::settled))]
fn read_target<H: Host>(
    p: &Source,
    heap: &mut Heap,
    host: &mut H,
    at: &Part,
    target: &Option<Reference>,
) -> Result<Result<Value, Next>, NoMemory>
    requires { H.fits host.old heap.old }
    ensures read { IfOk result (λ answer. GivesValue H.answers answer heap.new host.new
        (read_target p.now at.now target.now heap.old) host.old) }
    ensures memory { OnErr result (IsTrue H.may_want_memory) }
    ensures fits { H.fits host.new heap.new }
    ensures grows { Grows heap.old heap.new }
{
    match target {
        Some(member) => read_value(p.alloc(), heap, host, &member.base, member.key),
        None => match target_found(p, heap, at) {
            Some(v) => Ok(Ok(v)),
            None => Ok(Err(throw(p.alloc(), heap, Class::ThrownReferenceError))),
        },
    }
}

/// Writes a value to a target, for which the host may be asked, and gives another or the same.
#[tactic(auto, using(rip_eval_rows::proofs::Settles::settled))]
fn writes<H: Host>(
    p: &Source,
    heap: &mut Heap,
    host: &mut H,
    at: &Part,
    target: &Option<Reference>,
    v: &Value,
    given: &Value,
) -> Answer
    requires { H.fits host.old heap.old }
    ensures row { DoesWithHost H.answers p.now at.now result heap.new host.new
        (writes p.now at.now target.now v.now given.now heap.old) host.old }
    ensures memory { OnErr result (IsTrue H.may_want_memory) }
    ensures fits { H.fits host.new heap.new }
    ensures grows { Grows heap.old heap.new }
{
    match target {
        Some(member) => match write_value(p.alloc(), heap, host, &member.base, member.key, v)? {
            Ok(()) => Ok(give(*given)),
            Err(next) => Ok(next),
        },
        None => match write(heap, at.scope, p.scoping(p.child(at.node, 0)), *v) {
            Ok(()) => Ok(give(*given)),
            Err(class) => Ok(throw(p.alloc(), heap, class)),
        },
    }
}

/// An assignment begins with its target (11.13.1).
pub fn begin_assign(p: &Source, at: &Part) -> Next
    ensures row { DoesPurely p.now at.now result (assign_row p.now at.now) }
{
    ask(p.target_at(at, 0), OwnWait::AssignTarget)
}

/// Behind the target of an assignment comes its right side.
pub fn after_assign_target(p: &Source, at: &Part, c: &Completion) -> Next
    ensures row { DoesPurely p.now at.now result
        (own_rest p.now at.now OwnWait.AssignTarget [] c.now) }
{
    match target_of(c) {
        Ok(target) => ask_hosted(p.part_at(at, 1), HostedWait::AssignValue { target }),
        Err(other) => end(&other),
    }
}

/// Behind the right side of an assignment its value is written into the target.
#[tactic(auto, using(rip_eval_rows::proofs::Settles::settled))]
pub fn after_assign_value<H: Host>(
    p: &Source,
    heap: &mut Heap,
    host: &mut H,
    at: &Part,
    target: &Option<Reference>,
    c: &Completion,
) -> Answer
    requires { H.fits host.old heap.old }
    ensures row { DoesWithHost H.answers p.now at.now result heap.new host.new
        (hosted_rest p.now at.now (HostedWait.AssignValue target.now) [] c.now heap.old) host.old }
    ensures memory { OnErr result (IsTrue H.may_want_memory) }
    ensures fits { H.fits host.new heap.new }
    ensures grows { Grows heap.old heap.new }
{
    match value_of(c) {
        Some(v) => writes(p, heap, host, at, target, &v, &v),
        None => Ok(end(c)),
    }
}

/// A compound assignment begins with its target (11.13.2).
pub fn begin_compound(p: &Source, at: &Part) -> Next
    ensures row { DoesPurely p.now at.now result (compound_row p.now at.now) }
{
    ask_hosted(p.target_at(at, 0), HostedWait::CompoundTarget)
}

/// Behind the target of a compound assignment it is read, and then its right side is asked for.
#[tactic(auto, using(rip_eval_rows::proofs::Settles::settled))]
pub fn after_compound_target<H: Host>(
    p: &Source,
    heap: &mut Heap,
    host: &mut H,
    at: &Part,
    c: &Completion,
) -> Answer
    requires { H.fits host.old heap.old }
    ensures row { DoesWithHost H.answers p.now at.now result heap.new host.new
        (hosted_rest p.now at.now HostedWait.CompoundTarget [] c.now heap.old) host.old }
    ensures memory { OnErr result (IsTrue H.may_want_memory) }
    ensures fits { H.fits host.new heap.new }
    ensures grows { Grows heap.old heap.new }
{
    match target_of(c) {
        Ok(target) => match read_target(p, heap, host, at, &target)? {
            Ok(old) => Ok(compound_right(p, at, target, old)),
            Err(next) => Ok(next),
        },
        Err(other) => Ok(end(&other)),
    }
}

/// The right side, beside which the target and its value stand.
fn compound_right(p: &Source, at: &Part, target: Option<Reference>, old: Value) -> Next
    ensures row { DoesPurely p.now at.now result
        (λ w. Asks (part_at p.now at.now 1) w (compound_value p.now at.now target old)) }
{
    ask_hosted(p.part_at(at, 1), HostedWait::CompoundValue { target, old })
}

/// Behind the right side of a compound assignment the operator is applied and what it gives is written.
#[tactic(auto, using(rip_eval_rows::proofs::Settles::settled))]
pub fn after_compound_value<H: Host>(
    p: &Source,
    heap: &mut Heap,
    host: &mut H,
    at: &Part,
    target: &Option<Reference>,
    old: &Value,
    c: &Completion,
) -> Answer
    requires { H.fits host.old heap.old }
    ensures row { DoesWithHost H.answers p.now at.now result heap.new host.new
        (hosted_rest p.now at.now (HostedWait.CompoundValue target.now old.now) [] c.now heap.old)
        host.old }
    ensures memory { OnErr result (IsTrue H.may_want_memory) }
    ensures fits { H.fits host.new heap.new }
    ensures grows { Grows heap.old heap.new }
{
    match value_of(c) {
        Some(right) => match binary(p.alloc(), heap, p.operator(at.node), *old, right) {
            Ok(v) => writes(p, heap, host, at, target, &v, &v),
            Err(cause) => Ok(abrupt(p.alloc(), heap, cause)),
        },
        None => Ok(end(c)),
    }
}

/// `++` and `--` begin with their target (11.3, 11.4.4, 11.4.5).
pub fn begin_step(p: &Source, at: &Part) -> Next
    ensures row { DoesPurely p.now at.now result (step_row p.now at.now) }
{
    ask_hosted(p.target_at(at, 0), HostedWait::StepTarget)
}

/// Behind the target of `++` or `--` it is read, counted up or down, and written.
#[tactic(auto, using(rip_eval_rows::proofs::Settles::settled))]
pub fn after_step_target<H: Host>(
    p: &Source,
    heap: &mut Heap,
    host: &mut H,
    at: &Part,
    c: &Completion,
) -> Answer
    requires { H.fits host.old heap.old }
    ensures row { DoesWithHost H.answers p.now at.now result heap.new host.new
        (hosted_rest p.now at.now HostedWait.StepTarget [] c.now heap.old) host.old }
    ensures memory { OnErr result (IsTrue H.may_want_memory) }
    ensures fits { H.fits host.new heap.new }
    ensures grows { Grows heap.old heap.new }
{
    match target_of(c) {
        Ok(target) => match read_target(p, heap, host, at, &target)? {
            Ok(v) => stepped(p, heap, host, at, &target, v),
            Err(next) => Ok(next),
        },
        Err(other) => Ok(end(&other)),
    }
}

/// The value of the target, as a number, goes one up or down.
#[tactic(auto, using(rip_eval_rows::proofs::Settles::settled))]
fn stepped<H: Host>(
    p: &Source,
    heap: &mut Heap,
    host: &mut H,
    at: &Part,
    target: &Option<Reference>,
    v: Value,
) -> Answer
    requires { H.fits host.old heap.old }
    ensures row { DoesWithHost H.answers p.now at.now result heap.new host.new
        (stepped p.now at.now target.now v heap.old) host.old }
    ensures memory { OnErr result (IsTrue H.may_want_memory) }
    ensures fits { H.fits host.new heap.new }
    ensures grows { Grows heap.old heap.new }
{
    let (old, new) = match numbers_of_step(heap, p.step_operator(at.node), v) {
        Ok(numbers) => numbers,
        Err(fault) => return Ok(halt(Stop::Fault(fault))),
    };
    let given = if p.is_postfix(at.node) { old } else { new };
    writes(p, heap, host, at, target, &new, &given)
}
