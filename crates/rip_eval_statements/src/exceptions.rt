ghost use Rattle.std.specs.Prelude.{◌≡◌, []};
ghost use Rattle.rip_heap.specs.Growth.{Grows};
ghost use Rattle.rip_eval_language.specs.Does.{Does, DoesPurely, DoesAlways};
ghost use Rattle.rip_eval_language.specs.Rows.Exceptions.{catch_part, finally_end, finally_row, throw_row, try_row, throw_end};
ghost use Rattle.rip_eval_language.specs.Table.{own_rest};

use rip_base::{Refused, Value};
use rip_eval_language::answers::{ask, end, halt};
use rip_eval_language::{Source, value_of};
use rip_eval_rows::{Completion, Inner, Next, OwnWait, Part, Role, Stop};
use rip_heap::Heap;

// THROW

/// `throw` begins with its value (12.13).
pub fn begin_throw(p: &Source, at: &Part) -> Next
    ensures row { DoesPurely p.now at.now result (throw_row p.now at.now) }
{
    ask(p.part_at(at, 0), OwnWait::ThrowValue)
}

/// Behind its value that is thrown.
pub fn after_throw_value(c: &Completion) -> Next
    ensures row { DoesAlways result (throw_end c.now) }
{
    match value_of(c) {
        Some(v) => end(&Completion::Thrown(v)),
        None => end(c),
    }
}

// TRY

/// `try` begins with its block (12.14).
pub fn begin_try(p: &Source, at: &Part) -> Next
    ensures row { DoesPurely p.now at.now result (try_row p.now at.now) }
{
    ask(p.part_at(at, 0), OwnWait::TryBlock)
}

/// Behind the block comes `catch`, if the block threw and there is one, or else `finally`.
pub fn after_try_block(p: &Source, heap: &mut Heap, at: &Part, c: &Completion) -> Next
    ensures row { Does p.now at.now result heap.new
        (own_rest p.now at.now OwnWait.TryBlock [] c.now heap.old) }
    ensures grows { Grows heap.old heap.new }
{
    match c {
        Completion::Thrown(v) => caught(p, heap, at, *v),
        _ => finally(p, at, c),
    }
}

/// What was thrown is caught, where there is a clause that catches.
fn caught(p: &Source, heap: &mut Heap, at: &Part, v: Value) -> Next
    ensures row { Does p.now at.now result heap.new
        (own_rest p.now at.now OwnWait.TryBlock [] (Completion.Thrown v) heap.old) }
    ensures grows { Grows heap.old heap.new }
{
    let Some(clause) = p.child_at(at.node, 1) else {
        return finally(p, at, &Completion::Thrown(v));
    };
    match heap.new_scope(p.alloc(), Some(at.scope), 1) {
        Ok(scope) => {
            heap.set_binding(scope, 0, v);
            let wait = OwnWait::CatchBlock;
            ask(catch_part(p, at, clause, scope), wait)
        },
        Err(Refused::Limit(limit)) => halt(Stop::Limit(limit)),
        Err(Refused::Memory) => unreachable!(),
    }
}

/// The block of a clause that catches, in a scope of its own.
fn catch_part(p: &Source, at: &Part, clause: u32, scope: u32) -> Inner
    ensures { result ≡ catch_part p.now at.now clause scope }
{
    Inner {
        node: p.child(clause, 0),
        scope,
        this: at.this,
        role: Role::Value,
    }
}

/// `finally` runs last, where there is one, after a completion of what stands before it.
pub fn finally(p: &Source, at: &Part, before: &Completion) -> Next
    ensures row { DoesPurely p.now at.now result (finally_row p.now at.now before.now) }
{
    match p.child_at(at.node, 2) {
        Some(block) => {
            let wait = OwnWait::FinallyBlock { before: *before };
            ask(at.inner(block), wait)
        },
        None => end(before),
    }
}

/// Behind `finally` what came before it stands, unless `finally` itself ends otherwise.
pub fn after_finally_block(before: &Completion, c: &Completion) -> Next
    ensures row { DoesAlways result (finally_end before.now c.now) }
{
    match c {
        Completion::Normal(_) => end(before),
        _ => end(c),
    }
}
