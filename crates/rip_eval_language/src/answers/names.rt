ghost use Rattle.rip_eval_language.specs.Rows.Expressions.{abruptly, name_row};
ghost use Rattle.std.specs.Prelude.{◌≡◌, Ok, Err};
ghost use Rattle.rip_heap.specs.Growth.{Grows};
ghost use Rattle.rip_eval_language.specs.Does.{DoesAnywhere, Does};
ghost use Rattle.rip_eval_language.specs.Rows.Names.{found, throws};

use crate::answers::answers::{give, halt};
use crate::{Source, found};
use rip_base::{Limit, Refused, Value};
use rip_eval_rows::{Completion, Next, Part, Role, Stop};
use rip_heap::{Abrupt, Class, Heap};
use std::alloc::Global;

/// Throws a new error of this class.
pub fn throw(alloc: Global, heap: &mut Heap, class: Class) -> Next
    ensures row { DoesAnywhere result heap.new (throws class heap.old) }
    ensures grows { Grows heap.old heap.new }
{
    match heap.new_of(alloc, class) {
        Ok(error) => Next::End(Completion::Thrown(Value::Object(error))),
        Err(Refused::Limit(limit)) => halt(Stop::Limit(limit)),
        Err(Refused::Memory) => unreachable!(),
    }
}

/// What a row does where an operation has no value, though no memory was wanting.
pub fn abrupt(alloc: Global, heap: &mut Heap, cause: Abrupt) -> Next
    requires { cause ≡ Abrupt.Memory → ⊥ }
    ensures row { DoesAnywhere result heap.new (abruptly cause heap.old) }
    ensures grows { Grows heap.old heap.new }
{
    match cause {
        Abrupt::TypeError => throw(alloc, heap, Class::ThrownTypeError),
        Abrupt::Fault(fault) => halt(Stop::Fault(fault)),
        Abrupt::Limit(limit) => halt(Stop::Limit(limit)),
        Abrupt::Memory => unreachable!(),
    }
}

/// A name has the value that it is bound to; as a target it is not read (11.1.2).
pub fn begin_name(p: &Source, heap: &mut Heap, at: &Part) -> Next
    ensures row { Does p.now at.now result heap.new (name_row p.now at.now at.now.role heap.old) }
    ensures grows { Grows heap.old heap.new }
{
    match at.role {
        Role::Value | Role::Callee => match found(heap, at.scope, p.resolved(at.node)) {
            Some(v) => give(v),
            None => throw(p.alloc(), heap, Class::ThrownReferenceError),
        },
        Role::Target => give(Value::Undefined),
    }
}
