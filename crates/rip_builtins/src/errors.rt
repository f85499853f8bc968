ghost use Rattle.rip_heap.specs.Growth.{Grows};
ghost use Rattle.rip_heap.specs.Outcome.{Answers};
ghost use Rattle.rip_builtins.specs.Errors.{error_call};
ghost use Rattle.rip_heap.specs.Objects.{new_of};
ghost use Rattle.rip_builtins.specs.Arguments.{object_or_limit};

use crate::arguments::argument;
use rip_base::Value;
use rip_heap::{Abrupt, Class, Heap};
use std::alloc::Global;

// `Error`, `TypeError` and `RangeError` (ECMA-262 15.11.1.1).
pub fn error(alloc: Global, heap: &mut Heap, class: Class, args: &[Value]) -> Result<Value, Abrupt>
    ensures answers { Answers (error_call class heap.old args.now) heap.old result heap.new }
    ensures grows { Grows heap.old heap.new }
{
    match argument(args, 0) {
        Value::Undefined => bare_error(alloc, heap, class),
        message => heap.new_error(alloc, class, message),
    }
}

fn bare_error(alloc: Global, heap: &mut Heap, class: Class) -> Result<Value, Abrupt>
    ensures answers { Answers (object_or_limit (new_of heap.old class)) heap.old result
        heap.new }
    ensures grows { Grows heap.old heap.new }
{
    let error = heap.new_of(alloc, class)?;
    Ok(Value::Object(error))
}
