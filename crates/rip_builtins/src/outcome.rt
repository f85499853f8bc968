ghost use Rattle.rip_heap.specs.Outcome.{Answers};
ghost use Rattle.rip_builtins.specs.Arguments.{value_or_fault};

use rip_base::{Fault, Value};
use rip_heap::{Abrupt, Heap};

// The answer of a call that gives a value or a fault.
pub fn value_done(heap: &Heap, answer: Result<Value, Fault>) -> Result<Value, Abrupt>
    ensures { Answers (value_or_fault heap.now answer) heap.now result heap.now }
{
    Ok(answer?)
}
