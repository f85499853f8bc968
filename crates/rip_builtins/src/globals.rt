ghost use Rattle.rip_heap.specs.Growth.{Grows};
ghost use Rattle.rip_heap.specs.Outcome.{Answers};
ghost use Rattle.rip_builtins.specs.Globals.{string_call};

use rip_base::Value;
use rip_heap::{Abrupt, Heap, to_text};
use rip_values::FixedText;
use std::alloc::Global;

// `String` (ECMA-262 15.5.1.1).
pub fn string(alloc: Global, heap: &mut Heap, args: &[Value]) -> Result<Value, Abrupt>
    ensures answers { Answers (string_call heap.old args.now) heap.old result heap.new }
    ensures grows { Grows heap.old heap.new }
{
    match args {
        [] => Ok(Value::Text(FixedText::Empty.span())),
        [v, ..] => {
            let text = to_text(alloc, heap, *v)?;
            Ok(Value::Text(text))
        }
    }
}
