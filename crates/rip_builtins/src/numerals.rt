ghost use Rattle.rip_base.specs.declared.value.Value.TheVariants.{Num};
ghost use Rattle.rip_heap.specs.Conversions.{text_of_value};
ghost use Rattle.rip_heap.specs.Growth.{Grows};
ghost use Rattle.rip_heap.specs.Outcome.{Answers, after_text};
ghost use Rattle.rip_builtins.specs.Arguments.{value_or_fault};

use rip_base::{Fault, Value, Whole};
use rip_heap::{Abrupt, Heap, room_for_numeral, to_text};
use std::alloc::Global;

// The answer of a call behind the conversion of a number to text, which is charged where there is a value.
pub fn behind_numeral(
    alloc: Global,
    heap: &mut Heap,
    number: Whole,
    answer: Result<Value, Fault>,
) -> Result<Value, Abrupt>
    ensures answers { Answers
        (after_text (text_of_value heap.old (Num number)) (λ text w. value_or_fault w answer))
        heap.old result heap.new }
    ensures grows { Grows heap.old heap.new }
{
    match answer {
        Ok(v) => {
            to_text(alloc, heap, Value::Num(number))?;
            Ok(v)
        }
        Err(fault) => {
            room_for_numeral(heap, number)?;
            Err(Abrupt::Fault(fault))
        }
    }
}
