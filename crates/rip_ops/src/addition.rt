ghost use Rattle.std.specs.Prelude.{◌≡◌, ◌++◌, length};
ghost use Rattle.std.specs.Fmt.{signed_decimal};
ghost use Rattle.rip_values.specs.Pool.{joined};
ghost use Rattle.rip_base.specs.declared.value.Value.TheVariants.{Num, Text};
ghost use Rattle.rip_heap.specs.Growth.{Grows};
ghost use Rattle.rip_ops.specs.Addition.{added, joining, room_for};
ghost use Rattle.rip_ops.specs.Numbers.{of_numbers};
ghost use Rattle.rip_heap.specs.Outcome.{Answers, judged};
ghost use Rattle.rip_ops.specs.Arithmetic.{sum};

use crate::arithmetic::sum;
use crate::numbers::numbers_of;
use crate::order::either_is_object;
use rip_base::{Fault, Limit, Numeral, Span, Value, Whole, text_of_whole};
use rip_heap::{Abrupt, Halt, Heap, number_done, room_for_text, to_text};
use std::alloc::Global;

/// `+` (ECMA-262 11.6.1).
pub fn added(alloc: Global, heap: &mut Heap, a: Value, b: Value) -> Result<Value, Abrupt>
    ensures answers { Answers (added heap.old a b) heap.old result heap.new }
    ensures grows { Grows heap.old heap.new }
{
    if either_is_object(&a, &b) {
        return Err(Abrupt::Fault(Fault::ObjectToPrimitive));
    }
    match a {
        Value::Text(x) => text_and(alloc, heap, x, b),
        _ => match b {
            Value::Text(y) => and_text(alloc, heap, a, y),
            _ => number_done(heap, sum_of(heap, a, b)),
        },
    }
}

fn sum_of(heap: &Heap, a: Value, b: Value) -> Result<Numeral, Fault>
    ensures { result ≡ of_numbers heap.now.pool sum a b }
{
    let (x, y) = numbers_of(heap, a, b)?;
    sum(x, y)
}

fn text_and(alloc: Global, heap: &mut Heap, x: Span, b: Value) -> Result<Value, Abrupt>
    ensures answers { Answers (joining heap.old (Text x) b) heap.old result heap.new }
    ensures grows { Grows heap.old heap.new }
{
    match b {
        Value::Num(number) => text_and_numeral(alloc, heap, x, number),
        _ => {
            let y = to_text(alloc, heap, b)?;
            join(alloc, heap, x, y)
        }
    }
}

fn and_text(alloc: Global, heap: &mut Heap, a: Value, y: Span) -> Result<Value, Abrupt>
    ensures answers { Answers (joining heap.old a (Text y)) heap.old result heap.new }
    ensures grows { Grows heap.old heap.new }
{
    match a {
        Value::Num(number) => numeral_and_text(alloc, heap, number, y),
        _ => {
            let x = to_text(alloc, heap, a)?;
            join(alloc, heap, x, y)
        }
    }
}

// The two texts joined to a new one.
fn join(alloc: Global, heap: &mut Heap, x: Span, y: Span) -> Result<Value, Abrupt>
    ensures answers { Answers (judged heap.old (joined heap.old.pool x y)) heap.old result
        heap.new }
    ensures grows { Grows heap.old heap.new }
{
    let pool = heap.pool();
    let length = pool.get(x).len() + pool.get(y).len();
    if length > pool.text_limit() as usize {
        return Err(Abrupt::Fault(Fault::TextTooLong));
    }
    let span = heap.concat(alloc, x, y)?;
    Ok(Value::Text(span))
}

// A text with a number behind it. Nothing is made before all is judged.
fn text_and_numeral(alloc: Global, heap: &mut Heap, x: Span, number: Whole) -> Result<Value, Abrupt>
    ensures answers { Answers (joining heap.old (Text x) (Num number)) heap.old result heap.new }
    ensures grows { Grows heap.old heap.new }
{
    let text = heap.pool().held(x);
    room_for(heap, number, text.count)?;
    let numeral = to_text(alloc, heap, Value::Num(number))?;
    let span = heap.concat(alloc, text, numeral)?;
    Ok(Value::Text(span))
}

// A number with a text behind it.
fn numeral_and_text(alloc: Global, heap: &mut Heap, number: Whole, y: Span) -> Result<Value, Abrupt>
    ensures answers { Answers (joining heap.old (Num number) (Text y)) heap.old result heap.new }
    ensures grows { Grows heap.old heap.new }
{
    let text = heap.pool().held(y);
    room_for(heap, number, text.count)?;
    let numeral = to_text(alloc, heap, Value::Num(number))?;
    let span = heap.concat(alloc, numeral, text)?;
    Ok(Value::Text(span))
}

// Whether the number's numeral, and then it and a text of so many units joined, can be made.
fn room_for(heap: &Heap, number: Whole, text: u32) -> Result<(), Halt>
    ensures { result ≡ room_for heap.now (length (signed_decimal number)) text }
{
    let mut room = [0; 17];
    let numeral = text_of_whole(number, &mut room);
    room_for_text(heap, numeral)?;
    let joined = u64::from(text) + numeral as u64;
    if joined > u64::from(heap.pool().text_limit()) {
        return Err(Halt::Fault(Fault::TextTooLong));
    }
    if joined > u64::from(heap.pool().free()) - numeral as u64 {
        return Err(Halt::Limit(Limit::Units));
    }
    Ok(())
}
