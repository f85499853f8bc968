ghost use Rattle.std.specs.Prelude.{◌≡◌, length};
ghost use Rattle.std.specs.Fmt.{signed_decimal};
ghost use Rattle.rip_base.specs.Whole.{IsWhole};
ghost use Rattle.rip_heap.specs.Growth.{Grows};
ghost use Rattle.rip_heap.specs.Conversions.{boolean_of, number_of, IsSpelled, integer_of, uint32_of, int32_of, text_of_value, room_for_text, strictly_equal, span_of};

use crate::heap::Heap;
use crate::outcome::Halt;
use rip_base::{Fault, Limit, Numeral, Span, Value, Whole, number_of_text, text_of_whole};
use rip_heap_region::chains::same_text;
use rip_values::FixedText;
use std::alloc::Global;

/// ToBoolean (ECMA-262 9.2).
pub fn to_boolean(heap: &Heap, v: Value) -> bool
    ensures { result ≡ boolean_of heap.now.pool v }
{
    match v {
        Value::Undefined | Value::NaN | Value::Null => false,
        Value::Bool(b) => b,
        Value::Num(number) => number.get() != 0,
        Value::Text(span) => !heap.pool().get(span).is_empty(),
        Value::Object(_) => true,
    }
}

/// ToNumber (ECMA-262 9.3).
#[tactic(auto, using(crate::proofs::ConversionLemmas::number_of_text_one))]
pub fn to_number(heap: &Heap, v: Value) -> Result<Numeral, Fault>
    ensures number { result ≡ number_of heap.now.pool v }
    ensures spelled { IsSpelled heap.now.pool v result }
{
    match v {
        Value::Undefined | Value::NaN => Ok(Numeral::NaN),
        Value::Null => Ok(whole(0)),
        Value::Bool(b) => Ok(whole(i64::from(b))),
        Value::Num(number) => Ok(Numeral::Num(number)),
        Value::Text(span) => number_of_text(heap.pool().get(span)),
        Value::Object(_) => Err(Fault::ObjectToPrimitive),
    }
}

/// ToInteger (ECMA-262 9.4).
pub fn to_integer(n: Numeral) -> i64
    ensures { result ≡ integer_of n }
{
    match n {
        Numeral::Num(number) => number.get(),
        Numeral::NaN => 0,
    }
}

/// ToUint32 (ECMA-262 9.6).
pub fn to_uint32(n: Numeral) -> u32
    ensures { result ≡ uint32_of n }
{
    to_integer(n).rem_euclid(1 << 32) as u32
}

/// ToInt32 (ECMA-262 9.5).
pub fn to_int32(n: Numeral) -> i32
    ensures { result ≡ int32_of n }
{
    to_uint32(n).cast_signed()
}

/// ToText: ToString of the standard (ECMA-262 9.8). It takes no memory.
pub fn to_text(alloc: Global, heap: &mut Heap, v: Value) -> Result<Span, Halt>
    ensures made { (result, heap.new) ≡ text_of_value heap.old v }
    ensures grows { Grows heap.old heap.new }
{
    match v {
        Value::Undefined => Ok(fixed(FixedText::Undefined)),
        Value::Null => Ok(fixed(FixedText::Null)),
        Value::Bool(true) => Ok(fixed(FixedText::True)),
        Value::Bool(false) => Ok(fixed(FixedText::False)),
        Value::Num(number) => heap.add_number(alloc, number),
        Value::NaN => Ok(fixed(FixedText::NaN)),
        Value::Text(span) => Ok(span),
        Value::Object(_) => Err(Halt::Fault(Fault::ObjectToPrimitive)),
    }
}

/// Whether a text of so many units can be made: its length is judged before it is charged.
pub fn room_for_text(heap: &Heap, count: usize) -> Result<(), Halt>
    ensures { result ≡ room_for_text heap.now.pool count }
{
    let pool = heap.pool();
    if count > pool.text_limit() as usize {
        return Err(Halt::Fault(Fault::TextTooLong));
    }
    if count > pool.free() as usize {
        return Err(Halt::Limit(Limit::Units));
    }
    Ok(())
}

/// Whether the number's numeral can be made. No text is.
pub fn room_for_numeral(heap: &Heap, number: Whole) -> Result<(), Halt>
    ensures { result ≡ room_for_text heap.now.pool (length (signed_decimal number)) }
{
    let mut room = [0; 17];
    let count = text_of_whole(number, &mut room);
    room_for_text(heap, count)
}

/// `===` (ECMA-262 11.9.6).
pub fn strictly_equal(heap: &Heap, a: Value, b: Value) -> bool
    ensures { result ≡ strictly_equal heap.now.pool a b }
{
    match a {
        Value::Undefined => matches!(b, Value::Undefined),
        Value::Null => matches!(b, Value::Null),
        Value::Bool(x) => match b {
            Value::Bool(y) => x == y,
            _ => false,
        },
        Value::Num(x) => match b {
            Value::Num(y) => x == y,
            _ => false,
        },
        Value::NaN => false,
        Value::Text(x) => match b {
            Value::Text(y) => same_text(heap.pool(), x, y),
            _ => false,
        },
        Value::Object(x) => match b {
            Value::Object(y) => x == y,
            _ => false,
        },
    }
}

// The numeral of 0 or 1.
fn whole(n: i64) -> Numeral
    requires { IsWhole n }
    ensures { result ≡ Numeral.Num n }
{
    match Whole::new(n) {
        Some(number) => Numeral::Num(number),
        None => Numeral::NaN,
    }
}

fn fixed(text: FixedText) -> Span
    ensures { result ≡ span_of text }
{
    text.span()
}
