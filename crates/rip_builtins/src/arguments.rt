ghost use Rattle.std.specs.Prelude.{◌≡◌};
ghost use Rattle.rip_heap.specs.Conversions.{span_of};
ghost use Rattle.rip_builtins.specs.Arguments.{argument, integer_in};

use rip_base::{Fault, Span, Value};
use rip_heap::{Heap, to_integer, to_number};
use rip_values::FixedText;

// The argument at this place; one that is absent is undefined (ECMA-262 15).
pub fn argument(args: &[Value], place: usize) -> Value
    ensures { result ≡ argument args.now place }
{
    args.get(place).copied().unwrap_or(Value::Undefined)
}

// ToInteger of a value (ECMA-262 9.4).
pub fn integer_of(heap: &Heap, v: Value) -> Result<i64, Fault>
    ensures { result ≡ integer_in heap.now.pool v }
{
    let number = to_number(heap, v)?;
    Ok(to_integer(number))
}

// The place of a fixed text in every pool.
pub fn fixed_span(text: FixedText) -> Span
    ensures { result ≡ span_of text }
{
    text.span()
}
