ghost use Rattle.std.specs.Prelude.{◌≡◌, ◌≤◌, ◌+◌, ◌^◌, ◌<◌, ℕ, Some, IfSome, length, slice_get, option_and_then};
ghost use Rattle.rip_base.specs.declared.value.Value.TheVariants.{Text};
ghost use Rattle.rip_values.specs.Pool.{text_at};
ghost use Rattle.rip_heap.specs.Outcome.{Answers};
ghost use Rattle.rip_builtins.specs.Arguments.{value_or_fault};
ghost use Rattle.rip_builtins.specs.Texts.{piece, place_within, clamped, char_at, char_code_at, substring, end_in, piece_between, unit_or_empty, number_or_nan};

use crate::arguments::{argument, fixed_span, integer_of};
use rip_base::{Fault, Span, Value};
use rip_heap::{Abrupt, Heap};
use rip_values::{FixedText, Pool};

// `charAt` (ECMA-262 15.5.4.4).
pub fn char_at(heap: &Heap, text: Span, args: &[Value]) -> Result<Value, Abrupt>
    ensures { Answers (char_at heap.now text args.now) heap.now result heap.now }
{
    let place = integer_of(heap, argument(args, 0))?;
    Ok(Value::Text(unit_or_empty(heap.pool(), text, place)))
}

// The text of the unit at this place, or the empty text.
fn unit_or_empty(pool: &Pool, text: Span, place: i64) -> Span
    ensures { result ≡ unit_or_empty text (place_within (length (text_at pool.now text)) place) }
{
    match place_within(pool.get(text).len(), place) {
        Some(place) => piece(text, place, place + 1),
        None => fixed_span(FixedText::Empty),
    }
}

// The place in a list of so many, if the integer is one.
fn place_within(count: usize, place: i64) -> Option<usize>
    ensures place { result ≡ place_within count place }
    ensures within { IfSome result (λ place. place < count) }
{
    if 0 <= place && (place as u64) < count as u64 {
        Some(place as usize)
    } else {
        None
    }
}

// The part of a text from one place up to another.
fn piece(text: Span, from: usize, to: usize) -> Span
    requires order { from ≤ to }
    requires within { text.start + to < 2 ^ 32 }
    ensures { result ≡ piece text from to }
{
    Span {
        start: text.start + from as u32,
        count: (to - from) as u32,
    }
}

// `charCodeAt` (ECMA-262 15.5.4.5).
pub fn char_code_at(heap: &Heap, text: Span, args: &[Value]) -> Result<Value, Abrupt>
    ensures { Answers (char_code_at heap.now text args.now) heap.now result heap.now }
{
    let place = integer_of(heap, argument(args, 0))?;
    Ok(number_or_nan(heap.pool().get(text), place))
}

// The unit at this place as a number, or NaN.
fn number_or_nan(units: &[u16], place: i64) -> Value
    ensures { result ≡ number_or_nan
        (option_and_then (slice_get units.now) (place_within (length units.now) place)) }
{
    match place_within(units.len(), place) {
        Some(place) => u32::from(units[place]).into(),
        None => Value::NaN,
    }
}

// `substring` (ECMA-262 15.5.4.15).
pub fn substring(heap: &Heap, text: Span, args: &[Value]) -> Result<Value, Abrupt>
    ensures { Answers (substring heap.now text args.now) heap.now result heap.now }
{
    let a = integer_of(heap, argument(args, 0))?;
    let b = end_of(heap, heap.pool().get(text).len(), argument(args, 1))?;
    Ok(Value::Text(piece_between(heap.pool(), text, a, b)))
}

// The place that an end of a piece or of a slice is given by; undefined is the length.
pub fn end_of(heap: &Heap, count: usize, v: Value) -> Result<i64, Fault>
    requires { count < 2 ^ 32 }
    ensures { result ≡ end_in heap.now.pool count v }
{
    match v {
        Value::Undefined => Ok(count as i64),
        _ => integer_of(heap, v),
    }
}

pub fn clamped(count: usize, place: i64) -> usize
    requires { count < 2 ^ 32 }
    ensures place { result ≡ clamped count place }
    ensures within { result ≤ count }
{
    if place < 0 {
        0
    } else {
        place.min(count as i64) as usize
    }
}

// The part of the text between two places, the lesser first.
fn piece_between(pool: &Pool, text: Span, a: i64, b: i64) -> Span
    ensures { result ≡ piece_between text (clamped (length (text_at pool.now text)) a)
        (clamped (length (text_at pool.now text)) b) }
{
    let count = pool.get(text).len();
    let first = clamped(count, a);
    let second = clamped(count, b);
    piece(text, first.min(second), first.max(second))
}
