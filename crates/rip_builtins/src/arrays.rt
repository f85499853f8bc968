ghost use Rattle.std.specs.Prelude.{◌≡◌, ◌≤◌, false, slice_get};
ghost use Rattle.std.specs.Option.{option_map_or};
ghost use Rattle.rip_base.specs.declared.value.Value.{Value};
ghost use Rattle.rip_heap.specs.Conversions.{strictly_equal};
ghost use Rattle.rip_heap.specs.Arrays.{elements_at};
ghost use Rattle.rip_heap.specs.Growth.{Grows};
ghost use Rattle.rip_heap.specs.Outcome.{Answers};
ghost use Rattle.rip_builtins.specs.Arrays.{push, pop, slice, slice_between, index_of, place_from_end, place_or_none, place_of_value, first_equal};

use crate::arguments::{argument, integer_of};
use crate::texts::end_of;
use rip_base::{Value, Whole};
use rip_heap::{Abrupt, Heap, strictly_equal};
use std::alloc::Global;

// `push` (ECMA-262 15.4.4.7).
pub fn push(alloc: Global, heap: &mut Heap, array: u32, args: &[Value]) -> Result<Value, Abrupt>
    ensures answers { Answers (push heap.old array args.now) heap.old result heap.new }
    ensures grows { Grows heap.old heap.new }
{
    heap.push_items(alloc, array, args)?;
    Ok(heap.count(array).into())
}

// `pop` (ECMA-262 15.4.4.6).
pub fn pop(heap: &mut Heap, array: u32) -> Result<Value, Abrupt>
    ensures answers { Answers (pop heap.old array) heap.old result heap.new }
    ensures grows { Grows heap.old heap.new }
{
    Ok(heap.pop_item(array).unwrap_or(Value::Undefined))
}

// `slice` (ECMA-262 15.4.4.10).
pub fn slice(alloc: Global, heap: &mut Heap, array: u32, args: &[Value]) -> Result<Value, Abrupt>
    ensures answers { Answers (slice heap.old array args.now) heap.old result heap.new }
    ensures grows { Grows heap.old heap.new }
{
    let a = integer_of(heap, argument(args, 0))?;
    let b = end_of(heap, heap.count(array) as usize, argument(args, 1))?;
    slice_between(alloc, heap, array, a, b)
}

// A new array of the elements between two places.
fn slice_between(
    alloc: Global,
    heap: &mut Heap,
    array: u32,
    a: i64,
    b: i64,
) -> Result<Value, Abrupt>
    ensures answers { Answers (slice_between heap.old (elements_at heap.old array) a b)
        heap.old result heap.new }
    ensures grows { Grows heap.old heap.new }
{
    let count = heap.count(array);
    let from = place_from_end(count, a);
    let to = place_from_end(count, b);
    let made = heap.new_piece(alloc, array, from, to)?;
    Ok(Value::Object(made))
}

// The place in a list of so many, which negative integers count from its end.
fn place_from_end(count: u32, place: i64) -> u32
    ensures place { result ≡ place_from_end count place }
    ensures within { result ≤ count }
{
    if place >= 0 {
        place.min(i64::from(count)) as u32
    } else {
        (i64::from(count) + place.max(-i64::from(count))) as u32
    }
}

// `indexOf` (ECMA-262 15.4.4.14).
pub fn index_of(heap: &Heap, array: u32, args: &[Value]) -> Result<Value, Abrupt>
    ensures { Answers (index_of heap.now array args.now) heap.now result heap.now }
{
    let count = heap.count(array);
    if count == 0 {
        return Ok(place_or_none(None));
    }
    match integer_of(heap, argument(args, 1)) {
        Ok(from) => Ok(place_of_value(heap, array, argument(args, 0), from)),
        Err(fault) => Err(Abrupt::Fault(fault)),
    }
}

// Where the value stands from an integer on.
fn place_of_value(heap: &Heap, array: u32, v: Value, from: i64) -> Value
    ensures { result ≡ place_of_value heap.now.pool v (elements_at heap.now array) from }
{
    let start = place_from_end(heap.count(array), from);
    place_or_none(first_equal(heap, array, v, start))
}

// The place as a value, or -1 where there is none.
pub fn place_or_none(place: Option<u32>) -> Value
    ensures { result ≡ place_or_none place }
{
    match place {
        Some(place) => place.into(),
        None => match Whole::new(-1) {
            Some(whole) => Value::Num(whole),
            None => Value::NaN,
        },
    }
}

// The first place from this one on at which the value stands.
fn first_equal(heap: &Heap, array: u32, v: Value, from: u32) -> Option<u32>
    ensures { result ≡ first_equal heap.now.pool v (elements_at heap.now array) from }
{
    for place in from..heap.count(array) {
        if is_equal_at(heap, array, &v, place) {
            return Some(place);
        }
    }
    None
}

// Whether the value stands at this place.
fn is_equal_at(heap: &Heap, array: u32, v: &Value, place: u32) -> bool
    ensures { result ≡ option_map_or (strictly_equal heap.now.pool v.now)
        (slice_get (elements_at heap.now array) place) false }
{
    match heap.item(array, place) {
        Some(item) => strictly_equal(heap, *v, item),
        None => false,
    }
}
