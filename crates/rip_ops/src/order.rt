ghost use Rattle.std.specs.Prelude.{◌≡◌, ◌||◌};
ghost use Rattle.std.specs.Cmp.Lexicographic.{slice_cmp};
ghost use Rattle.std.specs.Ordering.{nat_cmp, is_lt, is_gt, is_le, is_ge};
ghost use Rattle.rip_values.specs.Pool.{text_at};
ghost use Rattle.rip_ops.specs.Order.{is_object, order_of, order_of_others, order_of_numbers, is_so};

use crate::numbers::numbers_of;
use rip_base::{Fault, Numeral, Span, Value};
use rip_heap::Heap;
use std::cmp::Ordering;

/// The order of two values, or none where one is NaN (ECMA-262 11.8.5).
pub fn order_of(heap: &Heap, a: Value, b: Value) -> Result<Option<Ordering>, Fault>
    ensures { result ≡ order_of heap.now.pool a b }
{
    match a {
        Value::Text(x) => match b {
            Value::Text(y) => Ok(Some(order_of_texts(heap, x, y))),
            _ => order_of_others(heap, a, b),
        },
        _ => order_of_others(heap, a, b),
    }
}

fn order_of_texts(heap: &Heap, a: Span, b: Span) -> Ordering
    ensures { result ≡ slice_cmp nat_cmp (text_at heap.now.pool a) (text_at heap.now.pool b) }
{
    heap.pool().get(a).cmp(heap.pool().get(b))
}

fn order_of_others(heap: &Heap, a: Value, b: Value) -> Result<Option<Ordering>, Fault>
    ensures { result ≡ order_of_others heap.now.pool a b }
{
    if either_is_object(&a, &b) {
        return Err(Fault::ObjectToPrimitive);
    }
    let (x, y) = numbers_of(heap, a, b)?;
    Ok(order_of_numbers(x, y))
}

fn order_of_numbers(a: Numeral, b: Numeral) -> Option<Ordering>
    ensures { order_of_numbers a b ≡ Ok result }
{
    match a {
        Numeral::Num(x) => match b {
            Numeral::Num(y) => Some(x.get().cmp(&y.get())),
            Numeral::NaN => None,
        },
        Numeral::NaN => None,
    }
}

/// Whether one of the values is an object.
pub(crate) fn either_is_object(a: &Value, b: &Value) -> bool
    ensures { result ≡ (is_object a.now || is_object b.now) }
{
    is_object(a) || is_object(b)
}

fn is_object(v: &Value) -> bool
    ensures { result ≡ is_object v.now }
{
    matches!(v, Value::Object(_))
}

/// `<` (ECMA-262 11.8.1).
pub fn is_less(heap: &Heap, a: Value, b: Value) -> Result<bool, Fault>
    ensures { result ≡ is_so is_lt (order_of heap.now.pool a b) }
{
    let order = order_of(heap, a, b)?;
    Ok(matches!(order, Some(Ordering::Less)))
}

/// `>` (ECMA-262 11.8.2).
pub fn is_greater(heap: &Heap, a: Value, b: Value) -> Result<bool, Fault>
    ensures { result ≡ is_so is_gt (order_of heap.now.pool a b) }
{
    let order = order_of(heap, a, b)?;
    Ok(matches!(order, Some(Ordering::Greater)))
}

/// `<=` (ECMA-262 11.8.3).
pub fn is_at_most(heap: &Heap, a: Value, b: Value) -> Result<bool, Fault>
    ensures { result ≡ is_so is_le (order_of heap.now.pool a b) }
{
    let order = order_of(heap, a, b)?;
    Ok(matches!(order, Some(Ordering::Less | Ordering::Equal)))
}

/// `>=` (ECMA-262 11.8.4).
pub fn is_at_least(heap: &Heap, a: Value, b: Value) -> Result<bool, Fault>
    ensures { result ≡ is_so is_ge (order_of heap.now.pool a b) }
{
    let order = order_of(heap, a, b)?;
    Ok(matches!(order, Some(Ordering::Greater | Ordering::Equal)))
}
