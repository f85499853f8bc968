ghost use Rattle.std.specs.Prelude.{◌≡◌};
ghost use Rattle.rip_ops.specs.Equality.{loosely_equal, equal_numbers, negated};
ghost use Rattle.rip_ops.specs.Numbers.{of_numbers};

use crate::numbers::numbers_of;
use rip_base::{Fault, Numeral, Value};
use rip_heap::{Heap, strictly_equal};

/// `==` (ECMA-262 11.9.3).
pub fn loosely_equal(heap: &Heap, a: Value, b: Value) -> Result<bool, Fault>
    ensures { result ≡ loosely_equal heap.now.pool a b }
{
    match a {
        Value::Undefined | Value::Null => Ok(matches!(b, Value::Undefined | Value::Null)),
        Value::Text(_) => match b {
            Value::Undefined | Value::Null => Ok(false),
            Value::Text(_) => Ok(strictly_equal(heap, a, b)),
            Value::Object(_) => Err(Fault::ObjectToPrimitive),
            Value::Bool(_) | Value::Num(_) | Value::NaN => equal_as_numbers(heap, a, b),
        },
        Value::Object(_) => match b {
            Value::Undefined | Value::Null => Ok(false),
            Value::Object(_) => Ok(strictly_equal(heap, a, b)),
            _ => Err(Fault::ObjectToPrimitive),
        },
        Value::Bool(_) | Value::Num(_) | Value::NaN => match b {
            Value::Undefined | Value::Null => Ok(false),
            Value::Object(_) => Err(Fault::ObjectToPrimitive),
            _ => equal_as_numbers(heap, a, b),
        },
    }
}

fn equal_as_numbers(heap: &Heap, a: Value, b: Value) -> Result<bool, Fault>
    ensures { result ≡ of_numbers heap.now.pool equal_numbers a b }
{
    let (x, y) = numbers_of(heap, a, b)?;
    Ok(equal_numbers(x, y))
}

fn equal_numbers(a: Numeral, b: Numeral) -> bool
    ensures { equal_numbers a b ≡ Ok result }
{
    match a {
        Numeral::Num(x) => match b {
            Numeral::Num(y) => x == y,
            Numeral::NaN => false,
        },
        Numeral::NaN => false,
    }
}

/// `!=` (ECMA-262 11.9.2), which has the faults of `==`.
pub fn loosely_unequal(heap: &Heap, a: Value, b: Value) -> Result<bool, Fault>
    ensures { result ≡ negated (loosely_equal heap.now.pool a b) }
{
    let equal = loosely_equal(heap, a, b)?;
    Ok(!equal)
}
