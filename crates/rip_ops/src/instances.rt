ghost use Rattle.std.specs.Prelude.{◌≡◌};
ghost use Rattle.rip_heap.specs.World.{object_at, class_of};
ghost use Rattle.rip_ops.specs.Instances.{instance_of, instance_of_builtin, instance_of_class, has_instance, has_above, is_above, is_of, is_error, is_type_error, is_range_error};
ghost use Rattle.rip_heap.specs.Outcome.{Answers};

use rip_base::{Fault, Value};
use rip_heap::{Abrupt, Class, Heap};
use rip_values::{Builtin, FIRST_HEAP_OBJECT, FixedText};

/// `instanceof` (ECMA-262 11.8.6).
pub fn instance_of(heap: &Heap, a: Value, b: Value) -> Result<Value, Abrupt>
    ensures { Answers (instance_of heap.now a b) heap.now result heap.now }
{
    match b {
        Value::Object(number) => if number < FIRST_HEAP_OBJECT {
            instance_of_builtin(heap, a, number)
        } else {
            instance_of_class(heap, a, number, heap.class(number))
        },
        _ => Err(Abrupt::TypeError),
    }
}

fn instance_of_builtin(heap: &Heap, a: Value, number: u32) -> Result<Value, Abrupt>
    ensures { Answers (instance_of_builtin heap.now a number) heap.now result heap.now }
{
    if number == ERROR {
        Ok(Value::Bool(is_error(heap, a)))
    } else if number == TYPE_ERROR {
        Ok(Value::Bool(is_type_error(heap, a)))
    } else if number == RANGE_ERROR {
        Ok(Value::Bool(is_range_error(heap, a)))
    } else {
        Err(Abrupt::Fault(Fault::NotInProfile))
    }
}

/// The numbers of the three built-ins of errors.
const ERROR: u32 = 6;

const TYPE_ERROR: u32 = 7;

const RANGE_ERROR: u32 = 8;

fn is_error(heap: &Heap, a: Value) -> bool
    ensures { result ≡ is_of heap.now is_error a }
{
    match a {
        Value::Object(number) => matches!(
            heap.class(number),
            Class::Error
                | Class::TypeError
                | Class::RangeError
                | Class::ThrownTypeError
                | Class::ThrownReferenceError
        ),
        _ => false,
    }
}

fn is_type_error(heap: &Heap, a: Value) -> bool
    ensures { result ≡ is_of heap.now is_type_error a }
{
    match a {
        Value::Object(number) => matches!(
            heap.class(number),
            Class::TypeError | Class::ThrownTypeError
        ),
        _ => false,
    }
}

fn is_range_error(heap: &Heap, a: Value) -> bool
    ensures { result ≡ is_of heap.now is_range_error a }
{
    match a {
        Value::Object(number) => matches!(heap.class(number), Class::RangeError),
        _ => false,
    }
}

fn instance_of_class(heap: &Heap, a: Value, number: u32, class: Class) -> Result<Value, Abrupt>
    ensures { Answers (instance_of_class heap.now a number class) heap.now result heap.now }
{
    match class {
        Class::Function => has_instance(heap, a, number),
        _ => Err(Abrupt::TypeError),
    }
}

// HasInstance of a function of the script (ECMA-262 15.3.5.3).
fn has_instance(heap: &Heap, a: Value, function: u32) -> Result<Value, Abrupt>
    ensures { Answers (has_instance heap.now a function) heap.now result heap.now }
{
    match a {
        Value::Object(object) => has_above(
            heap,
            object,
            heap.own(function, FixedText::Prototype.span()),
        ),
        _ => Ok(Value::Bool(false)),
    }
}

fn has_above(heap: &Heap, object: u32, prototype: Option<Value>) -> Result<Value, Abrupt>
    ensures { Answers (has_above heap.now object prototype) heap.now result heap.now }
{
    match prototype {
        Some(value) => match value {
            Value::Object(number) => Ok(Value::Bool(is_above(heap, object, number))),
            _ => Err(Abrupt::TypeError),
        },
        None => Err(Abrupt::TypeError),
    }
}

// Whether the prototype is among those above the object.
fn is_above(heap: &Heap, object: u32, prototype: u32) -> bool
    ensures { result ≡ is_above heap.now object prototype }
{
    let mut at = object;
    while let Some(up) = heap.proto(at) {
        if up == prototype {
            return true;
        }
        at = up;
    }
    false
}
