ghost use Rattle.std.specs.Prelude.{◌≡◌};
ghost use Rattle.rip_heap.specs.World.{object_at};
ghost use Rattle.rip_ops.specs.Base.{base_of, base_of_object, base_of_class, base_of_number};

use rip_base::{Span, Value};
use rip_heap::{Class, Heap};
use rip_values::{Builtin, FIRST_HEAP_OBJECT, FIRST_NODE};

/// What a value is as the base of a member (ECMA-262 8.7). Objects go by their numbers.
#[derive(Clone, Copy, Debug, PartialEq, Eq)]
pub enum Base {
    /// Undefined or null.
    Nothing,
    /// A boolean or a number.
    Primitive,
    Text(Span),
    /// A plain object, the `prototype` that a function was made with, or a code that the document threw.
    Plain(u32),
    /// An error, thrown by the evaluator or made by the script.
    Error(u32),
    Array(u32),
    /// A function of the script.
    Function(u32),
    /// `Math` or a built-in function, or a number that is nothing.
    Builtin(u32),
    /// `ripley`, an event, the document or another node: what the host answers for.
    Host(u32),
}

/// What the value is as the base of a member.
pub fn base_of(heap: &Heap, v: Value) -> Base
    ensures { result ≡ base_of heap.now v }
{
    match v {
        Value::Undefined | Value::Null => Base::Nothing,
        Value::Bool(_) | Value::Num(_) | Value::NaN => Base::Primitive,
        Value::Text(span) => Base::Text(span),
        Value::Object(number) => base_of_object(heap, number),
    }
}

fn base_of_object(heap: &Heap, number: u32) -> Base
    ensures { result ≡ base_of_object number (object_at heap.now number) }
{
    if number < FIRST_HEAP_OBJECT || number - FIRST_HEAP_OBJECT >= heap.objects() {
        return base_of_number(number);
    }
    base_of_class(number, heap.class(number))
}

fn base_of_class(number: u32, class: Class) -> Base
    ensures { result ≡ base_of_class number class }
{
    match class {
        Class::Plain | Class::Prototype | Class::Code => Base::Plain(number),
        Class::Array => Base::Array(number),
        Class::Function => Base::Function(number),
        Class::Error
        | Class::TypeError
        | Class::RangeError
        | Class::ThrownTypeError
        | Class::ThrownReferenceError => Base::Error(number),
        Class::Event => Base::Host(number),
    }
}

// Of a number that is no object of the heap.
fn base_of_number(number: u32) -> Base
    ensures { result ≡ base_of_number number }
{
    if number >= FIRST_NODE || number == Builtin::Ripley.number() {
        Base::Host(number)
    } else {
        Base::Builtin(number)
    }
}
