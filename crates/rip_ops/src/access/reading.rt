ghost use Rattle.std.specs.Prelude.{◌≡◌, pos};
ghost use Rattle.rip_ops.specs.Reading.{read, read_name, read_index, member, unit_of, element_of, absent, error_default, error_name, is_thrown, builtin_member, call_or_fault};

use crate::access::base::{Base, base_of};
use crate::access::calls::{call_of_arrays, call_of_math, call_of_texts};
use crate::access::outcome::Read;
use rip_base::{Fault, Span, Value, Whole};
use rip_heap::{
    Class, Heap, Key, LookedUp, index_of, is_named, is_of_object_prototype, is_underscored,
    looked_up,
};
use rip_values::{Builtin, FixedText};

/// What reading this member of the value gives (ECMA-262 8.7.1, 11.2.1).
pub fn read(heap: &Heap, base: Value, key: Key) -> Read
    ensures { result ≡ read heap.now base key }
{
    let kind = base_of(heap, base);
    match key {
        Key::Name(name) => read_name(heap, kind, name),
        Key::Index(index) => read_index(heap, kind, index),
    }
}

fn read_name(heap: &Heap, base: Base, name: Span) -> Read
    ensures { result ≡ read_name heap.now base name }
{
    match base {
        Base::Nothing => Read::TypeFault,
        _ => if is_underscored(heap.pool().get(name)) {
            Read::Fault(Fault::NotInProfile)
        } else {
            member(heap, base, name)
        },
    }
}

fn read_index(heap: &Heap, base: Base, index: u32) -> Read
    ensures { result ≡ read_index heap.now base index }
{
    match base {
        Base::Nothing => Read::TypeFault,
        Base::Text(text) => unit_of(heap, text, index),
        Base::Array(array) => element_of(heap, array, index),
        _ => Read::Fault(Fault::NotInProfile),
    }
}

fn member(heap: &Heap, base: Base, name: Span) -> Read
    ensures { result ≡ member heap.now base name }
{
    match base {
        Base::Nothing => Read::TypeFault,
        Base::Primitive => Read::Fault(Fault::NotInProfile),
        Base::Text(text) => text_member(heap, text, name),
        Base::Array(array) => array_member(heap, array, name),
        Base::Plain(object) => plain_member(heap, object, name),
        Base::Error(object) => error_member(heap, object, name),
        Base::Function(object) => function_member(heap, object, name),
        Base::Builtin(number) => builtin_member(heap, number, name),
        Base::Host(object) => Read::Host { object, name },
    }
}

fn text_member(heap: &Heap, text: Span, name: Span) -> Read
    ensures { result ≡ member heap.now (Base.Text text) name }
{
    match index_of(heap, name) {
        Some(index) => unit_of(heap, text, index),
        None => if is_named(heap, name, FixedText::Length) {
            Read::Value(number(heap.pool().get(text).len() as u32))
        } else {
            call_or_fault(call_of_texts(heap, name))
        },
    }
}

// The text of one unit, which is a piece of the text.
fn unit_of(heap: &Heap, text: Span, index: u32) -> Read
    ensures { result ≡ unit_of heap.now.pool text index }
{
    let units = heap.pool().get(text);
    if (index as usize) < units.len() {
        Read::Value(Value::Text(Span {
            start: text.start + index,
            count: 1,
        }))
    } else {
        Read::Value(Value::Undefined)
    }
}

fn array_member(heap: &Heap, array: u32, name: Span) -> Read
    ensures { result ≡ member heap.now (Base.Array array) name }
{
    match index_of(heap, name) {
        Some(index) => element_of(heap, array, index),
        None => if is_named(heap, name, FixedText::Length) {
            Read::Value(number(heap.count(array)))
        } else {
            call_or_fault(call_of_arrays(heap, name))
        },
    }
}

fn element_of(heap: &Heap, array: u32, index: u32) -> Read
    ensures { result ≡ element_of heap.now array index }
{
    Read::Value(heap.item(array, index).unwrap_or(Value::Undefined))
}

fn plain_member(heap: &Heap, object: u32, name: Span) -> Read
    ensures { result ≡ member heap.now (Base.Plain object) name }
{
    match looked_up(heap, object, name) {
        LookedUp::Value(value) => Read::Value(value),
        LookedUp::Barred => Read::Fault(Fault::NotInProfile),
        LookedUp::Nowhere => absent(heap, name),
    }
}

// What an object without a property of that name has.
fn absent(heap: &Heap, name: Span) -> Read
    ensures { result ≡ absent heap.now.pool name }
{
    if is_named(heap, name, FixedText::HasOwnProperty) {
        built_in(Builtin::HasOwnProperty)
    } else if is_of_object_prototype(heap, name) {
        Read::Fault(Fault::NotInProfile)
    } else {
        Read::Value(Value::Undefined)
    }
}

fn error_member(heap: &Heap, object: u32, name: Span) -> Read
    ensures { result ≡ member heap.now (Base.Error object) name }
{
    let class = heap.class(object);
    if is_thrown(class) && is_named(heap, name, FixedText::Message) {
        return Read::Fault(Fault::NotInProfile);
    }
    match heap.own(object, name) {
        Some(value) => Read::Value(value),
        None => error_default(heap, class, name),
    }
}

// Whether the evaluator threw an error of this class.
fn is_thrown(class: Class) -> bool
    ensures { result ≡ is_thrown class }
{
    matches!(class, Class::ThrownTypeError | Class::ThrownReferenceError)
}

// What an error without a property of that name has.
fn error_default(heap: &Heap, class: Class, name: Span) -> Read
    ensures { result ≡ error_default heap.now.pool class name }
{
    if is_named(heap, name, FixedText::Name) {
        Read::Value(Value::Text(error_name(class).span()))
    } else if is_named(heap, name, FixedText::Message) {
        Read::Value(Value::Text(FixedText::Empty.span()))
    } else {
        absent(heap, name)
    }
}

fn error_name(class: Class) -> FixedText
    ensures { result ≡ error_name class }
{
    match class {
        Class::TypeError | Class::ThrownTypeError => FixedText::TypeError,
        Class::RangeError => FixedText::RangeError,
        Class::ThrownReferenceError => FixedText::ReferenceError,
        _ => FixedText::Error,
    }
}

fn function_member(heap: &Heap, object: u32, name: Span) -> Read
    ensures { result ≡ member heap.now (Base.Function object) name }
{
    match heap.own(object, name) {
        Some(value) => Read::Value(value),
        None => if is_named(heap, name, FixedText::Call) {
            built_in(Builtin::FunctionCall)
        } else {
            Read::Fault(Fault::NotInProfile)
        },
    }
}

fn builtin_member(heap: &Heap, number: u32, name: Span) -> Read
    ensures { result ≡ builtin_member heap.now.pool number name }
{
    if number == Builtin::Math.number() {
        call_or_fault(call_of_math(heap, name))
    } else {
        Read::Fault(Fault::NotInProfile)
    }
}

fn call_or_fault(call: Option<Builtin>) -> Read
    ensures { result ≡ call_or_fault call }
{
    match call {
        Some(builtin) => built_in(builtin),
        None => Read::Fault(Fault::NotInProfile),
    }
}

fn built_in(builtin: Builtin) -> Read
    ensures { result ≡ call_or_fault (Some builtin) }
{
    Read::Value(Value::Object(builtin.number()))
}

fn number(n: u32) -> Value
    ensures { result ≡ Value.Num (pos n) }
{
    match Whole::new(i64::from(n)) {
        Some(whole) => Value::Num(whole),
        None => Value::NaN,
    }
}
