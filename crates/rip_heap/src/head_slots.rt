ghost use Rattle.std.specs.Prelude.{◌≡◌, ◌<◌, ◌^◌};
ghost use Rattle.rip_heap.specs.HeadSlots.{array_if, array_in, chain_in, class_in, class_number, code_in, head_in, index_in, proto_in, slot_of, value_of_head, with_array, with_chain};

use crate::class::Class;
use crate::stored::StoredObject;
use rip_base::{Span, Value};
use rip_heap_region::chains::Chain;
use rip_heap_region::pages::Slot;
use rip_heap_region::segments::Array;

/// The head of the object whose slot this is.
pub(crate) fn head_in(slot: &Slot) -> StoredObject
    ensures { result ≡ head_in slot.now }
{
    let class = class_in(slot.link % 16);
    StoredObject {
        class,
        proto: proto_in(class, slot.value),
        code: code_in(class, slot.value),
    }
}

/// Where its properties stand.
pub(crate) fn chain_in(slot: &Slot) -> Chain
    ensures { result ≡ chain_in slot.now }
{
    Chain {
        first: slot.name.start,
        last: slot.name.count,
        count: slot.next,
    }
}

/// The number of its index of names, or 0.
pub(crate) fn index_in(slot: &Slot) -> u32
    ensures { result ≡ index_in slot.now }
{
    slot.link / 16
}

/// Where its elements lie.
pub(crate) fn array_in(slot: &Slot) -> Array
    ensures { result ≡ array_in slot.now }
{
    array_if(class_in(slot.link % 16), slot.value)
}

/// The slot of an object with this head that has no properties, no elements and no index.
pub(crate) fn slot_of(head: StoredObject) -> Slot
    ensures { result ≡ slot_of head }
{
    Slot {
        value: value_of_head(head),
        name: Span { start: 0, count: 0 },
        next: 0,
        link: class_number(head.class),
    }
}

/// The slot with these properties and this index of their names.
pub(crate) fn with_chain(slot: &Slot, chain: Chain, index: u32) -> Slot
    requires { index < 2 ^ 28 }
    ensures { result ≡ with_chain slot.now chain index }
{
    Slot {
        value: slot.value,
        name: Span {
            start: chain.first,
            count: chain.last,
        },
        next: chain.count,
        link: index * 16 + slot.link % 16,
    }
}

/// The slot of an array with these elements.
pub(crate) fn with_array(slot: &Slot, array: Array) -> Slot
    ensures { result ≡ with_array slot.now array }
{
    Slot {
        value: Value::Text(Span {
            start: array.top,
            count: array.count,
        }),
        name: slot.name,
        next: slot.next,
        link: slot.link,
    }
}

fn class_number(class: Class) -> u32
    ensures { result ≡ class_number class }
{
    match class {
        Class::Plain => 0,
        Class::Prototype => 1,
        Class::Array => 2,
        Class::Function => 3,
        Class::Error => 4,
        Class::TypeError => 5,
        Class::RangeError => 6,
        Class::ThrownTypeError => 7,
        Class::ThrownReferenceError => 8,
        Class::Code => 9,
        Class::Event => 10,
    }
}

fn class_in(number: u32) -> Class
    ensures { result ≡ class_in number }
{
    match number {
        1 => Class::Prototype,
        2 => Class::Array,
        3 => Class::Function,
        4 => Class::Error,
        5 => Class::TypeError,
        6 => Class::RangeError,
        7 => Class::ThrownTypeError,
        8 => Class::ThrownReferenceError,
        9 => Class::Code,
        10 => Class::Event,
        _ => Class::Plain,
    }
}

fn proto_in(class: Class, value: Value) -> Option<u32>
    ensures { result ≡ proto_in class value }
{
    match (class, value) {
        (Class::Array, _) => None,
        (_, Value::Object(number)) => Some(number),
        _ => None,
    }
}

fn code_in(class: Class, value: Value) -> Option<(u32, u32)>
    ensures { result ≡ code_in class value }
{
    match (class, value) {
        (Class::Function, Value::Text(code)) => Some((code.start, code.count)),
        _ => None,
    }
}

fn array_if(class: Class, value: Value) -> Array
    ensures { result ≡ array_if class value }
{
    match (class, value) {
        (Class::Array, Value::Text(array)) => Array {
            top: array.start,
            count: array.count,
        },
        _ => Array { top: 0, count: 0 },
    }
}

fn value_of_head(head: StoredObject) -> Value
    ensures { result ≡ value_of_head head }
{
    match (head.code, head.proto, head.class) {
        (Some((start, count)), _, _) => Value::Text(Span { start, count }),
        (None, Some(number), _) => Value::Object(number),
        (None, None, Class::Array) => Value::Text(Span { start: 0, count: 0 }),
        _ => Value::Undefined,
    }
}
