ghost use Rattle.rip_heap.specs.Growth.{Grows};
ghost use Rattle.rip_ops.specs.Members.{contained, in_asked, in_plain, in_array, number_in_array, absent};
ghost use Rattle.rip_heap.specs.Outcome.{Answers};

use rip_base::{Fault, Span, Value, Whole};
use rip_heap::{
    Abrupt, Asked, Found, Heap, asked_of, index_of, is_index, is_named, is_of_object_prototype,
    is_underscored, look_up, not_in_profile,
};
use rip_values::FixedText;
use std::alloc::Global;

/// `in` (ECMA-262 11.8.7).
pub fn contained(alloc: Global, heap: &mut Heap, a: Value, b: Value) -> Result<Value, Abrupt>
    ensures answers { Answers (contained heap.old a b) heap.old result heap.new }
    ensures grows { Grows heap.old heap.new }
{
    let Value::Object(object) = b else {
        return Err(Abrupt::TypeError);
    };
    match asked_of(alloc, heap, object, a)? {
        Asked::Name(name) => in_plain(heap, object, name),
        Asked::Numeral(name) => Ok(Value::Bool(heap.find(object, name).is_some())),
        Asked::Element(number) => number_in_array(heap, number, object),
        Asked::ArrayName(name) => in_array(heap, object, name),
    }
}

fn in_plain(heap: &Heap, number: u32, name: Span) -> Result<Value, Abrupt>
    ensures { Answers (in_plain heap.now number name) heap.now result heap.now }
{
    if is_underscored(heap.pool().get(name)) {
        return Err(Abrupt::Fault(Fault::NotInProfile));
    }
    match look_up(heap, number, name) {
        Found::Here => Ok(Value::Bool(true)),
        Found::Barred => Err(Abrupt::Fault(Fault::NotInProfile)),
        Found::Nowhere => absent(heap, name),
    }
}

// The answer for a name that is found nowhere.
fn absent(heap: &Heap, name: Span) -> Result<Value, Abrupt>
    ensures { Answers (absent heap.now name) heap.now result heap.now }
{
    if is_named(heap, name, FixedText::HasOwnProperty) {
        Ok(Value::Bool(true))
    } else if is_of_object_prototype(heap, name) {
        Err(Abrupt::Fault(Fault::NotInProfile))
    } else {
        Ok(Value::Bool(false))
    }
}

fn number_in_array(heap: &Heap, key: Whole, number: u32) -> Result<Value, Abrupt>
    ensures { Answers (number_in_array heap.now key number) heap.now result heap.now }
{
    if is_index(key.get()) {
        Ok(Value::Bool(key.get() < i64::from(heap.count(number))))
    } else {
        not_in_profile(heap, Value::Num(key))
    }
}

fn in_array(heap: &Heap, number: u32, name: Span) -> Result<Value, Abrupt>
    ensures { Answers (in_array heap.now number name) heap.now result heap.now }
{
    match index_of(heap, name) {
        Some(index) => Ok(Value::Bool(index < heap.count(number))),
        None => if is_named(heap, name, FixedText::Length) {
            Ok(Value::Bool(true))
        } else {
            Err(Abrupt::Fault(Fault::NotInProfile))
        },
    }
}
