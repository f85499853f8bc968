ghost use Rattle.std.specs.Prelude.{◌≡◌};
ghost use Rattle.rip_heap.specs.Growth.{Grows};
ghost use Rattle.rip_heap.specs.Outcome.{Answers};
ghost use Rattle.rip_builtins.specs.OwnProperties.{has_own_property, has_own, own_asked, own_of_plain, own_of_array, number_of_array};

use crate::arguments::argument;
use rip_base::{Fault, Span, Value, Whole};
use rip_heap::{
    Abrupt, Asked, Heap, asked_of, index_of, is_barred, is_index, is_named, is_underscored,
    not_in_profile, to_text,
};
use rip_values::FixedText;
use std::alloc::Global;

// `hasOwnProperty` (ECMA-262 15.2.4.5).
pub fn has_own_property(
    alloc: Global,
    heap: &mut Heap,
    this: Value,
    args: &[Value],
) -> Result<Value, Abrupt>
    ensures answers { Answers (has_own_property heap.old this args.now) heap.old result heap.new }
    ensures grows { Grows heap.old heap.new }
{
    has_own(alloc, heap, this, argument(args, 0))
}

fn has_own(alloc: Global, heap: &mut Heap, this: Value, key: Value) -> Result<Value, Abrupt>
    ensures answers { Answers (has_own heap.old this key) heap.old result heap.new }
    ensures grows { Grows heap.old heap.new }
{
    let Value::Object(object) = this else {
        return not_in_profile(heap, key);
    };
    match asked_of(alloc, heap, object, key)? {
        Asked::Name(name) => own_of_plain(heap, object, name),
        Asked::Numeral(name) => Ok(Value::Bool(heap.own(object, name).is_some())),
        Asked::Element(number) => number_of_array(alloc, heap, object, number),
        Asked::ArrayName(name) => own_of_array(heap, object, name),
    }
}

fn own_of_plain(heap: &Heap, number: u32, name: Span) -> Result<Value, Abrupt>
    ensures { Answers (own_of_plain heap.now number name) heap.now result heap.now }
{
    if is_underscored(heap.pool().get(name)) || is_barred(heap, name, heap.class(number)) {
        return Err(Abrupt::Fault(Fault::NotInProfile));
    }
    Ok(Value::Bool(heap.own(number, name).is_some()))
}

fn number_of_array(alloc: Global, heap: &mut Heap, number: u32, key: Whole) -> Result<Value, Abrupt>
    ensures answers { Answers (number_of_array heap.old number key) heap.old result heap.new }
    ensures grows { Grows heap.old heap.new }
{
    if is_index(key.get()) {
        return Ok(Value::Bool(key.get() < i64::from(heap.count(number))));
    }
    to_text(alloc, heap, Value::Num(key))?;
    Ok(Value::Bool(false))
}

fn own_of_array(heap: &Heap, number: u32, name: Span) -> Result<Value, Abrupt>
    ensures { Answers (own_of_array heap.now number name) heap.now result heap.now }
{
    if is_underscored(heap.pool().get(name)) {
        return Err(Abrupt::Fault(Fault::NotInProfile));
    }
    match index_of(heap, name) {
        Some(index) => Ok(Value::Bool(index < heap.count(number))),
        None => Ok(Value::Bool(is_named(heap, name, FixedText::Length))),
    }
}
