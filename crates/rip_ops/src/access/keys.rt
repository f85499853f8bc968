ghost use Rattle.rip_heap.specs.Growth.{Grows};
ghost use Rattle.rip_ops.specs.Keys.{IsKeying, key_of, indexed, number_key, named};

use crate::access::base::{Base, base_of};
use rip_base::{Value, Whole};
use rip_heap::{Abrupt, Heap, Key, is_index, to_text};
use std::alloc::Global;

/// The key of a member of the base (ECMA-262 11.2.1): a text, at the charge of the conversion, or of a text or an array
/// an index, which costs nothing.
pub fn key_of(alloc: Global, heap: &mut Heap, base: Value, key: Value) -> Result<Key, Abrupt>
    ensures keys { IsKeying (key_of heap.old base key) heap.old result heap.new }
    ensures grows { Grows heap.old heap.new }
{
    match base_of(heap, base) {
        Base::Nothing => Err(Abrupt::TypeError),
        Base::Text(_) | Base::Array(_) => indexed(alloc, heap, key),
        _ => named(alloc, heap, key),
    }
}

fn indexed(alloc: Global, heap: &mut Heap, key: Value) -> Result<Key, Abrupt>
    ensures keys { IsKeying (indexed heap.old key) heap.old result heap.new }
    ensures grows { Grows heap.old heap.new }
{
    match key {
        Value::Num(number) => number_key(alloc, heap, number),
        _ => named(alloc, heap, key),
    }
}

fn number_key(alloc: Global, heap: &mut Heap, number: Whole) -> Result<Key, Abrupt>
    ensures keys { IsKeying (number_key heap.old number) heap.old result heap.new }
    ensures grows { Grows heap.old heap.new }
{
    if is_index(number.get()) {
        Ok(Key::Index(number.get() as u32))
    } else {
        named(alloc, heap, Value::Num(number))
    }
}

fn named(alloc: Global, heap: &mut Heap, key: Value) -> Result<Key, Abrupt>
    ensures keys { IsKeying (named heap.old key) heap.old result heap.new }
    ensures grows { Grows heap.old heap.new }
{
    let name = to_text(alloc, heap, key)?;
    Ok(Key::Name(name))
}
