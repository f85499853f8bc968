ghost use Rattle.std.specs.Prelude.{◌≡◌};
ghost use Rattle.rip_heap.specs.Growth.{Grows};
ghost use Rattle.rip_heap.specs.Objects.{put};
ghost use Rattle.rip_heap.specs.Arrays.{push_item};
ghost use Rattle.rip_ops.specs.Writing.{IsWriting, write, write_name, write_index, written, write_element, write_length, write_length_of, stepped, is_of_functions};

use crate::access::base::{Base, base_of};
use crate::access::outcome::Written;
use rip_base::{Fault, Span, Value, Whole};
use rip_heap::{Abrupt, Heap, Key, index_of, is_barred, is_named, is_underscored};
use rip_values::FixedText;
use std::alloc::Global;

/// Gives this member of the base the value (ECMA-262 8.7.2, 11.13.1), or tells that the host is to be asked.
pub fn write(
    alloc: Global,
    heap: &mut Heap,
    base: Value,
    key: Key,
    v: Value,
) -> Result<Written, Abrupt>
    ensures writes { IsWriting (write heap.old base key v) heap.old result heap.new }
    ensures grows { Grows heap.old heap.new }
{
    let kind = base_of(heap, base);
    match key {
        Key::Name(name) => write_name(alloc, heap, kind, name, v),
        Key::Index(index) => write_index(alloc, heap, kind, index, v),
    }
}

fn write_name(
    alloc: Global,
    heap: &mut Heap,
    base: Base,
    name: Span,
    v: Value,
) -> Result<Written, Abrupt>
    ensures writes { IsWriting (write_name heap.old base name v) heap.old result heap.new }
    ensures grows { Grows heap.old heap.new }
{
    match base {
        Base::Nothing => Err(Abrupt::TypeError),
        _ => if is_underscored(heap.pool().get(name)) {
            Err(Abrupt::Fault(Fault::NotInProfile))
        } else {
            write_member(alloc, heap, base, name, v)
        },
    }
}

fn write_index(
    alloc: Global,
    heap: &mut Heap,
    base: Base,
    index: u32,
    v: Value,
) -> Result<Written, Abrupt>
    ensures writes { IsWriting (write_index heap.old base index v) heap.old result heap.new }
    ensures grows { Grows heap.old heap.new }
{
    match base {
        Base::Nothing | Base::Primitive | Base::Text(_) => Err(Abrupt::TypeError),
        Base::Array(array) => write_element(alloc, heap, array, index, v),
        _ => Err(Abrupt::Fault(Fault::NotInProfile)),
    }
}

fn write_member(
    alloc: Global,
    heap: &mut Heap,
    base: Base,
    name: Span,
    v: Value,
) -> Result<Written, Abrupt>
    ensures writes { IsWriting (written heap.old base name v) heap.old result heap.new }
    ensures grows { Grows heap.old heap.new }
{
    match base {
        Base::Nothing | Base::Primitive | Base::Text(_) => Err(Abrupt::TypeError),
        Base::Array(array) => write_array(alloc, heap, array, name, v),
        Base::Plain(object) => write_plain(alloc, heap, object, name, v),
        Base::Error(object) => put(alloc, heap, object, name, v),
        Base::Function(object) => write_function(alloc, heap, object, name, v),
        Base::Builtin(_) => Err(Abrupt::Fault(Fault::NotInProfile)),
        Base::Host(object) => Ok(Written::Host { object, name }),
    }
}

fn write_plain(
    alloc: Global,
    heap: &mut Heap,
    object: u32,
    name: Span,
    v: Value,
) -> Result<Written, Abrupt>
    ensures writes { IsWriting (written heap.old (Base.Plain object) name v) heap.old result
        heap.new }
    ensures grows { Grows heap.old heap.new }
{
    if is_barred(heap, name, heap.class(object)) {
        Err(Abrupt::Fault(Fault::NotInProfile))
    } else {
        put(alloc, heap, object, name, v)
    }
}

fn write_function(
    alloc: Global,
    heap: &mut Heap,
    object: u32,
    name: Span,
    v: Value,
) -> Result<Written, Abrupt>
    ensures writes { IsWriting (written heap.old (Base.Function object) name v) heap.old result
        heap.new }
    ensures grows { Grows heap.old heap.new }
{
    if is_of_functions(heap, name) {
        Err(Abrupt::Fault(Fault::NotInProfile))
    } else {
        put(alloc, heap, object, name, v)
    }
}

// Whether functions have the name in the standard and do not let it be changed.
fn is_of_functions(heap: &Heap, name: Span) -> bool
    ensures { result ≡ is_of_functions heap.now.pool name }
{
    is_named(heap, name, FixedText::Length)
        || is_named(heap, name, FixedText::Name)
        || is_named(heap, name, FixedText::Call)
}

fn write_array(
    alloc: Global,
    heap: &mut Heap,
    array: u32,
    name: Span,
    v: Value,
) -> Result<Written, Abrupt>
    ensures writes { IsWriting (written heap.old (Base.Array array) name v) heap.old result
        heap.new }
    ensures grows { Grows heap.old heap.new }
{
    match index_of(heap, name) {
        Some(index) => write_element(alloc, heap, array, index, v),
        None => if is_named(heap, name, FixedText::Length) {
            write_length(heap, array, v)
        } else {
            Err(Abrupt::Fault(Fault::NotInProfile))
        },
    }
}

fn write_element(
    alloc: Global,
    heap: &mut Heap,
    array: u32,
    index: u32,
    v: Value,
) -> Result<Written, Abrupt>
    ensures writes { IsWriting (write_element heap.old array index v) heap.old result heap.new }
    ensures grows { Grows heap.old heap.new }
{
    let count = heap.count(array);
    if index < count {
        heap.set_item(array, index, v);
        Ok(Written::Done)
    } else if index == count {
        push(alloc, heap, array, v)
    } else {
        Err(Abrupt::Fault(Fault::Hole))
    }
}

fn write_length(heap: &mut Heap, array: u32, v: Value) -> Result<Written, Abrupt>
    ensures writes { IsWriting (write_length heap.old array v) heap.old result heap.new }
    ensures grows { Grows heap.old heap.new }
{
    match v {
        Value::Num(length) => write_length_of(heap, array, length),
        _ => Err(Abrupt::Fault(Fault::NotInProfile)),
    }
}

fn write_length_of(heap: &mut Heap, array: u32, length: Whole) -> Result<Written, Abrupt>
    ensures writes { IsWriting (write_length_of heap.old array length) heap.old result heap.new }
    ensures grows { Grows heap.old heap.new }
{
    let length = length.get();
    if length < 0 {
        Err(Abrupt::Fault(Fault::NotInProfile))
    } else if length <= i64::from(heap.count(array)) {
        heap.cut_items(array, length as u32);
        Ok(Written::Done)
    } else {
        Err(Abrupt::Fault(Fault::Hole))
    }
}

fn put(alloc: Global, heap: &mut Heap, object: u32, name: Span, v: Value) -> Result<Written, Abrupt>
    ensures writes { IsWriting (stepped (put heap.old object name v)) heap.old result heap.new }
    ensures grows { Grows heap.old heap.new }
{
    heap.put(alloc, object, name, v)?;
    Ok(Written::Done)
}

fn push(alloc: Global, heap: &mut Heap, array: u32, v: Value) -> Result<Written, Abrupt>
    ensures writes { IsWriting (stepped (push_item heap.old array v)) heap.old result heap.new }
    ensures grows { Grows heap.old heap.new }
{
    heap.push_item(alloc, array, v)?;
    Ok(Written::Done)
}
