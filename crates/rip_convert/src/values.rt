ghost use Rattle.std.specs.Prelude.{◌≡◌, [], None};
ghost use Rattle.rip_data.specs.Datum.{tree_of};
ghost use Rattle.rip_heap.specs.Arrays.{new_array, push_item};
ghost use Rattle.rip_heap.specs.Growth.{Grows};
ghost use Rattle.rip_heap.specs.Objects.{new_object};
ghost use Rattle.rip_convert.specs.Values.{changing, field_put, is_too_long, made_value, making, text_made};
ghost use Rattle.rip_convert.specs.Pieces.{elements_made, fields_made};

use rip_base::{Fault, Limit, Refused, Span, Units, Value};
use rip_data::Datum;
use rip_heap::{Halt, Heap};
use std::alloc::Global;

/// The value of a datum, in a heap. It calls itself once for each level of nesting, and for each field the heap looks
/// through those of its object.
#[cycle(values)]
pub fn value_of_datum(alloc: Global, heap: &mut Heap, datum: &Datum) -> Result<Value, Halt>
    ensures made { made_value (tree_of datum.now) heap.old ≡ (result, heap.new) }
    ensures grows { Grows heap.old heap.new }
{
    match datum {
        Datum::Null => Ok(Value::Null),
        Datum::Bool(b) => Ok(Value::Bool(*b)),
        Datum::Num(whole) => Ok(Value::Num(*whole)),
        Datum::Text(text) => Ok(Value::Text(make_text(alloc, heap, text.as_slice())?)),
        Datum::List(list) => {
            let array = make_array(alloc, heap)?;
            push_elements(alloc, heap, array, &list.items)?;
            Ok(Value::Object(array))
        }
        Datum::Fields(fields) => {
            let object = make_object(alloc, heap)?;
            put_fields(alloc, heap, object, &fields.fields)?;
            Ok(Value::Object(object))
        }
    }
}

#[cycle(values)]
fn push_elements(alloc: Global, heap: &mut Heap, array: u32, items: &Vec<Datum>) -> Result<(), Halt>
    ensures made { elements_made array items.now.items heap.old ≡ (result, heap.new) }
    ensures grows { Grows heap.old heap.new }
{
    for item in items {
        let value = value_of_datum(alloc, heap, item)?;
        push_value(alloc, heap, array, value)?;
    }
    Ok(())
}

// Puts a value behind the elements of an array.
fn push_value(alloc: Global, heap: &mut Heap, array: u32, value: Value) -> Result<(), Halt>
    ensures made { changing heap.old (push_item heap.old array value) ≡ (result, heap.new) }
    ensures grows { Grows heap.old heap.new }
{
    match heap.push_item(alloc, array, value) {
        Ok(()) => Ok(()),
        Err(Refused::Limit(limit)) => Err(Halt::Limit(limit)),
        Err(Refused::Memory) => unreachable!(),
    }
}

#[cycle(values)]
fn put_fields(
    alloc: Global,
    heap: &mut Heap,
    object: u32,
    fields: &Vec<(Units, Datum)>,
) -> Result<(), Halt>
    ensures made { fields_made object fields.now.items heap.old ≡ (result, heap.new) }
    ensures grows { Grows heap.old heap.new }
{
    for field in fields {
        let value = value_of_datum(alloc, heap, &field.1)?;
        put_field(alloc, heap, object, &field.0, value)?;
    }
    Ok(())
}

// Puts a value under its name, which is a new text.
fn put_field(
    alloc: Global,
    heap: &mut Heap,
    object: u32,
    name: &Units,
    value: Value,
) -> Result<(), Halt>
    ensures made { field_put object name.now value heap.old ≡ (result, heap.new) }
    ensures grows { Grows heap.old heap.new }
{
    if is_too_long(heap, name.as_slice()) {
        return Err(Halt::Fault(Fault::TextTooLong));
    }
    if heap.free_cells() == 0 {
        return Err(Halt::Limit(Limit::Cells));
    }
    let span = make_text(alloc, heap, name.as_slice())?;
    match heap.put(alloc, object, span, value) {
        Ok(()) => Ok(()),
        Err(Refused::Limit(limit)) => Err(Halt::Limit(limit)),
        Err(Refused::Memory) => unreachable!(),
    }
}

// Whether these are more units than a text may have.
fn is_too_long(heap: &Heap, units: &[u16]) -> bool
    ensures { result ≡ is_too_long heap.now units.now }
{
    units.len() > heap.pool().text_limit() as usize
}

// A new text, which is no longer than a text may be.
fn make_text(alloc: Global, heap: &mut Heap, units: &[u16]) -> Result<Span, Halt>
    ensures made { text_made units.now heap.old ≡ (result, heap.new) }
    ensures grows { Grows heap.old heap.new }
{
    if is_too_long(heap, units) {
        return Err(Halt::Fault(Fault::TextTooLong));
    }
    match heap.add_text(alloc, units) {
        Ok(span) => Ok(span),
        Err(Refused::Limit(limit)) => Err(Halt::Limit(limit)),
        Err(Refused::Memory) => unreachable!(),
    }
}

// An array without elements.
fn make_array(alloc: Global, heap: &mut Heap) -> Result<u32, Halt>
    ensures made { making Limit.Cells heap.old (new_array heap.old []) ≡ (result, heap.new) }
    ensures grows { Grows heap.old heap.new }
{
    match heap.new_array(alloc, &[]) {
        Ok(array) => Ok(array),
        Err(Refused::Limit(limit)) => Err(Halt::Limit(limit)),
        Err(Refused::Memory) => unreachable!(),
    }
}

// An object without fields.
fn make_object(alloc: Global, heap: &mut Heap) -> Result<u32, Halt>
    ensures made { making Limit.Cells heap.old (new_object heap.old None) ≡ (result, heap.new) }
    ensures grows { Grows heap.old heap.new }
{
    match heap.new_object(alloc, None) {
        Ok(object) => Ok(object),
        Err(Refused::Limit(limit)) => Err(Halt::Limit(limit)),
        Err(Refused::Memory) => unreachable!(),
    }
}
