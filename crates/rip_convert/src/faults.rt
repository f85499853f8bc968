ghost use Rattle.std.specs.Prelude.{◌≡◌};
ghost use Rattle.rip_heap.specs.Holders.{holder_of};
ghost use Rattle.rip_heap.specs.World.{object_at};
ghost use Rattle.rip_convert.specs.Arguments.{fault_of, parts_fault, text_fault};
ghost use Rattle.rip_convert.specs.Written.{AreWalked};

use crate::marks::Marks;
use crate::units::has_unpaired_surrogate;
use rip_base::{Fault, Value};
use rip_heap::{Heap, Holder, holder_of};

/// The first fault on the walk over a value, where so many levels are left, whatever its length. An object is walked once
/// for each number of levels at most: where it was walked without a fault with as few levels left, it has none. It calls
/// itself once for each level.
#[cycle(faults)]
pub(crate) fn first_fault(heap: &Heap, v: Value, levels: u8, marks: &mut Marks) -> Option<Fault>
    requires walked { AreWalked heap.now marks.old }
    ensures fault { result ≡ fault_of levels heap.now v }
    ensures walked { AreWalked heap.now marks.new }
{
    match v {
        Value::Undefined | Value::NaN => Some(Fault::BadArgument),
        Value::Null | Value::Bool(_) => None,
        Value::Num(whole) => {
            let _number = whole.get();
            None
        }
        Value::Text(span) => text_fault(heap.pool().get(span)),
        Value::Object(number) => object_fault(heap, number, levels, marks),
    }
}

// That of a text or a name.
fn text_fault(units: &[u16]) -> Option<Fault>
    ensures { result ≡ text_fault units.now }
{
    if has_unpaired_surrogate(units) {
        return Some(Fault::LoneSurrogate);
    }
    None
}

// That of an object, which is walked if no mark says that it has none.
#[cycle(faults)]
fn object_fault(heap: &Heap, number: u32, levels: u8, marks: &mut Marks) -> Option<Fault>
    requires walked { AreWalked heap.now marks.old }
    ensures fault { result ≡ fault_of levels heap.now (Value.Object number) }
    ensures walked { AreWalked heap.now marks.new }
{
    if levels == 0 {
        return Some(Fault::BadArgument);
    }
    let mark = marks.at(number);
    if mark > 0 && mark <= levels {
        return None;
    }
    let fault = parts_fault(heap, number, levels - 1, marks);
    if fault.is_none() {
        marks.put(number, levels);
    }
    fault
}

// That of the parts of an object.
#[cycle(faults)]
fn parts_fault(heap: &Heap, number: u32, levels: u8, marks: &mut Marks) -> Option<Fault>
    requires walked { AreWalked heap.now marks.old }
    ensures fault { result ≡
        parts_fault (holder_of (object_at heap.now number)) (fault_of levels heap.now) heap.now number }
    ensures walked { AreWalked heap.now marks.new }
{
    match holder_of(heap, number) {
        Holder::ArrayObject => elements_fault(heap, number, levels, marks),
        Holder::PlainObject => fields_fault(heap, number, levels, marks),
        Holder::OtherObject => Some(Fault::BadArgument),
    }
}

// That of the elements of an array.
#[cycle(faults)]
fn elements_fault(heap: &Heap, array: u32, levels: u8, marks: &mut Marks) -> Option<Fault>
    requires walked { AreWalked heap.now marks.old }
    ensures fault { result ≡ parts_fault Holder.ArrayObject (fault_of levels heap.now) heap.now array }
    ensures walked { AreWalked heap.now marks.new }
{
    for place in 0..heap.count(array) {
        let v = heap.item(array, place).unwrap_or(Value::Undefined);
        let fault = first_fault(heap, v, levels, marks);
        if fault.is_some() {
            return fault;
        }
    }
    None
}

// That of the own properties of an object.
#[cycle(faults)]
fn fields_fault(heap: &Heap, object: u32, levels: u8, marks: &mut Marks) -> Option<Fault>
    requires walked { AreWalked heap.now marks.old }
    ensures fault { result ≡ parts_fault Holder.PlainObject (fault_of levels heap.now) heap.now object }
    ensures walked { AreWalked heap.now marks.new }
{
    if heap.own_at(object, u32::MAX).is_some() {
        return Some(Fault::BadArgument);
    }
    let mut own = heap.own_properties(object);
    while let Some(property) = own.next() {
        let of_name = text_fault(heap.pool().get(property.name));
        if of_name.is_some() {
            return of_name;
        }
        let of_value = first_fault(heap, property.value, levels, marks);
        if of_value.is_some() {
            return of_value;
        }
    }
    None
}
