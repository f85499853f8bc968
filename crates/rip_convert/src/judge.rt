ghost use Rattle.std.specs.Prelude.{◌≡◌, ◌<◌, ◌≤◌, IfOk};
ghost use Rattle.rip_heap.specs.Holders.{holder_of};
ghost use Rattle.rip_heap.specs.World.{object_at};
ghost use Rattle.rip_convert.specs.Written.{left_after, parts_left, spelled_left};

use crate::units::has_unpaired_surrogate;
use rip_base::{Fault, Value};
use rip_heap::{Heap, Holder, holder_of};

/// The pieces that are left behind a value, where so many levels and pieces are left before it; or the fault that ends the
/// walk over it. It calls itself once for each level.
#[cycle(judge)]
pub(crate) fn left_after(heap: &Heap, v: Value, levels: usize, left: u32) -> Result<u32, Fault>
    ensures left { result ≡ left_after levels heap.now v left }
    ensures fewer { IfOk result (λ rest. rest < left) }
{
    if left == 0 {
        return Err(Fault::BadArgument);
    }
    let rest = left - 1;
    match v {
        Value::Undefined | Value::NaN => Err(Fault::BadArgument),
        Value::Null | Value::Bool(_) => Ok(rest),
        Value::Num(whole) => {
            let _number = whole.get();
            Ok(rest)
        }
        Value::Text(span) => spelled_left(heap.pool().get(span), rest),
        Value::Object(number) => {
            if levels == 0 {
                return Err(Fault::BadArgument);
            }
            parts_left(heap, number, levels - 1, rest)
        }
    }
}

// Those left behind a text or a name.
fn spelled_left(units: &[u16], left: u32) -> Result<u32, Fault>
    ensures left { result ≡ spelled_left units.now left }
    ensures no_more { IfOk result (λ rest. rest ≤ left) }
{
    if units.len() > left as usize {
        return Err(Fault::BadArgument);
    }
    if has_unpaired_surrogate(units) {
        return Err(Fault::LoneSurrogate);
    }
    Ok(left - units.len() as u32)
}

// Those left behind the parts of an object.
#[cycle(judge)]
fn parts_left(heap: &Heap, number: u32, levels: usize, left: u32) -> Result<u32, Fault>
    ensures left { result ≡
        parts_left (holder_of (object_at heap.now number)) (left_after levels heap.now) heap.now number left }
    ensures no_more { IfOk result (λ rest. rest ≤ left) }
{
    match holder_of(heap, number) {
        Holder::ArrayObject => elements_left(heap, number, levels, left),
        Holder::PlainObject => fields_left(heap, number, levels, left),
        Holder::OtherObject => Err(Fault::BadArgument),
    }
}

// Those left behind the elements of an array.
#[cycle(judge)]
fn elements_left(heap: &Heap, array: u32, levels: usize, pieces: u32) -> Result<u32, Fault>
    ensures left { result ≡
        parts_left Holder.ArrayObject (left_after levels heap.now) heap.now array pieces }
    ensures no_more { IfOk result (λ rest. rest ≤ pieces) }
{
    let mut left = pieces;
    for place in 0..heap.count(array) {
        let v = heap.item(array, place).unwrap_or(Value::Undefined);
        left = left_after(heap, v, levels, left)?;
    }
    Ok(left)
}

// Those left behind the own properties of an object.
#[cycle(judge)]
fn fields_left(heap: &Heap, object: u32, levels: usize, pieces: u32) -> Result<u32, Fault>
    ensures left { result ≡
        parts_left Holder.PlainObject (left_after levels heap.now) heap.now object pieces }
    ensures no_more { IfOk result (λ rest. rest ≤ pieces) }
{
    let mut left = pieces;
    let mut own = heap.own_properties(object);
    while let Some(property) = own.next() {
        let rest = spelled_left(heap.pool().get(property.name), left)?;
        left = left_after(heap, property.value, levels, rest)?;
    }
    Ok(left)
}
