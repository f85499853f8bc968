ghost use Rattle.std.specs.Prelude.{◌≡◌};
ghost use Rattle.rip_heap.specs.Growth.{Grows};
ghost use Rattle.rip_heap.specs.Holders.{IsAsked, asking, asking_by, holder_of, not_in_profile};
ghost use Rattle.rip_heap.specs.Outcome.{Answers};
ghost use Rattle.rip_heap.specs.World.{object_at};

use crate::class::Class;
use crate::convert::{room_for_numeral, to_text};
use crate::heap::Heap;
use crate::outcome::Abrupt;
use rip_base::{Fault, Span, Value, Whole};
use std::alloc::Global;

/// What an object is to a call that asks whether it has a property.
#[derive(Clone, Copy, Debug, PartialEq, Eq)]
pub enum Holder {
    PlainObject,
    ArrayObject,
    OtherObject,
}

/// What the object of that number is to such a call.
pub fn holder_of(heap: &Heap, number: u32) -> Holder
    ensures { result ≡ holder_of (object_at heap.now number) }
{
    match heap.object(number) {
        Some(object) => match object.class {
            Class::Plain | Class::Prototype | Class::Code => Holder::PlainObject,
            Class::Array => Holder::ArrayObject,
            _ => Holder::OtherObject,
        },
        None => Holder::OtherObject,
    }
}

/// The fault NotInProfile, behind the conversion of the key.
pub fn not_in_profile(heap: &Heap, key: Value) -> Result<Value, Abrupt>
    ensures { Answers (not_in_profile heap.now key) heap.now result heap.now }
{
    match key {
        Value::Object(_) => Err(Abrupt::Fault(Fault::ObjectToPrimitive)),
        Value::Num(number) => {
            room_for_numeral(heap, number)?;
            Err(Abrupt::Fault(Fault::NotInProfile))
        }
        _ => Err(Abrupt::Fault(Fault::NotInProfile)),
    }
}

/// What a key asks of an object, behind the conversion of the key.
#[derive(Clone, Copy, Debug, PartialEq, Eq)]
pub enum Asked {
    /// Of a plain object, a name.
    Name(Span),
    /// Of a plain object, the numeral of a number, which is made for it.
    Numeral(Span),
    /// Of an array, a number, which is not converted.
    Element(Whole),
    /// Of an array, a name.
    ArrayName(Span),
}

/// What the key asks of the object of that number. No heap but that with a numeral differs from the one before.
pub fn asked_of(alloc: Global, heap: &mut Heap, object: u32, key: Value) -> Result<Asked, Abrupt>
    ensures asks { IsAsked (asking heap.old object key) heap.old result heap.new }
    ensures grows { Grows heap.old heap.new }
{
    let holder = holder_of(heap, object);
    asked_by(alloc, heap, holder, key)
}

fn asked_by(alloc: Global, heap: &mut Heap, holder: Holder, key: Value) -> Result<Asked, Abrupt>
    ensures asks { IsAsked (asking_by holder heap.old key) heap.old result heap.new }
    ensures grows { Grows heap.old heap.new }
{
    match (holder, key) {
        (Holder::PlainObject, Value::Num(_)) => Ok(Asked::Numeral(to_text(alloc, heap, key)?)),
        (Holder::PlainObject, _) => Ok(Asked::Name(to_text(alloc, heap, key)?)),
        (Holder::ArrayObject, Value::Num(number)) => Ok(Asked::Element(number)),
        (Holder::ArrayObject, _) => Ok(Asked::ArrayName(to_text(alloc, heap, key)?)),
        (Holder::OtherObject, _) => {
            not_in_profile(heap, key)?;
            Err(Abrupt::Fault(Fault::NotInProfile))
        }
    }
}
