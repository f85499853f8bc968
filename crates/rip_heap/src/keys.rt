ghost use Rattle.std.specs.Prelude.{◌≡◌, nat_eq, Ok};
ghost use Rattle.std.specs.Cmp.Lexicographic.{pointwise};
ghost use Rattle.std.specs.Fmt.{signed_decimal};
ghost use Rattle.rip_heap.specs.Keys.{look_up, looked_up, is_barred, is_underscored, is_of_object_prototype, is_named, is_index, begins_with_digit, index_of, index_if};

use crate::class::Class;
use crate::convert::to_number;
use crate::heap::Heap;
use rip_base::{Numeral, Span, Value, Whole, text_of_whole};
use rip_heap_region::chains::same_text;
use rip_values::FixedText;

/// Where the look-up of a name along prototypes ends.
#[derive(Clone, Copy, Debug, PartialEq, Eq)]
pub enum Found {
    Here,
    /// At an object on which every use of the name is outside the profile.
    Barred,
    Nowhere,
}

/// What the look-up of a name along prototypes hands back.
#[derive(Clone, Copy, Debug, PartialEq, Eq)]
pub enum LookedUp {
    Value(Value),
    /// The name came to an object on which every use of it is outside the profile.
    Barred,
    Nowhere,
}

/// The name of a property as an access has it, behind its conversion to a text.
#[derive(Clone, Copy, Debug, PartialEq, Eq)]
pub enum Key {
    Name(Span),
    /// An index of an array or a text, which is not made a text.
    Index(u32),
}

/// What the target of an assignment means (ECMA-262 8.7): a property of a value.
#[derive(Clone, Copy, Debug, PartialEq, Eq)]
pub struct Reference {
    pub base: Value,
    pub key: Key,
}

const UNDERSCORE: u16 = 0x5F;

const ZERO: u16 = 0x30;

const NINE: u16 = 0x39;

/// The greatest index of an array.
const GREATEST_INDEX: i64 = 4_294_967_294;

/// Whether the name is this fixed text.
pub fn is_named(heap: &Heap, name: Span, fixed: FixedText) -> bool
    ensures { result ≡ is_named heap.now.pool name fixed }
{
    same_text(heap.pool(), name, fixed.span())
}

/// Whether a name begins with two underscores.
pub fn is_underscored(name: &[u16]) -> bool
    ensures { result ≡ is_underscored name.now }
{
    match name {
        [first, second, ..] => *first == UNDERSCORE && *second == UNDERSCORE,
        _ => false,
    }
}

/// Whether a whole number is an index of an array (ECMA-262 15.4).
pub fn is_index(key: i64) -> bool
    ensures { result ≡ is_index key }
{
    0 <= key && key <= GREATEST_INDEX
}

/// The index whose decimal numeral the name is, if it is one.
#[tactic(auto, using(crate::proofs::IndexLemmas::no_index))]
pub fn index_of(heap: &Heap, name: Span) -> Option<u32>
    ensures { result ≡ index_of heap.now.pool name }
{
    let text = heap.pool().get(name);
    if !begins_with_digit(text) {
        return None;
    }
    match to_number(heap, Value::Text(name)) {
        Ok(number) => index_if(text, number),
        Err(_) => None,
    }
}

// Whether a name begins with a digit, as the numeral of each index does.
fn begins_with_digit(name: &[u16]) -> bool
    ensures { result ≡ begins_with_digit name.now }
{
    match name {
        [first, ..] => ZERO <= *first && *first <= NINE,
        [] => false,
    }
}

fn index_if(name: &[u16], number: Numeral) -> Option<u32>
    ensures { result ≡ index_if name.now (Ok number) }
{
    match number {
        Numeral::Num(whole) => if is_index(whole.get()) && is_numeral(name, whole) {
            Some(whole.get() as u32)
        } else {
            None
        },
        Numeral::NaN => None,
    }
}

fn is_numeral(name: &[u16], number: Whole) -> bool
    ensures { result ≡ pointwise nat_eq name.now (signed_decimal number) }
{
    let mut room = [0; 17];
    let count = text_of_whole(number, &mut room);
    name == &room[..count]
}

/// Whether the name is one of the standard's `Object.prototype` that the profile does not have.
pub fn is_of_object_prototype(heap: &Heap, name: Span) -> bool
    ensures { result ≡ is_of_object_prototype heap.now.pool name }
{
    is_named(heap, name, FixedText::Constructor)
        || is_named(heap, name, FixedText::ToString)
        || is_named(heap, name, FixedText::ToLocaleString)
        || is_named(heap, name, FixedText::ValueOf)
        || is_named(heap, name, FixedText::IsPrototypeOf)
        || is_named(heap, name, FixedText::PropertyIsEnumerable)
}

/// Whether no object of this class has the name in the profile, whatever was put there.
pub fn is_barred(heap: &Heap, name: Span, class: Class) -> bool
    ensures { result ≡ is_barred heap.now.pool name class }
{
    match class {
        Class::Code => is_named(heap, name, FixedText::Name)
            || is_named(heap, name, FixedText::Message),
        Class::Prototype => is_named(heap, name, FixedText::Constructor),
        _ => false,
    }
}

/// Where the look-up of a name ends, from the object on and along its prototypes (ECMA-262 8.12.2).
pub fn look_up(heap: &Heap, object: u32, name: Span) -> Found
    ensures { result ≡ look_up heap.now object name }
{
    match looked_up(heap, object, name) {
        LookedUp::Value(_) => Found::Here,
        LookedUp::Barred => Found::Barred,
        LookedUp::Nowhere => Found::Nowhere,
    }
}

/// What that look-up hands back: the value of the property, where it ends at one (ECMA-262 8.12.3).
#[tactic(auto, using(crate::proofs::LookUpLemmas::looked_up_step))]
pub fn looked_up(heap: &Heap, object: u32, name: Span) -> LookedUp
    ensures { result ≡ looked_up heap.now object name }
{
    let _ = &heap.parts.named;
    let mut at = Some(object);
    while let Some(number) = at {
        let Some(found) = heap.object(number) else {
            return LookedUp::Nowhere;
        };
        if is_barred(heap, name, found.class) {
            return LookedUp::Barred;
        }
        if let Some(value) = heap.own(number, name) {
            return LookedUp::Value(value);
        }
        at = found.proto;
    }
    LookedUp::Nowhere
}
