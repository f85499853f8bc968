ghost use Rattle.std.specs.Prelude.{◌≡◌};
ghost use Rattle.rip_heap.specs.Growth.{Grows};
ghost use Rattle.rip_heap.specs.Outcome.{Answers};
ghost use Rattle.rip_builtins.specs.Builtins.{builtin, array_function, text_function, plain_function};
ghost use Rattle.rip_builtins.specs.Receivers.{array_of, text_of, on};

use crate::arrays::{index_of, pop, push, slice};
use crate::errors::error;
use crate::globals::string;
use crate::joining::join;
use crate::numbers::{Extreme, is_nan, math_abs, math_extreme, math_floor, number};
use crate::own_properties::has_own_property;
use crate::parse_int::parse_int;
use crate::receivers::{array_of, refused, text_of};
use crate::text_search::place_of;
use crate::texts::{char_at, char_code_at, substring};
use rip_base::{Fault, Value};
use rip_heap::{Abrupt, Class, Heap};
use rip_values::{Builtin, BuiltinHome};
use std::alloc::Global;

/// What a built-in function answers where it is called on `this` with these arguments (ECMA-262 15). An answer other
/// than a value leaves the heap as it was. What is no function of
/// this table is outside the profile here: the objects among the built-ins, and the functions of `ripley`, the
/// document, nodes and events, which others answer.
pub fn builtin(
    alloc: Global,
    heap: &mut Heap,
    which: Builtin,
    this: Value,
    args: &[Value],
) -> Result<Value, Abrupt>
    ensures answers { Answers (builtin heap.old which this args.now) heap.old result
        heap.new }
    ensures grows { Grows heap.old heap.new }
{
    match which.home() {
        BuiltinHome::Array => on_array(alloc, heap, which, this, args),
        BuiltinHome::Text => on_text(alloc, heap, which, this, args),
        BuiltinHome::Global
        | BuiltinHome::Math
        | BuiltinHome::Object
        | BuiltinHome::Function
        | BuiltinHome::Ripley
        | BuiltinHome::Document
        | BuiltinHome::Node
        | BuiltinHome::Event => on_any(alloc, heap, which, this, args),
    }
}

// A function that takes any receiver.
fn on_any(
    alloc: Global,
    heap: &mut Heap,
    which: Builtin,
    this: Value,
    args: &[Value],
) -> Result<Value, Abrupt>
    ensures answers { Answers (plain_function which heap.old this args.now) heap.old result heap.new }
    ensures grows { Grows heap.old heap.new }
{
    match which {
        Builtin::ParseInt => parse_int(alloc, heap, args),
        Builtin::IsNaN => is_nan(heap, args),
        Builtin::String => string(alloc, heap, args),
        Builtin::Number => number(heap, args),
        Builtin::Error => error(alloc, heap, Class::Error, args),
        Builtin::TypeError => error(alloc, heap, Class::TypeError, args),
        Builtin::RangeError => error(alloc, heap, Class::RangeError, args),
        Builtin::MathAbs => math_abs(heap, args),
        Builtin::MathFloor => math_floor(heap, args),
        Builtin::MathMin => math_extreme(Extreme::Least, heap, args),
        Builtin::MathMax => math_extreme(Extreme::Greatest, heap, args),
        Builtin::HasOwnProperty => has_own_property(alloc, heap, this, args),
        _ => Err(Abrupt::Fault(Fault::NotInProfile)),
    }
}

// A function of arrays, called on a value that may be none.
fn on_array(
    alloc: Global,
    heap: &mut Heap,
    which: Builtin,
    this: Value,
    args: &[Value],
) -> Result<Value, Abrupt>
    ensures answers { Answers
        (on (array_of heap.old this) (λ array. array_function which heap.old array args.now))
        heap.old result heap.new }
    ensures grows { Grows heap.old heap.new }
{
    match array_of(heap, this) {
        Ok(array) => match which {
            Builtin::ArrayPush => push(alloc, heap, array, args),
            Builtin::ArrayPop => pop(heap, array),
            Builtin::ArraySlice => slice(alloc, heap, array, args),
            Builtin::ArrayIndexOf => index_of(heap, array, args),
            Builtin::ArrayJoin => join(alloc, heap, array, args),
            _ => Err(Abrupt::Fault(Fault::NotInProfile)),
        },
        Err(reason) => refused(heap, reason),
    }
}

// A function of texts, called on a value that may be none.
fn on_text(
    alloc: Global,
    heap: &mut Heap,
    which: Builtin,
    this: Value,
    args: &[Value],
) -> Result<Value, Abrupt>
    ensures answers { Answers
        (on (text_of this) (λ text. text_function which heap.old text args.now)) heap.old result
        heap.new }
    ensures grows { Grows heap.old heap.new }
{
    match text_of(this) {
        Ok(text) => match which {
            Builtin::TextCharAt => char_at(heap, text, args),
            Builtin::TextCharCodeAt => char_code_at(heap, text, args),
            Builtin::TextSubstring => substring(heap, text, args),
            Builtin::TextIndexOf => place_of(alloc, heap, text, args),
            _ => Err(Abrupt::Fault(Fault::NotInProfile)),
        },
        Err(reason) => refused(heap, reason),
    }
}
