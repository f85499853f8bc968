ghost use Rattle.std.specs.Prelude.{◌≡◌, length};
ghost use Rattle.rip_values.specs.Pool.{text_at};
ghost use Rattle.rip_base.specs.declared.value.Value.TheVariants.{Num};
ghost use Rattle.rip_heap.specs.Conversions.{text_of_value};
ghost use Rattle.rip_heap.specs.Growth.{Grows};
ghost use Rattle.rip_heap.specs.Outcome.{Answers, after_text};
ghost use Rattle.rip_builtins.specs.Arguments.{integer_in, then_gives, value_or_fault};
ghost use Rattle.rip_builtins.specs.Search.{text_index_of, place_in_text, place_of_text};
ghost use Rattle.rip_builtins.specs.Texts.{clamped};

use crate::arguments::{argument, integer_of};
use crate::arrays::place_or_none;
use crate::numerals::behind_numeral;
use crate::outcome::value_done;
use crate::texts::clamped;
use rip_base::{Fault, Span, Value, Whole, text_of_whole};
use rip_heap::{Abrupt, Heap, to_text};
use std::alloc::Global;

// `indexOf` of texts (ECMA-262 15.5.4.7).
pub fn place_of(alloc: Global, heap: &mut Heap, text: Span, args: &[Value]) -> Result<Value, Abrupt>
    ensures answers { Answers (text_index_of heap.old text args.now) heap.old result heap.new }
    ensures grows { Grows heap.old heap.new }
{
    place_of_value(alloc, heap, text, argument(args, 0), argument(args, 1))
}

fn place_of_value(
    alloc: Global,
    heap: &mut Heap,
    text: Span,
    pattern: Value,
    from: Value,
) -> Result<Value, Abrupt>
    ensures answers { Answers
        (after_text (text_of_value heap.old pattern)
        (λ span v. value_or_fault v (place_in_text heap.old.pool text from (text_at v.pool span))))
        heap.old result heap.new }
    ensures grows { Grows heap.old heap.new }
{
    match pattern {
        Value::Num(number) => place_of_numeral(alloc, heap, text, number, from),
        _ => {
            let span = to_text(alloc, heap, pattern)?;
            let answer = place_of_text(heap, text, span, from);
            value_done(heap, answer)
        }
    }
}

// The same of a number, whose numeral is charged where there is an answer.
fn place_of_numeral(
    alloc: Global,
    heap: &mut Heap,
    text: Span,
    number: Whole,
    from: Value,
) -> Result<Value, Abrupt>
    ensures answers { Answers
        (after_text (text_of_value heap.old (Num number))
        (λ span v. value_or_fault v (place_in_text heap.old.pool text from (text_at v.pool span))))
        heap.old result heap.new }
    ensures grows { Grows heap.old heap.new }
{
    let mut room = [0; 17];
    let count = text_of_whole(number, &mut room);
    let answer = place_of_units(heap, text, &room[..count], from);
    behind_numeral(alloc, heap, number, answer)
}

// Where the pattern, a text of the heap, stands in the text from a value on.
fn place_of_text(heap: &mut Heap, text: Span, pattern: Span, from: Value) -> Result<Value, Fault>
    ensures answer { result
        ≡ place_in_text heap.old.pool text from (text_at heap.old.pool pattern) }
    ensures same { heap.new ≡ heap.old }
{
    let start = start_in(heap, text, from)?;
    Ok(place_or_none(heap.place_of_text(text, start, pattern)))
}

// The same of units that are no text of the heap.
fn place_of_units(heap: &mut Heap, text: Span, pattern: &[u16], from: Value) -> Result<Value, Fault>
    ensures answer { result ≡ place_in_text heap.old.pool text from pattern.now }
    ensures same { heap.new ≡ heap.old }
{
    let start = start_in(heap, text, from)?;
    Ok(place_or_none(heap.place_in_text(text, start, pattern)))
}

// The place in the text that the search begins at, by the integer of a value.
fn start_in(heap: &Heap, text: Span, from: Value) -> Result<u32, Fault>
    ensures { result ≡ then_gives (integer_in heap.now.pool from)
        (clamped (length (text_at heap.now.pool text))) }
{
    let place = integer_of(heap, from)?;
    Ok(clamped(heap.pool().get(text).len(), place) as u32)
}
