ghost use Rattle.std.specs.Prelude.{◌≡◌, ◌+◌, ◌≤◌, ◌^◌, ◌∷◌, OnOk, IfErr, Ok, Err, length, min, take};
ghost use Rattle.rip_base.specs.declared.value.Value.TheVariants.{Text};
ghost use Rattle.rip_heap.specs.Arrays.{elements_at};
ghost use Rattle.rip_heap.specs.Growth.{Grows};
ghost use Rattle.rip_heap.specs.Outcome.{Answers, Gives};
ghost use Rattle.rip_builtins.specs.Joining.{join, join_items, converted, charged, all_charged};
ghost use Rattle.rip_builtins.specs.Pieces.{gap, item_at, joined_in, piece_in, with_units};

use crate::arguments::argument;
use crate::pieces::{Piece, add_piece, piece_length, piece_of_element, piece_of_separator};
use rip_base::{Fault, Limit, Span, Value, text_of_whole};
use rip_heap::{Abrupt, Halt, Heap, to_text};
use std::alloc::Global;

// `join` (ECMA-262 15.4.4.5).
pub fn join(alloc: Global, heap: &mut Heap, array: u32, args: &[Value]) -> Result<Value, Abrupt>
    ensures answers { Answers (join heap.old array args.now) heap.old result heap.new }
    ensures grows { Grows heap.old heap.new }
{
    let separator = argument(args, 0);
    match all_charged(heap, &separator, array) {
        Ok(used) => join_charged(alloc, heap, &separator, array, used),
        Err(halt) => Err(halt.into()),
    }
}

// The units that are charged behind the conversions of all values, the separator's first.
fn all_charged(heap: &Heap, separator: &Value, array: u32) -> Result<u32, Halt>
    ensures { result ≡ all_charged heap.now.pool heap.now.pool.used
        (separator.now ∷ elements_at heap.now array) }
{
    let used = charged(heap, heap.pool().used(), *separator)?;
    all_charged_behind(heap, used, array)
}

fn all_charged_behind(heap: &Heap, before: u32, array: u32) -> Result<u32, Halt>
    ensures { result ≡ all_charged heap.now.pool before (elements_at heap.now array) }
{
    let mut used = before;
    for place in 0..heap.count(array) {
        used = charged(heap, used, item(heap, array, place))?;
    }
    Ok(used)
}

// The units that are charged behind the conversion of the value.
fn charged(heap: &Heap, used: u32, v: Value) -> Result<u32, Halt>
    ensures { result ≡ charged heap.now.pool used v }
{
    match v {
        Value::Num(number) => {
            let mut room = [0; 17];
            let count = text_of_whole(number, &mut room);
            if count > heap.pool().text_limit() as usize {
                return Err(Halt::Fault(Fault::TextTooLong));
            }
            let more = u64::from(used) + count as u64;
            if more <= u64::from(heap.pool().limit()) {
                Ok(more as u32)
            } else {
                Err(Halt::Limit(Limit::Units))
            }
        }
        Value::Object(_) => Err(Halt::Fault(Fault::ObjectToPrimitive)),
        _ => Ok(used),
    }
}

// The element at this place; past the end it is undefined.
fn item(heap: &Heap, array: u32, place: u32) -> Value
    ensures { result ≡ item_at (elements_at heap.now array) place }
{
    heap.item(array, place).unwrap_or(Value::Undefined)
}

// The call behind the conversions, which can be charged. Nothing is changed before the text is judged.
fn join_charged(
    alloc: Global,
    heap: &mut Heap,
    separator: &Value,
    array: u32,
    used: u32,
) -> Result<Value, Abrupt>
    requires { all_charged heap.old.pool heap.old.pool.used
        (separator.now ∷ elements_at heap.old array) ≡ Ok used }
    ensures answers { Answers (join_items heap.old separator.now (elements_at heap.old array))
        heap.old result heap.new }
    ensures grows { Grows heap.old heap.new }
{
    let most = heap.pool().text_limit() as usize;
    let length = joined_length(heap, separator, array, most + 1);
    if length > most {
        return Err(Abrupt::Fault(Fault::TextTooLong));
    }
    if u64::from(used) + length as u64 > u64::from(heap.pool().limit()) {
        return Err(Abrupt::Limit(Limit::Units));
    }
    let text = add_joined(alloc, heap, separator, array, used);
    Ok(Value::Text(text))
}

// The length of the joined text, or `most` where it is larger.
fn joined_length(heap: &Heap, separator: &Value, array: u32, most: usize) -> usize
    requires { most ≤ 2 ^ 32 }
    ensures { result ≡ min
        (length (joined_in heap.now.pool.units separator.now (elements_at heap.now array))) most }
{
    let between = piece_length(heap, piece_of_separator(*separator));
    let mut length = 0;
    for place in 0..heap.count(array) {
        let before = if place == 0 { 0 } else { between };
        let more = piece_length(heap, piece_of_element(item(heap, array, place)));
        length = (length + before + more).min(most);
    }
    length
}

// Makes all values texts, and then the joined text, for all of which there is room. The pieces are added one behind
// another at the end of the pool, where they are one text.
fn add_joined(alloc: Global, heap: &mut Heap, separator: &Value, array: u32, used: u32) -> Span
    requires charged { all_charged heap.old.pool heap.old.pool.used
        (separator.now ∷ elements_at heap.old array) ≡ Ok used }
    requires within { length
        (joined_in heap.old.pool.units separator.now (elements_at heap.old array))
        ≤ heap.old.pool.text_limit }
    requires room { used + length
        (joined_in heap.old.pool.units separator.now (elements_at heap.old array))
        ≤ heap.old.pool.limit }
    ensures gives { join_items heap.old separator.now (elements_at heap.old array)
        ≡ Gives (Text result) heap.new }
    ensures grows { Grows heap.old heap.new }
{
    let end = heap.pool().end();
    convert_all(alloc, heap, separator, array).unwrap();
    let start = heap.pool().end();
    add_pieces(alloc, heap, separator, array, end);
    let count = heap.pool().end() - start;
    Span { start, count }
}

// Makes all values texts, the separator first.
fn convert_all(alloc: Global, heap: &mut Heap, separator: &Value, array: u32) -> Result<(), Halt>
    ensures made { OnOk result
        (converted heap.old (separator.now ∷ elements_at heap.old array) ≡ Ok heap.new) }
    ensures halts { IfErr result
        (λ halt. converted heap.old (separator.now ∷ elements_at heap.old array) ≡ Err halt) }
    ensures grows { Grows heap.old heap.new }
{
    to_text(alloc, heap, *separator)?;
    convert_items(alloc, heap, array)
}

fn convert_items(alloc: Global, heap: &mut Heap, array: u32) -> Result<(), Halt>
    ensures made { OnOk result (converted heap.old (elements_at heap.old array) ≡ Ok heap.new) }
    ensures halts { IfErr result
        (λ halt. converted heap.old (elements_at heap.old array) ≡ Err halt) }
    ensures grows { Grows heap.old heap.new }
{
    for place in 0..heap.count(array) {
        let v = item(heap, array, place);
        to_text(alloc, heap, v)?;
    }
    Ok(())
}

// Adds the texts of the elements, each but the first behind the separator. Texts are read as they stood when the pool
// ended there.
fn add_pieces(alloc: Global, heap: &mut Heap, separator: &Value, array: u32, end: u32)
    requires end { end ≤ length heap.old.pool.units }
    requires room { heap.old.pool.used + length
        (joined_in (take end heap.old.pool.units) separator.now (elements_at heap.old array))
        ≤ heap.old.pool.limit }
    ensures added { heap.new ≡ with_units heap.old
        (joined_in (take end heap.old.pool.units) separator.now (elements_at heap.old array)) }
    ensures grows { Grows heap.old heap.new }
{
    let between = piece_of_separator(*separator);
    for place in 0..heap.count(array) {
        let piece = piece_of_element(item(heap, array, place));
        add_gap(alloc, heap, &between, place, end);
        add_piece(alloc, heap, piece, end);
    }
}

// Adds what stands before the element at this place.
fn add_gap(alloc: Global, heap: &mut Heap, between: &Piece, place: u32, end: u32)
    requires end { end ≤ length heap.old.pool.units }
    requires room { heap.old.pool.used + length
        (gap place (piece_in (take end heap.old.pool.units) between.now)) ≤ heap.old.pool.limit }
    ensures added { heap.new ≡ with_units heap.old
        (gap place (piece_in (take end heap.old.pool.units) between.now)) }
    ensures grows { Grows heap.old heap.new }
{
    let piece = if place == 0 { Piece::Nothing } else { *between };
    add_piece(alloc, heap, piece, end);
}
