ghost use Rattle.std.specs.Prelude.{◌≡◌, ◌+◌, ◌<◌, ◌≤◌, ◌^◌, length, min, take};
ghost use Rattle.rip_heap.specs.Growth.{Grows};
ghost use Rattle.rip_builtins.specs.declared.pieces.Piece.TheVariants.{Part};
ghost use Rattle.rip_builtins.specs.Pieces.{piece_in, piece_of_element, piece_of_separator, piece_of_value, with_units};

use crate::arguments::fixed_span;
use rip_base::{Span, Value, Whole, text_of_whole};
use rip_heap::Heap;
use rip_values::FixedText;
use std::alloc::Global;

const COMMA: [u16; 1] = [0x2C];

/// The span of no text.
const NOWHERE: Span = Span { start: 0, count: 0 };

/// A text that is joined to others: how it is found.
#[derive(Clone, Copy, Debug, PartialEq, Eq)]
pub enum Piece {
    Nothing,
    Comma,
    Numeral(Whole),
    /// A text of the pool.
    Part(Span),
}

// The text that stands between the elements: a comma, if the value is undefined.
pub fn piece_of_separator(v: Value) -> Piece
    ensures { result ≡ piece_of_separator v }
{
    match v {
        Value::Undefined => Piece::Comma,
        _ => piece_of_value(v),
    }
}

// The text of an element, of which null and undefined are empty.
pub fn piece_of_element(v: Value) -> Piece
    ensures { result ≡ piece_of_element v }
{
    match v {
        Value::Undefined | Value::Null => Piece::Nothing,
        _ => piece_of_value(v),
    }
}

// The text of a value, of which an object has none.
fn piece_of_value(v: Value) -> Piece
    ensures { result ≡ piece_of_value v }
{
    match v {
        Value::Undefined => Piece::Part(fixed_span(FixedText::Undefined)),
        Value::Null => Piece::Part(fixed_span(FixedText::Null)),
        Value::Bool(true) => Piece::Part(fixed_span(FixedText::True)),
        Value::Bool(false) => Piece::Part(fixed_span(FixedText::False)),
        Value::Num(number) => Piece::Numeral(number),
        Value::NaN => Piece::Part(fixed_span(FixedText::NaN)),
        Value::Text(span) => Piece::Part(span),
        Value::Object(_) => Piece::Nothing,
    }
}

// How many units the text has.
pub fn piece_length(heap: &Heap, piece: Piece) -> usize
    ensures length { result ≡ length (piece_in heap.now.pool.units piece) }
    ensures bound { result < 2 ^ 32 }
{
    match piece {
        Piece::Nothing => 0,
        Piece::Comma => COMMA.len(),
        Piece::Numeral(number) => {
            let mut room = [0; 17];
            text_of_whole(number, &mut room)
        }
        Piece::Part(span) => heap.pool().get(span).len(),
    }
}

// Adds the text behind all others. A text of the pool is read as it stood when the pool ended there.
pub fn add_piece(alloc: Global, heap: &mut Heap, piece: Piece, end: u32)
    requires end { end ≤ length heap.old.pool.units }
    requires room { heap.old.pool.used + length (piece_in (take end heap.old.pool.units) piece)
        ≤ heap.old.pool.limit }
    ensures added { heap.new
        ≡ with_units heap.old (piece_in (take end heap.old.pool.units) piece) }
    ensures grows { Grows heap.old heap.new }
{
    match piece {
        Piece::Nothing => add_units(alloc, heap, &[]),
        Piece::Comma => add_units(alloc, heap, &COMMA),
        Piece::Numeral(number) => {
            let mut room = [0; 17];
            let count = text_of_whole(number, &mut room);
            add_units(alloc, heap, &room[..count]);
        }
        Piece::Part(span) => add_part(alloc, heap, below(span, end)),
    }
}

fn add_units(alloc: Global, heap: &mut Heap, units: &[u16])
    requires { heap.old.pool.used + length units.now ≤ heap.old.pool.limit }
    ensures added { heap.new ≡ with_units heap.old units.now }
    ensures grows { Grows heap.old heap.new }
{
    heap.add_text(alloc, units).unwrap();
}

fn add_part(alloc: Global, heap: &mut Heap, part: Span)
    requires { heap.old.pool.used + length (piece_in heap.old.pool.units (Part part))
        ≤ heap.old.pool.limit }
    ensures added { heap.new
        ≡ with_units heap.old (piece_in heap.old.pool.units (Part part)) }
    ensures grows { Grows heap.old heap.new }
{
    heap.concat(alloc, part, NOWHERE).unwrap();
}

// The part of the span below this end.
fn below(span: Span, end: u32) -> Span
    ensures start { result.start ≡ min span.start end }
    ensures end { result.start + result.count ≡ min (span.start + span.count) end }
{
    let start = span.start.min(end);
    let behind = (u64::from(span.start) + u64::from(span.count)).min(u64::from(end));
    Span {
        start,
        count: behind as u32 - start,
    }
}
