ghost use Rattle.std.specs.Prelude.{◌≡◌, ◌≤◌, false, IfErr};
ghost use Rattle.rip_heap.specs.Conversions.{text_fault};
ghost use Rattle.rip_nodes.specs.Answers.{AddsTexts, IsAnswered};
ghost use Rattle.rip_nodes.specs.Texts.{are_past, cost_of_text, standing_text, text_span, text_taken, world_with};

use rip_base::{Fault, Limit, Span, Value, text_of_whole};
use rip_heap::{Heap, HostDone};
use rip_values::FixedText;
use std::alloc::Global;

/// The text of a value, where it stands already. A number has none yet, an object none at all.
pub fn standing_text(v: &Value) -> Option<Span>
    ensures { result ≡ standing_text v.now }
{
    let fixed = match v {
        Value::Undefined => FixedText::Undefined,
        Value::Null => FixedText::Null,
        Value::Bool(false) => FixedText::False,
        Value::Bool(true) => FixedText::True,
        Value::NaN => FixedText::NaN,
        Value::Text(span) => return Some(*span),
        Value::Num(_) | Value::Object(_) => return None,
    };
    Some(fixed.span())
}

/// What the text of a value costs, in units.
pub fn cost_of_text(v: &Value) -> u32
    ensures cost { result ≡ cost_of_text v.now }
    ensures few { result ≤ 17 }
{
    match v {
        Value::Num(number) => {
            let mut room = [0; 17];
            text_of_whole(*number, &mut room) as u32
        }
        _ => 0,
    }
}

/// The fault of the conversion of a value to a text.
pub fn text_fault(heap: &Heap, v: &Value) -> Option<Fault>
    ensures { result ≡ text_fault heap.now.pool v.now }
{
    match v {
        Value::Object(_) => Some(Fault::ObjectToPrimitive),
        Value::Num(_) => {
            if cost_of_text(v) > heap.pool().text_limit() {
                Some(Fault::TextTooLong)
            } else {
                None
            }
        }
        _ => None,
    }
}

/// Whether so many units more would pass their limit.
pub fn are_past(heap: &Heap, units: u32) -> bool
    ensures { result ≡ are_past heap.now.pool units }
{
    units > heap.pool().free()
}

/// Makes the text of a value, where the limit is known to leave room.
pub fn make_text(alloc: Global, heap: &mut Heap, v: &Value) -> Span
    requires { are_past heap.old.pool (cost_of_text v.now) ≡ false }
    ensures span { result ≡ text_span heap.old.pool v.now }
    ensures made { heap.new ≡ world_with heap.old v.now }
    ensures adds { AddsTexts heap.old heap.new }
{
    match v {
        Value::Num(number) => {
            let mut room = [0; 17];
            let count = text_of_whole(*number, &mut room);
            heap.add_text(alloc, &room[..count]).unwrap()
        }
        _ => standing_text(v).unwrap_or(FixedText::Empty.span()),
    }
}

/// The text of a value as a member takes it, or what the member answers instead: the fault of the conversion, then the
/// limit of units, which the text costs, and then that of nodes, where what follows would pass it.
pub fn text_arg(alloc: Global, heap: &mut Heap, nodes: bool, v: &Value) -> Result<Span, HostDone>
    ensures text { (result, heap.new) ≡ text_taken heap.old nodes v.now }
    ensures adds { AddsTexts heap.old heap.new }
    ensures refused { IfErr result (λ done. IsAnswered heap.old done heap.new) }
{
    let cost = cost_of_text(v);
    match text_fault(heap, v) {
        Some(fault) => Err(HostDone::Fault(fault)),
        None if are_past(heap, cost) => Err(HostDone::Limit(Limit::Units)),
        None if nodes => Err(HostDone::Limit(Limit::Nodes)),
        None => Ok(make_text(alloc, heap, v)),
    }
}
