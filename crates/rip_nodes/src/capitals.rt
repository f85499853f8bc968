ghost use Rattle.std.specs.Prelude.{◌≡◌, ◌+◌, ◌≤◌, length};
ghost use Rattle.rip_values.specs.Pool.{span_behind, text_at};
ghost use Rattle.rip_nodes.specs.Answers.{AddsTexts, IsAnswered, new_text, with_new_text};
ghost use Rattle.rip_dom.specs.Letters.{text_in};

use crate::answer::text_value;
use rip_base::{Fault, Limit, Span};
use rip_dom::{Letters, push_in};
use rip_heap::{Heap, HostDone};
use std::alloc::Global;

/// A new text: this one in capitals. Its length is judged before its charge.
pub(crate) fn capitals(alloc: Global, heap: &mut Heap, name: Span) -> HostDone
    ensures answer { (result, heap.new) ≡
        new_text heap.old (text_in Letters.Capital (text_at heap.old.pool name)) }
    ensures adds { AddsTexts heap.old heap.new }
    ensures answered { IsAnswered heap.old result heap.new }
{
    let count = heap.pool().get(name).len();
    if count > heap.pool().text_limit() as usize {
        return HostDone::Fault(Fault::TextTooLong);
    }
    if count > heap.pool().free() as usize {
        return HostDone::Limit(Limit::Units);
    }
    let span = add_capitals(alloc, heap, name);
    HostDone::Value(text_value(heap, span))
}

// The text in capitals behind all others, where the limit is known to leave room.
fn add_capitals(alloc: Global, heap: &mut Heap, name: Span) -> Span
    requires { heap.old.pool.used + length (text_at heap.old.pool name) ≤ heap.old.pool.limit }
    ensures span { result
        ≡ span_behind heap.old.pool (text_in Letters.Capital (text_at heap.old.pool name)) }
    ensures made { heap.new
        ≡ with_new_text heap.old (text_in Letters.Capital (text_at heap.old.pool name)) }
    ensures adds { AddsTexts heap.old heap.new }
{
    heap.with_texts(&mut |pool| push_in(alloc, pool, name, Letters::Capital))
}
