ghost use Rattle.std.specs.Prelude.{◌≡◌, ◌+◌, ◌<◌, ◌≤◌, IfSome};
ghost use Rattle.rip_values.specs.FixedSearch.{fixed_text};
ghost use Rattle.rip_values.specs.Pool.{text_at};
ghost use Rattle.rip_heap.specs.Growth.{Belongs};
ghost use Rattle.rip_heap.specs.World.{World, first_node};
ghost use Rattle.rip_dom.specs.Tree.{is_element};
ghost use Rattle.rip_nodes.specs.Answers.{IsAnswered, attribute_value, is_document, node_value, node_or_null, text_or_null, text_value};
ghost use Rattle.rip_nodes.specs.Reading.{fixed_value, method, node_text};

use rip_base::{Fault, NodeKind, Span, Value};
use rip_heap::{Heap, HostDone};
use rip_values::{Builtin, FIRST_NODE, FixedText};

pub fn outside() -> HostDone
    ensures { result ≡ HostDone.Fault Fault.NotInProfile }
{
    HostDone::Fault(Fault::NotInProfile)
}

/// A node as a value.
pub fn node_value(n: u32) -> Value
    requires { n < first_node }
    ensures value { result ≡ node_value n }
    ensures belongs { (w : World) → Belongs w result }
{
    Value::Object(FIRST_NODE + n)
}

/// A node as a value, or null where there is none.
pub fn node_or_null(n: Option<u32>) -> Value
    requires { IfSome n (λ n. n < first_node) }
    ensures value { result ≡ node_or_null n }
    ensures belongs { (w : World) → Belongs w result }
{
    match n {
        Some(n) => node_value(n),
        None => Value::Null,
    }
}

/// A text of the heap as a value.
pub fn text_value(heap: &Heap, span: Span) -> Value
    ensures value { result ≡ text_value heap.now span }
    ensures belongs { Belongs heap.now result }
{
    Value::Text(heap.pool().held(span))
}

/// A text as a value, or null where there is none.
pub(crate) fn text_or_null(heap: &Heap, span: Option<Span>) -> Value
    ensures value { result ≡ text_or_null heap.now span }
    ensures belongs { Belongs heap.now result }
{
    match span {
        Some(span) => text_value(heap, span),
        None => Value::Null,
    }
}

/// A fixed text as a value.
pub(crate) fn fixed_value(heap: &Heap, fixed: FixedText) -> Value
    ensures value { result ≡ fixed_value heap.now fixed }
    ensures belongs { Belongs heap.now result }
{
    text_value(heap, fixed.span())
}

/// The value of an attribute; where it is absent, the empty text.
pub(crate) fn attribute_value(heap: &Heap, value: Option<Span>) -> Value
    ensures value { result ≡ attribute_value heap.now value }
    ensures belongs { Belongs heap.now result }
{
    match value {
        Some(span) => text_value(heap, span),
        None => fixed_value(heap, FixedText::Empty),
    }
}

/// The text of a text or comment; other nodes have null.
pub(crate) fn node_text(heap: &Heap, kind: NodeKind, text: Option<Span>) -> Value
    ensures value { result ≡ node_text heap.now kind text }
    ensures belongs { Belongs heap.now result }
{
    match kind {
        NodeKind::Text | NodeKind::Comment => text_or_null(heap, text),
        NodeKind::Element | NodeKind::Document => Value::Null,
    }
}

/// A function as the member of a node that has it.
pub(crate) fn method(has: bool, b: Builtin, heap: &Heap) -> HostDone
    ensures answer { (result, heap.now) ≡ method has b heap.now }
    ensures answered { IsAnswered heap.now result heap.now }
{
    let _ = heap;
    if has {
        HostDone::Value(Value::Object(b.number()))
    } else {
        outside()
    }
}

pub(crate) fn is_document(kind: NodeKind) -> bool
    ensures { result ≡ is_document kind }
{
    matches!(kind, NodeKind::Document)
}

pub(crate) fn is_element(kind: NodeKind) -> bool
    ensures { result ≡ is_element kind }
{
    matches!(kind, NodeKind::Element)
}

/// The member that a name is, where the profile has it somewhere.
pub fn member_named(heap: &Heap, name: Span) -> Option<FixedText>
    ensures { result ≡ fixed_text (text_at heap.now.pool name) }
{
    FixedText::of(heap.pool().get(name))
}
