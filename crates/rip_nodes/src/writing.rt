ghost use Rattle.std.specs.Prelude.{◌≡◌, ◌<◌, true, false, length};
ghost use Rattle.rip_values.specs.Pool.{text_at};
ghost use Rattle.rip_dom.specs.Attributes.{is_attribute_name};
ghost use Rattle.rip_dom.specs.Tree.{is_document, node_at};
ghost use Rattle.rip_dom.specs.Writing.{is_empty, is_past};
ghost use Rattle.rip_heap.specs.Conversions.{span_of};
ghost use Rattle.rip_nodes.specs.Answers.{AddsTexts, IsAnswered, KeepsTree};
ghost use Rattle.rip_nodes.specs.Texts.{text_span};
ghost use Rattle.rip_nodes.specs.Writing.{attribute_written, node_value_written, node_written, or_empty, text_content_written, text_written};

use crate::answer::{is_element, outside};
use crate::attributes::give_attribute;
use crate::member::NodeMember;
use crate::texts::{cost_of_text, standing_text, text_arg};
use rip_base::{Limit, NodeKind, Span, Value};
use rip_dom::Dom;
use rip_heap::{Heap, HostDone};
use rip_values::FixedText;
use std::alloc::Global;

/// The name of the attribute that `id` stands for.
const ID: [u16; 2] = [105, 100];

/// Writes this member of a node, where the text `class` stands at that span.
pub fn write_member(
    alloc: Global,
    heap: &mut Heap,
    dom: &mut Dom,
    class: Span,
    n: u32,
    member: NodeMember,
    v: &Value,
) -> HostDone
    requires node { n < length dom.old.nodes }
    requires class { is_attribute_name (text_at heap.old.pool class) ≡ true }
    ensures answer { (result, heap.new, dom.new) ≡
        node_written heap.old dom.old class n member v.now }
    ensures adds { AddsTexts heap.old heap.new }
    ensures answered { IsAnswered heap.old result heap.new }
    ensures kept { KeepsTree dom.old result dom.new }
{
    match member {
        NodeMember::NodeValue => write_node_value(alloc, heap, dom, n, v),
        NodeMember::TextContent => write_text_content(alloc, heap, dom, n, v),
        NodeMember::Id => {
            let id = id_span(heap);
            write_attribute(alloc, heap, dom, n, id, v)
        }
        NodeMember::ClassName => write_attribute(alloc, heap, dom, n, class, v),
        _ => outside(),
    }
}

// Where the name `id` stands.
fn id_span(heap: &Heap) -> Span
    ensures span { result ≡ span_of FixedText.Id }
    ensures legal { is_attribute_name (text_at heap.now.pool result) ≡ true }
{
    match heap.pool().fixed(&ID) {
        Some(span) => span,
        None => FixedText::Id.span(),
    }
}

// Of a text or comment.
fn write_node_value(alloc: Global, heap: &mut Heap, dom: &mut Dom, n: u32, v: &Value) -> HostDone
    requires { n < length dom.old.nodes }
    ensures answer { (result, heap.new, dom.new) ≡
        node_value_written heap.old dom.old n (node_at dom.old n).kind v.now }
    ensures adds { AddsTexts heap.old heap.new }
    ensures answered { IsAnswered heap.old result heap.new }
    ensures kept { KeepsTree dom.old result dom.new }
{
    match dom.kind(n) {
        NodeKind::Text | NodeKind::Comment => write_text(alloc, heap, dom, n, &or_empty(v)),
        NodeKind::Document | NodeKind::Element => outside(),
    }
}

// Of all but the document.
fn write_text_content(alloc: Global, heap: &mut Heap, dom: &mut Dom, n: u32, v: &Value) -> HostDone
    requires { n < length dom.old.nodes }
    ensures answer { (result, heap.new, dom.new) ≡
        text_content_written heap.old dom.old n (node_at dom.old n).kind v.now }
    ensures adds { AddsTexts heap.old heap.new }
    ensures answered { IsAnswered heap.old result heap.new }
    ensures kept { KeepsTree dom.old result dom.new }
{
    match dom.kind(n) {
        NodeKind::Document => outside(),
        _ => write_text(alloc, heap, dom, n, &or_empty(v)),
    }
}

// The text of the value is written, in place of a text or of all children.
#[tactic(auto, using(crate::proofs::LimitLemmas::limit_of_written))]
fn write_text(alloc: Global, heap: &mut Heap, dom: &mut Dom, n: u32, v: &Value) -> HostDone
    requires node { n < length dom.old.nodes }
    requires kind { is_document (node_at dom.old n).kind ≡ false }
    ensures answer { (result, heap.new, dom.new) ≡ text_written heap.old dom.old n v.now }
    ensures adds { AddsTexts heap.old heap.new }
    ensures answered { IsAnswered heap.old result heap.new }
    ensures kept { KeepsTree dom.old result dom.new }
{
    let past = is_past(heap, dom, n, v);
    match text_arg(alloc, heap, past, v) {
        Ok(text) => match dom.write_text(alloc, n, text) {
            Ok(()) => HostDone::Value(Value::Undefined),
            Err(_) => HostDone::Limit(Limit::Nodes),
        },
        Err(done) => done,
    }
}

// Whether the node of the text would pass the limit.
fn is_past(heap: &Heap, dom: &Dom, n: u32, v: &Value) -> bool
    ensures { result ≡ is_past dom.now n (text_span heap.now.pool v.now) }
{
    is_element(dom.kind(n)) && !is_empty(heap, v) && dom.used() >= dom.limit()
}

// Whether the text of the value has no units.
fn is_empty(heap: &Heap, v: &Value) -> bool
    ensures { result ≡ is_empty (text_span heap.now.pool v.now) }
{
    let _ = heap;
    let count = match v {
        Value::Num(_) => cost_of_text(v),
        _ => standing_text(v).unwrap_or(FixedText::Empty.span()).count,
    };
    count == 0
}

// Null and undefined are written as the empty text.
fn or_empty(v: &Value) -> Value
    ensures { result ≡ or_empty v.now }
{
    match v {
        Value::Undefined | Value::Null => Value::Text(FixedText::Empty.span()),
        _ => *v,
    }
}

// An attribute that a member of elements stands for.
fn write_attribute(
    alloc: Global,
    heap: &mut Heap,
    dom: &mut Dom,
    n: u32,
    name: Span,
    v: &Value,
) -> HostDone
    requires node { n < length dom.old.nodes }
    requires legal { is_attribute_name (text_at heap.old.pool name) ≡ true }
    ensures answer { (result, heap.new, dom.new) ≡
        attribute_written heap.old dom.old n (node_at dom.old n).kind name v.now }
    ensures adds { AddsTexts heap.old heap.new }
    ensures answered { IsAnswered heap.old result heap.new }
    ensures kept { KeepsTree dom.old result dom.new }
{
    if is_element(dom.kind(n)) {
        give_attribute(alloc, heap, dom, n, name, v)
    } else {
        outside()
    }
}
