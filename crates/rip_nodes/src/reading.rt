ghost use Rattle.std.specs.Prelude.{◌≡◌, ◌<◌, ◌≤◌, pos, IfSome};
ghost use Rattle.rip_heap.specs.Growth.{Belongs};
ghost use Rattle.rip_heap.specs.World.{World, first_node};
ghost use Rattle.rip_dom.specs.Reading.{text_below};
ghost use Rattle.rip_dom.specs.Tree.{node_at};
ghost use Rattle.rip_nodes.specs.Answers.{AddsTexts, IsAnswered, new_text};
ghost use Rattle.rip_nodes.specs.Reading.{attribute_read, node_member, node_name, tag_name, text_content, type_value};

use crate::answer::{
    attribute_value, fixed_value, is_document, is_element, method, node_or_null, node_text,
    outside, text_value,
};
use crate::capitals::capitals;
use crate::links::{
    document_element, first_child, last_child, next_sibling, parent, previous_sibling,
};
use crate::member::NodeMember;
use rip_base::{Fault, NodeKind, Refused, Value, Whole};
use rip_dom::{Dom, TextRefused};
use rip_heap::{Heap, HostDone};
use rip_values::{Builtin, FixedText};
use std::alloc::Global;

/// The names of the attributes that members stand for.
const ID: [u16; 2] = [105, 100];

const CLASS: [u16; 5] = [99, 108, 97, 115, 115];

/// What a node has as this member, on a page with this body.
pub fn read_member(
    alloc: Global,
    heap: &mut Heap,
    dom: &Dom,
    body: Option<u32>,
    n: u32,
    member: NodeMember,
) -> HostDone
    requires small { dom.now.limit ≤ first_node }
    requires body { IfSome body (λ b. b < first_node) }
    ensures answer { (result, heap.new) ≡ node_member heap.old dom.now body n member }
    ensures adds { AddsTexts heap.old heap.new }
    ensures answered { IsAnswered heap.old result heap.new }
{
    let kind = dom.kind(n);
    match member {
        NodeMember::GetElementById => method(is_document(kind), Builtin::GetElementById, heap),
        NodeMember::CreateElement => method(is_document(kind), Builtin::CreateElement, heap),
        NodeMember::CreateTextNode => method(is_document(kind), Builtin::CreateTextNode, heap),
        NodeMember::Body => if is_document(kind) {
            HostDone::Value(node_or_null(body))
        } else {
            outside()
        },
        NodeMember::DocumentElement => if is_document(kind) {
            HostDone::Value(document_element(dom))
        } else {
            outside()
        },
        NodeMember::NodeType => HostDone::Value(type_value(kind)),
        NodeMember::NodeName => node_name(alloc, heap, dom, n),
        NodeMember::TagName => tag_name(alloc, heap, dom, n),
        NodeMember::NodeValue => HostDone::Value(node_text(heap, kind, dom.text(n))),
        NodeMember::ParentNode => HostDone::Value(parent(dom, n)),
        NodeMember::FirstChild => HostDone::Value(first_child(dom, n)),
        NodeMember::LastChild => HostDone::Value(last_child(dom, n)),
        NodeMember::NextSibling => HostDone::Value(next_sibling(dom, n)),
        NodeMember::PreviousSibling => HostDone::Value(previous_sibling(dom, n)),
        NodeMember::HasChildNodes => method(true, Builtin::HasChildNodes, heap),
        NodeMember::AppendChild => method(true, Builtin::AppendChild, heap),
        NodeMember::InsertBefore => method(true, Builtin::InsertBefore, heap),
        NodeMember::ReplaceChild => method(true, Builtin::ReplaceChild, heap),
        NodeMember::RemoveChild => method(true, Builtin::RemoveChild, heap),
        NodeMember::TextContent => text_content(alloc, heap, dom, n),
        NodeMember::GetAttribute => method(is_element(kind), Builtin::GetAttribute, heap),
        NodeMember::HasAttribute => method(is_element(kind), Builtin::HasAttribute, heap),
        NodeMember::SetAttribute => method(is_element(kind), Builtin::SetAttribute, heap),
        NodeMember::RemoveAttribute => method(is_element(kind), Builtin::RemoveAttribute, heap),
        NodeMember::Id => attribute_read(heap, dom, n, &ID),
        NodeMember::ClassName => attribute_read(heap, dom, n, &CLASS),
        NodeMember::AddEventListener => method(true, Builtin::AddEventListener, heap),
        NodeMember::RemoveEventListener => method(true, Builtin::RemoveEventListener, heap),
    }
}

// The number of the kind as a value.
fn type_value(kind: NodeKind) -> Value
    ensures value { result ≡ type_value kind }
    ensures belongs { (w : World) → Belongs w result }
{
    let number = match kind {
        NodeKind::Element => 1,
        NodeKind::Text => 3,
        NodeKind::Comment => 8,
        NodeKind::Document => 9,
    };
    match Whole::new(number) {
        Some(whole) => Value::Num(whole),
        None => Value::NaN,
    }
}

// Of an element its name in capitals, of other nodes a fixed text.
fn node_name(alloc: Global, heap: &mut Heap, dom: &Dom, n: u32) -> HostDone
    ensures answer { (result, heap.new) ≡ node_name heap.old (node_at dom.now n).kind
        (node_at dom.now n).name }
    ensures adds { AddsTexts heap.old heap.new }
    ensures answered { IsAnswered heap.old result heap.new }
{
    match dom.kind(n) {
        NodeKind::Element => {
            let name = dom.name(n).unwrap_or(FixedText::Empty.span());
            capitals(alloc, heap, name)
        }
        NodeKind::Text => HostDone::Value(fixed_value(heap, FixedText::TextName)),
        NodeKind::Comment => HostDone::Value(fixed_value(heap, FixedText::CommentName)),
        NodeKind::Document => HostDone::Value(fixed_value(heap, FixedText::DocumentName)),
    }
}

fn tag_name(alloc: Global, heap: &mut Heap, dom: &Dom, n: u32) -> HostDone
    ensures answer { (result, heap.new) ≡ tag_name heap.old (node_at dom.now n).kind
        (node_at dom.now n).name }
    ensures adds { AddsTexts heap.old heap.new }
    ensures answered { IsAnswered heap.old result heap.new }
{
    if is_element(dom.kind(n)) {
        node_name(alloc, heap, dom, n)
    } else {
        outside()
    }
}

// Of an element the texts below it as one new text, of a text or comment its text.
fn text_content(alloc: Global, heap: &mut Heap, dom: &Dom, n: u32) -> HostDone
    ensures answer { (result, heap.new) ≡
        text_content heap.old dom.now n (node_at dom.now n).kind }
    ensures adds { AddsTexts heap.old heap.new }
    ensures answered { IsAnswered heap.old result heap.new }
{
    let kind = dom.kind(n);
    match kind {
        NodeKind::Document => HostDone::Value(Value::Null),
        NodeKind::Element => text_below(alloc, heap, dom, n),
        NodeKind::Text | NodeKind::Comment => {
            HostDone::Value(node_text(heap, kind, dom.text(n)))
        }
    }
}

fn text_below(alloc: Global, heap: &mut Heap, dom: &Dom, n: u32) -> HostDone
    ensures answer { (result, heap.new) ≡
        new_text heap.old (text_below heap.old.pool dom.now n) }
    ensures adds { AddsTexts heap.old heap.new }
    ensures answered { IsAnswered heap.old result heap.new }
{
    match heap.with_texts(&mut |pool| dom.read_text(alloc, pool, n)) {
        Ok(span) => HostDone::Value(text_value(heap, span)),
        Err(TextRefused::TooLong) => HostDone::Fault(Fault::TextTooLong),
        Err(TextRefused::Refused(Refused::Limit(limit))) => HostDone::Limit(limit),
        Err(TextRefused::Refused(Refused::Memory)) => HostDone::Memory,
    }
}

// The attribute of an element that a member stands for.
fn attribute_read(heap: &Heap, dom: &Dom, n: u32, name: &[u16]) -> HostDone
    ensures answer { (result, heap.now) ≡ attribute_read heap.now dom.now n name.now }
    ensures answered { IsAnswered heap.now result heap.now }
{
    if is_element(dom.kind(n)) {
        HostDone::Value(attribute_value(heap, dom.attribute(heap.pool(), n, name)))
    } else {
        outside()
    }
}
