ghost use Rattle.std.specs.Prelude.{◌≡◌, ◌<◌, ◌≤◌, true, length};
ghost use Rattle.rip_values.specs.Pool.{text_at};
ghost use Rattle.rip_heap.specs.Growth.{Belongs};
ghost use Rattle.rip_heap.specs.World.{World, first_node};
ghost use Rattle.rip_dom.specs.Creation.{is_element_name};
ghost use Rattle.rip_dom.specs.Order.{element_of_id};
ghost use Rattle.rip_dom.specs.Tree.{Tree};
ghost use Rattle.rip_nodes.specs.Answers.{AddsTexts, IsAnswered, KeepsTree, node_or_null};
ghost use Rattle.rip_nodes.specs.Calls.{argument, element_created, element_created_named, element_found, element_made_of, has_child, node_call, text_created};
ghost use Rattle.rip_nodes.specs.Names.{is_script};

use crate::answer::{is_document, is_element, node_or_null, node_value, outside};
use crate::attributes::{
    get_attribute, has_attribute, illegal_name, remove_attribute, set_attribute,
};
use crate::member::NodeCall;
use crate::moves::{append_child, insert_before, remove_child, replace_child};
use crate::texts::{standing_text, text_arg, text_fault};
use rip_base::{Limit, Refused, Span, Value};
use rip_dom::{Dom, DomRefused, INVALID_CHARACTER, is_element_name, is_small};
use rip_heap::{Heap, HostDone};
use rip_values::Pool;
use std::alloc::Global;

/// The name of elements that would hold a script.
const SCRIPT: [u16; 6] = [115, 99, 114, 105, 112, 116];

/// The argument at this place; one that is absent is undefined.
pub fn argument(args: &[Value], i: usize) -> Value
    ensures { result ≡ argument args.now i }
{
    args.get(i).copied().unwrap_or(Value::Undefined)
}

/// What a call on this node answers.
pub fn call_node(
    alloc: Global,
    heap: &mut Heap,
    dom: &mut Dom,
    call: NodeCall,
    n: u32,
    args: &[Value],
) -> HostDone
    requires node { n < length dom.old.nodes }
    requires small { dom.old.limit ≤ first_node }
    ensures answer { (result, heap.new, dom.new) ≡ node_call heap.old dom.old call n args.now }
    ensures adds { AddsTexts heap.old heap.new }
    ensures answered { IsAnswered heap.old result heap.new }
    ensures kept { KeepsTree dom.old result dom.new }
{
    let kind = dom.kind(n);
    let first = argument(args, 0);
    match call {
        NodeCall::GetElementById if is_document(kind) => find_element(alloc, heap, dom, &first),
        NodeCall::CreateElement if is_document(kind) => create_element(alloc, heap, dom, &first),
        NodeCall::CreateTextNode if is_document(kind) => create_text(alloc, heap, dom, &first),
        NodeCall::HasChildNodes => HostDone::Value(Value::Bool(dom.first_child(n).is_some())),
        NodeCall::AppendChild => append_child(heap, dom, n, &first),
        NodeCall::InsertBefore => insert_before(heap, dom, n, &first, &argument(args, 1)),
        NodeCall::ReplaceChild => replace_child(heap, dom, n, &first, &argument(args, 1)),
        NodeCall::RemoveChild => remove_child(heap, dom, n, &first),
        NodeCall::GetAttribute if is_element(kind) => get_attribute(alloc, heap, dom, n, &first),
        NodeCall::HasAttribute if is_element(kind) => has_attribute(alloc, heap, dom, n, &first),
        NodeCall::SetAttribute if is_element(kind) => {
            set_attribute(alloc, heap, dom, n, &first, &argument(args, 1))
        }
        NodeCall::RemoveAttribute if is_element(kind) => {
            remove_attribute(alloc, heap, dom, n, &first)
        }
        _ => outside(),
    }
}

// The first element whose attribute `id` is the text of the value.
fn find_element(alloc: Global, heap: &mut Heap, dom: &Dom, id: &Value) -> HostDone
    requires { dom.now.limit ≤ first_node }
    ensures answer { (result, heap.new, dom.now) ≡ element_found heap.old dom.now id.now }
    ensures adds { AddsTexts heap.old heap.new }
    ensures answered { IsAnswered heap.old result heap.new }
{
    match text_arg(alloc, heap, false, id) {
        Ok(id) => HostDone::Value(element_of_id(heap.pool(), dom, id)),
        Err(done) => done,
    }
}

fn element_of_id(pool: &Pool, dom: &Dom, id: Span) -> Value
    requires { dom.now.limit ≤ first_node }
    ensures value { result ≡ node_or_null (element_of_id pool.now dom.now (text_at pool.now id)) }
    ensures belongs { (w : World) → Belongs w result }
{
    let _made = dom.made();
    match dom.find_id(pool, pool.get(id)) {
        Some(n) => node_value(n),
        None => Value::Null,
    }
}

// A new text node.
fn create_text(alloc: Global, heap: &mut Heap, dom: &mut Dom, text: &Value) -> HostDone
    requires { dom.old.limit ≤ first_node }
    ensures answer { (result, heap.new, dom.new) ≡ text_created heap.old dom.old text.now }
    ensures adds { AddsTexts heap.old heap.new }
    ensures answered { IsAnswered heap.old result heap.new }
    ensures kept { KeepsTree dom.old result dom.new }
{
    let full = dom.used() >= dom.limit();
    match text_arg(alloc, heap, full, text) {
        Ok(text) => match dom.create_text(alloc, text) {
            Ok(n) => {
                let _made = dom.made();
                HostDone::Value(node_value(n))
            }
            Err(_) => HostDone::Limit(Limit::Nodes),
        },
        Err(done) => done,
    }
}

// A new element. A number is no legal name.
fn create_element(alloc: Global, heap: &mut Heap, dom: &mut Dom, name: &Value) -> HostDone
    requires { dom.old.limit ≤ first_node }
    ensures answer { (result, heap.new, dom.new) ≡ element_created heap.old dom.old name.now }
    ensures adds { AddsTexts heap.old heap.new }
    ensures answered { IsAnswered heap.old result heap.new }
    ensures kept { KeepsTree dom.old result dom.new }
{
    match text_fault(heap, name) {
        Some(fault) => return HostDone::Fault(fault),
        None => {}
    }
    match standing_text(name) {
        Some(span) => create_named(alloc, heap, dom, span),
        None => illegal_name(alloc, heap, name),
    }
}

fn create_named(alloc: Global, heap: &mut Heap, dom: &mut Dom, name: Span) -> HostDone
    requires { dom.old.limit ≤ first_node }
    ensures answer { (result, heap.new, dom.new) ≡ element_created_named heap.old dom.old name }
    ensures adds { AddsTexts heap.old heap.new }
    ensures answered { IsAnswered heap.old result heap.new }
    ensures kept { KeepsTree dom.old result dom.new }
{
    let text = heap.pool().get(name);
    if !is_element_name(text) {
        return HostDone::Dom(INVALID_CHARACTER);
    }
    if is_small(&SCRIPT, text) {
        return outside();
    }
    make_element(alloc, heap, dom, name)
}

// The same of a name that is legal.
fn make_element(alloc: Global, heap: &mut Heap, dom: &mut Dom, name: Span) -> HostDone
    requires small { dom.old.limit ≤ first_node }
    requires legal { is_element_name (text_at heap.old.pool name) ≡ true }
    ensures answer { (result, heap.new, dom.new) ≡ element_made_of heap.old dom.old name }
    ensures adds { AddsTexts heap.old heap.new }
    ensures answered { IsAnswered heap.old result heap.new }
    ensures kept { KeepsTree dom.old result dom.new }
{
    match heap.with_texts(&mut |pool| dom.create_element(alloc, pool, name)) {
        Ok(n) => {
            let _made = dom.made();
            HostDone::Value(node_value(n))
        }
        Err(DomRefused::Code(code)) => HostDone::Dom(code),
        Err(DomRefused::Refused(Refused::Limit(limit))) => HostDone::Limit(limit),
        Err(DomRefused::Refused(Refused::Memory)) => HostDone::Memory,
    }
}
