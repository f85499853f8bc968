ghost use Rattle.std.specs.Prelude.{◌≡◌, ◌+◌, ◌^◌, ◌<◌, ◌≤◌, true, false, length};
ghost use Rattle.rip_values.specs.Pool.{Texts, text_at};
ghost use Rattle.rip_dom.specs.Attributes.{attribute_set, has_attribute, is_attribute_name};
ghost use Rattle.rip_dom.specs.Tree.{Tree};
ghost use Rattle.rip_nodes.specs.Answers.{AddsTexts, IsAnswered, KeepsTree};
ghost use Rattle.rip_nodes.specs.Attributes.{attribute_given, attribute_got, attribute_set_call, attribute_set_named, attribute_set_numbered, attribute_taken, attribute_taken_named, attribute_there, cost_of_new, illegal_name, name_left_out, opening, texts_kept};
ghost use Rattle.rip_nodes.specs.Names.{begins_with_on};
ghost use Rattle.rip_nodes.specs.Texts.{are_past, cost_of_text, text_span, with_text_of};

use crate::answer::{attribute_value, outside};
use crate::texts::{are_past, cost_of_text, make_text, standing_text, text_arg, text_fault};
use rip_base::{Limit, Span, Value, small_unit};
use rip_dom::{Dom, INVALID_CHARACTER, is_attribute_name, is_small};
use rip_heap::{Heap, HostDone};
use rip_values::FixedText;
use std::alloc::Global;

/// The value of the attribute, or the empty text.
pub(crate) fn get_attribute(
    alloc: Global,
    heap: &mut Heap,
    dom: &Dom,
    n: u32,
    name: &Value,
) -> HostDone
    ensures answer { (result, heap.new, dom.now) ≡ attribute_got heap.old dom.now n name.now }
    ensures adds { AddsTexts heap.old heap.new }
    ensures answered { IsAnswered heap.old result heap.new }
{
    match text_arg(alloc, heap, false, name) {
        Ok(name) => {
            let pool = heap.pool();
            HostDone::Value(attribute_value(heap, dom.attribute(pool, n, pool.get(name))))
        }
        Err(done) => done,
    }
}

/// Whether the attribute is there.
pub(crate) fn has_attribute(
    alloc: Global,
    heap: &mut Heap,
    dom: &Dom,
    n: u32,
    name: &Value,
) -> HostDone
    ensures answer { (result, heap.new, dom.now) ≡ attribute_there heap.old dom.now n name.now }
    ensures adds { AddsTexts heap.old heap.new }
    ensures answered { IsAnswered heap.old result heap.new }
{
    match text_arg(alloc, heap, false, name) {
        Ok(name) => {
            let pool = heap.pool();
            HostDone::Value(Value::Bool(dom.attribute(pool, n, pool.get(name)).is_some()))
        }
        Err(done) => done,
    }
}

/// Gives the attribute the value: both become texts first.
pub(crate) fn set_attribute(
    alloc: Global,
    heap: &mut Heap,
    dom: &mut Dom,
    n: u32,
    name: &Value,
    v: &Value,
) -> HostDone
    requires { n < length dom.old.nodes }
    ensures answer { (result, heap.new, dom.new) ≡
        attribute_set_call heap.old dom.old n name.now v.now }
    ensures adds { AddsTexts heap.old heap.new }
    ensures answered { IsAnswered heap.old result heap.new }
    ensures kept { KeepsTree dom.old result dom.new }
{
    match text_fault(heap, name) {
        Some(fault) => return HostDone::Fault(fault),
        None => {}
    }
    if are_past(heap, cost_of_text(name)) {
        return HostDone::Limit(Limit::Units);
    }
    match text_fault(heap, v) {
        Some(fault) => return HostDone::Fault(fault),
        None => {}
    }
    match standing_text(name) {
        Some(span) => set_named(alloc, heap, dom, n, span, v),
        None => set_numbered(alloc, heap, name, v),
    }
}

// The name is a number, which is not legal.
fn set_numbered(alloc: Global, heap: &mut Heap, name: &Value, v: &Value) -> HostDone
    ensures answer { (t : Tree) →
        (result, heap.new, t) ≡ attribute_set_numbered heap.old t name.now v.now }
    ensures adds { AddsTexts heap.old heap.new }
    ensures answered { IsAnswered heap.old result heap.new }
{
    let first = cost_of_text(name);
    let second = cost_of_text(v);
    if are_past(heap, first + second) {
        return HostDone::Limit(Limit::Units);
    }
    let _first = make_text(alloc, heap, name);
    let _second = make_text(alloc, heap, v);
    HostDone::Dom(INVALID_CHARACTER)
}

// The name stands already.
fn set_named(
    alloc: Global,
    heap: &mut Heap,
    dom: &mut Dom,
    n: u32,
    name: Span,
    v: &Value,
) -> HostDone
    requires { n < length dom.old.nodes }
    ensures answer { (result, heap.new, dom.new) ≡
        attribute_set_named heap.old dom.old n name v.now }
    ensures adds { AddsTexts heap.old heap.new }
    ensures answered { IsAnswered heap.old result heap.new }
    ensures kept { KeepsTree dom.old result dom.new }
{
    let text = heap.pool().get(name);
    if !is_attribute_name(text) {
        return illegal_name(alloc, heap, v);
    }
    if begins_with_on(text) {
        return name_left_out(heap, v);
    }
    give_attribute(alloc, heap, dom, n, name, v)
}

/// The text of the value is made, and counts for nothing: the name was not legal.
pub(crate) fn illegal_name(alloc: Global, heap: &mut Heap, v: &Value) -> HostDone
    ensures answer { (t : Tree) → (result, heap.new, t) ≡ illegal_name heap.old t v.now }
    ensures adds { AddsTexts heap.old heap.new }
    ensures answered { IsAnswered heap.old result heap.new }
{
    match text_arg(alloc, heap, false, v) {
        Ok(_) => HostDone::Dom(INVALID_CHARACTER),
        Err(done) => done,
    }
}

// The text of the value could be made, but the name is one that the profile leaves out.
fn name_left_out(heap: &Heap, v: &Value) -> HostDone
    ensures answer { (t : Tree) → (result, heap.now, t) ≡ name_left_out heap.now t v.now }
    ensures answered { IsAnswered heap.now result heap.now }
{
    let cost = cost_of_text(v);
    match text_fault(heap, v) {
        Some(fault) => HostDone::Fault(fault),
        None if are_past(heap, cost) => HostDone::Limit(Limit::Units),
        None => outside(),
    }
}

/// Takes the attribute away.
pub(crate) fn remove_attribute(
    alloc: Global,
    heap: &mut Heap,
    dom: &mut Dom,
    n: u32,
    name: &Value,
) -> HostDone
    ensures answer { (result, heap.new, dom.new) ≡ attribute_taken heap.old dom.old n name.now }
    ensures adds { AddsTexts heap.old heap.new }
    ensures answered { IsAnswered heap.old result heap.new }
    ensures kept { KeepsTree dom.old result dom.new }
{
    match text_fault(heap, name) {
        Some(fault) => return HostDone::Fault(fault),
        None => {}
    }
    match standing_text(name) {
        Some(span) => remove_named(heap, dom, n, span),
        None => illegal_name(alloc, heap, name),
    }
}

fn remove_named(heap: &Heap, dom: &mut Dom, n: u32, name: Span) -> HostDone
    ensures answer { (result, heap.now, dom.new) ≡
        attribute_taken_named heap.now dom.old n (text_at heap.now.pool name) }
    ensures answered { IsAnswered heap.now result heap.now }
    ensures kept { KeepsTree dom.old result dom.new }
{
    let pool = heap.pool();
    let text = pool.get(name);
    if !is_attribute_name(text) {
        return HostDone::Dom(INVALID_CHARACTER);
    }
    if begins_with_on(text) {
        return outside();
    }
    dom.remove_attribute(pool, n, text);
    HostDone::Value(Value::Undefined)
}

fn begins_with_on(name: &[u16]) -> bool
    ensures { result ≡ begins_with_on name.now }
{
    match name {
        [first, second, ..] => small_unit(*first) == 111 && small_unit(*second) == 110,
        _ => false,
    }
}

// Whether the node has an attribute of this name.
fn is_there(heap: &Heap, dom: &Dom, n: u32, name: Span) -> bool
    ensures { result ≡ has_attribute (opening heap.now.pool dom.now) n name }
{
    let pool = heap.pool();
    dom.attribute(pool, n, pool.get(name)).is_some()
}

// What the node's attribute of this name costs, in units, where it is to be made.
fn cost_of_new(heap: &Heap, dom: &Dom, n: u32, name: Span) -> u64
    ensures cost { result ≡ cost_of_new heap.now dom.now n name }
    ensures few { result < 2 ^ 32 }
{
    let text = heap.pool().get(name);
    if is_there(heap, dom, n, name) || is_small(text, text) {
        0
    } else {
        text.len() as u64
    }
}

/// Gives the node's attribute of this name, which is legal, the text of the value.
#[tactic(auto, using(crate::proofs::LimitLemmas::limit_of_attribute_set))]
pub fn give_attribute(
    alloc: Global,
    heap: &mut Heap,
    dom: &mut Dom,
    n: u32,
    name: Span,
    v: &Value,
) -> HostDone
    requires node { n < length dom.old.nodes }
    requires legal { is_attribute_name (text_at heap.old.pool name) ≡ true }
    ensures answer { (result, heap.new, dom.new) ≡ attribute_given heap.old dom.old n name v.now }
    ensures adds { AddsTexts heap.old heap.new }
    ensures answered { IsAnswered heap.old result heap.new }
    ensures kept { KeepsTree dom.old result dom.new }
{
    let kept = cost_of_new(heap, dom, n, name);
    let there = is_there(heap, dom, n, name);
    let cost = cost_of_text(v);
    match text_fault(heap, v) {
        Some(fault) => HostDone::Fault(fault),
        None if are_past(heap, cost) => HostDone::Limit(Limit::Units),
        None if !there && dom.used() >= dom.limit() => HostDone::Limit(Limit::Nodes),
        None if kept + u64::from(cost) > u64::from(heap.pool().free()) => {
            HostDone::Limit(Limit::Units)
        }
        None => {
            put_attribute(alloc, heap, dom, n, name, v, kept as u32);
            HostDone::Value(Value::Undefined)
        }
    }
}

// The same, where the limits are known to leave room. The name is kept first, so the text of the value will stand
// behind it.
fn put_attribute(
    alloc: Global,
    heap: &mut Heap,
    dom: &mut Dom,
    n: u32,
    name: Span,
    v: &Value,
    kept: u32,
)
    requires node { n < length dom.old.nodes }
    requires legal { is_attribute_name (text_at heap.old.pool name) ≡ true }
    requires nodes { has_attribute (opening heap.old.pool dom.old) n name ≡ false →
        dom.old.used < dom.old.limit }
    requires kept { kept ≡ cost_of_new heap.old dom.old n name }
    requires units { are_past heap.old.pool (kept + cost_of_text v.now) ≡ false }
    ensures texts { heap.new ≡ record heap.old {
      pool = with_text_of (texts_kept heap.old dom.old n name) v.now;
    } }
    ensures tree { dom.new ≡ (attribute_set (opening heap.old.pool dom.old) n name
        (text_span (texts_kept heap.old dom.old n name) v.now)).tree }
    ensures adds { AddsTexts heap.old heap.new }
{
    let value = span_behind(heap, kept, v);
    set_there(alloc, heap, dom, n, name, value);
    let _made = make_text(alloc, heap, v);
}

// Where the text of the value will stand once so many units more are there.
fn span_behind(heap: &Heap, kept: u32, v: &Value) -> Span
    requires { are_past heap.now.pool (kept + cost_of_text v.now) ≡ false }
    ensures { (p : Texts) → length p.units ≡ length heap.now.pool.units + kept →
        result ≡ text_span p v.now }
{
    match standing_text(v) {
        Some(span) => span,
        None => match v {
            Value::Num(_) => Span {
                start: heap.pool().end() + kept,
                count: cost_of_text(v),
            },
            _ => FixedText::Empty.span(),
        },
    }
}

// Sets the attribute, where the limits are known to leave room.
fn set_there(alloc: Global, heap: &mut Heap, dom: &mut Dom, n: u32, name: Span, value: Span)
    requires node { n < length dom.old.nodes }
    requires legal { is_attribute_name (text_at heap.old.pool name) ≡ true }
    requires nodes { has_attribute (opening heap.old.pool dom.old) n name ≡ false →
        dom.old.used < dom.old.limit }
    requires units { are_past heap.old.pool (cost_of_new heap.old dom.old n name) ≡ false }
    ensures texts { heap.new ≡ record heap.old { pool = texts_kept heap.old dom.old n name } }
    ensures tree { dom.new ≡ (attribute_set (opening heap.old.pool dom.old) n name value).tree }
    ensures adds { AddsTexts heap.old heap.new }
{
    heap.with_texts(&mut |pool| dom.set_attribute(alloc, pool, n, name, value))
        .unwrap();
}
