ghost use Rattle.std.specs.Prelude.{◌≡◌, ◌+◌, ◌<◌, ◌≤◌, MatchOption, Some, None, IfSome, length};
ghost use Rattle.rip_heap.specs.World.{first_node};
ghost use Rattle.rip_nodes.specs.Answers.{IsAnswered, KeepsTree};
ghost use Rattle.rip_nodes.specs.Calls.{child_appended, child_inserted, child_removed, child_replaced, node_in, node_of_object, place_in};

use rip_base::Value;
use rip_dom::Dom;
use rip_heap::{Heap, HostDone};
use rip_values::FIRST_NODE;

/// The node of this number as an object, where there is one.
pub fn node_of_object(dom: &Dom, n: u32) -> Option<u32>
    ensures node { result ≡ node_of_object dom.now n }
    ensures there { IfSome result (λ k. (k < length dom.now.nodes) × (n ≡ first_node + k)) }
{
    if FIRST_NODE <= n && n - FIRST_NODE < dom.made() {
        Some(n - FIRST_NODE)
    } else {
        None
    }
}

/// The node that a value is, if it is one.
pub fn node_in(dom: &Dom, v: &Value) -> Option<u32>
    ensures node { result ≡ node_in dom.now v.now }
    ensures there { IfSome result
        (λ k. (k < length dom.now.nodes) × (v.now ≡ Value.Object (first_node + k))) }
{
    match v {
        Value::Object(n) => node_of_object(dom, *n),
        _ => None,
    }
}

// The place that a value means: null means behind all others.
fn place_in(dom: &Dom, v: &Value) -> Option<Option<u32>>
    ensures place { result ≡ place_in dom.now v.now }
    ensures there { IfSome result (λ at. IfSome at (λ k. k < length dom.now.nodes)) }
{
    match v {
        Value::Null => Some(None),
        Value::Object(n) => match node_of_object(dom, *n) {
            Some(k) => Some(Some(k)),
            None => None,
        },
        _ => None,
    }
}

/// Puts the child behind the others of the parent.
#[tactic(auto, using(crate::proofs::LimitLemmas::limit_of_inserted))]
pub(crate) fn append_child(heap: &Heap, dom: &mut Dom, parent: u32, child: &Value) -> HostDone
    requires { parent < length dom.old.nodes }
    ensures answer { (result, heap.now, dom.new) ≡ child_appended heap.now dom.old parent
        child.now }
    ensures answered { IsAnswered heap.now result heap.now }
    ensures kept { KeepsTree dom.old result dom.new }
{
    let _ = heap;
    let Some(c) = node_in(dom, child) else {
        return HostDone::TypeFault;
    };
    match dom.insert_before(parent, c, None) {
        Ok(()) => HostDone::Value(*child),
        Err(code) => HostDone::Dom(code),
    }
}

/// Puts the child before another of the parent.
#[tactic(auto, using(crate::proofs::LimitLemmas::limit_of_inserted))]
pub(crate) fn insert_before(
    heap: &Heap,
    dom: &mut Dom,
    parent: u32,
    child: &Value,
    reference: &Value,
) -> HostDone
    requires { parent < length dom.old.nodes }
    ensures answer { (result, heap.now, dom.new) ≡ child_inserted heap.now dom.old parent child.now
        reference.now }
    ensures answered { IsAnswered heap.now result heap.now }
    ensures kept { KeepsTree dom.old result dom.new }
{
    let _ = heap;
    let Some(c) = node_in(dom, child) else {
        return HostDone::TypeFault;
    };
    let Some(at) = place_in(dom, reference) else {
        return HostDone::TypeFault;
    };
    match dom.insert_before(parent, c, at) {
        Ok(()) => HostDone::Value(*child),
        Err(code) => HostDone::Dom(code),
    }
}

/// Puts the new child to the place of the old one, which the call gives.
#[tactic(auto, using(crate::proofs::LimitLemmas::limit_of_replaced))]
pub(crate) fn replace_child(
    heap: &Heap,
    dom: &mut Dom,
    parent: u32,
    new_child: &Value,
    old_child: &Value,
) -> HostDone
    requires { parent < length dom.old.nodes }
    ensures answer { (result, heap.now, dom.new) ≡ child_replaced heap.now dom.old parent
        new_child.now old_child.now }
    ensures answered { IsAnswered heap.now result heap.now }
    ensures kept { KeepsTree dom.old result dom.new }
{
    let _ = heap;
    let Some(c) = node_in(dom, new_child) else {
        return HostDone::TypeFault;
    };
    let Some(old) = node_in(dom, old_child) else {
        return HostDone::TypeFault;
    };
    match dom.replace(parent, c, old) {
        Ok(()) => HostDone::Value(*old_child),
        Err(code) => HostDone::Dom(code),
    }
}

/// Takes the child out of the parent.
pub(crate) fn remove_child(heap: &Heap, dom: &mut Dom, parent: u32, child: &Value) -> HostDone
    requires { parent < length dom.old.nodes }
    ensures answer { (result, heap.now, dom.new) ≡ child_removed heap.now dom.old parent child.now }
    ensures answered { IsAnswered heap.now result heap.now }
    ensures kept { KeepsTree dom.old result dom.new }
{
    let _ = heap;
    let Some(c) = node_in(dom, child) else {
        return HostDone::TypeFault;
    };
    match dom.remove(parent, c) {
        Ok(()) => HostDone::Value(*child),
        Err(code) => HostDone::Dom(code),
    }
}
