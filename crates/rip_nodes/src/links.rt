ghost use Rattle.std.specs.Prelude.{◌≡◌, ◌<◌, ◌≤◌, None, IfSome};
ghost use Rattle.rip_heap.specs.Growth.{Belongs};
ghost use Rattle.rip_heap.specs.World.{World, first_node};
ghost use Rattle.rip_dom.specs.Lists.{first_of, last_or};
ghost use Rattle.rip_dom.specs.Tree.{children_of, next_of, parent_of, previous_of};
ghost use Rattle.rip_nodes.specs.Answers.{node_or_null};
ghost use Rattle.rip_nodes.specs.Reading.{document_element};

use crate::answer::{is_element, node_or_null, node_value};
use rip_base::Value;
use rip_dom::Dom;

/// The node's parent as a value, or null; so in the four functions that follow.
pub(crate) fn parent(dom: &Dom, n: u32) -> Value
    requires { dom.now.limit ≤ first_node }
    ensures value { result ≡ node_or_null (parent_of dom.now n) }
    ensures belongs { (w : World) → Belongs w result }
{
    dom.parents_and_children_agree();
    let _made = dom.made();
    node_or_null(dom.parent(n))
}

pub(crate) fn first_child(dom: &Dom, n: u32) -> Value
    requires { dom.now.limit ≤ first_node }
    ensures value { result ≡ node_or_null (first_of (children_of dom.now n)) }
    ensures belongs { (w : World) → Belongs w result }
{
    dom.parents_and_children_agree();
    let _made = dom.made();
    node_or_null(dom.first_child(n))
}

pub(crate) fn last_child(dom: &Dom, n: u32) -> Value
    requires { dom.now.limit ≤ first_node }
    ensures value { result ≡ node_or_null (last_or None (children_of dom.now n)) }
    ensures belongs { (w : World) → Belongs w result }
{
    dom.parents_and_children_agree();
    let _made = dom.made();
    node_or_null(dom.last_child(n))
}

pub(crate) fn next_sibling(dom: &Dom, n: u32) -> Value
    requires { dom.now.limit ≤ first_node }
    ensures value { result ≡ node_or_null (next_of dom.now n (parent_of dom.now n)) }
    ensures belongs { (w : World) → Belongs w result }
{
    dom.parents_and_children_agree();
    let _made = dom.made();
    node_or_null(dom.next(n))
}

pub(crate) fn previous_sibling(dom: &Dom, n: u32) -> Value
    requires { dom.now.limit ≤ first_node }
    ensures value { result ≡ node_or_null (previous_of dom.now n (parent_of dom.now n)) }
    ensures belongs { (w : World) → Belongs w result }
{
    dom.parents_and_children_agree();
    let _made = dom.made();
    node_or_null(dom.previous(n))
}

/// The element below the document as a value, or null.
pub(crate) fn document_element(dom: &Dom) -> Value
    requires { dom.now.limit ≤ first_node }
    ensures value { result ≡ node_or_null (document_element dom.now) }
    ensures belongs { (w : World) → Belongs w result }
{
    dom.parents_and_children_agree();
    let _made = dom.made();
    let mut at = dom.first_child(0);
    while let Some(n) = at {
        if is_element(dom.kind(n)) {
            return node_value(n);
        }
        at = dom.next(n);
    }
    Value::Null
}
