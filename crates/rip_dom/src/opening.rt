ghost use Rattle.std.specs.Prelude.{◌≡◌, ◌<◌, ◌≤◌, ◌+◌, ℕ, true, nat_le, IfOk, IfErr, OnOk, length};
ghost use Rattle.rip_values.specs.Pool.{span_behind};
ghost use Rattle.rip_dom.specs.Tree.{parent_of};
ghost use Rattle.rip_dom.specs.Opening.{Opens, IsShort, attributes_in, count_of_nodes, count_of_units, count_of_values, name_of, name_span, node_step, placed, text_of, with_name};

use crate::dom::{Dom, NodeRecord};
use rip_base::{Attribute, Limit, NoMemory, NodeKind, Page, PageNode, Refused, Span, Units};
use rip_values::Pool;
use std::alloc::Global;

impl Dom {
    /// The document of a page, whose nodes have the page's own numbers. The limit of nodes is judged before that of
    /// units. No other call takes memory.
    pub fn make(alloc: Global, page: &Page, pool: &mut Pool, nodes: u32) -> Result<Dom, Refused>
        ensures { Opens page.now.nodes nodes pool.old result pool.new }
    {
        if !has_room(page, nodes) {
            return Err(Refused::Limit(Limit::Nodes));
        }
        // No pool has charged more than its limit.
        if pool.used() > pool.limit() {
            return Err(Refused::Limit(Limit::Units));
        }
        let mut dom = Dom::empty(alloc, nodes)?;
        for i in 0..page.count() {
            dom.push_page_node(alloc, pool, page.node(i))?;
        }
        Ok(dom)
    }

    // The next node of the page, behind the children of its parent, with its attributes.
    fn push_page_node(
        &mut self,
        alloc: Global,
        pool: &mut Pool,
        node: &PageNode,
    ) -> Result<(), Refused>
        requires room { self.old.used + (1 + length node.now.attributes) ≤ self.old.limit }
        requires fit { pool.old.used ≤ pool.old.limit }
        ensures ok { OnOk result (record { pool = pool.new; tree = self.new }
            ≡ node_step (record { pool = pool.old; tree = self.old }) node.now) }
        ensures short { IfErr result (IsShort (pool.old.limit
            < pool.old.used + (length node.now.text + count_of_values node.now.attributes))) }
        ensures fit { OnOk result (pool.new.used ≤ pool.new.limit) }
    {
        let name = name_span(alloc, pool, &node.name)?;
        let text = pool.add(alloc, node.text.as_slice())?;
        let number = self.push_node(NodeRecord {
            kind: node.kind,
            name: name_of(node.kind, name),
            text: text_of(node.kind, text),
        });
        self.place(number, node.parent);
        self.push_page_attributes(alloc, pool, number, node.attributes.as_slice())
    }

    // Puts the node behind the children of the parent, which stands before it.
    fn place(&mut self, n: u32, parent: Option<u32>)
        requires node { n < length self.old.nodes }
        requires fresh { (m : ℕ) → parent_of self.old m ≡ Some n → ⊥ }
        ensures { self.new ≡ placed self.old n parent }
    {
        match parent {
            Some(parent) => {
                if parent < n {
                    self.put_in(parent, n, None);
                }
            }
            None => {}
        }
    }

    fn push_page_attributes(
        &mut self,
        alloc: Global,
        pool: &mut Pool,
        n: u32,
        attributes: &[Attribute],
    ) -> Result<(), Refused>
        requires node { n < length self.old.nodes }
        requires room { self.old.used + length attributes.now ≤ self.old.limit }
        requires fit { pool.old.used ≤ pool.old.limit }
        ensures ok { OnOk result (record { pool = pool.new; tree = self.new }
            ≡ attributes_in n (record { pool = pool.old; tree = self.old }) attributes.now) }
        ensures short { IfErr result (IsShort
            (pool.old.limit < pool.old.used + count_of_values attributes.now)) }
        ensures fit { OnOk result (pool.new.used ≤ pool.new.limit) }
    {
        for attribute in attributes {
            let name = name_span(alloc, pool, &attribute.name)?;
            let value = pool.add(alloc, attribute.value.as_slice())?;
            self.push_attribute(n, name, value);
        }
        Ok(())
    }
}

// Whether the limit leaves room for all nodes and attributes of the page.
fn has_room(page: &Page, limit: u32) -> bool
    ensures { result ≡ nat_le (count_of_nodes page.now.nodes) limit }
{
    let mut left = limit as usize;
    for i in 0..page.count() {
        let attributes = page.node(i).attributes.len();
        if attributes >= left {
            return false;
        }
        left -= 1 + attributes;
    }
    true
}

// The place of a name of the page, which costs nothing.
fn name_span(alloc: Global, pool: &mut Pool, name: &Units) -> Result<Span, NoMemory>
    ensures span { IfOk result (λ span. span ≡ name_span pool.old name.now) }
    ensures after { OnOk result (pool.new ≡ with_name pool.old name.now) }
{
    match pool.fixed(name.as_slice()) {
        Some(span) => Ok(span),
        None => pool.add_fixed(alloc, name.as_slice()),
    }
}

fn name_of(kind: NodeKind, span: Span) -> Option<Span>
    ensures { result ≡ name_of kind span }
{
    match kind {
        NodeKind::Document => None,
        NodeKind::Element => Some(span),
        NodeKind::Text => None,
        NodeKind::Comment => None,
    }
}

fn text_of(kind: NodeKind, span: Span) -> Option<Span>
    ensures { result ≡ text_of kind span }
{
    match kind {
        NodeKind::Document => None,
        NodeKind::Element => None,
        NodeKind::Text => Some(span),
        NodeKind::Comment => Some(span),
    }
}
