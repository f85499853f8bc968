ghost use Rattle.std.specs.Prelude.{◌≡◌, ◌<◌, ◌≤◌, ℕ, [], true, false, IfOk, IfSome, length, slice_get};
ghost use Rattle.rip_dom.specs.Tree.{node_at, parent_of, children_of, next_of, previous_of, has_other_element, is_above, is_barred, is_child, insert_code, replace_code, remove_code, inserted, put_in, replaced, taken_out, new_node, with_attribute, with_node};
ghost use Rattle.rip_dom.specs.Lists.{first_of, is_place, last_or};
ghost use Rattle.rip_dom.specs.Laws.{Agree, HasNoCycle};
ghost use Rattle.rip_dom.specs.Answers.{Makes, Moves};

use crate::kinds::{has_children, is_document, is_element, is_text};
use crate::lists::LinkedLists;
use crate::walks::{is_place, pair_at, record_at};
use rip_base::{Limit, NoMemory, NodeKind, Refused, Span};
use std::alloc::Global;
use std::marker::Model;

/// The code of a refusal where a node cannot stand (DOM Level 2 Core, HIERARCHY_REQUEST_ERR).
pub const HIERARCHY_REQUEST: u8 = 3;

/// The code of a refusal where a node is no child of the parent (NOT_FOUND_ERR).
pub const NOT_FOUND: u8 = 8;

/// What a node is, beside its place in the tree and its attributes.
#[derive(Clone, Copy, Debug)]
pub struct NodeRecord {
    pub kind: NodeKind,
    pub name: Option<Span>,
    pub text: Option<Span>,
}

/// The document of a session. The room for as many nodes and attributes as may be made is taken at once, so that no
/// call but the maker takes memory.
#[derive(Debug, Drop)]
pub struct Dom {
    pub(crate) limit: u32,
    pub(crate) nodes: Vec<NodeRecord>,
    pub(crate) children: LinkedLists,
    pub(crate) attributes: LinkedLists,
    pub(crate) pairs: Vec<(Span, Span)>,
}

impl Model for Dom {
    ghost use Rattle.std.specs.Prelude.{vec_capacity};
    ghost use Rattle.rip_dom.specs.Tree.{Tree};
    ghost use Rattle.rip_dom.specs.Document.{tree_of, IsDocument};

    ghost Value = { Tree };

    ghost view = { λ d. tree_of d.limit d.nodes.items d.children d.attributes d.pairs.items };

    ghost invariant = { λ d. IsDocument d.limit d.nodes.items d.children d.attributes d.pairs.items
        (vec_capacity d.nodes) (vec_capacity d.pairs) };
}

impl Dom {
    // A document without any node, and the room for so many nodes and attributes.
    pub(crate) fn empty(alloc: Global, limit: u32) -> Result<Dom, NoMemory>
        ensures { IfOk result (λ dom. dom ≡ record { limit = limit; used = 0; nodes = [] }) }
    {
        Ok(Dom {
            limit,
            nodes: Vec::with_capacity(alloc, limit as usize)?,
            children: LinkedLists::make(alloc, limit)?,
            attributes: LinkedLists::make(alloc, limit)?,
            pairs: Vec::with_capacity(alloc, limit as usize)?,
        })
    }

    /// How many nodes were made.
    pub fn made(&self) -> u32
        ensures made { result ≡ length self.now.nodes }
        ensures within { length self.now.nodes ≤ self.now.limit }
    {
        self.nodes.len() as u32
    }

    /// How many nodes and attributes were made.
    pub fn used(&self) -> u32
        ensures used { result ≡ self.now.used }
        ensures within { self.now.used ≤ self.now.limit }
    {
        (self.nodes.len() + self.pairs.len()) as u32
    }

    /// The node's parent. A number that is no node's has none, here and in the four calls that follow.
    pub fn parent(&self, n: u32) -> Option<u32>
        ensures { result ≡ parent_of self.now n }
    {
        self.children.owner(n)
    }

    /// The node's first child.
    pub fn first_child(&self, n: u32) -> Option<u32>
        ensures { result ≡ first_of (children_of self.now n) }
    {
        self.children.first(n)
    }

    /// The node's last child.
    pub fn last_child(&self, n: u32) -> Option<u32>
        ensures { result ≡ last_or None (children_of self.now n) }
    {
        self.children.last(n)
    }

    /// The next sibling.
    pub fn next(&self, n: u32) -> Option<u32>
        ensures { result ≡ next_of self.now n (parent_of self.now n) }
    {
        self.children.next(n)
    }

    /// The previous sibling.
    pub fn previous(&self, n: u32) -> Option<u32>
        ensures { result ≡ previous_of self.now n (parent_of self.now n) }
    {
        self.children.previous(n)
    }

    /// What the node is.
    pub fn kind(&self, n: u32) -> NodeKind
        ensures { result ≡ (node_at self.now n).kind }
    {
        record_at(&self.nodes, n).kind
    }

    /// The name of an element, in small letters; other nodes have none.
    pub fn name(&self, n: u32) -> Option<Span>
        ensures { result ≡ (node_at self.now n).name }
    {
        record_at(&self.nodes, n).name
    }

    /// The text of a text or comment; other nodes have none.
    pub fn text(&self, n: u32) -> Option<Span>
        ensures { result ≡ (node_at self.now n).text }
    {
        record_at(&self.nodes, n).text
    }

    /// The name and the value of the attribute at this place, in the order of making.
    pub fn attribute_at(&self, n: u32, place: u32) -> Option<(Span, Span)>
        ensures { result ≡ slice_get (node_at self.now n).attributes place }
    {
        match self.attributes.at_place(n, place) {
            Some(number) => Some(pair_at(&self.pairs, number)),
            None => None,
        }
    }

    /// A new node with this text, which stands nowhere yet.
    pub fn create_text(&mut self, alloc: Global, text: Span) -> Result<u32, Refused>
        ensures { Makes (new_node self.old NodeKind.Text None (Some text)) self.old result
            self.new }
    {
        self.add_node(NodeRecord {
            kind: NodeKind::Text,
            name: None,
            text: Some(text),
        })
    }

    // A new node of this record, which stands nowhere yet.
    pub(crate) fn add_node(&mut self, node: NodeRecord) -> Result<u32, Refused>
        ensures { Makes (new_node self.old node.kind node.name node.text) self.old result self.new }
    {
        if self.nodes.len() + self.pairs.len() >= self.limit as usize {
            return Err(Refused::Limit(Limit::Nodes));
        }
        Ok(self.push_node(node))
    }

    // The same, where the limit is known to leave room.
    pub(crate) fn push_node(&mut self, node: NodeRecord) -> u32
        requires { self.old.used < self.old.limit }
        ensures number { result ≡ length self.old.nodes }
        ensures fresh { (m : ℕ) → parent_of self.new m ≡ Some result → ⊥ }
        ensures made { self.new ≡ with_node self.old node.kind node.name node.text }
    {
        let number = self.nodes.len() as u32;
        self.nodes.push_reserved(node);
        self.children.add_list();
        self.children.add_item();
        self.attributes.add_list();
        number
    }

    // An attribute more, behind the others of the node.
    pub(crate) fn push_attribute(&mut self, n: u32, name: Span, value: Span)
        requires node { n < length self.old.nodes }
        requires room { self.old.used < self.old.limit }
        ensures { self.new ≡ with_attribute self.old n name value }
    {
        let number = self.pairs.len() as u32;
        self.pairs.push_reserved((name, value));
        self.attributes.add_item();
        self.attributes.insert(n, number, None);
    }

    /// Puts the child below the parent, before the child at the place, or behind all where no place is given. It leaves
    /// the place where it stood.
    pub fn insert_before(&mut self, parent: u32, child: u32, at: Option<u32>) -> Result<(), u8>
        requires parent { parent < length self.old.nodes }
        requires child { child < length self.old.nodes }
        requires at { IfSome at (λ r. r < length self.old.nodes) }
        ensures { Moves (insert_code self.old parent child at) (inserted self.old parent child at)
            self.old result self.new }
    {
        if self.is_barred(parent, child, None) {
            return Err(HIERARCHY_REQUEST);
        }
        if !self.is_child(parent, at) {
            return Err(NOT_FOUND);
        }
        if !is_place(at, child) {
            self.put_in(parent, child, at);
        }
        Ok(())
    }

    /// Puts the new child to the place of the old one, which leaves.
    pub fn replace(&mut self, parent: u32, new_child: u32, old: u32) -> Result<(), u8>
        requires parent { parent < length self.old.nodes }
        requires child { new_child < length self.old.nodes }
        requires old { old < length self.old.nodes }
        ensures { Moves (replace_code self.old parent new_child old)
            (replaced self.old parent new_child old) self.old result self.new }
    {
        if self.is_barred(parent, new_child, Some(old)) {
            return Err(HIERARCHY_REQUEST);
        }
        if !self.is_child(parent, Some(old)) {
            return Err(NOT_FOUND);
        }
        if old != new_child {
            self.put_in(parent, new_child, Some(old));
            self.take_out(old);
        }
        Ok(())
    }

    /// Takes the child out of the parent. It keeps its number and its own children.
    pub fn remove(&mut self, parent: u32, child: u32) -> Result<(), u8>
        requires parent { parent < length self.old.nodes }
        requires child { child < length self.old.nodes }
        ensures { Moves (remove_code self.old parent child) (taken_out self.old child)
            self.old result self.new }
    {
        if !self.is_child(parent, Some(child)) {
            return Err(NOT_FOUND);
        }
        self.take_out(child);
        Ok(())
    }

    /// The children of a node are the nodes whose parent it is, each once.
    pub fn parents_and_children_agree(&self)
        ensures { Agree self.now }
    {
        self.children.are_listed();
    }

    /// No node is its own ancestor.
    pub fn has_no_cycle(&self)
        ensures { HasNoCycle self.now }
    {
        let _children = &self.children;
    }

    pub(crate) fn put_in(&mut self, parent: u32, child: u32, at: Option<u32>)
        requires parent { parent < length self.old.nodes }
        requires child { child < length self.old.nodes }
        requires at { is_child self.old parent at ≡ true }
        requires other { is_place at child ≡ false }
        requires below { is_above self.old child parent ≡ false }
        ensures { self.new ≡ put_in self.old parent child at }
    {
        self.children.remove(child);
        self.children.insert(parent, child, at);
    }

    pub(crate) fn take_out(&mut self, child: u32)
        requires { child < length self.old.nodes }
        ensures { self.new ≡ taken_out self.old child }
    {
        self.children.remove(child);
    }

    fn is_child(&self, parent: u32, at: Option<u32>) -> bool
        ensures { result ≡ is_child self.now parent at }
    {
        match at {
            Some(place) => is_place(self.parent(place), parent),
            None => true,
        }
    }

    fn is_barred(&self, parent: u32, child: u32, old: Option<u32>) -> bool
        ensures { result ≡ is_barred self.now parent child old }
    {
        let below = self.kind(parent);
        let kind = self.kind(child);
        !has_children(below)
            || is_document(kind)
            || self.is_above(child, parent)
            || is_document(below)
                && (is_text(kind) || is_element(kind) && self.has_other_element(parent, child, old))
    }

    /// Whether the first node is the second one, or stands above it.
    pub fn is_above(&self, upper: u32, lower: u32) -> bool
        ensures { result ≡ is_above self.now upper lower }
    {
        let mut at = Some(lower);
        for _i in 0..self.made() {
            match at {
                Some(n) => {
                    if n == upper {
                        return true;
                    }
                    at = self.parent(n);
                }
                None => return false,
            }
        }
        false
    }

    fn has_other_element(&self, parent: u32, child: u32, old: Option<u32>) -> bool
        ensures { result ≡ has_other_element self.now parent child old }
    {
        self.children
            .has_other_element(&self.nodes, parent, child, old)
    }
}
