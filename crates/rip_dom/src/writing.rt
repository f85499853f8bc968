ghost use Rattle.std.specs.Prelude.{◌≡◌, ◌<◌, Some, length, false, slice_set, vec_capacity};
ghost use Rattle.rip_dom.specs.Document.{record_at};
ghost use Rattle.rip_dom.specs.Tree.{is_document, node_at};
ghost use Rattle.rip_dom.specs.Writing.{Writes, emptied, filled, is_empty, is_past, with_text_of, written};

use crate::dom::{Dom, NodeRecord};
use crate::kinds::is_element;
use crate::walks::record_at;
use rip_base::{Limit, NodeKind, Refused, Span};
use std::alloc::Global;

impl Dom {
    /// Writes the text: of a text or comment it becomes the text; of an element all children leave, and a text node
    /// comes, or none for the empty text.
    pub fn write_text(&mut self, alloc: Global, n: u32, text: Span) -> Result<(), Refused>
        requires node { n < length self.old.nodes }
        requires kind { is_document (node_at self.old n).kind ≡ false }
        ensures { Writes (is_past self.old n text) (written self.old n text)
            self.old result self.new }
    {
        if !is_element(self.kind(n)) {
            self.set_text(n, text);
            return Ok(());
        }
        if text.count == 0 {
            self.clear(n);
            return Ok(());
        }
        if self.used() >= self.limit() {
            return Err(Refused::Limit(Limit::Nodes));
        }
        self.fill(n, text);
        Ok(())
    }

    // One text node in place of all children, where the limit is known to leave room.
    fn fill(&mut self, n: u32, text: Span)
        requires node { n < length self.old.nodes }
        requires room { self.old.used < self.old.limit }
        requires some { is_empty text ≡ false }
        ensures { self.new ≡ filled self.old n text }
    {
        self.clear(n);
        let child = self.push_node(NodeRecord {
            kind: NodeKind::Text,
            name: None,
            text: Some(text),
        });
        self.put_in(n, child, None);
    }

    // Takes all children out.
    fn clear(&mut self, n: u32)
        ensures made { length self.new.nodes ≡ length self.old.nodes }
        ensures used { self.new.used ≡ self.old.used }
        ensures limit { self.new.limit ≡ self.old.limit }
        ensures emptied { self.new ≡ emptied self.old n }
    {
        self.grows();
        for _i in 0..self.made() {
            match self.first_child(n) {
                Some(child) => {
                    self.grows();
                    self.take_out(child);
                }
                None => return,
            }
        }
    }

    fn set_text(&mut self, n: u32, text: Span)
        requires { n < length self.old.nodes }
        ensures { self.new ≡ with_text_of self.old n text }
    {
        put_text(&mut self.nodes, n, text);
    }
}

// Gives the record of this number the text.
fn put_text(nodes: &mut Vec<NodeRecord>, n: u32, text: Span)
    requires { n < length nodes.old.items }
    ensures set { nodes.new.items ≡ slice_set nodes.old.items n
        (record (record_at nodes.old.items n) { text = Some text }) }
    ensures room { vec_capacity nodes.new ≡ vec_capacity nodes.old }
{
    let found = record_at(nodes, n);
    nodes[n as usize] = NodeRecord {
        text: Some(text),
        ..found
    };
}
