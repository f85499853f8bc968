ghost use Rattle.std.specs.Prelude.{◌≡◌, ◌<◌, ◌≤◌, length, slice_range, Some, IfSome};
ghost use Rattle.rip_tree.specs.Branches.{ChildrenFollow, child_at, child_of, links_of, node_of, units_at};

use crate::node::{Node, Piece, Row, within};
use rip_base::List;
use std::marker::Model;

/// The tree of a script. Node 0 is the script, and the number of a child is above that of its parent.
#[derive(Debug, Drop)]
pub struct Tree {
    pub(crate) rows: Vec<Row>,
    pub(crate) links: Vec<Option<u32>>,
    pub(crate) units: Vec<u16>,
}

/// The trees of the scripts of a page, in their order.
pub type Trees = List<Tree>;

impl Model for Tree {
    ghost use Rattle.std.specs.Prelude.{length};
    ghost use Rattle.rip_tree.specs.Branches.{Plant};
    ghost use Rattle.rip_tree.specs.Making.{IsGrown, branches_at};

    ghost Value = { Plant };

    ghost view = { λ t. record { branches = branches_at t.links.items t.rows.items; units = t.units.items } };

    ghost invariant = { λ t. IsGrown (length t.rows.items) t.links.items t.rows.items (length t.units.items) };
}

impl Tree {
    /// How many nodes the tree has. A child has a number above that of its parent.
    pub fn count(&self) -> u32
        ensures count { result ≡ length self.now.branches }
        ensures follow { ChildrenFollow (length self.now.branches) self.now.branches }
    {
        self.rows.len() as u32
    }

    /// The node with this number.
    pub fn node(&self, id: u32) -> &Node
        requires { id < length self.now.branches }
        ensures { node_of self.now.branches id ≡ Some result.now }
    {
        let row = &self.rows[id as usize];
        &row.node
    }

    /// The number of the node's child at this place, from 0, or none where it has no child there.
    pub fn child(&self, id: u32, place: u32) -> Option<u32>
        ensures child { result ≡ child_of self.now.branches id place }
        ensures above { IfSome result (λ c. (id < c) × (c < length self.now.branches)) }
    {
        if id as usize >= self.rows.len() {
            return None;
        }
        let row = self.rows[id as usize];
        let children = range_of(self.links.as_slice(), row.start, row.end);
        child_in(children, place as usize)
    }

    /// The numbers of the node's children, by place. Past the last node there are none.
    pub fn children(&self, id: u32) -> &[Option<u32>]
        ensures { result.now ≡ links_of self.now.branches id }
    {
        if id as usize >= self.rows.len() {
            return &[];
        }
        let own = self.rows[id as usize];
        range_of(self.links.as_slice(), own.start, own.end)
    }

    /// The units that a piece of this tree stands for: of a name its spelling, of a text its value. Of a piece past the
    /// end it is the part that is there.
    pub fn units(&self, piece: Piece) -> &[u16]
        ensures { result.now ≡ units_at self.now.units piece }
    {
        let (start, end) = within(piece, self.units.len());
        &self.units[start..end]
    }
}

/// A range of the children of all nodes.
pub(crate) fn range_of(links: &[Option<u32>], start: usize, end: usize) -> &[Option<u32>]
    requires order { start ≤ end }
    requires within { end ≤ length links.now }
    ensures { result.now ≡ slice_range links.now start end }
{
    &links[start..end]
}

/// The child at a place of a list of children.
pub(crate) fn child_in(children: &[Option<u32>], place: usize) -> Option<u32>
    ensures { result ≡ child_at children.now place }
{
    if place >= children.len() {
        return None;
    }
    children[place]
}
