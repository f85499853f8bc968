ghost use Rattle.std.specs.Prelude.{◌≡◌, ◌+◌, ◌-◌, ◌<◌, ◌++◌, [], length, IfOk, OnErr, OnOk};
ghost use Rattle.rip_tree.specs.Branches.{AreBetween, units_at};
ghost use Rattle.rip_tree.specs.Making.{with_branch, with_units, piece_behind};

use crate::node::{Node, Piece, Row};
use crate::tree::Tree;
use rip_base::NoMemory;
use std::alloc::Global;
use std::marker::Model;

/// A tree that is being made, from its last node to its first: each node after its children.
#[derive(Debug, Drop)]
pub struct TreeMaker {
    total: u32,
    rows: Vec<Row>,
    links: Vec<Option<u32>>,
    units: Vec<u16>,
}

impl Model for TreeMaker {
    ghost use Rattle.std.specs.Prelude.{length, reverse};
    ghost use Rattle.rip_tree.specs.Making.{Growth, IsGrown, branches_at};

    ghost Value = { Growth };

    ghost view = { λ m. record { total = m.total; branches = branches_at m.links.items (reverse m.rows.items); units = m.units.items } };

    ghost invariant = { λ m. IsGrown m.total m.links.items (reverse m.rows.items) (length m.units.items) };
}

impl TreeMaker {
    /// No node yet of a tree of `total` nodes, over the units of its script. A script whose units 32 bits cannot count is
    /// refused as want of memory.
    pub fn new(alloc: Global, total: u32, script: &[u16]) -> Result<TreeMaker, NoMemory>
        ensures { IfOk result
            (λ maker. maker ≡ record { total = total; branches = []; units = script.now }) }
    {
        if script.len() > u32::MAX as usize {
            return Err(NoMemory);
        }
        Ok(TreeMaker {
            total,
            rows: Vec::new(alloc),
            links: Vec::new(alloc),
            units: Vec::from_slice(alloc, script)?,
        })
    }

    /// The number of the node that is made next.
    pub fn next(&self) -> u32
        requires { length self.now.branches < self.now.total }
        ensures { result + length self.now.branches + 1 ≡ self.now.total }
    {
        self.total - self.rows.len() as u32 - 1
    }

    /// Puts units behind the script's: the value of a text. More than 32 bits can count are refused as want of memory.
    pub fn add_units(&mut self, units: &[u16]) -> Result<Piece, NoMemory>
        ensures piece { IfOk result (λ piece. piece ≡ piece_behind self.old units.now) }
        ensures added { OnOk result (self.new ≡ with_units self.old units.now) }
        ensures stands { IfOk result (λ piece. units_at self.new.units piece ≡ units.now) }
        ensures err { OnErr result (self.new ≡ self.old) }
    {
        let start = self.units.len();
        if units.len() > u32::MAX as usize - start {
            return Err(NoMemory);
        }
        self.units.extend_from_slice(units)?;
        Ok(Piece {
            start: start as u32,
            count: units.len() as u32,
        })
    }

    /// Makes the next node, whose children are made, and answers its number.
    pub fn push(&mut self, node: Node, children: &[Option<u32>]) -> Result<u32, NoMemory>
        requires room { length self.old.branches < self.old.total }
        requires above { AreBetween (self.old.total - (length self.old.branches + 1)) self.old.total
            children.now }
        ensures number { IfOk result (λ id. id + length self.old.branches + 1 ≡ self.old.total) }
        ensures made { OnOk result (self.new ≡ with_branch self.old node children.now) }
        ensures err { OnErr result (self.new ≡ self.old) }
    {
        let start = self.links.len();
        self.rows.reserve(1)?;
        self.links.extend_from_slice(children)?;
        self.rows.push(Row {
            node,
            start,
            end: self.links.len(),
        })?;
        Ok(self.total - self.rows.len() as u32)
    }

    /// The tree, once all its nodes are made.
    pub fn finish(self) -> Tree
        requires { length self.branches ≡ self.total }
        ensures { result ≡ record { branches = self.branches; units = self.units } }
    {
        let mut rows = self.rows;
        rows.reverse();
        Tree {
            rows,
            links: self.links,
            units: self.units,
        }
    }
}
