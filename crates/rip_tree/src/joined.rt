ghost use Rattle.std.specs.Prelude.{◌≡◌, ◌<◌, ◌^◌, length, Some, IfOk, IfSome, OnOk};
ghost use Rattle.rip_tree.specs.Branches.{child_of, node_of, units_at};
ghost use Rattle.rip_tree.specs.Program.{joined, root_of, with_tree};
ghost use Rattle.rip_tree.specs.Joining.{grove_of, IsJoined};

use crate::moving::{Move, push_branches};
use crate::node::{Node, Piece, Row, within};
use crate::tree::{Tree, child_in, range_of};
use rip_base::NoMemory;
use std::alloc::Global;

/// The trees of scripts, joined: the nodes, the children of all nodes, the units of all scripts and texts, and of each
/// script the number of its root.
#[derive(Debug, Drop)]
pub(crate) struct Joined {
    pub rows: Vec<Row>,
    pub links: Vec<Option<u32>>,
    pub units: Vec<u16>,
    pub roots: Vec<u32>,
}

impl Joined {
    /// These trees, joined.
    pub fn of(alloc: Global, trees: &[Tree]) -> Result<Joined, NoMemory>
        ensures kept { IfOk result IsJoined }
        ensures linked { IfOk result (λ all. length all.links.items < 2 ^ 32) }
        ensures joined { IfOk result (λ all. grove_of all ≡ joined trees.now) }
    {
        let mut all = Joined {
            rows: Vec::new(alloc),
            links: Vec::new(alloc),
            units: Vec::new(alloc),
            roots: Vec::new(alloc),
        };
        for tree in trees {
            all.add(tree)?;
        }
        if all.links.len() > u32::MAX as usize {
            return Err(NoMemory);
        }
        Ok(all)
    }

    /// Puts a tree behind those that are there.
    fn add(&mut self, tree: &Tree) -> Result<(), NoMemory>
        requires { IsJoined self.old }
        ensures kept { OnOk result (IsJoined self.new) }
        ensures added { OnOk result (grove_of self.new ≡ with_tree (grove_of self.old) tree.now) }
    {
        let branches = self.rows.len();
        let units = self.units.len();
        let most = u32::MAX as usize;
        if tree.rows.len() > most - branches
            || tree.units.len() > most - units
            || self.roots.len() >= most
        {
            return Err(NoMemory);
        }
        let by = Move {
            branches: branches as u32,
            units: units as u32,
            there: tree.units.len() as u32,
        };
        push_branches(
            &mut self.rows,
            &mut self.links,
            tree.rows.as_slice(),
            tree.links.as_slice(),
            by,
        )?;
        self.units.extend_from_slice(tree.units.as_slice())?;
        self.roots.push(by.branches)?;
        Ok(())
    }

    pub fn count(&self) -> u32
        requires { IsJoined self.now }
        ensures { result ≡ length (grove_of self.now).branches }
    {
        self.rows.len() as u32
    }

    pub fn node(&self, id: u32) -> &Node
        requires { id < length (grove_of self.now).branches }
        ensures { node_of (grove_of self.now).branches id ≡ Some result.now }
    {
        let row = &self.rows[id as usize];
        &row.node
    }

    pub fn node_at(&self, id: u32) -> Option<Node>
        ensures { result ≡ node_of (grove_of self.now).branches id }
    {
        if id as usize >= self.rows.len() {
            return None;
        }
        let row = self.rows[id as usize];
        Some(row.node)
    }

    pub fn child(&self, id: u32, place: u32) -> Option<u32>
        requires { IsJoined self.now }
        ensures child { result ≡ child_of (grove_of self.now).branches id place }
        ensures above { IfSome result (λ c. (id < c) × (c < length (grove_of self.now).branches)) }
    {
        if id as usize >= self.rows.len() {
            return None;
        }
        let row = self.rows[id as usize];
        let children = range_of(self.links.as_slice(), row.start, row.end);
        child_in(children, place as usize)
    }

    pub fn units(&self, piece: Piece) -> &[u16]
        ensures { result.now ≡ units_at (grove_of self.now).units piece }
    {
        let (start, end) = within(piece, self.units.len());
        &self.units[start..end]
    }

    pub fn scripts(&self) -> u32
        requires { IsJoined self.now }
        ensures { result ≡ length (grove_of self.now).roots }
    {
        self.roots.len() as u32
    }

    pub fn root(&self, script: u32) -> u32
        ensures { result ≡ root_of (grove_of self.now) script }
    {
        let place = script.saturating_sub(1) as usize;
        if place >= self.roots.len() {
            return 0;
        }
        self.roots[place]
    }
}
