ghost use Rattle.std.specs.Prelude.{◌≡◌, ◌<◌, ◌≤◌, length, Some, IfOk, IfSome, option_map, slice_get};
ghost use Rattle.rip_tree.specs.Branches.{child_of, node_of, units_at};
ghost use Rattle.rip_tree.specs.Firsts.{FirstsHaveTheNames, first_named, name_at};
ghost use Rattle.rip_tree.specs.Program.{ChildrenAreCounted, joined, root_of, scoping_of, vars_of};

use crate::firsts::firsts_of;
use crate::joined::Joined;
use crate::node::{Node, Piece};
use crate::tree::Tree;
use rip_base::{List, NoMemory, Units};
use rip_values::Global as GlobalName;
use std::alloc::Global;
use std::marker::Model;

/// What a name means where it stands (ECMA-262 10.2.2.1).
#[derive(Clone, Copy, Debug, PartialEq, Eq)]
pub enum Resolved {
    /// A binding: how many scopes further out, and its place in that scope. The scope of a function expression's own
    /// name counts as one.
    Binding { up: u32, place: u32 },
    Global(GlobalName),
}

/// What the rules of scope say of a node.
#[derive(Clone, Copy, Debug, PartialEq, Eq)]
pub struct Scoping {
    /// How many bindings the scope of a function or catch clause has; of other nodes 0.
    pub names: u32,
    /// What the name that the node reads or binds means; none where it reads and binds no name.
    pub resolved: Option<Resolved>,
    /// Whether that name is a function expression's own.
    pub is_own: bool,
}

/// The program of a page: the nodes of all its scripts, numbered through in the order of the scripts, with what the
/// rules of scope say of each, and the names of the one top scope. Reading is total, and takes the same time in every
/// program.
#[derive(Debug, Drop)]
pub struct Program {
    trees: Joined,
    top: Vec<Units>,
    vars: Vec<List<u32>>,
    scoping: Vec<Scoping>,
    firsts: Vec<u32>,
}

impl Model for Program {
    ghost use Rattle.rip_tree.specs.Program.{Code};
    ghost use Rattle.rip_tree.specs.Joining.{grove_of, IsProgram};

    ghost Value = { Code };

    ghost view = { λ p. record { grove = grove_of p.trees; top = p.top.items; vars = p.vars.items; scoping = p.scoping.items } };

    ghost invariant = { λ p. IsProgram p.trees p.top.items p.firsts.items };
}

impl Program {
    /// The program of these trees, where the top scope binds these names, by place, each script declares the names at
    /// these places by `var`, and the rules of scope say this of each node; of nodes past the last of which they speak
    /// they say nothing. Trees whose nodes or units 32 bits cannot count, and names that they cannot count, are refused as
    /// want of memory.
    pub fn new(
        alloc: Global,
        trees: &[Tree],
        top: Vec<Units>,
        vars: Vec<List<u32>>,
        scoping: Vec<Scoping>,
    ) -> Result<Program, NoMemory>
        ensures { IfOk result
            (λ program. program ≡ record {
              grove = joined trees.now;
              top = top.items;
              vars = vars.items;
              scoping =
                  scoping.items;
            }) }
    {
        if top.len() > u32::MAX as usize {
            return Err(NoMemory);
        }
        let trees = Joined::of(alloc, trees)?;
        let firsts = firsts_of(alloc, &trees)?;
        Ok(Program {
            trees,
            top,
            vars,
            scoping,
            firsts,
        })
    }

    /// How many nodes the program has.
    pub fn count(&self) -> u32
        ensures { result ≡ length self.now.grove.branches }
    {
        self.trees.count()
    }

    /// The node with this number.
    pub fn node(&self, id: u32) -> &Node
        requires { id < length self.now.grove.branches }
        ensures { node_of self.now.grove.branches id ≡ Some result.now }
    {
        self.trees.node(id)
    }

    /// The node with this number, or none past the last.
    pub fn node_at(&self, id: u32) -> Option<Node>
        ensures { result ≡ node_of self.now.grove.branches id }
    {
        self.trees.node_at(id)
    }

    /// The number of the node's child at this place, from 0, or none where it has no child there.
    pub fn child(&self, id: u32, place: u32) -> Option<u32>
        ensures child { result ≡ child_of self.now.grove.branches id place }
        ensures above { IfSome result (λ c. (id < c) × (c < length self.now.grove.branches)) }
    {
        self.trees.child(id, place)
    }

    /// Law: wherever a node has a child, 32 bits count the place behind it.
    pub fn children_are_counted(&self)
        ensures { ChildrenAreCounted self.now }
    {
        let _ = &self.trees;
    }

    /// The units that a piece of this program stands for. Of a piece past the end it is the part that is there.
    pub fn units(&self, piece: Piece) -> &[u16]
        ensures { result.now ≡ units_at self.now.grove.units piece }
    {
        self.trees.units(piece)
    }

    /// The first node with the name of this one, which it has as a member or as an entry of an object literal. Of a node
    /// without such a name, and past the last, it is the number itself.
    pub fn first_named(&self, id: u32) -> u32
        ensures first { result ≡ first_named self.now.grove id }
        ensures before { result ≤ id }
        ensures same { name_at self.now.grove result ≡ name_at self.now.grove id }
    {
        if id as usize >= self.firsts.len() {
            return id;
        }
        self.firsts[id as usize]
    }

    /// Law: the first node with the name of a node comes no later, it has that name, and it is the first with it.
    pub fn firsts_have_the_names(&self)
        ensures { FirstsHaveTheNames self.now.grove }
    {
        let _ = &self.firsts;
    }

    /// How many scripts the program has.
    pub fn scripts(&self) -> u32
        ensures { result ≡ length self.now.grove.roots }
    {
        self.trees.scripts()
    }

    /// The number of a script's root. Scripts are numbered from 1; past the last it is 0.
    pub fn root(&self, script: u32) -> u32
        ensures { result ≡ root_of self.now.grove script }
    {
        self.trees.root(script)
    }

    /// How many names the one top scope of all scripts binds.
    pub fn top_names(&self) -> u32
        ensures { result ≡ length self.now.top }
    {
        self.top.len() as u32
    }

    /// The name that the top scope binds at this place, or none past the last.
    pub fn top_name(&self, place: u32) -> Option<&[u16]>
        ensures { option_map (λ n. n.now) result ≡ slice_get self.now.top place }
    {
        match self.top.get(place as usize) {
            Some(name) => Some(name.as_slice()),
            None => None,
        }
    }

    /// The places in the top scope of the names that a script declares by `var`. Scripts are numbered from 1; past the
    /// last there are none.
    pub fn vars(&self, script: u32) -> &[u32]
        ensures { result.now ≡ vars_of self.now.vars script }
    {
        let place = script.saturating_sub(1) as usize;
        if place >= self.vars.len() {
            return &[];
        }
        self.vars[place].as_slice()
    }

    /// How many bindings the scope of this function or catch clause has; of another node it is 0.
    pub fn names(&self, id: u32) -> u32
        ensures { result ≡ (scoping_of self.now.scoping id).names }
    {
        scoping_at(self.scoping.as_slice(), id).names
    }

    /// What the name means that the node reads or binds; none where it reads and binds no name.
    pub fn resolved(&self, id: u32) -> &Option<Resolved>
        ensures { result.now ≡ (scoping_of self.now.scoping id).resolved }
    {
        if id as usize >= self.scoping.len() {
            return &None;
        }
        &self.scoping[id as usize].resolved
    }

    /// Whether the name that the node reads or binds is a function expression's own, which is never assigned
    /// (ECMA-262 13).
    pub fn is_own_name(&self, id: u32) -> bool
        ensures { result ≡ (scoping_of self.now.scoping id).is_own }
    {
        scoping_at(self.scoping.as_slice(), id).is_own
    }
}

/// What the rules of scope say of the node with this number.
fn scoping_at(scoping: &[Scoping], id: u32) -> Scoping
    ensures { result ≡ scoping_of scoping.now id }
{
    if id as usize >= scoping.len() {
        return Scoping {
            names: 0,
            resolved: None,
            is_own: false,
        };
    }
    scoping[id as usize]
}
