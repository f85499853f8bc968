//! Numbered syntax trees of scripts: each node has a form of the grammar, a place in the text, and children.
//!
//! A [`Tree`] is what the parser shows of a script and what the layers above walk over: nodes are numbered from 0,
//! the script itself, and a child's number is above its parent's. Reading is total. The forms are those of ECMA-262 11
//! to 14 that the language has; parentheses and semicolons make no node. A [`TreeMaker`] makes a tree from the leaves
//! up, in the order in which a parser ends its nodes. A [`Program`] is the trees of all scripts of a page, numbered
//! through, with the names of their one top scope and what the rules of scope say of each node: it holds what it is given,
//! and reading it is total.
//!
//! | what | its definition in `specs/` |
//! |---|---|
//! | [`Tree`], [`TreeMaker`] | contracts see `Branches.Plant` and `Making.Growth`: the branches and the units |
//! | [`Tree::child`] | `Branches.child_of`, in the list of children |
//! | [`Tree::units`] | `Branches.units_at` |
//! | [`Program::new`] | `Program.joined`: the branches and units of each tree, moved behind those before it |
//! | [`Program::first_named`] | `Firsts.first_named`: the first node that has the same name |
//! | [`Program::root`] | `Program.root_of`, in the list of the roots of the scripts |
//! | [`Program::top_name`], [`Program::vars`] | `Program.Code` has the names; `Program.vars_of`, in the list that it was given |
//! | [`Program::names`], [`Program::resolved`], [`Program::is_own_name`] | `Program.scoping_of`, in the list that it was given |
#![tactic(auto)]

mod firsts;
mod form;
mod joined;
mod maker;
mod moving;
mod node;
mod program;
mod tree;

pub use form::{Form, FunctionHead, Key, TextLiteral};
pub use maker::TreeMaker;
pub use node::{Node, Piece};
pub use program::{Program, Resolved, Scoping};
pub use tree::{Tree, Trees};
