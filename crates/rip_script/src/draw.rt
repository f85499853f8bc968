ghost use Rattle.std.specs.Prelude.{◌≡◌, IfOk, OnOk};
ghost use Rattle.rip_outer.specs.Writing.{CountsPut};
ghost use Rattle.rip_script.specs.Lines.{lines_text};
ghost use Rattle.rip_script.specs.Steps.{AreOpen, IsOpen, Opens, Puts, open_lines};
ghost use Rattle.rip_script.specs.Texts.{tree_text};

use crate::block::{put_block, put_full_block};
use crate::lines::write_node;
use rip_base::{NoMemory, Writer};
use rip_outer::{Sink, SinkError};
use rip_tree::Tree;
use std::alloc::Global;

/// A branch whose lines are due: its number, and how many levels stand above it.
#[derive(Clone, Copy, Debug)]
pub struct Open {
    pub id: u32,
    pub level: u32,
}

/// Puts a line for each node of the tree, as it is made. The branches whose lines are due stand on a stack.
pub fn put_tree<S: Sink>(alloc: Global, tree: &Tree, out: &mut S) -> Result<(), SinkError>
    ensures put { Puts result (tree_text tree.now) (S.held out.old) (S.held out.new) }
    ensures counted { CountsPut result (S.count out.old) (S.count out.new) }
{
    let mut stack = open_root(alloc, tree)?;
    let mut block = Writer::new(alloc);
    while let Some(next) = stack.pop() {
        write_node(&mut block, next.level, tree.node(next.id))?;
        put_full_block(&mut block, out)?;
        open_children(&mut stack, tree, next)?;
    }
    put_block(&mut block, out)
}

/// The root alone, if the tree has one.
fn open_root(alloc: Global, tree: &Tree) -> Result<Vec<Open>, NoMemory>
    ensures lines { IfOk result
        (λ stack. lines_text (open_lines tree.now.branches stack.items) ≡ tree_text tree.now) }
    ensures opened { IfOk result (λ stack. AreOpen tree.now.branches stack.items) }
{
    let mut stack = Vec::new(alloc);
    if tree.count() > 0 {
        stack.push(Open { id: 0, level: 0 })?;
    }
    Ok(stack)
}

/// Opens the children of a branch, the last one first, so that the first one is next.
fn open_children(stack: &mut Vec<Open>, tree: &Tree, branch: Open) -> Result<(), NoMemory>
    requires branch { IsOpen tree.now.branches branch }
    requires opened { AreOpen tree.now.branches stack.old.items }
    ensures lines { OnOk result (Opens tree.now.branches branch stack.old.items stack.new.items) }
    ensures opened { OnOk result (AreOpen tree.now.branches stack.new.items) }
{
    let _count = tree.count();
    for child in tree.children(branch.id).iter().rev() {
        if let Some(id) = child {
            stack.push(Open {
                id: *id,
                level: branch.level + 1,
            })?;
        }
    }
    Ok(())
}
