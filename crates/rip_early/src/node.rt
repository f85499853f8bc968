ghost use Rattle.std.specs.Prelude.{◌≡◌, ◌<◌, length, IfOk};
ghost use Rattle.rip_tree.specs.Branches.{ChildrenFollow, node_of};
ghost use Rattle.rip_early.specs.Contexts.{AreContexts};
ghost use Rattle.rip_early.specs.Gathered.{AreScopes};
ghost use Rattle.rip_early.specs.Indexed.{names_of, IsIndexed};
ghost use Rattle.rip_early.specs.Least.{IsLeast};
ghost use Rattle.rip_early.specs.Mistakes.{mistakes_of};

use crate::bindings::{bad_assignment, bad_binding};
use crate::context::Context;
use crate::duplicates::duplicate;
use crate::mistake::{Mistake, earlier};
use crate::names::Names;
use crate::uses::bad_use;
use rip_base::NoMemory;
use rip_tree::Tree;
use std::alloc::Global;

/// The first early error of a node.
pub(crate) fn node_mistake(
    alloc: Global,
    tree: &Tree,
    top: &Names<'_>,
    contexts: &[Context],
    scopes: &[Names<'_>],
    id: u32,
) -> Result<Option<Mistake>, NoMemory>
    requires there { id < length tree.now.branches }
    requires follow { ChildrenFollow (length tree.now.branches) tree.now.branches }
    requires top { IsIndexed top.now }
    requires contexts { AreContexts tree.now (length tree.now.branches) contexts.now }
    requires scopes { AreScopes tree.now scopes.now }
    ensures { IfOk result
        (λ least. IsLeast (mistakes_of (names_of top.now) tree.now id
        (node_of tree.now.branches id)) least) }
{
    let node = tree.node(id);
    let twice = duplicate(alloc, tree, id, node)?;
    let bound = bad_binding(tree, contexts, id, node);
    let assigned = bad_assignment(alloc, tree, contexts, scopes, id, node)?;
    let used = bad_use(tree, top, contexts, scopes, id, node)?;
    Ok(earlier(earlier(earlier(twice, bound), assigned), used))
}
