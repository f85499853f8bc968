ghost use Rattle.std.specs.Prelude.{length, IfOk};
ghost use Rattle.rip_early.specs.Contexts.{AreContexts};
ghost use Rattle.rip_early.specs.Gathered.{AreScopes};
ghost use Rattle.rip_early.specs.Indexed.{names_of, IsIndexed};
ghost use Rattle.rip_early.specs.Least.{IsLeast};
ghost use Rattle.rip_early.specs.Mistakes.{mistakes};

use crate::context::Context;
use crate::mistake::{Mistake, earlier};
use crate::names::Names;
use crate::node::node_mistake;
use crate::strict::directive_mistake;
use rip_base::NoMemory;
use rip_tree::Tree;
use std::alloc::Global;

/// The early error of a script that counts first, if it has one.
pub(crate) fn script_mistake(
    alloc: Global,
    tree: &Tree,
    top: &Names<'_>,
    contexts: &[Context],
    scopes: &[Names<'_>],
) -> Result<Option<Mistake>, NoMemory>
    requires top { IsIndexed top.now }
    requires contexts { AreContexts tree.now (length tree.now.branches) contexts.now }
    requires scopes { AreScopes tree.now scopes.now }
    ensures { IfOk result (λ least. IsLeast (mistakes (names_of top.now) tree.now) least) }
{
    let mut least = directive_mistake(tree);
    for id in 0..tree.count() {
        let found = node_mistake(alloc, tree, top, contexts, scopes, id)?;
        least = earlier(least, found);
    }
    Ok(least)
}
