ghost use Rattle.std.specs.Prelude.{◌≡◌, ◌++◌, ◌<◌, length, IfOk, OnOk};
ghost use Rattle.std.specs.List.{All, flat_map};
ghost use Rattle.rip_early.specs.Around.{children_of, in_text, in_text_within};

use rip_base::NoMemory;
use rip_tree::Tree;
use std::alloc::Global;

/// The numbers of the nodes of a script in the order of its text.
pub(crate) fn text_order(alloc: Global, tree: &Tree) -> Result<Vec<u32>, NoMemory>
    ensures listed { IfOk result (λ order. order.items ≡ in_text tree.now) }
    ensures within { IfOk result (λ order. All (λ id. id < length tree.now.branches) order.items) }
{
    let mut order = Vec::new(alloc);
    list(&mut order, tree, tree.count(), 0)?;
    Ok(order)
}

/// Adds a node and those below it, so many levels down.
#[cycle(lists)]
fn list(order: &mut Vec<u32>, tree: &Tree, levels: u32, id: u32) -> Result<(), NoMemory>
    ensures { OnOk result (order.new.items ≡ order.old.items ++ in_text_within levels tree.now id) }
{
    if levels == 0 {
        return Ok(());
    }
    order.push(id)?;
    list_below(order, tree, levels - 1, id)
}

/// Adds the nodes below a node, so many levels down from each of its children.
#[cycle(lists)]
fn list_below(order: &mut Vec<u32>, tree: &Tree, levels: u32, id: u32) -> Result<(), NoMemory>
    ensures { OnOk result
        (order.new.items ≡ order.old.items ++ flat_map (in_text_within levels tree.now)
        (children_of tree.now id)) }
{
    for child in tree.children(id) {
        if let Some(child) = child {
            list(order, tree, levels, *child)?;
        }
    }
    Ok(())
}
