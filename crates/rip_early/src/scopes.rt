ghost use Rattle.std.specs.Prelude.{◌≡◌, ℕ, ◌<◌, [], length, fold, option_map, if◌then◌else◌, slice_index_or, IfOk, OnOk};
ghost use Rattle.std.specs.List.{All};
ghost use Rattle.rip_early.specs.Around.{in_text};
ghost use Rattle.rip_early.specs.Contexts.{AreContexts};
ghost use Rattle.rip_early.specs.Gathered.{AreGathered, AreScopes};
ghost use Rattle.rip_early.specs.Indexed.{names_of, with_any, IsIndexed};
ghost use Rattle.rip_early.specs.Names.{with_name, parameter_names, function_names, var_names, is_number, top_scope};
ghost use Rattle.rip_early.specs.declared.names.Names.{Names};

use crate::context::{Context, contexts_of, parents_of};
use crate::declared::{add_functions, add_parameters, add_vars, form_of, name_of, var_piece};
use crate::names::Names;
use crate::order::text_order;
use rip_base::NoMemory;
use rip_tree::Tree;
use std::alloc::Global;

/// The names that the one top scope of all scripts binds.
pub(crate) fn top_names<'a>(alloc: Global, trees: &'a [Tree]) -> Result<Names<'a>, NoMemory>
    ensures kept { IfOk result IsIndexed }
    ensures named { IfOk result (λ names. names_of names ≡ top_scope trees.now) }
{
    let mut names = Names::new(alloc);
    for tree in trees {
        add_script(alloc, &mut names, tree)?;
    }
    Ok(names)
}

/// Adds the names that a script declares.
fn add_script<'a>(alloc: Global, names: &mut Names<'a>, tree: &'a Tree) -> Result<(), NoMemory>
    requires { IsIndexed names.old }
    ensures kept { OnOk result (IsIndexed names.new) }
    ensures added { OnOk result
        (names_of names.new ≡ fold with_name
        (fold with_name (names_of names.old) (function_names tree.now 0)) (var_names tree.now 0)) }
{
    let parents = parents_of(alloc, tree)?;
    let contexts = contexts_of(alloc, tree, &parents)?;
    let order = text_order(alloc, tree)?;
    add_functions(names, tree, 0)?;
    add_vars(names, tree, 0, &contexts, &order)
}

/// Of each node the scope that it would make as a function: its names. The nodes are known in the order of the text.
pub(crate) fn scopes_of<'a>(
    alloc: Global,
    tree: &'a Tree,
    contexts: &[Context],
    order: &[u32],
) -> Result<Vec<Names<'a>>, NoMemory>
    requires contexts { AreContexts tree.now (length tree.now.branches) contexts.now }
    requires listed { order.now ≡ in_text tree.now }
    requires within { All (λ id. id < length tree.now.branches) order.now }
    ensures { IfOk result (λ scopes. AreScopes tree.now scopes.items) }
{
    let mut scopes = declared_scopes(alloc, tree)?;
    add_all_vars(&mut scopes, tree, contexts, order)?;
    Ok(scopes)
}

/// Of each node the names of its parameters and functions.
fn declared_scopes<'a>(alloc: Global, tree: &'a Tree) -> Result<Vec<Names<'a>>, NoMemory>
    ensures { IfOk result
        (λ scopes. AreGathered tree.now 0 (length tree.now.branches) scopes.items) }
{
    let mut scopes = Vec::new(alloc);
    for id in 0..tree.count() {
        scopes.push(declared_scope(alloc, tree, id)?)?;
    }
    Ok(scopes)
}

/// The names of the parameters and functions of a node.
fn declared_scope<'a>(alloc: Global, tree: &'a Tree, id: u32) -> Result<Names<'a>, NoMemory>
    ensures kept { IfOk result IsIndexed }
    ensures named { IfOk result
        (λ names. names_of names ≡ fold with_name (fold with_name [] (parameter_names tree.now id))
        (function_names tree.now id)) }
{
    let mut names = Names::new(alloc);
    add_parameters(&mut names, tree, id)?;
    add_functions(&mut names, tree, id)?;
    Ok(names)
}

/// Adds to each scope the names that are declared by `var` in it.
fn add_all_vars<'a>(
    scopes: &mut Vec<Names<'a>>,
    tree: &'a Tree,
    contexts: &[Context],
    order: &[u32],
) -> Result<(), NoMemory>
    requires contexts { AreContexts tree.now (length tree.now.branches) contexts.now }
    requires listed { order.now ≡ in_text tree.now }
    requires within { All (λ id. id < length tree.now.branches) order.now }
    requires declared { AreGathered tree.now 0 (length tree.now.branches) scopes.old.items }
    ensures { OnOk result (AreScopes tree.now scopes.new.items) }
{
    for id in order {
        let context = contexts[*id as usize];
        let name = name_of(tree, var_piece(form_of(tree, *id)));
        add_var(scopes, context.home, name)?;
    }
    Ok(())
}

/// Adds a name, if there is one, to the scope of a script or function.
fn add_var<'a>(
    scopes: &mut Vec<Names<'a>>,
    home: Option<u32>,
    name: Option<&'a [u16]>,
) -> Result<(), NoMemory>
    requires { (id : ℕ) (d : Names) → id < length scopes.old.items
        → IsIndexed (slice_index_or scopes.old.items id d) }
    ensures many { length scopes.new.items ≡ length scopes.old.items }
    ensures kept { OnOk result
        ((id : ℕ) (d : Names) → id < length scopes.old.items
        → IsIndexed (slice_index_or scopes.new.items id d)) }
    ensures added { OnOk result
        ((id : ℕ) (d : Names) → id < length scopes.old.items
        → names_of (slice_index_or scopes.new.items id d)
        ≡ with_any (names_of (slice_index_or scopes.old.items id d))
        (if is_number home id then option_map (λ n. n.now) name.entry else None)) }
{
    if let Some(number) = home {
        let place = number as usize;
        if place < scopes.len() {
            let names = &mut scopes[place];
            names.add_any(name)?;
        }
    }
    Ok(())
}
