ghost use Rattle.std.specs.Prelude.{◌≡◌, ◌++◌, ◌<◌, fold, filter_map, length, option_and_then, option_map, option_to_list, IfOk, OnOk};
ghost use Rattle.std.specs.List.{All};
ghost use Rattle.rip_tree.specs.Branches.{units_at};
ghost use Rattle.rip_early.specs.Around.{form_of, home_of, in_text};
ghost use Rattle.rip_early.specs.Contexts.{AreContexts};
ghost use Rattle.rip_early.specs.Indexed.{names_of, name_of_child, IsIndexed};
ghost use Rattle.rip_early.specs.Names.{place_in, with_name, name_by, parameter_piece, parameter_names, declared_piece, function_names, var_piece, var_name_in, var_names};
ghost use Rattle.rip_early.specs.Program.{declared_places};

use crate::context::Context;
use crate::names::Names;
use rip_base::NoMemory;
use rip_tree::{Form, Piece, Tree};
use std::alloc::Global;

/// The form of a node, or past the last that of the empty statement.
pub(crate) fn form_of(tree: &Tree, id: u32) -> Form
    ensures { result ≡ form_of tree.now id }
{
    if id >= tree.count() {
        return Form::Empty;
    }
    tree.node(id).form
}

/// What a form names as a parameter.
fn parameter_piece(form: Form) -> Option<Piece>
    ensures { result ≡ parameter_piece form }
{
    match form {
        Form::Parameter(name) => Some(name),
        _ => None,
    }
}

/// What a form names as a declaration of a function.
fn declared_piece(form: Form) -> Option<Piece>
    ensures { result ≡ declared_piece form }
{
    match form {
        Form::FunctionDeclaration(head) => head.name,
        _ => None,
    }
}

/// What a form names as a part of `var`.
pub(crate) fn var_piece(form: Form) -> Option<Piece>
    ensures { result ≡ var_piece form }
{
    match form {
        Form::Declarator(name) => Some(name),
        _ => None,
    }
}

/// The name that a piece stands for, if there is one.
pub(crate) fn name_of(tree: &Tree, piece: Option<Piece>) -> Option<&[u16]>
    ensures { option_map (λ n. n.now) result ≡ option_map (units_at tree.now.units) piece }
{
    match piece {
        Some(piece) => Some(tree.units(piece)),
        None => None,
    }
}

/// What a child names as a parameter.
fn parameter_name(tree: &Tree, child: Option<u32>) -> Option<&[u16]>
    ensures { option_map (λ n. n.now) result ≡ name_of_child (name_by parameter_piece tree.now)
        child }
{
    match child {
        Some(id) => name_of(tree, parameter_piece(form_of(tree, id))),
        None => None,
    }
}

/// What a child names as a declaration of a function.
fn declared_name(tree: &Tree, child: Option<u32>) -> Option<&[u16]>
    ensures { option_map (λ n. n.now) result ≡ name_of_child (name_by declared_piece tree.now)
        child }
{
    match child {
        Some(id) => name_of(tree, declared_piece(form_of(tree, id))),
        None => None,
    }
}

/// Adds the names of the parameters of a function.
pub(crate) fn add_parameters<'a>(
    names: &mut Names<'a>,
    tree: &'a Tree,
    id: u32,
) -> Result<(), NoMemory>
    requires { IsIndexed names.old }
    ensures kept { OnOk result (IsIndexed names.new) }
    ensures added { OnOk result
        (names_of names.new ≡ fold with_name (names_of names.old) (parameter_names tree.now id)) }
{
    let links = tree.children(id);
    for child in links {
        names.add_any(parameter_name(tree, *child))?;
    }
    Ok(())
}

/// Adds the names of the functions that a script or function declares.
pub(crate) fn add_functions<'a>(
    names: &mut Names<'a>,
    tree: &'a Tree,
    id: u32,
) -> Result<(), NoMemory>
    requires { IsIndexed names.old }
    ensures kept { OnOk result (IsIndexed names.new) }
    ensures added { OnOk result
        (names_of names.new ≡ fold with_name (names_of names.old) (function_names tree.now id)) }
{
    let links = tree.children(id);
    for child in links {
        names.add_any(declared_name(tree, *child))?;
    }
    Ok(())
}

/// What a node names by `var` in the code of a script or function.
fn var_name_in(tree: &Tree, home: u32, id: u32, context: Context) -> Option<&[u16]>
    requires { context.home ≡ home_of tree.now id }
    ensures { option_map (λ n. n.now) result ≡ var_name_in tree.now home id }
{
    match context.home {
        Some(own) if own == home => name_of(tree, var_piece(form_of(tree, id))),
        _ => None,
    }
}

/// Adds the names that the code of a script or function declares by `var`. The nodes are known in the order of the text.
pub(crate) fn add_vars<'a>(
    names: &mut Names<'a>,
    tree: &'a Tree,
    home: u32,
    contexts: &[Context],
    order: &[u32],
) -> Result<(), NoMemory>
    requires kept { IsIndexed names.old }
    requires contexts { AreContexts tree.now (length tree.now.branches) contexts.now }
    requires listed { order.now ≡ in_text tree.now }
    requires within { All (λ id. id < length tree.now.branches) order.now }
    ensures kept { OnOk result (IsIndexed names.new) }
    ensures added { OnOk result
        (names_of names.new ≡ fold with_name (names_of names.old) (var_names tree.now home)) }
{
    for id in order {
        let context = contexts[*id as usize];
        names.add_any(var_name_in(tree, home, *id, context))?;
    }
    Ok(())
}

/// The places among these names of those that a script declares by `var`. The nodes are known in the order of the text.
pub(crate) fn declared_places(
    alloc: Global,
    tree: &Tree,
    names: &Names<'_>,
    contexts: &[Context],
    order: &[u32],
) -> Result<Vec<u32>, NoMemory>
    requires kept { IsIndexed names.now }
    requires contexts { AreContexts tree.now (length tree.now.branches) contexts.now }
    requires listed { order.now ≡ in_text tree.now }
    requires within { All (λ id. id < length tree.now.branches) order.now }
    ensures { IfOk result (λ places. places.items ≡ declared_places (names_of names.now) tree.now) }
{
    let mut places = Vec::new(alloc);
    for id in order {
        let name = var_name_in(tree, 0, *id, contexts[*id as usize]);
        push_place(&mut places, names, name)?;
    }
    Ok(places)
}

/// Adds the place of a name among these names, if it is one of them.
fn push_place(
    places: &mut Vec<u32>,
    names: &Names<'_>,
    name: Option<&[u16]>,
) -> Result<(), NoMemory>
    requires { IsIndexed names.now }
    ensures { OnOk result
        (places.new.items ≡ places.old.items
        ++ option_to_list (option_and_then (place_in (names_of names.now))
        (option_map (λ n. n.now) name.entry))) }
{
    if let Some(name) = name {
        if let Some(place) = names.place(name) {
            places.push(place)?;
        }
    }
    Ok(())
}
