ghost use Rattle.std.specs.Prelude.{◌≡◌, ◌++◌, filter_map, option_and_then, IfOk, OnOk};
ghost use Rattle.std.specs.Option.{option_to_list};
ghost use Rattle.std.specs.Fmt.{signed_decimal};
ghost use Rattle.rip_tree.specs.Branches.{node_of, units_at};
ghost use Rattle.rip_early.specs.Least.{IsLeast};
ghost use Rattle.rip_early.specs.Mistakes.{child_nodes, duplicates, key_name, placed_by, placed_by_key, placed_entry, placed_parameter, repeated};
ghost use Rattle.rip_early.specs.declared.duplicates.Placed.{Placed};

use crate::mistake::{Mistake, earlier};
use crate::names::Names;
use crate::refusal::EarlyKind;
use crate::uses::mistake_if;
use rip_base::{NoMemory, Units, Whole, text_of_whole};
use rip_tree::{Form, Key, Node, Tree};
use std::alloc::Global;

/// A name and its place.
#[derive(Debug, Drop)]
pub(crate) struct Placed {
    pub name: Units,
    pub place: u32,
}

/// The first early error of names that stand twice: of the parameters of a function, of the keys of an object literal.
pub(crate) fn duplicate(
    alloc: Global,
    tree: &Tree,
    id: u32,
    node: &Node,
) -> Result<Option<Mistake>, NoMemory>
    ensures { IfOk result (IsLeast (duplicates tree.now id node.now.form)) }
{
    match node.form {
        Form::FunctionDeclaration(_) | Form::Function(_) => duplicate_parameter(alloc, tree, id),
        Form::Object => duplicate_key(alloc, tree, id),
        _ => Ok(None),
    }
}

/// The first early error of the names of the parameters of a function.
fn duplicate_parameter(alloc: Global, tree: &Tree, id: u32) -> Result<Option<Mistake>, NoMemory>
    ensures { IfOk result
        (IsLeast (repeated (filter_map (placed_parameter tree.now) (child_nodes tree.now id)))) }
{
    let names = placed_parameters(alloc, tree, id)?;
    repeated(alloc, &names)
}

/// The first early error of the keys of an object literal.
fn duplicate_key(alloc: Global, tree: &Tree, id: u32) -> Result<Option<Mistake>, NoMemory>
    ensures { IfOk result
        (IsLeast (repeated (filter_map (placed_entry tree.now) (child_nodes tree.now id)))) }
{
    let names = placed_entries(alloc, tree, id)?;
    repeated(alloc, &names)
}

/// The names of the parameters of a function, each with its place.
fn placed_parameters(alloc: Global, tree: &Tree, id: u32) -> Result<Vec<Placed>, NoMemory>
    ensures { IfOk result
        (λ names. names.items ≡ filter_map (placed_parameter tree.now) (child_nodes tree.now id)) }
{
    let mut names = Vec::new(alloc);
    let links = tree.children(id);
    for child in links {
        push_any(&mut names, placed_parameter(alloc, tree, *child)?)?;
    }
    Ok(names)
}

/// The keys of an object literal, each with its place.
fn placed_entries(alloc: Global, tree: &Tree, id: u32) -> Result<Vec<Placed>, NoMemory>
    ensures { IfOk result
        (λ names. names.items ≡ filter_map (placed_entry tree.now) (child_nodes tree.now id)) }
{
    let mut names = Vec::new(alloc);
    let links = tree.children(id);
    for child in links {
        push_any(&mut names, placed_entry(alloc, tree, *child)?)?;
    }
    Ok(names)
}

/// Adds a name behind the others, if there is one.
fn push_any(names: &mut Vec<Placed>, name: Option<Placed>) -> Result<(), NoMemory>
    ensures { OnOk result (names.new.items ≡ names.old.items ++ option_to_list name) }
{
    if let Some(name) = name {
        names.push(name)?;
    }
    Ok(())
}

/// The name of a child that is a parameter, with its place.
fn placed_parameter(
    alloc: Global,
    tree: &Tree,
    child: Option<u32>,
) -> Result<Option<Placed>, NoMemory>
    ensures { IfOk result
        (λ placed. placed ≡ option_and_then (placed_parameter tree.now)
        (option_and_then (node_of tree.now.branches) child)) }
{
    match node_at(tree, child) {
        Some(node) => placed_by(alloc, tree, &node),
        None => Ok(None),
    }
}

/// The key of a child that is an entry, with its place.
fn placed_entry(alloc: Global, tree: &Tree, child: Option<u32>) -> Result<Option<Placed>, NoMemory>
    ensures { IfOk result
        (λ placed. placed ≡ option_and_then (placed_entry tree.now)
        (option_and_then (node_of tree.now.branches) child)) }
{
    match node_at(tree, child) {
        Some(node) => placed_by_key(alloc, tree, &node),
        None => Ok(None),
    }
}

/// The node with this number, if there is one.
fn node_at(tree: &Tree, id: Option<u32>) -> Option<Node>
    ensures { result ≡ option_and_then (node_of tree.now.branches) id }
{
    let id = id?;
    if id >= tree.count() {
        return None;
    }
    Some(*tree.node(id))
}

/// The name of a node that is a parameter, with its place.
fn placed_by(alloc: Global, tree: &Tree, node: &Node) -> Result<Option<Placed>, NoMemory>
    ensures { IfOk result (λ placed. placed ≡ placed_by tree.now node.now node.now.form) }
{
    let place = node.place;
    match node.form {
        Form::Parameter(name) => {
            let name = Units::from_slice(alloc, tree.units(name))?;
            Ok(Some(Placed { name, place }))
        }
        _ => Ok(None),
    }
}

/// The key of a node that is an entry, with its place.
fn placed_by_key(alloc: Global, tree: &Tree, node: &Node) -> Result<Option<Placed>, NoMemory>
    ensures { IfOk result (λ placed. placed ≡ placed_by_key tree.now node.now node.now.form) }
{
    let place = node.place;
    match node.form {
        Form::Entry(key) => {
            let name = key_name(alloc, tree, key)?;
            Ok(Some(Placed { name, place }))
        }
        _ => Ok(None),
    }
}

/// The text of a key.
fn key_name(alloc: Global, tree: &Tree, key: Key) -> Result<Units, NoMemory>
    ensures { IfOk result (λ name. name ≡ key_name tree.now key) }
{
    match key {
        Key::Name(name) => Units::from_slice(alloc, tree.units(name)),
        Key::Text(literal) => Units::from_slice(alloc, tree.units(literal.value)),
        Key::Number(number) => decimal_text(alloc, number),
    }
}

/// The decimal text of a number.
fn decimal_text(alloc: Global, number: Whole) -> Result<Units, NoMemory>
    ensures { IfOk result (λ text. text ≡ signed_decimal number) }
{
    let mut room = [0u16; 17];
    let count = text_of_whole(number, &mut room);
    Units::from_slice(alloc, &room[..count])
}

/// The first early error of names of which some stand twice.
fn repeated(alloc: Global, names: &[Placed]) -> Result<Option<Mistake>, NoMemory>
    ensures { IfOk result (IsLeast (repeated names.now)) }
{
    let mut before = Names::new(alloc);
    let mut least = None;
    for placed in names {
        let name = placed.name.as_slice();
        let found = before.place(name).is_some();
        least = earlier(least, mistake_if(found, placed.place, EarlyKind::Duplicate));
        before.add(name)?;
    }
    Ok(least)
}
