ghost use Rattle.std.specs.Prelude.{◌≡◌, ◌+◌, [], ◌∷◌, ◌++◌, ◌<◌, length, map, IfErr, IfOk, OnOk};
ghost use Rattle.std.specs.List.{flat_map};
ghost use Rattle.rip_tree.specs.Branches.{ChildrenFollow};
ghost use Rattle.rip_early.specs.Around.{form_of};
ghost use Rattle.rip_early.specs.Contexts.{AreContexts};
ghost use Rattle.rip_early.specs.Gathered.{AreScopes};
ghost use Rattle.rip_early.specs.Indexed.{names_of, IsIndexed};
ghost use Rattle.rip_early.specs.Laws.{AreNotClean, HaveAnAnswer, HaveOneFirst, NamesAreResolved};
ghost use Rattle.rip_early.specs.Least.{IsLeast};
ghost use Rattle.rip_early.specs.Mistakes.{mistakes, AreClean, IsRefusalOf};
ghost use Rattle.rip_early.specs.Names.{function_scope, top_scope};
ghost use Rattle.rip_early.specs.Program.{declared_places, script_scoping, program_of};
ghost use Rattle.rip_early.specs.Scopes.{binding_count, first_binding, no_meaning, name_meaning, node_meaning, own_meaning, scoping_at};

use crate::context::{Context, contexts_of, parents_of};
use crate::declared::{declared_places, form_of};
use crate::meaning::{Meaning, meaning_of};
use crate::mistake::Mistake;
use crate::names::Names;
use crate::order::text_order;
use crate::refusal::EarlyRefusal;
use crate::scopes::{scopes_of, top_names};
use crate::script::script_mistake;
use rip_base::{List, NoMemory};
use rip_tree::{Form, Piece, Program, Resolved, Scoping, Tree, Trees};
use std::alloc::Global;

/// What the rules of scope say of scripts: of each node, and of each script the places in the top scope of the names that
/// it declares by `var`.
#[derive(Debug, Drop)]
struct Resolution {
    scoping: Vec<Scoping>,
    vars: Vec<List<u32>>,
}

/// Checks the scripts of a page, in their order, before the first one runs: their program, or their first early error.
/// Of scripts or nodes that 32 bits cannot count memory runs out.
#[tactic(auto, unfolding(crate::specs::Program::program_of))]
pub fn check(alloc: Global, trees: &Trees) -> Result<Program, EarlyRefusal>
    ensures clean { OnOk result (AreClean trees.now) }
    ensures made { IfOk result (λ program. program ≡ program_of trees.now) }
    ensures first { IfErr result (IsRefusalOf trees.now) }
{
    let scripts = trees.as_slice();
    let top = top_names(alloc, scripts)?;
    let Resolution { scoping, vars } = resolution_of(alloc, scripts, &top)?;
    let names = top.units(alloc)?;
    let program = Program::new(alloc, scripts, names, vars, scoping)?;
    Ok(program)
}

/// Scripts are clean or have one first early error, and never both.
pub fn refusals_are_one()
    ensures some { HaveAnAnswer }
    ensures one { HaveOneFirst }
    ensures apart { AreNotClean }
{}

/// In a program a node that reads and binds no name is resolved to nothing, and each name that is read means something.
pub fn names_are_resolved()
    ensures { NamesAreResolved }
{}

/// What the rules of scope say of all scripts, or their first early error.
fn resolution_of(
    alloc: Global,
    scripts: &[Tree],
    top: &Names<'_>,
) -> Result<Resolution, EarlyRefusal>
    requires kept { IsIndexed top.now }
    requires named { names_of top.now ≡ top_scope scripts.now }
    ensures clean { OnOk result (AreClean scripts.now) }
    ensures scoping { IfOk result
        (λ said. said.scoping.items ≡ flat_map (script_scoping (top_scope scripts.now))
        scripts.now) }
    ensures vars { IfOk result
        (λ said. said.vars.items ≡ map (declared_places (top_scope scripts.now)) scripts.now) }
    ensures first { IfErr result (IsRefusalOf scripts.now) }
{
    let mut said = Resolution {
        scoping: Vec::new(alloc),
        vars: Vec::new(alloc),
    };
    let mut script = 0u32;
    for tree in scripts {
        script = number_after(script)?;
        if let Some(found) = judge(alloc, &mut said, tree, top)? {
            return Err(EarlyRefusal::At {
                script,
                place: found.place,
                kind: found.kind,
            });
        }
    }
    Ok(said)
}

/// The number of the script behind the one with this number.
fn number_after(script: u32) -> Result<u32, NoMemory>
    ensures { IfOk result (λ next. next ≡ script + 1) }
{
    script.checked_add(1).ok_or(NoMemory)
}

/// The early error of a script that counts first; if it has none, adds what the rules of scope say of it.
fn judge(
    alloc: Global,
    said: &mut Resolution,
    tree: &Tree,
    top: &Names<'_>,
) -> Result<Option<Mistake>, NoMemory>
    requires { IsIndexed top.now }
    ensures least { IfOk result (λ least. IsLeast (mistakes (names_of top.now) tree.now) least) }
    ensures scoping { IfOk result
        (λ least. least ≡ None → said.new.scoping.items ≡ said.old.scoping.items
        ++ script_scoping (names_of top.now) tree.now) }
    ensures vars { IfOk result
        (λ least. least ≡ None → said.new.vars.items ≡ said.old.vars.items
        ++ declared_places (names_of top.now) tree.now ∷ []) }
{
    let parents = parents_of(alloc, tree)?;
    let contexts = contexts_of(alloc, tree, &parents)?;
    let order = text_order(alloc, tree)?;
    let scopes = scopes_of(alloc, tree, &contexts, &order)?;
    let least = script_mistake(alloc, tree, top, &contexts, &scopes)?;
    if least.is_some() {
        return Ok(least);
    }
    push_scoping(&mut said.scoping, tree, top, &contexts, &scopes)?;
    let places = declared_places(alloc, tree, top, &contexts, &order)?;
    said.vars.push(List::from_vec(places))?;
    Ok(least)
}

/// Adds what the rules of scope say of the nodes of a script whose contexts and scopes are known.
fn push_scoping(
    scoping: &mut Vec<Scoping>,
    tree: &Tree,
    top: &Names<'_>,
    contexts: &[Context],
    scopes: &[Names<'_>],
) -> Result<(), NoMemory>
    requires top { IsIndexed top.now }
    requires contexts { AreContexts tree.now (length tree.now.branches) contexts.now }
    requires scopes { AreScopes tree.now scopes.now }
    ensures { OnOk result
        (scoping.new.items ≡ scoping.old.items ++ script_scoping (names_of top.now) tree.now) }
{
    for id in 0..tree.count() {
        let said = scoping_at(tree, top, contexts, scopes, id)?;
        scoping.push(said)?;
    }
    Ok(())
}

/// What the rules of scope say of a node.
fn scoping_at(
    tree: &Tree,
    top: &Names<'_>,
    contexts: &[Context],
    scopes: &[Names<'_>],
    id: u32,
) -> Result<Scoping, NoMemory>
    requires there { id < length tree.now.branches }
    requires follow { ChildrenFollow (length tree.now.branches) tree.now.branches }
    requires top { IsIndexed top.now }
    requires contexts { AreContexts tree.now (length tree.now.branches) contexts.now }
    requires scopes { AreScopes tree.now scopes.now }
    ensures { IfOk result (λ scoping. scoping ≡ scoping_at (names_of top.now) tree.now id) }
{
    let meaning = node_meaning(tree, top, contexts, scopes, id)?;
    let names = binding_count(tree, &scopes[id as usize], id);
    Ok(Scoping {
        names,
        resolved: meaning.resolved,
        is_own: meaning.is_own,
    })
}

/// How many bindings the scope of a function or a catch clause has.
fn binding_count(tree: &Tree, scope: &Names<'_>, id: u32) -> u32
    requires kept { IsIndexed scope.now }
    requires named { names_of scope.now ≡ function_scope tree.now id }
    ensures { result ≡ binding_count tree.now id (form_of tree.now id) }
{
    match form_of(tree, id) {
        Form::FunctionDeclaration(_) | Form::Function(_) => scope.count(),
        Form::Catch(_) => 1,
        _ => 0,
    }
}

/// What the name means that a node reads or binds.
fn node_meaning(
    tree: &Tree,
    top: &Names<'_>,
    contexts: &[Context],
    scopes: &[Names<'_>],
    id: u32,
) -> Result<Meaning, NoMemory>
    requires there { id < length tree.now.branches }
    requires follow { ChildrenFollow (length tree.now.branches) tree.now.branches }
    requires top { IsIndexed top.now }
    requires contexts { AreContexts tree.now (length tree.now.branches) contexts.now }
    requires scopes { AreScopes tree.now scopes.now }
    ensures { IfOk result
        (λ meaning. meaning ≡ node_meaning (names_of top.now) tree.now id (form_of tree.now id)) }
{
    match form_of(tree, id) {
        Form::Name(name) | Form::Declarator(name) | Form::Parameter(name) => {
            meaning_of(tree, top, contexts, scopes, id, tree.units(name))
        }
        Form::FunctionDeclaration(head) => name_meaning(tree, top, contexts, scopes, id, head.name),
        Form::Function(head) => Ok(own_meaning(head.name)),
        Form::Catch(_) => Ok(first_binding(false)),
        _ => Ok(no_meaning()),
    }
}

/// What the name of a declaration means, if it has one.
fn name_meaning(
    tree: &Tree,
    top: &Names<'_>,
    contexts: &[Context],
    scopes: &[Names<'_>],
    id: u32,
    name: Option<Piece>,
) -> Result<Meaning, NoMemory>
    requires there { id < length tree.now.branches }
    requires follow { ChildrenFollow (length tree.now.branches) tree.now.branches }
    requires top { IsIndexed top.now }
    requires contexts { AreContexts tree.now (length tree.now.branches) contexts.now }
    requires scopes { AreScopes tree.now scopes.now }
    ensures { IfOk result (λ meaning. meaning ≡ name_meaning (names_of top.now) tree.now id name) }
{
    match name {
        Some(name) => meaning_of(tree, top, contexts, scopes, id, tree.units(name)),
        None => Ok(no_meaning()),
    }
}

/// What the name of a function expression means in its own scope, if it has one.
fn own_meaning(name: Option<Piece>) -> Meaning
    ensures { result ≡ own_meaning name }
{
    match name {
        Some(_) => first_binding(true),
        None => no_meaning(),
    }
}

/// The one binding of the scope that a node makes for its own name.
fn first_binding(is_own: bool) -> Meaning
    ensures { result ≡ first_binding is_own }
{
    Meaning {
        resolved: Some(Resolved::Binding { up: 0, place: 0 }),
        is_own,
    }
}

/// No name.
fn no_meaning() -> Meaning
    ensures { result ≡ no_meaning }
{
    Meaning {
        resolved: None,
        is_own: false,
    }
}
