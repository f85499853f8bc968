ghost use Rattle.std.specs.Prelude.{◌≡◌, [], ◌∷◌, ◌++◌, ◌<◌, List, length, option_map, IfOk, IfSome};
ghost use Rattle.rip_tree.specs.Branches.{ChildrenFollow, units_at};
ghost use Rattle.rip_early.specs.Around.{form_of};
ghost use Rattle.rip_early.specs.Contexts.{AreContexts};
ghost use Rattle.rip_early.specs.Gathered.{AreScopes};
ghost use Rattle.rip_early.specs.Indexed.{names_of, IsIndexed};
ghost use Rattle.rip_early.specs.Names.{function_scope};
ghost use Rattle.rip_early.specs.Looking.{after};
ghost use Rattle.rip_early.specs.Scopes.{Scope, scope_of_names, own_scope, scopes_made, scopes_around, meaning_in, global_meaning};

use crate::context::Context;
use crate::declared::form_of;
use crate::globals::global_meaning;
use crate::names::Names;
use rip_base::NoMemory;
use rip_tree::{Form, Piece, Resolved, Tree};

/// What a name means where it stands.
#[derive(Clone, Copy, Debug)]
pub(crate) struct Meaning {
    /// None where it means nothing.
    pub resolved: Option<Resolved>,
    /// Whether it is a function expression's own name.
    pub is_own: bool,
}

/// Where a name was looked for in the scopes that a node makes.
#[derive(Clone, Copy, Debug)]
pub(crate) enum Looked {
    Found(Meaning),
    /// It is none of their names; so many scopes were passed in all.
    Past(u32),
}

/// Looks for a name in a scope.
fn look_in(names: &Names<'_>, up: u32, name: &[u16]) -> Result<Looked, NoMemory>
    requires { IsIndexed names.now }
    ensures { IfOk result
        (λ looked. (rest : List Scope) → meaning_in up (scope_of_names (names_of names.now) ∷ rest)
        name.now ≡ after looked rest name.now) }
{
    match names.place(name) {
        Some(place) => Ok(Looked::Found(Meaning {
            resolved: Some(Resolved::Binding { up, place }),
            is_own: false,
        })),
        None => Ok(Looked::Past(up.checked_add(1).ok_or(NoMemory)?)),
    }
}

/// Looks for a name in a scope of one name.
fn look_at(own: &[u16], is_own: bool, up: u32, name: &[u16]) -> Result<Looked, NoMemory>
    ensures { IfOk result
        (λ looked. (rest : List Scope)
        → meaning_in up (record { names = own.now ∷ []; is_own = is_own } ∷ rest) name.now
        ≡ after looked rest name.now) }
{
    if own == name {
        return Ok(Looked::Found(Meaning {
            resolved: Some(Resolved::Binding { up, place: 0 }),
            is_own,
        }));
    }
    Ok(Looked::Past(up.checked_add(1).ok_or(NoMemory)?))
}

/// Looks for a name in the scope of a function expression's own name, if it has one.
fn look_at_own(tree: &Tree, own: Option<Piece>, up: u32, name: &[u16]) -> Result<Looked, NoMemory>
    ensures { IfOk result
        (λ looked. (rest : List Scope) → meaning_in up (own_scope tree.now own ++ rest) name.now
        ≡ after looked rest name.now) }
{
    match own {
        Some(piece) => look_at(tree.units(piece), true, up, name),
        None => Ok(Looked::Past(up)),
    }
}

/// Looks for a name in the scopes that a function expression makes.
fn look_in_function(
    tree: &Tree,
    names: &Names<'_>,
    own: Option<Piece>,
    up: u32,
    name: &[u16],
) -> Result<Looked, NoMemory>
    requires { IsIndexed names.now }
    ensures { IfOk result
        (λ looked. (rest : List Scope)
        → meaning_in up (scope_of_names (names_of names.now) ∷ own_scope tree.now own ++ rest)
        name.now ≡ after looked rest name.now) }
{
    match look_in(names, up, name)? {
        Looked::Found(meaning) => Ok(Looked::Found(meaning)),
        Looked::Past(next) => look_at_own(tree, own, next, name),
    }
}

/// Looks for a name in the scopes that a node makes.
fn look_within(
    tree: &Tree,
    top: &Names<'_>,
    scope: &Names<'_>,
    id: u32,
    up: u32,
    name: &[u16],
) -> Result<Looked, NoMemory>
    requires top { IsIndexed top.now }
    requires kept { IsIndexed scope.now }
    requires named { names_of scope.now ≡ function_scope tree.now id }
    ensures { IfOk result
        (λ looked. (rest : List Scope)
        → meaning_in up (scopes_made (names_of top.now) tree.now id (form_of tree.now id) ++ rest)
        name.now ≡ after looked rest name.now) }
{
    match form_of(tree, id) {
        Form::Script => look_in(top, up, name),
        Form::FunctionDeclaration(_) => look_in(scope, up, name),
        Form::Function(head) => look_in_function(tree, scope, head.name, up, name),
        Form::Catch(own) => look_at(tree.units(own), false, up, name),
        _ => Ok(Looked::Past(up)),
    }
}

/// What a name means where a node stands.
pub(crate) fn meaning_of(
    tree: &Tree,
    top: &Names<'_>,
    contexts: &[Context],
    scopes: &[Names<'_>],
    id: u32,
    name: &[u16],
) -> Result<Meaning, NoMemory>
    requires there { id < length tree.now.branches }
    requires follow { ChildrenFollow (length tree.now.branches) tree.now.branches }
    requires top { IsIndexed top.now }
    requires contexts { AreContexts tree.now (length tree.now.branches) contexts.now }
    requires scopes { AreScopes tree.now scopes.now }
    ensures { IfOk result
        (λ meaning. meaning ≡ meaning_in 0 (scopes_around (names_of top.now) tree.now id)
        name.now) }
{
    let mut up = 0;
    let mut maker = contexts[id as usize].maker;
    while let Some(outer) = maker {
        match look_within(tree, top, &scopes[outer as usize], outer, up, name)? {
            Looked::Found(meaning) => return Ok(meaning),
            Looked::Past(next) => up = next,
        }
        maker = contexts[outer as usize].maker;
    }
    Ok(global_meaning(name))
}
