ghost use Rattle.std.specs.Prelude.{◌≡◌, ◌<◌, [], length, IfOk};
ghost use Rattle.rip_tree.specs.Branches.{ChildrenFollow};
ghost use Rattle.rip_early.specs.Contexts.{AreContexts};
ghost use Rattle.rip_early.specs.Gathered.{AreScopes};
ghost use Rattle.rip_early.specs.Least.{IsLeast};
ghost use Rattle.rip_early.specs.Looking.{is_binding};
ghost use Rattle.rip_early.specs.Mistakes.{assigns, bad_assignments, bad_bindings, bad_name, bad_target, bound_name, is_bound_in, is_declaration, is_restricted, may_not_assign, may_not_bind};
ghost use Rattle.rip_early.specs.Scopes.{inner_scopes};

use crate::context::Context;
use crate::globals::{is_global, is_spelled};
use crate::meaning::meaning_of;
use crate::mistake::Mistake;
use crate::names::Names;
use crate::refusal::EarlyKind;
use crate::uses::{first_child, mistake_if};
use rip_base::NoMemory;
use rip_tree::{Form, Node, Piece, Resolved, Tree};
use std::alloc::Global;

/// The early error of the name that a node binds.
pub(crate) fn bad_binding(
    tree: &Tree,
    contexts: &[Context],
    id: u32,
    node: &Node,
) -> Option<Mistake>
    requires there { id < length tree.now.branches }
    requires contexts { AreContexts tree.now (length tree.now.branches) contexts.now }
    ensures { IsLeast (bad_bindings tree.now id node.now.form) result }
{
    match bound_name(node.form) {
        Some(name) => {
            let refused = may_not_bind(tree, contexts, id, node, tree.units(name));
            mistake_if(refused, name.start, EarlyKind::BadBinding)
        }
        None => None,
    }
}

/// The name that a form binds.
fn bound_name(form: Form) -> Option<Piece>
    ensures { result ≡ bound_name form }
{
    match form {
        Form::Declarator(name) | Form::Parameter(name) | Form::Catch(name) => Some(name),
        Form::FunctionDeclaration(head) | Form::Function(head) => head.name,
        _ => None,
    }
}

/// Whether a node may not bind this name.
fn may_not_bind(tree: &Tree, contexts: &[Context], id: u32, node: &Node, name: &[u16]) -> bool
    requires there { id < length tree.now.branches }
    requires contexts { AreContexts tree.now (length tree.now.branches) contexts.now }
    ensures { result ≡ may_not_bind tree.now id node.now.form name.now }
{
    let context = contexts[id as usize];
    is_restricted(name) || is_declaration(node.form) && !context.in_function && is_global(name)
}

/// Whether the form is one that binds its name in the scope around it.
fn is_declaration(form: Form) -> bool
    ensures { result ≡ is_declaration form }
{
    matches!(form, Form::Declarator(_) | Form::FunctionDeclaration(_))
}

/// Whether the name is never bound and never assigned.
fn is_restricted(name: &[u16]) -> bool
    ensures { result ≡ is_restricted name.now }
{
    is_spelled("eval", name) || is_spelled("arguments", name)
}

/// The early error of the name that a node assigns.
pub(crate) fn bad_assignment(
    alloc: Global,
    tree: &Tree,
    contexts: &[Context],
    scopes: &[Names<'_>],
    id: u32,
    node: &Node,
) -> Result<Option<Mistake>, NoMemory>
    requires there { id < length tree.now.branches }
    requires follow { ChildrenFollow (length tree.now.branches) tree.now.branches }
    requires contexts { AreContexts tree.now (length tree.now.branches) contexts.now }
    requires scopes { AreScopes tree.now scopes.now }
    ensures { IfOk result (IsLeast (bad_assignments tree.now id node.now.form)) }
{
    if !assigns(node.form) {
        return Ok(None);
    }
    bad_target(alloc, tree, contexts, scopes, id, first_child(tree, id))
}

/// Whether the form is one that assigns its first child.
fn assigns(form: Form) -> bool
    ensures { result ≡ assigns form }
{
    matches!(
        form,
        Form::Assign | Form::Compound(_) | Form::Prefix(_) | Form::Postfix(_)
    )
}

/// The early error of the target of an assignment, if there is one.
fn bad_target(
    alloc: Global,
    tree: &Tree,
    contexts: &[Context],
    scopes: &[Names<'_>],
    id: u32,
    target: Option<Node>,
) -> Result<Option<Mistake>, NoMemory>
    requires there { id < length tree.now.branches }
    requires follow { ChildrenFollow (length tree.now.branches) tree.now.branches }
    requires contexts { AreContexts tree.now (length tree.now.branches) contexts.now }
    requires scopes { AreScopes tree.now scopes.now }
    ensures { IfOk result (IsLeast (bad_target tree.now id target)) }
{
    match target {
        Some(node) => bad_name(alloc, tree, contexts, scopes, id, &node),
        None => Ok(None),
    }
}

/// The early error of the target of an assignment: of a name that may not be assigned.
fn bad_name(
    alloc: Global,
    tree: &Tree,
    contexts: &[Context],
    scopes: &[Names<'_>],
    id: u32,
    target: &Node,
) -> Result<Option<Mistake>, NoMemory>
    requires there { id < length tree.now.branches }
    requires follow { ChildrenFollow (length tree.now.branches) tree.now.branches }
    requires contexts { AreContexts tree.now (length tree.now.branches) contexts.now }
    requires scopes { AreScopes tree.now scopes.now }
    ensures { IfOk result (IsLeast (bad_name tree.now id target.now target.now.form)) }
{
    let place = target.place;
    match target.form {
        Form::Name(name) => {
            let refused = may_not_assign(alloc, tree, contexts, scopes, id, tree.units(name))?;
            Ok(mistake_if(refused, place, EarlyKind::BadBinding))
        }
        _ => Ok(None),
    }
}

/// Whether this name may not be assigned where a node stands.
fn may_not_assign(
    alloc: Global,
    tree: &Tree,
    contexts: &[Context],
    scopes: &[Names<'_>],
    id: u32,
    name: &[u16],
) -> Result<bool, NoMemory>
    requires there { id < length tree.now.branches }
    requires follow { ChildrenFollow (length tree.now.branches) tree.now.branches }
    requires contexts { AreContexts tree.now (length tree.now.branches) contexts.now }
    requires scopes { AreScopes tree.now scopes.now }
    ensures { IfOk result (λ refused. refused ≡ may_not_assign tree.now id name.now) }
{
    if is_restricted(name) {
        return Ok(true);
    }
    if !is_global(name) {
        return Ok(false);
    }
    let bound = is_bound_inside(alloc, tree, contexts, scopes, id, name)?;
    Ok(!bound)
}

/// Whether a scope around a node binds this name, other than the top scope: it does where the name means a binding while
/// the top scope has no name.
fn is_bound_inside(
    alloc: Global,
    tree: &Tree,
    contexts: &[Context],
    scopes: &[Names<'_>],
    id: u32,
    name: &[u16],
) -> Result<bool, NoMemory>
    requires there { id < length tree.now.branches }
    requires follow { ChildrenFollow (length tree.now.branches) tree.now.branches }
    requires contexts { AreContexts tree.now (length tree.now.branches) contexts.now }
    requires scopes { AreScopes tree.now scopes.now }
    ensures { IfOk result (λ bound. bound ≡ is_bound_in (inner_scopes tree.now id) name.now) }
{
    let no_names = Names::new(alloc);
    let meaning = meaning_of(tree, &no_names, contexts, scopes, id, name)?;
    Ok(is_binding(meaning.resolved))
}

/// Whether what a name means is a binding.
fn is_binding(resolved: Option<Resolved>) -> bool
    ensures { result ≡ is_binding resolved }
{
    matches!(resolved, Some(Resolved::Binding { .. }))
}
