ghost use Rattle.std.specs.Prelude.{◌≡◌, ◌<◌, ◌&&◌, not, is_some, length, IfOk};
ghost use Rattle.rip_tree.specs.Branches.{ChildrenFollow};
ghost use Rattle.rip_early.specs.Contexts.{AreContexts, context_of};
ghost use Rattle.rip_early.specs.Gathered.{AreScopes};
ghost use Rattle.rip_early.specs.Indexed.{names_of, IsIndexed};
ghost use Rattle.rip_early.specs.Least.{IsLeast};
ghost use Rattle.rip_early.specs.Mistakes.{bad_uses, first_child, is_delete, is_name, is_name_form, mistake, where_so};
ghost use Rattle.rip_early.specs.Scopes.{meaning_at};
ghost use Rattle.rip_early.specs.declared.refusal.EarlyKind.TheVariants.{BadDelete};

use crate::context::Context;
use crate::meaning::meaning_of;
use crate::mistake::Mistake;
use crate::names::Names;
use crate::refusal::EarlyKind;
use rip_base::{NoMemory, UnaryOperator};
use rip_tree::{Form, Node, Piece, Tree};

/// The early error of what a node is by itself: of `delete`, a name, `this` or a jump.
pub(crate) fn bad_use(
    tree: &Tree,
    top: &Names<'_>,
    contexts: &[Context],
    scopes: &[Names<'_>],
    id: u32,
    node: &Node,
) -> Result<Option<Mistake>, NoMemory>
    requires there { id < length tree.now.branches }
    requires follow { ChildrenFollow (length tree.now.branches) tree.now.branches }
    requires top { IsIndexed top.now }
    requires contexts { AreContexts tree.now (length tree.now.branches) contexts.now }
    requires scopes { AreScopes tree.now scopes.now }
    ensures { IfOk result
        (IsLeast (bad_uses (names_of top.now) tree.now id node.now.place node.now.form)) }
{
    let place = node.place;
    let context = contexts[id as usize];
    match node.form {
        Form::Unary(operator) => Ok(bad_operand(tree, id, place, operator)),
        Form::Name(name) => {
            let known = is_known(tree, top, contexts, scopes, id, name)?;
            Ok(mistake_if(!known, place, EarlyKind::UnknownGlobal))
        }
        Form::This => Ok(mistake_if(!context.in_function, place, EarlyKind::NoGlobalObject)),
        Form::Return => Ok(mistake_if(!context.in_function, place, EarlyKind::BadJump)),
        Form::Break => Ok(mistake_if(!context.may_break, place, EarlyKind::BadJump)),
        Form::Continue => Ok(mistake_if(!context.may_continue, place, EarlyKind::BadJump)),
        _ => Ok(None),
    }
}

/// The early error, where it is one.
pub(crate) fn mistake_if(is: bool, place: u32, kind: EarlyKind) -> Option<Mistake>
    ensures { IsLeast (where_so is (mistake place kind)) result }
{
    if is {
        Some(Mistake { place, kind })
    } else {
        None
    }
}

/// The early error of a unary operator: `delete` of a name.
fn bad_operand(tree: &Tree, id: u32, place: u32, operator: UnaryOperator) -> Option<Mistake>
    ensures { IsLeast (where_so (is_delete operator && is_name (first_child tree.now id))
        (mistake place BadDelete)) result }
{
    mistake_if(
        matches!(operator, UnaryOperator::Delete) && is_name(first_child(tree, id)),
        place,
        EarlyKind::BadDelete,
    )
}

/// The first child of a node, if it is there.
pub(crate) fn first_child(tree: &Tree, id: u32) -> Option<Node>
    ensures { result ≡ first_child tree.now id }
{
    match tree.child(id, 0) {
        Some(child) => Some(*tree.node(child)),
        None => None,
    }
}

/// Whether the node is a name.
fn is_name(node: Option<Node>) -> bool
    ensures { result ≡ is_name node }
{
    match node {
        Some(node) => is_name_form(node.form),
        None => false,
    }
}

/// Whether the form is that of a name.
fn is_name_form(form: Form) -> bool
    ensures { result ≡ is_name_form form }
{
    matches!(form, Form::Name(_))
}

/// Whether a name means something where a node stands.
fn is_known(
    tree: &Tree,
    top: &Names<'_>,
    contexts: &[Context],
    scopes: &[Names<'_>],
    id: u32,
    name: Piece,
) -> Result<bool, NoMemory>
    requires there { id < length tree.now.branches }
    requires follow { ChildrenFollow (length tree.now.branches) tree.now.branches }
    requires top { IsIndexed top.now }
    requires contexts { AreContexts tree.now (length tree.now.branches) contexts.now }
    requires scopes { AreScopes tree.now scopes.now }
    ensures { IfOk result
        (λ known. known ≡ is_some (meaning_at (names_of top.now) tree.now id name).resolved) }
{
    let meaning = meaning_of(tree, top, contexts, scopes, id, tree.units(name))?;
    Ok(meaning.resolved.is_some())
}
