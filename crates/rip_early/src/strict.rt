ghost use Rattle.std.specs.Prelude.{◌≡◌, ◌<◌, length, not, Some};
ghost use Rattle.rip_tree.specs.Branches.{node_of};
ghost use Rattle.rip_early.specs.Least.{IsLeast};
ghost use Rattle.rip_early.specs.Mistakes.{first_child, is_directive, is_expression, is_strict, is_use_strict, mistake, where_so};
ghost use Rattle.rip_early.specs.declared.refusal.EarlyKind.TheVariants.{NotStrict};

use crate::globals::is_spelled;
use crate::mistake::Mistake;
use crate::refusal::EarlyKind;
use rip_tree::{Form, Node, Tree};

/// The early error of a script that does not begin with the directive `use strict` (14.1).
pub(crate) fn directive_mistake(tree: &Tree) -> Option<Mistake>
    ensures { IsLeast (where_so (not (is_strict tree.now)) (mistake 0 NotStrict)) result }
{
    if is_strict(tree) {
        return None;
    }
    Some(Mistake {
        place: 0,
        kind: EarlyKind::NotStrict,
    })
}

/// Whether the first statement of the script is the directive.
fn is_strict(tree: &Tree) -> bool
    ensures { result ≡ is_strict tree.now }
{
    match tree.child(0, 0) {
        Some(statement) => begins_with_text(tree, statement),
        None => false,
    }
}

/// Whether a statement is the directive, by its first child.
fn begins_with_text(tree: &Tree, statement: u32) -> bool
    requires { statement < length tree.now.branches }
    ensures { result ≡ is_directive tree.now (node_of tree.now.branches statement)
        (first_child tree.now statement) }
{
    match tree.child(statement, 0) {
        Some(text) => is_directive(tree, tree.node(statement), tree.node(text)),
        None => false,
    }
}

/// Whether a statement is this text alone, and the text is that of the directive.
fn is_directive(tree: &Tree, statement: &Node, text: &Node) -> bool
    ensures { result ≡ is_directive tree.now (Some statement.now) (Some text.now) }
{
    is_expression(statement.form) && is_use_strict(tree, text.form) && text.place == statement.place
}

/// Whether the form is that of an expression that stands as a statement.
fn is_expression(form: Form) -> bool
    ensures { result ≡ is_expression form }
{
    matches!(form, Form::Expression)
}

/// Whether the form is the text `use strict`, spelled by just these units.
fn is_use_strict(tree: &Tree, form: Form) -> bool
    ensures { result ≡ is_use_strict tree.now form }
{
    match form {
        Form::Text(literal) => {
            literal.is_plain && is_spelled("use strict", tree.units(literal.value))
        }
        _ => false,
    }
}
