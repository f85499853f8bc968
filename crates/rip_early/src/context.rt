ghost use Rattle.std.specs.Prelude.{◌≡◌, ℕ, ◌<◌, length, slice_index_or, if◌then◌else◌, ◌∷◌, [], IfOk};
ghost use Rattle.std.specs.Option.{option_or};
ghost use Rattle.rip_early.specs.Around.{holds, is_function, is_home, parent_of};
ghost use Rattle.rip_early.specs.Mistakes.{is_left_by_break, is_loop};
ghost use Rattle.rip_early.specs.Contexts.{AreParents, AreContexts, context_of, context_within, makes_scope};
ghost use Rattle.rip_tree.specs.Branches.{ChildrenFollow};

use rip_base::NoMemory;
use rip_tree::{Form, Tree};
use std::alloc::Global;

/// What stands around a node.
#[derive(Clone, Copy, Debug)]
pub(crate) struct Context {
    /// The nearest script or function.
    pub home: Option<u32>,
    /// The nearest node that makes a scope.
    pub maker: Option<u32>,
    pub in_function: bool,
    /// A loop or `switch` stands around the node, with no function between.
    pub may_break: bool,
    /// A loop stands around the node, with no function between.
    pub may_continue: bool,
}

/// The parent of each node of a tree.
pub(crate) fn parents_of(alloc: Global, tree: &Tree) -> Result<Vec<Option<u32>>, NoMemory>
    ensures { IfOk result (λ parents. AreParents tree.now parents.items) }
{
    let mut parents = vec![in alloc; None; tree.count() as usize]?;
    for id in 0..tree.count() {
        note_children(&mut parents, tree.children(id), id);
    }
    Ok(parents)
}

/// Notes a node as the parent of its children that have none yet.
fn note_children(parents: &mut Vec<Option<u32>>, children: &[Option<u32>], id: u32)
    ensures many { length parents.new.items ≡ length parents.old.items }
    ensures noted { (node : ℕ) → node < length parents.old.items
        → slice_index_or parents.new.items node None
        ≡ option_or (slice_index_or parents.old.items node None)
        (if holds node children.now then Some id else None) }
{
    for child in children {
        note_child(parents, *child, id);
    }
}

/// Notes a node as the parent of a child that has none yet.
fn note_child(parents: &mut Vec<Option<u32>>, child: Option<u32>, id: u32)
    ensures many { length parents.new.items ≡ length parents.old.items }
    ensures noted { (node : ℕ) → node < length parents.old.items
        → slice_index_or parents.new.items node None
        ≡ option_or (slice_index_or parents.old.items node None)
        (if holds node (child ∷ []) then Some id else None) }
{
    if let Some(number) = child {
        let place = number as usize;
        if place < parents.len() && parents[place].is_none() {
            parents[place] = Some(id);
        }
    }
}

/// What stands around each node of a tree, whose nodes have these parents.
pub(crate) fn contexts_of(
    alloc: Global,
    tree: &Tree,
    parents: &[Option<u32>],
) -> Result<Vec<Context>, NoMemory>
    requires { AreParents tree.now parents.now }
    ensures { IfOk result
        (λ contexts. AreContexts tree.now (length tree.now.branches) contexts.items) }
{
    let mut contexts = Vec::new(alloc);
    for id in 0..tree.count() {
        let context = context_of(tree, id, parents[id as usize], &contexts);
        contexts.push(context)?;
    }
    Ok(contexts)
}

/// What stands around a node, where that is known of all nodes before it.
fn context_of(tree: &Tree, id: u32, parent: Option<u32>, contexts: &[Context]) -> Context
    requires follow { ChildrenFollow (length tree.now.branches) tree.now.branches }
    requires parent { parent ≡ parent_of tree.now id }
    requires known { AreContexts tree.now id contexts.now }
    ensures { result ≡ context_of tree.now id }
{
    match parent {
        None => Context {
            home: None,
            maker: None,
            in_function: false,
            may_break: false,
            may_continue: false,
        },
        Some(outer) => context_within(outer, tree.node(outer).form, contexts[outer as usize]),
    }
}

/// Whether the form is that of a function.
pub(crate) fn is_function(form: Form) -> bool
    ensures { result ≡ is_function form }
{
    matches!(form, Form::FunctionDeclaration(_) | Form::Function(_))
}

/// Whether the form is that of a loop.
pub(crate) fn is_loop(form: Form) -> bool
    ensures { result ≡ is_loop form }
{
    matches!(form, Form::DoWhile | Form::While | Form::For)
}

/// Whether the form is one that `break` leaves.
fn is_left_by_break(form: Form) -> bool
    ensures { result ≡ is_left_by_break form }
{
    matches!(form, Form::DoWhile | Form::While | Form::For | Form::Switch)
}

/// Whether the form is that of a script or function.
pub(crate) fn is_home(form: Form) -> bool
    ensures { result ≡ is_home form }
{
    matches!(
        form,
        Form::Script | Form::FunctionDeclaration(_) | Form::Function(_)
    )
}

/// What stands around the children of a node.
fn context_within(id: u32, form: Form, outer: Context) -> Context
    ensures { result ≡ context_within id form outer }
{
    let leaves = is_function(form);
    Context {
        home: home_within(id, form, outer.home),
        maker: maker_within(id, form, outer.maker),
        in_function: leaves || outer.in_function,
        may_break: !leaves && (is_left_by_break(form) || outer.may_break),
        may_continue: !leaves && (is_loop(form) || outer.may_continue),
    }
}

/// The nearest script or function around the children of a node.
fn home_within(id: u32, form: Form, outer: Option<u32>) -> Option<u32>
    ensures { result ≡ (if is_home form then Some id else outer) }
{
    if is_home(form) { Some(id) } else { outer }
}

/// Whether the form makes a scope.
fn makes_scope(form: Form) -> bool
    ensures { result ≡ makes_scope form }
{
    matches!(
        form,
        Form::Script | Form::FunctionDeclaration(_) | Form::Function(_) | Form::Catch(_)
    )
}

/// The nearest node that makes a scope around the children of a node.
fn maker_within(id: u32, form: Form, outer: Option<u32>) -> Option<u32>
    ensures { result ≡ (if makes_scope form then Some id else outer) }
{
    if makes_scope(form) { Some(id) } else { outer }
}
