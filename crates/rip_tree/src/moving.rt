ghost use Rattle.std.specs.Prelude.{◌≡◌, ◌+◌, ◌<◌, ◌^◌, ◌++◌, ◌∷◌, [], length, map, option_map, IfOk, OnOk};
ghost use Rattle.rip_tree.specs.Making.{branches_at, LieWithin};
ghost use Rattle.rip_tree.specs.Program.{moved_piece, moved_branch, moved_child, with_text, with_key, with_head, with_pieces};

use crate::form::{Form, FunctionHead, Key, TextLiteral};
use crate::node::{Node, Piece, Row, within};
use crate::tree::range_of;
use rip_base::NoMemory;

/// How a tree stands behind others: how many branches and units stand before it, and how many units it has.
#[derive(Clone, Copy, Debug)]
pub(crate) struct Move {
    pub branches: u32,
    pub units: u32,
    pub there: u32,
}

/// The piece, moved.
fn piece(from: Piece, by: Move) -> Piece
    requires { by.units + by.there < 2 ^ 32 }
    ensures { result ≡ moved_piece by.there by.units from }
{
    let (start, end) = within(from, by.there as usize);
    Piece {
        start: by.units + start as u32,
        count: (end - start) as u32,
    }
}

/// The text, moved.
fn text(from: TextLiteral, by: Move) -> TextLiteral
    requires { by.units + by.there < 2 ^ 32 }
    ensures { result ≡ with_text (moved_piece by.there by.units) from }
{
    TextLiteral {
        value: piece(from.value, by),
        is_plain: from.is_plain,
    }
}

/// The key, moved.
fn key(from: Key, by: Move) -> Key
    requires { by.units + by.there < 2 ^ 32 }
    ensures { result ≡ with_key (moved_piece by.there by.units) from }
{
    match from {
        Key::Name(name) => Key::Name(piece(name, by)),
        Key::Text(literal) => Key::Text(text(literal, by)),
        Key::Number(number) => Key::Number(number),
    }
}

/// The name of a function, moved.
fn name(from: Option<Piece>, by: Move) -> Option<Piece>
    requires { by.units + by.there < 2 ^ 32 }
    ensures { result ≡ option_map (moved_piece by.there by.units) from }
{
    match from {
        Some(own) => Some(piece(own, by)),
        None => None,
    }
}

/// What a function has beside its children, moved.
fn head(from: FunctionHead, by: Move) -> FunctionHead
    requires { by.units + by.there < 2 ^ 32 }
    ensures { result ≡ with_head (moved_piece by.there by.units) from }
{
    FunctionHead {
        name: name(from.name, by),
        parameters: from.parameters,
    }
}

/// The form with its pieces moved.
fn form(from: Form, by: Move) -> Form
    requires { by.units + by.there < 2 ^ 32 }
    ensures { result ≡ with_pieces (moved_piece by.there by.units) from }
{
    match from {
        Form::FunctionDeclaration(own) => Form::FunctionDeclaration(head(own, by)),
        Form::Name(own) => Form::Name(piece(own, by)),
        Form::Text(literal) => Form::Text(text(literal, by)),
        Form::Function(own) => Form::Function(head(own, by)),
        Form::Member(own) => Form::Member(piece(own, by)),
        Form::Declarator(own) => Form::Declarator(piece(own, by)),
        Form::Entry(own) => Form::Entry(key(own, by)),
        Form::Parameter(own) => Form::Parameter(piece(own, by)),
        Form::Catch(own) => Form::Catch(piece(own, by)),
        other => other,
    }
}

/// The child's number among those of all trees.
fn child(from: Option<u32>, branches: u32) -> Result<Option<u32>, NoMemory>
    ensures { IfOk result (λ moved. moved ≡ moved_child branches from) }
{
    match from {
        Some(id) => Ok(Some(branches.checked_add(id).ok_or(NoMemory)?)),
        None => Ok(None),
    }
}

/// Puts the children of a node, moved, behind those that are there.
fn push_children(
    links: &mut Vec<Option<u32>>,
    children: &[Option<u32>],
    branches: u32,
) -> Result<(), NoMemory>
    ensures { OnOk result
        (links.new.items ≡ links.old.items ++ map (moved_child branches) children.now) }
{
    for link in children {
        links.push(child(*link, branches)?)?;
    }
    Ok(())
}

/// Puts a node and its children, moved, behind those that are there.
fn push_branch(
    rows: &mut Vec<Row>,
    links: &mut Vec<Option<u32>>,
    node: Node,
    children: &[Option<u32>],
    by: Move,
) -> Result<(), NoMemory>
    requires room { by.units + by.there < 2 ^ 32 }
    requires within { LieWithin (length links.old.items) rows.old.items }
    ensures within { OnOk result (LieWithin (length links.new.items) rows.new.items) }
    ensures moved { OnOk result
        (branches_at links.new.items rows.new.items ≡ branches_at links.old.items rows.old.items
        ++ moved_branch by.there by.branches by.units
        (record { node = node; children = children.now }) ∷ []) }
{
    let start = links.len();
    push_children(links, children, by.branches)?;
    let moved = Node {
        place: node.place,
        form: form(node.form, by),
    };
    rows.push(Row {
        node: moved,
        start,
        end: links.len(),
    })?;
    Ok(())
}

/// Puts the nodes of a tree, moved, behind those that are there.
pub(crate) fn push_branches(
    rows: &mut Vec<Row>,
    links: &mut Vec<Option<u32>>,
    tree_rows: &[Row],
    tree_links: &[Option<u32>],
    by: Move,
) -> Result<(), NoMemory>
    requires room { by.units + by.there < 2 ^ 32 }
    requires within { LieWithin (length links.old.items) rows.old.items }
    requires tree_within { LieWithin (length tree_links.now) tree_rows.now }
    ensures within { OnOk result (LieWithin (length links.new.items) rows.new.items) }
    ensures moved { OnOk result
        (branches_at links.new.items rows.new.items ≡ branches_at links.old.items rows.old.items
        ++ map (moved_branch by.there by.branches by.units)
        (branches_at tree_links.now tree_rows.now)) }
{
    for row in tree_rows {
        let children = range_of(tree_links, row.start, row.end);
        push_branch(rows, links, row.node, children, by)?;
    }
    Ok(())
}
