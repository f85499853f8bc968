use rip_base::{BinaryOperator, NoMemory, UnaryOperator};
use rip_tree::{Form, Program};
use std::alloc::Global;

// What is worth trying in place, found once for each node of a program. It promises nothing, since of any part nothing may be
// done in place: it spares values that would be had for nothing, where a part beside them cannot be had.

/// How many levels of nodes below a part are done in place.
pub const HEIGHT: u8 = 8;

/// What is worth trying of a node.
#[derive(Clone, Copy, Debug, PartialEq, Eq)]
pub enum Worth {
    Nothing,
    /// Its value, where so many levels of nodes are below it.
    Value(u8),
    /// What it does, where so many levels of nodes are below it.
    Deed(u8),
}

/// Of each node of a program what is worth trying. Children stand behind their parents.
pub fn worths(alloc: Global, program: &Program) -> Result<Vec<Worth>, NoMemory> {
    let mut worths = vec![in alloc; Worth::Nothing; program.count() as usize]?;
    for n in 0..program.count() {
        let id = program.count() - 1 - n;
        let worth = worth_of(program, worths.as_slice(), id);
        if (id as usize) < worths.len() {
            worths[id as usize] = worth;
        }
    }
    Ok(worths)
}

/// What is worth trying of a node, where that of its children is known.
fn worth_of(program: &Program, worths: &[Worth], id: u32) -> Worth {
    let form = form_at(program, id);
    match form {
        Form::Name(_)
        | Form::Number(_)
        | Form::Text(_)
        | Form::This
        | Form::Boolean(_)
        | Form::Null => { Worth::Value(0) },
        Form::Binary(op) => of_operator(program, worths, id, op),
        Form::Logical(_) | Form::Index => value_of_two(program, worths, id),
        Form::Conditional => value_of_three(program, worths, id),
        Form::Unary(op) => match op {
            UnaryOperator::TypeOf | UnaryOperator::Delete => Worth::Nothing,
            _ => value_above(value_at(program, worths, id, 0)),
        },
        Form::Member(_) => value_above(value_at(program, worths, id, 0)),
        Form::Break | Form::Continue => Worth::Deed(0),
        Form::Expression => deed_above(deed_at(program, worths, id, 0)),
        Form::Return => match program.child(id, 0) {
            Some(_) => deed_above(deed_at(program, worths, id, 0)),
            None => Worth::Deed(0),
        },
        Form::Block => only_deed(program, worths, id),
        Form::Var => only_initialiser(program, worths, id),
        Form::If => of_branches(program, worths, id),
        Form::Assign => to_target(program, worths, id),
        Form::Compound(op) => if is_taken(op) {
            to_name(program, worths, id)
        } else {
            Worth::Nothing
        },
        Form::Prefix(_) | Form::Postfix(_) => if is_name(program, id) {
            Worth::Deed(1)
        } else {
            Worth::Nothing
        },
        _ => Worth::Nothing,
    }
}

fn form_at(program: &Program, id: u32) -> Form {
    match program.node_at(id) {
        Some(node) => node.form,
        None => Form::Empty,
    }
}

/// How many levels are below the child at this place, if its value is worth trying.
fn value_at(program: &Program, worths: &[Worth], id: u32, place: u32) -> Option<u8> {
    match worth_at(program, worths, id, place) {
        Worth::Value(height) => Some(height),
        _ => None,
    }
}

/// The same, if it may be done at all.
fn deed_at(program: &Program, worths: &[Worth], id: u32, place: u32) -> Option<u8> {
    match worth_at(program, worths, id, place) {
        Worth::Value(height) | Worth::Deed(height) => Some(height),
        Worth::Nothing => None,
    }
}

fn worth_at(program: &Program, worths: &[Worth], id: u32, place: u32) -> Worth {
    match program.child(id, place) {
        Some(child) => if (child as usize) < worths.len() {
            worths[child as usize]
        } else {
            Worth::Nothing
        },
        None => Worth::Nothing,
    }
}

/// A value above a part with so many levels below it.
fn value_above(height: Option<u8>) -> Worth {
    match height {
        Some(height) => if height < HEIGHT {
            Worth::Value(height + 1)
        } else {
            Worth::Nothing
        },
        None => Worth::Nothing,
    }
}

fn deed_above(height: Option<u8>) -> Worth {
    match height {
        Some(height) => if height < HEIGHT {
            Worth::Deed(height + 1)
        } else {
            Worth::Nothing
        },
        None => Worth::Nothing,
    }
}

/// The greater of two heights, where there are both.
fn higher(a: Option<u8>, b: Option<u8>) -> Option<u8> {
    match a {
        Some(a) => match b {
            Some(b) => Some(a.max(b)),
            None => None,
        },
        None => None,
    }
}

fn value_of_two(program: &Program, worths: &[Worth], id: u32) -> Worth {
    value_above(higher(
        value_at(program, worths, id, 0),
        value_at(program, worths, id, 1),
    ))
}

fn value_of_three(program: &Program, worths: &[Worth], id: u32) -> Worth {
    let two = higher(
        value_at(program, worths, id, 0),
        value_at(program, worths, id, 1),
    );
    value_above(higher(two, value_at(program, worths, id, 2)))
}

/// Whether an operator reads no object.
fn is_taken(op: BinaryOperator) -> bool {
    !matches!(op, BinaryOperator::In | BinaryOperator::InstanceOf)
}

fn of_operator(program: &Program, worths: &[Worth], id: u32, op: BinaryOperator) -> Worth {
    if is_taken(op) {
        value_of_two(program, worths, id)
    } else {
        Worth::Nothing
    }
}

fn is_name(program: &Program, id: u32) -> bool {
    match program.child(id, 0) {
        Some(child) => matches!(form_at(program, child), Form::Name(_)),
        None => false,
    }
}

/// An assignment to a name.
fn to_name(program: &Program, worths: &[Worth], id: u32) -> Worth {
    if is_name(program, id) {
        deed_above(value_at(program, worths, id, 1))
    } else {
        Worth::Nothing
    }
}

/// An assignment to a name or a member.
fn to_target(program: &Program, worths: &[Worth], id: u32) -> Worth {
    if is_name(program, id) || is_member(program, id) {
        deed_above(higher(
            value_at(program, worths, id, 0),
            value_at(program, worths, id, 1),
        ))
    } else {
        Worth::Nothing
    }
}

fn is_member(program: &Program, id: u32) -> bool {
    match program.child(id, 0) {
        Some(child) => matches!(form_at(program, child), Form::Member(_) | Form::Index),
        None => false,
    }
}

/// A block of one statement.
fn only_deed(program: &Program, worths: &[Worth], id: u32) -> Worth {
    match program.child(id, 1) {
        Some(_) => Worth::Nothing,
        None => deed_above(deed_at(program, worths, id, 0)),
    }
}

/// A `var` with one declarator, which has an initialiser.
fn only_initialiser(program: &Program, worths: &[Worth], id: u32) -> Worth {
    match program.child(id, 1) {
        Some(_) => Worth::Nothing,
        None => match program.child(id, 0) {
            Some(declarator) => deed_above(value_at(program, worths, declarator, 0)),
            None => Worth::Nothing,
        },
    }
}

/// An `if`, each branch of which may be done.
fn of_branches(program: &Program, worths: &[Worth], id: u32) -> Worth {
    let two = higher(
        value_at(program, worths, id, 0),
        deed_at(program, worths, id, 1),
    );
    match program.child(id, 2) {
        Some(_) => deed_above(higher(two, deed_at(program, worths, id, 2))),
        None => deed_above(two),
    }
}
