//! Nodes that are numbered in another order than that of the text, which the parser never does.
use rip_base::NoMemory;
use rip_early::check;
use rip_tree::{Form, Node, Piece, Resolved, TextLiteral, Tree, TreeMaker, Trees};
use std::alloc::Global;
use std::test::Fail;

/// The script `"use strict";var a;if(NaN){var b;}var c;` and its units.
static BINDS_THREE: [u16; 40] = [
    34, 117, 115, 101, 32, 115, 116, 114, 105, 99, 116, 34, 59, 118, 97, 114, 32, 97, 59, 105, 102,
    40, 78, 97, 78, 41, 123, 118, 97, 114, 32, 98, 59, 125, 118, 97, 114, 32, 99, 59,
];

fn node(place: u32, form: Form) -> Node {
    Node { place, form }
}

/// The name of one unit that `var` binds at a place.
fn bound_at(place: u32) -> Node {
    let name = Piece {
        start: place,
        count: 1,
    };
    node(place, Form::Declarator(name))
}

/// The tree of the script that binds three names, whose nodes are numbered in another order than that of the text: what
/// binds `a` has the number 4, what binds `c` the number 6, and what binds `b` the number 11.
fn tree_that_binds_three(alloc: Global) -> Result<Tree, NoMemory> {
    let mut maker = TreeMaker::new(alloc, 12, &BINDS_THREE)?;
    let b = maker.push(bound_at(31), &[])?;
    let inner = maker.push(node(27, Form::Var), &[Some(b)])?;
    let block = maker.push(node(26, Form::Block), &[Some(inner)])?;
    let nan = Piece {
        start: 22,
        count: 3,
    };
    let test = maker.push(node(22, Form::Name(nan)), &[])?;
    let branch = maker.push(node(19, Form::If), &[Some(test), Some(block)])?;
    let c = maker.push(bound_at(38), &[])?;
    let last = maker.push(node(34, Form::Var), &[Some(c)])?;
    let a = maker.push(bound_at(17), &[])?;
    let first = maker.push(node(13, Form::Var), &[Some(a)])?;
    let value = Piece {
        start: 1,
        count: 10,
    };
    let text = TextLiteral {
        value,
        is_plain: true,
    };
    let text = maker.push(node(0, Form::Text(text)), &[])?;
    let directive = maker.push(node(0, Form::Expression), &[Some(text)])?;
    let statements = [Some(directive), Some(first), Some(branch), Some(last)];
    maker.push(node(0, Form::Script), &statements)?;
    Ok(maker.finish())
}

/// The nodes that bind a name, and the place of each among the names.
static BOUND: [(u32, u32); 3] = [(4, 0), (11, 1), (6, 2)];

#[test]
fn names_are_bound_in_the_order_of_the_text(rt: HostRuntime) -> Result<(), Fail> {
    let script = tree_that_binds_three(rt.alloc())?;
    let trees = Trees::from_vec(vec![in rt.alloc(); script]?);
    let program = check(rt.alloc(), &trees)?;
    assert_eq!(rt; program.top_names(), 3);
    for &(id, place) in &BOUND {
        assert_eq!(rt;
            *program.resolved(id),
            Some(Resolved::Binding { up: 0, place })
        );
    }
    Ok(())
}
