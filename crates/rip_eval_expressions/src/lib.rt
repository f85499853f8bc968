//! What the rows of operations do, up to the next part that they wait for: members, assignment, operators, and the literals of
//! arrays and objects (ECMA-262 5.1, section 11).
//!
//! There is one function for each form of node, and one for each place at which a form waits, in modules by families. The
//! contract of each says by one word (`Does.antt` of `rip_eval_language::answers`) that what it does is the row of the meaning.
//!
//! A layer above may rest on this: each function is total for every program, heap and part, and memory is wanting only where
//! the host may want it.
//!
//! | what | its definition in `rip_eval_language` |
//! |---|---|
//! | members, indexes and `delete` | `Rows/Members.antt` |
//! | assignment, compound assignment, `++` and `--` | `Rows/Expressions.assign_row`, `compound_row`, `step_row` |
//! | operators of one and of two operands, `&&`, `?:` and the comma | the rows of their names in `Rows/Expressions.antt` |
//! | literals of arrays and objects | `Rows/Literals.antt` |
//! | what remains of a row at each place where it waits | `Table.own_rest`, `Table.hosted_rest` |
#![tactic(auto)]

mod assignment;
mod literals;
mod members;
mod operators;
mod unary;

pub use assignment::{
    after_assign_target, after_assign_value, after_compound_target, after_compound_value,
    after_step_target, begin_assign, begin_compound, begin_step,
};
pub use literals::{after_element, after_entry, begin_array, begin_object};
pub use members::{
    after_index_base, after_member_base, after_subscript, begin_index, begin_member,
};
pub use operators::{
    after_comma_left, after_conditional_test, after_left, after_logical_left, after_right,
    begin_binary, begin_comma, begin_conditional, begin_logical,
};
pub use unary::{after_operand, begin_unary};
