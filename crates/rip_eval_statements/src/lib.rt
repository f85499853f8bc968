//! What the rows of statements and calls do, up to the next part that they wait for, and how what they run begins (ECMA-262
//! 5.1, sections 10 and 12 to 14, with calls and `new` of section 11).
//!
//! There is one function for each form of node, and one for each place at which a form waits, in modules by families. The
//! contract of each says by one word (`Does.antt` of `rip_eval_language::answers`) that what it does is the row of the meaning. How a script,
//! and a function that is called from outside, begin is here too ([`enter_script`], [`enter_function`], [`statements`],
//! [`call_statements`]).
//!
//! A layer above may rest on this: each function is total for every program, heap and part, and memory is wanting only where
//! the host may want it; a function that is entered has the next scope (`proofs/Declared.antt`).
//!
//! | what | its definition in `rip_eval_language` |
//! |---|---|
//! | statements and loops; `switch`; exceptions | `Rows/Statements.antt`, `Rows/Switch.antt`, `Rows/Exceptions.antt` |
//! | functions, and how one is entered ([`enter_function`]) | `Rows/Functions.antt` |
//! | calls; `new` | `Rows/Calls.antt`, `Rows/Constructing.antt` |
//! | how a script begins ([`enter_script`]) | `Rows/Scripts.antt` |
//! | what remains of a row at each place where it waits | `Table.own_rest`, `Table.hosted_rest` |
#![tactic(auto)]

mod calls;
mod constructing;
mod exceptions;
mod functions;
mod scripts;
mod statement;
mod switch;

pub use calls::{
    after_argument, after_called, after_callee, begin_call, call_statements, callable, running,
};
pub use constructing::{after_constructor, after_new_argument, begin_new};
pub use exceptions::{
    after_finally_block, after_throw_value, after_try_block, begin_throw, begin_try, finally,
};
pub use functions::{begin_function, enter_function};
pub use scripts::{enter_script, script_part};
pub use statement::{
    after_do_body, after_do_test, after_expression, after_for_body, after_for_start,
    after_for_test, after_for_update, after_if_test, after_initialiser, after_return_value,
    after_statement, after_while_body, after_while_test, begin_block, begin_do, begin_expression,
    begin_for, begin_if, begin_return, begin_var, begin_while, round, statements,
};
pub use switch::{after_case_test, after_clause_statement, after_discriminant, begin_switch};
