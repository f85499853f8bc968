//! The automaton of the grammar: a machine that takes the lexemes of a script one at a time.
//!
//! It keeps the open forms on a stack of its own, and tells events, the parts of a phrase before it. A parser is code
//! that does what the machine does (`rip_parser`). What it may rest on: the machine takes every script and tells what is
//! told of the script's phrase, so a script is told in one way ([`scripts_are_told_once`]); it takes nothing else to the
//! end, and refuses a lexeme exactly where no script goes on with it ([`scripts_alone_are_taken`]). The tables that
//! grammar and machine share are what the standard has: the words that continue an expression
//! ([`continuing_words_are_taken`]), and where `;` is inserted ([`semicolons_are_inserted`]). A reader who believes the
//! laws need not read the machine.
//!
//! | what | its definition in `specs/` |
//! |---|---|
//! | what it wants ([`Mode`], [`Shape`]), the open forms ([`Frame`]) and what it has told | `States.State` |
//! | how tightly the open forms hold, and what may stand in them | `Frames` |
//! | what it does where an operand is wanted, behind one, where a statement is wanted, in headers | `Operands`, `Continuations`, `Statements`, `Headers` |
//! | what it does with one lexeme, and with all | `Machine.step`, `Machine.go`, `Machine.begins` |
//! | what holds of all scripts, and of the words that continue an expression | `Laws` |
//! | where `;` is inserted, in the words of the standard | `Insertion` |
#![tactic(auto)]

mod frame;
mod laws;
mod mode;

pub use frame::{Frame, Header, Invocation, Owner, Pending, VarRole};
pub use laws::{
    continuing_words_are_taken, scripts_alone_are_taken, scripts_are_told_once,
    semicolons_are_inserted,
};
pub use mode::{Mode, Shape};
