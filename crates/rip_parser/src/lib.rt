//! The parser of scripts (ECMA-262 11 to 14, and 7.9 on semicolons).
//!
//! [`parse`] answers the tree of a script, or the place of the first token with which no script goes on, or that the
//! tree is deeper than 200 levels. A machine then takes one word at a time and
//! keeps the open forms on a stack of its own, so that no depth of a script is too deep for it; it tells of each node
//! once its parts have been told, and a builder makes the tree of that, from its last node to its first. The layer above
//! may rest on this: all derivations of a script show the tree that is answered, and a script that has one is refused for
//! its depth or want of memory alone. The tree is one, node by node, so that a layer above may compute with it.
//!
//! | what | its definition in `specs/` |
//! |---|---|
//! | the lexemes of a script: its tokens with their words, and the end ([`lexemes`]) | `Words.lexemes_of` |
//! | the tree of a script ([`parse`]) | `Parsed.HasTree`: some body of it has a depth of at most 200 and shows the tree |
//! | the bodies of a script | `Parsed.IsBody`, by the rules of the grammar's crate |
//! | the tree that a phrase shows, with the number of each node | `Shows.Shows`, one line for each form; `Shows.ShowsScript` |
//! | where the texts of a tree lie | `Shows.AreLaid` |
//! | why a script is refused ([`ParseRefusal`]) | `Parsed.IsRefused`, `Parsed.IsUnexpected` |
//! | the one answer of a script: a tree, or a place and a cause | `Parsed.IsTreeOf`, `Parsed.IsNoTree` |
//! | [`trees_are_one`]: each script has one answer | `Laws.HasReading`, `HaveOneTree`, `HaveOneRefusal`, `HaveNotBoth` |
//! | [`nodes_are_held_once`]: each node but the root is a child once | `Laws.AreHeldOnce`, `Held.times_held` |
//! | what is printed of a refusal | `Printed.refusal_text` |
//!
//! The files `Building`, `Listed`, `Running` and `Endings` of `specs/` say what the functions below [`parse`] do,
//! and no public clause cites them.
#![tactic(auto)]

mod build;
mod builder;
mod continuations;
mod deepest;
mod error;
mod forms;
mod grammar;
mod headers;
mod laws;
mod levels;
mod literal;
mod machine;
mod operands;
mod parser;
mod part;
mod reading;
mod refusal;
mod run;
mod statements;

pub use laws::{nodes_are_held_once, trees_are_one};
pub use parser::parse;
pub use reading::lexemes;
pub use refusal::{ParseKind, ParseRefusal};
