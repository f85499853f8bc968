//! Early errors and names resolved: what is checked of all scripts of a page before the first one runs (ECMA-262 10,
//! 11.1.5, 13, 14.1 and Annex C, narrowed to the profile).
//!
//! [`check`] gives the program of scripts that have no early error, and else the first of all early errors: by script,
//! then by place, then in the order of [`EarlyKind`]. When a script is refused, later ones are not looked at.
//!
//! The names of each scope are gathered in one pass over the nodes of a script, so that no cost grows with a square: what
//! stands around a node follows from what stands around its parent, whose number is lower. A name is looked for in the
//! scopes around it alone, from one node that makes a scope to the next.
//!
//! | what | its definition in `specs/` |
//! |---|---|
//! | the nodes around a node, and the script or function that it is code of | `Around.around`, `Around.home_of` |
//! | the nodes of a script in the order of its text | `Around.in_text` |
//! | the names that a function and the one top scope bind | `Names.function_scope`, `Names.top_scope` |
//! | what a name means where it stands | `Scopes.meaning_at`: the first scope around it that binds it, or else a global |
//! | the early errors of a script: of its directive, and of each node by its form | `Mistakes.mistakes`, `Mistakes.is_strict`, `Mistakes.mistakes_of` |
//! | [`check`]: no script has an early error | `Mistakes.AreClean` |
//! | [`check`]: the program is their trees joined, with what the rules of scope say of each node | `Program.program_of`, `Scopes.scoping_at` |
//! | [`check`]: the refusal is the first early error of all | `Mistakes.IsRefusalOf`, `Mistakes.IsFirst` |
//! | [`refusals_are_one`]: scripts are clean or have one first early error, and never both | `Laws.HaveAnAnswer`, `Laws.HaveOneFirst`, `Laws.AreNotClean` |
//! | [`names_are_resolved`]: a node without a name is resolved to nothing, a name that is read to something | `Laws.NamesAreResolved` |
//! | how a refusal is printed | `Printed.kind_text`, `Printed.refusal_text` |
//!
//! The files `Contexts`, `Gathered`, `Indexed`, `Least` and `Looking` of `specs/` say what the functions within the crate
//! do, and no public clause cites them.
#![tactic(auto)]

mod bindings;
mod context;
mod declared;
mod duplicates;
mod globals;
mod meaning;
mod mistake;
mod names;
mod node;
mod order;
mod program;
mod refusal;
mod scopes;
mod script;
mod strict;
mod uses;

pub use program::{check, names_are_resolved, refusals_are_one};
pub use refusal::{EarlyKind, EarlyRefusal};
