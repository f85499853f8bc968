//! What each form of node means: the language of scripts as a table of rows (ECMA-262 5.1, sections 10 to 14).
//!
//! The meaning of a program is its table of rows, one for each form of node, in the order of the standard
//! (`specs/Table.antt`). Beside it stand the program as rows read it ([`Source`]), what is worth trying in place of each of its
//! nodes ([`worths`]), and the few functions that every evaluation of it uses: what a name means, what a completion gives,
//! what some operators decide.
//!
//! Every form of node has its row. A layer above may rest on this: reading is total, since a child that is absent counts as
//! node 0, and a name that means nothing reads as undefined and is never written; and the table speaks of every program and
//! every heap.
//!
//! | what | its definition in `specs/` |
//! |---|---|
//! | [`Source`], a program as rows read it | `Reading.antt` |
//! | the row of each form | `Table.row_by`; what remains of it at each place where it waits `Table.own_rest`, `Table.hosted_rest` |
//! | names, and the errors that are thrown; [`found`], [`write`], [`bind`] | `Rows/Names.antt` |
//! | expressions; literals of arrays and objects | `Rows/Expressions.antt`, `Rows/Literals.antt` |
//! | functions; calls; `new`; [`Invocable`], [`Answerer`], [`Making`] | `Rows/Functions.antt`, `Rows/Calls.antt`, `Rows/Constructing.antt` |
//! | members, what targets mean, and `delete` | `Rows/Members.antt` |
//! | what is asked of the host | `Rows/Host.antt` |
//! | statements and loops; `switch`; exceptions | `Rows/Statements.antt`, `Rows/Switch.antt`, `Rows/Exceptions.antt` |
//! | how a script begins | `Rows/Scripts.antt` |
//! | worked scripts, with their units and cells | `Worked.antt` |
#![tactic(auto)]

pub mod answers;
mod callee;
mod forms;
mod names;
mod operators;
mod source;
mod values;
mod worked;
mod worth;

pub use callee::{Answerer, Invocable, Making};
pub use forms::{Listed, is_declaration, is_for};
pub use names::{bind, found, target_found, write};
pub use operators::{is_decided, is_delete, is_type_of, numbers_of_step};
pub use source::Source;
pub use values::{truth_of, value_of};
pub use worked::{closing_is_worked, counting_is_worked};
pub use worth::{HEIGHT, Worth, worths};
