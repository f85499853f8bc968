//! Values of scripts made of data, and data made of values: what goes between a page and its server.
//!
//! A reply of the server is handed to its callback as a value: [`value_of_datum`] makes it in the heap of the session,
//! step by step, each step at its charge. A call to the server is told and compared by its text, `[NAME,ARGS]` as JSON
//! (RFC 8259), which [`CallRow::write_call`] writes from the heap.
//!
//! | what | its definition in `specs/` |
//! |---|---|
//! | [`value_of_datum`] | `Values.made_value`, the steps in the order of their charges, with the fault or the limit that ends them; want of memory is no answer |
//! | [`CallRow::write_call`] | `Arguments.call_text`: the first fault `Arguments.fault_of` on the walk over the arguments, left to right, then their data `Arguments.walked`, and at last their length; `Told.IsCallOf` that they are the text of a datum that is well made |
//! | [`calls_are_told`] | `Told.CallsAreTold` and `Told.ListsAreTold`: so is each text that `Arguments.call_text` comes to, whatever the heap |
//!
//! A layer above may rest on this: each call is total, a number that is no object of the heap included. A limit ends the
//! making of a value at the step that would pass it, and the steps before it stand. The walk over arguments changes
//! nothing and nests no deeper than 8 levels. Their data is sought in 16,384 pieces, so that values which hold each other,
//! or one value many times, cost no more than their text may have bytes; where these are spent, or a fault is met, the
//! first fault is sought, for which each object is walked once for each number of levels at most. The text of a call is
//! written without memory, in the room that its row took when it was made.
#![tactic(auto)]

mod faults;
mod judge;
mod laws;
mod line;
mod marks;
mod order;
mod row;
mod units;
mod values;
mod write;

pub use laws::calls_are_told;
pub use row::CallRow;
pub use values::value_of_datum;
