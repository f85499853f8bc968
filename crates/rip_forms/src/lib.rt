//! Form state: what a control is, which reports of events are legal, and what they do.
//!
//! A browser keeps with each control what its user did to it: the text that stands in a field, whether a box is checked,
//! which option is chosen (HTML 4.01 17.2, HTML 4.10.18.1). A script reads and writes the same state. This crate says, of a
//! document as it stands, what each control is, how each state begins, reads and changes, and which reports of a browser
//! can be true of it. A state follows the tree until a report or a write first sets it, and from then on is what was set
//! last.
//!
//! | what | its definition in `specs/` |
//! |---|---|
//! | [`FormPart`], [`part_of`] | `Controls.part_of`, by name and type |
//! | [`Forms`] | contracts see `States.States`: of each node what was set |
//! | [`Forms::set`], [`Forms::given`] | `States.states_with` |
//! | [`Forms::checked`] | `Values.checked_of` |
//! | [`Forms::selected`] | `Options.selected_of`, over `Options.options_of` |
//! | [`Forms::value`] | `Values.value_of`, read as `Values.ReadsValue` says |
//! | [`place_of_value`] | `Choices.place_of_value`, what a write of a select's value chooses |
//! | [`legal`] | `Reports.refusal_of`: the first refusal |
//! | [`Forms::apply`], [`Forms::undo_click`] | `Reports.effect_of`, refused as `Reports.is_past` says |
//!
//! Laws stand in `Laws`, each the contract of a function: what is set is read ([`states_are_read`]), and a click that is
//! undone leaves what was before it ([`clicks_are_undone`]).
//!
//! A layer above may rest on this: a state that was set is read as it was set, and no other node's state changes; a
//! refused call changes nothing; no call but the maker takes memory.
#![tactic(auto)]

mod choice;
mod control;
mod laws;
mod options;
mod report;
mod state;
mod value;
mod words;

pub use choice::place_of_value;
pub use control::{FormPart, part_of};
pub use laws::{clicks_are_undone, states_are_read};
pub use report::legal;
pub use state::{ControlState, FormState, Forms};
pub use value::Value;
