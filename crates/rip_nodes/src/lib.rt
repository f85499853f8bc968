//! The members of the document and of its nodes that need the document and the heap alone (DOM Level 2 Core 1.2).
//!
//! A script reads and writes members of nodes, and calls them. Here stands what each of these answers: a value, a
//! TypeError, a code of the document, a fault, or a limit; with the world and the tree after it. It is one table for
//! what is read, one for what is written and one for calls, each by what the node is. Members that need listeners,
//! the states of controls or events are those of the crate above.
//!
//! | what | its definition in `specs/` |
//! |---|---|
//! | [`NodeMember`], [`NodeCall`] | `Members.member_of` and `Members.call_of`, by the names and the built-in functions |
//! | [`read_member`] | `Reading.node_member` |
//! | [`write_member`] | `Writing.node_written` |
//! | [`call_node`] | `Calls.node_call`, over `Attributes` for those of attributes |
//! | [`give_attribute`] | `Attributes.attribute_given` |
//! | [`text_arg`], [`make_text`] | `Texts.text_taken`, `Texts.world_with`: values that become texts, and what that costs |
//! | [`node_in`], [`node_of_object`] | `Calls.node_in`, `Calls.node_of_object` |
//! | [`member_named`] | the fixed text that a name is spelled as |
//! | what holds of each answer | `Answers.AddsTexts`, `Answers.IsAnswered`, `Answers.KeepsTree` |
//!
//! Arguments become texts first, from left to right. Then the name is judged, then the limit of nodes, and then that of
//! units; what is refused by a fault or a limit changes nothing, while a code or a TypeError keeps the texts that were
//! made.
//!
//! A layer above may rest on this: each call is total, a node past the last included; only texts are added to the
//! world, so that older texts, objects and scopes stand; a value that is answered is of the world after it; want of
//! memory is never answered; the limit of the tree stands.
#![tactic(auto)]

mod answer;
mod attributes;
mod calls;
mod capitals;
mod links;
mod member;
mod moves;
mod reading;
mod texts;
mod writing;

pub use answer::{member_named, node_or_null, node_value, outside, text_value};
pub use attributes::give_attribute;
pub use calls::{argument, call_node};
pub use member::{NodeCall, NodeMember};
pub use moves::{node_in, node_of_object};
pub use reading::read_member;
pub use texts::{are_past, cost_of_text, make_text, standing_text, text_arg, text_fault};
pub use writing::write_member;
