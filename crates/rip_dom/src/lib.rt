//! The document: a tree of numbered nodes, in one room that is taken when the document is made.
//!
//! Contracts see a document as a tree of lists (DOM Level 2 Core 1.1.1 and 1.2): of each node its kind, its name, its text,
//! its attributes, its parent and the list of its children. A node's number is the count of nodes made before it, and is
//! never used again. Code keeps children and attributes in linked lists whose room is reserved and filled as it is used,
//! so that no call but the maker takes memory, and each call costs what it touches.
//!
//! | what | its definition in `specs/` |
//! |---|---|
//! | [`Dom`] | contracts see `Tree.Tree`, the list of nodes |
//! | [`Dom::make`] | `Opening.Opens`: `Opening.nodes_in` over the nodes of the page, and which limit comes when |
//! | [`Dom::parent`], [`Dom::first_child`], [`Dom::last_child`], [`Dom::next`], [`Dom::previous`] | `Tree.parent_of`, `Tree.children_of`, `Tree.next_of`, `Tree.previous_of` |
//! | [`Dom::kind`], [`Dom::name`], [`Dom::text`] | `Tree.node_at` |
//! | [`Dom::attribute_at`] | the attributes of `Tree.node_at`, in the order of making |
//! | [`Dom::attribute`], [`Dom::remove_attribute`] | `Names.attribute_of`, `Names.without_attribute` |
//! | [`Dom::find_id`] | `Order.element_of_id`, the first in `Order.in_order` |
//! | [`Step`], [`Dom::step`], [`Dom::steps`], [`Dom::is_above`] | `Way.step`, `Way.way_on`; `Tree.is_above` |
//! | [`Dom::create_text`] | `Tree.new_node` |
//! | [`Dom::create_element`] | `Creation.element_made`, refused as `Creation.element_refusal` says |
//! | [`Dom::set_attribute`] | `Attributes.attribute_set`, refused as `Attributes.attribute_refusal` says |
//! | [`Dom::read_text`], [`Dom::has_text`] | `Reading.text_below`, answered as `Reading.Reads` says |
//! | [`Dom::write_text`] | `Writing.written`, refused as `Writing.is_past` says |
//! | [`Dom::insert_before`], [`Dom::replace`], [`Dom::remove`] | `Tree.inserted`, `Tree.replaced`, `Tree.taken_out` |
//! | [`push_in`] | `Letters.text_in`, behind all others |
//! | the codes of refusals and their order | `Tree.insert_code`, `Tree.replace_code`, `Tree.remove_code`; what bars a node, `Tree.is_barred` |
//! | what a call answers of its step | `Answers.Makes`, `Answers.Moves` |
//!
//! Laws stand in `Laws`, each the contract of a function: parent and children agree
//! ([`Dom::parents_and_children_agree`]), no node is its own ancestor ([`Dom::has_no_cycle`]), and what is put before a
//! place is read before it ([`puts_are_read`]), and other lists stay but where the node left ([`puts_leave_others`]); a
//! number never comes again ([`numbers_are_new`]); steps go in document order ([`Dom::steps_go_in_order`]).
//!
//! A layer above may rest on this: a refused call changes nothing; a node that was taken out keeps its number and its
//! children; a number that is no node's has no parent, no children and no siblings.
#![tactic(auto)]

mod attributes;
mod creation;
mod dom;
mod kinds;
mod laws;
mod letters;
mod lists;
mod names;
mod opening;
mod order;
mod reading;
mod units;
mod walks;
mod writing;

pub use attributes::is_attribute_name;
pub use creation::{DomRefused, INVALID_CHARACTER, is_element_name};
pub use dom::{Dom, HIERARCHY_REQUEST, NOT_FOUND};
pub use laws::{numbers_are_new, puts_are_read, puts_leave_others};
pub use letters::{Letters, push_in};
pub use names::is_small;
pub use order::{Step, is_end};
pub use reading::TextRefused;
