//! The store in which the functions of an application keep data, and what a call of one does.
//!
//! | what | its definition in `specs/` |
//! |---|---|
//! | [`Store`] | `Held.functions_of`, and `Held.stored_of`: places and data in the order of the places' bytes |
//! | [`Store::apply`] | `Apply.apply`, by `Operations.operate`: one equation for each operation, its refusals in their order |
//! | [`Refusal`] | `Apply.error`, the reply that tells it |
//!
//! A layer above may rest on this: what a call does and replies is a function of the functions, the store, the name
//! and the args; a refusal leaves the store, and so does want of memory. What a store keeps, and each reply, is data
//! that `read_datum` accepts, at no more than 4,096 places in order (`Kept.IsKept`), where the args are: it holds of a new
//! store and after each call ([`Store::make`], [`Store::apply`], [`stays_kept`]). A call takes time in proportion to its
//! args, its reply and the datum that it frees, or to the keys under its prefix, and to the logarithm of the keys. A `push`
//! neither copies nor measures the list at its place, whose room grows as a `Vec`'s does.
#![tactic(auto)]

mod args;
mod failure;
mod laws;
mod limits;
mod measured;
mod operations;
mod outcome;
mod places;
mod refusal;
mod store;

pub use laws::{
    arguments_are_not_of_the_form, kept_is_found, others_stay, put_is_got, refusal_leaves,
    removed_is_absent, stays_kept, store_stays, taken_is_gone, unknown_is_no_function,
};
pub use limits::{LONGEST_KEY, MOST_KEYS};
pub use refusal::Refusal;
pub use store::{Replies, Store};
