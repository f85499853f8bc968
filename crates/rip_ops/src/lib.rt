//! The operators of the script language (ECMA-262 5.1, sections 11.4.6 to 11.10), over the heap of a session.
//!
//! [`binary`] and [`unary`] answer an operator of two operands or of one. Contracts see an outcome over worlds: a value
//! with the world after it, a TypeError to be thrown, a fault of the profile, or a limit that would be passed. Each
//! answer comes exactly where the outcome is that one (`Outcome.Answers` of the heap's crate); where it is no value the heap is as before,
//! what was charged on the way included; and memory is never wanting.
//!
//! Numbers are whole numbers of at most 2^53 - 1, or NaN: what would be a fraction, infinite or past the range is a
//! fault. An object never becomes a primitive. Operands are converted in the order of the standard, the left one first.
//!
//! | what | its definition in `specs/` |
//! |---|---|
//! | [`binary`], [`unary`] | `Operators.binary`, `Operators.unary`: the table, one equation for each operator |
//! | what an answer says of an outcome | `Outcome.Answers` of the heap's crate |
//! | `*` `/` `%` `-`, `+` of numbers, shifts, bits | `Arithmetic`, one definition for each; `Numbers.of_numbers` converts the operands |
//! | `+` ([`added`]) | `Addition.added`; `Addition.joining` where one side is a text |
//! | `<` `>` `<=` `>=` ([`order_of`]) | `Order.order_of` |
//! | `==` `!=` ([`loosely_equal`]) | `Equality.loosely_equal` |
//! | `===` `!==` | `Conversions.strictly_equal` of the heap's crate |
//! | `instanceof` ([`instance_of`]) | `Instances.instance_of` |
//! | `in` ([`contained`]) | `Members.contained` |
//!
//! Laws of `instanceof` and `in` along prototypes stand in `Laws`, each the contract of a function.
//!
//! A layer above may rest on this: each call is total, a number that is no object of the heap included.
#![tactic(auto)]

pub mod access;
mod addition;
mod arithmetic;
mod equality;
mod instances;
mod laws;
mod members;
mod numbers;
mod operators;
mod order;

pub use addition::added;
pub use arithmetic::{
    bits_and, bits_not, bits_or, bits_xor, difference, negative, product, quotient, remainder,
    shifted_left, shifted_right, shifted_right_unsigned, sum,
};
pub use equality::{loosely_equal, loosely_unequal};
pub use instances::instance_of;
pub use laws::instances_follow_prototypes;
pub use members::contained;
pub use numbers::numbers_of;
pub use operators::{UnaryOp, binary, unary};
pub use order::{is_at_least, is_at_most, is_greater, is_less, order_of};
