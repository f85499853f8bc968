//! How tightly the forms of expressions hold (ECMA-262 11.2 to 11.14), from the comma on.

pub(crate) const COMMA: u32 = 1;

pub(crate) const ASSIGNMENT: u32 = 2;

pub(crate) const CONDITIONAL: u32 = 3;

pub(crate) const OR: u32 = 4;

pub(crate) const AND: u32 = 5;

pub(crate) const BIT_OR: u32 = 6;

pub(crate) const BIT_XOR: u32 = 7;

pub(crate) const BIT_AND: u32 = 8;

pub(crate) const EQUALITY: u32 = 9;

pub(crate) const RELATION: u32 = 10;

pub(crate) const SHIFT: u32 = 11;

pub(crate) const SUM: u32 = 12;

pub(crate) const PRODUCT: u32 = 13;

pub(crate) const PREFIX: u32 = 14;

pub(crate) const POSTFIX: u32 = 15;
/// `new` without arguments.
pub(crate) const NEW: u32 = 16;

pub(crate) const CALL: u32 = 17;
