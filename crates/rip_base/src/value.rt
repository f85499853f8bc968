use crate::memory::NoMemory;
use crate::whole::Whole;
use std::alloc::{AllocError, AllocFailed};
use thiserror::Error;

/// A text of a pool: `count` units from place `start` on.
#[derive(Clone, Copy, Debug, PartialEq, Eq)]
pub struct Span {
    pub start: u32,
    pub count: u32,
}

/// A value of the script language (ECMA-262 section 8). The number of an object below 128 is that of a built-in,
/// `2^31 + n` is node `n` of the document, and any other is an object of the heap.
#[derive(Clone, Copy, Debug, PartialEq, Eq)]
pub enum Value {
    Undefined,
    Null,
    Bool(bool),
    Num(Whole),
    NaN,
    Text(Span),
    Object(u32),
}

/// A number of the script language: a whole number in range, or NaN.
#[derive(Clone, Copy, Debug, PartialEq, Eq)]
pub enum Numeral {
    Num(Whole),
    NaN,
}

impl From<Numeral> for Value {
    ghost use Rattle.std.specs.Prelude.{◌≡◌};
    ghost use Rattle.rip_base.specs.Values.{value_of_number};

    ghost from_gives = { λ number v. v ≡ value_of_number number };

    fn from(number: Numeral) -> Value {
        match number {
            Numeral::Num(whole) => Value::Num(whole),
            Numeral::NaN => Value::NaN,
        }
    }
}

impl From<u32> for Value {
    ghost use Rattle.std.specs.Prelude.{◌≡◌, pos};
    ghost use Rattle.rip_base.specs.declared.value.Value.TheVariants.{Num};

    ghost from_gives = { λ n v. v ≡ Num (pos n) };

    fn from(n: u32) -> Value {
        Value::Num(Whole::from(n))
    }
}

/// Why a script left the profile. It ends the session, and no script can catch it.
#[derive(Clone, Copy, Debug, PartialEq, Eq, Error)]
pub enum Fault {
    #[error("a number that is not whole")]
    NotWhole,
    #[error("an infinite number")]
    Infinite,
    #[error("a whole number past the range")]
    OutOfRange,
    #[error("a hole in an array")]
    Hole,
    #[error("a member or use that is not in the profile")]
    NotInProfile,
    #[error("an object where a primitive is needed")]
    ObjectToPrimitive,
    #[error("an argument that is not of the form")]
    BadArgument,
    #[error("a surrogate without its partner")]
    LoneSurrogate,
    #[error("a text past the greatest length")]
    TextTooLong,
}

/// Which limit of a session would have been passed.
#[derive(Clone, Copy, Debug, PartialEq, Eq, Error)]
pub enum Limit {
    #[error("the limit of fuel")]
    Fuel,
    #[error("the limit of cells")]
    Cells,
    #[error("the limit of units")]
    Units,
    #[error("the limit of nodes")]
    Nodes,
    #[error("the limit of depth")]
    Depth,
    #[error("the limit of the queue")]
    Queue,
    #[error("the limit of replies")]
    Replies,
}

/// The refusal of a call that charges a session.
#[derive(Clone, Copy, Debug, PartialEq, Eq, Error)]
pub enum Refused {
    #[error("{0}")]
    Limit(Limit),
    #[error("out of memory")]
    Memory,
}

/// Why bytes are no text, or a text has no bytes.
#[derive(Clone, Copy, Debug, PartialEq, Eq, Error)]
pub enum TextError {
    #[error("bytes that are not UTF-8")]
    NotUtf8,
    #[error("a surrogate without its partner")]
    LoneSurrogate,
    #[error("out of memory")]
    Memory,
}

impl From<AllocError> for TextError {
    ghost use Rattle.std.specs.Prelude.{◌≡◌};
    ghost use Rattle.rip_base.specs.declared.value.TextError.TheVariants.{Memory};

    ghost from_gives = { λ _ e. e ≡ Memory };

    fn from(_: AllocError) -> TextError {
        TextError::Memory
    }
}

impl<T: Drop> From<AllocFailed<T>> for TextError {
    ghost use Rattle.std.specs.Prelude.{◌≡◌};
    ghost use Rattle.rip_base.specs.declared.value.TextError.TheVariants.{Memory};

    ghost from_gives = { λ _ e. e ≡ Memory };

    fn from(_: AllocFailed<T>) -> TextError {
        TextError::Memory
    }
}

impl From<NoMemory> for TextError {
    ghost use Rattle.std.specs.Prelude.{◌≡◌};
    ghost use Rattle.rip_base.specs.declared.value.TextError.TheVariants.{Memory};

    ghost from_gives = { λ _ e. e ≡ Memory };

    fn from(_: NoMemory) -> TextError {
        TextError::Memory
    }
}

impl From<NoMemory> for Refused {
    ghost use Rattle.std.specs.Prelude.{◌≡◌};
    ghost use Rattle.rip_base.specs.declared.value.Refused.TheVariants.{Memory};

    ghost from_gives = { λ _ e. e ≡ Memory };

    fn from(_: NoMemory) -> Refused {
        Refused::Memory
    }
}

impl From<Limit> for Refused {
    ghost use Rattle.std.specs.Prelude.{◌≡◌};
    ghost use Rattle.rip_base.specs.declared.value.Refused.TheVariants.{Limit as At};

    ghost from_gives = { λ limit e. e ≡ At limit };

    fn from(limit: Limit) -> Refused {
        Refused::Limit(limit)
    }
}
