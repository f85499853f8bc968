use std::alloc::{AllocError, AllocFailed};
use thiserror::Error;

/// Why a text is refused as data. The order is that of the judgement: the first that holds is answered.
#[derive(Clone, Copy, Debug, PartialEq, Eq, Error)]
pub enum DataError {
    /// The bytes are no JSON text (RFC 8259 section 2), or nest more than 127 deep.
    #[error("no JSON text")]
    Syntax,
    /// A number is not spelled as a whole number of absolute value at most 2^53 - 1.
    #[error("a number that is not whole or out of range")]
    NotWhole,
    /// Arrays and objects nest more than 8 deep.
    #[error("nested more than 8 deep")]
    TooDeep,
    /// The canonical text is longer than 16,384 bytes.
    #[error("a text of more than 16384 bytes")]
    DataTooLong,
    /// Memory ran out.
    #[error("out of memory")]
    Memory,
}

impl From<AllocError> for DataError {
    ghost use Rattle.std.specs.Prelude.{◌≡◌};
    ghost use Rattle.rip_data.specs.declared.error.DataError.{DataError};

    ghost from_gives = { λ _ e. e ≡ DataError.Memory };

    fn from(_: AllocError) -> DataError {
        DataError::Memory
    }
}

impl<T: Drop> From<AllocFailed<T>> for DataError {
    ghost use Rattle.std.specs.Prelude.{◌≡◌};
    ghost use Rattle.rip_data.specs.declared.error.DataError.{DataError};

    ghost from_gives = { λ _ e. e ≡ DataError.Memory };

    fn from(_: AllocFailed<T>) -> DataError {
        DataError::Memory
    }
}
