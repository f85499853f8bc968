ghost use Rattle.std.specs.Prelude.{◌≡◌};

use rip_base::NoMemory;
use rip_data::DataError;
use std::alloc::{AllocError, AllocFailed};
use thiserror::Error;

/// Why no batch was read.
#[derive(Clone, Copy, Debug, PartialEq, Eq, Error)]
pub enum WireError {
    /// The body is that of no batch.
    #[error("the body is no batch")]
    Body,
    /// Memory ran out.
    #[error("out of memory")]
    Memory,
}

impl From<AllocError> for WireError {
    ghost use Rattle.rip_wire.specs.declared.error.WireError.TheVariants.{Memory};

    ghost from_gives = { λ _ e. e ≡ Memory };

    fn from(_: AllocError) -> WireError {
        WireError::Memory
    }
}

impl<T: Drop> From<AllocFailed<T>> for WireError {
    ghost use Rattle.rip_wire.specs.declared.error.WireError.TheVariants.{Memory};

    ghost from_gives = { λ _ e. e ≡ Memory };

    fn from(_: AllocFailed<T>) -> WireError {
        WireError::Memory
    }
}

/// Why a line of a log or of a trace was not read.
#[derive(Clone, Copy, Debug, PartialEq, Eq, Error)]
pub enum LineError {
    /// The line is none of them, or may not follow those before it.
    #[error("the line is none")]
    Other,
    /// Memory ran out.
    #[error("out of memory")]
    Memory,
}

impl From<NoMemory> for LineError {
    ghost use Rattle.rip_wire.specs.declared.error.LineError.TheVariants.{Memory};

    ghost from_gives = { λ _ e. e ≡ Memory };

    fn from(_: NoMemory) -> LineError {
        LineError::Memory
    }
}

impl From<AllocError> for LineError {
    ghost use Rattle.rip_wire.specs.declared.error.LineError.TheVariants.{Memory};

    ghost from_gives = { λ _ e. e ≡ Memory };

    fn from(_: AllocError) -> LineError {
        LineError::Memory
    }
}

impl<T: Drop> From<AllocFailed<T>> for LineError {
    ghost use Rattle.rip_wire.specs.declared.error.LineError.TheVariants.{Memory};

    ghost from_gives = { λ _ e. e ≡ Memory };

    fn from(_: AllocFailed<T>) -> LineError {
        LineError::Memory
    }
}
