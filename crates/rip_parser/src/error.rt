ghost use Rattle.std.specs.Prelude.{◌≡◌};

use rip_base::NoMemory;
use std::alloc::{AllocError, AllocFailed};

/// Why no tree is built.
#[derive(Clone, Copy, Debug, PartialEq, Eq)]
pub(crate) enum BuildError {
    Memory,
    /// What was told is told of no phrase.
    NoPhrase,
}

impl From<NoMemory> for BuildError {
    ghost use Rattle.rip_parser.specs.declared.error.BuildError.TheVariants.{Memory};

    ghost from_gives = { λ _ e. e ≡ Memory };

    fn from(_: NoMemory) -> BuildError {
        BuildError::Memory
    }
}

impl From<AllocError> for BuildError {
    ghost use Rattle.rip_parser.specs.declared.error.BuildError.TheVariants.{Memory};

    ghost from_gives = { λ _ e. e ≡ Memory };

    fn from(_: AllocError) -> BuildError {
        BuildError::Memory
    }
}

impl<T: Drop> From<AllocFailed<T>> for BuildError {
    ghost use Rattle.rip_parser.specs.declared.error.BuildError.TheVariants.{Memory};

    ghost from_gives = { λ _ e. e ≡ Memory };

    fn from(_: AllocFailed<T>) -> BuildError {
        BuildError::Memory
    }
}
