use std::alloc::AllocFailed;
use thiserror::Error;

/// Why a log was not read.
#[derive(Clone, Copy, Debug, PartialEq, Eq, Error)]
pub enum LogRefusal {
    /// The first line that is no entry's, counted from 1.
    #[error("line {0} is that of no entry")]
    Line(u64),
    /// Memory ran out.
    #[error("out of memory")]
    Memory,
}

impl<T: Drop> From<AllocFailed<T>> for LogRefusal {
    ghost use Rattle.std.specs.Prelude.{◌≡◌};
    ghost use Rattle.rip_log.specs.declared.error.LogRefusal.TheVariants.{Memory};

    ghost from_gives = { λ _ e. e ≡ Memory };

    fn from(_: AllocFailed<T>) -> LogRefusal {
        LogRefusal::Memory
    }
}
