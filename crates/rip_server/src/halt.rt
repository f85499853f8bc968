ghost use Rattle.std.specs.Prelude.{◌≡◌};

use rip_base::NoMemory;
use rip_outer::SinkError;

/// Why a turn stops before its end.
#[derive(Clone, Copy, Debug, PartialEq, Eq)]
pub enum Halt {
    /// The sink or the door failed.
    Outside,
    /// Want of memory for a connection, its bytes, the log or an answer.
    Memory,
}

impl From<NoMemory> for Halt {
    ghost use Rattle.std.specs.Prelude.{◌≡◌};
    ghost use Rattle.rip_server.specs.declared.halt.Halt.TheVariants.{Memory};

    ghost from_gives = { λ _ halt. halt ≡ Memory };

    fn from(_: NoMemory) -> Halt {
        Halt::Memory
    }
}

impl From<SinkError> for Halt {
    ghost use Rattle.std.specs.Prelude.{◌≡◌};
    ghost use Rattle.rip_server.specs.Halts.{halt_of};

    ghost from_gives = { λ error halt. halt ≡ halt_of error };

    fn from(error: SinkError) -> Halt {
        match error {
            SinkError::Failed => Halt::Outside,
            SinkError::Memory => Halt::Memory,
        }
    }
}
