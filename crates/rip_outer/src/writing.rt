use rip_base::NoMemory;
use thiserror::Error;

/// Why bytes weren't put.
#[derive(Clone, Copy, Debug, PartialEq, Eq, Error)]
pub enum SinkError {
    #[error("the output could not be written")]
    Failed,
    #[error("out of memory")]
    Memory,
}

impl From<NoMemory> for SinkError {
    ghost use Rattle.std.specs.Prelude.{◌≡◌};
    ghost use Rattle.rip_outer.specs.declared.writing.SinkError.TheVariants.{Memory};

    ghost from_gives = { λ _ e. e ≡ Memory };

    fn from(_: NoMemory) -> SinkError {
        SinkError::Memory
    }
}

/// Where the program puts what it writes.
pub trait Sink {
    ghost use Rattle.std.specs.Prelude.{◌≡◌, ◌≤◌, ℕ, List, Option};
    ghost use Rattle.rip_outer.specs.Writing.{Takes, CountsPut};

    // All bytes put so far, where the object tells them; how many calls failed.
    ghost held: { Self → Option (List ℕ) };

    ghost count: { Self → ℕ };

    /// How often the outside failed so far.
    fn faults(&self) -> u64
        ensures { result ≡ count self.now };

    /// Puts the bytes behind those put before.
    ///
    /// # Errors
    ///
    /// `Failed` where the outside failed; a front of the bytes may then have been put. `Memory` for want of memory;
    /// then nothing was put.
    fn put(&mut self, bytes: &[u8]) -> Result<(), SinkError>
        ensures taken { Takes result bytes.now (held self.old) (held self.new) }
        ensures counted { CountsPut result (count self.old) (count self.new) }
        ensures later { count self.old ≤ count self.new };
}
