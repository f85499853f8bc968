ghost use Rattle.std.specs.Prelude.{◌≡◌};

use rip_base::{NoMemory, PageKind};
use thiserror::Error;

/// Why bytes are no page: the first construct that is refused, or want of memory.
#[derive(Clone, Copy, Debug, PartialEq, Eq, Error)]
pub enum PageRefusal {
    /// The place counts bytes of the page from 0.
    #[error("{kind} {place}")]
    At { place: u32, kind: PageKind },
    #[error("memory")]
    Memory,
}

impl From<NoMemory> for PageRefusal {
    ghost use Rattle.rip_markup.specs.declared.refusal.PageRefusal.TheVariants.{Memory};

    ghost from_gives = { λ _ e. e ≡ Memory };

    fn from(_: NoMemory) -> PageRefusal {
        PageRefusal::Memory
    }
}
