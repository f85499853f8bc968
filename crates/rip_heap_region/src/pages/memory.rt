ghost use Rattle.std.specs.Prelude.{◌≡◌, ◌≤◌, IfOk};
ghost use Rattle.rip_heap_region.specs.PageMemory.{bytes_of, memory_for};

use crate::pages::for_rows::ForRows;
use crate::pages::page::PAGE;
use crate::pages::slot::Slot;
use rip_base::NoMemory;
use std::alloc::Global;
use std::marker::Model;
use std::mem::size_of;

/// The most slots that there may be room for: what is told of them is counted by a `u32`.
const MOST_ROOM: u32 = 0x7fff_0000;

/// The memory of rows in which nothing lies yet. It is reserved, and nothing is written in it.
#[derive(Debug, Drop)]
pub struct PageMemory {
    pub(crate) slots: Vec<Slot>,
    pub(crate) starts: Vec<ForRows>,
}

impl Model for PageMemory {
    ghost use Rattle.std.specs.Prelude.{vec_capacity};
    ghost use Rattle.rip_heap_region.specs.PageMemory.{IsUntouched, Memory};

    ghost Value = { Memory };

    ghost view = { λ m. record { slots = vec_capacity m.slots; starts = vec_capacity m.starts } };

    ghost invariant = { λ m. IsUntouched m.slots.items m.starts.items (vec_capacity m.slots)
        (vec_capacity m.starts) };
}

impl PageMemory {
    /// The memory of rows with room for so many slots in all of them together.
    pub fn reserve(alloc: Global, room: u32) -> Result<PageMemory, NoMemory>
        ensures memory { IfOk result (λ memory. memory ≡ memory_for room) }
        ensures most { IfOk result (λ _. room ≤ 2147418112) }
    {
        if room > MOST_ROOM {
            return Err(NoMemory);
        }
        Ok(PageMemory {
            slots: Vec::with_capacity(alloc, room as usize + 5 * PAGE as usize)?,
            starts: Vec::with_capacity(alloc, (room / PAGE) as usize + 1)?,
        })
    }

    /// How many bytes it takes.
    pub fn bytes(&self) -> u64
        ensures { result ≡ bytes_of self.now }
    {
        let slots = self.slots.capacity() * size_of::<Slot>();
        let starts = self.starts.capacity() * size_of::<ForRows>();
        (slots + starts) as u64
    }
}
