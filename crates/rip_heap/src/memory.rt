ghost use Rattle.std.specs.Prelude.{◌≡◌, ◌+◌, ◌*◌, ◌≤◌, IfOk};
ghost use Rattle.rip_heap.specs.Memory.{bytes_of, memory_for};

use crate::limits::HeapLimits;
use rip_base::NoMemory;
use rip_heap_region::buckets::IndexMemory;
use rip_heap_region::pages::PageMemory;
use rip_values::{FIRST_HEAP_OBJECT, FIRST_NODE, Pool};
use std::alloc::Global;
use std::marker::Model;
use std::mem::size_of;

/// All memory of a heap, in which nothing lies yet but the fixed texts. It is reserved, and nothing else is written in it, so
/// that a heap touches as much of it as it uses.
#[derive(Debug, Drop)]
pub struct HeapMemory {
    pub(crate) limits: HeapLimits,
    pub(crate) units: Vec<u16>,
    pub(crate) pages: PageMemory,
    pub(crate) indexes: IndexMemory,
    pub(crate) table: Vec<u32>,
}

impl Model for HeapMemory {
    ghost use Rattle.std.specs.Prelude.{vec_capacity};
    ghost use Rattle.rip_heap.specs.Memory.{IsMemory, Memory};

    ghost Value = { Memory };

    ghost view = { λ m. record {
      limits = m.limits;
      units = vec_capacity m.units;
      pages = m.pages;
      indexes = m.indexes;
      entries = vec_capacity m.table;
    } };

    ghost invariant = { λ m. IsMemory (record {
      limits = m.limits;
      units = vec_capacity m.units;
      pages = m.pages;
      indexes = m.indexes;
      entries = vec_capacity m.table;
    }) m.units.items };
}

impl HeapMemory {
    /// All memory of a heap with these limits. Limits past the numbers that objects, slots and units can have are want of
    /// memory.
    pub fn reserve(alloc: Global, limits: HeapLimits) -> Result<HeapMemory, NoMemory>
        ensures memory { IfOk result (λ memory. memory ≡ memory_for limits) }
        ensures bytes { IfOk result (λ memory. bytes_of memory
            ≤ 40 * limits.cells + 2 * limits.units + 4 * limits.text + 12400) }
    {
        if limits.cells > FIRST_NODE - FIRST_HEAP_OBJECT {
            return Err(NoMemory);
        }
        let slots = limits.cells.saturating_add(limits.cells / 16);
        Ok(HeapMemory {
            limits,
            units: Pool::reserve(alloc, limits.units)?,
            pages: PageMemory::reserve(alloc, slots)?,
            indexes: IndexMemory::reserve(alloc, limits.cells)?,
            table: Vec::with_capacity(alloc, limits.text as usize)?,
        })
    }

    /// How many bytes it takes.
    pub fn bytes(&self) -> u64
        ensures counted { result ≡ bytes_of self.now }
        ensures within { result ≤ 40 * self.now.limits.cells + 2 * self.now.limits.units
            + 4 * self.now.limits.text + 12400 }
    {
        let units = (self.units.capacity() * size_of::<u16>()) as u64;
        let entries = (self.table.capacity() * size_of::<u32>()) as u64;
        units + self.pages.bytes() + self.indexes.bytes() + entries
    }
}
