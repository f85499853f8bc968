ghost use Rattle.std.specs.Prelude.{◌≡◌, ◌≤◌, ◌+◌, ◌-◌, ◌↔◌, IsOk, IfOk, IfErr, length};
ghost use Rattle.rip_heap.specs.Growth.{Grows};
ghost use Rattle.rip_heap.specs.Sound.{HaveOlderProtos};
ghost use Rattle.rip_heap.specs.World.{charging, empty_world, first_node, first_object};
ghost use Rattle.rip_heap.specs.Step.{Charges};

use crate::limits::HeapLimits;
use crate::memory::HeapMemory;
use crate::named_objects::NamedObjects;
use crate::search::SearchTable;
use rip_base::{Limit, NoMemory};
use rip_values::Pool;
use std::alloc::Global;
use std::marker::Model;

/// The heap of a session: the texts, objects and scopes that its script makes. Nothing is given back before the
/// session ends.
#[derive(Debug, Drop)]
pub struct Heap {
    pub(crate) limit: u32,
    pub(crate) used: u32,
    pub(crate) parts: Box<HeapParts>,
}

/// What a heap holds. It lies behind one pointer, so that a heap is moved and let go as one thing.
#[derive(Debug, Drop)]
pub(crate) struct HeapParts {
    pub named: NamedObjects,
    pub table: SearchTable,
}

impl Model for Heap {
    ghost use Rattle.rip_heap.specs.World.{World};
    ghost use Rattle.rip_heap.specs.Rooms.{ArePaid};
    ghost use Rattle.rip_heap.specs.Sound.{IsSound};

    ghost Value = { World };

    ghost view = { λ h. record {
      limit = h.limit;
      cells = h.used;
      pool = h.parts.value.named.pool;
      objects = h.parts.value.named.objects;
      scopes = h.parts.value.named.scopes;
    } };

    ghost invariant = { λ h. record {
      sound : IsSound h.limit h.used h.parts.value.named.objects h.parts.value.named.scopes;
      paid : ArePaid h.limit h.used h.parts.value.named.rooms;
    } };
}

impl Heap {
    /// A heap with the fixed texts alone. Its memory is [`HeapMemory::reserve`], and one block for its own fields. Limits past
    /// the numbers that objects, slots and units can have are want of memory.
    pub fn make(alloc: Global, limits: HeapLimits) -> Result<Heap, NoMemory>
        ensures { IfOk result (λ heap. heap ≡ empty_world limits) }
    {
        Heap::of(alloc, HeapMemory::reserve(alloc, limits)?)
    }

    /// A heap with the fixed texts alone, which has its memory there: that of all objects, properties, elements, scopes and
    /// bindings, for as many as there are cells, and that of all texts that may be charged. What is taken here is one block for
    /// its own fields.
    pub fn of(alloc: Global, memory: HeapMemory) -> Result<Heap, NoMemory>
        ensures { IfOk result (λ heap. heap ≡ empty_world memory.limits) }
    {
        let limits = memory.limits;
        let pool = Pool::of(memory.units, limits.units, limits.text);
        let parts = HeapParts {
            named: NamedObjects::of(pool, memory.pages, memory.indexes, limits.cells),
            table: SearchTable::of(memory.table, limits.text),
        };
        Ok(Heap {
            limit: limits.cells,
            used: 0,
            parts: Box::new(alloc, parts)?,
        })
    }

    /// How many objects were made. The prototype of each was made before it. Each was charged a cell at least, and all
    /// that can be made have numbers below those of nodes.
    pub fn objects(&self) -> u32
        ensures count { result ≡ length self.now.objects }
        ensures paid { result ≤ self.now.cells }
        ensures numbers { first_object + self.now.limit ≤ first_node }
        ensures older { HaveOlderProtos self.now.objects }
    {
        self.parts.named.len()
    }

    /// How many scopes were made.
    pub fn scopes(&self) -> u32
        ensures { result ≡ length self.now.scopes }
    {
        self.parts.named.scopes()
    }

    /// The cells that were charged.
    pub fn used_cells(&self) -> u32
        ensures { result ≡ self.now.cells }
    {
        self.used
    }

    /// The cells that may still be charged.
    pub fn free_cells(&self) -> u32
        ensures left { result ≡ self.now.limit - self.now.cells }
        ensures within { self.now.cells ≤ self.now.limit }
    {
        self.limit - self.used
    }

    /// Charges cells for what the heap does not keep: arguments, listeners, made calls.
    pub fn charge(&mut self, cells: u32) -> Result<(), Limit>
        ensures made { Charges (charging cells self.old (λ w. w)) self.old result self.new }
        ensures grows { Grows self.old self.new }
    {
        self.room_for(cells as usize)?;
        self.used += cells;
        Ok(())
    }

    // Whether so many cells more can be charged.
    pub(crate) fn room_for(&self, cells: usize) -> Result<(), Limit>
        ensures room { IsOk result ↔ (self.now.cells + cells ≤ self.now.limit) }
        ensures only_cells { IfErr result (λ limit. limit ≡ Limit.Cells) }
    {
        if cells > (self.limit - self.used) as usize {
            return Err(Limit::Cells);
        }
        Ok(())
    }
}
