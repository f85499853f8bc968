ghost use Rattle.std.specs.Prelude.{◌≡◌, IfOk};
ghost use Rattle.rip_heap_region.specs.IndexMemory.{bytes_of, memory_for};

use crate::buckets::blocks::IndexBlock;
use rip_base::NoMemory;
use std::alloc::Global;
use std::marker::Model;
use std::mem::size_of;

/// The memory of indexes, of which there are none yet. It is reserved, and nothing is written in it.
#[derive(Debug, Drop)]
pub struct IndexMemory {
    pub(crate) blocks: Vec<IndexBlock>,
    pub(crate) numbers: Vec<u32>,
}

impl Model for IndexMemory {
    ghost use Rattle.std.specs.Prelude.{vec_capacity};
    ghost use Rattle.rip_heap_region.specs.IndexMemory.{IsUntouched, Memory};

    ghost Value = { Memory };

    ghost view = { λ m. record { blocks = vec_capacity m.blocks; buckets = vec_capacity m.numbers } };

    ghost invariant = { λ m. IsUntouched m.blocks.items m.numbers.items (vec_capacity m.blocks)
        (vec_capacity m.numbers) };
}

impl IndexMemory {
    /// The memory for the indexes of so many objects and properties together. An index is made of 17 properties or more
    /// with half as many buckets, and made anew where there are six for each: those of one object are less than seven
    /// eighths of its properties together.
    pub fn reserve(alloc: Global, cells: u32) -> Result<IndexMemory, NoMemory>
        ensures { IfOk result (λ memory. memory ≡ memory_for cells) }
    {
        Ok(IndexMemory {
            blocks: Vec::with_capacity(alloc, (cells / 16) as usize + 1)?,
            numbers: Vec::with_capacity(alloc, (cells - cells / 8) as usize)?,
        })
    }

    /// How many bytes it takes.
    pub fn bytes(&self) -> u64
        ensures { result ≡ bytes_of self.now }
    {
        let blocks = self.blocks.capacity() * size_of::<IndexBlock>();
        let numbers = self.numbers.capacity() * size_of::<u32>();
        (blocks + numbers) as u64
    }
}
