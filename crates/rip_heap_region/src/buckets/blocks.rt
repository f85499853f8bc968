ghost use Rattle.std.specs.Prelude.{◌≡◌, ◌<◌, ◌≤◌, ℕ, [], IfOk, length, map, replicate, slice_index, slice_set, ◌^◌};
ghost use Rattle.rip_heap_region.specs.Blocks.{OthersStay, block_of, buckets_at, relinked};

use crate::buckets::memory::IndexMemory;
use rip_base::NoMemory;
use std::marker::Model;

/// The most blocks that there may be: an object has four bits less than a `u32` for the number of its index.
const MOST_BLOCKS: usize = 0x0fff_ffff;

/// Where the buckets of one index lie in the row of numbers, and the object that it is of.
#[derive(Clone, Copy, Debug)]
pub struct IndexBlock {
    pub owner: u32,
    pub start: u32,
    pub buckets: u32,
}

impl IndexBlock {
    // Where an object has no index.
    const NONE: IndexBlock = IndexBlock {
        owner: 0,
        start: 0,
        buckets: 0,
    };
}

/// The buckets of all indexes, in one row of numbers of which each index has a block. The row has so much room; the memory of
/// blocks and numbers is reserved before, so that no call takes memory. A block whose index was made anew is not used
/// again before all are dropped.
#[derive(Debug, Drop)]
pub struct IndexBlocks {
    blocks: Vec<IndexBlock>,
    numbers: Vec<u32>,
    room: u32,
}

impl Model for IndexBlocks {
    ghost use Rattle.std.specs.Prelude.{length, vec_capacity};
    ghost use Rattle.rip_heap_region.specs.Blocks.{AreBlocks, ListedBlocks};

    ghost Value = { ListedBlocks };

    ghost view = { λ i. record { blocks = i.blocks.items; numbers = i.numbers.items } };

    ghost invariant = { λ i. AreBlocks i.blocks.items (length i.numbers.items) (vec_capacity i.numbers)
        i.room };
}

impl IndexBlocks {
    /// No indexes, in that memory.
    pub fn of(memory: IndexMemory) -> IndexBlocks
        ensures { (index owner : ℕ) → buckets_at result index owner ≡ [] }
    {
        let room = memory.numbers.capacity() as u32;
        IndexBlocks {
            blocks: memory.blocks,
            numbers: memory.numbers,
            room,
        }
    }

    /// How many buckets the owner's index of this number has; 0 where it has none.
    pub fn count(&self, index: u32, owner: u32) -> u32
        ensures { result ≡ length (buckets_at self.now index owner) }
    {
        block_of(&self.blocks, index, owner).buckets
    }

    /// The buckets of the owner's index of this number; there are none where it has none.
    pub fn buckets(&self, index: u32, owner: u32) -> &[u32]
        ensures buckets { result.now ≡ buckets_at self.now index owner }
        ensures count { length result.now < 2 ^ 32 }
    {
        let block = block_of(&self.blocks, index, owner);
        let start = block.start as usize;
        &self.numbers[start..start + block.buckets as usize]
    }

    /// Sets the number of one bucket. Past the end nothing is changed.
    pub fn set_bucket(&mut self, index: u32, owner: u32, bucket: u32, number: u32)
        ensures buckets { buckets_at self.new index owner
            ≡ slice_set (buckets_at self.old index owner) bucket number }
        ensures others { OthersStay owner self.old self.new }
    {
        let block = block_of(&self.blocks, index, owner);
        if bucket < block.buckets {
            self.numbers[block.start as usize + bucket as usize] = number;
        }
    }

    /// In each bucket whose number stands for this place puts the link.
    pub fn relink(&mut self, index: u32, owner: u32, place: u32, link: u32)
        ensures buckets { buckets_at self.new index owner
            ≡ map (relinked place link) (buckets_at self.old index owner) }
        ensures others { OthersStay owner self.old self.new }
    {
        let block = block_of(&self.blocks, index, owner);
        let start = block.start as usize;
        relink_part(
            &mut self.numbers,
            start,
            start + block.buckets as usize,
            place,
            link,
        );
    }

    /// Gives the owner a new index of so many buckets with 0 in each, and tells its number. It is refused where there is no
    /// room for it; the indexes of others are not touched.
    pub fn open(&mut self, owner: u32, buckets: u32) -> Result<u32, NoMemory>
        ensures number { IfOk result (λ index. index < 2 ^ 28) }
        ensures buckets { IfOk result (λ index.
            buckets_at self.new index owner ≡ replicate buckets 0) }
        ensures others { OthersStay owner self.old self.new }
    {
        let count = self.blocks.len();
        let start = self.numbers.len() as u32;
        if buckets > self.room - start || count >= MOST_BLOCKS || count >= self.blocks.capacity() {
            return Err(NoMemory);
        }
        let end = start + buckets;
        self.numbers.resize(end as usize, 0).unwrap();
        self.blocks.push_reserved(IndexBlock {
            owner,
            start,
            buckets,
        });
        Ok(count as u32 + 1)
    }

    /// Drops all indexes, so that all the room is free again.
    pub fn clear(&mut self)
        ensures { (index owner : ℕ) → buckets_at self.new index owner ≡ [] }
    {
        self.blocks.clear();
        self.numbers.clear();
    }
}

/// The number in whose place there is the link where it stands for this place.
pub fn relinked(number: u32, place: u32, link: u32) -> u32
    ensures { result ≡ relinked place link number }
{
    if number > 0 && number - 1 == place {
        link
    } else {
        number
    }
}

// The block of the owner's index of this number; where it has none it is empty.
fn block_of(blocks: &[IndexBlock], index: u32, owner: u32) -> IndexBlock
    ensures { result ≡ block_of blocks.now index owner }
{
    if index == 0 {
        return IndexBlock::NONE;
    }
    match blocks.get((index - 1) as usize) {
        Some(block) if block.owner == owner => *block,
        _ => IndexBlock::NONE,
    }
}

// Puts the link where numbers from one place of the row up to another stand for that place.
fn relink_part(numbers: &mut [u32], from: usize, to: usize, place: u32, link: u32)
    requires order { from ≤ to }
    requires within { to ≤ length numbers.old }
    ensures count { length numbers.new ≡ length numbers.old }
    ensures within { (k : ℕ) → from ≤ k → k < to
        → slice_index numbers.new k ≡ relinked place link (slice_index numbers.old k) }
    ensures below { (k : ℕ) → k < from → slice_index numbers.new k ≡ slice_index numbers.old k }
    ensures behind { (k : ℕ) → to ≤ k → slice_index numbers.new k ≡ slice_index numbers.old k }
{
    for at in from..to {
        numbers[at] = relinked(numbers[at], place, link);
    }
}
