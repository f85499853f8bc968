//! Indexes of the names of properties: for an object of many, where one of a name stands is found at once.
//!
//! Properties whose names fall into one bucket hang together by their links, the last made first. The buckets of all indexes
//! lie in one row of numbers, each index in a block of its own, which knows the object that it is of.
//!
//! | what | its definition in `specs/` |
//! |---|---|
//! | [`NameIndexes`] | its blocks: `Blocks.ListedBlocks`, `Blocks.buckets_at` |
//! | [`IndexMemory`], the memory of all indexes | contracts see `Memory.Memory`; `Memory.bytes_of` is how many bytes it takes |
//! | what an index is | `NameIndex.IsIndex`, `NameIndex.IsPlaced`, `NameIndex.IsIndexAt` |
//!
//! A layer above may rest on this: all memory is taken by [`IndexMemory::reserve`], an index that cannot be had is no
//! refusal, and nothing of a row but the links of one chain is touched.

mod blocks;
mod index;
mod indexes;
mod memory;
mod names;

pub use indexes::NameIndexes;
pub use memory::IndexMemory;
