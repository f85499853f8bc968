ghost use Rattle.std.specs.Prelude.{◌≡◌, ◌+◌, ◌<◌, ◌^◌, ◌++◌, ◌∷◌, [], map, ◌↔◌, IsTrue, OnOk};
ghost use Rattle.rip_wire.specs.Batches.{contents_of};
ghost use Rattle.rip_wire.specs.Items.{Reported, reported_of};
ghost use Rattle.rip_client.specs.Truth.{Fits};
ghost use Rattle.rip_client.specs.Bytes.{HasBytes, batches_of, size_of};

use crate::cutting::{empty_size, has_room, size_with};
use rip_base::NoMemory;
use rip_wire::{Batch, Item, ItemList, MOST_BATCHES};
use std::alloc::Global;
use std::mem;

/// A batch that was told, and the units that it takes.
#[derive(Drop)]
pub struct ToldBatch {
    pub batch: Batch,
    pub cost: u64,
}

/// The list of a gesture as it is told: the batches that are closed, and the one that is open.
#[derive(Drop)]
pub(crate) struct Telling {
    pub(crate) closed: Vec<ToldBatch>,
    pub(crate) number: u64,
    pub(crate) items: Vec<Item>,
    /// The bytes of the body of the open batch.
    bytes: usize,
    /// The units that the open batch takes.
    cost: u64,
    ghost sized: { HasBytes number items.items bytes },
}

impl Telling {
    /// An empty list, whose first batch has this number.
    pub(crate) fn begin(alloc: Global, number: u64) -> Telling
        ensures closed { result.closed.items ≡ [] }
        ensures number { result.number ≡ number }
        ensures items { result.items.items ≡ [] }
    {
        Telling {
            closed: Vec::new(alloc),
            number,
            items: Vec::new(alloc),
            bytes: empty_size(number),
            cost: 1,
        }
    }

    /// Whether the open batch has room for an item whose text has so many bytes.
    pub(crate) fn has_room(&self, size: usize) -> bool
        ensures { (item : Reported) → size ≡ size_of item → IsTrue result ↔ Fits (record {
          number = self.now.number;
          items = map reported_of self.now.items.items ++ item ∷ [];
        }) }
    {
        has_room(self.bytes, self.items.len(), size)
    }

    /// An item more, whose text has so many bytes.
    pub(crate) fn push(&mut self, item: Item, size: usize) -> Result<(), NoMemory>
        requires { size ≡ size_of (reported_of item) }
        ensures items { OnOk result (self.new.items.items ≡ self.old.items.items ++ item ∷ []) }
        ensures closed { self.new.closed ≡ self.old.closed }
        ensures number { self.new.number ≡ self.old.number }
    {
        self.items.reserve(1)?;
        let bytes = size_with(self.bytes, self.items.len(), size);
        self.items.push_reserved(item);
        self.bytes = bytes;
        Ok(())
    }

    /// An item took so much fuel, and a unit of its own.
    pub(crate) fn spend(&mut self, fuel: u64)
        ensures items { self.new.items ≡ self.old.items }
        ensures closed { self.new.closed ≡ self.old.closed }
        ensures number { self.new.number ≡ self.old.number }
    {
        self.cost = self.cost.saturating_add(1).saturating_add(fuel);
    }

    /// Closes the open batch, and opens the next.
    pub(crate) fn close(&mut self, alloc: Global) -> Result<(), NoMemory>
        ensures closed { OnOk result
            (batches_of self.new.closed.items ≡ batches_of self.old.closed.items
            ++ record { number = self.old.number; items = map reported_of self.old.items.items } ∷ []) }
        ensures number { OnOk result (self.new.number ≡ self.old.number + 1) }
        ensures items { OnOk result (self.new.items.items ≡ []) }
    {
        if self.number >= MOST_BATCHES {
            return Err(NoMemory);
        }
        self.closed.reserve(1)?;
        let next = Telling::begin(alloc, self.number + 1);
        let told = mem::replace(self, next);
        self.closed = told.closed;
        self.closed.push_reserved(ToldBatch {
            batch: Batch {
                number: told.number,
                items: ItemList::from_vec(told.items),
            },
            cost: told.cost,
        });
        Ok(())
    }
}
