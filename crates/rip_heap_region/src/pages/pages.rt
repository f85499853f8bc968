ghost use Rattle.std.specs.Prelude.{◌≡◌, ◌<◌, ◌≤◌, ◌∷◌, ◌++◌, [], length, slice_set};
ghost use Rattle.rip_heap_region.specs.PageMemory.{memory_for};
ghost use Rattle.rip_heap_region.specs.Pages.{empty_pages, filled, row_of, slot_at, with_row};

use crate::pages::for_rows::{ForRows, Row};
use crate::pages::memory::PageMemory;
use crate::pages::page::{make_room, place_of};
use crate::pages::slot::Slot;
use rip_base::Value;
use std::marker::Model;

/// Five rows of slots, which share the room of all.
#[derive(Debug, Drop)]
pub struct Pages {
    slots: Vec<Slot>,
    // Where in the slots the page of each row begins that is its first one, second one and so on.
    starts: Vec<ForRows>,
    lens: ForRows,
    filled: u32,
    room: u32,
}

impl Model for Pages {
    ghost use Rattle.std.specs.Prelude.{length, vec_capacity};
    ghost use Rattle.rip_heap_region.specs.Pages.{ArePages, Paged, rows_in};

    ghost Value = { Paged };

    ghost view = { λ p. rows_in p.slots.items p.starts.items p.lens p.room };

    ghost invariant = { λ p. ArePages p.slots.items p.starts.items p.lens p.filled p.room
        (vec_capacity p.slots) (vec_capacity p.starts) };
}

impl Pages {
    /// Empty rows, with room for so many slots in all of them together, which lie in that memory.
    pub fn of(memory: PageMemory, room: u32) -> Pages
        requires memory { memory ≡ memory_for room }
        requires most { room ≤ 2147418112 }
        ensures { result ≡ empty_pages room }
    {
        Pages {
            slots: memory.slots,
            starts: memory.starts,
            lens: ForRows::NONE,
            filled: 0,
            room,
        }
    }

    /// For how many slots there is room.
    pub fn room(&self) -> u32
        ensures { result ≡ self.now.room }
    {
        self.room
    }

    /// How many slots the rows have together.
    pub fn filled(&self) -> u32
        ensures filled { result ≡ filled self.now }
        ensures within { filled self.now ≤ self.now.room }
    {
        self.filled
    }

    /// How many slots the row has.
    pub fn len(&self, row: Row) -> u32
        ensures { result ≡ length (row_of row self.now) }
    {
        self.lens.of(row)
    }

    /// The slot at this place of the row.
    pub fn get(&self, row: Row, at: u32) -> &Slot
        requires within { at < length (row_of row self.now) }
        ensures { result.now ≡ slot_at (row_of row self.now) at }
    {
        &self.slots[place_of(&self.starts, row, at)]
    }

    /// Puts a slot in the place of that of the row.
    pub fn set(&mut self, row: Row, at: u32, slot: Slot)
        requires within { at < length (row_of row self.old) }
        ensures { self.new ≡ with_row row (slice_set (row_of row self.old) at slot) self.old }
    {
        let place = place_of(&self.starts, row, at);
        self.slots[place] = slot;
    }

    /// Gives the slot at this place of the row the value.
    pub fn set_value(&mut self, row: Row, at: u32, value: Value)
        requires within { at < length (row_of row self.old) }
        ensures { self.new ≡ with_row row (slice_set (row_of row self.old) at
            (record (slot_at (row_of row self.old) at) { value = value })) self.old }
    {
        let place = place_of(&self.starts, row, at);
        self.slots[place].value = value;
    }

    /// Has the slot at this place of the row lead to that one.
    pub fn set_next(&mut self, row: Row, at: u32, next: u32)
        requires within { at < length (row_of row self.old) }
        ensures { self.new ≡ with_row row (slice_set (row_of row self.old) at
            (record (slot_at (row_of row self.old) at) { next = next })) self.old }
    {
        let place = place_of(&self.starts, row, at);
        self.slots[place].next = next;
    }

    /// Gives the slot at this place of the row the link.
    pub fn set_link(&mut self, row: Row, at: u32, link: u32)
        requires within { at < length (row_of row self.old) }
        ensures { self.new ≡ with_row row (slice_set (row_of row self.old) at
            (record (slot_at (row_of row self.old) at) { link = link })) self.old }
    {
        let place = place_of(&self.starts, row, at);
        self.slots[place].link = link;
    }

    /// Puts a slot behind the others of the row.
    pub fn push(&mut self, row: Row, slot: Slot)
        requires room { filled self.old < self.old.room }
        ensures { self.new ≡ with_row row (row_of row self.old ++ slot ∷ []) self.old }
    {
        let at = self.lens.of(row);
        make_room(&mut self.slots, &mut self.starts, row, at);
        self.lens.set(row, at + 1);
        self.filled += 1;
        let place = place_of(&self.starts, row, at);
        self.slots[place] = slot;
    }
}
