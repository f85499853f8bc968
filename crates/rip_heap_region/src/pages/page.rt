ghost use Rattle.std.specs.Prelude.{◌≡◌, ◌+◌, ◌/◌, ◌%◌, ◌<◌, ◌≤◌, ◌++◌, length, replicate, slice_index_or, slice_set, vec_capacity};
ghost use Rattle.rip_heap_region.specs.Pages.{IsRoomMade, no_numbers, no_slot, pages_of, place_in, with_number};

use crate::pages::for_rows::{ForRows, Row};
use crate::pages::slot::Slot;

/// How many slots a page has.
pub(crate) const PAGE: u32 = 16;

/// Where in the slots the slot at this place of the row lies.
pub(crate) fn place_of(starts: &Vec<ForRows>, row: Row, at: u32) -> usize
    requires { at / 16 < length starts.now.items }
    ensures { result ≡ place_in starts.now.items row at }
{
    starts[(at / PAGE) as usize].of(row) as usize + (at % PAGE) as usize
}

/// Gives a row of so many slots its next page, if those that it has are full.
pub(crate) fn make_room(slots: &mut Vec<Slot>, starts: &mut Vec<ForRows>, row: Row, len: u32)
    requires known { pages_of len ≤ length starts.old.items }
    requires fits { length slots.old.items ≤ 4294967295 }
    requires slots_room { len % 16 ≡ 0 → length slots.old.items + 16 ≤ vec_capacity slots.old }
    requires starts_room { len / 16 < vec_capacity starts.old }
    ensures made { IsRoomMade slots.old.items slots.new.items starts.old.items starts.new.items
        row len }
    ensures slots_room { vec_capacity slots.old ≤ vec_capacity slots.new }
    ensures starts_room { vec_capacity starts.new ≡ vec_capacity starts.old }
{
    if len % PAGE != 0 {
        return;
    }
    let number = (len / PAGE) as usize;
    // Two calls, so that the page is not begun in the code of those that push.
    if starts.len() <= number {
        starts.push_reserved(ForRows::NONE);
        begin_page(slots, starts, row, number);
    } else {
        begin_page(slots, starts, row, number);
    }
}

// Puts a page behind the slots, which is the row's page of that number.
fn begin_page(slots: &mut Vec<Slot>, starts: &mut Vec<ForRows>, row: Row, number: usize)
    requires within { number < length starts.old.items }
    requires fits { length slots.old.items ≤ 4294967295 }
    requires room { length slots.old.items + 16 ≤ vec_capacity slots.old }
    ensures slots { slots.new.items ≡ slots.old.items ++ replicate 16 no_slot }
    ensures starts { starts.new.items ≡ slice_set starts.old.items number (with_number row
        (length slots.old.items) (slice_index_or starts.old.items number no_numbers)) }
    ensures slots_room { vec_capacity slots.old ≤ vec_capacity slots.new }
    ensures starts_room { vec_capacity starts.new ≡ vec_capacity starts.old }
{
    let start = slots.len();
    slots.resize(start + PAGE as usize, Slot::BLANK).unwrap();
    starts[number].set(row, start as u32);
}
