ghost use Rattle.std.specs.Prelude.{◌≡◌, ◌+◌, ◌-◌, ◌<◌, ◌≤◌, ◌∷◌, ◌++◌, List, [], IsTrue, ◌↔◌, Some, length, replicate, slice_get, slice_set};
ghost use Rattle.rip_heap_region.specs.declared.pages.for_rows.Row.TheVariants.{Elements};
ghost use Rattle.rip_heap_region.specs.Pages.{filled, slot_at, with_row};
ghost use Rattle.rip_heap_region.specs.Segments.{AreArrays, AreLaid, AreSegments, IsArray, IsSeat, IsTop, blank_of, elements_of, end_of, lists_from, longer, places_of};

use crate::pages::{Pages, Row, Slot};
use rip_base::{Span, Value};

/// A segment that is begun has this part of the places before it beside its first one.
const PART: u32 = 16;

/// Where the elements of an array lie: the place of its last segment and one, or 0 where it has none,
/// and how many elements there are.
#[derive(Clone, Copy, Debug)]
pub struct Array {
    pub top: u32,
    pub count: u32,
}

/// The element at this place of the array of that owner.
pub fn get(pages: &Pages, owner: u32, array: Array, place: u32) -> Option<Value>
    requires segments { AreSegments pages.now.elements }
    requires array { IsArray pages.now.elements owner array }
    ensures { result ≡ slice_get (elements_of owner pages.now.elements array) place }
{
    if place >= array.count {
        return None;
    }
    let at = seat(pages, array.top, place);
    Some(pages.get(Row::Elements, at).value)
}

/// Gives the element at this place of the array of that owner the value. Past the end nothing is
/// changed.
pub fn set(pages: &mut Pages, owner: u32, array: Array, place: u32, value: Value)
    requires segments { AreSegments pages.old.elements }
    requires array { IsArray pages.old.elements owner array }
    ensures row { pages.new ≡ with_row Elements pages.new.elements pages.old }
    ensures size { length pages.new.elements ≡ length pages.old.elements }
    ensures all { (arrays : List Array) → slice_get arrays owner ≡ Some array
        → AreArrays arrays pages.old.elements
        → AreLaid arrays pages.new.elements
        (slice_set (lists_from 0 arrays pages.old.elements) owner
        (slice_set (elements_of owner pages.old.elements array) place value)) }
{
    if place >= array.count {
        return;
    }
    let at = seat(pages, array.top, place);
    pages.set_value(Row::Elements, at, value);
}

/// Puts an element behind the others of the array of that owner. It takes one slot at most and, where
/// a segment begins, no more than `spare` others.
pub fn push(pages: &mut Pages, owner: u32, array: Array, value: Value, spare: u32) -> Array
    requires room { filled pages.old + 1 + spare ≤ pages.old.room }
    requires segments { AreSegments pages.old.elements }
    requires array { IsArray pages.old.elements owner array }
    ensures row { pages.new ≡ with_row Elements pages.new.elements pages.old }
    ensures size { length pages.new.elements ≤ length pages.old.elements + 1 + spare }
    ensures all { (arrays : List Array) → slice_get arrays owner ≡ Some array
        → AreArrays arrays pages.old.elements
        → AreLaid (slice_set arrays owner result) pages.new.elements
        (slice_set (lists_from 0 arrays pages.old.elements) owner
        (elements_of owner pages.old.elements array ++ value ∷ [])) }
{
    // What is counted here is below it.
    let _room = pages.room();
    let count = array.count + 1;
    let places = places(pages, array.top);
    if array.count < places {
        let at = seat(pages, array.top, array.count);
        pages.set_value(Row::Elements, at, value);
        return Array { count, ..array };
    }
    if ends_row(pages, array.top) {
        lengthen(pages, array.top, owner, value);
        return Array { count, ..array };
    }
    let more = (places / PART).min(spare);
    let first = Slot {
        value,
        name: Span {
            start: places,
            count: 1 + more,
        },
        next: array.top.saturating_sub(1),
        link: owner,
    };
    let top = begin(pages, first, more);
    Array { top, count }
}

// Where in the row the place lies that has this number among those of the array with that top.
fn seat(pages: &Pages, top: u32, place: u32) -> u32
    requires segments { AreSegments pages.now.elements }
    requires top { IsTop pages.now.elements top }
    requires within { place < end_of (slot_at pages.now.elements (top - 1)) }
    ensures { IsSeat pages.now.elements (slot_at pages.now.elements (top - 1)).link place result }
{
    // No place is above it.
    let _len = pages.len(Row::Elements);
    let mut at = top - 1;
    let mut first = pages.get(Row::Elements, at);
    while first.name.start > place {
        at = first.next;
        first = pages.get(Row::Elements, at);
    }
    at + (place - first.name.start)
}

// How many places an array with that top has.
fn places(pages: &Pages, top: u32) -> u32
    requires segments { AreSegments pages.now.elements }
    requires top { 0 < top → IsTop pages.now.elements top }
    ensures { result ≡ places_of pages.now.elements top }
{
    if top == 0 {
        return 0;
    }
    // No place is above it.
    let _len = pages.len(Row::Elements);
    let first = pages.get(Row::Elements, top - 1);
    first.name.start + first.name.count
}

// Whether the last segment of an array with that top ends where the row does.
fn ends_row(pages: &Pages, top: u32) -> bool
    requires segments { AreSegments pages.now.elements }
    requires top { 0 < top → IsTop pages.now.elements top }
    ensures { IsTrue result ↔ (0 < top)
        × (top - 1 + (slot_at pages.now.elements (top - 1)).name.count
        ≡ length pages.now.elements) }
{
    let len = pages.len(Row::Elements);
    top > 0 && top - 1 + pages.get(Row::Elements, top - 1).name.count == len
}

// Puts a slot behind the others, and has the segment before that top be one longer.
fn lengthen(pages: &mut Pages, top: u32, owner: u32, value: Value)
    requires room { filled pages.old < pages.old.room }
    requires segments { AreSegments pages.old.elements }
    requires top { IsTop pages.old.elements top }
    ensures { pages.new ≡ with_row Elements
        (longer pages.old.elements (top - 1) (record (blank_of owner) { value = value })) pages.old }
{
    // What is counted here is below it.
    let _room = pages.room();
    let first = *pages.get(Row::Elements, top - 1);
    let name = Span {
        start: first.name.start,
        count: first.name.count + 1,
    };
    let last = Slot {
        value,
        link: owner,
        ..Slot::BLANK
    };
    pages.set(Row::Elements, top - 1, Slot { name, ..first });
    pages.push(Row::Elements, last);
}

// Puts the first slot of a segment behind the others, and behind it so many in which nothing stands.
// Gives the place of the first one and one.
fn begin(pages: &mut Pages, first: Slot, more: u32) -> u32
    requires room { filled pages.old + 1 + more ≤ pages.old.room }
    ensures top { result ≡ length pages.old.elements + 1 }
    ensures row { pages.new ≡ with_row Elements
        (pages.old.elements ++ first ∷ replicate more (blank_of first.link)) pages.old }
{
    let owner = first.link;
    pages.push(Row::Elements, first);
    let top = pages.len(Row::Elements);
    for _ in 0..more {
        let blank = Slot {
            link: owner,
            ..Slot::BLANK
        };
        pages.push(Row::Elements, blank);
    }
    top
}
