ghost use Rattle.std.specs.Prelude.{◌≡◌, ◌+◌, ◌<◌, ◌≤◌, ◌∷◌, ◌++◌, ℕ, [], None, false, is_some, length, option_and_then, replicate, slice_get, slice_set, take, true};
ghost use Rattle.rip_values.specs.Pool.{Texts};
ghost use Rattle.rip_heap_region.specs.PageMemory.{memory_for};
ghost use Rattle.rip_heap_region.specs.Blocks.{ListedBlocks};
ghost use Rattle.rip_heap.specs.Arrays.{last_of, without_last};
ghost use Rattle.rip_heap.specs.HeadSlots.{IsStorable};
ghost use Rattle.rip_heap.specs.Memory.{slots_for};
ghost use Rattle.rip_heap.specs.Names.{named, place_of};
ghost use Rattle.rip_heap.specs.Region.{AreIndexes, IndexesStay, IsArrayHere, elements_here, listed, places_here, properties_here, valued, with_bare, with_elements, with_properties, without};
ghost use Rattle.rip_heap.specs.Rooms.{spending};
ghost use Rattle.rip_heap.specs.ScopeSlots.{binding_of, bound};
ghost use Rattle.rip_heap.specs.Scopes.{bindings_of, parent_of};

use crate::stored::StoredObject;
use crate::{head_slots, scope_slots};
use rip_base::{Span, Value};
use rip_heap_region::buckets::NameIndexes;
use rip_heap_region::chains::OwnProperties;
use rip_heap_region::pages::{PageMemory, Pages, Property, Row};
use rip_values::Pool;
use std::marker::Model;

/// The objects and the scopes of a heap as they lie in its region. Its memory was reserved before, so that no call
/// takes any: each object, property, element, scope and binding is one cell, and each cell that may be spent has its
/// slot; a sixteenth more is spare, for the places that arrays get ahead.
#[derive(Debug, Drop)]
pub struct Region {
    pages: Pages,
    spent: u32,
    room: u32,
}

impl Model for Region {
    ghost use Rattle.rip_heap.specs.Region.{AreRows, Kept};

    ghost Value = { Kept };

    ghost view = { λ r. record { pages = r.pages; rooms = record { spent = r.spent; room = r.room } } };

    ghost invariant = { λ r. AreRows r.pages r.spent r.room };
}

impl Region {
    /// No objects and no scopes, with room for so many objects, properties, elements, scopes and bindings together.
    pub fn of(memory: PageMemory, cells: u32) -> Region
        requires memory { memory ≡ memory_for (slots_for cells) }
        requires most { slots_for cells ≤ 2147418112 }
        ensures listed { listed result ≡ record {
          heads = [];
          properties = [];
          elements = [];
          scopes = [];
          rooms = record { spent = 0; room = cells };
        } }
        ensures indexes { (pool : Texts) (blocks : ListedBlocks)
            → AreIndexes pool result.pages blocks }
    {
        Region {
            pages: Pages::of(memory, cells + cells / 16),
            spent: 0,
            room: cells,
        }
    }

    /// How many objects there are.
    pub fn len(&self) -> u32
        ensures { result ≡ length (listed self.now).heads }
    {
        self.pages.len(Row::Objects)
    }

    /// The head of the object at this place.
    pub fn head(&self, at: u32) -> Option<StoredObject>
        ensures { result ≡ slice_get (listed self.now).heads at }
    {
        if at >= self.pages.len(Row::Objects) {
            return None;
        }
        Some(head_slots::head_in(self.pages.get(Row::Objects, at)))
    }

    // PROPERTIES

    /// The property of this number of the object at that place, in the order of making.
    pub fn property(&self, at: u32, number: u32) -> Option<Property>
        ensures { result ≡ slice_get (properties_here self.now at) number }
    {
        if at >= self.pages.len(Row::Objects) {
            return None;
        }
        let chain = head_slots::chain_in(self.pages.get(Row::Objects, at));
        let place = rip_heap_region::chains::nth(&self.pages, chain, number)?;
        let slot = self.pages.get(Row::Properties, place);
        Some(Property {
            name: slot.name,
            value: slot.value,
        })
    }

    /// The properties of the object at this place, one by one.
    pub fn own_properties(&self, at: u32) -> OwnProperties<'_>
        ensures { result ≡ properties_here self.now at }
    {
        if at >= self.pages.len(Row::Objects) {
            return OwnProperties::none(&self.pages);
        }
        let chain = head_slots::chain_in(self.pages.get(Row::Objects, at));
        OwnProperties::of(&self.pages, chain)
    }

    /// The value of the property with this name of the object at this place.
    pub fn own(&self, pool: &Pool, indexes: &NameIndexes, at: u32, name: Span) -> Option<Value>
        requires within { at < length (listed self.now).heads }
        requires indexes { AreIndexes pool.now self.now.pages indexes.now.blocks }
        ensures { result ≡ named pool.now name (properties_here self.now at) }
    {
        let place = self.find(pool, indexes, at, name)?;
        Some(self.pages.get(Row::Properties, place).value)
    }

    /// Gives the property with this name of the object at this place the value, and tells whether there is one.
    pub fn replace(
        &mut self,
        pool: &Pool,
        indexes: &NameIndexes,
        at: u32,
        name: Span,
        v: Value,
    ) -> bool
        requires within { at < length (listed self.old).heads }
        requires indexes { AreIndexes pool.now self.old.pages indexes.now.blocks }
        ensures found { result ≡ is_some (place_of pool.now name (properties_here self.old at)) }
        ensures listed { listed self.new ≡ with_properties (listed self.old) at
            (valued (properties_here self.old at) v (place_of pool.now name (properties_here self.old at))) }
        ensures indexes { IndexesStay self.old.pages self.new.pages }
    {
        match self.find(pool, indexes, at, name) {
            Some(place) => {
                rip_heap_region::chains::set_value(&mut self.pages, place, v);
                true
            }
            None => false,
        }
    }

    /// Puts a property behind the others of an object, and its name into the object's index.
    pub fn push_property(
        &mut self,
        pool: &Pool,
        indexes: &mut NameIndexes,
        at: u32,
        property: Property,
    )
        requires within { at < length (listed self.old).heads }
        requires room { self.old.rooms.spent < self.old.rooms.room }
        requires indexes { AreIndexes pool.now self.old.pages indexes.old.blocks }
        ensures listed { listed self.new ≡ record (with_properties (listed self.old) at
            (properties_here self.old at ++ property ∷ [])) { rooms = spending 1 self.old.rooms } }
        ensures indexes { AreIndexes pool.now self.new.pages indexes.new.blocks }
    {
        let slot = *self.pages.get(Row::Objects, at);
        let index = head_slots::index_in(&slot);
        let chain = rip_heap_region::chains::push(
            &mut self.pages,
            head_slots::chain_in(&slot),
            property,
        );
        let index = indexes.renew(pool, &mut self.pages, chain, index, at);
        self.pages.set(
            Row::Objects,
            at,
            head_slots::with_chain(&slot, chain, index),
        );
        self.spent += 1;
    }

    /// Takes the property with this name of an object away, and its name out of the object's index; tells whether there was
    /// one. What it took is not given back.
    pub fn remove_property(
        &mut self,
        pool: &Pool,
        indexes: &mut NameIndexes,
        at: u32,
        name: Span,
    ) -> bool
        requires within { at < length (listed self.old).heads }
        requires indexes { AreIndexes pool.now self.old.pages indexes.old.blocks }
        ensures found { result ≡ is_some (place_of pool.now name (properties_here self.old at)) }
        ensures listed { listed self.new ≡ with_properties (listed self.old) at
            (without (properties_here self.old at) (place_of pool.now name (properties_here self.old at))) }
        ensures indexes { (p : Texts) → AreIndexes p self.old.pages indexes.old.blocks
            → AreIndexes p self.new.pages indexes.new.blocks }
    {
        let Some(place) = self.find(pool, indexes, at, name) else {
            return false;
        };
        let slot = *self.pages.get(Row::Objects, at);
        let chain = head_slots::chain_in(&slot);
        let index = head_slots::index_in(&slot);
        indexes.drop_name(&mut self.pages, chain, index, at, place);
        let left = rip_heap_region::chains::unlink(&mut self.pages, chain, place);
        self.pages.set(Row::Objects, at, head_slots::with_chain(&slot, left, index));
        true
    }

    // OBJECTS

    /// Puts an object with nothing in it behind the others.
    pub fn add(&mut self, head: StoredObject)
        requires storable { IsStorable head }
        requires room { self.old.rooms.spent < self.old.rooms.room }
        ensures listed { listed self.new ≡ with_bare (listed self.old) head }
        ensures indexes { IndexesStay self.old.pages self.new.pages }
    {
        self.pages.push(Row::Objects, head_slots::slot_of(head));
        self.spent += 1;
    }

    // ELEMENTS

    /// How many elements the object at this place has.
    pub fn element_count(&self, at: u32) -> u32
        ensures { result ≡ length (elements_here self.now at) }
    {
        if at >= self.pages.len(Row::Objects) {
            return 0;
        }
        head_slots::array_in(self.pages.get(Row::Objects, at)).count
    }

    /// The element at this place of the object at that place.
    pub fn element(&self, at: u32, place: u32) -> Option<Value>
        ensures { result ≡ slice_get (elements_here self.now at) place }
    {
        if at >= self.pages.len(Row::Objects) {
            return None;
        }
        let array = head_slots::array_in(self.pages.get(Row::Objects, at));
        rip_heap_region::segments::get(&self.pages, at, array, place)
    }

    /// Gives the element at this place of an object the value. Past the end nothing is changed.
    pub fn set_element(&mut self, at: u32, place: u32, v: Value)
        requires within { at < length (listed self.old).heads }
        ensures listed { listed self.new ≡ with_elements (listed self.old) at
            (slice_set (elements_here self.old at) place v) }
        ensures indexes { IndexesStay self.old.pages self.new.pages }
    {
        let array = head_slots::array_in(self.pages.get(Row::Objects, at));
        rip_heap_region::segments::set(&mut self.pages, at, array, place, v);
    }

    /// Puts an element behind the others of an array.
    pub fn push_element(&mut self, at: u32, v: Value)
        requires array { IsArrayHere self.old at }
        requires room { self.old.rooms.spent < self.old.rooms.room }
        ensures listed { listed self.new ≡ record (with_elements (listed self.old) at
            (elements_here self.old at ++ v ∷ [])) { rooms = spending 1 self.old.rooms } }
        ensures indexes { IndexesStay self.old.pages self.new.pages }
    {
        let slot = *self.pages.get(Row::Objects, at);
        let spare = self.pages.room() - self.pages.filled() - (self.room - self.spent);
        let array = rip_heap_region::segments::push(
            &mut self.pages,
            at,
            head_slots::array_in(&slot),
            v,
            spare,
        );
        self.pages
            .set(Row::Objects, at, head_slots::with_array(&slot, array));
        self.spent += 1;
    }

    /// Keeps the first elements of an object, at most so many. What the others took is not given back.
    pub fn cut_elements(&mut self, at: u32, count: u32)
        requires within { at < length (listed self.old).heads }
        ensures listed { listed self.new ≡ with_elements (listed self.old) at
            (take count (elements_here self.old at)) }
        ensures indexes { IndexesStay self.old.pages self.new.pages }
    {
        let slot = *self.pages.get(Row::Objects, at);
        let array = head_slots::array_in(&slot);
        if count < array.count {
            let cut = rip_heap_region::segments::Array {
                top: array.top,
                count,
            };
            self.pages
                .set(Row::Objects, at, head_slots::with_array(&slot, cut));
        }
    }

    // SCOPES

    /// How many scopes there are.
    pub fn scopes(&self) -> u32
        ensures { result ≡ length (listed self.now).scopes }
    {
        self.pages.len(Row::Scopes)
    }

    /// The scope around the scope of that number.
    pub fn parent(&self, scope: u32) -> Option<u32>
        ensures { result ≡ parent_of (slice_get (listed self.now).scopes scope) }
    {
        scope_slots::parent_of(&self.pages, scope)
    }

    /// How many bindings the scope of that number has.
    pub fn names(&self, scope: u32) -> u32
        ensures { result ≡ length (bindings_of (slice_get (listed self.now).scopes scope)) }
    {
        scope_slots::names_of(&self.pages, scope)
    }

    /// The value of the binding at this place.
    pub fn binding(&self, scope: u32, place: u32) -> Option<Value>
        ensures { result ≡ binding_of (slice_get (listed self.now).scopes scope) place }
    {
        scope_slots::binding_at(&self.pages, scope, place)
    }

    /// Gives the binding at this place the value. Where there is none nothing is changed.
    pub fn bind(&mut self, scope: u32, place: u32, v: Value)
        ensures listed { listed self.new ≡ record (listed self.old) {
          scopes = bound (listed self.old).scopes scope place v (slice_get (listed self.old).scopes scope);
        } }
        ensures indexes { IndexesStay self.old.pages self.new.pages }
    {
        scope_slots::bind_at(&mut self.pages, scope, place, v);
    }

    /// Gives the binding at this place the value, if it has one already, and tells whether it has.
    pub fn rebind(&mut self, scope: u32, place: u32, v: Value) -> bool
        ensures told { result ≡ is_some (binding_of (slice_get (listed self.old).scopes scope) place) }
        ensures listed { result ≡ true → listed self.new ≡ record (listed self.old) {
          scopes = bound (listed self.old).scopes scope place v (slice_get (listed self.old).scopes scope);
        } }
        ensures same { result ≡ false → self.new ≡ self.old }
        ensures indexes { IndexesStay self.old.pages self.new.pages }
    {
        scope_slots::rebind_at(&mut self.pages, scope, place, v)
    }

    /// Puts a scope behind the others, with so many bindings, none of which has a value yet.
    pub fn push_scope(&mut self, parent: Option<u32>, names: u32)
        requires room { self.old.rooms.spent + (1 + names) ≤ self.old.rooms.room }
        ensures listed { listed self.new ≡ record (listed self.old) {
          scopes = (listed self.old).scopes ++ record { parent = parent; bindings = replicate names None } ∷ [];
          rooms = spending (1 + names) self.old.rooms;
        } }
        ensures indexes { IndexesStay self.old.pages self.new.pages }
    {
        scope_slots::push_scope(&mut self.pages, parent, names);
        self.spent += 1 + names;
    }

    // Where the property with this name of the object at this place stands.
    fn find(&self, pool: &Pool, indexes: &NameIndexes, at: u32, name: Span) -> Option<u32>
        requires within { at < length (listed self.now).heads }
        requires indexes { AreIndexes pool.now self.now.pages indexes.now.blocks }
        ensures { result ≡ option_and_then (slice_get (places_here self.now at))
            (place_of pool.now name (properties_here self.now at)) }
    {
        let slot = self.pages.get(Row::Objects, at);
        let chain = head_slots::chain_in(slot);
        let index = head_slots::index_in(slot);
        if indexes.has(index, at) {
            indexes.find(pool, &self.pages, chain, index, at, name)
        } else {
            rip_heap_region::chains::find(pool, &self.pages, chain, name)
        }
    }
}
