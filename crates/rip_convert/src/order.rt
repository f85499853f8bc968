ghost use Rattle.std.specs.Prelude.{◌≡◌, ◌+◌, ◌<◌, ◌≤◌, ◌∷◌, ◌++◌, [], ℕ, IfOk, drop, length, slice_index_or, take};
ghost use Rattle.std.specs.Ordering.{nat_cmp};
ghost use Rattle.std.specs.Cmp.Lexicographic.{slice_cmp};
ghost use Rattle.serde_json.specs.Data.{Data, no_members, put};
ghost use Rattle.rip_base.specs.declared.value.Value.{Value as ScriptValue};
ghost use Rattle.rip_heap.specs.World.{object_at};
ghost use Rattle.rip_convert.specs.Arguments.{properties_of};
ghost use Rattle.rip_convert.specs.Written.{AreFrom, HasRoom, IsBetween, IsOrdered, field_at, fields_data, members_at, name_at, none_placed};

use crate::units::compare_texts;
use rip_base::{NoMemory, Span, Value};
use rip_data::MAX_LENGTH;
use rip_heap::Heap;
use rip_heap_region::pages::Property;
use std::alloc::Global;
use std::cmp::Ordering;
use std::marker::Model;

/// Properties, those of one object behind those of the object around it, and the places in this row at which they stand:
/// those of each object in the order of their names. The room for all is taken at once.
#[derive(Drop)]
pub(crate) struct Fields {
    properties: Vec<Property>,
    places: Vec<u32>,
}

impl Model for Fields {
    ghost use Rattle.std.specs.Prelude.{◌≤◌, vec_capacity};
    ghost use Rattle.rip_convert.specs.Written.{Placed};

    ghost Value = { Placed };

    ghost view = { λ f. record { properties = f.properties.items; places = f.places.items } };

    ghost invariant = { λ f. (16384 ≤ vec_capacity f.properties)
        × (16384 ≤ vec_capacity f.places) };
}

impl Fields {
    /// No property, and room for 16,384.
    pub(crate) fn make(alloc: Global) -> Result<Fields, NoMemory>
        ensures { IfOk result (λ fields. fields ≡ none_placed) }
    {
        Ok(Fields {
            properties: Vec::with_capacity(alloc, MAX_LENGTH)?,
            places: Vec::with_capacity(alloc, MAX_LENGTH)?,
        })
    }

    /// How many properties there are.
    pub(crate) fn count(&self) -> usize
        ensures { result ≡ length self.now.properties }
    {
        self.properties.len()
    }

    /// How many places there are.
    pub(crate) fn count_places(&self) -> usize
        ensures { result ≡ length self.now.places }
    {
        self.places.len()
    }

    /// The property at a place of the row.
    pub(crate) fn at(&self, place: u32) -> Property
        ensures { result ≡ field_at self.now.properties place }
    {
        match self.properties.get(place as usize) {
            Some(property) => *property,
            None => Property {
                name: Span { start: 0, count: 0 },
                value: Value::Undefined,
            },
        }
    }

    /// One of the places, in the order in which they stand.
    pub(crate) fn place(&self, i: usize) -> u32
        requires { i < length self.now.places }
        ensures { result ≡ slice_index_or self.now.places i 0 }
    {
        self.places[i]
    }

    /// Only the first properties and the first places stay.
    pub(crate) fn cut(&mut self, count: usize, places: usize)
        ensures { self.new ≡ record {
          properties = take count self.old.properties;
          places = take places self.old.places;
        } }
    {
        self.properties.truncate(count);
        self.places.truncate(places);
    }

    // A property behind the others.
    fn push(&mut self, name: Span, value: Value)
        requires room { length self.old.properties < 16384 }
        ensures { self.new ≡ record self.old {
          properties = self.old.properties ++ record { name = name; value = value } ∷ [];
        } }
    {
        self.properties.push_reserved(Property { name, value });
    }

    // A place before the one that stands here.
    fn insert(&mut self, i: usize, place: u32)
        requires room { length self.old.places < 16384 }
        requires within { i ≤ length self.old.places }
        ensures { self.new ≡ record self.old {
          places = take i self.old.places ++ place ∷ drop i self.old.places;
        } }
    {
        let _ = self.places.insert(i, place);
    }

    // A place instead of the one that stands here.
    fn replace(&mut self, i: usize, place: u32)
        requires { i < length self.old.places }
        ensures places { self.new.places
            ≡ take i self.old.places ++ place ∷ drop (i + 1) self.old.places }
        ensures properties { self.new.properties ≡ self.old.properties }
    {
        self.places[i] = place;
    }
}

// How the names of two properties stand.
fn compare_names(heap: &Heap, fields: &Fields, a: u32, b: u32) -> Ordering
    ensures { result ≡ slice_cmp nat_cmp (name_at heap.now.pool fields.now.properties a)
        (name_at heap.now.pool fields.now.properties b) }
{
    let a = fields.at(a);
    let b = fields.at(b);
    compare_texts(heap.pool().get(a.name), heap.pool().get(b.name))
}

/// Puts the object's properties behind the others, and behind the other places theirs, in the order of their names. Of
/// several with one name the place of the last is there.
pub(crate) fn put_fields(heap: &Heap, object: u32, fields: &mut Fields)
    requires { HasRoom fields.old (length (properties_of (object_at heap.now object))) }
    ensures properties { fields.new.properties
        ≡ fields.old.properties ++ properties_of (object_at heap.now object) }
    ensures first { take (length fields.old.places) fields.new.places ≡ fields.old.places }
    ensures members { (tell : ScriptValue → Data) →
        members_at heap.now.pool tell fields.new.properties
        (drop (length fields.old.places) fields.new.places)
        ≡ fields_data tell heap.now.pool no_members (properties_of (object_at heap.now object)) }
    ensures from { AreFrom (length fields.old.properties) (length fields.new.properties)
        (drop (length fields.old.places) fields.new.places) }
    ensures count { length fields.new.places
        ≤ length fields.old.places + length (properties_of (object_at heap.now object)) }
{
    let first = fields.count();
    let base = fields.count_places();
    push_properties(heap, object, fields);
    for place in first..fields.count() {
        put_field(heap, fields, base, place as u32);
    }
}

// Puts the object's properties behind the others, one by one.
fn push_properties(heap: &Heap, object: u32, fields: &mut Fields)
    requires { length fields.old.properties + length (properties_of (object_at heap.now object))
        ≤ 16384 }
    ensures { fields.new ≡ record fields.old {
      properties = fields.old.properties ++ properties_of (object_at heap.now object);
    } }
{
    let mut own = heap.own_properties(object);
    while let Some(property) = own.next() {
        fields.push(property.name, property.value);
    }
}

// Puts the place of a property among those from `base` on, which stand in the order of their names.
fn put_field(heap: &Heap, fields: &mut Fields, base: usize, place: u32)
    requires room { length fields.old.places < 16384 }
    requires within { base ≤ length fields.old.places }
    requires ordered { IsOrdered heap.now.pool fields.old.properties (drop base fields.old.places) }
    ensures properties { fields.new.properties ≡ fields.old.properties }
    ensures first { take base fields.new.places ≡ take base fields.old.places }
    ensures members { (tell : ScriptValue → Data) →
        members_at heap.now.pool tell fields.old.properties (drop base fields.new.places)
        ≡ put (name_at heap.now.pool fields.old.properties place)
        (tell (field_at fields.old.properties place).value)
        (members_at heap.now.pool tell fields.old.properties (drop base fields.old.places)) }
    ensures from { (low high : ℕ) → low ≤ place → place < high
        → AreFrom low high (drop base fields.old.places)
        → AreFrom low high (drop base fields.new.places) }
    ensures count { length fields.new.places ≤ length fields.old.places + 1 }
    ensures kept { base ≤ length fields.new.places }
{
    let i = search(heap, fields, base, place);
    if i == fields.count_places() {
        fields.insert(i, place);
        return;
    }
    match compare_names(heap, fields, place, fields.place(i)) {
        Ordering::Equal => fields.replace(i, place),
        _ => fields.insert(i, place),
    }
}

// Where the name of a property belongs among those from `base` on: those before are less, those from there on are not.
fn search(heap: &Heap, fields: &Fields, base: usize, place: u32) -> usize
    requires within { base ≤ length fields.now.places }
    requires ordered { IsOrdered heap.now.pool fields.now.properties (drop base fields.now.places) }
    ensures { IsBetween heap.now.pool fields.now.properties fields.now.places
        base place result result }
{
    let mut low = base;
    let mut high = fields.count_places();
    while low < high {
        let middle = low + (high - low) / 2;
        match compare_names(heap, fields, place, fields.place(middle)) {
            Ordering::Greater => low = middle + 1,
            _ => high = middle,
        }
    }
    low
}
