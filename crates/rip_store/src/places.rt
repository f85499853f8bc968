ghost use Rattle.std.specs.Prelude.{◌≡◌, [], map, IfOk, OnErr, OnOk, option_map};
ghost use Rattle.rip_data.specs.Datum.{tree_of, text, array, element, no_elements};
ghost use Rattle.rip_store.specs.Places.{value_at, changed, keep, remove};
ghost use Rattle.rip_store.specs.Operations.{is_full, keys_under, list_or_empty, text_of};
ghost use Rattle.rip_store.specs.Held.{stored_in};
ghost use Rattle.rip_store.specs.Outcomes.{change_of, key_text, pushed, with_any};

use crate::limits::{LONGEST_KEY, MOST_KEYS};
use crate::measured::Measured;
use crate::outcome::Write;
use rip_base::{NoMemory, TextError, Units};
use rip_data::{Datum, DatumList};
use std::alloc::Global;
use std::collections::BTreeMap;

/// Places and the data that they hold. `Held.stored_in` is the list of them, in the order of the places' bytes.
#[derive(Drop)]
pub(crate) struct Places {
    held: BTreeMap<Vec<u8>, Measured>,
}

impl Places {
    /// No place yet.
    pub fn new(alloc: Global) -> Places
        ensures { stored_in result ≡ [] }
    {
        Places {
            held: BTreeMap::new(alloc),
        }
    }

    /// The datum at a place.
    pub fn get(&self, place: &[u8]) -> Option<&Datum>
        ensures { option_map (λ d. tree_of d.now) result ≡ value_at (stored_in self.now) place.now }
    {
        match self.measured(place) {
            Some(measured) => Some(measured.datum()),
            None => None,
        }
    }

    /// The same, with its size.
    pub fn measured(&self, place: &[u8]) -> Option<&Measured>
        ensures { option_map (λ m. tree_of m.now) result ≡ value_at (stored_in self.now) place.now }
    {
        self.held.get(place)
    }

    /// Whether the place is new and there is no room for it.
    pub fn is_full(&self, place: &[u8]) -> bool
        ensures { result ≡ is_full (stored_in self.now) place.now }
    {
        self.held.len() >= MOST_KEYS && self.get(place).is_none()
    }

    /// Does what a call gave; want of memory changes nothing.
    pub fn change(&mut self, alloc: Global, write: Write) -> Result<(), NoMemory>
        ensures done { OnOk result
            (stored_in self.new ≡ changed (stored_in self.old)
            (change_of (stored_in self.old) write)) }
        ensures no_memory { OnErr result (stored_in self.new ≡ stored_in self.old) }
    {
        match write {
            Write::Nothing => Ok(()),
            Write::Keep(place, datum) => self.keep(place, datum),
            Write::Push(place, item) => self.push(alloc, place, item),
            Write::Remove(place) => {
                self.remove(place.as_slice());
                Ok(())
            }
        }
    }

    // The place holds the datum.
    fn keep(&mut self, place: Vec<u8>, datum: Datum) -> Result<(), NoMemory>
        ensures done { OnOk result
            (stored_in self.new ≡ changed (stored_in self.old) (keep place.items (tree_of datum))) }
        ensures no_memory { OnErr result (stored_in self.new ≡ stored_in self.old) }
    {
        self.held.insert(place, Measured::new(datum))?;
        Ok(())
    }

    // The list at the place gets the item behind the others, which stay where they are.
    fn push(&mut self, alloc: Global, place: Vec<u8>, item: Datum) -> Result<(), NoMemory>
        ensures done { OnOk result (stored_in self.new ≡ changed (stored_in self.old)
            (pushed place.items (list_or_empty (value_at (stored_in self.old) place.items)) (tree_of item))) }
        ensures no_memory { OnErr result (stored_in self.new ≡ stored_in self.old) }
    {
        match self.held.get_mut(place.as_slice()) {
            Some(measured) => measured.push(item),
            None => self.keep(place, list_of_one(alloc, item)?),
        }
    }

    // The place holds nothing.
    fn remove(&mut self, place: &[u8])
        ensures { stored_in self.new ≡ changed (stored_in self.old) (remove place.now) }
    {
        self.held.remove(place);
    }

    /// The keys under a prefix, as texts, in order of their bytes.
    pub fn keys_under(&self, alloc: Global, prefix: &[u8]) -> Result<Vec<Datum>, NoMemory>
        ensures { IfOk result
            (λ ds. map tree_of ds.items
            ≡ map text_of (keys_under prefix.now (stored_in self.now))) }
    {
        let from = Vec::from_slice(alloc, prefix)?;
        let mut keys = Vec::new(alloc);
        for (place, _) in self.held.range(from..) {
            let place = place.as_slice();
            if !place.starts_with(prefix) {
                return Ok(keys);
            }
            add_key(alloc, &mut keys, &place[prefix.len()..])?;
        }
        Ok(keys)
    }
}

// The list of this one element.
fn list_of_one(alloc: Global, item: Datum) -> Result<Datum, NoMemory>
    ensures { IfOk result (λ list. tree_of list ≡ array (element (tree_of item) no_elements)) }
{
    let mut items = Vec::new(alloc);
    items.push(item)?;
    Ok(Datum::List(DatumList { items }))
}

// Adds the bytes as a text, where they are a key.
fn add_key(alloc: Global, keys: &mut Vec<Datum>, bytes: &[u8]) -> Result<(), NoMemory>
    ensures { OnOk result
        (map tree_of keys.new.items ≡ with_any (map tree_of keys.old.items) (key_text bytes.now)) }
{
    if let Some(key) = key_text(alloc, bytes)? {
        keys.push(Datum::Text(key))?;
    }
    Ok(())
}

// The bytes as a text, where they are a key.
fn key_text(alloc: Global, bytes: &[u8]) -> Result<Option<Units>, NoMemory>
    ensures { IfOk result (λ key. option_map (λ units. text units) key ≡ key_text bytes.now) }
{
    if bytes.len() > LONGEST_KEY {
        return Ok(None);
    }
    match Units::from_utf8(alloc, bytes) {
        Ok(key) => Ok(Some(key)),
        Err(TextError::NotUtf8) => Ok(None),
        Err(TextError::LoneSurrogate) => unreachable!(),
        Err(TextError::Memory) => Err(NoMemory),
    }
}
