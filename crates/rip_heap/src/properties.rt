ghost use Rattle.std.specs.Prelude.{◌≡◌, is_some};
ghost use Rattle.rip_heap.specs.Growth.{Grows};
ghost use Rattle.rip_heap.specs.Objects.{own, own_at, own_properties, find, or_up, put, removed};
ghost use Rattle.rip_heap.specs.Step.{Changes, TakesNoMemory};
ghost use Rattle.rip_heap.specs.World.{object_at, proto_of};

use crate::heap::Heap;
use rip_base::{Refused, Span, Value};
use rip_heap_region::chains::OwnProperties;
use std::alloc::Global;

impl Heap {
    /// The value of the object's own property with this name (ECMA-262 8.12.1).
    pub fn own(&self, object: u32, name: Span) -> Option<Value>
        ensures { result ≡ own self.now object name }
    {
        let at = self.place_of_object(object)?;
        self.parts.named.own(at, name)
    }

    /// The value of the property with this name on the object or, going up, on the first of its prototypes that has one
    /// (ECMA-262 8.12.2).
    #[tactic(auto, using(crate::proofs::FindLemmas::find_up))]
    pub fn find(&self, object: u32, name: Span) -> Option<Value>
        ensures value { result ≡ find self.now object name }
        ensures up { find self.now object name
            ≡ or_up (own self.now object name) (proto_of (object_at self.now object))
            (λ proto. find self.now proto name) }
    {
        let _ = &self.parts.named;
        let mut at = Some(object);
        while let Some(number) = at {
            if let Some(value) = self.own(number, name) {
                return Some(value);
            }
            at = self.proto(number);
        }
        None
    }

    /// The name and the value of the own property at this place, in the order of making.
    pub fn own_at(&self, object: u32, place: u32) -> Option<(Span, Value)>
        ensures { result ≡ own_at self.now object place }
    {
        let at = self.place_of_object(object)?;
        let found = self.parts.named.property(at, place)?;
        Some((found.name, found.value))
    }

    /// The own properties of the object, one by one in the order of making. What is no object of this heap has none.
    pub fn own_properties(&self, object: u32) -> OwnProperties<'_>
        ensures { result ≡ own_properties self.now object }
    {
        let at = self
            .place_of_object(object)
            .unwrap_or(self.parts.named.len());
        self.parts.named.own_properties(at)
    }

    /// Gives the object's own property with this name the value; where there is none, makes it behind the others.
    /// An existing property keeps the span that it was made with. What is no object of this heap stays as it is.
    pub fn put(&mut self, alloc: Global, object: u32, name: Span, v: Value) -> Result<(), Refused>
        ensures made { Changes (put self.old object name v) self.old result self.new }
        ensures room { TakesNoMemory result }
        ensures grows { Grows self.old self.new }
    {
        let _ = alloc;
        let Some(at) = self.place_of_object(object) else {
            return Ok(());
        };
        // The value is passed on twice, so the first call takes a copy.
        let value = v;
        if self.parts.named.replace(at, name, value) {
            return Ok(());
        }
        self.room_for(1)?;
        self.parts.named.add_property(at, name, v);
        self.used += 1;
        Ok(())
    }

    /// Takes the object's own property with this name away, and tells whether there was one. The others keep their
    /// order; no cell is given back.
    pub fn remove(&mut self, object: u32, name: Span) -> bool
        ensures gone { result ≡ is_some (own self.old object name) }
        ensures left { self.new ≡ removed self.old object name }
        ensures grows { Grows self.old self.new }
    {
        let Some(at) = self.place_of_object(object) else {
            return false;
        };
        self.parts.named.remove(at, name)
    }
}
