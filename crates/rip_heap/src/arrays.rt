ghost use Rattle.std.specs.Prelude.{◌≡◌, ◌+◌, ◌<◌, ⊤, IfOk, MatchOption, slice_get, length};
ghost use Rattle.rip_base.specs.declared.value.Value.{Value};
ghost use Rattle.rip_heap.specs.Growth.{Grows};
ghost use Rattle.rip_heap.specs.Arrays.{new_array, new_piece, cut, elements_at, last_of, with_item, popped, push_item, push_items};
ghost use Rattle.rip_heap.specs.NamedObjects.{IsArrayAt};
ghost use Rattle.rip_heap.specs.Step.{Makes, Changes, TakesNoMemory};
ghost use Rattle.rip_heap.specs.World.{object_at, as_array, first_object, IsObject};

use crate::heap::Heap;
use rip_base::{Limit, Refused, Value};
use rip_values::FIRST_HEAP_OBJECT;
use std::alloc::Global;

impl Heap {
    /// A new array of these elements.
    pub fn new_array(&mut self, alloc: Global, items: &[Value]) -> Result<u32, Refused>
        ensures made { Makes Limit.Cells (new_array self.old items.now) self.old result self.new }
        ensures room { TakesNoMemory result }
        ensures stands { IfOk result (IsObject self.new) }
        ensures grows { Grows self.old self.new }
    {
        self.room_for(items.len() + 1)?;
        let number = FIRST_HEAP_OBJECT + self.parts.named.len();
        self.parts.named.push_array(items);
        self.used += items.len() as u32 + 1;
        Ok(number)
    }

    /// How many elements the array has. What is no array of this heap has none.
    pub fn count(&self, array: u32) -> u32
        ensures { result ≡ length (elements_at self.now array) }
    {
        match self.place_of_array(array) {
            Some(at) => self.parts.named.element_count(at),
            None => 0,
        }
    }

    /// The element at this place, or none past the end.
    pub fn item(&self, array: u32, place: u32) -> Option<Value>
        ensures { result ≡ slice_get (elements_at self.now array) place }
    {
        let at = self.place_of_array(array)?;
        self.parts.named.element(at, place)
    }

    /// Gives the element at this place the value. Past the end nothing is changed.
    pub fn set_item(&mut self, array: u32, place: u32, v: Value)
        ensures set { self.new ≡ with_item self.old array place v }
        ensures grows { Grows self.old self.new }
    {
        let Some(at) = self.place_of_array(array) else {
            return;
        };
        self.parts.named.set_element(at, place, v);
    }

    /// Puts an element behind the others. What is no array of this heap stays as it is.
    pub fn push_item(&mut self, alloc: Global, array: u32, v: Value) -> Result<(), Refused>
        ensures made { Changes (push_item self.old array v) self.old result self.new }
        ensures room { TakesNoMemory result }
        ensures grows { Grows self.old self.new }
    {
        let Some(at) = self.place_of_array(array) else {
            return Ok(());
        };
        self.room_for(1)?;
        self.parts.named.push_element(at, v);
        self.used += 1;
        Ok(())
    }

    /// Puts these elements behind the others, all of them or none. What is no array of this heap stays as it is.
    pub fn push_items(&mut self, alloc: Global, array: u32, items: &[Value]) -> Result<(), Refused>
        ensures made { Changes (push_items self.old array items.now) self.old result self.new }
        ensures room { TakesNoMemory result }
        ensures grows { Grows self.old self.new }
    {
        let Some(at) = self.place_of_array(array) else {
            return Ok(());
        };
        self.room_for(items.len())?;
        self.parts.named.push_elements(at, items);
        self.used += items.len() as u32;
        Ok(())
    }

    /// A new array of the elements of an array from one place up to another.
    pub fn new_piece(
        &mut self,
        alloc: Global,
        array: u32,
        from: u32,
        to: u32,
    ) -> Result<u32, Refused>
        ensures made { Makes Limit.Cells (new_piece self.old array from to) self.old result
            self.new }
        ensures room { TakesNoMemory result }
        ensures stands { IfOk result (IsObject self.new) }
        ensures grows { Grows self.old self.new }
    {
        let Some(at) = self.place_of_array(array) else {
            return self.new_array(alloc, &[]);
        };
        let end = to.min(self.parts.named.element_count(at));
        let count = end - from.min(end);
        self.room_for(count as usize + 1)?;
        let number = FIRST_HEAP_OBJECT + self.parts.named.len();
        self.parts.named.push_piece(at, from, to);
        self.used += count + 1;
        Ok(number)
    }

    /// Takes the last element away and gives it. No cell is given back.
    pub fn pop_item(&mut self, array: u32) -> Option<Value>
        ensures last { result ≡ last_of (elements_at self.old array) }
        ensures left { self.new ≡ popped self.old array }
        ensures grows { Grows self.old self.new }
    {
        let at = self.place_of_array(array)?;
        self.parts.named.pop_element(at)
    }

    /// Takes the elements from this count on away. No cell is given back.
    pub fn cut_items(&mut self, array: u32, count: u32)
        ensures left { self.new ≡ cut self.old array count }
        ensures grows { Grows self.old self.new }
    {
        let Some(at) = self.place_of_array(array) else {
            return;
        };
        self.parts.named.cut_elements(at, count);
    }

    // The place of the array of that number in the list of objects.
    fn place_of_array(&self, number: u32) -> Option<u32>
        ensures place { MatchOption result (as_array (object_at self.now number) ≡ None)
            (λ i. (number ≡ first_object + i) × (i < length self.now.objects)
            × (slice_get self.now.objects i ≡ as_array (object_at self.now number))) }
        ensures array { MatchOption result ⊤ (λ i. IsArrayAt self.now.objects i) }
    {
        let place = self.place_of_object(number)?;
        let found = self.parts.named.get(place)?;
        if found.class.is_array() {
            Some(place)
        } else {
            None
        }
    }
}
