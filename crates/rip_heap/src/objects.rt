ghost use Rattle.std.specs.Prelude.{◌≡◌, ◌≤◌, ◌+◌, ◌<◌, [], ⊤, IfOk, MatchOption, IfSome, None, Some, option_map, slice_get, length};
ghost use Rattle.rip_heap.specs.Growth.{Grows};
ghost use Rattle.rip_heap.specs.HeadSlots.{IsStorable};
ghost use Rattle.rip_heap.specs.Objects.{adding, kept_proto, new_object, new_of, new_function};
ghost use Rattle.rip_heap.specs.Step.{Makes, TakesNoMemory};
ghost use Rattle.rip_heap.specs.Stored.{head_of, object_of, stored_with};
ghost use Rattle.rip_heap.specs.World.{object_at, IsObject, class_of, proto_of, code_of, first_object, charging, cost_of_object};

use crate::class::Class;
use crate::heap::Heap;
use crate::stored::StoredObject;
use rip_base::{Limit, Refused, Value};
use rip_heap_region::pages::Property;
use rip_values::{FIRST_HEAP_OBJECT, FixedText};
use std::alloc::Global;

/// Cells that a function costs.
const COST_OF_FUNCTION: u32 = 4;

impl Heap {
    /// A new plain object. A prototype that is no object of this heap counts as none.
    pub fn new_object(&mut self, alloc: Global, proto: Option<u32>) -> Result<u32, Refused>
        ensures made { Makes Limit.Cells (new_object self.old proto) self.old result self.new }
        ensures room { TakesNoMemory result }
        ensures stands { IfOk result (IsObject self.new) }
        ensures grows { Grows self.old self.new }
    {
        let proto = self.kept_proto(proto);
        self.add_object(StoredObject::bare(Class::Plain, proto))
    }

    /// A new object of that class, which has no prototype: an error, a thrown code or an event. As a function it has
    /// no code, and as an array no elements.
    pub fn new_of(&mut self, alloc: Global, class: Class) -> Result<u32, Refused>
        ensures made { Makes Limit.Cells (new_of self.old class) self.old result self.new }
        ensures room { TakesNoMemory result }
        ensures stands { IfOk result (IsObject self.new) }
        ensures grows { Grows self.old self.new }
    {
        self.add_object(StoredObject::bare(class, None))
    }

    /// A new function of the script: the node of the program that it is, and the scope in which it stands. Its
    /// `prototype` is a new object of class `Prototype`.
    pub fn new_function(&mut self, alloc: Global, node: u32, scope: u32) -> Result<u32, Refused>
        ensures made { Makes Limit.Cells (new_function self.old node scope) self.old result
            self.new }
        ensures room { TakesNoMemory result }
        ensures stands { IfOk result (IsObject self.new) }
        ensures grows { Grows self.old self.new }
    {
        self.room_for(COST_OF_FUNCTION as usize)?;
        let prototype = FIRST_HEAP_OBJECT + self.parts.named.len();
        let bare = StoredObject::bare(Class::Prototype, None);
        let property = Property {
            name: FixedText::Prototype.span(),
            value: Value::Object(prototype),
        };
        self.parts.named.push(bare);
        self.parts
            .named
            .push_with(StoredObject::function(node, scope), property);
        self.used += COST_OF_FUNCTION;
        Ok(prototype + 1)
    }

    /// The class of the object. A number that is no object of this heap counts as a plain one.
    pub fn class(&self, object: u32) -> Class
        ensures { result ≡ class_of (object_at self.now object) }
    {
        match self.object(object) {
            Some(found) => found.class,
            None => Class::Plain,
        }
    }

    /// The prototype of the object, which is an object of this heap made before it.
    pub fn proto(&self, object: u32) -> Option<u32>
        ensures value { result ≡ proto_of (object_at self.now object) }
        ensures older { IfSome result (λ proto. (first_object ≤ proto) × (proto < object)) }
    {
        match self.object(object) {
            Some(found) => found.proto,
            None => None,
        }
    }

    /// Of a script function its node and its scope.
    pub fn function(&self, object: u32) -> Option<(u32, u32)>
        ensures { result ≡ code_of (object_at self.now object) }
    {
        match self.object(object) {
            Some(found) => found.code,
            None => None,
        }
    }

    // The object of that number, but for its properties and its elements.
    pub(crate) fn object(&self, number: u32) -> Option<StoredObject>
        ensures object { MatchOption result (object_at self.now number ≡ None)
            (λ s. option_map head_of (object_at self.now number) ≡ Some s) }
        ensures older { MatchOption result ⊤
            (λ s. IfSome s.proto (λ proto. (first_object ≤ proto) × (proto < number))) }
    {
        if number < FIRST_HEAP_OBJECT {
            return None;
        }
        self.parts.named.get(number - FIRST_HEAP_OBJECT)
    }

    // The place of the object of that number in the list of objects.
    pub(crate) fn place_of_object(&self, number: u32) -> Option<u32>
        ensures { MatchOption result (object_at self.now number ≡ None)
            (λ i. (number ≡ first_object + i) × (i < length self.now.objects)
            × (slice_get self.now.objects i ≡ object_at self.now number)) }
    {
        if number < FIRST_HEAP_OBJECT {
            return None;
        }
        let place = number - FIRST_HEAP_OBJECT;
        if place < self.parts.named.len() {
            Some(place)
        } else {
            None
        }
    }

    // Puts an object that is its own cost behind the others.
    fn add_object(&mut self, object: StoredObject) -> Result<u32, Refused>
        requires storable { IsStorable object }
        requires older { IfSome object.proto
            (λ proto. (first_object ≤ proto) × (proto < first_object + length self.old.objects)) }
        ensures made { Makes Limit.Cells
            (charging cost_of_object self.old (adding (object_of (stored_with object []) [])))
            self.old result self.new }
        ensures room { TakesNoMemory result }
        ensures stands { IfOk result (IsObject self.new) }
        ensures grows { Grows self.old self.new }
    {
        self.room_for(1)?;
        let number = FIRST_HEAP_OBJECT + self.parts.named.len();
        self.parts.named.push(object);
        self.used += 1;
        Ok(number)
    }

    fn kept_proto(&self, proto: Option<u32>) -> Option<u32>
        ensures { result ≡ kept_proto self.now proto }
    {
        let number = proto?;
        self.object(number)?;
        Some(number)
    }
}
