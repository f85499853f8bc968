ghost use Rattle.std.specs.Prelude.{◌≡◌, ◌<◌, IfOk, IfSome, false, is_some, length, true};
ghost use Rattle.rip_heap.specs.Growth.{Grows};
ghost use Rattle.rip_heap.specs.Scopes.{new_scope, kept_parent, parent_of, bindings_of, binding, with_binding};
ghost use Rattle.rip_heap.specs.Step.{Makes, TakesNoMemory};
ghost use Rattle.rip_heap.specs.World.{scope_at, IsScope};

use crate::heap::Heap;
use rip_base::{Limit, Refused, Value};
use std::alloc::Global;

impl Heap {
    /// A new scope with so many bindings, none of which has a value yet. A parent that is no scope of this heap counts
    /// as none.
    pub fn new_scope(
        &mut self,
        alloc: Global,
        parent: Option<u32>,
        names: u32,
    ) -> Result<u32, Refused>
        ensures made { Makes Limit.Cells (new_scope self.old parent names) self.old result
            self.new }
        ensures room { TakesNoMemory result }
        ensures stands { IfOk result (IsScope self.new) }
        ensures grows { Grows self.old self.new }
    {
        self.room_for(names as usize + 1)?;
        let number = self.parts.named.scopes();
        let parent = self.kept_parent(parent);
        self.parts.named.push_scope(parent, names);
        self.used += names + 1;
        Ok(number)
    }

    /// The value of the binding at this place; none where it has none yet, and where there is no such binding.
    pub fn binding(&self, scope: u32, place: u32) -> Option<Value>
        ensures { result ≡ binding self.now scope place }
    {
        self.parts.named.binding(scope, place)
    }

    /// Gives the binding at this place the value. Where there is no such binding nothing is changed.
    pub fn set_binding(&mut self, scope: u32, place: u32, v: Value)
        ensures set { self.new ≡ with_binding self.old scope place v }
        ensures grows { Grows self.old self.new }
    {
        self.parts.named.bind(scope, place, v);
    }

    /// Gives the binding at this place the value, if it has one already, and tells whether it has. Where it has none nothing
    /// is changed.
    pub fn rebind(&mut self, scope: u32, place: u32, v: Value) -> bool
        ensures told { result ≡ is_some (binding self.old scope place) }
        ensures set { result ≡ true → self.new ≡ with_binding self.old scope place v }
        ensures kept { result ≡ false → self.new ≡ self.old }
        ensures grows { Grows self.old self.new }
    {
        if self.parts.named.rebind(scope, place, v) {
            return true;
        }
        false
    }

    /// The scope around the scope, which was made before it.
    pub fn scope_parent(&self, scope: u32) -> Option<u32>
        ensures value { result ≡ parent_of (scope_at self.now scope) }
        ensures older { IfSome result (λ parent. (parent < scope) × IsScope self.now parent) }
    {
        self.parts.named.parent(scope)
    }

    /// How many bindings the scope has. What is no scope of this heap has none.
    pub fn names(&self, scope: u32) -> u32
        ensures { result ≡ length (bindings_of (scope_at self.now scope)) }
    {
        self.parts.named.names(scope)
    }

    fn kept_parent(&self, parent: Option<u32>) -> Option<u32>
        ensures { result ≡ kept_parent self.now parent }
    {
        let number = parent?;
        if number < self.parts.named.scopes() {
            Some(number)
        } else {
            None
        }
    }
}
