ghost use Rattle.std.specs.Prelude.{◌≡◌, ◌≤◌, length};
ghost use Rattle.rip_values.specs.FixedTexts.{fixed_units};
ghost use Rattle.rip_heap.specs.Marks.{CanBeCut, cut_world, mark_of};

use crate::heap::Heap;

/// Where the texts of a heap stand: how many units they have, and how many were charged.
#[derive(Clone, Copy, Debug, PartialEq, Eq)]
pub struct Mark {
    pub end: u32,
    pub used: u32,
}

impl Heap {
    /// Where the texts of the heap stand.
    pub fn mark(&self) -> Mark
        ensures mark { result ≡ mark_of self.now }
        ensures fixed { length fixed_units ≤ result.end }
    {
        Mark {
            end: self.parts.named.pool().end(),
            used: self.parts.named.pool().used(),
        }
    }

    /// Takes back the texts that were added since they stood there. It is for who added all of them and hands none of
    /// them out. The indexes of names stay, unless a property was added to an object since.
    pub fn cut_back(&mut self, mark: Mark)
        requires { CanBeCut mark self.old }
        ensures { self.new ≡ cut_world mark self.old }
    {
        self.parts.named.cut_back(mark.end, mark.used);
    }
}
