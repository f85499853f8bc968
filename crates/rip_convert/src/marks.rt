ghost use Rattle.std.specs.Prelude.{◌≡◌, ◌≢◌, ℕ, IfOk, []};
ghost use Rattle.rip_convert.specs.Written.{mark_of};

use rip_base::NoMemory;
use rip_values::FIRST_HEAP_OBJECT;
use std::alloc::Global;
use std::marker::Model;

/// Marks of objects, a byte for each by its number: with how few levels left it was walked without a fault, or 0. The
/// room for as many objects as a heap has cells is taken at once; an object past it has no mark.
#[derive(Drop)]
pub(crate) struct Marks {
    levels: Vec<u8>,
}

impl Model for Marks {
    ghost use Rattle.std.specs.Prelude.{List, ℕ};

    ghost Value = { List ℕ };

    ghost view = { λ m. m.levels.items };
}

impl Marks {
    /// No mark, and the room for those of as many objects as there are cells.
    pub(crate) fn make(alloc: Global, cells: u32) -> Result<Marks, NoMemory>
        ensures { IfOk result (λ marks. marks ≡ []) }
    {
        let count = FIRST_HEAP_OBJECT as usize + cells as usize;
        Ok(Marks {
            levels: Vec::with_capacity(alloc, count)?,
        })
    }

    /// No object is marked.
    pub(crate) fn clear(&mut self)
        ensures { (n : ℕ) → mark_of self.new n ≡ 0 }
    {
        self.levels.truncate(0);
        while self.levels.len() < self.levels.capacity() {
            self.levels.push_reserved(0);
        }
    }

    /// The mark of an object.
    pub(crate) fn at(&self, number: u32) -> u8
        ensures { result ≡ mark_of self.now number }
    {
        self.levels.get(number as usize).copied().unwrap_or(0)
    }

    /// Marks an object, if there is room for its mark.
    pub(crate) fn put(&mut self, number: u32, levels: u8)
        ensures { (n : ℕ) → mark_of self.new n ≢ mark_of self.old n
            → (n ≡ number) × (mark_of self.new n ≡ levels) }
    {
        let at = number as usize;
        if at < self.levels.len() {
            self.levels[at] = levels;
        }
    }
}
