ghost use Rattle.std.specs.Prelude.{◌≡◌, Some, IfSome, slice_get};
ghost use Rattle.rip_values.specs.declared.builtin.Builtin.{Builtin};
ghost use Rattle.rip_values.specs.Builtins.{number_of};

use crate::builtin::{BUILTINS, Builtin};

/// The first number of an object of the heap: those below are the numbers of built-ins.
pub const FIRST_HEAP_OBJECT: u32 = 128;

/// The number of the document as an object: node `n` is the object of this number and `n`, and every object of the
/// heap has a lesser number.
pub const FIRST_NODE: u32 = 1 << 31;

impl Builtin {
    /// The built-in of this number, if there is one.
    pub fn of(number: u32) -> Option<Builtin>
        ensures number { IfSome result (λ builtin. number_of builtin ≡ number) }
        ensures only { (builtin : Builtin) → number_of builtin ≡ number → result ≡ Some builtin }
    {
        at_place(&BUILTINS, number as usize)
    }
}

fn at_place(table: &[Builtin], place: usize) -> Option<Builtin>
    ensures { result ≡ slice_get table.now place }
{
    table.get(place).copied()
}
