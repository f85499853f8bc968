ghost use Rattle.std.specs.Prelude.{◌≡◌, find, nat_eq};
ghost use Rattle.std.specs.Cmp.Lexicographic.{pointwise};
ghost use Rattle.rip_values.specs.GlobalTable.{global_name};
ghost use Rattle.rip_values.specs.Globals.{global_named};

use crate::fixed_lookup::is_spelled;
use crate::global::{GLOBALS, Global};

impl Global {
    /// The global of this name.
    #[tactic(auto, unfolding(crate::specs::GlobalTable::globals))]
    pub fn named(name: &[u16]) -> Option<Global>
        ensures { result ≡ global_named name.now }
    {
        named_among(&GLOBALS, name)
    }
}

/// The first of these globals that has the name.
fn named_among(globals: &[Global], name: &[u16]) -> Option<Global>
    ensures { result ≡ find (λ global. pointwise nat_eq (global_name global) name.now) globals.now }
{
    globals
        .iter()
        .copied()
        .find(|global| is_spelled(global.name(), name))
}
