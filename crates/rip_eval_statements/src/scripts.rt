ghost use Rattle.std.specs.Prelude.{◌≡◌, ◌+◌, ◌<◌, ◌^◌, fold, Some, None};
ghost use Rattle.std.specs.Bool.{MatchBool};
ghost use Rattle.rip_heap.specs.Growth.{Grows};
ghost use Rattle.rip_eval_language.specs.Rows.Scripts.{script_entered, script_part, with_var};

use crate::functions::{count_declared, declare_functions};
use rip_base::Value;
use rip_eval_language::Source;
use rip_eval_rows::{Part, Role};
use rip_heap::Heap;

/// Declares names of `var`, by their places in the top scope: each keeps its value, or begins as undefined.
fn declare_vars(heap: &mut Heap, places: &[u32])
    ensures declared { heap.new ≡ fold with_var heap.old places.now }
    ensures grows { Grows heap.old heap.new }
{
    for place in places {
        declare_var(heap, *place);
    }
}

/// Declares a name of `var`, by its place in the top scope.
fn declare_var(heap: &mut Heap, place: u32)
    ensures declared { heap.new ≡ with_var heap.old place }
    ensures grows { Grows heap.old heap.new }
{
    if heap.binding(0, place).is_none() {
        heap.set_binding(0, place, Value::Undefined);
    }
}

/// Binds what a script declares, and tells whether its charge fits; where it does not, nothing is done.
pub fn enter_script(p: &Source, heap: &mut Heap, script: u32) -> bool
    ensures entered { MatchBool result (script_entered p.now script heap.old ≡ Some heap.new)
        ((script_entered p.now script heap.old ≡ None) × (heap.new ≡ heap.old)) }
    ensures grows { Grows heap.old heap.new }
{
    let root = p.root(script);
    let declared = count_declared(p, root, 0);
    if 4 * u64::from(declared) > u64::from(heap.free_cells()) {
        return false;
    }
    declare_functions(p, heap, 0, root, 0);
    declare_vars(heap, p.program.vars(script));
    true
}

/// The part of a script.
pub fn script_part(root: u32, depth: u32) -> Part
    requires { depth + 1 < 2 ^ 32 }
    ensures { result ≡ script_part root depth }
{
    Part {
        node: root,
        scope: 0,
        this: Value::Undefined,
        room: depth + 1,
        role: Role::Value,
    }
}
