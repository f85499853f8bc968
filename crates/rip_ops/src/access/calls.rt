ghost use Rattle.std.specs.Prelude.{◌≡◌};
ghost use Rattle.rip_ops.specs.CallTable.{calls_of_texts, calls_of_arrays, calls_of_math};
ghost use Rattle.rip_ops.specs.Calls.{call_named, builtin_of};

use crate::access::call_table::{CALLS_OF_ARRAYS, CALLS_OF_MATH, CALLS_OF_TEXTS};
use rip_base::Span;
use rip_heap::{Heap, is_named};
use rip_values::{Builtin, FixedText};

// The call of texts that the name stands for.
pub fn call_of_texts(heap: &Heap, name: Span) -> Option<Builtin>
    ensures { result ≡ call_named heap.now.pool name calls_of_texts }
{
    call_named(heap, name, &CALLS_OF_TEXTS)
}

// The call of arrays that the name stands for.
pub fn call_of_arrays(heap: &Heap, name: Span) -> Option<Builtin>
    ensures { result ≡ call_named heap.now.pool name calls_of_arrays }
{
    call_named(heap, name, &CALLS_OF_ARRAYS)
}

// The call of `Math` that the name stands for.
pub fn call_of_math(heap: &Heap, name: Span) -> Option<Builtin>
    ensures { result ≡ call_named heap.now.pool name calls_of_math }
{
    call_named(heap, name, &CALLS_OF_MATH)
}

// The built-in that the name stands for in a table of calls.
fn call_named(heap: &Heap, name: Span, calls: &[(FixedText, Builtin)]) -> Option<Builtin>
    ensures { result ≡ call_named heap.now.pool name calls.now }
{
    for (text, builtin) in calls {
        if is_named(heap, name, *text) {
            return Some(*builtin);
        }
    }
    None
}

/// The built-in of this number, if there is one.
pub fn builtin_of(number: u32) -> Option<Builtin>
    ensures { result ≡ builtin_of number }
{
    Builtin::of(number)
}
