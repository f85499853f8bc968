ghost use Rattle.std.specs.Prelude.{◌≡◌};
ghost use Rattle.rip_ops.specs.Numbers.{numbers_of};

use rip_base::{Fault, Numeral, Value};
use rip_heap::{Heap, to_number};

/// Both operands as numbers, the left one first (ECMA-262 9.3).
pub fn numbers_of(heap: &Heap, a: Value, b: Value) -> Result<(Numeral, Numeral), Fault>
    ensures { result ≡ numbers_of heap.now.pool a b }
{
    let x = to_number(heap, a)?;
    let y = to_number(heap, b)?;
    Ok((x, y))
}
