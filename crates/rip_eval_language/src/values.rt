ghost use Rattle.std.specs.Prelude.{◌≡◌, MatchOption};
ghost use Rattle.rip_base.specs.declared.value.Value.{Value as ScriptValue};
ghost use Rattle.rip_heap.specs.World.{World};
ghost use Rattle.rip_heap.specs.Conversions.{boolean_of};
ghost use Rattle.rip_eval_rows.specs.Row.{Row, Ends, with_value};

use rip_base::Value;
use rip_eval_rows::Completion;
use rip_heap::{Heap, to_boolean};

/// The value of a normal completion; any other ends the row.
pub fn value_of(c: &Completion) -> Option<Value>
    ensures { MatchOption result ((w : World) (go : ScriptValue → Row) → with_value c.now w go
        ≡ Ends c.now w) (λ v. c.now ≡ Completion.Normal v) }
{
    match c {
        Completion::Normal(v) => Some(*v),
        _ => None,
    }
}

/// Whether a value counts as true (ECMA-262 9.2).
pub fn truth_of(heap: &Heap, v: &Value) -> bool
    ensures { result ≡ boolean_of heap.now.pool v.now }
{
    to_boolean(heap, *v)
}
