ghost use Rattle.std.specs.Prelude.{◌≡◌, IfOk, true};
ghost use Rattle.rip_builtins.specs.Receivers.{array_of, text_of, refusal};
ghost use Rattle.rip_heap.specs.Outcome.{Answers};
ghost use Rattle.rip_heap.specs.World.{is_array, class_of, object_at};

use rip_base::{Fault, Span, Value};
use rip_heap::{Abrupt, Class, Heap};

/// Why a value has no function of arrays, or of texts.
#[derive(Clone, Copy, Debug, PartialEq, Eq)]
pub enum NoReceiver {
    /// It is null or undefined.
    Absent,
    Other,
}

// The array that the value is.
pub fn array_of(heap: &Heap, this: Value) -> Result<u32, NoReceiver>
    ensures value { result ≡ array_of heap.now this }
    ensures array { IfOk result (λ number. is_array (class_of (object_at heap.now number)) ≡ true) }
{
    match this {
        Value::Undefined | Value::Null => Err(NoReceiver::Absent),
        Value::Object(number) => if matches!(heap.class(number), Class::Array) {
            Ok(number)
        } else {
            Err(NoReceiver::Other)
        },
        _ => Err(NoReceiver::Other),
    }
}

// The text that the value is.
pub fn text_of(this: Value) -> Result<Span, NoReceiver>
    ensures { result ≡ text_of this }
{
    match this {
        Value::Undefined | Value::Null => Err(NoReceiver::Absent),
        Value::Text(span) => Ok(span),
        _ => Err(NoReceiver::Other),
    }
}

// The answer of a call that has no receiver.
pub fn refused(heap: &Heap, reason: NoReceiver) -> Result<Value, Abrupt>
    ensures { Answers (refusal reason) heap.now result heap.now }
{
    let _ = heap;
    match reason {
        NoReceiver::Absent => Err(Abrupt::TypeError),
        NoReceiver::Other => Err(Abrupt::Fault(Fault::NotInProfile)),
    }
}
