ghost use Rattle.std.specs.Prelude.{◌≡◌, List, IfOk, IsErr, IsTrue, MatchResult, OnErr, pos};
ghost use Rattle.rip_base.specs.declared.value.Value.{Value as ScriptValue};
ghost use Rattle.rip_heap.specs.Growth.{Grows};
ghost use Rattle.rip_heap.specs.World.{World};
ghost use Rattle.rip_eval_rows.specs.Row.{Row, Table};
ghost use Rattle.rip_eval_language.specs.Does.{DoesAnywhere, GivesValue, GivesWorld};
ghost use Rattle.rip_eval_language.specs.Rows.Host.{asks_call, asks_read, asks_write, throws_code, with_reply};
ghost use Rattle.rip_eval_rows.specs.declared.part.Part.{Part};
ghost use Rattle.rip_eval_rows.specs.Rest.{as_row};

use crate::answers::answers::halt;
use crate::answers::names::throw;
use rip_base::{Limit, NoMemory, Refused, Span, Value, Whole};
use rip_eval_rows::{Completion, Next, Part, Stop};
use rip_heap::{Class, Heap, Host, HostDone};
use rip_values::FixedText;
use std::alloc::Global;

/// Asks the host for a member, and gives its value, or what the row does instead.
pub fn ask_read<H: Host>(
    alloc: Global,
    heap: &mut Heap,
    host: &mut H,
    object: u32,
    name: Span,
) -> Result<Result<Value, Next>, NoMemory>
    requires { H.fits host.old heap.old }
    ensures asked { IfOk result (λ answer. GivesValue H.answers answer heap.new host.new
        (asks_read object name heap.old) host.old) }
    ensures memory { OnErr result (IsTrue H.may_want_memory) }
    ensures fits { H.fits host.new heap.new }
    ensures grows { Grows heap.old heap.new }
{
    let done = host.read(heap, object, name);
    answered(alloc, heap, done)
}

/// Asks the host to write a member; then the row goes on, or does this instead.
pub fn ask_write<H: Host>(
    alloc: Global,
    heap: &mut Heap,
    host: &mut H,
    object: u32,
    name: Span,
    v: &Value,
) -> Result<Result<(), Next>, NoMemory>
    requires { H.fits host.old heap.old }
    ensures asked { IfOk result (λ answer. GivesWorld H.answers answer heap.new host.new
        (asks_write object name v.now heap.old) host.old) }
    ensures memory { OnErr result (IsTrue H.may_want_memory) }
    ensures fits { H.fits host.new heap.new }
    ensures grows { Grows heap.old heap.new }
{
    let done = host.write(heap, object, name, *v);
    match answered(alloc, heap, done)? {
        Ok(_) => Ok(Ok(())),
        Err(next) => Ok(Err(next)),
    }
}

/// Calls a built-in function of the host, and gives what it returns, or what the row does instead.
pub fn ask_call<H: Host>(
    alloc: Global,
    heap: &mut Heap,
    host: &mut H,
    which: u32,
    this: Value,
    args: &[Value],
) -> Result<Result<Value, Next>, NoMemory>
    requires { H.fits host.old heap.old }
    ensures asked { IfOk result (λ answer. GivesValue H.answers answer heap.new host.new
        (asks_call which this args.now heap.old) host.old) }
    ensures memory { OnErr result (IsTrue H.may_want_memory) }
    ensures fits { H.fits host.new heap.new }
    ensures grows { Grows heap.old heap.new }
{
    let done = host.call(heap, which, this, args);
    answered(alloc, heap, done)
}

/// The value that the host answered, or what the row does instead.
fn answered(alloc: Global, heap: &mut Heap, done: HostDone) -> Result<Result<Value, Next>, NoMemory>
    ensures reply { IfOk result (λ answer. MatchResult answer
        (λ v. (done ≡ HostDone.Value v) × (heap.new ≡ heap.old))
        (λ next. (go : ScriptValue → World → Row) (t : Table) (at : Part)
        (values : List ScriptValue) → as_row t at next values heap.new
        ≡ with_reply done heap.old go)) }
    ensures lack { done ≡ HostDone.Memory → IsErr result }
    ensures memory { OnErr result (done ≡ HostDone.Memory) }
    ensures grows { Grows heap.old heap.new }
{
    match done {
        HostDone::Value(v) => Ok(Ok(v)),
        HostDone::TypeFault => Ok(Err(throw(alloc, heap, Class::ThrownTypeError))),
        HostDone::Dom(code) => Ok(Err(throw_code(alloc, heap, code))),
        HostDone::Fault(fault) => Ok(Err(Next::Halt(Stop::Fault(fault)))),
        HostDone::Limit(limit) => Ok(Err(Next::Halt(Stop::Limit(limit)))),
        HostDone::Memory => Err(NoMemory),
    }
}

/// Throws a new object that has this code of the document.
fn throw_code(alloc: Global, heap: &mut Heap, code: u8) -> Next
    ensures row { DoesAnywhere result heap.new (throws_code code heap.old) }
    ensures grows { Grows heap.old heap.new }
{
    match heap.new_of(alloc, Class::Code) {
        Ok(object) => match heap.put(alloc, object, FixedText::Code.span(), code_value(code)) {
            Ok(()) => Next::End(Completion::Thrown(Value::Object(object))),
            Err(Refused::Limit(limit)) => halt(Stop::Limit(limit)),
            Err(Refused::Memory) => unreachable!(),
        },
        Err(Refused::Limit(limit)) => halt(Stop::Limit(limit)),
        Err(Refused::Memory) => unreachable!(),
    }
}

/// A code as a value.
fn code_value(code: u8) -> Value
    ensures { result ≡ Value.Num (pos code) }
{
    match Whole::new(i64::from(code)) {
        Some(number) => Value::Num(number),
        None => Value::NaN,
    }
}
