ghost use Rattle.std.specs.Prelude.{◌≡◌, ◌≤◌, ◌^◌, true, IfSome, IsTrue, length};
ghost use Rattle.rip_values.specs.Pool.{text_at};
ghost use Rattle.rip_base.specs.declared.value.Value.TheVariants.{Object as ObjectValue};
ghost use Rattle.rip_heap.specs.Growth.{Belongs};
ghost use Rattle.rip_calls.specs.Calls.{IsOneLine, least_text};
ghost use Rattle.rip_convert.specs.Arguments.{call_text};
ghost use Rattle.rip_host.specs.Ripley.{call_callback, call_judged, call_name, call_put, is_array, is_call_name, next_random, random_below, random_call, random_number, ripley_call, ripley_member};
ghost use Rattle.rip_host.specs.Visit.{Fits, KeepsBrowser};

use crate::browser::Browser;
use crate::listening::is_function_object;
use rip_base::{Fault, Limit, Span, Value, Whole};
use rip_calls::Queue;
use rip_heap::{Heap, Holder, HostDone, holder_of};
use rip_values::{Builtin, FixedText};
use rip_wire::is_name;

/// The greatest argument of `random`.
const GREATEST_BOUND: i64 = 1 << 31;

/// The function of `ripley` that has this name.
pub(crate) fn ripley_member(name: FixedText) -> Option<Builtin>
    ensures { result ≡ ripley_member name }
{
    match name {
        FixedText::Call => Some(Builtin::RipleyCall),
        FixedText::Now => Some(Builtin::RipleyNow),
        FixedText::Random => Some(Builtin::RipleyRandom),
        _ => None,
    }
}

/// The random word after this one.
fn next_random(x: u32) -> u32
    ensures { result ≡ next_random x }
{
    ((1_664_525 * u64::from(x) + 1_013_904_223) % (1 << 32)) as u32
}

/// The random number below n that a word stands for.
fn random_below(n: u32, x: u32) -> u32
    requires { n ≤ 2 ^ 31 }
    ensures { result ≡ random_below n x }
{
    (u64::from(x) * u64::from(n) / (1 << 32)) as u32
}

// Whether a text is the name of a call.
fn is_call_name(text: &[u16]) -> bool
    ensures { result ≡ is_call_name text.now }
{
    is_name(text)
}

// The name of a call, where the value is one.
fn call_name(heap: &Heap, v: &Value) -> Option<Span>
    ensures name { result ≡ call_name heap.now v.now }
    ensures is { IfSome result (λ name. is_call_name (text_at heap.now.pool name) ≡ true) }
{
    match v {
        Value::Text(span) => {
            if is_call_name(heap.pool().get(*span)) {
                Some(*span)
            } else {
                None
            }
        }
        _ => None,
    }
}

// Whether the value is an array.
fn is_array(heap: &Heap, v: &Value) -> bool
    ensures { result ≡ is_array heap.now v.now }
{
    match v {
        Value::Object(n) => matches!(holder_of(heap, *n), Holder::ArrayObject),
        _ => false,
    }
}

// The callback of a call, where the value is one.
fn call_callback(heap: &Heap, v: &Value) -> Option<Option<u32>>
    ensures callback { result ≡ call_callback heap.now v.now }
    ensures belongs { IfSome result (λ c. IfSome c (λ f. Belongs heap.now (ObjectValue f))) }
{
    match v {
        Value::Undefined | Value::Null => Some(None),
        Value::Object(n) => {
            if is_function_object(heap, *n) {
                Some(Some(*n))
            } else {
                None
            }
        }
        _ => None,
    }
}

// Puts a call behind those that were made, at a cell.
fn put_call(heap: &mut Heap, calls: &mut Queue, callback: Option<u32>, text: &[u8]) -> HostDone
    requires line { IsOneLine text.now }
    requires least { least_text ≤ length text.now }
    ensures { (result, heap.new, calls.new) ≡ call_put heap.old calls.old callback text.now }
{
    if heap.free_cells() == 0 {
        return HostDone::Limit(Limit::Cells);
    }
    match calls.push_made(text, callback) {
        Ok(_) => {
            heap.charge(1).unwrap();
            HostDone::Value(Value::Undefined)
        }
        Err(_) => HostDone::Limit(Limit::Queue),
    }
}

impl Browser {
    /// `ripley.call(name, args, callback)`.
    pub(crate) fn ripley_call(
        &mut self,
        heap: &mut Heap,
        name: &Value,
        args: &Value,
        callback: &Value,
    ) -> HostDone
        requires fits { Fits self.old heap.old }
        ensures answer { (result, heap.new, self.new) ≡
            ripley_call heap.old self.old name.now args.now callback.now }
        ensures keeps { KeepsBrowser heap.old self.old result heap.new self.new }
    {
        let Some(name) = call_name(heap, name) else {
            return HostDone::Fault(Fault::BadArgument);
        };
        if !is_array(heap, args) {
            return HostDone::Fault(Fault::BadArgument);
        }
        let Some(callback) = call_callback(heap, callback) else {
            return HostDone::Fault(Fault::BadArgument);
        };
        self.make_call(heap, name, args, callback)
    }

    // Makes a call, once the walk over its arguments has come to a text.
    fn make_call(
        &mut self,
        heap: &mut Heap,
        name: Span,
        args: &Value,
        callback: Option<u32>,
    ) -> HostDone
        requires fits { Fits self.old heap.old }
        requires name { is_call_name (text_at heap.old.pool name) ≡ true }
        requires belongs { IfSome callback (λ f. Belongs heap.old (ObjectValue f)) }
        ensures answer { (result, heap.new, self.new) ≡
            call_judged heap.old self.old callback (call_text heap.old name args.now) }
        ensures keeps { KeepsBrowser heap.old self.old result heap.new self.new }
    {
        match self.row.write_call(heap, name, *args) {
            Ok(text) => put_call(heap, &mut self.calls, callback, text),
            Err(fault) => HostDone::Fault(fault),
        }
    }

    /// `ripley.random(n)`.
    pub(crate) fn random_call(&mut self, heap: &Heap, n: &Value) -> HostDone
        requires fits { Fits self.old heap.now }
        ensures answer { (result, heap.now, self.new) ≡ random_call heap.now self.old n.now }
        ensures keeps { KeepsBrowser heap.now self.old result heap.now self.new }
    {
        let _ = heap;
        match n {
            Value::Num(number) => {
                let bound = number.get();
                if 1 <= bound && bound <= GREATEST_BOUND {
                    self.random = next_random(self.random);
                    HostDone::Value(number_value(random_below(bound as u32, self.random)))
                } else {
                    HostDone::Fault(Fault::BadArgument)
                }
            }
            _ => HostDone::Fault(Fault::BadArgument),
        }
    }
}

fn number_value(n: u32) -> Value
    ensures { result ≡ random_number n }
{
    match Whole::new(i64::from(n)) {
        Some(whole) => Value::Num(whole),
        None => Value::NaN,
    }
}
