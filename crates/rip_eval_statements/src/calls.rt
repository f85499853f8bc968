ghost use Rattle.std.specs.Prelude.{◌≡◌, ◌-◌, ◌<◌, ◌++◌, ◌∷◌, [], drop, length, slice_index_or, IsTrue, MatchOption, MatchResult, OnErr};
ghost use Rattle.rip_base.specs.declared.value.Value.{Value as ScriptValue};
ghost use Rattle.rip_base.specs.declared.value.Value.TheVariants.{Undefined};
ghost use Rattle.rip_heap.specs.Growth.{Grows};
ghost use Rattle.rip_heap.specs.World.{World};
ghost use Rattle.rip_eval_rows.specs.Room.{AreTogether};
ghost use Rattle.rip_eval_rows.specs.Row.{Ends, Halts, Row};
ghost use Rattle.rip_eval_language.specs.Does.{Does, DoesPurely, DoesAnywhere, DoesWithHost, DoesBesideWithHost, DoesAnywhereWithHost};
ghost use Rattle.rip_values.specs.Builtins.{number_of};
ghost use Rattle.rip_builtins.specs.Builtins.{builtin};
ghost use Rattle.rip_eval_language.specs.Rows.Host.{asks_call};
ghost use Rattle.rip_eval_language.specs.Rows.Expressions.{gives, with_outcome};
ghost use Rattle.rip_eval_language.specs.Rows.Calls.{answered_by, answerer_of, builtin_callable, builtin_called, call_on_other, call_row, call_through, callable, called, charged, enters, running, with_callee, callee};
ghost use Rattle.rip_eval_language.specs.Table.{hosted_rest};
ghost use Rattle.rip_eval_language.specs.Rows.Functions.{body};
ghost use Rattle.rip_eval_language.specs.Rows.Statements.{statements};
ghost use Rattle.rip_eval_rows.specs.Frame.{inside};

use crate::functions::{enter_function, parameters};
use crate::statement::{ended, first_statement};
use rip_base::{Fault, Limit, Value};
use rip_builtins::builtin;
use rip_eval_language::answers::{Answer, abrupt, ask_call, ask_hosted, end, give, halt, throw};
use rip_eval_language::{Answerer, Invocable, Source, value_of};
use rip_eval_rows::{Completion, Ending, HostedWait, Inner, Next, OwnWait, Part, Role, Stop, Wait};
use rip_heap::{Class, Heap, Host};
use rip_ops::access::builtin_of;
use rip_values::{Builtin, BuiltinHome};
use std::alloc::Global;
use std::slice;

// WHAT CAN BE CALLED

/// What a value is to a call: a function of the script, one that is built in, or nothing that can be called.
pub fn callable(heap: &Heap, v: &Value) -> Invocable
    ensures { result ≡ callable heap.now v.now }
{
    match v {
        Value::Object(n) => match heap.function(*n) {
            Some((f, scope)) => Invocable::OfScript(f, scope),
            None => builtin_callable(builtin_of(*n)),
        },
        _ => Invocable::NotCallable,
    }
}

fn builtin_callable(b: Option<Builtin>) -> Invocable
    ensures { result ≡ builtin_callable b }
{
    match b {
        Some(b) => if b.is_function() {
            Invocable::OfBuiltin(b)
        } else {
            Invocable::NotCallable
        },
        None => Invocable::NotCallable,
    }
}

fn answerer_of(b: Builtin) -> Answerer
    ensures { result ≡ answerer_of b }
{
    match b.home() {
        BuiltinHome::Function => Answerer::Evaluator,
        BuiltinHome::Ripley | BuiltinHome::Document | BuiltinHome::Node | BuiltinHome::Event => {
            Answerer::HostItself
        },
        _ => Answerer::BuiltinTable,
    }
}

// FUNCTIONS OF THE SCRIPT

/// The function that runs inside the open part.
pub fn running(f: u32, scope: u32, this: &Value) -> Inner
    ensures { result ≡ running f scope this.now }
{
    Inner {
        node: f,
        scope,
        this: *this,
        role: Role::Value,
    }
}

/// Enters a function of the script.
pub(crate) fn enter(
    p: &Source,
    heap: &mut Heap,
    at: &Part,
    function: (u32, u32),
    this: &Value,
    args: &[Value],
    ending: Ending,
) -> Next
    ensures row { Does p.now at.now result heap.new
        (enters p.now at.now function.0 function.1 this.now args.now ending heap.old) }
    ensures grows { Grows heap.old heap.new }
{
    if at.room.saturating_sub(1) == 0 {
        return halt(Stop::Limit(Limit::Depth));
    }
    let (f, scope) = function;
    match enter_function(p, heap, f, scope, args) {
        Some(made) => call_statements(p, at, &running(f, made, this), ending),
        None => halt(Stop::Limit(Limit::Cells)),
    }
}

/// The statements of a function that runs inside the open part.
pub fn call_statements(p: &Source, at: &Part, function: &Inner, ending: Ending) -> Next
    requires { 0 < at.now.room - 1 }
    ensures row { DoesPurely p.now at.now result
        (statements p.now (inside at.now function.now) ending (body p.now function.now.node)) }
{
    let running = at.inside(function);
    match first_statement(p, &running, parameters(p, function.node)) {
        Some(s) => {
            let wait = OwnWait::Statement {
                place: s.place,
                ending,
            };
            Next::Call(*function, s.node, Wait::Own(wait))
        },
        None => end(&ended(ending, Completion::Normal(Value::Undefined))),
    }
}

// BUILT-IN FUNCTIONS

/// Charges the arguments of a built-in function, or answers the limit at which the run stops.
pub(crate) fn charge(heap: &mut Heap, args: &[Value]) -> Result<(), Limit>
    ensures charged { MatchResult result
        (λ _. (go : World → Row) → charged (length args.now) heap.old go ≡ go heap.new)
        (λ limit. (go : World → Row) → charged (length args.now) heap.old go
        ≡ Halts (Stop.Limit limit) heap.new) }
    ensures grows { Grows heap.old heap.new }
{
    if args.len() > heap.free_cells() as usize {
        return Err(Limit::Cells);
    }
    heap.charge(args.len() as u32)
}

/// What the table of built-in functions answers.
pub(crate) fn call_table(
    alloc: Global,
    heap: &mut Heap,
    b: Builtin,
    this: &Value,
    args: &[Value],
) -> Next
    ensures row { DoesAnywhere result heap.new (with_outcome (builtin heap.old b this.now args.now)
        heap.old gives) }
    ensures grows { Grows heap.old heap.new }
{
    match builtin(alloc, heap, b, *this, args) {
        Ok(v) => give(v),
        Err(cause) => abrupt(alloc, heap, cause),
    }
}

/// `call` is a call of functions of the script alone.
fn call_on_other(alloc: Global, heap: &mut Heap, this: &Value) -> Next
    ensures row { DoesAnywhere result heap.new (call_on_other this.now heap.old) }
    ensures grows { Grows heap.old heap.new }
{
    match this {
        Value::Undefined | Value::Null => throw(alloc, heap, Class::ThrownTypeError),
        _ => halt(Stop::Fault(Fault::NotInProfile)),
    }
}

/// The first argument, which is undefined where it is missing, and the others.
fn first_and_rest(args: &[Value]) -> (Value, &[Value])
    ensures first { result.0 ≡ slice_index_or args.now 0 Undefined }
    ensures rest { result.1.now ≡ drop 1 args.now }
{
    if args.is_empty() {
        return (Value::Undefined, &[]);
    }
    (args[0], &args[1..])
}

/// The call that `call` makes, with its first argument as `this`.
fn call_through(p: &Source, heap: &mut Heap, at: &Part, this: &Value, args: &[Value]) -> Next
    ensures row { Does p.now at.now result heap.new
        (call_through p.now at.now (callable heap.old this.now) this.now args.now heap.old) }
    ensures grows { Grows heap.old heap.new }
{
    match callable(heap, this) {
        Invocable::OfScript(f, scope) => {
            let (first, rest) = first_and_rest(args);
            enter(p, heap, at, (f, scope), &first, rest, Ending::Call)
        },
        _ => call_on_other(p.alloc(), heap, this),
    }
}

/// The own work of a built-in function, whose arguments are charged.
fn answer_builtin<H: Host>(
    p: &Source,
    heap: &mut Heap,
    host: &mut H,
    at: &Part,
    b: Builtin,
    this: &Value,
    args: &[Value],
) -> Answer
    requires { H.fits host.old heap.old }
    ensures row { DoesWithHost H.answers p.now at.now result heap.new host.new
        (answered_by p.now at.now (answerer_of b) b this.now args.now heap.old) host.old }
    ensures memory { OnErr result (IsTrue H.may_want_memory) }
    ensures fits { H.fits host.new heap.new }
    ensures grows { Grows heap.old heap.new }
{
    match answerer_of(b) {
        Answerer::Evaluator => Ok(call_through(p, heap, at, this, args)),
        Answerer::BuiltinTable => Ok(call_table(p.alloc(), heap, b, this, args)),
        Answerer::HostItself => call_host(p.alloc(), heap, host, b, this, args),
    }
}

/// The call of a built-in function.
fn call_builtin<H: Host>(
    p: &Source,
    heap: &mut Heap,
    host: &mut H,
    at: &Part,
    b: Builtin,
    this: &Value,
    args: &[Value],
) -> Answer
    requires { H.fits host.old heap.old }
    ensures row { DoesWithHost H.answers p.now at.now result heap.new host.new
        (builtin_called p.now at.now b this.now args.now heap.old) host.old }
    ensures memory { OnErr result (IsTrue H.may_want_memory) }
    ensures fits { H.fits host.new heap.new }
    ensures grows { Grows heap.old heap.new }
{
    match charge(heap, args) {
        Ok(()) => answer_builtin(p, heap, host, at, b, this, args),
        Err(limit) => Ok(halt(Stop::Limit(limit))),
    }
}

/// What a built-in function does that was called from outside, with its arguments beside the frame.
pub fn after_called<H: Host>(
    p: &Source,
    heap: &mut Heap,
    host: &mut H,
    at: &Part,
    function: Builtin,
    this: &Value,
    values: &[Value],
) -> Answer
    requires { H.fits host.old heap.old }
    ensures row { DoesBesideWithHost H.answers p.now at.now values.now result heap.new host.new
        (answered_by p.now at.now (answerer_of function) function this.now values.now heap.old)
        host.old }
    ensures memory { OnErr result (IsTrue H.may_want_memory) }
    ensures fits { H.fits host.new heap.new }
    ensures grows { Grows heap.old heap.new }
{
    answer_builtin(p, heap, host, at, function, this, values)
}

/// What the host answers.
fn call_host<H: Host>(
    alloc: Global,
    heap: &mut Heap,
    host: &mut H,
    b: Builtin,
    this: &Value,
    args: &[Value],
) -> Answer
    requires { H.fits host.old heap.old }
    ensures row { DoesAnywhereWithHost H.answers result heap.new host.new
        (asks_call (number_of b) this.now args.now heap.old gives) host.old }
    ensures memory { OnErr result (IsTrue H.may_want_memory) }
    ensures fits { H.fits host.new heap.new }
    ensures grows { Grows heap.old heap.new }
{
    match ask_call(alloc, heap, host, b.number(), *this, args)? {
        Ok(v) => Ok(give(v)),
        Err(next) => Ok(next),
    }
}

// CALLS

/// The arguments of a call, the last of which has come: all of them, where others are beside the frame.
pub(crate) fn arguments<'a>(values: &'a [Value], v: &'a Value, all: &'a [Value]) -> &'a [Value]
    requires { 0 < length values.now
        → AreTogether values.now (Completion.Normal v.now) all.now }
    ensures { result.now ≡ values.now ++ v.now ∷ [] }
{
    if values.is_empty() {
        return slice::from_ref(v);
    }
    all
}

/// The call of a value on `this` with these arguments.
fn called<H: Host>(
    p: &Source,
    heap: &mut Heap,
    host: &mut H,
    at: &Part,
    callee: &Value,
    this: &Value,
    args: &[Value],
) -> Answer
    requires { H.fits host.old heap.old }
    ensures row { DoesWithHost H.answers p.now at.now result heap.new host.new
        (called p.now at.now callee.now this.now args.now heap.old) host.old }
    ensures memory { OnErr result (IsTrue H.may_want_memory) }
    ensures fits { H.fits host.new heap.new }
    ensures grows { Grows heap.old heap.new }
{
    match callable(heap, callee) {
        Invocable::OfScript(f, scope) => {
            Ok(enter(p, heap, at, (f, scope), this, args, Ending::Call))
        },
        Invocable::OfBuiltin(b) => call_builtin(p, heap, host, at, b, this, args),
        Invocable::NotCallable => Ok(throw(p.alloc(), heap, Class::ThrownTypeError)),
    }
}

/// The child that is called.
fn callee(p: &Source, at: &Part) -> Inner
    ensures { result ≡ callee p.now at.now }
{
    let called = p.part_at(at, 0);
    Inner {
        role: Role::Callee,
        ..called
    }
}

/// A call begins with what it calls (11.2.3).
pub fn begin_call(p: &Source, at: &Part) -> Next
    ensures row { DoesPurely p.now at.now result (call_row p.now at.now) }
{
    ask_hosted(callee(p, at), HostedWait::Callee)
}

/// A function and the value of `this` for its call.
#[derive(Drop)]
struct Method {
    function: Value,
    this: Value,
}

/// What a callee is; any other completion ends the call.
fn method_of(c: &Completion) -> Option<Method>
    ensures { MatchOption result ((w : World) (go : ScriptValue → ScriptValue → Row)
        → with_callee c.now w go ≡ Ends c.now w) (λ method.
        (w : World) (go : ScriptValue → ScriptValue → Row) → with_callee c.now w go
        ≡ go method.function method.this) }
{
    match c {
        Completion::Normal(function) => Some(Method {
            function: *function,
            this: Value::Undefined,
        }),
        Completion::Method { function, this } => Some(Method {
            function: *function,
            this: *this,
        }),
        _ => None,
    }
}

/// Behind what is called comes its first argument, or the call.
#[tactic(auto, using(rip_eval_language::proofs::Children::children_some, rip_eval_language::proofs::Children::children_none))]
pub fn after_callee<H: Host>(
    p: &Source,
    heap: &mut Heap,
    host: &mut H,
    at: &Part,
    c: &Completion,
) -> Answer
    requires { H.fits host.old heap.old }
    ensures row { DoesWithHost H.answers p.now at.now result heap.new host.new
        (hosted_rest p.now at.now HostedWait.Callee [] c.now heap.old) host.old }
    ensures memory { OnErr result (IsTrue H.may_want_memory) }
    ensures fits { H.fits host.new heap.new }
    ensures grows { Grows heap.old heap.new }
{
    let method = match method_of(c) {
        Some(method) => method,
        None => return Ok(end(c)),
    };
    match p.child_at(at.node, 1) {
        Some(a) => {
            let wait = HostedWait::Argument {
                place: 0,
                callee: method.function,
                this: method.this,
            };
            Ok(ask_hosted(at.inner(a), wait))
        },
        None => { called(p, heap, host, at, &method.function, &method.this, &[]) },
    }
}

/// Behind an argument comes the next one, or the call.
#[tactic(auto, using(rip_eval_language::proofs::Children::children_some, rip_eval_language::proofs::Children::children_none))]
pub fn after_argument<H: Host>(
    p: &Source,
    heap: &mut Heap,
    host: &mut H,
    at: &Part,
    place: u32,
    callee: &Value,
    this: &Value,
    values: &[Value],
    all: &[Value],
    c: &Completion,
) -> Answer
    requires fits { H.fits host.old heap.old }
    requires all { 0 < length values.now → AreTogether values.now c.now all.now }
    ensures row { DoesBesideWithHost H.answers p.now at.now values.now result heap.new host.new
        (hosted_rest p.now at.now (HostedWait.Argument place callee.now this.now) values.now c.now
        heap.old) host.old }
    ensures memory { OnErr result (IsTrue H.may_want_memory) }
    ensures fits { H.fits host.new heap.new }
    ensures grows { Grows heap.old heap.new }
{
    match value_of(c) {
        Some(v) => match p.child_at(at.node, p.behind(place, 2)) {
            Some(a) => {
                let wait = HostedWait::Argument {
                    place: place + 1,
                    callee: *callee,
                    this: *this,
                };
                Ok(Next::Keep(at.inner(a), Wait::Hosted(wait), v))
            },
            None => {
                let args = arguments(values, &v, all);
                called(p, heap, host, at, callee, this, args)
            },
        },
        None => Ok(end(c)),
    }
}
