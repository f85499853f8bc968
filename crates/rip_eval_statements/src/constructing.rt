ghost use Rattle.std.specs.Prelude.{◌≡◌, ◌<◌, [], length};
ghost use Rattle.rip_heap.specs.Growth.{Grows};
ghost use Rattle.rip_eval_language.specs.Does.{Does, DoesPurely, DoesBeside, DoesAnywhere};
ghost use Rattle.rip_eval_language.specs.Rows.Constructing.{constructed_from, constructs, made_by, making_of, new_row, plain_prototype, prototype_of};
ghost use Rattle.rip_eval_language.specs.Table.{own_rest};
ghost use Rattle.rip_eval_rows.specs.Room.{AreTogether};

use crate::calls::{arguments, call_table, callable, charge, enter};
use rip_base::{Fault, Refused, Value};
use rip_eval_language::answers::{ask, end, halt, throw};
use rip_eval_language::{Invocable, Making, Source, value_of};
use rip_eval_rows::{Completion, Ending, Next, OwnWait, Part, Stop, Wait};
use rip_heap::{Class, Heap};
use rip_ops::access::{Base, base_of};
use rip_values::{Builtin, FixedText};
use std::alloc::Global;

fn making_of(b: Builtin) -> Making
    ensures { result ≡ making_of b }
{
    match b {
        Builtin::Error | Builtin::TypeError | Builtin::RangeError => Making::Errors,
        Builtin::String | Builtin::Number => Making::OutsideProfile,
        _ => Making::Nothing,
    }
}

// PROTOTYPES

/// Of a plain object its number; another object is outside the profile as a prototype.
fn plain_prototype(base: Base) -> Result<Option<u32>, Fault>
    ensures { result ≡ plain_prototype base }
{
    match base {
        Base::Plain(n) => Ok(Some(n)),
        Base::Nothing | Base::Primitive | Base::Text(_) => Ok(None),
        _ => Err(Fault::NotInProfile),
    }
}

/// The prototype of what a function makes.
fn prototype_of(heap: &Heap, constructor: &Value) -> Result<Option<u32>, Fault>
    ensures { result ≡ prototype_of heap.now constructor.now }
{
    match constructor {
        Value::Object(n) => match heap.own(*n, FixedText::Prototype.span()) {
            Some(v) => plain_prototype(base_of(heap, v)),
            None => Ok(None),
        },
        _ => Ok(None),
    }
}

// NEW

/// A new object, on which a function of the script is called.
fn construct(
    p: &Source,
    heap: &mut Heap,
    at: &Part,
    function: (u32, u32),
    proto: Result<Option<u32>, Fault>,
    args: &[Value],
) -> Next
    ensures row { Does p.now at.now result heap.new
        (constructed_from p.now at.now function.0 function.1 args.now proto heap.old) }
    ensures grows { Grows heap.old heap.new }
{
    let proto = match proto {
        Ok(proto) => proto,
        Err(fault) => return halt(Stop::Fault(fault)),
    };
    match heap.new_object(p.alloc(), proto) {
        Ok(object) => {
            let this = Value::Object(object);
            let ending = Ending::Construct { object };
            enter(p, heap, at, function, &this, args, ending)
        },
        Err(Refused::Limit(limit)) => halt(Stop::Limit(limit)),
        Err(Refused::Memory) => unreachable!(),
    }
}

/// What `new` makes of a built-in function.
fn construct_builtin(alloc: Global, heap: &mut Heap, b: Builtin, args: &[Value]) -> Next
    ensures row { DoesAnywhere result heap.new (made_by (making_of b) b args.now heap.old) }
    ensures grows { Grows heap.old heap.new }
{
    match making_of(b) {
        Making::Errors => match charge(heap, args) {
            Ok(()) => call_table(alloc, heap, b, &Value::Undefined, args),
            Err(limit) => halt(Stop::Limit(limit)),
        },
        Making::OutsideProfile => halt(Stop::Fault(Fault::NotInProfile)),
        Making::Nothing => throw(alloc, heap, Class::ThrownTypeError),
    }
}

/// What `new` makes of a value with these arguments.
fn constructs(p: &Source, heap: &mut Heap, at: &Part, constructor: &Value, args: &[Value]) -> Next
    ensures row { Does p.now at.now result heap.new
        (constructs p.now at.now constructor.now args.now heap.old) }
    ensures grows { Grows heap.old heap.new }
{
    match callable(heap, constructor) {
        Invocable::OfScript(f, scope) => {
            let proto = prototype_of(heap, constructor);
            construct(p, heap, at, (f, scope), proto, args)
        },
        Invocable::OfBuiltin(b) => construct_builtin(p.alloc(), heap, b, args),
        Invocable::NotCallable => throw(p.alloc(), heap, Class::ThrownTypeError),
    }
}

/// `new` begins with its constructor (11.2.2).
pub fn begin_new(p: &Source, at: &Part) -> Next
    ensures row { DoesPurely p.now at.now result (new_row p.now at.now) }
{
    ask(p.part_at(at, 0), OwnWait::Constructor)
}

/// Behind the constructor comes its first argument, or the object is made.
#[tactic(auto, using(rip_eval_language::proofs::Children::children_some, rip_eval_language::proofs::Children::children_none))]
pub fn after_constructor(p: &Source, heap: &mut Heap, at: &Part, c: &Completion) -> Next
    ensures row { Does p.now at.now result heap.new
        (own_rest p.now at.now OwnWait.Constructor [] c.now heap.old) }
    ensures grows { Grows heap.old heap.new }
{
    match value_of(c) {
        Some(constructor) => match p.child_at(at.node, 1) {
            Some(a) => {
                let wait = OwnWait::NewArgument {
                    place: 0,
                    constructor,
                };
                ask(at.inner(a), wait)
            },
            None => { constructs(p, heap, at, &constructor, &[]) },
        },
        None => end(c),
    }
}

/// Behind an argument comes the next one, or the object is made.
#[tactic(auto, using(rip_eval_language::proofs::Children::children_some, rip_eval_language::proofs::Children::children_none))]
pub fn after_new_argument(
    p: &Source,
    heap: &mut Heap,
    at: &Part,
    place: u32,
    constructor: &Value,
    values: &[Value],
    all: &[Value],
    c: &Completion,
) -> Next
    requires all { 0 < length values.now → AreTogether values.now c.now all.now }
    ensures row { DoesBeside p.now at.now values.now result heap.new
        (own_rest p.now at.now (OwnWait.NewArgument place constructor.now) values.now c.now
        heap.old) }
    ensures grows { Grows heap.old heap.new }
{
    match value_of(c) {
        Some(v) => match p.child_at(at.node, p.behind(place, 2)) {
            Some(a) => {
                let wait = OwnWait::NewArgument {
                    place: place + 1,
                    constructor: *constructor,
                };
                Next::Keep(at.inner(a), Wait::Own(wait), v)
            },
            None => {
                let args = arguments(values, &v, all);
                constructs(p, heap, at, constructor, args)
            },
        },
        None => end(c),
    }
}
