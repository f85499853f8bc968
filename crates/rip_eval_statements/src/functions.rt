ghost use Rattle.std.specs.Prelude.{◌≡◌, ◌+◌, ◌*◌, ◌<◌, ◌≤◌, ◌^◌, true, ⊤, Some, None, MatchOption, nat_le};
ghost use Rattle.rip_heap.specs.Growth.{Grows};
ghost use Rattle.rip_heap.specs.World.{cost_of_function, cost_of_scope};
ghost use Rattle.rip_eval_language.specs.Does.{Does};
ghost use Rattle.rip_eval_language.specs.Reading.{children_from, scoping};
ghost use Rattle.rip_eval_language.specs.Rows.Functions.{body, cost_of_entering, declared_functions, function_entered, function_named, function_row, has_name, parameters, parameters_of, scope_made, with_arguments, with_function, with_functions, with_undefined};

use rip_base::{Refused, Value};
use rip_eval_language::answers::{give, halt};
use rip_eval_language::{Source, bind, is_declaration};
use rip_eval_rows::{Next, Part, Stop};
use rip_heap::Heap;
use rip_tree::Form;

// FUNCTION EXPRESSIONS

fn has_name(form: Form) -> bool
    ensures { result ≡ has_name form }
{
    match form {
        Form::Function(head) => head.name.is_some(),
        _ => false,
    }
}

/// An expression of a function makes it (13).
pub fn begin_function(p: &Source, heap: &mut Heap, at: &Part) -> Next
    ensures row { Does p.now at.now result heap.new (function_row p.now at.now heap.old) }
    ensures grows { Grows heap.old heap.new }
{
    if has_name(p.form(at.node)) {
        return begin_named(p, heap, at);
    }
    match heap.new_function(p.alloc(), at.node, at.scope) {
        Ok(function) => give(Value::Object(function)),
        Err(Refused::Limit(limit)) => halt(Stop::Limit(limit)),
        Err(Refused::Memory) => unreachable!(),
    }
}

/// A function expression with a name, which it has in a scope of its own.
fn begin_named(p: &Source, heap: &mut Heap, at: &Part) -> Next
    ensures row { Does p.now at.now result heap.new (function_named at.now true heap.old) }
    ensures grows { Grows heap.old heap.new }
{
    match heap.new_scope(p.alloc(), Some(at.scope), 1) {
        Ok(scope) => match heap.new_function(p.alloc(), at.node, scope) {
            Ok(function) => {
                heap.set_binding(scope, 0, Value::Object(function));
                give(Value::Object(function))
            },
            Err(Refused::Limit(limit)) => halt(Stop::Limit(limit)),
            Err(Refused::Memory) => unreachable!(),
        },
        Err(Refused::Limit(limit)) => halt(Stop::Limit(limit)),
        Err(Refused::Memory) => unreachable!(),
    }
}

// ENTERING

fn parameters_of(form: Form) -> u32
    ensures { result ≡ parameters_of form }
{
    match form {
        Form::FunctionDeclaration(head) => head.parameters,
        Form::Function(head) => head.parameters,
        _ => 0,
    }
}

/// How many children of a function are parameters.
pub(crate) fn parameters(p: &Source, f: u32) -> u32
    ensures { result ≡ parameters p.now f }
{
    parameters_of(p.form(f))
}

/// How many of the children of a node are declarations of functions, from this place on.
#[tactic(auto, using(rip_eval_language::proofs::Children::children_some, rip_eval_language::proofs::Children::children_none))]
pub(crate) fn count_declared(p: &Source, id: u32, from: u32) -> u32
    ensures { result ≡ declared_functions p.now (children_from p.now id from) }
{
    let mut count = 0;
    let mut place = from;
    while let Some(f) = p.child_at(id, place) {
        if is_declaration(p.form(f)) {
            count += 1;
        }
        place += 1;
    }
    count
}

/// Makes and binds a function that is declared.
#[tactic(auto, using(crate::proofs::Filling::bound_cells))]
fn declare_function(p: &Source, heap: &mut Heap, scope: u32, f: u32)
    requires room { heap.old.cells + cost_of_function ≤ heap.old.limit }
    ensures declared { with_function p.now scope f heap.old ≡ Some heap.new }
    ensures charged { heap.new.cells ≡ heap.old.cells + cost_of_function }
    ensures grows { Grows heap.old heap.new }
{
    let function = heap.new_function(p.alloc(), f, scope).unwrap();
    bind(heap, scope, p.scoping(f).resolved, Value::Object(function));
}

/// Makes and binds the functions that are declared among the children of a node, from this place on.
#[tactic(auto, using(rip_eval_language::proofs::Children::children_some, rip_eval_language::proofs::Children::children_none))]
pub(crate) fn declare_functions(p: &Source, heap: &mut Heap, scope: u32, id: u32, from: u32)
    requires room { heap.old.cells
        + cost_of_function * declared_functions p.now (children_from p.now id from)
        ≤ heap.old.limit }
    ensures declared { with_functions p.now scope (children_from p.now id from) heap.old
        ≡ Some heap.new }
    ensures grows { Grows heap.old heap.new }
{
    let mut place = from;
    while let Some(f) = p.child_at(id, place) {
        if is_declaration(p.form(f)) {
            declare_function(p, heap, scope, f);
        }
        place += 1;
    }
}

/// A new scope of a function, where so many arguments are charged, and none of its names is bound yet.
fn make_scope(p: &Source, heap: &mut Heap, f: u32, outer: u32, args: u32) -> u32
    requires room { heap.old.cells + (args + cost_of_scope (scoping p.now f).names)
        ≤ heap.old.limit }
    ensures made { scope_made p.now f outer args heap.old ≡ Some (result, heap.new) }
    ensures charged { heap.new.cells
        ≡ heap.old.cells + (args + cost_of_scope (scoping p.now f).names) }
    ensures grows { Grows heap.old heap.new }
{
    heap.charge(args).unwrap();
    heap.new_scope(p.alloc(), Some(outer), p.scoping(f).names)
        .unwrap()
}

/// Gives the first so many bindings of a scope the value undefined.
#[tactic(auto, using(crate::proofs::Filling::undefined_none, crate::proofs::Filling::undefined_more))]
fn set_undefined(heap: &mut Heap, scope: u32, names: u32)
    ensures set { heap.new ≡ with_undefined scope names heap.old }
    ensures grows { Grows heap.old heap.new }
{
    for place in 0..names {
        heap.set_binding(scope, place, Value::Undefined);
    }
}

/// Binds the parameters of a function to the arguments; one that is missing is undefined. The other names are undefined.
#[tactic(auto, using(crate::proofs::Filling::arguments_none, crate::proofs::Filling::arguments_more, crate::proofs::Filling::filling_cells))]
fn fill_scope(p: &Source, heap: &mut Heap, f: u32, scope: u32, args: &[Value])
    ensures filled { heap.new ≡ with_arguments p.now f scope args.now (parameters p.now f)
        (with_undefined scope (scoping p.now f).names heap.old) }
    ensures charged { heap.new.cells ≡ heap.old.cells }
    ensures grows { Grows heap.old heap.new }
{
    set_undefined(heap, scope, p.scoping(f).names);
    for n in 0..parameters(p, f) {
        let name = p.scoping(p.child(f, n)).resolved;
        let v = args.get(n as usize).copied().unwrap_or(Value::Undefined);
        bind(heap, scope, name, v);
    }
}

/// Whether what entering a function with so many arguments costs can be charged, where it declares so many functions.
fn entering_fits(p: &Source, heap: &Heap, f: u32, args: usize, declared: u32) -> bool
    requires { declared ≡ declared_functions p.now (body p.now f) }
    ensures fits { result ≡ nat_le (heap.now.cells + cost_of_entering p.now f args)
        heap.now.limit }
    ensures few { result ≡ true → args < 2 ^ 32 }
{
    let free = heap.free_cells();
    if args > free as usize {
        return false;
    }
    args as u64 + (1 + u64::from(p.scoping(f).names)) + 4 * u64::from(declared) <= u64::from(free)
}

/// The scope of a function that is entered; none where the charge would pass the limit, and then all is as before.
#[tactic(auto, using(crate::proofs::Filling::none_declared))]
pub fn enter_function(
    p: &Source,
    heap: &mut Heap,
    f: u32,
    scope: u32,
    args: &[Value],
) -> Option<u32>
    ensures entered { MatchOption result (function_entered p.now f scope args.now heap.old ≡ None)
        (λ s. function_entered p.now f scope args.now heap.old ≡ Some (s, heap.new)) }
    ensures kept { MatchOption result (heap.new ≡ heap.old) (λ _. ⊤) }
    ensures grows { Grows heap.old heap.new }
{
    let first = parameters(p, f);
    let declared = count_declared(p, f, first);
    if !entering_fits(p, heap, f, args.len(), declared) {
        return None;
    }
    let made = make_scope(p, heap, f, scope, args.len() as u32);
    fill_scope(p, heap, f, made, args);
    if declared > 0 {
        declare_functions(p, heap, made, f, first);
    }
    Some(made)
}
