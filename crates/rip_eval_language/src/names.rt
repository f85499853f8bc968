ghost use Rattle.std.specs.Prelude.{◌≡◌, Ok, Err, OnErr, MatchResult};
ghost use Rattle.rip_heap.specs.Growth.{Grows};
ghost use Rattle.rip_eval_language.specs.Rows.Expressions.{target_found};
ghost use Rattle.rip_eval_language.specs.Rows.Names.{bound, found, scope_up, written};

use crate::source::Source;
use rip_base::Value;
use rip_eval_rows::Part;
use rip_heap::{Class, Heap};
use rip_tree::{Resolved, Scoping};

/// The scope so many scopes further out.
#[tactic(auto, using(crate::proofs::Scopes::scope_up_none, crate::proofs::Scopes::scope_up_more))]
fn scope_up(heap: &Heap, scope: u32, up: u32) -> u32
    ensures { result ≡ scope_up heap.now scope up }
{
    let mut at = scope;
    for _i in 0..up {
        at = heap.scope_parent(at).unwrap_or(0);
    }
    at
}

/// What a name means from this scope on, or none where it is not bound yet.
pub fn found(heap: &Heap, scope: u32, name: &Option<Resolved>) -> Option<Value>
    ensures { result ≡ found heap.now scope name.now }
{
    match *name {
        Some(Resolved::Binding { up, place }) => heap.binding(scope_up(heap, scope, up), place),
        Some(Resolved::Global(global)) => Some(global.value()),
        None => Some(Value::Undefined),
    }
}

/// What the target of a node means.
pub fn target_found(p: &Source, heap: &Heap, at: &Part) -> Option<Value>
    ensures { result ≡ target_found p.now at.now heap.now }
{
    found(heap, at.scope, p.resolved(p.child(at.node, 0)))
}

/// Writes a value to what a name means from this scope on, or answers the class of the error to be thrown.
pub fn write(heap: &mut Heap, scope: u32, scoping: Scoping, v: Value) -> Result<(), Class>
    ensures written { MatchResult result (λ _. written heap.old scope scoping v ≡ Ok heap.new)
        (λ class. written heap.old scope scoping v ≡ Err class) }
    ensures kept { OnErr result (heap.new ≡ heap.old) }
    ensures grows { Grows heap.old heap.new }
{
    if scoping.is_own {
        return Err(Class::ThrownTypeError);
    }
    match scoping.resolved {
        Some(Resolved::Binding { up, place }) => {
            let target = scope_up(heap, scope, up);
            if heap.rebind(target, place, v) {
                Ok(())
            } else {
                Err(Class::ThrownReferenceError)
            }
        },
        _ => Ok(()),
    }
}

/// Gives a binding a value, whether it has one or not.
pub fn bind(heap: &mut Heap, scope: u32, name: Option<Resolved>, v: Value)
    ensures bound { heap.new ≡ bound heap.old scope name v }
    ensures grows { Grows heap.old heap.new }
{
    if let Some(Resolved::Binding { up, place }) = name {
        let target = scope_up(heap, scope, up);
        heap.set_binding(target, place, v);
    }
}
