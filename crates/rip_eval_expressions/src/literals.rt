ghost use Rattle.std.specs.Prelude.{◌≡◌, [], MatchResult};
ghost use Rattle.rip_heap.specs.Growth.{Grows};
ghost use Rattle.rip_heap.specs.World.{World};
ghost use Rattle.rip_eval_rows.specs.Row.{Halts, Row};
ghost use Rattle.rip_eval_language.specs.Does.{Does, DoesPurely};
ghost use Rattle.rip_eval_language.specs.Reading.{children_from};
ghost use Rattle.rip_eval_language.specs.Rows.Literals.{array_row, elements, entries, entry_put, object_row};
ghost use Rattle.rip_eval_language.specs.Table.{own_rest};

use rip_base::{Fault, Refused, Value};
use rip_eval_language::answers::{ask, end, give, halt};
use rip_eval_language::{Source, value_of};
use rip_eval_rows::{Completion, Next, OwnWait, Part, Stop};
use rip_heap::{Heap, is_underscored};

// ARRAYS

/// The elements from this place on.
#[tactic(auto, using(rip_eval_language::proofs::Children::children_some, rip_eval_language::proofs::Children::children_none))]
fn elements(p: &Source, at: &Part, array: u32, place: u32) -> Next
    ensures row { DoesPurely p.now at.now result
        (elements p.now at.now array (children_from p.now at.now.node place)) }
{
    match p.child_at(at.node, place) {
        Some(e) => {
            let wait = OwnWait::Element { place, array };
            ask(at.inner(e), wait)
        },
        None => give(Value::Object(array)),
    }
}

/// A literal of an array begins with a new array (11.1.4).
pub fn begin_array(p: &Source, heap: &mut Heap, at: &Part) -> Next
    ensures row { Does p.now at.now result heap.new (array_row p.now at.now heap.old) }
    ensures grows { Grows heap.old heap.new }
{
    match heap.new_array(p.alloc(), &[]) {
        Ok(array) => elements(p, at, array, 0),
        Err(Refused::Limit(limit)) => halt(Stop::Limit(limit)),
        Err(Refused::Memory) => unreachable!(),
    }
}

/// Behind an element it is put into the array, and the next one is asked for.
pub fn after_element(
    p: &Source,
    heap: &mut Heap,
    at: &Part,
    place: u32,
    array: u32,
    c: &Completion,
) -> Next
    ensures row { Does p.now at.now result heap.new
        (own_rest p.now at.now (OwnWait.Element place array) [] c.now heap.old) }
    ensures grows { Grows heap.old heap.new }
{
    match value_of(c) {
        Some(v) => match heap.push_item(p.alloc(), array, v) {
            Ok(()) => elements(p, at, array, p.behind(place, 1)),
            Err(Refused::Limit(limit)) => halt(Stop::Limit(limit)),
            Err(Refused::Memory) => unreachable!(),
        },
        None => end(c),
    }
}

// OBJECTS

/// The entries from this place on.
#[tactic(auto, using(rip_eval_language::proofs::Children::children_some, rip_eval_language::proofs::Children::children_none))]
fn entries(p: &Source, at: &Part, object: u32, place: u32) -> Next
    ensures row { DoesPurely p.now at.now result
        (entries p.now at.now object (children_from p.now at.now.node place)) }
{
    match p.child_at(at.node, place) {
        Some(e) => {
            let wait = OwnWait::Entry { place, object };
            ask(at.inner(p.child(e, 0)), wait)
        },
        None => give(Value::Object(object)),
    }
}

/// A literal of an object begins with a new object (11.1.5).
pub fn begin_object(p: &Source, heap: &mut Heap, at: &Part) -> Next
    ensures row { Does p.now at.now result heap.new (object_row p.now at.now heap.old) }
    ensures grows { Grows heap.old heap.new }
{
    match heap.new_object(p.alloc(), None) {
        Ok(object) => entries(p, at, object, 0),
        Err(Refused::Limit(limit)) => halt(Stop::Limit(limit)),
        Err(Refused::Memory) => unreachable!(),
    }
}

/// Puts the value of an entry under its key, or answers why the run stops.
fn put_entry(p: &Source, heap: &mut Heap, object: u32, e: u32, v: Value) -> Result<(), Stop>
    ensures put { MatchResult result
        (λ _. (go : World → Row) → entry_put p.now object e v heap.old go ≡ go heap.new)
        (λ stop. (go : World → Row) → entry_put p.now object e v heap.old go
        ≡ Halts stop heap.new) }
    ensures grows { Grows heap.old heap.new }
{
    let name = p.literal(e);
    if is_underscored(heap.pool().get(name)) {
        return Err(Stop::Fault(Fault::NotInProfile));
    }
    match heap.put(p.alloc(), object, name, v) {
        Ok(()) => Ok(()),
        Err(Refused::Limit(limit)) => Err(Stop::Limit(limit)),
        Err(Refused::Memory) => unreachable!(),
    }
}

/// Behind the value of an entry it is put into the object, and the next one is asked for.
pub fn after_entry(
    p: &Source,
    heap: &mut Heap,
    at: &Part,
    place: u32,
    object: u32,
    c: &Completion,
) -> Next
    ensures row { Does p.now at.now result heap.new
        (own_rest p.now at.now (OwnWait.Entry place object) [] c.now heap.old) }
    ensures grows { Grows heap.old heap.new }
{
    match value_of(c) {
        Some(v) => match put_entry(p, heap, object, p.child(at.node, place), v) {
            Ok(()) => entries(p, at, object, p.behind(place, 1)),
            Err(stop) => halt(stop),
        },
        None => end(c),
    }
}
