ghost use Rattle.std.specs.Prelude.{◌≡◌, ℕ, ◌<◌, IfSome};
ghost use Rattle.rip_heap.specs.World.{World};
ghost use Rattle.rip_eval_rows.specs.Row.{Ends};
ghost use Rattle.rip_eval_in_place.specs.AddedTexts.{AddsTexts};
ghost use Rattle.rip_eval_in_place.specs.InPlace.{IsDoneWithin, IsHad, IsTried, IsWithin, RowIsTried};
ghost use Rattle.rip_eval_language.specs.Reading.{Loaded, literal, target_at};
ghost use Rattle.rip_eval_language.specs.Rows.Members.{index_row, member_for, member_row, subscript_end, with_base};

use crate::had::{Had, had_inside, had_part, key_had, read_had};
use rip_base::Value;
use rip_eval_language::Source;
use rip_eval_rows::{Completed, Completion, Part, Role};
use rip_heap::{Heap, Key, Reference};
use rip_tree::Form;

/// What a part comes to for which some depth is left, where it changes nothing but adds texts, and can be had in place:
/// what it means as a target, its value and the base for a call, or else its value. Of any part it may be none.
pub(crate) fn done_reference(
    p: &Source,
    heap: &mut Heap,
    at: &Part,
    height: u32,
    left: u64,
) -> Option<Completed>
    requires some { 0 < at.now.room }
    requires unit { 0 < left }
    ensures done { IsTried p.now at.now heap.old result heap.new }
    ensures texts { AddsTexts heap.old heap.new }
    ensures within { IsDoneWithin left result }
{
    match p.form(at.node) {
        Form::Member(_) => done_member(p, heap, at, height, left),
        Form::Index => done_index(p, heap, at, height, left),
        _ => valued(had_part(p, heap, at, height, left)),
    }
}

/// A value that was had, as a completion.
pub(crate) fn valued(had: Option<Had>) -> Option<Completed>
    ensures done { (p : Loaded) (at : Part) (w x : World) → IsHad p at w had x → AddsTexts w x
        → IsTried p at w result x }
    ensures within { (left : ℕ) → IsWithin left had → IsDoneWithin left result }
{
    match had {
        Some(had) => Some(Completed {
            completion: Completion::Normal(had.value),
            units: had.units,
        }),
        None => None,
    }
}

/// What the target of a node means, where it is a member.
pub(crate) fn done_target(
    p: &Source,
    heap: &mut Heap,
    at: &Part,
    height: u32,
    left: u64,
) -> Option<Completed>
    ensures done { IsTried p.now (target_at p.now at.now 0) heap.old result heap.new }
    ensures texts { AddsTexts heap.old heap.new }
    ensures within { IsDoneWithin left result }
{
    if height == 0 || left == 0 || at.room < 2 {
        return None;
    }
    done_reference(p, heap, &at.inside(&p.target_at(at, 0)), height - 1, left)
}

// MEMBERS

fn done_member(p: &Source, heap: &mut Heap, at: &Part, height: u32, left: u64) -> Option<Completed>
    requires unit { 0 < left }
    ensures done { RowIsTried p.now (member_row p.now at.now heap.old) heap.old result heap.new }
    ensures texts { AddsTexts heap.old heap.new }
    ensures within { IsDoneWithin left result }
{
    match had_inside(p, heap, at, p.child(at.node, 0), height, left - 1) {
        Some(base) => match named_end(p, heap, at, &base.value) {
            Some(completion) => Some(Completed {
                completion,
                units: 1 + base.units,
            }),
            None => None,
        },
        None => None,
    }
}

fn done_index(p: &Source, heap: &mut Heap, at: &Part, height: u32, left: u64) -> Option<Completed>
    requires unit { 0 < left }
    ensures done { RowIsTried p.now (index_row p.now at.now heap.old) heap.old result heap.new }
    ensures texts { AddsTexts heap.old heap.new }
    ensures within { IsDoneWithin left result }
{
    let base = match had_inside(p, heap, at, p.child(at.node, 0), height, left - 1) {
        Some(base) => base,
        None => return None,
    };
    let subscript = p.child(at.node, 1);
    match had_inside(p, heap, at, subscript, height, left - 1 - base.units) {
        Some(key) => match subscript_end(heap, at, &base.value, &key.value) {
            Some(completion) => Some(Completed {
                completion,
                units: 1 + base.units + key.units,
            }),
            None => None,
        },
        None => None,
    }
}

/// What the member comes to that a name names, where the host has not to be asked.
fn named_end(p: &Source, heap: &Heap, at: &Part, base: &Value) -> Option<Completion>
    ensures { IfSome result (λ c. with_base base.now heap.now (member_for at.now.role base.now
        (Key.Name (literal p.now at.now.node)) heap.now) ≡ Ends c heap.now) }
{
    match base {
        Value::Undefined | Value::Null => None,
        _ => member_end(heap, at.role, base, Key::Name(p.literal(at.node))),
    }
}

/// The same of a member that the value of an expression names.
fn subscript_end(heap: &Heap, at: &Part, base: &Value, key: &Value) -> Option<Completion>
    ensures { IfSome result (λ c. subscript_end at.now base.now (Completion.Normal key.now) heap.now
        ≡ Ends c heap.now) }
{
    match key_had(heap, *base, *key) {
        Some(key) => member_end(heap, at.role, base, key),
        None => None,
    }
}

/// What a member comes to by its key.
fn member_end(heap: &Heap, role: Role, base: &Value, key: Key) -> Option<Completion>
    ensures { IfSome result (λ c. member_for role base.now key heap.now ≡ Ends c heap.now) }
{
    match role {
        Role::Target => Some(Completion::Referred(Reference { base: *base, key })),
        Role::Value => match read_had(heap, *base, key) {
            Some(v) => Some(Completion::Normal(v)),
            None => None,
        },
        Role::Callee => match read_had(heap, *base, key) {
            Some(function) => Some(Completion::Method {
                function,
                this: *base,
            }),
            None => None,
        },
    }
}
