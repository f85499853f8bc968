ghost use Rattle.std.specs.Prelude.{◌≡◌, ◌+◌, ◌≤◌, ◌∷◌, ◌++◌, [], None, false, is_some, length, replicate, slice_get, true};
ghost use Rattle.rip_heap_region.specs.declared.pages.for_rows.Row.TheVariants.{Bindings};
ghost use Rattle.rip_heap_region.specs.Pages.{filled, no_slot, with_row};
ghost use Rattle.rip_heap.specs.ScopeSlots.{AreScopes, binding_in, binding_of, bound, parent_in, scope_head_in, scopes_of, slot_of_scope, slot_of_value};
ghost use Rattle.rip_heap.specs.Scopes.{bindings_of, parent_of};

use rip_base::{Span, Value};
use rip_heap_region::pages::{Pages, Row, Slot};

/// The scope around a scope, and which part of the row of bindings are its own.
#[derive(Clone, Copy, Debug)]
pub struct ScopeHead {
    pub parent: Option<u32>,
    pub start: u32,
    pub count: u32,
}

/// The scope around the scope of that number.
pub(crate) fn parent_of(pages: &Pages, scope: u32) -> Option<u32>
    ensures { result ≡ parent_of (slice_get (scopes_of pages.now) scope) }
{
    if scope >= pages.len(Row::Scopes) {
        return None;
    }
    scope_head_in(pages.get(Row::Scopes, scope)).parent
}

/// How many bindings the scope of that number has.
pub(crate) fn names_of(pages: &Pages, scope: u32) -> u32
    requires scopes { AreScopes pages.now }
    ensures { result ≡ length (bindings_of (slice_get (scopes_of pages.now) scope)) }
{
    if scope >= pages.len(Row::Scopes) {
        return 0;
    }
    scope_head_in(pages.get(Row::Scopes, scope)).count
}

/// The value of the binding at this place of the scope of that number.
pub(crate) fn binding_at(pages: &Pages, scope: u32, place: u32) -> Option<Value>
    requires scopes { AreScopes pages.now }
    ensures { result ≡ binding_of (slice_get (scopes_of pages.now) scope) place }
{
    if scope >= pages.len(Row::Scopes) {
        return None;
    }
    let head = scope_head_in(pages.get(Row::Scopes, scope));
    if place >= head.count {
        return None;
    }
    // What is less than the length of the row is a `u32`.
    let _within = pages.len(Row::Bindings);
    binding_in(pages.get(Row::Bindings, head.start + place))
}

/// Gives the binding at this place of the scope of that number the value. Where there is none nothing
/// is changed.
pub(crate) fn bind_at(pages: &mut Pages, scope: u32, place: u32, v: Value)
    requires scopes { AreScopes pages.old }
    ensures row { pages.new ≡ with_row Bindings pages.new.bindings pages.old }
    ensures size { length pages.new.bindings ≡ length pages.old.bindings }
    ensures kept { AreScopes pages.new }
    ensures scopes { scopes_of pages.new
        ≡ bound (scopes_of pages.old) scope place v (slice_get (scopes_of pages.old) scope) }
{
    if scope >= pages.len(Row::Scopes) {
        return;
    }
    let head = scope_head_in(pages.get(Row::Scopes, scope));
    if place < head.count {
        // What is less than the length of the row is a `u32`.
        let _within = pages.len(Row::Bindings);
        pages.set(Row::Bindings, head.start + place, slot_of_value(v));
    }
}

/// Gives the binding at this place of the scope of that number the value, if it has one already, and tells whether it
/// has. The scope is looked up once.
pub(crate) fn rebind_at(pages: &mut Pages, scope: u32, place: u32, v: Value) -> bool
    requires scopes { AreScopes pages.old }
    ensures told { result
        ≡ is_some (binding_of (slice_get (scopes_of pages.old) scope) place) }
    ensures row { pages.new ≡ with_row Bindings pages.new.bindings pages.old }
    ensures size { length pages.new.bindings ≡ length pages.old.bindings }
    ensures kept { AreScopes pages.new }
    ensures scopes { result ≡ true → scopes_of pages.new
        ≡ bound (scopes_of pages.old) scope place v (slice_get (scopes_of pages.old) scope) }
    ensures same { result ≡ false → pages.new ≡ pages.old }
{
    if scope >= pages.len(Row::Scopes) {
        return false;
    }
    let head = scope_head_in(pages.get(Row::Scopes, scope));
    if place >= head.count {
        return false;
    }
    // What is less than the length of the row is a `u32`.
    let _within = pages.len(Row::Bindings);
    if binding_in(pages.get(Row::Bindings, head.start + place)).is_none() {
        return false;
    }
    pages.set(Row::Bindings, head.start + place, slot_of_value(v));
    true
}

/// Puts a scope behind the others, with so many bindings, none of which has a value yet.
pub(crate) fn push_scope(pages: &mut Pages, parent: Option<u32>, names: u32)
    requires scopes { AreScopes pages.old }
    requires room { filled pages.old + (1 + names) ≤ pages.old.room }
    ensures rows { pages.new
        ≡ record pages.old { scopes = pages.new.scopes; bindings = pages.new.bindings } }
    ensures paid { filled pages.new ≡ filled pages.old + (1 + names) }
    ensures kept { AreScopes pages.new }
    ensures scopes { scopes_of pages.new
        ≡ scopes_of pages.old ++ record { parent = parent; bindings = replicate names None } ∷ [] }
{
    let start = pages.len(Row::Bindings);
    push_blanks(pages, names);
    pages.push(Row::Scopes, slot_of_scope(parent, start, names));
}

// Puts so many slots without a value behind the bindings.
fn push_blanks(pages: &mut Pages, names: u32)
    requires room { filled pages.old + names ≤ pages.old.room }
    ensures { pages.new
        ≡ with_row Bindings (pages.old.bindings ++ replicate names no_slot) pages.old }
{
    for _ in 0..names {
        pages.push(Row::Bindings, Slot::BLANK);
    }
}

fn scope_head_in(slot: &Slot) -> ScopeHead
    ensures { result ≡ scope_head_in slot.now }
{
    ScopeHead {
        parent: parent_in(slot.value),
        start: slot.name.start,
        count: slot.name.count,
    }
}

fn parent_in(value: Value) -> Option<u32>
    ensures { result ≡ parent_in value }
{
    match value {
        Value::Object(scope) => Some(scope),
        _ => None,
    }
}

fn binding_in(slot: &Slot) -> Option<Value>
    ensures { result ≡ binding_in slot.now }
{
    if slot.link == 0 {
        None
    } else {
        Some(slot.value)
    }
}

fn slot_of_scope(parent: Option<u32>, start: u32, count: u32) -> Slot
    ensures { result ≡ slot_of_scope (record { parent = parent; start = start; count = count }) }
{
    let value = match parent {
        Some(scope) => Value::Object(scope),
        None => Value::Undefined,
    };
    Slot {
        value,
        name: Span { start, count },
        next: 0,
        link: 0,
    }
}

fn slot_of_value(value: Value) -> Slot
    ensures { result ≡ slot_of_value value }
{
    Slot {
        value,
        name: Span { start: 0, count: 0 },
        next: 0,
        link: 1,
    }
}
