ghost use Rattle.std.specs.Prelude.{◌≡◌, ◌↔◌, ◌+◌, ◌≤◌, ◌*◌, length, IsTrue, IfOk, OnErr, OnOk};
ghost use Rattle.rip_heap.specs.Growth.{Grows};
ghost use Rattle.rip_heap.specs.World.{World};
ghost use Rattle.rip_machine.specs.Back.{CutsTo};
ghost use Rattle.rip_machine.specs.Loading.{cost_of_literals, IsTextAt, StandsIfAny, TextsStand, form_cost, form_text, key_text, name_span, own_span, spans_loaded, values_needed, with_form, with_name, world_loaded};

use rip_base::{NoMemory, Span, text_of_whole};
use rip_heap::Heap;
use rip_tree::{Form, Key, Program};
use std::alloc::Global;

// THE COST OF LITERALS

/// What the text of a node costs, in units.
fn form_cost(program: &Program, form: &Form) -> usize
    ensures { result ≡ form_cost program.now.grove.units form.now }
{
    match form {
        Form::Text(literal) => program.units(literal.value).len(),
        _ => 0,
    }
}

/// Whether the text literals of a program together cost no more than this, in units.
#[tactic(auto, using(crate::proofs::Loads::cost_none, crate::proofs::Loads::cost_more))]
fn literals_fit(program: &Program, room: u32) -> bool
    ensures { IsTrue result ↔ (cost_of_literals program.now ≤ room) }
{
    let mut left = room;
    for id in 0..program.count() {
        let cost = form_cost(program, &program.node(id).form);
        if cost > left as usize {
            return false;
        }
        left -= cost as u32;
    }
    true
}

/// Whether the units used and the text literals of a program together pass no limit.
pub(crate) fn fits(program: &Program, heap: &Heap) -> bool
    ensures { IsTrue result ↔ (heap.now.pool.used + cost_of_literals program.now ≤
        heap.now.pool.limit) }
{
    match heap.pool().limit().checked_sub(heap.pool().used()) {
        Some(room) => literals_fit(program, room),
        None => false,
    }
}

// TEXTS

/// Adds a name, unless it is a fixed text, which stands in every pool.
fn add_name(alloc: Global, heap: &mut Heap, name: &[u16]) -> Result<Span, NoMemory>
    ensures span { IfOk result (λ span. span ≡ name_span (length heap.old.pool.units) name.now) }
    ensures added { OnOk result (heap.new ≡ with_name name.now heap.old) }
    ensures stands { IfOk result (IsTextAt heap.new.pool name.now) }
    ensures kept { OnErr result (heap.new ≡ heap.old) }
    ensures cells { heap.new.cells ≡ heap.old.cells }
    ensures grows { Grows heap.old heap.new }
{
    if let Some(span) = heap.pool().fixed(name) {
        return Ok(span);
    }
    heap.add_name(alloc, name)
}

/// Adds the key of an entry as a name.
fn add_key(alloc: Global, program: &Program, heap: &mut Heap, key: &Key) -> Result<Span, NoMemory>
    ensures span { IfOk result (λ span. span ≡ name_span (length heap.old.pool.units)
        (key_text program.now.grove.units key.now)) }
    ensures added { OnOk result
        (heap.new ≡ with_name (key_text program.now.grove.units key.now) heap.old) }
    ensures stands { IfOk result
        (IsTextAt heap.new.pool (key_text program.now.grove.units key.now)) }
    ensures kept { OnErr result (heap.new ≡ heap.old) }
    ensures cells { heap.new.cells ≡ heap.old.cells }
    ensures grows { Grows heap.old heap.new }
{
    match key {
        Key::Name(name) => add_name(alloc, heap, program.units(*name)),
        Key::Text(literal) => add_name(alloc, heap, program.units(literal.value)),
        Key::Number(number) => {
            let mut room = [0; 17];
            let count = text_of_whole(*number, &mut room);
            add_name(alloc, heap, &room[..count])
        },
    }
}

/// Adds the text that a node is or names. Its charge passes no limit.
fn add_form(
    alloc: Global,
    program: &Program,
    heap: &mut Heap,
    form: &Form,
) -> Result<Span, NoMemory>
    requires { heap.old.pool.used + form_cost program.now.grove.units form.now
        ≤ heap.old.pool.limit }
    ensures span { IfOk result (λ span. span ≡ own_span (length heap.old.pool.units)
        program.now.grove.units form.now) }
    ensures added { OnOk result (heap.new ≡ with_form program.now.grove.units form.now heap.old) }
    ensures stands { IfOk result
        (StandsIfAny heap.new.pool (form_text program.now.grove.units form.now)) }
    ensures kept { OnErr result (heap.new ≡ heap.old) }
    ensures cells { heap.new.cells ≡ heap.old.cells }
    ensures grows { Grows heap.old heap.new }
{
    match form {
        Form::Text(literal) => match heap.add_text(alloc, program.units(literal.value)) {
            Ok(span) => Ok(span),
            Err(_) => unreachable!(),
        },
        Form::Member(name) => add_name(alloc, heap, program.units(*name)),
        Form::Entry(key) => add_key(alloc, program, heap, key),
        _ => Ok(Span { start: 0, count: 0 }),
    }
}

/// Adds the texts of a program, each name once, and gives the span of each node. Their charges together pass no limit. For want
/// of memory some are added, and can be cut back.
pub(crate) fn load_texts(
    alloc: Global,
    program: &Program,
    heap: &mut Heap,
) -> Result<Vec<Span>, NoMemory>
    requires { heap.old.pool.used + cost_of_literals program.now ≤ heap.old.pool.limit }
    ensures spans { IfOk result (λ spans. spans.items ≡ spans_loaded program.now heap.old) }
    ensures loaded { OnOk result (heap.new ≡ world_loaded program.now heap.old) }
    ensures stand { IfOk result
        (λ spans. TextsStand (record { code = program.now; literals = spans.items }) heap.new) }
    ensures back { (w : World) → CutsTo w heap.old → CutsTo w heap.new }
    ensures cells { heap.new.cells ≡ heap.old.cells }
    ensures grows { Grows heap.old heap.new }
{
    program.firsts_have_the_names();
    let mut spans = Vec::with_capacity(alloc, program.count() as usize)?;
    for id in 0..program.count() {
        let first = program.first_named(id);
        let span = if first < id {
            spans[first as usize]
        } else {
            add_form(alloc, program, heap, &program.node(id).form)?
        };
        spans.push(span)?;
    }
    Ok(spans)
}

// ROOM FOR VALUES

/// How many values may stand beside the open frames of a run with so much fuel. What 32 bits cannot count is want of memory.
pub(crate) fn values_needed(fuel: u64) -> Result<u32, NoMemory>
    ensures { IfOk result (λ values. values ≡ values_needed fuel) }
{
    if fuel > u64::from(u32::MAX) - 2 {
        return Err(NoMemory);
    }
    Ok(fuel as u32 + 2)
}
