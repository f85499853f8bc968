ghost use Rattle.std.specs.Prelude.{◌≡◌, ◌∷◌, ◌++◌, [], codes, decimal, option_map, OnOk};
ghost use Rattle.rip_outer.specs.Writing.{CountsPut};
ghost use Rattle.rip_script.specs.Lines.{line_text, lines_text};
ghost use Rattle.rip_script.specs.Report.{binding_line, bound_word, end_words, fault_word, head_lines, limit_word, name_word, run_text, value_word};
ghost use Rattle.rip_script.specs.Steps.{Puts};

use crate::block::{put_block, put_full_block};
use crate::evaluate::{End, Ended};
use crate::named::write_name;
use crate::print::value_text;
use rip_base::{Fault, Limit, NoMemory, Value, Writer};
use rip_heap::Heap;
use rip_outer::{Sink, SinkError};
use rip_tree::Program;
use std::alloc::Global;

/// Puts what a run came to: how it ended, what it took, and a line for each binding of the top scope.
pub fn put_run<S: Sink>(
    alloc: Global,
    program: &Program,
    ended: &Ended,
    out: &mut S,
) -> Result<(), SinkError>
    ensures put { Puts result (run_text program.now ended.now) (S.held out.old) (S.held out.new) }
    ensures counted { CountsPut result (S.count out.old) (S.count out.new) }
{
    let mut block = Writer::new(alloc);
    write_head(alloc, &mut block, program, ended)?;
    for place in 0..ended.heap.names(0) {
        write_binding(alloc, &mut block, program, &ended.heap, place)?;
        put_full_block(&mut block, out)?;
    }
    put_block(&mut block, out)
}

/// Writes how a run ended, and what it took.
fn write_head(
    alloc: Global,
    out: &mut Writer,
    program: &Program,
    ended: &Ended,
) -> Result<(), NoMemory>
    ensures { OnOk result (out.new ≡ out.old ++ lines_text (head_lines program.now ended.now)) }
{
    write_end(alloc, out, program, &ended.heap, ended.end)?;
    write_count(out, b"fuel", ended.spent)?;
    write_count(out, b"cells", u64::from(ended.heap.used_cells()))?;
    write_count(out, b"units", u64::from(ended.heap.pool().used()))
}

/// Writes the line of the outcome.
fn write_end(
    alloc: Global,
    out: &mut Writer,
    program: &Program,
    heap: &Heap,
    end: End,
) -> Result<(), NoMemory>
    ensures { OnOk result
        (out.new ≡ out.old ++ line_text
        (codes "outcome" ∷ end_words heap.now program.now end)) }
{
    match end {
        End::Value(v) => write_valued(alloc, out, program, heap, b"value", v),
        End::Thrown(v) => write_valued(alloc, out, program, heap, b"thrown", v),
        End::Fault(fault) => write_kind(out, b"fault", fault_word(fault)),
        End::Limit(limit) => write_kind(out, b"limit", limit_word(limit)),
    }
}

/// Writes the line of an outcome of this kind that has a value.
fn write_valued(
    alloc: Global,
    out: &mut Writer,
    program: &Program,
    heap: &Heap,
    kind: &[u8],
    v: Value,
) -> Result<(), NoMemory>
    ensures { OnOk result
        (out.new ≡ out.old ++ line_text
        (codes "outcome" ∷ kind.now ∷ value_word heap.now program.now v ∷ [])) }
{
    let text = value_text(alloc, heap, program, v)?;
    write_kind(out, kind, text.as_slice())
}

/// Writes the line of an outcome of this kind, with what it is of behind it.
fn write_kind(out: &mut Writer, kind: &[u8], what: &[u8]) -> Result<(), NoMemory>
    ensures { OnOk result
        (out.new ≡ out.old ++ line_text (codes "outcome" ∷ kind.now ∷ what.now ∷ [])) }
{
    out.text(b"outcome ")?;
    out.text(kind)?;
    out.text(b" ")?;
    out.text(what)?;
    out.text(b"\n")
}

/// Writes a value.
fn write_value(
    alloc: Global,
    out: &mut Writer,
    program: &Program,
    heap: &Heap,
    v: Value,
) -> Result<(), NoMemory>
    ensures { OnOk result (out.new ≡ out.old ++ value_word heap.now program.now v) }
{
    let text = value_text(alloc, heap, program, v)?;
    out.text(text.as_slice())
}

/// Writes the line of a count.
fn write_count(out: &mut Writer, word: &[u8], count: u64) -> Result<(), NoMemory>
    ensures { OnOk result (out.new ≡ out.old ++ line_text (word.now ∷ decimal count ∷ [])) }
{
    out.text(word)?;
    out.text(b" ")?;
    out.number(count)?;
    out.text(b"\n")
}

/// Writes the line of the binding of the top scope at this place.
fn write_binding(
    alloc: Global,
    out: &mut Writer,
    program: &Program,
    heap: &Heap,
    place: u32,
) -> Result<(), NoMemory>
    ensures { OnOk result
        (out.new ≡ out.old ++ line_text (binding_line program.now heap.now place)) }
{
    write_name_of(alloc, out, program.top_name(place))?;
    out.text(b" = ")?;
    write_bound(alloc, out, program, heap, heap.binding(0, place))?;
    out.text(b"\n")
}

/// Writes the name of a binding, or `?` where it has none.
fn write_name_of(alloc: Global, out: &mut Writer, name: Option<&[u16]>) -> Result<(), NoMemory>
    ensures { OnOk result (out.new ≡ out.old ++ name_word (option_map (λ n. n.now) name.entry)) }
{
    match name {
        Some(name) => write_name(alloc, out, name),
        None => out.text(b"?"),
    }
}

/// Writes the value of a binding, or `unbound` where it has none yet.
fn write_bound(
    alloc: Global,
    out: &mut Writer,
    program: &Program,
    heap: &Heap,
    value: Option<Value>,
) -> Result<(), NoMemory>
    ensures { OnOk result (out.new ≡ out.old ++ bound_word heap.now program.now value) }
{
    match value {
        Some(v) => write_value(alloc, out, program, heap, v),
        None => out.text(b"unbound"),
    }
}

/// A fault by its name.
fn fault_word(fault: Fault) -> &'static [u8]
    ensures { result.now ≡ fault_word fault }
{
    match fault {
        Fault::NotWhole => b"NotWhole",
        Fault::Infinite => b"Infinite",
        Fault::OutOfRange => b"OutOfRange",
        Fault::Hole => b"Hole",
        Fault::NotInProfile => b"NotInProfile",
        Fault::ObjectToPrimitive => b"ObjectToPrimitive",
        Fault::BadArgument => b"BadArgument",
        Fault::LoneSurrogate => b"LoneSurrogate",
        Fault::TextTooLong => b"TextTooLong",
    }
}

/// A limit by its name.
fn limit_word(limit: Limit) -> &'static [u8]
    ensures { result.now ≡ limit_word limit }
{
    match limit {
        Limit::Fuel => b"Fuel",
        Limit::Cells => b"Cells",
        Limit::Units => b"Units",
        Limit::Nodes => b"Nodes",
        Limit::Depth => b"Depth",
        Limit::Queue => b"Queue",
        Limit::Replies => b"Replies",
    }
}
