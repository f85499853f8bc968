ghost use Rattle.std.specs.Prelude.{◌≡◌, ◌≢◌, ◌≤◌, ◌+◌, ◌++◌, ◌↔◌, [], ℕ, List, All, IfOk, IsTrue, MatchResult, Err, Ok, Some, IsSome, length, unwrap_or, vec_capacity};
ghost use Rattle.json.specs.Print.{quoted};
ghost use Rattle.rip_values.specs.Pool.{text_at};
ghost use Rattle.rip_data.specs.Datum.{utf8_of};
ghost use Rattle.rip_convert.specs.Arguments.{arguments_text, call_text};
ghost use Rattle.rip_convert.specs.Told.{IsCallOf};
ghost use Rattle.rip_convert.specs.Written.{left_after, none_placed};

use crate::faults::first_fault;
use crate::judge::left_after;
use crate::line::{Line, append};
use crate::marks::Marks;
use crate::order::Fields;
use crate::write::write_value;
use rip_base::{Fault, NoMemory, Span, Value};
use rip_data::{MAX_DEPTH, MAX_LENGTH};
use rip_heap::Heap;
use std::alloc::Global;
use std::marker::Model;

/// The most bytes of a call's text: those of its arguments, 16,384, and those of its name, with what stands around both.
const ROW: usize = 16_460;

/// The room in which the text of a call is written. Contracts see nothing of what it holds.
#[derive(Drop)]
pub struct CallRow {
    text: Vec<u8>,
    part: Line,
    fields: Fields,
    marks: Marks,
}

impl Model for CallRow {
    ghost use Rattle.std.specs.Prelude.{◌≡◌, ◌≤◌, vec_capacity};
    ghost use Rattle.rip_convert.specs.Written.{none_placed};

    ghost Value = { Unit {0} };

    ghost view = { λ _. tt };

    ghost invariant = { λ r. (16460 ≤ vec_capacity r.text) × (r.fields ≡ none_placed) };
}

impl CallRow {
    /// A row for each text of a call, from a heap of so many cells at most. It takes all its memory. From a heap of more
    /// it writes the same texts, and may take longer to find a fault.
    pub fn make(alloc: Global, cells: u32) -> Result<CallRow, NoMemory> {
        Ok(CallRow {
            text: Vec::with_capacity(alloc, ROW)?,
            part: Line::make(alloc)?,
            fields: Fields::make(alloc)?,
            marks: Marks::make(alloc, cells)?,
        })
    }

    /// The canonical text of a call, `[NAME,ARGS]` with no space, of a name and arguments, or the first fault on the walk
    /// over the arguments, their length last. It takes no memory.
    pub fn write_call(&mut self, heap: &Heap, name: Span, args: Value) -> Result<&[u8], Fault>
        requires { length (quoted (utf8_of (text_at heap.now.pool name))) ≤ 73 }
        ensures text { MatchResult result (λ text. call_text heap.now name args ≡ Ok text.now)
            (λ fault. call_text heap.now name args ≡ Err fault) }
        ensures told { IfOk result
            (λ text. IsCallOf (utf8_of (text_at heap.now.pool name)) text.now) }
        ensures line { IfOk result (λ text. All (λ byte. byte ≢ 10) text.now) }
        ensures least { IfOk result (λ text. 6 ≤ length text.now) }
    {
        fill(
            &mut self.text,
            &mut self.part,
            &mut self.fields,
            &mut self.marks,
            heap,
            name,
            &args,
        )?;
        Ok(self.text.as_slice())
    }
}

// Makes the text of a call.
fn fill(
    text: &mut Vec<u8>,
    part: &mut Line,
    fields: &mut Fields,
    marks: &mut Marks,
    heap: &Heap,
    name: Span,
    args: &Value,
) -> Result<(), Fault>
    requires room { 16460 ≤ vec_capacity text.old }
    requires none { fields.old ≡ none_placed }
    requires name { length (quoted (utf8_of (text_at heap.now.pool name))) ≤ 73 }
    ensures text { MatchResult result (λ _. call_text heap.now name args.now ≡ Ok text.new.items)
        (λ fault. call_text heap.now name args.now ≡ Err fault) }
    ensures fields { fields.new ≡ fields.old }
    ensures room { vec_capacity text.new ≡ vec_capacity text.old }
{
    judge(marks, heap, args)?;
    text.truncate(0);
    text.push_reserved(b'[');
    part.clear();
    part.push_text(heap.pool().get(name));
    copy(part, text);
    text.push_reserved(b',');
    part.clear();
    write_value(heap, *args, MAX_DEPTH, fields, part);
    if !copy(part, text) {
        return Err(Fault::BadArgument);
    }
    text.push_reserved(b']');
    Ok(())
}

// How many pieces are left behind the arguments of a call, or the first fault. More is walked only where a fault is met or
// the pieces are spent.
fn judge(marks: &mut Marks, heap: &Heap, args: &Value) -> Result<u32, Fault>
    ensures { MatchResult result (λ left. left_after 8 heap.now args.now 16384 ≡ Ok left)
        (λ fault. arguments_text heap.now args.now ≡ Err fault) }
{
    match left_after(heap, *args, MAX_DEPTH, MAX_LENGTH as u32) {
        Ok(left) => Ok(left),
        Err(spent) => {
            marks.clear();
            Err(first_fault(heap, *args, MAX_DEPTH as u8, marks).unwrap_or(spent))
        }
    }
}

// Puts a text behind others, if there is one.
fn copy(part: &Line, text: &mut Vec<u8>) -> bool
    requires { (more : List ℕ) → part.now ≡ Some more
        → length text.old.items + length more ≤ vec_capacity text.old }
    ensures there { IsTrue result ↔ IsSome part.now }
    ensures text { text.new.items ≡ text.old.items ++ unwrap_or part.now [] }
    ensures room { vec_capacity text.new ≡ vec_capacity text.old }
{
    match part.text() {
        Some(more) => {
            append(text, more);
            true
        }
        None => false,
    }
}
