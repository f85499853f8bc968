ghost use Rattle.std.specs.Prelude.{◌≡◌, ◌+◌, ◌∷◌, ◌++◌};
ghost use Rattle.json.specs.Print.{quoted};
ghost use Rattle.serde_json.specs.Written.{comma_if, compact_text, number_text};
ghost use Rattle.rip_data.specs.Datum.{number_of_whole};
ghost use Rattle.rip_heap.specs.Holders.{holder_of};
ghost use Rattle.rip_heap.specs.World.{object_at};
ghost use Rattle.rip_convert.specs.Written.{HasRoom, added, field_at, name_at, parts_data, parts_pieces, pieces, value_data};

use crate::line::Line;
use crate::order::{Fields, put_fields};
use rip_base::{Value, Whole};
use rip_heap::{Heap, Holder, holder_of};

/// Writes the canonical text of a value that was judged. It calls itself once for each of so many levels.
#[cycle(write)]
pub(crate) fn write_value(
    heap: &Heap,
    v: Value,
    levels: usize,
    fields: &mut Fields,
    line: &mut Line,
)
    requires { HasRoom fields.old (pieces levels heap.now v) }
    ensures text { line.new ≡ added line.old (compact_text (value_data levels heap.now v)) }
    ensures fields { fields.new ≡ fields.old }
{
    match v {
        Value::Undefined | Value::NaN | Value::Null => line.push_all(b"null"),
        Value::Bool(true) => line.push_all(b"true"),
        Value::Bool(false) => line.push_all(b"false"),
        Value::Num(whole) => write_number(whole, line),
        Value::Text(span) => line.push_text(heap.pool().get(span)),
        Value::Object(number) => {
            if levels == 0 {
                line.push_all(b"null");
            } else {
                write_parts(heap, number, levels - 1, fields, line);
            }
        }
    }
}

fn write_number(whole: Whole, line: &mut Line)
    ensures { line.new ≡ added line.old (number_text (number_of_whole whole)) }
{
    let mut buffer = itoa::Buffer::new();
    line.push_all(buffer.format(whole.get()).as_bytes());
}

// Writes the parts of an object.
#[cycle(write)]
fn write_parts(heap: &Heap, number: u32, levels: usize, fields: &mut Fields, line: &mut Line)
    requires { HasRoom fields.old
        (1 + parts_pieces (holder_of (object_at heap.now number)) (pieces levels heap.now)
        heap.now number) }
    ensures text { line.new ≡ added line.old (compact_text
        (parts_data (holder_of (object_at heap.now number)) (value_data levels heap.now) heap.now number)) }
    ensures fields { fields.new ≡ fields.old }
{
    match holder_of(heap, number) {
        Holder::ArrayObject => write_elements(heap, number, levels, fields, line),
        Holder::PlainObject => write_fields(heap, number, levels, fields, line),
        Holder::OtherObject => line.push_all(b"null"),
    }
}

// Writes the elements of an array.
#[cycle(write)]
fn write_elements(heap: &Heap, array: u32, levels: usize, fields: &mut Fields, line: &mut Line)
    requires { HasRoom fields.old
        (parts_pieces Holder.ArrayObject (pieces levels heap.now) heap.now array) }
    ensures text { line.new ≡ added line.old (compact_text
        (parts_data Holder.ArrayObject (value_data levels heap.now) heap.now array)) }
    ensures fields { fields.new ≡ fields.old }
{
    line.push(b'[');
    for place in 0..heap.count(array) {
        write_comma(place != 0, line);
        let v = heap.item(array, place).unwrap_or(Value::Undefined);
        write_value(heap, v, levels, fields, line);
    }
    line.push(b']');
}

// Writes the fields of an object.
#[cycle(write)]
fn write_fields(heap: &Heap, object: u32, levels: usize, fields: &mut Fields, line: &mut Line)
    requires { HasRoom fields.old
        (1 + parts_pieces Holder.PlainObject (pieces levels heap.now) heap.now object) }
    ensures text { line.new ≡ added line.old (compact_text
        (parts_data Holder.PlainObject (value_data levels heap.now) heap.now object)) }
    ensures fields { fields.new ≡ fields.old }
{
    let first = fields.count();
    let base = fields.count_places();
    put_fields(heap, object, fields);
    line.push(b'{');
    for i in base..fields.count_places() {
        write_comma(i != base, line);
        write_field(heap, fields.place(i), levels, fields, line);
    }
    line.push(b'}');
    fields.cut(first, base);
}

// Writes the field at a place.
#[cycle(write)]
fn write_field(heap: &Heap, place: u32, levels: usize, fields: &mut Fields, line: &mut Line)
    requires { HasRoom fields.old
        (pieces levels heap.now (field_at fields.old.properties place).value) }
    ensures text { line.new ≡ added line.old
        (quoted (name_at heap.now.pool fields.old.properties place)
        ++ 58 ∷ compact_text (value_data levels heap.now
        (field_at fields.old.properties place).value)) }
    ensures fields { fields.new ≡ fields.old }
{
    let field = fields.at(place);
    line.push_text(heap.pool().get(field.name));
    line.push(b':');
    write_value(heap, field.value, levels, fields, line);
}

// Writes a comma where something stands before.
fn write_comma(later: bool, line: &mut Line)
    ensures { line.new ≡ added line.old (comma_if later) }
{
    if later {
        line.push(b',');
    } else {
        line.push_all(b"");
    }
}
