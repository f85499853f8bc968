ghost use Rattle.std.specs.Prelude.{◌≡◌, ◌++◌, [], IfOk, OnOk, codes};
ghost use Rattle.rip_heap.specs.Arrays.{elements_at};
ghost use Rattle.rip_heap.specs.World.{object_at};
ghost use Rattle.rip_script.specs.Steps.{comma_before};
ghost use Rattle.rip_script.specs.Values.{array_text, contents_text, name_text, object_text, properties_of, properties_text, shown_levels, value_text};

use crate::named::{
    builtin_at, class_word, is_around, is_function, write_builtin, write_function, write_name,
    write_quoted,
};
use rip_base::{Bytes, NoMemory, Value, Writer};
use rip_heap::{Class, Heap};
use rip_tree::Program;
use std::alloc::Global;

/// The levels of objects that are shown of a value.
pub const LEVELS: u32 = 6;

/// A value as text: what a script would write for it, as far as it can.
///
/// Objects are shown by what they hold, functions by their names. An object inside itself is `<cycle>`, and below
/// [`LEVELS`] levels of objects stands `...`. More elements than 32 bits count are refused as want of memory.
pub fn value_text(
    alloc: Global,
    heap: &Heap,
    program: &Program,
    v: Value,
) -> Result<Bytes, NoMemory>
    ensures { IfOk result (λ text. text ≡ value_text heap.now program.now shown_levels [] v) }
{
    let mut printer = Printer {
        alloc,
        out: Writer::new(alloc),
        around: Vec::new(alloc),
    };
    printer.value(heap, program, LEVELS, v)?;
    Ok(printer.out.into_bytes())
}

/// A text that is being written, and the objects around the place that is written, the outermost first.
#[derive(Drop)]
struct Printer {
    alloc: Global,
    out: Writer,
    around: Vec<u32>,
}

impl Printer {
    /// Writes a value, in which so many levels of objects are shown.
    #[cycle(print)]
    fn value(
        &mut self,
        heap: &Heap,
        program: &Program,
        levels: u32,
        v: Value,
    ) -> Result<(), NoMemory>
        ensures written { OnOk result
            (self.new.out ≡ self.old.out ++ value_text heap.now program.now levels
            self.old.around.items v) }
        ensures around { OnOk result (self.new.around.items ≡ self.old.around.items) }
    {
        match v {
            Value::Undefined => self.out.text(b"undefined"),
            Value::Null => self.out.text(b"null"),
            Value::Bool(true) => self.out.text(b"true"),
            Value::Bool(false) => self.out.text(b"false"),
            Value::NaN => self.out.text(b"NaN"),
            Value::Num(number) => self.out.whole(number),
            Value::Text(span) => write_quoted(&mut self.out, heap.pool().get(span)),
            Value::Object(number) => self.object(heap, program, levels, number),
        }
    }

    /// Writes the object of this number.
    #[cycle(print)]
    fn object(
        &mut self,
        heap: &Heap,
        program: &Program,
        levels: u32,
        number: u32,
    ) -> Result<(), NoMemory>
        ensures written { OnOk result
            (self.new.out ≡ self.old.out ++ object_text heap.now program.now levels
            self.old.around.items number) }
        ensures around { OnOk result (self.new.around.items ≡ self.old.around.items) }
    {
        if let Some(builtin) = builtin_at(number) {
            return write_builtin(&mut self.out, builtin);
        }
        let class = heap.class(number);
        if is_function(class) {
            return write_function(self.alloc, &mut self.out, program, heap.function(number));
        }
        if is_around(self.around.as_slice(), number) {
            return self.out.text(b"<cycle>");
        }
        if levels == 0 {
            return self.out.text(b"...");
        }
        self.around.push(number)?;
        self.contents(heap, program, levels - 1, number, class)?;
        self.around.pop();
        Ok(())
    }

    /// Writes what an object of this class holds.
    #[cycle(print)]
    fn contents(
        &mut self,
        heap: &Heap,
        program: &Program,
        levels: u32,
        number: u32,
        class: Class,
    ) -> Result<(), NoMemory>
        ensures written { OnOk result
            (self.new.out ≡ self.old.out
            ++ contents_text heap.now
            (λ v. value_text heap.now program.now levels self.old.around.items v) number class) }
        ensures around { OnOk result (self.new.around.items ≡ self.old.around.items) }
    {
        if matches!(class, Class::Array) {
            return self.elements(heap, program, levels, number);
        }
        self.out.text(class_word(class))?;
        self.properties(heap, program, levels, number)
    }

    /// Writes the elements of an array.
    #[cycle(print)]
    fn elements(
        &mut self,
        heap: &Heap,
        program: &Program,
        levels: u32,
        number: u32,
    ) -> Result<(), NoMemory>
        ensures written { OnOk result
            (self.new.out ≡ self.old.out
            ++ array_text (λ v. value_text heap.now program.now levels self.old.around.items v)
            (elements_at heap.now number)) }
        ensures around { OnOk result (self.new.around.items ≡ self.old.around.items) }
    {
        self.out.text(b"[")?;
        for place in 0..u32::MAX {
            let Some(item) = heap.item(number, place) else {
                return self.out.text(b"]");
            };
            write_comma(&mut self.out, place)?;
            self.value(heap, program, levels, item)?;
        }
        Err(NoMemory)
    }

    /// Writes the own properties of an object.
    #[cycle(print)]
    fn properties(
        &mut self,
        heap: &Heap,
        program: &Program,
        levels: u32,
        number: u32,
    ) -> Result<(), NoMemory>
        ensures written { OnOk result
            (self.new.out ≡ self.old.out
            ++ properties_text heap.now.pool
            (λ v. value_text heap.now program.now levels self.old.around.items v)
            (properties_of (object_at heap.now number))) }
        ensures around { OnOk result (self.new.around.items ≡ self.old.around.items) }
    {
        self.out.text(b"{")?;
        let mut before: &[u8] = b"";
        for own in heap.own_properties(number) {
            write_key(self.alloc, &mut self.out, before, heap.pool().get(own.name))?;
            self.value(heap, program, levels, own.value)?;
            before = b",";
        }
        self.out.text(b"}")
    }
}

/// Writes the comma before all but the first.
fn write_comma(out: &mut Writer, place: u32) -> Result<(), NoMemory>
    ensures { OnOk result (out.new ≡ out.old ++ comma_before place) }
{
    if place == 0 {
        return Ok(());
    }
    out.text(b",")
}

/// Writes the name of a property behind what stands before it, and a colon.
fn write_key(alloc: Global, out: &mut Writer, before: &[u8], name: &[u16]) -> Result<(), NoMemory>
    ensures { OnOk result
        (out.new ≡ out.old ++ before.now ++ name_text name.now ++ codes ":") }
{
    out.text(before)?;
    write_name(alloc, out, name)?;
    out.text(b":")
}
