ghost use Rattle.std.specs.Prelude.{◌≡◌, ◌++◌, ◌<◌, OnOk, IsTrue, option_and_then, slice_get};
ghost use Rattle.rip_values.specs.Builtins.{builtins};
ghost use Rattle.rip_script.specs.Values.{builtin_text, class_word, function_text, hexadecimal, is_around, is_function, is_plain, name_of_form, name_of_node, name_text, quoted, unit_text};

use rip_base::{NoMemory, Writer};
use rip_heap::Class;
use rip_tree::{Form, Piece, Program};
use rip_values::Builtin;
use std::alloc::Global;

/// Writes a text between quotes.
pub fn write_quoted(out: &mut Writer, units: &[u16]) -> Result<(), NoMemory>
    ensures { OnOk result (out.new ≡ out.old ++ quoted units.now) }
{
    out.text(b"\"")?;
    for unit in units {
        write_unit(out, *unit)?;
    }
    out.text(b"\"")
}

/// Writes a unit between quotes.
fn write_unit(out: &mut Writer, unit: u16) -> Result<(), NoMemory>
    ensures { OnOk result (out.new ≡ out.old ++ unit_text unit) }
{
    if is_plain(unit) {
        return out.text(&[unit as u8]);
    }
    out.text(&[
        b'\\',
        b'u',
        hexadecimal(unit / 4096 % 16),
        hexadecimal(unit / 256 % 16),
        hexadecimal(unit / 16 % 16),
        hexadecimal(unit % 16),
    ])
}

/// Whether a unit stands for itself between quotes.
fn is_plain(unit: u16) -> bool
    ensures value { result ≡ is_plain unit }
    ensures small { IsTrue result → unit < 256 }
{
    32 <= unit && unit <= 126 && unit != 34 && unit != 92
}

/// A hexadecimal digit, in small letters.
fn hexadecimal(digit: u16) -> u8
    requires { digit < 16 }
    ensures { result ≡ hexadecimal digit }
{
    if digit < 10 {
        b'0' + digit as u8
    } else {
        b'a' - 10 + digit as u8
    }
}

/// Writes a name in UTF-8.
pub fn write_name(alloc: Global, out: &mut Writer, units: &[u16]) -> Result<(), NoMemory>
    ensures { OnOk result (out.new ≡ out.old ++ name_text units.now) }
{
    let name = String::from_utf16_lossy(alloc, units)?;
    out.text(name.as_bytes())
}

/// Writes a function of the script, of which the node and the scope are these.
pub fn write_function(
    alloc: Global,
    out: &mut Writer,
    program: &Program,
    code: Option<(u32, u32)>,
) -> Result<(), NoMemory>
    ensures { OnOk result (out.new ≡ out.old ++ function_text program.now code) }
{
    match name_of_code(program, code) {
        None => out.text(b"function"),
        Some(name) => {
            out.text(b"function ")?;
            write_name(alloc, out, program.units(name))
        }
    }
}

/// The name of the function of the script of which the node and the scope are these.
fn name_of_code(program: &Program, code: Option<(u32, u32)>) -> Option<Piece>
    ensures { result ≡ option_and_then (λ c. name_of_node program.now c.0) code }
{
    match code {
        Some((node, _)) => name_of_node(program, node),
        None => None,
    }
}

/// The name of the function of the script that is this node.
fn name_of_node(program: &Program, node: u32) -> Option<Piece>
    ensures { result ≡ name_of_node program.now node }
{
    match program.node_at(node) {
        Some(node) => name_of_form(node.form),
        None => None,
    }
}

/// The name of a function of the script, by its form.
fn name_of_form(form: Form) -> Option<Piece>
    ensures { result ≡ name_of_form form }
{
    match form {
        Form::FunctionDeclaration(head) | Form::Function(head) => head.name,
        _ => None,
    }
}

/// The word before the properties of an object of this class; a plain object has none.
pub fn class_word(class: Class) -> &'static [u8]
    ensures { result.now ≡ class_word class }
{
    match class {
        Class::Error => b"Error",
        Class::TypeError => b"TypeError",
        Class::RangeError => b"RangeError",
        Class::ThrownTypeError => b"ThrownTypeError",
        Class::ThrownReferenceError => b"ThrownReferenceError",
        Class::Event => b"Event",
        Class::Plain | Class::Prototype | Class::Code | Class::Array | Class::Function => b"",
    }
}

/// Whether the class is that of functions of the script.
pub fn is_function(class: Class) -> bool
    ensures { result ≡ is_function class }
{
    matches!(class, Class::Function)
}

/// The built-in of this number.
pub fn builtin_at(number: u32) -> Option<Builtin>
    ensures { result ≡ slice_get builtins number }
{
    Builtin::of(number)
}

/// Writes a built-in by its name.
pub fn write_builtin(out: &mut Writer, builtin: Builtin) -> Result<(), NoMemory>
    ensures { OnOk result (out.new ≡ out.old ++ builtin_text builtin) }
{
    out.text(b"builtin ")?;
    out.text(builtin.name().as_bytes())
}

/// Whether the object is one of these.
pub fn is_around(around: &[u32], number: u32) -> bool
    ensures { result ≡ is_around around.now number }
{
    around.contains(&number)
}
