ghost use Rattle.std.specs.Prelude.{◌≡◌, ◌+◌, ◌<◌, ◌≤◌, ◌==◌, ◌↔◌, IsTrue, length, min, drop, if◌then◌else◌};
ghost use Rattle.std.specs.Fmt.{signed_decimal};
ghost use Rattle.json.specs.Print.{quoted, escape_byte};
ghost use Rattle.rip_data.specs.Datum.{tree_of, canonical_text, nesting, utf8_of};
ghost use Rattle.rip_data.specs.Written.{escaped_length, IsPair, elements_length, fields_length, elements_nesting, fields_nesting};

use crate::datum::Datum;
use rip_base::{Units, Whole};

/// How large a datum is: the bytes of its canonical text, and how deep its arrays and objects nest.
///
/// A number past the range of `usize` is told as `usize::MAX`.
#[derive(Clone, Copy, Debug, PartialEq, Eq)]
pub struct DatumSize {
    pub length: usize,
    pub depth: usize,
}

/// The size of the datum, which is found without writing its text, and takes no memory.
#[cycle(size)]
pub fn datum_size(d: &Datum) -> DatumSize
    ensures length { result.length ≡ min (length (canonical_text (tree_of d.now))) usize.MAX }
    ensures depth { result.depth ≡ min (nesting (tree_of d.now)) usize.MAX }
{
    match d {
        Datum::Null => leaf(4),
        Datum::Bool(true) => leaf(4),
        Datum::Bool(false) => leaf(5),
        Datum::Num(whole) => leaf(digits(*whole)),
        Datum::Text(text) => leaf(quoted_length(text.as_slice())),
        Datum::List(list) => around(elements_size(&list.items)),
        Datum::Fields(object) => around(fields_size(&object.fields)),
    }
}

// The size of what has no parts.
fn leaf(length: usize) -> DatumSize
    ensures length { result.length ≡ length }
    ensures depth { result.depth ≡ 0 }
{
    DatumSize { length, depth: 0 }
}

// The size of parts with the bracket before them, and where there are none with the one behind.
fn around(parts: DatumSize) -> DatumSize
    ensures length { result.length
        ≡ min (parts.length + (if parts.length == 0 then 2 else 1)) usize.MAX }
    ensures depth { result.depth ≡ min (parts.depth + 1) usize.MAX }
{
    let brackets = if parts.length == 0 { 2 } else { 1 };
    DatumSize {
        length: parts.length.saturating_add(brackets),
        depth: parts.depth.saturating_add(1),
    }
}

// The elements, each with the comma or the bracket behind it.
#[cycle(size)]
fn elements_size(items: &Vec<Datum>) -> DatumSize
    ensures length { result.length ≡ min (elements_length items.now.items) usize.MAX }
    ensures depth { result.depth ≡ min (elements_nesting items.now.items) usize.MAX }
{
    let mut length = 0usize;
    let mut depth = 0usize;
    for item in items {
        let size = datum_size(item);
        length = length.saturating_add(size.length).saturating_add(1);
        depth = depth.max(size.depth);
    }
    DatumSize { length, depth }
}

// The fields, each with its colon, and with the comma or the bracket behind it.
#[cycle(size)]
fn fields_size(fields: &Vec<(Units, Datum)>) -> DatumSize
    ensures length { result.length ≡ min (fields_length fields.now.items) usize.MAX }
    ensures depth { result.depth ≡ min (fields_nesting fields.now.items) usize.MAX }
{
    let mut length = 0usize;
    let mut depth = 0usize;
    for field in fields {
        let name = quoted_length(field.0.as_slice());
        let size = datum_size(&field.1);
        length = length
            .saturating_add(name)
            .saturating_add(size.length)
            .saturating_add(2);
        depth = depth.max(size.depth);
    }
    DatumSize { length, depth }
}

// The bytes of the number.
fn digits(whole: Whole) -> usize
    ensures { result ≡ length (signed_decimal whole) }
{
    let mut buffer = itoa::Buffer::new();
    buffer.format(whole.get()).len()
}

// The bytes of the text in quotes.
fn quoted_length(units: &[u16]) -> usize
    ensures { result ≡ min (length (quoted (utf8_of units.now))) usize.MAX }
{
    let mut bytes = 2usize;
    let mut at = 0;
    while at < units.len() {
        let (size, count) = char_size(units, at);
        bytes = bytes.saturating_add(size);
        at += count;
    }
    bytes
}

// How many bytes the character at the place takes between quotes, and how many units it has.
fn char_size(units: &[u16], at: usize) -> (usize, usize)
    requires { at < length units.now }
    ensures bytes { result.0 + escaped_length (drop (at + result.1) units.now)
        ≡ escaped_length (drop at units.now) }
    ensures some { 1 ≤ result.1 }
    ensures within { at + result.1 ≤ length units.now }
{
    let unit = units[at];
    if unit < 0x80 {
        (ascii_size(unit as u8), 1)
    } else if unit < 0x800 {
        (2, 1)
    } else if at + 1 < units.len() && is_pair(unit, units[at + 1]) {
        (4, 2)
    } else {
        (3, 1)
    }
}

// The units are the two of a character past U+FFFF (RFC 2781 section 2.2).
fn is_pair(high: u16, low: u16) -> bool
    ensures { IsTrue result ↔ IsPair high low }
{
    0xD800 <= high && high < 0xDC00 && 0xDC00 <= low && low < 0xE000
}

// The bytes that the ASCII character takes between quotes (RFC 8259 section 7).
#[tactic(auto, unfolding(json::specs::Print::escape_byte))]
fn ascii_size(byte: u8) -> usize
    ensures { result ≡ length (escape_byte byte) }
{
    if byte == b'"' || byte == b'\\' {
        2
    } else if byte >= 0x20 {
        1
    } else if byte == 0x08 || byte == 0x09 || byte == 0x0A || byte == 0x0C || byte == 0x0D {
        2
    } else {
        6
    }
}
