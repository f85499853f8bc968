ghost use Rattle.std.specs.Prelude.{◌≡◌, ◌++◌, IfOk, OnOk, IsUtf8};
ghost use Rattle.rip_data.specs.Datum.{tree_of, trees_in, elements_of, array, canonical_text};
ghost use Rattle.rip_data.specs.Written.{tokens_of, element_tokens, field_tokens};

use crate::datum::{Datum, DatumList};
use json::Writer;
use rip_base::{Bytes, NoMemory, Units};
use std::alloc::{AllocError, Global};

/// The canonical text of the datum: JSON with no space, and with no escape but those that RFC 8259 section 7 asks for.
///
/// It takes time in proportion to the text, and calls itself once for each level of nesting.
pub fn write_datum(d: &Datum, alloc: Global) -> Result<Bytes, NoMemory>
    ensures text { IfOk result (λ bytes. bytes ≡ canonical_text (tree_of d.now)) }
    ensures utf8 { IfOk result (λ bytes. IsUtf8 bytes) }
{
    let mut out = Writer::new(Vec::with_capacity(alloc, 128)?);
    write_value(d, &mut out, alloc)?;
    Ok(Bytes::from_vec(out.into_inner()))
}

/// Writes the datum as a part of a larger text.
#[cycle(write)]
pub fn write_value(d: &Datum, out: &mut Writer, alloc: Global) -> Result<(), AllocError>
    ensures tokens { OnOk result (out.new.tokens ≡ out.old.tokens ++ tokens_of (tree_of d.now)) }
    ensures before { out.new.before ≡ out.old.before }
{
    match d {
        Datum::Null => out.null(),
        Datum::Bool(b) => out.boolean(*b),
        Datum::Num(whole) => out.i64(whole.get()),
        Datum::Text(text) => {
            let text = String::from_utf16_lossy(alloc, text.as_slice())?;
            out.string(text.as_str())
        }
        Datum::List(list) => {
            out.begin_array()?;
            write_elements(&list.items, out, alloc)
        }
        Datum::Fields(object) => {
            out.begin_object()?;
            write_fields(&object.fields, out, alloc)
        }
    }
}

/// Writes the list as a part of a larger text.
pub fn write_list(list: &DatumList, out: &mut Writer, alloc: Global) -> Result<(), AllocError>
    ensures tokens { OnOk result
        (out.new.tokens ≡ out.old.tokens ++ tokens_of (array (elements_of (trees_in list.now)))) }
    ensures before { out.new.before ≡ out.old.before }
{
    out.begin_array()?;
    write_elements(&list.items, out, alloc)
}

// The elements and the closing bracket.
#[cycle(write)]
fn write_elements(items: &Vec<Datum>, out: &mut Writer, alloc: Global) -> Result<(), AllocError>
    ensures tokens { OnOk result
        (out.new.tokens ≡ out.old.tokens ++ element_tokens items.now.items) }
    ensures before { out.new.before ≡ out.old.before }
{
    for item in items {
        write_value(item, out, alloc)?;
    }
    out.end_array()
}

// The fields and the closing bracket.
#[cycle(write)]
fn write_fields(
    fields: &Vec<(Units, Datum)>,
    out: &mut Writer,
    alloc: Global,
) -> Result<(), AllocError>
    ensures tokens { OnOk result
        (out.new.tokens ≡ out.old.tokens ++ field_tokens fields.now.items) }
    ensures before { out.new.before ≡ out.old.before }
{
    for field in fields {
        let name = String::from_utf16_lossy(alloc, field.0.as_slice())?;
        out.key(name.as_str())?;
        write_value(&field.1, out, alloc)?;
    }
    out.end_object()
}
