ghost use Rattle.std.specs.Prelude.{◌≡◌, ◌≢◌, false, map, IfOk, IfErr, Ok, Err, Some, None};
ghost use Rattle.serde_json.specs.View.{view, items_view, members_view};
ghost use Rattle.rip_base.specs.Text.{IsSameText};
ghost use Rattle.rip_data.specs.Datum.{tree_of, data_of, members_of, IsDatum, AreInOrder};
ghost use Rattle.rip_data.specs.Reading.{all_whole, items_whole, members_whole, answer, answer_long, value_of};
ghost use Rattle.rip_data.specs.Written.{AreElements, AreFields, fields_data};

use crate::datum::{Datum, DatumFields, DatumList};
use crate::error::DataError;
use crate::number::whole_of;
use crate::size::datum_size;
use rip_base::{TextError, Units};
use serde_json::{Map, Value};
use std::alloc::Global;

/// How deep arrays and objects may nest in data.
pub const MAX_DEPTH: usize = 8;

/// The most bytes that the canonical text of data may have.
pub const MAX_LENGTH: usize = 16_384;

/// The datum that the bytes are, as JSON in UTF-8 (RFC 8259).
///
/// Of repeated members the last is kept, and only it is judged. Where more than one refusal holds, the first in the
/// order of [`DataError`] is answered; memory may run out at any text.
pub fn read_datum(alloc: Global, text: &[u8]) -> Result<Datum, DataError>
    ensures ok { IfOk result (λ d. answer text.now ≡ Ok (data_of (tree_of d))) }
    ensures made { IfOk result (λ d. IsDatum (tree_of d)) }
    ensures err { IfErr result (λ e. e ≢ DataError.Memory → answer text.now ≡ Err e) }
{
    let datum = read_long(alloc, text)?;
    if datum_size(&datum).length > MAX_LENGTH {
        return Err(DataError::DataTooLong);
    }
    Ok(datum)
}

/// The same with no limit on the length of the text: [`DataError::DataTooLong`] is not answered.
pub fn read_long(alloc: Global, text: &[u8]) -> Result<Datum, DataError>
    ensures ok { IfOk result (λ d. answer_long text.now ≡ Ok (data_of (tree_of d))) }
    ensures made { IfOk result (λ d. IsDatum (tree_of d)) }
    ensures err { IfErr result (λ e. e ≢ DataError.Memory → answer_long text.now ≡ Err e) }
{
    let value = read_value(alloc, text)?;
    let datum = datum_of(alloc, &value)?;
    if datum_size(&datum).depth > MAX_DEPTH {
        return Err(DataError::TooDeep);
    }
    Ok(datum)
}

/// The value that the bytes are, as `serde_json` reads UTF-8: refused for [`DataError::Syntax`] alone, or for want of
/// memory.
pub fn read_value(alloc: Global, text: &[u8]) -> Result<Value, DataError>
    ensures ok { IfOk result (λ v. value_of text.now ≡ Some (view v)) }
    ensures err { IfErr result (λ e. e ≢ DataError.Memory
        → (e ≡ DataError.Syntax) × (value_of text.now ≡ None)) }
{
    match Value::from_slice(alloc, text) {
        Ok(value) => Ok(value),
        Err(e) if e.is_memory() => Err(DataError::Memory),
        Err(_) => Err(DataError::Syntax),
    }
}

/// The datum that a value of `serde_json` is, for whoever read a text already: how deep it nests and how long its text
/// is are the caller's to judge ([`datum_size`]). It is refused for a number that is not whole, or for want of memory.
#[cycle(convert)]
pub fn datum_of(alloc: Global, value: &Value) -> Result<Datum, DataError>
    ensures data { IfOk result (λ d. data_of (tree_of d) ≡ view value.now) }
    ensures made { IfOk result (λ d. IsDatum (tree_of d)) }
    ensures refused { IfErr result (λ e. e ≢ DataError.Memory
        → (e ≡ DataError.NotWhole) × (all_whole (view value.now) ≡ false)) }
{
    match value {
        Value::Null => Ok(Datum::Null),
        Value::Bool(b) => Ok(Datum::Bool(*b)),
        Value::Number(number) => match whole_of(number) {
            Some(whole) => Ok(Datum::Num(whole)),
            None => Err(DataError::NotWhole),
        },
        Value::String(text) => Ok(Datum::Text(units_of(alloc, text.as_str())?)),
        Value::Array(items) => {
            let items = elements_of(alloc, items)?;
            Ok(Datum::List(DatumList { items }))
        }
        Value::Object(members) => {
            let fields = fields_of(alloc, members)?;
            Ok(Datum::Fields(DatumFields { fields }))
        }
    }
}

#[cycle(convert)]
fn elements_of(alloc: Global, items: &Vec<Value>) -> Result<Vec<Datum>, DataError>
    ensures data { IfOk result
        (λ ds. map (λ d. data_of (tree_of d)) ds.items ≡ map view items.now.items) }
    ensures made { IfOk result (λ ds. AreElements ds.items) }
    ensures refused { IfErr result (λ e. e ≢ DataError.Memory
        → (e ≡ DataError.NotWhole) × (items_whole (items_view items.now.items) ≡ false)) }
{
    let mut made = Vec::with_capacity(alloc, items.len())?;
    for item in items {
        made.push(datum_of(alloc, item)?)?;
    }
    Ok(made)
}

#[cycle(convert)]
fn fields_of(alloc: Global, members: &Map<String, Value>) -> Result<Vec<(Units, Datum)>, DataError>
    ensures data { IfOk result (λ fs. fields_data fs.items ≡ members_view members.now.entries) }
    ensures made { IfOk result (λ fs. AreFields fs.items) }
    ensures order { IfOk result (λ fs. AreInOrder (fields_data fs.items)) }
    ensures refused { IfErr result (λ e. e ≢ DataError.Memory
        → (e ≡ DataError.NotWhole) × (members_whole (members_view members.now.entries) ≡ false)) }
{
    let mut made = Vec::with_capacity(alloc, members.len())?;
    for (name, member) in members.iter() {
        let name = units_of(alloc, name.as_str())?;
        made.push((name, datum_of(alloc, member)?))?;
    }
    Ok(made)
}

// The text in UTF-16.
fn units_of(alloc: Global, text: &str) -> Result<Units, DataError>
    ensures same { IfOk result (λ units. IsSameText text.now units) }
    ensures memory { IfErr result (λ e. e ≡ DataError.Memory) }
{
    match Units::from_utf8(alloc, text.as_bytes()) {
        Ok(units) => Ok(units),
        Err(TextError::Memory) => Err(DataError::Memory),
        Err(TextError::NotUtf8 | TextError::LoneSurrogate) => unreachable!(),
    }
}
