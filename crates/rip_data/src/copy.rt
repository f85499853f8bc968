ghost use Rattle.std.specs.Prelude.{◌≡◌, IfOk, map};
ghost use Rattle.rip_data.specs.Datum.{field_of, tree_of, trees_in};

use crate::datum::{Datum, DatumFields, DatumList};
use rip_base::{NoMemory, Units};
use std::alloc::Global;

/// The same datum once more. It calls itself once for each level of nesting.
#[cycle(copy)]
pub fn copy_datum(alloc: Global, datum: &Datum) -> Result<Datum, NoMemory>
    ensures { IfOk result (λ d. tree_of d ≡ tree_of datum.now) }
{
    match datum {
        Datum::Null => Ok(Datum::Null),
        Datum::Bool(b) => Ok(Datum::Bool(*b)),
        Datum::Num(whole) => Ok(Datum::Num(*whole)),
        Datum::Text(text) => Ok(Datum::Text(Units::from_slice(alloc, text.as_slice())?)),
        Datum::List(list) => {
            let items = copy_elements(alloc, &list.items)?;
            Ok(Datum::List(DatumList { items }))
        }
        Datum::Fields(object) => {
            let fields = copy_fields(alloc, &object.fields)?;
            Ok(Datum::Fields(DatumFields { fields }))
        }
    }
}

#[cycle(copy)]
fn copy_elements(alloc: Global, items: &Vec<Datum>) -> Result<Vec<Datum>, NoMemory>
    ensures { IfOk result (λ ds. map tree_of ds.items ≡ map tree_of items.now.items) }
{
    let mut made = Vec::with_capacity(alloc, items.len())?;
    for item in items {
        made.push(copy_datum(alloc, item)?)?;
    }
    Ok(made)
}

#[cycle(copy)]
fn copy_fields(alloc: Global, fields: &Vec<(Units, Datum)>) -> Result<Vec<(Units, Datum)>, NoMemory>
    ensures { IfOk result (λ fs. map field_of fs.items ≡ map field_of fields.now.items) }
{
    let mut made = Vec::with_capacity(alloc, fields.len())?;
    for field in fields {
        let name = Units::from_slice(alloc, field.0.as_slice())?;
        made.push((name, copy_datum(alloc, &field.1)?))?;
    }
    Ok(made)
}

/// The same list once more.
pub fn copy_list(alloc: Global, list: &DatumList) -> Result<DatumList, NoMemory>
    ensures { IfOk result (λ copy. trees_in copy ≡ trees_in list.now) }
{
    let items = copy_elements(alloc, &list.items)?;
    Ok(DatumList { items })
}
