ghost use Rattle.std.specs.Prelude.{◌≡◌, ◌≢◌, ◌≤◌, ◌<◌, ◌^◌, ℕ, List as Items, Some, None, map, codes, IfSome, IfNone, IfOk, IsErrOf};
ghost use Rattle.std.specs.List.{AllByRecursion};
ghost use Rattle.serde_json.specs.Data.{Data, object, member, no_members};
ghost use Rattle.serde_json.specs.View.{view};
ghost use Rattle.rip_data.specs.Reading.{value_of};
ghost use Rattle.rip_wire.specs.Items.{Reported, reported_of, item_value, number_value, IsItem};
ghost use Rattle.rip_wire.specs.Batches.{Contents, contents_of, batch_value, IsBatch, Spells, SpellsNone};

use crate::error::WireError;
use crate::item::{Batch, ItemList, MOST_BATCHES, MOST_ITEMS};
use crate::items::item_of;
use rip_base::List;
use rip_data::{DataError, read_value};
use serde_json::Value;
use std::alloc::Global;

/// The batch that a request's body spells, as JSON in UTF-8 (RFC 8259): `{"batch":N,"items":[..]}` with exactly these
/// members, in any order. Of a repeated member the last counts.
///
/// It takes time in proportion to the body, and so does a refusal.
pub fn read_batch(alloc: Global, body: &[u8]) -> Result<Batch, WireError>
    ensures ok { IfOk result (λ b. Spells body.now (contents_of b)) }
    ensures body { IsErrOf result WireError.Body → SpellsNone body.now }
{
    let value = value_in(alloc, body)?;
    batch_of(alloc, &value)
}

// The value that the text is, as JSON in UTF-8.
pub(crate) fn value_in(alloc: Global, text: &[u8]) -> Result<Value, WireError>
    ensures found { IfOk result (λ v. value_of text.now ≡ Some (view v)) }
    ensures body { IsErrOf result WireError.Body → value_of text.now ≡ None }
{
    match read_value(alloc, text) {
        Ok(value) => Ok(value),
        Err(DataError::Memory) => Err(WireError::Memory),
        Err(_) => Err(WireError::Body),
    }
}

// The batch that the value is.
#[tactic(auto, using(crate::proofs::BatchLemmas::no_batch, crate::proofs::BatchLemmas::no_number, crate::proofs::BatchLemmas::no_list, crate::proofs::BatchLemmas::no_items_in))]
fn batch_of(alloc: Global, value: &Value) -> Result<Batch, WireError>
    ensures found { IfOk result (λ b. view value.now ≡ batch_value (contents_of b)) }
    ensures in_range { IfOk result (λ b. IsBatch (contents_of b)) }
    ensures body { IsErrOf result WireError.Body
        → (b : Contents) → IsBatch b → view value.now ≢ batch_value b }
{
    let Some(Members { number, items }) = members_of(value) else {
        return Err(WireError::Body);
    };
    let Some(number) = batch_number(number) else {
        return Err(WireError::Body);
    };
    let Some(items) = items.as_array() else {
        return Err(WireError::Body);
    };
    if items.len() > MOST_ITEMS {
        return Err(WireError::Body);
    }
    let items = items_of(alloc, items.as_slice())?;
    Ok(Batch { number, items })
}

// The two members of a batch.
#[derive(Clone, Copy)]
struct Members<'a> {
    number: &'a Value,
    items: &'a Value,
}

// The members of the object, if they are exactly those of a batch.
fn members_of(value: &Value) -> Option<Members<'_>>
    ensures found { IfSome result (λ m. view value.now
        ≡ object (member (codes "batch") (view m.number.now)
        (member (codes "items") (view m.items.now) no_members))) }
    ensures none { IfNone result ((number items : Data) → view value.now
        ≢ object (member (codes "batch") number (member (codes "items") items no_members))) }
{
    let mut members = value.as_object()?.iter();
    let (first, number) = members.next()?;
    let (second, items) = members.next()?;
    if first.as_str() == "batch" && second.as_str() == "items" && members.next().is_none() {
        Some(Members { number, items })
    } else {
        None
    }
}

// The number of a batch that the value is.
fn batch_number(value: &Value) -> Option<u64>
    ensures found { IfSome result (λ n. view value.now ≡ number_value n) }
    ensures in_range { IfSome result (λ n. (1 ≤ n) × (n < 2 ^ 53)) }
    ensures none { IfNone result ((n : ℕ) → 1 ≤ n → n < 2 ^ 53 → view value.now ≢ number_value n) }
{
    let number = value.as_u64()?;
    if number == 0 || number > MOST_BATCHES {
        return None;
    }
    Some(number)
}

// The items that the values are.
#[tactic(auto, using(crate::proofs::BatchLemmas::no_item_at))]
pub(crate) fn items_of(alloc: Global, values: &[Value]) -> Result<ItemList, WireError>
    ensures found { IfOk result
        (λ items. map view values.now ≡ map item_value (map reported_of items)) }
    ensures in_range { IfOk result (λ items. AllByRecursion IsItem (map reported_of items)) }
    ensures body { IsErrOf result WireError.Body
        → (items : Items Reported) → AllByRecursion IsItem items
        → map view values.now ≢ map item_value items }
{
    let mut items = Vec::with_capacity(alloc, values.len())?;
    for value in values {
        items.push(item_of(alloc, value)?)?;
    }
    Ok(List::from_vec(items))
}
