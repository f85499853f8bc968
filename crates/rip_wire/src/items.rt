ghost use Rattle.std.specs.Prelude.{◌≡◌, ◌≢◌, ◌∷◌, ℕ, List as Items, Option as Maybe, map, codes, IfSome, IfNone, IfOk, IsErrOf};
ghost use Rattle.serde_json.specs.Data.{Data, string};
ghost use Rattle.serde_json.specs.View.{view};
ghost use Rattle.rip_base.specs.declared.report.EventKind.{EventKind as Kind};
ghost use Rattle.rip_data.specs.Datum.{Tree, trees_in};
ghost use Rattle.rip_wire.specs.Items.{Reported, reported_of, list_of, detail_values, event_values, call_values, reply_values, item_value, HasDetail, AreArgs, IsItem};

use crate::error::WireError;
use crate::item::Item;
use crate::values::{args_of, event_kind, name_of, number_of, text_of};
use rip_base::{EventKind, Report, Units};
use serde_json::Value;
use std::alloc::Global;

// What stands behind the target of an event: a text, a place, or nothing.
struct Detail {
    text: Option<Units>,
    place: Option<u32>,
}

// What the values behind the target of an event are.
fn detail_of(alloc: Global, kind: EventKind, values: &[Value]) -> Result<Detail, WireError>
    ensures found { IfOk result (λ d. map view values.now ≡ detail_values d.text d.place) }
    ensures in_range { IfOk result (λ d. HasDetail kind d.text d.place) }
    ensures body { IsErrOf result WireError.Body
        → (text : Maybe (Items ℕ)) (place : Maybe ℕ) → HasDetail kind text place
        → map view values.now ≢ detail_values text place }
{
    match (kind, values) {
        (EventKind::Input, [text]) => Ok(Detail {
            text: Some(text_of(alloc, text)?),
            place: None,
        }),
        (EventKind::Change, [place]) => match number_of(place) {
            None => Err(WireError::Body),
            place => Ok(Detail { text: None, place }),
        },
        (EventKind::Input, _) => Err(WireError::Body),
        (_, []) => Ok(Detail {
            text: None,
            place: None,
        }),
        _ => Err(WireError::Body),
    }
}

// The event that the values behind its word are.
fn event_of(alloc: Global, values: &[Value]) -> Result<Item, WireError>
    ensures found { IfOk result
        (λ i. list_of (string (codes "event") ∷ map view values.now) ≡ item_value (reported_of i)) }
    ensures in_range { IfOk result (λ i. IsItem (reported_of i)) }
    ensures body { IsErrOf result WireError.Body
        → (kind : Kind) (node : ℕ) (text : Maybe (Items ℕ)) (place : Maybe ℕ)
        → IsItem (Reported.event kind node text place)
        → map view values.now ≢ event_values kind node text place }
{
    let [kind, node, detail @ ..] = values else {
        return Err(WireError::Body);
    };
    let (Some(kind), Some(node)) = (kind.as_str().and_then(event_kind), number_of(node)) else {
        return Err(WireError::Body);
    };
    let Detail { text, place } = detail_of(alloc, kind, detail)?;
    Ok(Item::Event {
        kind,
        node,
        text,
        place,
    })
}

// The call that the values behind its word are.
fn call_of(alloc: Global, values: &[Value]) -> Result<Item, WireError>
    ensures found { IfOk result
        (λ i. list_of (string (codes "call") ∷ map view values.now) ≡ item_value (reported_of i)) }
    ensures in_range { IfOk result (λ i. IsItem (reported_of i)) }
    ensures body { IsErrOf result WireError.Body
        → (number : ℕ) (name : Items ℕ) (args : Items Tree)
        → IsItem (Reported.call number name args)
        → map view values.now ≢ call_values number name args }
{
    let [number, name, args] = values else {
        return Err(WireError::Body);
    };
    let Some(number) = number_of(number) else {
        return Err(WireError::Body);
    };
    Ok(Item::Call {
        number: u64::from(number),
        name: name_of(alloc, name)?,
        args: args_of(alloc, args)?,
    })
}

// The reply that the values behind its word are.
fn reply_of(values: &[Value]) -> Result<Item, WireError>
    ensures found { IfOk result
        (λ i. list_of (string (codes "reply") ∷ map view values.now) ≡ item_value (reported_of i)) }
    ensures in_range { IfOk result (λ i. IsItem (reported_of i)) }
    ensures body { IsErrOf result WireError.Body
        → (number : ℕ) → IsItem (Reported.reply number)
        → map view values.now ≢ reply_values number }
{
    match values {
        [number] => match number_of(number) {
            Some(number) => Ok(Item::Reply {
                number: u64::from(number),
            }),
            None => Err(WireError::Body),
        },
        _ => Err(WireError::Body),
    }
}

// The item that the value is.
#[tactic(auto, using(crate::proofs::ItemLemmas::not_listed, crate::proofs::ItemLemmas::no_word))]
pub(crate) fn item_of(alloc: Global, value: &Value) -> Result<Item, WireError>
    ensures found { IfOk result (λ i. view value.now ≡ item_value (reported_of i)) }
    ensures in_range { IfOk result (λ i. IsItem (reported_of i)) }
    ensures body { IsErrOf result WireError.Body
        → (item : Reported) → IsItem item → view value.now ≢ item_value item }
{
    let Some((word, values)) = parts_of(value) else {
        return Err(WireError::Body);
    };
    match word.as_str() {
        Some("event") => event_of(alloc, values),
        Some("call") => call_of(alloc, values),
        Some("reply") => reply_of(values),
        _ => Err(WireError::Body),
    }
}

// The first value of the list, and the values behind it.
fn parts_of(value: &Value) -> Option<(&Value, &[Value])>
    ensures found { IfSome result
        (λ p. view value.now ≡ list_of (view p.0.now ∷ map view p.1.now)) }
    ensures none { IfNone result
        ((first : Data) (others : Items Data) → view value.now ≢ list_of (first ∷ others)) }
{
    value.as_array()?.split_first()
}
