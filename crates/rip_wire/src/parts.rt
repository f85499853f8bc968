//! Items and calls by their one text, as a log has them.
ghost use Rattle.std.specs.Prelude.{◌≡◌, ◌≢◌, ℕ, List as Sequence, Some, map, ◌∷◌, ◌++◌, [], OnOk, IfOk, IsErrOf, IfSome, IfNone};
ghost use Rattle.serde_json.specs.Data.{Data};
ghost use Rattle.serde_json.specs.View.{view};
ghost use Rattle.rip_data.specs.Datum.{Tree, trees_in};
ghost use Rattle.rip_data.specs.Reading.{value_of};
ghost use Rattle.rip_wire.specs.Names.{IsName};
ghost use Rattle.rip_wire.specs.Items.{Reported, reported_of, item_value, list_of, AreArgs};
ghost use Rattle.rip_wire.specs.Batches.{items_text, AreItems};
ghost use Rattle.rip_wire.specs.Calls.{call_value, call_text};
ghost use Rattle.rip_wire.specs.Tokens.{tokens_of};

use crate::error::WireError;
use crate::item::{ItemList, MOST_ITEMS};
use crate::read::{items_of, value_in};
use crate::values::{args_of, name_of};
use crate::write::{write_items, write_text};
use json::Writer;
use rip_base::{Bytes, NoMemory, Units};
use rip_data::{DatumList, write_list};
use serde_json::Value;
use std::alloc::{AllocError, Global};

/// A call without its number.
#[derive(Drop)]
pub struct Call {
    pub name: Units,
    pub args: DatumList,
}

/// The text of the items: a list with no white space.
pub fn write_item_list(items: &ItemList, alloc: Global) -> Result<Bytes, NoMemory>
    ensures { IfOk result (λ bytes. bytes ≡ items_text (map reported_of items.now)) }
{
    let mut out = Writer::new(Vec::with_capacity(alloc, 128)?);
    write_list_of_items(items, &mut out, alloc)?;
    Ok(Bytes::from_vec(out.into_inner()))
}

fn write_list_of_items(items: &ItemList, out: &mut Writer, alloc: Global) -> Result<(), AllocError>
    ensures tokens { OnOk result (out.new.tokens
        ≡ out.old.tokens ++ tokens_of (list_of (map item_value (map reported_of items.now)))) }
    ensures before { out.new.before ≡ out.old.before }
{
    out.begin_array()?;
    write_items(items.as_slice(), out, alloc)
}

/// The items whose text, as [`write_item_list`] writes it, the bytes are.
#[tactic(auto, using(crate::proofs::PartLemmas::no_items, crate::proofs::PartLemmas::other_items))]
pub fn read_item_list(alloc: Global, text: &[u8]) -> Result<ItemList, WireError>
    ensures is { IfOk result (λ items. text.now ≡ items_text (map reported_of items)) }
    ensures in_range { IfOk result (λ items. AreItems (map reported_of items)) }
    ensures body { IsErrOf result WireError.Body
        → (items : Sequence Reported) → AreItems items → text.now ≢ items_text items }
{
    let items = item_list_of(alloc, text)?;
    let Ok(written) = write_item_list(&items, alloc) else {
        return Err(WireError::Memory);
    };
    if written.as_slice() == text {
        Ok(items)
    } else {
        Err(WireError::Body)
    }
}

// The items that the text is, as JSON.
#[tactic(auto, using(crate::proofs::PartLemmas::no_list, crate::proofs::PartLemmas::no_items_in))]
fn item_list_of(alloc: Global, text: &[u8]) -> Result<ItemList, WireError>
    ensures found { IfOk result
        (λ items. value_of text.now ≡ Some (list_of (map item_value (map reported_of items)))) }
    ensures in_range { IfOk result (λ items. AreItems (map reported_of items)) }
    ensures body { IsErrOf result WireError.Body
        → (items : Sequence Reported) → AreItems items
        → value_of text.now ≢ Some (list_of (map item_value items)) }
{
    let value = value_in(alloc, text)?;
    let Some(items) = value.as_array() else {
        return Err(WireError::Body);
    };
    if items.len() > MOST_ITEMS {
        return Err(WireError::Body);
    }
    items_of(alloc, items.as_slice())
}

/// The canonical text of a call, `[NAME,ARGS]`.
pub fn write_call(name: &Units, args: &DatumList, alloc: Global) -> Result<Bytes, NoMemory>
    ensures { IfOk result (λ bytes. bytes ≡ call_text name.now (trees_in args.now)) }
{
    let mut out = Writer::new(Vec::with_capacity(alloc, 128)?);
    write_pair(name, args, &mut out, alloc)?;
    Ok(Bytes::from_vec(out.into_inner()))
}

fn write_pair(
    name: &Units,
    args: &DatumList,
    out: &mut Writer,
    alloc: Global,
) -> Result<(), AllocError>
    ensures tokens { OnOk result (out.new.tokens
        ≡ out.old.tokens ++ tokens_of (call_value name.now (trees_in args.now))) }
    ensures before { out.new.before ≡ out.old.before }
{
    out.begin_array()?;
    write_text(name, out, alloc)?;
    write_list(args, out, alloc)?;
    out.end_array()
}

/// The call whose canonical text the bytes are.
#[tactic(auto, using(crate::proofs::PartLemmas::no_call, crate::proofs::PartLemmas::other_call))]
pub fn read_call(alloc: Global, text: &[u8]) -> Result<Call, WireError>
    ensures is { IfOk result (λ c. text.now ≡ call_text c.name (trees_in c.args)) }
    ensures name { IfOk result (λ c. IsName c.name) }
    ensures args { IfOk result (λ c. AreArgs (trees_in c.args)) }
    ensures body { IsErrOf result WireError.Body
        → (name : Sequence ℕ) (args : Sequence Tree) → IsName name → AreArgs args
        → text.now ≢ call_text name args }
{
    let call = call_of(alloc, text)?;
    let Ok(written) = write_call(&call.name, &call.args, alloc) else {
        return Err(WireError::Memory);
    };
    if written.as_slice() == text {
        Ok(call)
    } else {
        Err(WireError::Body)
    }
}

// The call that the text is, as JSON.
#[tactic(auto, using(crate::proofs::PartLemmas::no_pair, crate::proofs::PartLemmas::no_name, crate::proofs::PartLemmas::no_args))]
fn call_of(alloc: Global, text: &[u8]) -> Result<Call, WireError>
    ensures found { IfOk result
        (λ c. value_of text.now ≡ Some (call_value c.name (trees_in c.args))) }
    ensures name { IfOk result (λ c. IsName c.name) }
    ensures args { IfOk result (λ c. AreArgs (trees_in c.args)) }
    ensures body { IsErrOf result WireError.Body
        → (name : Sequence ℕ) (args : Sequence Tree) → IsName name → AreArgs args
        → value_of text.now ≢ Some (call_value name args) }
{
    let value = value_in(alloc, text)?;
    let Some((name, args)) = pair_of(&value) else {
        return Err(WireError::Body);
    };
    Ok(Call {
        name: name_of(alloc, name)?,
        args: args_of(alloc, args)?,
    })
}

// The two values of the list.
#[tactic(auto, using(crate::proofs::PartLemmas::two_values, crate::proofs::PartLemmas::not_two_values))]
fn pair_of(value: &Value) -> Option<(&Value, &Value)>
    ensures found { IfSome result
        (λ p. view value.now ≡ list_of (map view (p.0.now ∷ p.1.now ∷ []))) }
    ensures none { IfNone result
        ((first second : Data) → view value.now ≢ list_of (first ∷ second ∷ [])) }
{
    let values = value.as_array()?;
    if values.len() == 2 {
        Some((&values[0], &values[1]))
    } else {
        None
    }
}
