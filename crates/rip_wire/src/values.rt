ghost use Rattle.std.specs.Prelude.{◌≡◌, ◌≢◌, ◌<◌, ◌^◌, ℕ, List as Items, IfSome, IfNone, IfOk, IsErrOf};
ghost use Rattle.serde_json.specs.View.{view};
ghost use Rattle.rip_base.specs.Text.{IsUtf16};
ghost use Rattle.rip_base.specs.declared.report.EventKind.{EventKind as Kind};
ghost use Rattle.rip_data.specs.Datum.{Tree, tree_of, trees_in, data_of, IsDatum};
ghost use Rattle.rip_wire.specs.Names.{IsName};
ghost use Rattle.rip_wire.specs.Items.{event_word, text_value, number_value, args_tree, AreArgs};

use crate::error::WireError;
use crate::name::is_name;
use rip_base::{EventKind, Units};
use rip_data::{DataError, Datum, DatumList, MAX_DEPTH, MAX_LENGTH, datum_of, datum_size};
use serde_json::Value;
use std::alloc::Global;

// The kind of event that has this word.
pub(crate) fn event_kind(word: &str) -> Option<EventKind>
    ensures found { IfSome result (λ kind. word.now ≡ event_word kind) }
    ensures none { IfNone result ((kind : Kind) → word.now ≢ event_word kind) }
{
    match word {
        "click" => Some(EventKind::Click),
        "focus" => Some(EventKind::Focus),
        "blur" => Some(EventKind::Blur),
        "submit" => Some(EventKind::Submit),
        "change" => Some(EventKind::Change),
        "input" => Some(EventKind::Input),
        _ => None,
    }
}

// The number below 2^32 that the value is.
pub(crate) fn number_of(value: &Value) -> Option<u32>
    ensures found { IfSome result (λ n. view value.now ≡ number_value n) }
    ensures none { IfNone result ((n : ℕ) → n < 2 ^ 32 → view value.now ≢ number_value n) }
{
    u32::try_from(value.as_u64()?).ok()
}

// The datum that the value is.
#[tactic(auto, using(crate::proofs::ValueLemmas::no_datum))]
fn whole_datum(alloc: Global, value: &Value) -> Result<Datum, WireError>
    ensures found { IfOk result (λ d. data_of (tree_of d) ≡ view value.now) }
    ensures made { IfOk result (λ d. IsDatum (tree_of d)) }
    ensures body { IsErrOf result WireError.Body
        → (t : Tree) → IsDatum t → view value.now ≢ data_of t }
{
    match datum_of(alloc, value) {
        Ok(datum) => Ok(datum),
        Err(DataError::Memory) => Err(WireError::Memory),
        Err(_) => Err(WireError::Body),
    }
}

// The text that the value is.
#[tactic(auto, using(crate::proofs::ValueLemmas::no_text))]
pub(crate) fn text_of(alloc: Global, value: &Value) -> Result<Units, WireError>
    ensures found { IfOk result (λ text. view value.now ≡ text_value text) }
    ensures made { IfOk result IsUtf16 }
    ensures body { IsErrOf result WireError.Body
        → (text : Items ℕ) → IsUtf16 text → view value.now ≢ text_value text }
{
    match whole_datum(alloc, value)? {
        Datum::Text(text) => Ok(text),
        _ => Err(WireError::Body),
    }
}

// The name of a call that the value is.
#[tactic(auto, using(crate::proofs::ValueLemmas::no_name, crate::proofs::ValueLemmas::other_name))]
pub(crate) fn name_of(alloc: Global, value: &Value) -> Result<Units, WireError>
    ensures found { IfOk result (λ name. view value.now ≡ text_value name) }
    ensures made { IfOk result IsName }
    ensures body { IsErrOf result WireError.Body
        → (name : Items ℕ) → IsName name → view value.now ≢ text_value name }
{
    let text = text_of(alloc, value)?;
    if is_name(text.as_slice()) {
        Ok(text)
    } else {
        Err(WireError::Body)
    }
}

// The list that the datum is.
fn list_of(datum: Datum) -> Option<DatumList>
    ensures some { IfSome result (λ l. tree_of datum ≡ args_tree (trees_in l)) }
    ensures none { IfNone result ((args : Items Tree) → tree_of datum ≢ args_tree args) }
{
    match datum {
        Datum::List(list) => Some(list),
        _ => None,
    }
}

// The args of a call that the value is.
#[tactic(auto, using(crate::proofs::ValueLemmas::no_args, crate::proofs::ValueLemmas::deep_args, crate::proofs::ValueLemmas::long_args, crate::proofs::ValueLemmas::other_args))]
pub(crate) fn args_of(alloc: Global, value: &Value) -> Result<DatumList, WireError>
    ensures found { IfOk result (λ args. view value.now ≡ data_of (args_tree (trees_in args))) }
    ensures made { IfOk result (λ args. AreArgs (trees_in args)) }
    ensures body { IsErrOf result WireError.Body
        → (args : Items Tree) → AreArgs args → view value.now ≢ data_of (args_tree args) }
{
    let datum = whole_datum(alloc, value)?;
    let size = datum_size(&datum);
    if size.depth > MAX_DEPTH || size.length > MAX_LENGTH {
        return Err(WireError::Body);
    }
    list_of(datum).ok_or(WireError::Body)
}
