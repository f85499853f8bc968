//! The parts of a line that are more than a numeral or a word.
ghost use Rattle.std.specs.Prelude.{◌≡◌, ◌≢◌, ◌<◌, ◌≤◌, ◌^◌, ◌⊎◌, ℕ, List as Sequence, length, map, IsNone, IfSome, IfOk, OnOk, IsErrOf};
ghost use Rattle.std.specs.Bool.{OnTrue, OnFalse};
ghost use Rattle.rip_data.specs.Datum.{Tree, tree_of, trees_in, canonical_text, nesting, IsDatum};
ghost use Rattle.rip_data.specs.Datum as tree;
ghost use Rattle.rip_wire.specs.Calls.{IsCallText};
ghost use Rattle.rip_wire.specs.Batches.{items_text, AreItems};
ghost use Rattle.rip_wire.specs.Items.{Reported, reported_of, args_tree, AreArgs};
ghost use Rattle.rip_wire.specs.Names.{IsName};
ghost use Rattle.rip_log.specs.Parts.{identifier_text, name_text, args_text, IsReply};

use crate::words::is_word;
use rip_base::{Bytes, Units};
use rip_data::{
    DataError, Datum, DatumList, MAX_DEPTH, MAX_LENGTH, datum_of, datum_size, read_value,
    write_datum,
};
use rip_wire::{ItemList, LineError, WireError, is_name, read_call, read_item_list};
use std::alloc::Global;
use uuid::Uuid;

/// The identifier that the word is, in hyphens and small letters.
pub(crate) fn identifier_in(word: &[u8]) -> Option<u128>
    ensures is { IfSome result (λ id. word.now ≡ identifier_text id) }
    ensures none { IsNone result → (id : ℕ) → id < 2 ^ 128 → word.now ≢ identifier_text id }
{
    let id = Uuid::try_parse_ascii(word).ok()?.as_u128();
    if is_identifier(id, word) {
        Some(id)
    } else {
        None
    }
}

/// Whether the word is that of the identifier.
fn is_identifier(id: u128, word: &[u8]) -> bool
    ensures yes { OnTrue result (word.now ≡ identifier_text id) }
    ensures no { OnFalse result (word.now ≢ identifier_text id) }
{
    let mut room = [0u8; 36];
    let text = Uuid::from_u128(id).hyphenated().encode_lower(&mut room);
    is_word(word, text)
}

/// The datum whose canonical text the word is.
#[tactic(auto, using(crate::proofs::PartLemmas::no_value, crate::proofs::PartLemmas::not_whole, crate::proofs::PartLemmas::other_text))]
fn datum_in(alloc: Global, word: &[u8]) -> Result<Datum, LineError>
    ensures is { IfOk result (λ d. word.now ≡ canonical_text (tree_of d)) }
    ensures made { IfOk result (λ d. IsDatum (tree_of d)) }
    ensures other { IsErrOf result LineError.Other
        → (t : Tree) → IsDatum t → nesting t ≤ 127 → word.now ≢ canonical_text t }
{
    let value = match read_value(alloc, word) {
        Ok(value) => value,
        Err(DataError::Memory) => return Err(LineError::Memory),
        Err(_) => return Err(LineError::Other),
    };
    let datum = match datum_of(alloc, &value) {
        Ok(datum) => datum,
        Err(DataError::Memory) => return Err(LineError::Memory),
        Err(_) => return Err(LineError::Other),
    };
    let written = write_datum(&datum, alloc)?;
    if written.as_slice() == word {
        Ok(datum)
    } else {
        Err(LineError::Other)
    }
}

/// The datum that may be replied and whose canonical text the word is.
#[tactic(auto, using(crate::proofs::PartLemmas::no_reply, crate::proofs::PartLemmas::too_large))]
pub(crate) fn reply_in(alloc: Global, word: &[u8]) -> Result<Datum, LineError>
    ensures is { IfOk result (λ d. word.now ≡ canonical_text (tree_of d)) }
    ensures made { IfOk result (λ d. IsReply (tree_of d)) }
    ensures other { IsErrOf result LineError.Other
        → (t : Tree) → IsReply t → word.now ≢ canonical_text t }
{
    let datum = datum_in(alloc, word)?;
    if is_small(&datum) {
        Ok(datum)
    } else {
        Err(LineError::Other)
    }
}

/// Whether the datum nests at most 8 deep and has a text of at most 16,384 bytes.
fn is_small(datum: &Datum) -> bool
    ensures yes { OnTrue result ((nesting (tree_of datum.now) ≤ 8)
        × (length (canonical_text (tree_of datum.now)) ≤ 16384)) }
    ensures no { OnFalse result ((8 < nesting (tree_of datum.now))
        ⊎ (16384 < length (canonical_text (tree_of datum.now)))) }
{
    let size = datum_size(datum);
    size.depth <= MAX_DEPTH && size.length <= MAX_LENGTH
}

/// The args of a call that the word is.
#[tactic(auto, using(crate::proofs::PartLemmas::no_args, crate::proofs::PartLemmas::no_list, crate::proofs::PartLemmas::args_reply))]
pub(crate) fn args_in(alloc: Global, word: &[u8]) -> Result<DatumList, LineError>
    ensures is { IfOk result (λ args. word.now ≡ args_text (trees_in args)) }
    ensures made { IfOk result (λ args. AreArgs (trees_in args)) }
    ensures other { IsErrOf result LineError.Other
        → (args : Sequence Tree) → AreArgs args → word.now ≢ args_text args }
{
    list_of(reply_in(alloc, word)?).ok_or(LineError::Other)
}

/// The list that the datum is.
fn list_of(datum: Datum) -> Option<DatumList>
    ensures some { IfSome result (λ l. tree_of datum ≡ args_tree (trees_in l)) }
    ensures none { IsNone result → (args : Sequence Tree) → tree_of datum ≢ args_tree args }
{
    match datum {
        Datum::List(list) => Some(list),
        _ => None,
    }
}

/// The name of a call that the word is, as JSON.
#[tactic(auto, using(crate::proofs::PartLemmas::no_name, crate::proofs::PartLemmas::no_text, crate::proofs::PartLemmas::other_name))]
pub(crate) fn name_in(alloc: Global, word: &[u8]) -> Result<Units, LineError>
    ensures is { IfOk result (λ name. word.now ≡ name_text name) }
    ensures made { IfOk result IsName }
    ensures other { IsErrOf result LineError.Other
        → (name : Sequence ℕ) → IsName name → word.now ≢ name_text name }
{
    let Some(name) = text_of(datum_in(alloc, word)?) else {
        return Err(LineError::Other);
    };
    if is_name(name.as_slice()) {
        Ok(name)
    } else {
        Err(LineError::Other)
    }
}

/// The text that the datum is.
fn text_of(datum: Datum) -> Option<Units>
    ensures some { IfSome result (λ text. tree_of datum ≡ tree.text text) }
    ensures none { IsNone result → (text : Sequence ℕ) → tree_of datum ≢ tree.text text }
{
    match datum {
        Datum::Text(text) => Some(text),
        _ => None,
    }
}

/// The text of a call that the word is.
pub(crate) fn call_text_in(alloc: Global, word: &[u8]) -> Result<Bytes, LineError>
    ensures is { IfOk result (λ text. text ≡ word.now) }
    ensures made { IfOk result IsCallText }
    ensures other { IsErrOf result LineError.Other → ¬ IsCallText word.now }
{
    judge_call(alloc, word)?;
    Ok(Bytes::from_slice(alloc, word)?)
}

/// Nothing, where the word is the text of a call.
#[tactic(auto, using(crate::proofs::PartLemmas::is_call_text, crate::proofs::PartLemmas::no_call_text))]
fn judge_call(alloc: Global, word: &[u8]) -> Result<(), LineError>
    ensures is { OnOk result (IsCallText word.now) }
    ensures other { IsErrOf result LineError.Other → ¬ IsCallText word.now }
{
    match read_call(alloc, word) {
        Ok(_) => Ok(()),
        Err(WireError::Body) => Err(LineError::Other),
        Err(WireError::Memory) => Err(LineError::Memory),
    }
}

/// The items of a batch that the word is.
pub(crate) fn items_in(alloc: Global, word: &[u8]) -> Result<ItemList, LineError>
    ensures is { IfOk result (λ items. word.now ≡ items_text (map reported_of items)) }
    ensures in_range { IfOk result (λ items. AreItems (map reported_of items)) }
    ensures other { IsErrOf result LineError.Other
        → (items : Sequence Reported) → AreItems items → word.now ≢ items_text items }
{
    match read_item_list(alloc, word) {
        Ok(items) => Ok(items),
        Err(WireError::Body) => Err(LineError::Other),
        Err(WireError::Memory) => Err(LineError::Memory),
    }
}
