//! The lines of a file of gestures, each read of its bytes.
ghost use Rattle.std.specs.Prelude.{◌≡◌, ◌≢◌, ◌∷◌, ◌++◌, ◌<◌, ◌≤◌, ◌^◌, ℕ, List, decimal, Option, Some, None, IsNone, IfSome, IfOk, IsErrOf};
ghost use Rattle.rip_base.specs.Text.{IsSameText};
ghost use Rattle.rip_base.specs.declared.report.EventKind.{EventKind as Kind};
ghost use Rattle.rip_base.specs.declared.report.Report.{Report as AnyReport};
ghost use Rattle.rip_wire.specs.Items.{event_word};
ghost use Rattle.rip_wire.specs.declared.gesture.Gesture.{Gesture as AnyGesture};
ghost use Rattle.rip_trace.specs.Gestures.{IsTarget, IsReported, IsGestureLine};

use crate::text::{behind, number_then, split_space};
use rip_base::{EventKind, Report, TextError, Units};
use rip_wire::{Gesture, LineError};
use rip_words::numerals::read_number;
use std::alloc::Global;

/// The gesture that a line spells, or none of a comment.
#[tactic(auto, using(crate::proofs::GestureLemmas::other_lines))]
pub(crate) fn read_gesture(alloc: Global, bytes: &[u8]) -> Result<Option<Gesture>, LineError>
    ensures is { IfOk result (λ l. IsGestureLine bytes.now l) }
    ensures other { IsErrOf result LineError.Other
        → (l : Option AnyGesture) → ¬ IsGestureLine bytes.now l }
{
    if behind(bytes, b"#").is_some() {
        Ok(None)
    } else if bytes == b"flush".as_slice() {
        Ok(Some(Gesture::Flush))
    } else {
        Ok(Some(Gesture::Event(report_in(alloc, bytes)?)))
    }
}

/// The event that a line spells by the word of its kind and its target.
#[tactic(auto, using(crate::proofs::GestureLemmas::reported))]
fn report_in(alloc: Global, bytes: &[u8]) -> Result<Report, LineError>
    ensures is { IfOk result (λ r. IsReported bytes.now r) }
    ensures other { IsErrOf result LineError.Other → (r : AnyReport) → ¬ IsReported bytes.now r }
{
    let Some((word, target)) = split_space(bytes) else {
        return Err(LineError::Other);
    };
    let Some(kind) = kind_of(word) else {
        return Err(LineError::Other);
    };
    target_in(alloc, kind, target)
}

/// The kind of event that has this word.
fn kind_of(word: &[u8]) -> Option<EventKind>
    ensures is { IfSome result (λ kind. word.now ≡ event_word kind) }
    ensures none { IsNone result → (kind : Kind) → word.now ≢ event_word kind }
{
    match word {
        b"click" => Some(EventKind::Click),
        b"focus" => Some(EventKind::Focus),
        b"blur" => Some(EventKind::Blur),
        b"submit" => Some(EventKind::Submit),
        b"change" => Some(EventKind::Change),
        b"input" => Some(EventKind::Input),
        _ => None,
    }
}

/// The event of this kind whose target, with what stands behind it, the bytes spell.
#[tactic(auto, using(crate::proofs::GestureLemmas::bare_only))]
fn target_in(alloc: Global, kind: EventKind, bytes: &[u8]) -> Result<Report, LineError>
    ensures kind { IfOk result (λ r. r.kind ≡ kind) }
    ensures is { IfOk result (λ r. IsTarget bytes.now r.kind r.node r.text r.place) }
    ensures other { IsErrOf result LineError.Other
        → (node : ℕ) (text : Option (List ℕ)) (place : Option ℕ)
        → ¬ IsTarget bytes.now kind node text place }
{
    match kind {
        EventKind::Input => input_in(alloc, bytes),
        EventKind::Change => or_other(change_in(bytes)),
        EventKind::Click | EventKind::Focus | EventKind::Blur | EventKind::Submit => {
            or_other(bare_in(kind, bytes))
        }
    }
}

/// The event, if there is one.
fn or_other(report: Option<Report>) -> Result<Report, LineError>
    ensures ok { IfOk result (λ r. report ≡ Some r) }
    ensures err { IsErrOf result LineError.Other → report ≡ None }
{
    report.ok_or(LineError::Other)
}

/// An input: `N TEXT`.
#[tactic(auto, using(crate::proofs::GestureLemmas::text_target, crate::proofs::GestureLemmas::no_input))]
fn input_in(alloc: Global, bytes: &[u8]) -> Result<Report, LineError>
    ensures kind { IfOk result (λ r. r.kind ≡ EventKind.Input) }
    ensures is { IfOk result (λ r. IsTarget bytes.now r.kind r.node r.text r.place) }
    ensures other { IsErrOf result LineError.Other
        → (node : ℕ) (text : Option (List ℕ)) (place : Option ℕ)
        → ¬ IsTarget bytes.now EventKind.Input node text place }
{
    let Some((number, utf8)) = number_then(bytes) else {
        return Err(LineError::Other);
    };
    let Some(node) = node_of(number) else {
        return Err(LineError::Other);
    };
    Ok(Report {
        kind: EventKind::Input,
        node,
        text: Some(text_in(alloc, utf8)?),
        place: None,
    })
}

/// The text that the bytes spell in UTF-8.
fn text_in(alloc: Global, bytes: &[u8]) -> Result<Units, LineError>
    ensures is { IfOk result (λ text. IsSameText bytes.now text) }
    ensures other { IsErrOf result LineError.Other → (text : List ℕ) → ¬ IsSameText bytes.now text }
{
    match Units::from_utf8(alloc, bytes) {
        Ok(text) => Ok(text),
        Err(TextError::Memory) => Err(LineError::Memory),
        Err(TextError::NotUtf8 | TextError::LoneSurrogate) => Err(LineError::Other),
    }
}

/// A change: `N` or `N K`.
#[tactic(auto, using(crate::proofs::GestureLemmas::place_target))]
fn change_in(bytes: &[u8]) -> Option<Report>
    ensures kind { IfSome result (λ r. r.kind ≡ EventKind.Change) }
    ensures is { IfSome result (λ r. IsTarget bytes.now r.kind r.node r.text r.place) }
    ensures none { IsNone result
        → (node : ℕ) (text : Option (List ℕ)) (place : Option ℕ)
        → ¬ IsTarget bytes.now EventKind.Change node text place }
{
    match number_then(bytes) {
        None => bare_in(EventKind::Change, bytes),
        Some((number, place)) => Some(Report {
            kind: EventKind::Change,
            node: node_of(number)?,
            text: None,
            place: Some(small_number(place)?),
        }),
    }
}

/// An event with nothing but its target: `N`.
#[tactic(auto, using(crate::proofs::GestureLemmas::bare_target, crate::proofs::GestureLemmas::no_bare))]
fn bare_in(kind: EventKind, bytes: &[u8]) -> Option<Report>
    requires { kind ≢ EventKind.Input }
    ensures kind { IfSome result (λ r. r.kind ≡ kind) }
    ensures is { IfSome result (λ r. IsTarget bytes.now r.kind r.node r.text r.place) }
    ensures none { IsNone result → (node : ℕ) → ¬ IsTarget bytes.now kind node None None }
{
    Some(Report {
        kind,
        node: small_number(bytes)?,
        text: None,
        place: None,
    })
}

/// The number below 2^32 whose numeral the bytes are.
#[tactic(auto, using(crate::proofs::GestureLemmas::no_small, crate::proofs::GestureLemmas::late_small))]
fn small_number(bytes: &[u8]) -> Option<u32>
    ensures is { IfSome result (λ n. bytes.now ≡ decimal n) }
    ensures none { IsNone result → (n : ℕ) → n < 2 ^ 32 → bytes.now ≢ decimal n }
{
    node_of(read_number(bytes)?)
}

/// The number of a target, or of a place.
fn node_of(number: u64) -> Option<u32>
    ensures is { IfSome result (λ n. n ≡ number) }
    ensures none { IsNone result → 2 ^ 32 ≤ number }
{
    u32::try_from(number).ok()
}
