//! How a batch ended, read of the words of its line.
ghost use Rattle.std.specs.Prelude.{◌≡◌, ◌≢◌, ◌∷◌, [], ◌<◌, ◌^◌, ℕ, List as Sequence, Option as Maybe, Some, None, decimal, codes, IsNone, IsSome, IfSome, IfOk, IsErrOf};
ghost use Rattle.rip_base.specs.declared.report.BadReport.{BadReport as Kind};
ghost use Rattle.rip_base.specs.declared.value.Limit.{Limit as AnyLimit};
ghost use Rattle.rip_base.specs.declared.value.Fault.{Fault as AnyFault};
ghost use Rattle.rip_wire.specs.Calls.{IsCallText};
ghost use Rattle.rip_wire.specs.Reasons.{limit_reason, fault_reason, reason_word};
ghost use Rattle.rip_wire.specs.declared.ending.Ending.{Ending as How};
ghost use Rattle.rip_log.specs.Parts.{IsNoneOrCallText};
ghost use Rattle.rip_log.specs.Endings.{report_word, made_word, ending_words, IsCause};
ghost use Rattle.rip_log.specs.Ranges.{IsEnding, IsNoneOrEnding};

use crate::parts::call_text_in;
use crate::words::{Words, is_word};
use rip_base::{BadReport, Bytes, Fault, Limit};
use rip_wire::{Ending, LineError};
use std::alloc::Global;

/// How a batch ended, which the words tell.
#[tactic(auto, using(crate::proofs::EndingLemmas::only_ok, crate::proofs::EndingLemmas::only_mismatch, crate::proofs::EndingLemmas::only_report, crate::proofs::EndingLemmas::only_cause, crate::proofs::EndingLemmas::some_words))]
pub(crate) fn ended_in(alloc: Global, words: &mut Words<'_>) -> Result<Option<Ending>, LineError>
    ensures is { IfOk result (λ ended. words.old ≡ ending_words ended) }
    ensures in_range { IfOk result IsNoneOrEnding }
    ensures other { IsErrOf result LineError.Other
        → (ended : Maybe How) → IsNoneOrEnding ended → words.old ≢ ending_words ended }
{
    let Some(word) = words.next() else {
        return Err(LineError::Other);
    };
    if is_word(word, "ok") {
        if words.is_at_end() {
            Ok(None)
        } else {
            Err(LineError::Other)
        }
    } else if is_word(word, "mismatch") {
        Ok(Some(mismatch_in(alloc, words)?))
    } else if is_word(word, "report") {
        some_or_other(report_in(words))
    } else {
        some_or_other(cause_in(word, words))
    }
}

/// The ending, if there is one.
fn some_or_other(ending: Option<Ending>) -> Result<Option<Ending>, LineError>
    ensures ok { IfOk result (λ e. (e ≡ ending) × IsSome e) }
    ensures err { IsErrOf result LineError.Other → ending ≡ None }
{
    match ending {
        Some(ending) => Ok(Some(ending)),
        None => Err(LineError::Other),
    }
}

/// A mismatch: the item, the number, and the calls that were reported and made.
fn mismatch_in(alloc: Global, words: &mut Words<'_>) -> Result<Ending, LineError>
    ensures is { IfOk result (λ e. codes "mismatch" ∷ words.old ≡ ending_words (Some e)) }
    ensures in_range { IfOk result IsEnding }
    ensures other { IsErrOf result LineError.Other
        → (item number : ℕ) (reported : Sequence ℕ) (made : Maybe (Sequence ℕ))
        → item < 2 ^ 32 → number < 2 ^ 32 → IsCallText reported → IsNoneOrCallText made
        → words.old ≢ decimal item ∷ decimal number ∷ reported ∷ made_word made ∷ [] }
{
    let Some(item) = words.short() else {
        return Err(LineError::Other);
    };
    let Some(number) = words.short() else {
        return Err(LineError::Other);
    };
    let Calls { reported, made } = calls_in(alloc, words)?;
    Ok(Ending::Mismatch {
        item,
        number: u64::from(number),
        reported,
        made,
    })
}

/// The call that was reported, and the one that was made in its place.
#[derive(Drop)]
struct Calls {
    reported: Bytes,
    made: Option<Bytes>,
}

/// The calls of a mismatch, which are the last of its words.
fn calls_in(alloc: Global, words: &mut Words<'_>) -> Result<Calls, LineError>
    ensures is { IfOk result (λ c. words.old ≡ c.reported ∷ made_word c.made ∷ []) }
    ensures reported { IfOk result (λ c. IsCallText c.reported) }
    ensures made { IfOk result (λ c. IsNoneOrCallText c.made) }
    ensures other { IsErrOf result LineError.Other
        → (reported : Sequence ℕ) (made : Maybe (Sequence ℕ))
        → IsCallText reported → IsNoneOrCallText made
        → words.old ≢ reported ∷ made_word made ∷ [] }
{
    let Some(reported) = words.next() else {
        return Err(LineError::Other);
    };
    let reported = call_text_in(alloc, reported)?;
    let Some(made) = words.next() else {
        return Err(LineError::Other);
    };
    if !words.is_at_end() {
        return Err(LineError::Other);
    }
    let made = made_in(alloc, made)?;
    Ok(Calls { reported, made })
}

/// The call that was made, or `none`.
#[tactic(auto, using(crate::proofs::EndingLemmas::not_made))]
fn made_in(alloc: Global, word: &[u8]) -> Result<Option<Bytes>, LineError>
    ensures is { IfOk result (λ made. made_word made ≡ word.now) }
    ensures in_range { IfOk result IsNoneOrCallText }
    ensures other { IsErrOf result LineError.Other
        → (made : Maybe (Sequence ℕ)) → IsNoneOrCallText made → word.now ≢ made_word made }
{
    if is_word(word, "none") {
        Ok(None)
    } else {
        Ok(Some(call_text_in(alloc, word)?))
    }
}

/// A report that is not legal: the item, and what is wrong.
fn report_in(words: &mut Words<'_>) -> Option<Ending>
    ensures is { IfSome result (λ e. codes "report" ∷ words.old ≡ ending_words (Some e)) }
    ensures in_range { IfSome result IsEnding }
    ensures none { IsNone result
        → (item : ℕ) (kind : Kind) → item < 2 ^ 32
        → words.old ≢ decimal item ∷ report_word kind ∷ [] }
{
    let item = words.short()?;
    let kind = report_kind(words.next()?)?;
    if !words.is_at_end() {
        return None;
    }
    Some(Ending::BadReport { item, kind })
}

/// What is wrong with a report, by its word.
fn report_kind(word: &[u8]) -> Option<BadReport>
    ensures is { IfSome result (λ kind. word.now ≡ report_word kind) }
    ensures none { IsNone result → (kind : Kind) → word.now ≢ report_word kind }
{
    if is_word(word, "node") {
        Some(BadReport::Node)
    } else if is_word(word, "control") {
        Some(BadReport::Control)
    } else if is_word(word, "disabled") {
        Some(BadReport::Disabled)
    } else if is_word(word, "long") {
        Some(BadReport::Long)
    } else if is_word(word, "option") {
        Some(BadReport::Option)
    } else if is_word(word, "number") {
        Some(BadReport::Number)
    } else if is_word(word, "due") {
        Some(BadReport::Due)
    } else {
        None
    }
}

/// A limit, a fault or want of memory, by its word, and the item.
#[tactic(auto, using(crate::proofs::EndingLemmas::no_item, crate::proofs::EndingLemmas::more_words, crate::proofs::EndingLemmas::no_cause))]
fn cause_in(word: &[u8], words: &mut Words<'_>) -> Option<Ending>
    ensures is { IfSome result (λ e. word.now ∷ words.old ≡ ending_words (Some e)) }
    ensures in_range { IfSome result IsEnding }
    ensures none { IsNone result
        → (e : How) → IsCause e → IsEnding e → word.now ∷ words.old ≢ ending_words (Some e) }
{
    let item = words.short()?;
    if !words.is_at_end() {
        return None;
    }
    if let Some(limit) = limit_of(word) {
        Some(Ending::Limit { item, limit })
    } else if let Some(fault) = fault_of(word) {
        Some(Ending::Fault { item, fault })
    } else if is_word(word, "memory") {
        Some(Ending::Memory { item })
    } else {
        None
    }
}

/// The limit that has this word.
fn limit_of(word: &[u8]) -> Option<Limit>
    ensures is { IfSome result (λ limit. word.now ≡ reason_word (limit_reason limit)) }
    ensures none { IsNone result → (limit : AnyLimit)
        → word.now ≢ reason_word (limit_reason limit) }
{
    if is_word(word, "fuel") {
        Some(Limit::Fuel)
    } else if is_word(word, "cells") {
        Some(Limit::Cells)
    } else if is_word(word, "units") {
        Some(Limit::Units)
    } else if is_word(word, "nodes") {
        Some(Limit::Nodes)
    } else if is_word(word, "depth") {
        Some(Limit::Depth)
    } else if is_word(word, "queue") {
        Some(Limit::Queue)
    } else if is_word(word, "replies") {
        Some(Limit::Replies)
    } else {
        None
    }
}

/// The fault that has this word.
fn fault_of(word: &[u8]) -> Option<Fault>
    ensures is { IfSome result (λ fault. word.now ≡ reason_word (fault_reason fault)) }
    ensures none { IsNone result → (fault : AnyFault)
        → word.now ≢ reason_word (fault_reason fault) }
{
    if is_word(word, "not-whole") {
        Some(Fault::NotWhole)
    } else if is_word(word, "infinite") {
        Some(Fault::Infinite)
    } else if is_word(word, "out-of-range") {
        Some(Fault::OutOfRange)
    } else if is_word(word, "hole") {
        Some(Fault::Hole)
    } else if is_word(word, "not-in-profile") {
        Some(Fault::NotInProfile)
    } else if is_word(word, "object-to-primitive") {
        Some(Fault::ObjectToPrimitive)
    } else if is_word(word, "bad-argument") {
        Some(Fault::BadArgument)
    } else if is_word(word, "lone-surrogate") {
        Some(Fault::LoneSurrogate)
    } else if is_word(word, "text-too-long") {
        Some(Fault::TextTooLong)
    } else {
        None
    }
}
