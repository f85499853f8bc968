//! The entries, each read of the words of its line.
ghost use Rattle.std.specs.Prelude.{◌≡◌, ◌≢◌, ◌∷◌, [], ◌≤◌, ◌<◌, ◌^◌, ℕ, List as Sequence, Option as Maybe, Some, None, decimal, codes, IsNone, IfSome, IfOk, IsErrOf};
ghost use Rattle.rip_data.specs.Datum.{Tree, tree_of, trees_in, canonical_text};
ghost use Rattle.rip_wire.specs.Batches.{Contents, contents_of, items_text, IsBatch};
ghost use Rattle.rip_wire.specs.Items.{AreArgs};
ghost use Rattle.rip_wire.specs.Names.{IsName};
ghost use Rattle.rip_wire.specs.declared.ending.Ending.{Ending as How};
ghost use Rattle.rip_log.specs.Parts.{identifier_text, name_text, args_text, IsReply};
ghost use Rattle.rip_log.specs.Endings.{ending_words};
ghost use Rattle.rip_log.specs.Entries.{Recorded, opened, admitted, served, done, closed, ended, recorded_of, entry_words};
ghost use Rattle.rip_log.specs.Ranges.{IsRecorded, IsServed, IsNoneOrEnding, IsStatus};

use crate::endings::ended_in;
use crate::entry::Entry;
use crate::parts::{args_in, identifier_in, items_in, name_in, reply_in};
use crate::words::{Words, is_word};
use rip_data::Datum;
use rip_wire::{Batch, Call, LineError, MOST_BATCHES};
use std::alloc::Global;

/// The entry whose line has these words.
#[tactic(auto, using(crate::proofs::KindLemmas::only_opened, crate::proofs::KindLemmas::only_admitted, crate::proofs::KindLemmas::only_served, crate::proofs::KindLemmas::only_done, crate::proofs::KindLemmas::only_closed, crate::proofs::KindLemmas::only_ended, crate::proofs::KindLemmas::no_keyword, crate::proofs::KindLemmas::some_words))]
pub(crate) fn entry_of(alloc: Global, words: &mut Words<'_>) -> Result<Entry, LineError>
    ensures is { IfOk result (λ e. words.old ≡ entry_words (recorded_of e)) }
    ensures in_range { IfOk result (λ e. IsRecorded (recorded_of e)) }
    ensures other { IsErrOf result LineError.Other
        → (r : Recorded) → IsRecorded r → words.old ≢ entry_words r }
{
    let Some(word) = words.next() else {
        return Err(LineError::Other);
    };
    if is_word(word, "open") {
        or_other(opened_in(words))
    } else if is_word(word, "batch") {
        admitted_in(alloc, words)
    } else if is_word(word, "serve") {
        served_in(alloc, words)
    } else if is_word(word, "done") {
        done_in(alloc, words)
    } else if is_word(word, "close") {
        or_other(closed_in(words))
    } else if is_word(word, "end") {
        or_other(ended_run_in(words))
    } else {
        Err(LineError::Other)
    }
}

/// The entry, if there is one.
fn or_other(entry: Option<Entry>) -> Result<Entry, LineError>
    ensures ok { IfOk result (λ e. entry ≡ Some e) }
    ensures err { IsErrOf result LineError.Other → entry ≡ None }
{
    entry.ok_or(LineError::Other)
}

/// A turn and a session.
#[derive(Clone, Copy)]
struct Head {
    turn: u64,
    session: u32,
}

/// Takes a turn and a session.
fn head_in(words: &mut Words<'_>) -> Option<Head>
    ensures some { IfSome result (λ h. words.old ≡ decimal h.turn ∷ decimal h.session ∷ words.new) }
    ensures none { IsNone result
        → (turn session : ℕ) (rest : Sequence (Sequence ℕ)) → turn < 2 ^ 64 → session < 2 ^ 32
        → words.old ≢ decimal turn ∷ decimal session ∷ rest }
{
    let turn = words.number()?;
    let session = words.short()?;
    Some(Head { turn, session })
}

/// Takes the number of a batch.
#[tactic(auto, using(crate::proofs::KindLemmas::other_number))]
fn batch_number_in(words: &mut Words<'_>) -> Option<u64>
    ensures some { IfSome result (λ n. words.old ≡ decimal n ∷ words.new) }
    ensures bounded { IfSome result (λ n. n < 2 ^ 53) }
    ensures none { IsNone result
        → (n : ℕ) (rest : Sequence (Sequence ℕ)) → n < 2 ^ 53 → words.old ≢ decimal n ∷ rest }
{
    let number = words.number()?;
    if number > MOST_BATCHES {
        return None;
    }
    Some(number)
}

/// A session was opened.
fn opened_in(words: &mut Words<'_>) -> Option<Entry>
    ensures is { IfSome result (λ e. codes "open" ∷ words.old ≡ entry_words (recorded_of e)) }
    ensures in_range { IfSome result (λ e. IsRecorded (recorded_of e)) }
    ensures none { IsNone result
        → (turn session id seed time : ℕ) → IsRecorded (opened turn session id seed time)
        → codes "open" ∷ words.old ≢ entry_words (opened turn session id seed time) }
{
    let Head { turn, session } = head_in(words)?;
    let id = identifier_in(words.next()?)?;
    let seed = words.short()?;
    let time = words.number()?;
    if !words.is_at_end() {
        return None;
    }
    Some(Entry::Opened {
        turn,
        session,
        id,
        seed,
        time,
    })
}

/// A batch was admitted.
fn admitted_in(alloc: Global, words: &mut Words<'_>) -> Result<Entry, LineError>
    ensures is { IfOk result (λ e. codes "batch" ∷ words.old ≡ entry_words (recorded_of e)) }
    ensures in_range { IfOk result (λ e. IsRecorded (recorded_of e)) }
    ensures other { IsErrOf result LineError.Other
        → (turn session : ℕ) (batch : Contents) → IsRecorded (admitted turn session batch)
        → codes "batch" ∷ words.old ≢ entry_words (admitted turn session batch) }
{
    let Some(Head { turn, session }) = head_in(words) else {
        return Err(LineError::Other);
    };
    let batch = batch_in(alloc, words)?;
    Ok(Entry::Admitted {
        turn,
        session,
        batch,
    })
}

/// A batch, its number and its items, which are the last of the words.
#[tactic(auto, using(crate::proofs::KindLemmas::no_batch_0, crate::proofs::KindLemmas::no_items))]
fn batch_in(alloc: Global, words: &mut Words<'_>) -> Result<Batch, LineError>
    ensures is { IfOk result
        (λ b. words.old ≡ decimal (contents_of b).number ∷ items_text (contents_of b).items ∷ []) }
    ensures in_range { IfOk result (λ b. IsBatch (contents_of b)) }
    ensures other { IsErrOf result LineError.Other
        → (batch : Contents) → IsBatch batch
        → words.old ≢ decimal batch.number ∷ items_text batch.items ∷ [] }
{
    let Some(number) = batch_number_in(words) else {
        return Err(LineError::Other);
    };
    if number == 0 {
        return Err(LineError::Other);
    }
    let Some(items) = words.next() else {
        return Err(LineError::Other);
    };
    if !words.is_at_end() {
        return Err(LineError::Other);
    }
    let items = items_in(alloc, items)?;
    Ok(Batch { number, items })
}

/// A call was served.
fn served_in(alloc: Global, words: &mut Words<'_>) -> Result<Entry, LineError>
    ensures is { IfOk result (λ e. codes "serve" ∷ words.old ≡ entry_words (recorded_of e)) }
    ensures in_range { IfOk result (λ e. IsRecorded (recorded_of e)) }
    ensures other { IsErrOf result LineError.Other
        → (turn session batch number : ℕ) (name : Sequence ℕ) (args : Sequence Tree) (time : ℕ)
        → (reply : Tree) → IsRecorded (served turn session batch number name args time reply)
        → codes "serve" ∷ words.old ≢ entry_words
        (served turn session batch number name args time reply) }
{
    let Some(Head { turn, session }) = head_in(words) else {
        return Err(LineError::Other);
    };
    let Some(Place { batch, number }) = place_in(words) else {
        return Err(LineError::Other);
    };
    let Call { name, args } = call_in(alloc, words)?;
    let Replied { time, reply } = replied_in(alloc, words)?;
    Ok(Entry::Served {
        turn,
        session,
        batch,
        number,
        name,
        args,
        time,
        reply,
    })
}

/// The number of a batch, from 1, and of a call.
#[derive(Clone, Copy)]
struct Place {
    batch: u64,
    number: u64,
}

/// Takes the number of a batch and of a call.
#[tactic(auto, using(crate::proofs::KindLemmas::zero_number))]
fn place_in(words: &mut Words<'_>) -> Option<Place>
    ensures some { IfSome result (λ p. words.old ≡ decimal p.batch ∷ decimal p.number ∷ words.new) }
    ensures batch { IfSome result (λ p. (1 ≤ p.batch) × (p.batch < 2 ^ 53)) }
    ensures number { IfSome result (λ p. p.number < 2 ^ 32) }
    ensures none { IsNone result
        → (batch number : ℕ) (rest : Sequence (Sequence ℕ))
        → 1 ≤ batch → batch < 2 ^ 53 → number < 2 ^ 32
        → words.old ≢ decimal batch ∷ decimal number ∷ rest }
{
    let batch = batch_number_in(words)?;
    if batch == 0 {
        return None;
    }
    let number = words.short()?;
    Some(Place {
        batch,
        number: u64::from(number),
    })
}

/// Takes the name and the args of a call.
fn call_in(alloc: Global, words: &mut Words<'_>) -> Result<Call, LineError>
    ensures some { IfOk result
        (λ c. words.old ≡ name_text c.name ∷ args_text (trees_in c.args) ∷ words.new) }
    ensures name { IfOk result (λ c. IsName c.name) }
    ensures args { IfOk result (λ c. AreArgs (trees_in c.args)) }
    ensures other { IsErrOf result LineError.Other
        → (name : Sequence ℕ) (args : Sequence Tree) (rest : Sequence (Sequence ℕ))
        → IsName name → AreArgs args → words.old ≢ name_text name ∷ args_text args ∷ rest }
{
    let Some(name) = words.next() else {
        return Err(LineError::Other);
    };
    let name = name_in(alloc, name)?;
    let Some(args) = words.next() else {
        return Err(LineError::Other);
    };
    let args = args_in(alloc, args)?;
    Ok(Call { name, args })
}

/// A moment and a reply.
#[derive(Drop)]
struct Replied {
    time: u64,
    reply: Datum,
}

/// A moment and a reply, which are the last of the words.
fn replied_in(alloc: Global, words: &mut Words<'_>) -> Result<Replied, LineError>
    ensures is { IfOk result
        (λ r. words.old ≡ decimal r.time ∷ canonical_text (tree_of r.reply) ∷ []) }
    ensures in_range { IfOk result (λ r. IsReply (tree_of r.reply)) }
    ensures other { IsErrOf result LineError.Other
        → (time : ℕ) (reply : Tree) → time < 2 ^ 64 → IsReply reply
        → words.old ≢ decimal time ∷ canonical_text reply ∷ [] }
{
    let Some(time) = words.number() else {
        return Err(LineError::Other);
    };
    let Some(reply) = words.next() else {
        return Err(LineError::Other);
    };
    if !words.is_at_end() {
        return Err(LineError::Other);
    }
    let reply = reply_in(alloc, reply)?;
    Ok(Replied { time, reply })
}

/// A batch was done.
fn done_in(alloc: Global, words: &mut Words<'_>) -> Result<Entry, LineError>
    ensures is { IfOk result (λ e. codes "done" ∷ words.old ≡ entry_words (recorded_of e)) }
    ensures in_range { IfOk result (λ e. IsRecorded (recorded_of e)) }
    ensures other { IsErrOf result LineError.Other
        → (turn session batch : ℕ) (how : Maybe How) → IsRecorded (done turn session batch how)
        → codes "done" ∷ words.old ≢ entry_words (done turn session batch how) }
{
    let Some(Head { turn, session }) = head_in(words) else {
        return Err(LineError::Other);
    };
    let Some(batch) = batch_number_in(words) else {
        return Err(LineError::Other);
    };
    let ended = ended_in(alloc, words)?;
    Ok(Entry::Done {
        turn,
        session,
        batch,
        ended,
    })
}

/// A client closed its session.
fn closed_in(words: &mut Words<'_>) -> Option<Entry>
    ensures is { IfSome result (λ e. codes "close" ∷ words.old ≡ entry_words (recorded_of e)) }
    ensures in_range { IfSome result (λ e. IsRecorded (recorded_of e)) }
    ensures none { IsNone result
        → (turn session : ℕ) → IsRecorded (closed turn session)
        → codes "close" ∷ words.old ≢ entry_words (closed turn session) }
{
    let Head { turn, session } = head_in(words)?;
    if !words.is_at_end() {
        return None;
    }
    Some(Entry::Closed { turn, session })
}

/// The status of a run that is over: 0 or 3.
fn status_of(number: u64) -> Option<u8>
    ensures is { IfSome result (λ status. status ≡ number) }
    ensures in_range { IfSome result IsStatus }
    ensures none { IsNone result → ¬ IsStatus number }
{
    match number {
        0 => Some(0),
        3 => Some(3),
        _ => None,
    }
}

/// The run is over.
#[tactic(auto, using(crate::proofs::KindLemmas::other_status))]
fn ended_run_in(words: &mut Words<'_>) -> Option<Entry>
    ensures is { IfSome result (λ e. codes "end" ∷ words.old ≡ entry_words (recorded_of e)) }
    ensures in_range { IfSome result (λ e. IsRecorded (recorded_of e)) }
    ensures none { IsNone result
        → (turn status : ℕ) → IsRecorded (ended turn status)
        → codes "end" ∷ words.old ≢ entry_words (ended turn status) }
{
    let turn = words.number()?;
    let status = status_of(words.number()?)?;
    if !words.is_at_end() {
        return None;
    }
    Some(Entry::Ended { turn, status })
}
