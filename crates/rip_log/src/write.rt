ghost use Rattle.std.specs.Prelude.{◌≡◌, ◌++◌, ◌∷◌, [], Some, decimal, OnOk, IfOk};
ghost use Rattle.std.specs.List.{join_with_byte};
ghost use Rattle.rip_data.specs.Datum.{tree_of, trees_in, canonical_text};
ghost use Rattle.rip_data.specs.Datum as tree;
ghost use Rattle.rip_data.specs.Written.{tokens_of};
ghost use Rattle.rip_wire.specs.Batches.{contents_of, items_text};
ghost use Rattle.rip_log.specs.Parts.{identifier_text, name_text, args_text};
ghost use Rattle.rip_log.specs.Endings.{report_word, made_word, ending_words};
ghost use Rattle.rip_log.specs.Entries.{admitted, opened, served, done, closed, ended, recorded_of, entry_words, entry_text};

use crate::entry::Entry;
use rip_base::{BadReport, Bytes, NoMemory, Units, Writer};
use rip_data::{Datum, DatumList, write_datum, write_list};
use rip_wire::{Batch, Ending, write_item_list};
use std::alloc::{AllocError, Global};
use uuid::Uuid;

/// The line of an entry.
pub fn write_entry(entry: &Entry, alloc: Global) -> Result<Bytes, NoMemory>
    ensures { IfOk result (λ text. text ≡ entry_text (recorded_of entry.now)) }
{
    let mut out = Writer::new(alloc);
    write_words(entry, &mut out, alloc)?;
    out.text(b"\n")?;
    Ok(out.into_bytes())
}

/// Writes the words of an entry.
fn write_words(entry: &Entry, out: &mut Writer, alloc: Global) -> Result<(), NoMemory>
    ensures { OnOk result
        (out.new ≡ out.old ++ join_with_byte 32 (entry_words (recorded_of entry.now))) }
{
    match entry {
        Entry::Opened {
            turn,
            session,
            id,
            seed,
            time,
        } => {
            begin(out, b"open", *turn, *session)?;
            end_opened(out, *id, *seed, *time)
        }
        Entry::Admitted {
            turn,
            session,
            batch,
        } => {
            begin(out, b"batch", *turn, *session)?;
            end_admitted(out, batch, alloc)
        }
        Entry::Served {
            turn,
            session,
            batch,
            number,
            name,
            args,
            time,
            reply,
        } => {
            begin(out, b"serve", *turn, *session)?;
            next_call(out, *batch, *number, name, args, alloc)?;
            end_served(out, *time, reply, alloc)
        }
        Entry::Done {
            turn,
            session,
            batch,
            ended,
        } => {
            begin(out, b"done", *turn, *session)?;
            next_number(out, *batch)?;
            end_done(out, ended)
        }
        Entry::Closed { turn, session } => begin(out, b"close", *turn, *session),
        Entry::Ended { turn, status } => {
            out.text(b"end")?;
            next_number(out, *turn)?;
            next_number(out, u64::from(*status))
        }
    }
}

/// Writes ` WORD`.
fn next_word(out: &mut Writer, word: &[u8]) -> Result<(), NoMemory>
    ensures { OnOk result (out.new ≡ out.old ++ 32 ∷ word.now) }
{
    out.text(b" ")?;
    out.text(word)
}

/// Writes ` N`.
fn next_number(out: &mut Writer, n: u64) -> Result<(), NoMemory>
    ensures { OnOk result (out.new ≡ out.old ++ 32 ∷ decimal n) }
{
    out.text(b" ")?;
    out.number(n)
}

/// Writes `WORD T S`.
fn begin(out: &mut Writer, word: &[u8], turn: u64, session: u32) -> Result<(), NoMemory>
    ensures { OnOk result
        (out.new ≡ out.old ++ word.now ++ 32 ∷ decimal turn ++ 32 ∷ decimal session) }
{
    out.text(word)?;
    next_number(out, turn)?;
    next_number(out, u64::from(session))
}

/// Writes ` ID`, in hyphens and small letters.
fn next_identifier(out: &mut Writer, id: u128) -> Result<(), NoMemory>
    ensures { OnOk result (out.new ≡ out.old ++ 32 ∷ identifier_text id) }
{
    let mut room = [0u8; 36];
    let text = Uuid::from_u128(id).hyphenated().encode_lower(&mut room);
    next_word(out, text.as_bytes())
}

/// Writes ` ID SEED TIME`.
fn end_opened(out: &mut Writer, id: u128, seed: u32, time: u64) -> Result<(), NoMemory>
    ensures { OnOk result
        (out.new ≡ out.old ++ 32 ∷ identifier_text id ++ 32 ∷ decimal seed ++ 32 ∷ decimal time) }
{
    next_identifier(out, id)?;
    next_number(out, u64::from(seed))?;
    next_number(out, time)
}

/// Writes ` N ITEMS`.
fn end_admitted(out: &mut Writer, batch: &Batch, alloc: Global) -> Result<(), NoMemory>
    ensures { OnOk result (out.new ≡ out.old ++ 32 ∷ decimal batch.now.number
        ++ 32 ∷ items_text (contents_of batch.now).items) }
{
    next_number(out, batch.number)?;
    next_word(out, write_item_list(&batch.items, alloc)?.as_slice())
}

/// Writes ` N K NAME ARGS`.
fn next_call(
    out: &mut Writer,
    batch: u64,
    number: u64,
    name: &Units,
    args: &DatumList,
    alloc: Global,
) -> Result<(), NoMemory>
    ensures { OnOk result
        (out.new ≡ out.old ++ 32 ∷ decimal batch ++ 32 ∷ decimal number ++ 32 ∷ name_text name.now
        ++ 32 ∷ args_text (trees_in args.now)) }
{
    next_number(out, batch)?;
    next_number(out, number)?;
    next_word(out, write_name(name, alloc)?.as_slice())?;
    next_word(out, write_args(args, alloc)?.as_slice())
}

/// The name of a call as JSON.
fn write_name(name: &Units, alloc: Global) -> Result<Bytes, NoMemory>
    ensures { IfOk result (λ text. text ≡ name_text name.now) }
{
    let mut out = json::Writer::new(Vec::with_capacity(alloc, 128)?);
    write_string(name, &mut out, alloc)?;
    Ok(Bytes::from_vec(out.into_inner()))
}

fn write_string(text: &Units, out: &mut json::Writer, alloc: Global) -> Result<(), AllocError>
    ensures tokens { OnOk result
        (out.new.tokens ≡ out.old.tokens ++ tokens_of (tree.text text.now)) }
    ensures before { out.new.before ≡ out.old.before }
{
    let text = String::from_utf16_lossy(alloc, text.as_slice())?;
    out.string(text.as_str())
}

/// The args of a call as JSON.
fn write_args(args: &DatumList, alloc: Global) -> Result<Bytes, NoMemory>
    ensures { IfOk result (λ text. text ≡ args_text (trees_in args.now)) }
{
    let mut out = json::Writer::new(Vec::with_capacity(alloc, 128)?);
    write_list(args, &mut out, alloc)?;
    Ok(Bytes::from_vec(out.into_inner()))
}

/// Writes ` TIME REPLY`.
fn end_served(out: &mut Writer, time: u64, reply: &Datum, alloc: Global) -> Result<(), NoMemory>
    ensures { OnOk result (out.new
        ≡ out.old ++ 32 ∷ decimal time ++ 32 ∷ canonical_text (tree_of reply.now)) }
{
    next_number(out, time)?;
    next_word(out, write_datum(reply, alloc)?.as_slice())
}

/// The word for what is wrong with a report.
fn report_word(kind: BadReport) -> &'static [u8]
    ensures { result.now ≡ report_word kind }
{
    match kind {
        BadReport::Node => b"node",
        BadReport::Control => b"control",
        BadReport::Disabled => b"disabled",
        BadReport::Long => b"long",
        BadReport::Option => b"option",
        BadReport::Number => b"number",
        BadReport::Due => b"due",
    }
}

/// The text of the call that was made, or `none`.
fn made_word(made: &Option<Bytes>) -> &[u8]
    ensures { result.now ≡ made_word made.now }
{
    match made {
        None => b"none",
        Some(text) => text.as_slice(),
    }
}

/// Writes how a batch ended.
fn end_done(out: &mut Writer, ended: &Option<Ending>) -> Result<(), NoMemory>
    ensures { OnOk result (out.new ≡ out.old ++ 32 ∷ join_with_byte 32 (ending_words ended.now)) }
{
    match ended {
        None => out.text(b" ok"),
        Some(ending) => next_ending(out, ending),
    }
}

/// Writes the reason of an ending, and what it keeps.
fn next_ending(out: &mut Writer, ending: &Ending) -> Result<(), NoMemory>
    ensures { OnOk result
        (out.new ≡ out.old ++ 32 ∷ join_with_byte 32 (ending_words (Some ending.now))) }
{
    next_word(out, ending.reason().word().as_bytes())?;
    match ending {
        Ending::Mismatch {
            item,
            number,
            reported,
            made,
        } => {
            next_number(out, u64::from(*item))?;
            next_number(out, *number)?;
            next_word(out, reported.as_slice())?;
            next_word(out, made_word(made))
        }
        Ending::BadReport { item, kind } => {
            next_number(out, u64::from(*item))?;
            next_word(out, report_word(*kind))
        }
        Ending::Limit { item, .. } | Ending::Fault { item, .. } | Ending::Memory { item } => {
            next_number(out, u64::from(*item))
        }
        Ending::Closed => Ok(()),
    }
}
