ghost use Rattle.std.specs.Prelude.{◌≡◌, ◌++◌, map, IfOk, OnOk, IsUtf8};
ghost use Rattle.rip_data.specs.Datum.{trees_in};
ghost use Rattle.rip_wire.specs.Items.{reported_of, event_word, text_value, detail_values, event_values, call_values, reply_values, item_value};
ghost use Rattle.rip_wire.specs.Batches.{contents_of, batch_value, batch_text};
ghost use Rattle.rip_wire.specs.Tokens.{tokens_of, tokens_of_all, closed};

use crate::item::{Batch, Item};
use json::Writer;
use rip_base::{Bytes, EventKind, NoMemory, Units};
use rip_data::{DatumList, write_list};
use std::alloc::{AllocError, Global};

/// The text of the batch, which a request's body may be.
pub fn write_batch(b: &Batch, alloc: Global) -> Result<Bytes, NoMemory>
    ensures text { IfOk result (λ bytes. bytes ≡ batch_text (contents_of b.now)) }
    ensures utf8 { IfOk result (λ bytes. IsUtf8 bytes) }
{
    let mut out = Writer::new(Vec::with_capacity(alloc, 128)?);
    write_value(b, &mut out, alloc)?;
    Ok(Bytes::from_vec(out.into_inner()))
}

fn write_value(b: &Batch, out: &mut Writer, alloc: Global) -> Result<(), AllocError>
    ensures tokens { OnOk result
        (out.new.tokens ≡ out.old.tokens ++ tokens_of (batch_value (contents_of b.now))) }
    ensures before { out.new.before ≡ out.old.before }
{
    out.begin_object()?;
    out.key("batch")?;
    out.u64(b.number)?;
    out.key("items")?;
    out.begin_array()?;
    write_items(b.items.as_slice(), out, alloc)?;
    out.end_object()
}

// The items and the closing bracket.
pub(crate) fn write_items(items: &[Item], out: &mut Writer, alloc: Global) -> Result<(), AllocError>
    ensures tokens { OnOk result
        (out.new.tokens ≡ out.old.tokens ++ closed (map item_value (map reported_of items.now))) }
    ensures before { out.new.before ≡ out.old.before }
{
    for item in items {
        write_item(item, out, alloc)?;
    }
    out.end_array()
}

fn write_item(item: &Item, out: &mut Writer, alloc: Global) -> Result<(), AllocError>
    ensures tokens { OnOk result
        (out.new.tokens ≡ out.old.tokens ++ tokens_of (item_value (reported_of item.now))) }
    ensures before { out.new.before ≡ out.old.before }
{
    out.begin_array()?;
    match item {
        Item::Event {
            kind,
            node,
            text,
            place,
        } => {
            out.string("event")?;
            out.string(event_word(*kind))?;
            out.u64(u64::from(*node))?;
            write_detail(text, *place, out, alloc)?;
        }
        Item::Call { number, name, args } => {
            out.string("call")?;
            out.u64(*number)?;
            write_text(name, out, alloc)?;
            write_list(args, out, alloc)?;
        }
        Item::Reply { number } => {
            out.string("reply")?;
            out.u64(*number)?;
        }
    }
    out.end_array()
}

// What stands behind the target of an event.
fn write_detail(
    text: &Option<Units>,
    place: Option<u32>,
    out: &mut Writer,
    alloc: Global,
) -> Result<(), AllocError>
    ensures tokens { OnOk result
        (out.new.tokens ≡ out.old.tokens ++ tokens_of_all (detail_values text.now place)) }
    ensures before { out.new.before ≡ out.old.before }
{
    if let Some(text) = text {
        write_text(text, out, alloc)?;
    }
    match place {
        Some(place) => out.u64(u64::from(place)),
        None => Ok(()),
    }
}

pub(crate) fn write_text(text: &Units, out: &mut Writer, alloc: Global) -> Result<(), AllocError>
    ensures tokens { OnOk result
        (out.new.tokens ≡ out.old.tokens ++ tokens_of (text_value text.now)) }
    ensures before { out.new.before ≡ out.old.before }
{
    let text = String::from_utf16_lossy(alloc, text.as_slice())?;
    out.string(text.as_str())
}

// The word of a kind of event.
fn event_word(kind: EventKind) -> &'static str
    ensures { result.now ≡ event_word kind }
{
    match kind {
        EventKind::Click => "click",
        EventKind::Focus => "focus",
        EventKind::Blur => "blur",
        EventKind::Submit => "submit",
        EventKind::Change => "change",
        EventKind::Input => "input",
    }
}
