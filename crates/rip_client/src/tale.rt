ghost use Rattle.std.specs.Prelude.{◌≡◌, ◌<◌, ◌^◌, IfOk};
ghost use Rattle.rip_wire.specs.Items.{Reported, event, IsItem, reported_of, HasDetail};
ghost use Rattle.rip_client.specs.Truth.{IsReportOf, waiting_of};
ghost use Rattle.rip_client.specs.Bytes.{size_of};
ghost use Rattle.rip_client.specs.Sizes.{IsTold, MayBeTold};

use crate::actor::WaitingCall;
use rip_base::{NoMemory, Report, Units};
use rip_wire::{Item, ItemList, WireError, read_call, write_item_list};
use std::alloc::Global;

/// What a client tells next.
#[derive(Clone, Copy)]
pub(crate) enum Tale<'a> {
    Call(&'a WaitingCall),
    Reply(u64),
    Event(&'a Report),
}

/// The item that tells it. Calls from 2^32 on cannot be told.
pub(crate) fn item_of(alloc: Global, tale: Tale<'_>) -> Result<Item, NoMemory>
    requires { MayBeTold tale }
    ensures told { IfOk result (λ item. IsTold tale.entry (reported_of item)) }
    ensures in_range { IfOk result (λ item. IsItem (reported_of item)) }
{
    match tale {
        Tale::Call(call) => call_item(alloc, call),
        Tale::Reply(number) => Ok(Item::Reply {
            number: small(number)?,
        }),
        Tale::Event(report) => event_item(alloc, report),
    }
}

/// A number of a call that an item can tell.
fn small(number: u64) -> Result<u64, NoMemory>
    ensures is { IfOk result (λ n. n ≡ number) }
    ensures below { IfOk result (λ n. n < 2 ^ 32) }
{
    if number < 1 << 32 {
        Ok(number)
    } else {
        Err(NoMemory)
    }
}

fn call_item(alloc: Global, call: &WaitingCall) -> Result<Item, NoMemory>
    ensures told { IfOk result (λ item. IsReportOf (waiting_of call.now) (reported_of item)) }
    ensures in_range { IfOk result (λ item. IsItem (reported_of item)) }
{
    let number = small(call.number)?;
    match read_call(alloc, call.text.as_slice()) {
        Ok(read) => Ok(Item::Call {
            number,
            name: read.name,
            args: read.args,
        }),
        Err(WireError::Body | WireError::Memory) => Err(NoMemory),
    }
}

fn event_item(alloc: Global, report: &Report) -> Result<Item, NoMemory>
    requires { HasDetail report.now.kind report.now.text report.now.place }
    ensures told { IfOk result (λ item.
        reported_of item ≡ event report.now.kind report.now.node report.now.text report.now.place) }
    ensures in_range { IfOk result (λ item. IsItem (reported_of item)) }
{
    let node = node_of(report);
    let text = text_of(alloc, report)?;
    Ok(Item::Event {
        kind: report.kind,
        node,
        text,
        place: report.place,
    })
}

fn node_of(report: &Report) -> u32
    ensures { result ≡ report.now.node }
{
    report.node
}

/// A copy of the report's text.
fn text_of(alloc: Global, report: &Report) -> Result<Option<Units>, NoMemory>
    ensures { IfOk result (λ text. text ≡ report.now.text) }
{
    match &report.text {
        Some(text) => Ok(Some(Units::from_slice(alloc, text.as_slice())?)),
        None => Ok(None),
    }
}

/// The bytes of the text of the item that tells it.
pub(crate) fn text_size(alloc: Global, tale: Tale<'_>) -> Result<usize, NoMemory>
    requires { MayBeTold tale }
    ensures { IfOk result
        (λ size. (item : Reported) → IsTold tale.entry item → size ≡ size_of item) }
{
    let item = item_of(alloc, tale)?;
    item_size(alloc, item)
}

/// The bytes of the item's text.
#[tactic(auto, using(crate::proofs::Bodies::one_size))]
fn item_size(alloc: Global, item: Item) -> Result<usize, NoMemory>
    ensures { IfOk result (λ size. size ≡ size_of (reported_of item)) }
{
    let mut items = Vec::new(alloc);
    items.push(item)?;
    let text = write_item_list(&ItemList::from_vec(items), alloc)?;
    Ok(text.len().saturating_sub(2))
}
