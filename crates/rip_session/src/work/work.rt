ghost use Rattle.std.specs.Prelude.{◌≡◌, IfOk, MatchOption, MatchResult};
ghost use Rattle.rip_wire.specs.Batches.{IsBatch, contents_of};
ghost use Rattle.rip_data.specs.Datum.{trees_in};
ghost use Rattle.rip_wire.specs.Items.{AreArgs, IsItem, event, reported_of};
ghost use Rattle.rip_session.specs.Copies.{IsCall, IsNoCall};
ghost use Rattle.rip_session.specs.Tasks.{IsItemOf, fact_of, item_of, opens, reports, reported_by, tasks_of};
ghost use Rattle.rip_session.specs.Works.{IsCallKind};

use crate::work::copy::{copy_call, copy_text};
use rip_base::{Bytes, EventKind, NoMemory, Report, Units};
use rip_browser::Start;
use rip_data::DatumList;
use rip_replica::Call;
use rip_replica::items::Item;
use rip_wire::{Batch, write_call};
use std::alloc::Global;
use std::marker::Model;

/// An item of a session: its opening, or what a browser reports. Contracts see which it is, and what is reported.
#[derive(Drop)]
pub struct Work {
    pub(crate) kind: Kind,
}

#[derive(Drop)]
pub(crate) enum Kind {
    Opens(Start),
    /// An event, or the delivery of a reply.
    Handles(Item),
    /// A call, as an item and by its parts.
    Calls { item: Item, call: Call },
}

impl Model for Work {
    ghost use Rattle.rip_session.specs.Tasks.{Task, task_code};

    ghost Value = { Task };

    ghost coded = { task_code };

    ghost use Rattle.rip_session.specs.Works.{task_of, IsKind};

    ghost view = { λ w. task_of w.kind };

    ghost invariant = { λ w. IsKind w.kind };
}

impl Work {
    /// The opening of a session.
    pub fn opens(start: Start) -> Work
        ensures { result ≡ opens start }
    {
        Work {
            kind: Kind::Opens(start),
        }
    }

    /// What an item of a batch reports. All that it keeps is copied.
    fn reports(alloc: Global, item: &rip_wire::Item) -> Result<Work, NoMemory>
        requires { IsItem (reported_of item.now) }
        ensures { IfOk result (λ work. work ≡ reports (reported_of item.now)) }
    {
        match item {
            rip_wire::Item::Event {
                kind,
                node,
                text,
                place,
            } => Ok(Work {
                kind: Kind::Handles(event_of(alloc, *kind, *node, text, *place)?),
            }),
            rip_wire::Item::Reply { number } => Ok(Work {
                kind: Kind::Handles(Item::Reply { number: *number }),
            }),
            rip_wire::Item::Call { number, name, args } => Ok(Work {
                kind: call_of(alloc, *number, name, args)?,
            }),
        }
    }

    /// The item of a page that it is; or the opening.
    pub(crate) fn as_item(&self) -> Result<&Item, Start>
        ensures { MatchResult result (λ i. IsItemOf i.now self.now)
            (λ start. self.now ≡ opens start) }
    {
        match &self.kind {
            Kind::Opens(start) => Err(*start),
            Kind::Handles(item) => Ok(item),
            Kind::Calls { item, .. } => Ok(item),
        }
    }

    /// The call that it reports, if it reports one.
    pub(crate) fn as_call(&self) -> Option<&Call>
        ensures { MatchOption result (IsNoCall (fact_of self.now))
            (λ c. IsCall (fact_of self.now) c.now) }
    {
        match &self.kind {
            Kind::Opens(_) => None,
            Kind::Handles(_) => None,
            Kind::Calls { call, .. } => Some(call),
        }
    }

    /// The number and a copy of the text of the call that it reports; of another item 0 and no text.
    pub(crate) fn reported(&self, alloc: Global) -> Result<(u64, Bytes), NoMemory>
        ensures { IfOk result (λ r. r ≡ reported_by self.now) }
    {
        match self.as_item() {
            Err(_) => Ok((0, Bytes::new(alloc))),
            Ok(Item::Event(_)) => Ok((0, Bytes::new(alloc))),
            Ok(Item::Reply { .. }) => Ok((0, Bytes::new(alloc))),
            Ok(Item::Call { number, text }) => {
                Ok((*number, Bytes::from_slice(alloc, text.as_slice())?))
            }
        }
    }
}

/// An event that is reported.
fn event_of(
    alloc: Global,
    kind: EventKind,
    node: u32,
    text: &Option<Units>,
    place: Option<u32>,
) -> Result<Item, NoMemory>
    ensures { IfOk result (λ i. i ≡ item_of (event kind node text.now place)) }
{
    let text = copy_text(alloc, text)?;
    Ok(Item::Event(Report {
        kind,
        node,
        text,
        place,
    }))
}

/// A call that is reported.
fn call_of(alloc: Global, number: u64, name: &Units, args: &DatumList) -> Result<Kind, NoMemory>
    requires { AreArgs (trees_in args.now) }
    ensures { IfOk result (IsCallKind number name.now (trees_in args.now)) }
{
    let text = write_call(name, args, alloc)?;
    let call = copy_call(alloc, number, name, args)?;
    let item = Item::Call { number, text };
    Ok(Kind::Calls { item, call })
}

/// The items of a batch.
pub fn works_of(alloc: Global, batch: &Batch) -> Result<Vec<Work>, NoMemory>
    requires { IsBatch (contents_of batch.now) }
    ensures { IfOk result (λ works. works.items ≡ tasks_of (contents_of batch.now)) }
{
    let items = batch.items.as_slice();
    let mut works = Vec::with_capacity(alloc, items.len())?;
    for item in items {
        works.push(Work::reports(alloc, item)?)?;
    }
    Ok(works)
}
