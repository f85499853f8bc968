ghost use Rattle.std.specs.Prelude.{◌≡◌, IfOk, map};
ghost use Rattle.rip_client.specs.Bytes.{batches_of};
ghost use Rattle.rip_wire.specs.Batches.{contents_of};
ghost use Rattle.rip_wire.specs.Items.{reported_of};
ghost use Rattle.rip_gen.specs.Lies.{lied, lied_batch, lied_items, lies_in, tells_call};

use rip_base::{NoMemory, Units};
use rip_client::ToldBatch;
use rip_wire::{Batch, Item, ItemList};
use std::alloc::Global;

/// The batches of a gesture of the liar, and whether it lied in them.
#[derive(Drop)]
pub(crate) struct Lie {
    pub(crate) batches: Vec<ToldBatch>,
    pub(crate) is_told: bool,
}

/// The batches with the name of their first call changed to `x`, cut behind that call; or as they are, with no call.
pub(crate) fn lie_in(alloc: Global, batches: Vec<ToldBatch>) -> Result<Lie, NoMemory>
    ensures lied { IfOk result
        (λ lie. batches_of lie.batches.items ≡ lied (batches_of batches.items)) }
    ensures told { IfOk result (λ lie. lie.is_told ≡ lies_in (batches_of batches.items)) }
{
    let mut told = Vec::new(alloc);
    for batch in batches {
        let (batch, is_told) = lie_in_batch(alloc, batch)?;
        told.push(batch)?;
        if is_told {
            return Ok(Lie {
                batches: told,
                is_told: true,
            });
        }
    }
    Ok(Lie {
        batches: told,
        is_told: false,
    })
}

/// The same of one batch.
fn lie_in_batch(alloc: Global, told: ToldBatch) -> Result<(ToldBatch, bool), NoMemory>
    ensures lied { IfOk result (λ r. contents_of r.0.batch ≡ lied_batch (contents_of told.batch)) }
    ensures told { IfOk result (λ r. r.1 ≡ tells_call (map reported_of told.batch.items)) }
{
    let ToldBatch { batch, cost } = told;
    let number = batch.number;
    let (items, is_told) = lie_in_items(alloc, batch.items.into_vec())?;
    let batch = Batch {
        number,
        items: ItemList::from_vec(items),
    };
    Ok((ToldBatch { batch, cost }, is_told))
}

/// The same of the items of a batch.
fn lie_in_items(alloc: Global, items: Vec<Item>) -> Result<(Vec<Item>, bool), NoMemory>
    ensures lied { IfOk result
        (λ r. map reported_of r.0.items ≡ lied_items (map reported_of items.items)) }
    ensures told { IfOk result (λ r. r.1 ≡ tells_call (map reported_of items.items)) }
{
    let mut told = Vec::new(alloc);
    for item in items {
        match item {
            Item::Call { number, args, .. } => {
                told.push(Item::Call {
                    number,
                    name: Units::from_slice(alloc, &[120])?,
                    args,
                })?;
                return Ok((told, true));
            }
            other => told.push(other)?,
        }
    }
    Ok((told, false))
}
