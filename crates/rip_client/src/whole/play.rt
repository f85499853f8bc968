ghost use Rattle.std.specs.Prelude.{◌≡◌, ℕ, ◌+◌, ◌<◌, ◌≤◌, ◌++◌, ◌∷◌, [], List as Sequence, length, slice_get, Some, OnErr, OnOk, IfOk};
ghost use Rattle.rip_heap.specs.Growth.{Grows};
ghost use Rattle.rip_replica.specs.Going.{Rests, IsWithin, Keeps, going};
ghost use Rattle.rip_history.specs.Services.{Called, Service as Meant};
ghost use Rattle.rip_replica.specs.Kept.{IsKept};
ghost use Rattle.rip_replica.specs.Parts.{Doing};
ghost use Rattle.rip_replica.specs.Standing.{planned};
ghost use Rattle.rip_client.specs.Wholes.{IsDoing, IsWhole, LeftBy, calls_behind, given_for};

use crate::whole::serve::serve_next;
use rip_base::NoMemory;
use rip_eval_rows::{Close, Evaluator, Phase};
use rip_heap::Host;
use rip_history::Service;
use rip_replica::scheduler::Rested;
use rip_replica::{Replica, Works};
use std::alloc::Global;

/// How an item closed, and the fuel that it took.
#[derive(Clone, Copy, Debug, PartialEq, Eq)]
pub struct Over {
    pub close: Close,
    pub fuel: u64,
}

/// Turns to a batch of this number, which has no item yet.
pub fn open_batch<H: Host, T: Drop, I: Works<H, T>, E>(
    alloc: Global,
    replica: &mut Replica<E, I, T, H>,
    number: u64,
)
    ensures items { (I.item_plan replica.new.runner.planner.items ≡ I.plans number)
        × (replica.new.runner.planner.batch.items ≡ []) × (replica.new.runner.planner.begun ≡ 0) }
    ensures number { replica.new.number ≡ number }
    ensures runs { (replica.new.runner.evaluator ≡ replica.old.runner.evaluator)
        × (replica.new.runner.full ≡ replica.old.runner.full) }
    ensures world { (replica.new.heap ≡ replica.old.heap) × (replica.new.host ≡ replica.old.host) }
{
    replica.admit(number, Vec::new(alloc));
}

/// Puts an item behind those of the batch. For want of memory nothing changes.
pub fn put_item<H: Host, T: Drop, I: Works<H, T>, E>(
    replica: &mut Replica<E, I, T, H>,
    item: T,
) -> Result<(), NoMemory>
    requires { length replica.old.runner.planner.batch.items < 64 }
    ensures batch { OnOk result
        (replica.new.runner.planner.batch.items ≡ replica.old.runner.planner.batch.items ++ item
        ∷ []) }
    ensures kept { OnErr result
        (replica.new.runner.planner.batch.items ≡ replica.old.runner.planner.batch.items) }
    ensures items { (replica.new.runner.planner.items ≡ replica.old.runner.planner.items)
        × (replica.new.runner.planner.begun ≡ replica.old.runner.planner.begun) }
    ensures number { replica.new.number ≡ replica.old.number }
    ensures runs { (replica.new.runner.evaluator ≡ replica.old.runner.evaluator)
        × (replica.new.runner.full ≡ replica.old.runner.full) }
    ensures world { (replica.new.heap ≡ replica.old.heap) × (replica.new.host ≡ replica.old.host) }
{
    replica.runner.planner.batch.push(item)?;
    Ok(())
}

/// Plays the item that is next in the batch, if there is one, with all its fuel. A call that waits is served with a reply of the service, at
/// this moment.
pub fn play_next<H: Host, T, I: Works<H, T>, E: Evaluator<H>, V: Service>(
    alloc: Global,
    replica: &mut Replica<E, I, T, H>,
    program: &E::Program,
    service: &mut V,
    time: u64,
) -> Result<Over, NoMemory>
    requires { H.fits replica.old.host replica.old.heap }
    ensures fits { H.fits replica.new.host replica.new.heap }
    ensures grows { Grows replica.old.heap replica.new.heap }
    ensures batch { (replica.new.runner.planner.batch ≡ replica.old.runner.planner.batch)
        × (replica.new.number ≡ replica.old.number) }
    ensures begun { IfOk result
        (λ _. replica.new.runner.planner.begun ≡ replica.old.runner.planner.begun + 1) }
    ensures runs { (E.evaluation program.now).run replica.new.runner.evaluator
        ≡ (E.evaluation program.now).run replica.old.runner.evaluator }
    ensures full { replica.new.runner.full ≡ replica.old.runner.full }
    ensures plans { I.item_plan replica.new.runner.planner.items
        ≡ I.item_plan replica.old.runner.planner.items }
    ensures whole { (d : Doing T H) (meant : Meant) (calls : Sequence Called) (item : T)
        → IsDoing d ((E.evaluation program.now).run replica.old.runner.evaluator)
        replica.old.runner.full I.plans I.fact I.served
        → I.item_plan replica.old.runner.planner.items ≡ I.plans replica.old.number
        → slice_get replica.old.runner.planner.batch.items replica.old.runner.planner.begun
        ≡ Some item
        → V.replies_as service.old meant calls
        → IfOk result (λ over. IsWhole d replica.old.number item
        (replica.old.runner.planner.begun + 1)
        replica.old.heap replica.old.host (given_for meant calls time (I.fact item)) over replica.new.heap replica.new.host
        × V.replies_as service.new meant (calls_behind (I.fact item) over.close calls)) }
{
    if replica.runner.planner.begun as usize >= replica.runner.planner.batch.len() {
        return Err(NoMemory);
    }
    begin_next(replica);
    let full = replica.runner.full;
    match go_on(alloc, replica, program, full) {
        Rested::Finished(close, left) => Ok(Over {
            close,
            fuel: full - left,
        }),
        Rested::Awaits(left) => {
            serve_next(alloc, replica, service, time)?;
            finish(alloc, replica, program, full, left)
        }
        _ => Err(NoMemory),
    }
}

/// Stands before the first step of the next item.
fn begin_next<H: Host, T, I: Works<H, T>, E>(replica: &mut Replica<E, I, T, H>)
    requires { replica.old.runner.planner.begun < length replica.old.runner.planner.batch.items }
    ensures begun { (replica.new.runner.planner.begun ≡ replica.old.runner.planner.begun + 1)
        × (replica.new.runner.planner.batch ≡ replica.old.runner.planner.batch)
        × (replica.new.number ≡ replica.old.number) }
    ensures items { (I.item_plan replica.new.runner.planner.items
        ≡ I.item_plan replica.old.runner.planner.items)
        × (I.under_way replica.new.runner.planner.items
        ≡ I.item_plan replica.old.runner.planner.items) }
    ensures phase { (replica.new.runner.phase ≡ Phase.Asking)
        × (replica.new.runner.fuel ≡ replica.old.runner.full) }
    ensures runs { (replica.new.runner.evaluator ≡ replica.old.runner.evaluator)
        × (replica.new.runner.full ≡ replica.old.runner.full) }
    ensures world { (replica.new.heap ≡ replica.old.heap) × (replica.new.host ≡ replica.old.host) }
{
    replica.runner.planner.begun += 1;
    replica.runner.planner.items.begin();
    replica.runner.phase = Phase::Asking;
    replica.runner.fuel = replica.runner.full;
}

/// Goes on with an item whose call was served, for the units that are left.
fn finish<H: Host, T, I: Works<H, T>, E: Evaluator<H>>(
    alloc: Global,
    replica: &mut Replica<E, I, T, H>,
    program: &E::Program,
    full: u64,
    left: u64,
) -> Result<Over, NoMemory>
    requires fits { H.fits replica.old.host replica.old.heap }
    requires within { left ≤ full }
    ensures fits { H.fits replica.new.host replica.new.heap }
    ensures grows { Grows replica.old.heap replica.new.heap }
    ensures keeps { Keeps (E.evaluation program.now)
        (going (planned I.under_way) replica.old.runner) (going (planned I.under_way) replica.new.runner) }
    ensures kept { IsKept I.item_plan replica.old.runner.planner replica.new.runner.planner }
    ensures number { replica.new.number ≡ replica.old.number }
    ensures law { IfOk result
        (λ over. LeftBy (E.evaluation program.now) (going (planned I.under_way) replica.old.runner)
        replica.old.heap replica.old.host left full over replica.new.heap replica.new.host) }
{
    match go_on(alloc, replica, program, left) {
        Rested::Finished(close, left) => Ok(Over {
            close,
            fuel: full - left,
        }),
        _ => Err(NoMemory),
    }
}

/// Goes on with the item under way.
fn go_on<H: Host, T, I: Works<H, T>, E: Evaluator<H>>(
    alloc: Global,
    replica: &mut Replica<E, I, T, H>,
    program: &E::Program,
    units: u64,
) -> Rested
    requires { H.fits replica.old.host replica.old.heap }
    ensures fits { H.fits replica.new.host replica.new.heap }
    ensures grows { Grows replica.old.heap replica.new.heap }
    ensures keeps { Keeps (E.evaluation program.now)
        (going (planned I.under_way) replica.old.runner) (going (planned I.under_way) replica.new.runner) }
    ensures kept { IsKept I.item_plan replica.old.runner.planner replica.new.runner.planner }
    ensures number { replica.new.number ≡ replica.old.number }
    ensures law { Rests (E.evaluation program.now) []
        (going (planned I.under_way) replica.old.runner)
        replica.old.heap replica.old.host units
        (going (planned I.under_way) replica.new.runner) replica.new.heap replica.new.host result }
    ensures within { IsWithin units result }
{
    let heap = &mut replica.heap;
    let host = &mut replica.host;
    replica.runner.resume(alloc, program, heap, host, units)
}
