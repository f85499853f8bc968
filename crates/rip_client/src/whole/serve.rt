ghost use Rattle.std.specs.Prelude.{◌≡◌, ℕ, ◌-◌, true, List as Sequence, slice_get, Some, IfOk, OnOk};
ghost use Rattle.rip_data.specs.Datum.{Tree, trees_in};
ghost use Rattle.rip_history.specs.Parts.{serves};
ghost use Rattle.rip_history.specs.Services.{Called, Service as Meant};
ghost use Rattle.rip_replica.specs.Serving.{HasArgs, IsCallOf, given_to};
ghost use Rattle.rip_client.specs.Wholes.{calls_behind, given_for};

use rip_base::NoMemory;
use rip_eval_rows::{Close, Phase};
use rip_heap::Host;
use rip_history::Service;
use rip_replica::{Call, Replica, Works};
use std::alloc::Global;

/// Serves the call that waits, with the reply of the service at this moment; the item is gone on with then.
pub(crate) fn serve_next<H: Host, T, I: Works<H, T>, E, V: Service>(
    alloc: Global,
    replica: &mut Replica<E, I, T, H>,
    service: &mut V,
    time: u64,
) -> Result<(), NoMemory>
    requires { H.fits replica.old.host replica.old.heap }
    ensures fits { H.fits replica.new.host replica.new.heap }
    ensures kept { (replica.new.runner.evaluator ≡ replica.old.runner.evaluator)
        × (replica.new.runner.planner ≡ replica.old.runner.planner)
        × (replica.new.runner.fuel ≡ replica.old.runner.fuel)
        × (replica.new.runner.full ≡ replica.old.runner.full)
        × (replica.new.heap ≡ replica.old.heap)
        × (replica.new.number ≡ replica.old.number) }
    ensures phase { OnOk result (replica.new.runner.phase ≡ Phase.Asking) }
    ensures served { (meant : Meant) (calls : Sequence Called) (item : T)
        → slice_get replica.old.runner.planner.batch.items (replica.old.runner.planner.begun - 1)
        ≡ Some item
        → V.replies_as service.old meant calls
        → OnOk result ((replica.new.host
        ≡ I.served replica.old.number (given_for meant calls time (I.fact item)) replica.old.host)
        × V.replies_as service.new meant (calls_behind (I.fact item) Close.Fine calls)) }
{
    let Some(call) = call_at_hand(alloc, replica)? else {
        return Err(NoMemory);
    };
    if !I::can_serve(&replica.host) {
        return Err(NoMemory);
    }
    let replies = service.apply(alloc, &call.name, &call.args)?;
    let batch = replica.number;
    I::serve(&replica.heap, &mut replica.host, batch, time, replies.kept);
    replica.runner.phase = Phase::Asking;
    Ok(())
}

/// The call of the item that was begun last.
fn call_at_hand<H: Host, T, I: Works<H, T>, E>(
    alloc: Global,
    replica: &Replica<E, I, T, H>,
) -> Result<Option<Call>, NoMemory>
    ensures call { (item : T)
        → slice_get replica.now.runner.planner.batch.items (replica.now.runner.planner.begun - 1)
        ≡ Some item
        → IfOk result (IsCallOf (I.fact item)) }
    ensures args { IfOk result HasArgs }
{
    let place = replica.runner.planner.begun.saturating_sub(1) as usize;
    match replica.runner.planner.batch.get(place) {
        Some(item) => I::call(alloc, item),
        None => Ok(None),
    }
}
