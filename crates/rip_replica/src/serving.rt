ghost use Rattle.std.specs.Prelude.{◌≡◌, ℕ, true, List, OnErr, OnOk};
ghost use Rattle.rip_data.specs.Datum.{trees_in};
ghost use Rattle.rip_wire.specs.Items.{AreArgs};
ghost use Rattle.rip_history.specs.Services.{Called, Service as Meant};
ghost use Rattle.rip_replica.specs.Numbers.{KeepsServed};
ghost use Rattle.rip_replica.specs.Serving.{IsServed, IsUnserved, given_to};

use crate::works::{Call, Works};
use rip_base::NoMemory;
use rip_heap::{Heap, Host};
use rip_history::{Made, Service, Slice};
use rip_log::Entry;
use rip_wire::ServedCall;
use std::alloc::Global;

/// Serves the call at hand. All memory but the service's is taken first; want of it leaves all as before.
pub(crate) fn serve_call<H: Host, T, I: Works<H, T>, V: Service>(
    alloc: Global,
    heap: &Heap,
    host: &mut H,
    service: &mut V,
    call: Call,
    batch: u64,
    slice: &Slice,
    made: &mut Made,
) -> Result<(), NoMemory>
    requires fits { H.fits host.old heap.now }
    requires may { I.may_serve host.old ≡ true }
    requires args { AreArgs (trees_in call.args) }
    ensures fits { H.fits host.new heap.now }
    ensures served { (meant : Meant) (calls : List Called) → V.replies_as service.old meant calls
        → OnOk result (IsServed slice.now batch call.number call.name (trees_in call.args)
        (given_to meant calls slice.now.time call.name (trees_in call.args)) calls made.old made.new
        (V.replies_as service.new meant)) }
    ensures host { (meant : Meant) (calls : List Called) → V.replies_as service.old meant calls
        → OnOk result (host.new ≡ I.served batch
        (given_to meant calls slice.now.time call.name (trees_in call.args)) host.old) }
    ensures memory { OnErr result (host.new ≡ host.old) }
    ensures page { (number : H → ℕ) → KeepsServed I.served number
        → OnOk result (number host.new ≡ number host.old) }
    ensures unserved { (meant : Meant) (calls : List Called) → V.replies_as service.old meant calls
        → OnErr result (IsUnserved calls made.old made.new (V.replies_as service.new meant)) }
{
    made.entries.reserve(1)?;
    made.served.reserve(1)?;
    let replies = service.apply(alloc, &call.name, &call.args)?;
    let Call {
        number,
        name,
        args,
        ..
    } = call;
    made.entries.push_reserved(Entry::Served {
        turn: slice.turn,
        session: slice.session,
        batch,
        number,
        name,
        args,
        time: slice.time,
        reply: replies.logged,
    });
    made.served.push_reserved(ServedCall {
        number,
        time: slice.time,
        reply: replies.sent,
    });
    I::serve(heap, host, batch, slice.time, replies.kept);
    Ok(())
}
