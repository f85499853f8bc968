use crate::items::Items;
use rip_base::{NoMemory, Units};
use rip_data::{Datum, DatumList};
use rip_eval_rows::Close;
use rip_heap::{Heap, Host};
use rip_wire::Ending;
use std::alloc::Global;

/// A call that a browser reports: its number, its name and its args.
#[derive(Drop)]
pub struct Call {
    pub number: u64,
    pub name: Units,
    pub args: DatumList,
}

/// What the items of a session's batches do over a page, where T is the type of an item.
pub trait Works<H: Host, T>: Items<H, T> {
    ghost use Rattle.std.specs.Prelude.{◌≡◌, ℕ, Bool, true, List, Some, IfOk, OnErr};
    ghost use Rattle.rip_data.specs.Datum.{tree_of};
    ghost use Rattle.rip_heap.specs.World.{World};
    ghost use Rattle.rip_eval_rows.specs.Plan.{Plan};
    ghost use Rattle.rip_wire.specs.declared.ending.Ending.{Ending as Ends};
    ghost use Rattle.rip_eval_rows.specs.declared.close.Close.{Close as Closed};
    ghost use Rattle.rip_eval_rows.specs.declared.close.Close.TheVariants.{Mismatch};
    ghost use Rattle.rip_history.specs.Parts.{Fact, Given, ends_at_mismatch};
    ghost use Rattle.rip_replica.specs.Plays.{IsItemPlan, IsStill};
    ghost use Rattle.rip_replica.specs.Rooms.{IsMismatch, IsNoLack};
    ghost use Rattle.rip_replica.specs.Serving.{HasArgs, IsCallOf};

    // What the items of a batch of a number do.
    ghost plans: { ℕ → T → ℕ → World → H → Plan H };

    // What an item comes to that is over and fine.
    ghost fact: { T → Fact };

    // Whether a call may be served, the page after a call of a batch was served and given this, and how an item of these
    // that closed so, and left this page, ends the session.
    ghost may_serve: { H → Bool };

    ghost served: { ℕ → Given → H → H };

    ghost ending: { List T → Closed → H → Ends };

    /// Turns to a batch of this number.
    fn enter(&mut self, batch: u64)
        ensures plans { Self.item_plan self.new ≡ plans batch }
        ensures room { Self.room self.new ≡ Self.room self.old };

    /// A copy of the call that the item reports, if it reports one.
    fn call(alloc: Global, item: &T) -> Result<Option<Call>, NoMemory>
        ensures call { IfOk result (IsCallOf (fact item.now)) }
        ensures args { IfOk result HasArgs };

    /// Whether the call at hand may be served.
    fn can_serve(host: &H) -> bool
        ensures { result ≡ may_serve host.now };

    /// Serves the call at hand with this reply.
    fn serve(heap: &Heap, host: &mut H, batch: u64, time: u64, reply: Datum)
        requires fits { H.fits host.old heap.now }
        requires may { may_serve host.old ≡ true }
        ensures fits { H.fits host.new heap.now }
        ensures served { host.new ≡ served batch (record { time = time; reply = tree_of reply })
            host.old };

    /// The ending where an item of this batch closed so. Memory is wanting only where it is a mismatch, which tells the call.
    fn ending(alloc: Global, batch: &Vec<T>, close: Close, host: &H) -> Result<Ending, NoMemory>
        ensures ending { IfOk result (λ e. e ≡ ending batch.now.items close host.now) }
        ensures told { IfOk result IsNoLack }
        ensures memory { OnErr result (IsMismatch close) };

    // A mismatch is told as one.
    ghost differs: { (batch : List T) (item : ℕ) (s : H)
        → ends_at_mismatch (Some (ending batch (Mismatch item) s)) ≡ true };

    // A call alone waits or ends with a mismatch, and no item takes a unit but for its fuel.
    ghost shapes: { (batch : ℕ) (item : T) (n : ℕ) (w : World) (s : H)
        → IsItemPlan may_serve (fact item) (plans batch item n w s) };

    // And a call changes nothing before it is served.
    ghost still: { (batch : ℕ) (item : T) (n : ℕ) (w : World) (s : H)
        → IsStill (fact item) w s (plans batch item n w s) };
}
