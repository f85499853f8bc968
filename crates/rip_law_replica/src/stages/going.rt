ghost use Rattle.std.specs.Prelude.{◌≡◌, ◌<◌, ◌≤◌, ◌^◌, ℕ, false, length, List, Some, IfOk, IsTrue};
ghost use Rattle.rip_heap.specs.Growth.{Grows};
ghost use Rattle.rip_wire.specs.Batches.{Contents};
ghost use Rattle.rip_wire.specs.declared.ending.Ending.{Ending as Ends};
ghost use Rattle.rip_history.specs.Services.{Called, Service as Meant};
ghost use Rattle.rip_history.specs.Stages.{MayAdmit, Resumed, Stage, begun, is_done, with_batch};
ghost use Rattle.rip_replica.specs.SchedulerRooms.{HasRooms};
ghost use Rattle.rip_replica.specs.Numbers.{HasNumberSo, KeepsServed, KeepsSteps, open_of};
ghost use Rattle.rip_replica.specs.Parts.{Doing, meaning_of};
ghost use Rattle.rip_replica.specs.Rooms.{IfLives, IsCallAt, IsRoomed};
ghost use Rattle.rip_law_replica.specs.AtStage.{AreDoneBy, IsAtStage};
ghost use Rattle.rip_law_replica.specs.Depth.{IsWithinSo, NestsWithin};

use rip_base::NoMemory;
use rip_eval_rows::Evaluator;
use rip_heap::{Heap, Host};
use rip_history::{Made, Progress, Service, Slice};
use rip_replica::scheduler::Runner;
use rip_replica::{AtItem, Place, Replica, Works};
use std::alloc::Global;

/// A session before the first unit of its opening, with so much fuel for an item. It has the rooms that its evaluator and its
/// items have.
pub fn open<E: Evaluator<H> + Drop, I: Works<H, T> + Drop, T: Drop, H: Host + Drop>(
    alloc: Global,
    evaluator: E,
    mut items: I,
    opening: T,
    full: u64,
    heap: Heap,
    host: H,
) -> Result<Replica<E, I, T, H>, NoMemory>
    ensures world { IfOk result (λ r. (r.heap ≡ heap) × (r.host ≡ host)) }
    ensures place { IfOk result (λ r. r.place ≡ Place.First) }
    ensures begun { IfOk result
        (λ r. (program : E.Program) (doing : ℕ → ℕ → Doing T H) (seed time : ℕ)
        → AreDoneBy doing I.plans I.fact I.served I.ending
        → (doing seed time).run ≡ (E.evaluation program).run evaluator → (doing seed time).full
        ≡ full
        → (doing seed time).opening ≡ opening → (doing seed time).world ≡ heap
        → (doing seed time).page ≡ host
        → IsAtStage (E.evaluation program) doing I.item_plan I.under_way I.may_serve r
        (begun seed time)) }
    ensures rooms { IfOk result
        (λ r. (program : E.Program) → E.has_room evaluator full → I.need host ≤ I.room items
        → HasRooms (E.evaluation program) E.has_room (λ p. I.room p.items) I.need r.runner r.host) }
{
    let mut batch = Vec::new(alloc);
    batch.push(opening)?;
    items.enter(0);
    let planner = AtItem {
        items,
        batch,
        begun: 0,
    };
    Ok(Replica {
        runner: Runner::new(evaluator, planner, full),
        place: Place::First,
        number: 0,
        heap,
        host,
    })
}

/// Admits the items of a batch to a session, which keeps its rooms.
pub fn admit<E: Evaluator<H>, I: Works<H, T>, T: Drop, H: Host>(
    replica: &mut Replica<E, I, T, H>,
    number: u64,
    batch: Vec<T>,
)
    requires { length batch.items < 2 ^ 32 }
    ensures world { (replica.new.heap ≡ replica.old.heap) × (replica.new.host ≡ replica.old.host) }
    ensures place { replica.new.place ≡ Place.First }
    ensures next { (program : E.Program) (doing : ℕ → ℕ → Doing T H) (st : Stage) (b : Contents)
        → AreDoneBy doing I.plans I.fact I.served I.ending
        → number ≡ b.number → batch.items ≡ (doing st.seed st.time).items b
        → IsAtStage (E.evaluation program) doing I.item_plan I.under_way I.may_serve replica.old st
        → MayAdmit (meaning_of doing) st b
        → IsAtStage (E.evaluation program) doing I.item_plan I.under_way I.may_serve replica.new
        (with_batch b st) }
    ensures rooms { (program : E.Program)
        → HasRooms (E.evaluation program) E.has_room (λ p. I.room p.items) I.need
        replica.old.runner replica.old.host
        → HasRooms (E.evaluation program) E.has_room (λ p. I.room p.items) I.need
        replica.new.runner replica.new.host }
{
    replica.admit(number, batch);
}

/// Goes on with a session whose batch is not done for the units of a slice, which may be none: then all stays. One that has
/// its rooms is ended for want of memory only at an item that reports a call.
pub fn resume<E: Evaluator<H>, I: Works<H, T>, T, H: Host, V: Service>(
    replica: &mut Replica<E, I, T, H>,
    alloc: Global,
    program: &E::Program,
    service: &mut V,
    slice: &Slice,
    made: &mut Made,
) -> Progress
    requires { H.fits replica.old.host replica.old.heap }
    ensures fits { H.fits replica.new.host replica.new.heap }
    ensures grows { Grows replica.old.heap replica.new.heap }
    ensures page { (number : H → ℕ) → KeepsSteps (E.evaluation program.now) I.under_way number
        → KeepsServed I.served number
        → HasNumberSo result (number replica.old.host) (number replica.new.host) }
    ensures memory { (doing : ℕ → ℕ → Doing T H) (st : Stage) (meant : Meant)
        (calls : List Called)
        → AreDoneBy doing I.plans I.fact I.served I.ending
        → IsAtStage (E.evaluation program.now) doing I.item_plan I.under_way I.may_serve replica.old
        st
        → is_done (meaning_of doing) st ≡ false → V.replies_as service.old meant calls
        → IsRoomed (E.evaluation program.now) E.has_room I.room I.need I.under_way I.served
        (IsTrue H.may_want_memory) replica.old.runner replica.old.host
        → (item : ℕ) → result ≡ Progress.Finished (Some (Ends.Memory item))
        → IsCallAt I.fact replica.new.runner.planner.batch.items item }
    ensures rooms { IsRoomed (E.evaluation program.now) E.has_room I.room I.need I.under_way I.served
        (IsTrue H.may_want_memory) replica.old.runner replica.old.host
        → IfLives result (HasRooms (E.evaluation program.now) E.has_room
        (λ p. I.room p.items) I.need replica.new.runner replica.new.host) }
    ensures depth { (doing : ℕ → ℕ → Doing T H) (st : Stage) (meant : Meant) (calls : List Called)
        (most : ℕ)
        → AreDoneBy doing I.plans I.fact I.served I.ending
        → IsAtStage (E.evaluation program.now) doing I.item_plan I.under_way I.may_serve replica.old
        st
        → is_done (meaning_of doing) st ≡ false → V.replies_as service.old meant calls
        → NestsWithin most (doing st.seed st.time).run → open_of (E.evaluation program.now)
        replica.old ≤ most
        → IsWithinSo result (open_of (E.evaluation program.now) replica.new) most }
    ensures resumed { (doing : ℕ → ℕ → Doing T H) (st : Stage) (meant : Meant) (calls : List Called)
        → AreDoneBy doing I.plans I.fact I.served I.ending
        → IsAtStage (E.evaluation program.now) doing I.item_plan I.under_way I.may_serve replica.old
        st
        → is_done (meaning_of doing) st ≡ false → V.replies_as service.old meant calls
        → IsRoomed (E.evaluation program.now) E.has_room I.room I.need I.under_way I.served
        (IsTrue H.may_want_memory) replica.old.runner replica.old.host
        → Resumed (meaning_of doing) st meant calls slice.now made.old made.new result
        (IsAtStage (E.evaluation program.now) doing I.item_plan I.under_way I.may_serve replica.new)
        (V.replies_as service.new meant) }
{
    if slice.units == 0 {
        return Progress::Busy;
    }
    replica.resume(alloc, program, service, slice, made)
}
