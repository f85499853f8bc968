ghost use Rattle.std.specs.Prelude.{◌≡◌, ◌≤◌, ◌⊎◌, ◌-◌, ◌<◌, ◌^◌, ◌==◌, ℕ, IsTrue, true, length, slice_get, List, Some, IfOk, OnErr, OnOk};
ghost use Rattle.rip_data.specs.Datum.{Tree};
ghost use Rattle.rip_heap.specs.Growth.{Grows};
ghost use Rattle.rip_wire.specs.declared.ending.Ending.{Ending as Ends};
ghost use Rattle.rip_history.specs.Parts.{serves};
ghost use Rattle.rip_history.specs.Services.{Called, Service as Meant};
ghost use Rattle.rip_replica.specs.SchedulerRooms.{HasRooms};
ghost use Rattle.rip_replica.specs.Serving.{HasArgs, IsCallOf, IsServed, IsUnserved, given_to};
ghost use Rattle.rip_history.specs.Stages.{Resumed, Stage};
ghost use Rattle.rip_replica.specs.Numbers.{HasNumberSo, KeepsServed, KeepsSteps, StandsIdleSo};
ghost use Rattle.rip_replica.specs.Parts.{Doing, meaning_of};
ghost use Rattle.rip_replica.specs.Rooms.{IfLives, IsCallAt, IsMismatch, IsRoomed};
ghost use Rattle.rip_replica.specs.Sessions.{IsAt, IsBusy};
ghost use Rattle.rip_replica.specs.Slices.{Agrees, SlicedSo};
ghost use Rattle.rip_replica.specs.declared.works.Call.{Call as Reported};
ghost use Rattle.rip_replica.specs.Standing.{Ahead, Behind, Stands, spot};

use crate::replica::{Place, Replica, Turn};
use crate::serving::serve_call;
use crate::works::{Call, Works};
use rip_base::NoMemory;
use rip_eval_rows::{Close, Evaluator};
use rip_heap::Host;
use rip_history::{Made, Progress, Service, Slice};
use rip_wire::Ending;
use std::alloc::Global;

impl<E, I, T, H> Replica<E, I, T, H> {
    /// Stands before the first unit of a batch of this number.
    pub fn admit(&mut self, number: u64, batch: Vec<T>)
    where
        H: Host,
        I: Works<H, T>,
        T: Drop,
        requires { length batch.items < 2 ^ 32 }
        ensures items { (I.item_plan self.new.runner.planner.items ≡ I.plans number)
            × (self.new.runner.planner.batch ≡ batch) × (self.new.runner.planner.begun ≡ 0) }
        ensures place { (self.new.place ≡ Place.First) × (self.new.number ≡ number) }
        ensures runs { (self.new.runner.evaluator ≡ self.old.runner.evaluator)
            × (self.new.runner.full ≡ self.old.runner.full) }
        ensures world { (self.new.heap ≡ self.old.heap) × (self.new.host ≡ self.old.host) }
        ensures rooms { (I.room self.new.runner.planner.items
            ≡ I.room self.old.runner.planner.items)
            × (self.new.runner.phase ≡ self.old.runner.phase)
            × (self.new.runner.fuel ≡ self.old.runner.fuel) }
    {
        self.number = number;
        self.runner.planner.items.enter(number);
        self.runner.planner.batch = batch;
        self.runner.planner.begun = 0;
        self.place = Place::First;
    }

    /// Goes on with the batch for the units of a slice. Each call that comes is served within it, with a reply of the
    /// service. Want of memory in an item ends the session there; one that has its rooms is ended so only at an item that
    /// reports a call.
    pub fn resume<V: Service>(
        &mut self,
        alloc: Global,
        program: &E::Program,
        service: &mut V,
        slice: &Slice,
        made: &mut Made,
    ) -> Progress
    where
        H: Host,
        E: Evaluator<H>,
        I: Works<H, T>,
        requires { H.fits self.old.host self.old.heap }
        ensures fits { H.fits self.new.host self.new.heap }
        ensures grows { Grows self.old.heap self.new.heap }
        ensures number { self.new.number ≡ self.old.number }
        ensures batch { self.new.runner.planner.batch ≡ self.old.runner.planner.batch }
        ensures page { (number : H → ℕ) → KeepsSteps (E.evaluation program.now) I.under_way number
            → KeepsServed I.served number → HasNumberSo result (number self.old.host)
            (number self.new.host) }
        ensures memory { (doing : ℕ → ℕ → Doing T H) (st : Stage) (meant : Meant)
            (calls : List Called)
            → Agrees (doing st.seed st.time) I.fact I.served I.ending → self.old.number
            ≡ length st.batches
            → IsBusy (E.evaluation program.now) (doing st.seed st.time) I.may_serve
            (spot I.item_plan I.under_way self.old) st
            → V.replies_as service.old meant calls
            → IsRoomed (E.evaluation program.now) E.has_room I.room I.need I.under_way I.served
            (IsTrue H.may_want_memory) self.old.runner self.old.host
            → (item : ℕ) → result ≡ Progress.Finished (Some (Ends.Memory item))
            → IsCallAt I.fact self.new.runner.planner.batch.items item }
        ensures rooms { IsRoomed (E.evaluation program.now) E.has_room I.room I.need I.under_way
            I.served (IsTrue H.may_want_memory) self.old.runner self.old.host
            → IfLives result (HasRooms (E.evaluation program.now) E.has_room
            (λ p. I.room p.items) I.need self.new.runner self.new.host) }
        ensures idle { StandsIdleSo result self.new.place }
        ensures slice { SlicedSo (IsRoomed (E.evaluation program.now) E.has_room I.room I.need
            I.under_way I.served (IsTrue H.may_want_memory) self.old.runner self.old.host)
            (E.evaluation program.now) I.fact I.served I.ending I.may_serve
            self.old.number
            (spot I.item_plan I.under_way self.old) (spot I.item_plan I.under_way self.new)
            slice.now.units slice.now made.old made.new result (V.replies_as service.old) (V.replies_as service.new) }
        ensures resumed { (doing : ℕ → ℕ → Doing T H) (st : Stage) (meant : Meant)
            (calls : List Called)
            → Agrees (doing st.seed st.time) I.fact I.served I.ending → self.old.number
            ≡ length st.batches
            → IsBusy (E.evaluation program.now) (doing st.seed st.time) I.may_serve
            (spot I.item_plan I.under_way self.old) st
            → 1 ≤ slice.now.units → V.replies_as service.old meant calls
            → IsRoomed (E.evaluation program.now) E.has_room I.room I.need I.under_way I.served
            (IsTrue H.may_want_memory) self.old.runner self.old.host
            → Resumed (meaning_of doing) st meant calls slice.now made.old made.new result
            (IsAt (E.evaluation program.now) doing I.may_serve (spot I.item_plan I.under_way self.new))
            (V.replies_as service.new meant) }
    {
        self.go_on(alloc, program, service, slice, made)
    }

    /// Goes on turn by turn.
    fn go_on<V: Service>(
        &mut self,
        alloc: Global,
        program: &E::Program,
        service: &mut V,
        slice: &Slice,
        made: &mut Made,
    ) -> Progress
    where
        H: Host,
        E: Evaluator<H>,
        I: Works<H, T>,
        requires { H.fits self.old.host self.old.heap }
        ensures fits { H.fits self.new.host self.new.heap }
        ensures grows { Grows self.old.heap self.new.heap }
        ensures number { self.new.number ≡ self.old.number }
        ensures batch { self.new.runner.planner.batch ≡ self.old.runner.planner.batch }
        ensures page { (number : H → ℕ) → KeepsSteps (E.evaluation program.now) I.under_way number
            → KeepsServed I.served number → HasNumberSo result (number self.old.host)
            (number self.new.host) }
        ensures memory { (d : Doing T H) (next : Behind H) (from base : ℕ) (ahead : Ahead H)
            (meant : Meant) (calls : List Called)
            → Agrees d I.fact I.served I.ending
            → Stands (E.evaluation program.now) d I.may_serve self.old.number next
            (spot I.item_plan I.under_way self.old) from base from ahead
            → V.replies_as service.old meant calls
            → IsRoomed (E.evaluation program.now) E.has_room I.room I.need I.under_way I.served
            (IsTrue H.may_want_memory) self.old.runner self.old.host
            → (item : ℕ) → result ≡ Progress.Finished (Some (Ends.Memory item))
            → IsCallAt I.fact self.new.runner.planner.batch.items item }
        ensures rooms { IsRoomed (E.evaluation program.now) E.has_room I.room I.need I.under_way
            I.served (IsTrue H.may_want_memory) self.old.runner self.old.host
            → IfLives result (HasRooms (E.evaluation program.now) E.has_room
            (λ p. I.room p.items) I.need self.new.runner self.new.host) }
        ensures idle { StandsIdleSo result self.new.place }
        ensures slice { SlicedSo (IsRoomed (E.evaluation program.now) E.has_room I.room I.need
            I.under_way I.served (IsTrue H.may_want_memory) self.old.runner self.old.host)
            (E.evaluation program.now) I.fact I.served I.ending I.may_serve
            self.old.number
            (spot I.item_plan I.under_way self.old) (spot I.item_plan I.under_way self.new)
            slice.now.units slice.now made.old made.new result (V.replies_as service.old) (V.replies_as service.new) }
    {
        let mut left = slice.units;
        loop {
            match self.turn(alloc, program, left) {
                Turn::On(units) => left = units,
                Turn::Busy => return Progress::Busy,
                Turn::Done => return Progress::Finished(None),
                Turn::Ends(close) => return self.end(alloc, close),
                Turn::Lacks => return self.lack(),
                Turn::Calls(units) => match self.serve(alloc, service, slice, made) {
                    Ok(()) => left = units,
                    Err(NoMemory) => return self.lack(),
                },
            }
        }
    }

    /// A copy of the call of the item under way, if it reports one and that may be served.
    fn call_under_way(&self, alloc: Global) -> Result<Option<Call>, NoMemory>
    where
        H: Host,
        I: Works<H, T>,
        ensures call { (item : T) → slice_get self.now.runner.planner.batch.items
            (self.now.runner.planner.begun - 1) ≡ Some item → I.may_serve self.now.host ≡ true
            → IfOk result (IsCallOf (I.fact item)) }
        ensures args { IfOk result HasArgs }
        ensures may { (call : Reported) → result ≡ Ok (Some call)
            → I.may_serve self.now.host ≡ true }
    {
        if !I::can_serve(&self.host) {
            return Ok(None);
        }
        let place = self.runner.planner.begun.saturating_sub(1) as usize;
        match self.runner.planner.batch.get(place) {
            Some(item) => I::call(alloc, item),
            None => Ok(None),
        }
    }

    /// Serves the call under way, if one may be served. The item is over then. Want of memory, where an allocation was refused,
    /// leaves all as before.
    fn serve<V: Service>(
        &mut self,
        alloc: Global,
        service: &mut V,
        slice: &Slice,
        made: &mut Made,
    ) -> Result<(), NoMemory>
    where
        H: Host,
        I: Works<H, T>,
        requires { H.fits self.old.host self.old.heap }
        ensures fits { H.fits self.new.host self.new.heap }
        ensures kept { (self.new.runner ≡ self.old.runner) × (self.new.heap ≡ self.old.heap)
            × (self.new.number ≡ self.old.number) }
        ensures place { OnOk result (self.new.place ≡ Place.Between) }
        ensures page { (number : H → ℕ) → KeepsServed I.served number
            → OnOk result (number self.new.host ≡ number self.old.host) }
        ensures served { (meant : Meant) (calls : List Called) (item : T) (number : ℕ)
            (name : List ℕ) (args : List Tree)
            → slice_get self.old.runner.planner.batch.items (self.old.runner.planner.begun - 1)
            ≡ Some item
            → I.fact item ≡ serves number name args → I.may_serve self.old.host ≡ true
            → V.replies_as service.old meant calls
            → OnOk result (IsServed slice.now self.old.number number name args
            (given_to meant calls slice.now.time name args)
            calls made.old made.new (V.replies_as service.new meant)) }
        ensures host { (meant : Meant) (calls : List Called) (item : T) (number : ℕ) (name : List ℕ)
            (args : List Tree)
            → slice_get self.old.runner.planner.batch.items (self.old.runner.planner.begun - 1)
            ≡ Some item
            → I.fact item ≡ serves number name args → I.may_serve self.old.host ≡ true
            → V.replies_as service.old meant calls
            → OnOk result (self.new.host
            ≡ I.served self.old.number (given_to meant calls slice.now.time name args)
            self.old.host) }
        ensures unserved { (meant : Meant) (calls : List Called)
            → V.replies_as service.old meant calls
            → OnErr result (IsUnserved calls made.old made.new (V.replies_as service.new meant)) }
        ensures memory { OnErr result (self.new.host ≡ self.old.host) }
    {
        let Some(call) = self.call_under_way(alloc)? else {
            self.place = Place::Between;
            return Ok(());
        };
        serve_call::<H, T, I, V>(
            alloc,
            &self.heap,
            &mut self.host,
            service,
            call,
            self.number,
            slice,
            made,
        )?;
        self.place = Place::Between;
        Ok(())
    }

    /// The end of the session by the item under way, or for want of memory.
    fn end(&mut self, alloc: Global, close: Close) -> Progress
    where
        H: Host,
        I: Works<H, T>,
        ensures ends { (result
            ≡ Progress.Finished (Some
            (I.ending self.old.runner.planner.batch.items close self.old.host)))
            ⊎ (result ≡ Progress.Finished (Some (Ends.Memory self.old.runner.planner.begun))) }
        ensures memory { (item : ℕ) → result ≡ Progress.Finished (Some (Ends.Memory item))
            → IsMismatch close }
        ensures kept { (self.new.runner ≡ self.old.runner) × (self.new.heap ≡ self.old.heap)
            × (self.new.host ≡ self.old.host) }
        ensures number { self.new.number ≡ self.old.number }
        ensures place { self.old.place ≡ Place.Idle → self.new.place ≡ Place.Idle }
    {
        let planner = &self.runner.planner;
        match I::ending(alloc, &planner.batch, close, &self.host) {
            Ok(ending) => Progress::Finished(Some(ending)),
            Err(NoMemory) => self.lack(),
        }
    }

    /// The end of the session for want of memory in the item under way.
    fn lack(&mut self) -> Progress
        ensures lacks { result
            ≡ Progress.Finished (Some (Ends.Memory self.old.runner.planner.begun)) }
        ensures kept { (self.new.runner ≡ self.old.runner) × (self.new.heap ≡ self.old.heap)
            × (self.new.host ≡ self.old.host) }
        ensures number { self.new.number ≡ self.old.number }
        ensures place { self.new.place ≡ Place.Idle }
    {
        self.place = Place::Idle;
        Progress::Finished(Some(Ending::Memory {
            item: self.runner.planner.begun,
        }))
    }
}
