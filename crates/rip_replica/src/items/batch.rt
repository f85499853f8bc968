ghost use Rattle.std.specs.Prelude.{◌≡◌, ◌+◌, ◌-◌, ◌<◌, ◌^◌, drop, length, slice_get, IfOk, OnErr};
ghost use Rattle.rip_heap.specs.Growth.{Grows};
ghost use Rattle.rip_heap.specs.World.{World};
ghost use Rattle.rip_eval_rows.specs.Plan.{IsFewer, ahead};
ghost use Rattle.rip_replica.specs.Batch.{GoesOnWithin, IsFewerWithin, items_from, left_of_batch, steps_of_batch, unless_fine};

use rip_base::NoMemory;
use rip_eval_rows::{Close, Planner, Step};
use rip_heap::{Heap, Host};
use std::alloc::Global;

/// What the items of a batch do, one after another, where T is the type of an item.
pub trait Items<H: Host, T> {
    ghost use Rattle.std.specs.Prelude.{◌≡◌, ◌<◌, ◌≤◌, ℕ, IfOk, OnErr};
    ghost use Rattle.rip_heap.specs.Growth.{Grows};
    ghost use Rattle.rip_heap.specs.World.{World};
    ghost use Rattle.rip_eval_rows.specs.Plan.{Plan, ahead, IsFewer};

    // What an item of this number does, from this world and this host on.
    ghost item_plan: { Self → T → ℕ → World → H → Plan H };

    // What is left of the item under way, which is of this number.
    ghost under_way: { Self → T → ℕ → World → H → Plan H };

    // A bound of the steps that are left of it, and one of the steps of any item.
    ghost steps: { Self → ℕ };

    ghost most: { Self → ℕ };

    // The room of the items, and the least with which no step of an item wants memory at this host.
    ghost room: { Self → ℕ };

    ghost need: { H → ℕ };

    /// Stands before an item.
    fn begin(&mut self)
        ensures item_plan { item_plan self.new ≡ item_plan self.old }
        ensures under_way { under_way self.new ≡ item_plan self.old }
        ensures most { most self.new ≡ most self.old }
        ensures steps { steps self.new ≤ most self.old }
        ensures room { room self.new ≡ room self.old };

    /// The next step of the item under way. Memory is wanting only where the room is too little, and then all is as before.
    fn next_of(
        &mut self,
        alloc: Global,
        item: &T,
        number: u32,
        heap: &mut Heap,
        host: &mut H,
    ) -> Result<Step, NoMemory>
        requires { H.fits host.old heap.old }
        ensures fits { H.fits host.new heap.new }
        ensures grows { Grows heap.old heap.new }
        ensures plan { IfOk result
            (λ step. under_way self.old item.now number heap.old host.old
            ≡ ahead (under_way self.new item.now number) step heap.new host.new) }
        ensures fewer { IfOk result (λ step. IsFewer step (steps self.new) (steps self.old)) }
        ensures item_plan { item_plan self.new ≡ item_plan self.old }
        ensures most { most self.new ≡ most self.old }
        ensures memory { OnErr result
            ((under_way self.new ≡ under_way self.old) × (steps self.new ≡ steps self.old)
            × (heap.new ≡ heap.old) × (host.new ≡ host.old)) }
        ensures lack { OnErr result (room self.old < need host.old) }
        ensures room { room self.new ≡ room self.old };
}

/// Where a batch stands.
#[derive(Clone, Copy, Debug, PartialEq, Eq)]
pub enum Stage {
    /// Before its first unit.
    First,
    /// Before its next item, or at its end.
    Between,
    /// Within the item that was begun last.
    Within,
}

/// A batch that is planned, item by item. Its items are numbered from 1.
#[derive(Drop)]
pub struct Batch<I, T> {
    pub items: I,
    pub batch: Vec<T>,
    /// How many items were begun.
    pub begun: u32,
    pub stage: Stage,
    ghost few: { length batch.items < 2 ^ 32 },
}

impl<I, T> Batch<I, T> {
    /// A batch of these items, before its first unit.
    pub fn new(items: I, batch: Vec<T>) -> Self
        requires { length batch.items < 2 ^ 32 }
        ensures items { result.items ≡ items }
        ensures batch { result.batch ≡ batch }
        ensures begun { (result.begun ≡ 0) × (result.stage ≡ Stage.First) }
    {
        Batch {
            items,
            batch,
            begun: 0,
            stage: Stage::First,
        }
    }

    /// Stands before the next item, if there is one.
    fn next_item<H: Host>(&mut self) -> Step
    where
        I: Items<H, T>,
        ensures plan { (w : World) (s : H) → items_from (I.item_plan self.old.items)
            (self.old.begun + 1) (drop self.old.begun self.old.batch.items) w s
            ≡ ahead (left_of_batch (I.item_plan self.new.items) (I.under_way self.new.items)
            self.new.batch.items self.new.begun self.new.stage) result w s }
        ensures fewer { IsFewer result
            (steps_of_batch (I.most self.new.items) (I.steps self.new.items)
            (length self.new.batch.items - self.new.begun) self.new.stage)
            (steps_of_batch (I.most self.old.items) 0 (length self.old.batch.items - self.old.begun)
            Stage.Between) }
        ensures room { I.room self.new.items ≡ I.room self.old.items }
    {
        if (self.begun as usize) < self.batch.len() {
            self.begun += 1;
            self.stage = Stage::Within;
            self.items.begin();
            Step::Take
        } else {
            self.stage = Stage::Between;
            Step::Over(Close::Fine)
        }
    }

    /// The next step within the item under way; none where the item is over and fine.
    fn within_item<H: Host>(
        &mut self,
        alloc: Global,
        heap: &mut Heap,
        host: &mut H,
    ) -> Result<Option<Step>, NoMemory>
    where
        I: Items<H, T>,
        requires { H.fits host.old heap.old }
        ensures fits { H.fits host.new heap.new }
        ensures grows { Grows heap.old heap.new }
        ensures batch { (self.new.batch ≡ self.old.batch) × (self.new.begun ≡ self.old.begun)
            × (self.new.stage ≡ self.old.stage) }
        ensures items { (I.item_plan self.new.items ≡ I.item_plan self.old.items)
            × (I.most self.new.items ≡ I.most self.old.items) }
        ensures plan { IfOk result
            (λ step. GoesOnWithin (I.under_way self.old.items) (I.under_way self.new.items)
            (slice_get self.old.batch.items (self.old.begun - 1)) self.old.begun heap.old host.old
            step heap.new host.new) }
        ensures fewer { IfOk result
            (λ step. IsFewerWithin step (I.steps self.new.items) (I.steps self.old.items)) }
        ensures memory { OnErr result
            ((I.under_way self.new.items ≡ I.under_way self.old.items)
            × (I.steps self.new.items ≡ I.steps self.old.items) × (heap.new ≡ heap.old)
            × (host.new ≡ host.old)) }
        ensures lack { OnErr result (I.room self.old.items < I.need host.old) }
        ensures room { I.room self.new.items ≡ I.room self.old.items }
    {
        match self.batch.get(self.begun.saturating_sub(1) as usize) {
            None => Ok(None),
            Some(item) => {
                let step = self.items.next_of(alloc, item, self.begun, heap, host)?;
                Ok(unless_fine(step))
            },
        }
    }
}

/// A step, or none where it is the end of an item that is fine.
fn unless_fine(step: Step) -> Option<Step>
    ensures { result ≡ unless_fine step }
{
    match step {
        Step::Over(Close::Fine) => None,
        _ => Some(step),
    }
}

impl<H: Host, T, I: Items<H, T>> Planner<H> for Batch<I, T> {
    ghost use Rattle.std.specs.Prelude.{length, ◌-◌};
    ghost use Rattle.rip_replica.specs.Batch.{left_of_batch, steps_of_batch};

    ghost plan = { λ b. left_of_batch (I.item_plan b.items) (I.under_way b.items) b.batch.items b.begun b.stage };

    ghost steps = { λ b. steps_of_batch (I.most b.items) (I.steps b.items) (length b.batch.items - b.begun) b.stage };

    ghost room = { λ b. I.room b.items };

    ghost need = { I.need };

    fn next(&mut self, alloc: Global, heap: &mut Heap, host: &mut H) -> Result<Step, NoMemory> {
        match self.stage {
            Stage::First => {
                self.stage = Stage::Between;
                Ok(Step::Take)
            },
            Stage::Between => Ok(self.next_item::<H>()),
            Stage::Within => match self.within_item(alloc, heap, host)? {
                Some(step) => Ok(step),
                None => Ok(self.next_item::<H>()),
            },
        }
    }
}
