ghost use Rattle.std.specs.Prelude.{◌≡◌, ◌<◌, ◌^◌, length};

use crate::items::Items;
use crate::scheduler::Planner;
use rip_base::NoMemory;
use rip_eval_rows::{Close, Step};
use rip_heap::{Heap, Host};
use std::alloc::Global;

/// A batch, and in it the item that was begun last. Items are numbered from 1.
#[derive(Drop)]
pub struct AtItem<I, T> {
    pub items: I,
    pub batch: Vec<T>,
    /// How many items were begun.
    pub begun: u32,
    ghost few: { length batch.items < 2 ^ 32 },
}

impl<H: Host, T, I: Items<H, T>> Planner<H> for AtItem<I, T> {
    ghost use Rattle.rip_replica.specs.Standing.{planned};
    ghost use Rattle.rip_replica.specs.Kept.{keeps_all, keeps_on, IsKept};

    ghost plan = { planned I.under_way };

    ghost steps = { λ p. I.steps p.items };

    ghost room = { λ p. I.room p.items };

    ghost need = { I.need };

    ghost kept = { IsKept I.item_plan };

    ghost same = { λ p. keeps_all (I.item_plan) p };

    ghost on = { λ p q r. keeps_on (I.item_plan) p q r };

    fn next(&mut self, alloc: Global, heap: &mut Heap, host: &mut H) -> Result<Step, NoMemory> {
        match self.batch.get(self.begun.saturating_sub(1) as usize) {
            None => Ok(Step::Over(Close::Fine)),
            Some(item) => self.items.next_of(alloc, item, self.begun, heap, host),
        }
    }
}
