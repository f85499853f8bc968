ghost use Rattle.std.specs.Prelude.{◌≡◌, ◌<◌, ◌≤◌, ℕ, ◌-◌, ◌*◌, ◌+◌, length, IsTrue};
ghost use Rattle.rip_replica.specs.Numbers.{HasNumber, KeepsSteps, StandsIdle};
ghost use Rattle.rip_heap.specs.Growth.{Grows};
ghost use Rattle.rip_replica.specs.SchedulerRooms.{HasRooms};
ghost use Rattle.rip_replica.specs.Rooms.{HasNoLack};
ghost use Rattle.rip_replica.specs.Standing.{IsOnward, TurnsSo, place_behind, spot, turn_behind};

use crate::item::AtItem;
use crate::items::Items;
use crate::scheduler::{Rested, Runner};
use rip_eval_rows::{Close, Evaluator, Phase};
use rip_heap::{Heap, Host};
use std::alloc::Global;

/// Where a session stands in its batch.
#[derive(Clone, Copy, Debug, PartialEq, Eq)]
pub enum Place {
    /// Before its first unit, which is that of no item.
    First,
    /// Before the unit of its next item, or at its end.
    Between,
    /// In the item that was begun last.
    Within,
    /// At no batch that goes on.
    Idle,
}

/// What a turn comes to. So many units are not spent.
pub(crate) enum Turn {
    On(u64),
    /// No unit is left, and one is wanted.
    Busy,
    /// The item under way is a call, which is to be served.
    Calls(u64),
    /// The batch is done.
    Done,
    /// The item under way ends the session.
    Ends(Close),
    /// Memory is wanting in the item under way.
    Lacks,
}

/// A session: its evaluator and the batch under way, where it stands in it, its heap, and what stands behind its page.
#[derive(Drop)]
pub struct Replica<E, I, T, H> {
    pub runner: Runner<E, AtItem<I, T>>,
    pub place: Place,
    /// The number of the batch. The opening is batch 0.
    pub number: u64,
    pub heap: Heap,
    pub host: H,
}

impl<E, I, T, H> Replica<E, I, T, H> {
    /// One turn: up to the next unit, or what is waited for.
    pub(crate) fn turn(&mut self, alloc: Global, program: &E::Program, n: u64) -> Turn
    where
        H: Host,
        E: Evaluator<H>,
        I: Items<H, T>,
        requires { H.fits self.old.host self.old.heap }
        ensures fits { H.fits self.new.host self.new.heap }
        ensures grows { Grows self.old.heap self.new.heap }
        ensures turns { TurnsSo (E.evaluation program.now)
            (spot I.item_plan I.under_way self.old) (spot I.item_plan I.under_way self.new) n result }
        ensures onward { IsOnward (length self.old.runner.planner.batch.items) self.old.place
            self.old.runner.planner.begun
            (length self.new.runner.planner.batch.items) self.new.place self.new.runner.planner.begun result }
        ensures number { self.new.number ≡ self.old.number }
        ensures batch { self.new.runner.planner.batch ≡ self.old.runner.planner.batch }
        ensures page { (number : H → ℕ) → KeepsSteps (E.evaluation program.now) I.under_way number
            → HasNumber result (number self.old.host) (number self.new.host) }
        ensures memory { KeepsSteps (E.evaluation program.now) I.under_way I.need
            → (IsTrue H.may_want_memory → ⊥)
            → HasRooms (E.evaluation program.now) E.has_room (λ p. I.room p.items) I.need
            self.old.runner self.old.host
            → HasRooms (E.evaluation program.now) E.has_room (λ p. I.room p.items) I.need
            self.new.runner self.new.host × HasNoLack result }
        ensures idle { StandsIdle result self.new.place }
    {
        match self.place {
            Place::First if n == 0 => Turn::Busy,
            Place::First => {
                self.place = Place::Between;
                Turn::On(n - 1)
            },
            Place::Between => self.next_item(n),
            Place::Within => self.within(alloc, program, n),
            Place::Idle => Turn::Busy,
        }
    }

    /// Takes the unit of the next item and stands in it; where there is none, the batch is done.
    fn next_item(&mut self, n: u64) -> Turn
    where
        H: Host,
        E: Evaluator<H>,
        I: Items<H, T>,
        requires { self.old.place ≡ Place.Between }
        ensures turns { (program : E.Program) → TurnsSo (E.evaluation program)
            (spot I.item_plan I.under_way self.old) (spot I.item_plan I.under_way self.new) n result }
        ensures onward { IsOnward (length self.old.runner.planner.batch.items) self.old.place
            self.old.runner.planner.begun
            (length self.new.runner.planner.batch.items) self.new.place self.new.runner.planner.begun result }
        ensures number { self.new.number ≡ self.old.number }
        ensures batch { self.new.runner.planner.batch ≡ self.old.runner.planner.batch }
        ensures idle { StandsIdle result self.new.place }
        ensures world { (self.new.heap ≡ self.old.heap) × (self.new.host ≡ self.old.host) }
        ensures memory { (program : E.Program)
            → HasRooms (E.evaluation program) E.has_room (λ p. I.room p.items) I.need
            self.old.runner self.old.host
            → HasRooms (E.evaluation program) E.has_room (λ p. I.room p.items) I.need
            self.new.runner self.new.host × HasNoLack result }
    {
        if self.runner.planner.begun as usize >= self.runner.planner.batch.len() {
            self.place = Place::Idle;
            return Turn::Done;
        }
        if n == 0 {
            return Turn::Busy;
        }
        self.runner.planner.begun += 1;
        self.runner.planner.items.begin();
        self.runner.phase = Phase::Asking;
        self.runner.fuel = self.runner.full;
        self.place = Place::Within;
        Turn::On(n - 1)
    }

    /// Goes on with the item under way.
    fn within(&mut self, alloc: Global, program: &E::Program, n: u64) -> Turn
    where
        H: Host,
        E: Evaluator<H>,
        I: Items<H, T>,
        requires fits { H.fits self.old.host self.old.heap }
        requires within { self.old.place ≡ Place.Within }
        ensures fits { H.fits self.new.host self.new.heap }
        ensures grows { Grows self.old.heap self.new.heap }
        ensures turns { TurnsSo (E.evaluation program.now)
            (spot I.item_plan I.under_way self.old) (spot I.item_plan I.under_way self.new) n result }
        ensures onward { IsOnward (length self.old.runner.planner.batch.items) self.old.place
            self.old.runner.planner.begun
            (length self.new.runner.planner.batch.items) self.new.place self.new.runner.planner.begun result }
        ensures number { self.new.number ≡ self.old.number }
        ensures batch { self.new.runner.planner.batch ≡ self.old.runner.planner.batch }
        ensures page { (number : H → ℕ) → KeepsSteps (E.evaluation program.now) I.under_way number
            → HasNumber result (number self.old.host) (number self.new.host) }
        ensures memory { KeepsSteps (E.evaluation program.now) I.under_way I.need
            → (IsTrue H.may_want_memory → ⊥)
            → HasRooms (E.evaluation program.now) E.has_room (λ p. I.room p.items) I.need
            self.old.runner self.old.host
            → HasRooms (E.evaluation program.now) E.has_room (λ p. I.room p.items) I.need
            self.new.runner self.new.host × HasNoLack result }
        ensures idle { StandsIdle result self.new.place }
    {
        let rested = self
            .runner
            .resume(alloc, program, &mut self.heap, &mut self.host, n);
        match rested {
            Rested::Busy => Turn::Busy,
            Rested::Awaits(left) => Turn::Calls(left),
            Rested::Finished(close, left) => {
                self.place = place_behind(close);
                turn_behind(close, left)
            },
            Rested::Unplanned(_) | Rested::Unrun { .. } => {
                self.place = Place::Idle;
                Turn::Lacks
            },
        }
    }
}

/// Where a session stands behind an item that closed so.
fn place_behind(close: Close) -> Place
    ensures { result ≡ place_behind close }
{
    match close {
        Close::Fine => Place::Between,
        _ => Place::Idle,
    }
}

/// What a turn comes to that an item ends.
fn turn_behind(close: Close, left: u64) -> Turn
    ensures { result ≡ turn_behind close left }
{
    match close {
        Close::Fine => Turn::On(left),
        _ => Turn::Ends(close),
    }
}
