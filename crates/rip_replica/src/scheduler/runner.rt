ghost use Rattle.std.specs.Prelude.{◌≡◌, ◌<◌, ◌≤◌, ℕ, [], IsTrue};
ghost use Rattle.rip_heap.specs.Growth.{Grows};
ghost use Rattle.rip_replica.specs.Going.{BeginsRun, IsOnward, IsWithin, IsWithinTurn, Keeps, Moves, Rests, going, turns, weight};
ghost use Rattle.rip_replica.specs.SchedulerNumbers.{HasNumber, HasNumberSo, KeepsNumber};
ghost use Rattle.rip_replica.specs.SchedulerRooms.{HasNoLack, HasNoLackSo, HasRooms};
ghost use Rattle.rip_eval_rows.specs.Plan.{opened};

use crate::scheduler::planner::Planner;
use rip_base::{NoMemory, Refused};
use rip_eval_rows::{Advance, Close, Evaluator, Opening, Phase, Step, Stop};
use rip_heap::{Heap, Host};
use std::alloc::Global;

/// Why a runner stands.
#[derive(Clone, Copy, Debug, PartialEq, Eq)]
pub enum Rested {
    /// No unit is left, and one is wanted.
    Busy,
    /// The plan waits for the outside. So many units are not spent, here and below.
    Awaits(u64),
    /// The plan is over.
    Finished(Close, u64),
    /// Memory is wanting for the next step of the plan. All stands as before that step.
    Unplanned(u64),
    /// Memory was wanting in a run of this item.
    Unrun { item: u32 },
}

/// A plan that is gone on with.
#[derive(Debug, Drop)]
pub struct Runner<E, P> {
    pub evaluator: E,
    pub planner: P,
    pub phase: Phase,
    /// What is left of the fuel of the item, where no run goes on; there the evaluator has it.
    pub fuel: u64,
    /// The fuel of an item.
    pub full: u64,
}

/// What one turn of a runner comes to.
enum Moved {
    /// The runner goes on, with so many units.
    On(u64),
    Rests(Rested),
}

impl<E, P> Runner<E, P> {
    /// A runner at the beginning of what this planner plans, with so much fuel for an item.
    pub fn new(evaluator: E, planner: P, full: u64) -> Self
        ensures { result ≡ record {
          evaluator = evaluator;
          planner = planner;
          phase = Phase.Asking;
          fuel = full;
          full =
              full;
        } }
    {
        Runner {
            evaluator,
            planner,
            phase: Phase::Asking,
            fuel: full,
            full,
        }
    }

    /// Goes on with the plan for at most `n` units. Where it has its rooms and the host wants no memory, none is wanting.
    pub fn resume<H: Host>(
        &mut self,
        alloc: Global,
        program: &E::Program,
        heap: &mut Heap,
        host: &mut H,
        n: u64,
    ) -> Rested
    where
        E: Evaluator<H>,
        P: Planner<H>,
        requires { H.fits host.old heap.old }
        ensures fits { H.fits host.new heap.new }
        ensures grows { Grows heap.old heap.new }
        ensures keeps { Keeps (E.evaluation program.now) (going P.plan self.old)
            (going P.plan self.new) }
        ensures kept { P.kept self.old.planner self.new.planner }
        ensures law { Rests (E.evaluation program.now) [] (going P.plan self.old) heap.old host.old
            n (going P.plan self.new) heap.new host.new result }
        ensures within { IsWithin n result }
        ensures later { turns (P.steps self.new.planner) self.new.phase
            ≤ turns (P.steps self.old.planner) self.old.phase }
        ensures number { (number : H → ℕ) → KeepsNumber (E.evaluation program.now) P.plan number
            → HasNumber result (number host.old) (number host.new) }
        ensures memory { KeepsNumber (E.evaluation program.now) P.plan P.need
            → (IsTrue H.may_want_memory → ⊥)
            → HasRooms (E.evaluation program.now) E.has_room P.room P.need self.old host.old
            → HasRooms (E.evaluation program.now) E.has_room P.room P.need self.new host.new
            × HasNoLack result }
    {
        let mut left = n;
        loop {
            match self.turn(alloc, program, heap, host, left) {
                Moved::On(units) => left = units,
                Moved::Rests(rested) => return rested,
            }
        }
    }

    /// One turn: up to the next unit or run, or what is waited for.
    fn turn<H: Host>(
        &mut self,
        alloc: Global,
        program: &E::Program,
        heap: &mut Heap,
        host: &mut H,
        n: u64,
    ) -> Moved
    where
        E: Evaluator<H>,
        P: Planner<H>,
        requires { H.fits host.old heap.old }
        ensures fits { H.fits host.new heap.new }
        ensures grows { Grows heap.old heap.new }
        ensures keeps { Keeps (E.evaluation program.now) (going P.plan self.old)
            (going P.plan self.new) }
        ensures kept { P.kept self.old.planner self.new.planner }
        ensures moves { Moves (E.evaluation program.now) (going P.plan self.old) heap.old host.old n
            (going P.plan self.new) heap.new host.new result }
        ensures within { IsWithinTurn n result }
        ensures onward { IsOnward result (turns (P.steps self.new.planner) self.new.phase)
            (turns (P.steps self.old.planner) self.old.phase) }
        ensures number { (number : H → ℕ) → KeepsNumber (E.evaluation program.now) P.plan number
            → HasNumberSo result (number host.old) (number host.new) }
        ensures memory { KeepsNumber (E.evaluation program.now) P.plan P.need
            → (IsTrue H.may_want_memory → ⊥)
            → HasRooms (E.evaluation program.now) E.has_room P.room P.need self.old host.old
            → HasRooms (E.evaluation program.now) E.has_room P.room P.need self.new host.new
            × HasNoLackSo result }
    {
        match self.phase {
            Phase::Asking => self.ask(alloc, program, heap, host, n),
            Phase::Taking if n == 0 => Moved::Rests(Rested::Busy),
            Phase::Taking => {
                self.phase = Phase::Asking;
                self.fuel = self.full;
                Moved::On(n - 1)
            },
            Phase::Awaiting => Moved::Rests(Rested::Awaits(n)),
            Phase::Running { item } => self.run_on(alloc, program, heap, host, item, n),
            Phase::Over(close) => Moved::Rests(Rested::Finished(close, n)),
        }
    }

    /// Asks the planner for the next step.
    fn ask<H: Host>(
        &mut self,
        alloc: Global,
        program: &E::Program,
        heap: &mut Heap,
        host: &mut H,
        n: u64,
    ) -> Moved
    where
        E: Evaluator<H>,
        P: Planner<H>,
        requires fits { H.fits host.old heap.old }
        requires asking { self.old.phase ≡ Phase.Asking }
        ensures fits { H.fits host.new heap.new }
        ensures grows { Grows heap.old heap.new }
        ensures keeps { Keeps (E.evaluation program.now) (going P.plan self.old)
            (going P.plan self.new) }
        ensures kept { P.kept self.old.planner self.new.planner }
        ensures moves { Moves (E.evaluation program.now) (going P.plan self.old) heap.old host.old n
            (going P.plan self.new) heap.new host.new result }
        ensures within { IsWithinTurn n result }
        ensures onward { IsOnward result (turns (P.steps self.new.planner) self.new.phase)
            (turns (P.steps self.old.planner) Phase.Asking) }
        ensures number { (number : H → ℕ) → KeepsNumber (E.evaluation program.now) P.plan number
            → HasNumberSo result (number host.old) (number host.new) }
        ensures memory { KeepsNumber (E.evaluation program.now) P.plan P.need
            → (IsTrue H.may_want_memory → ⊥)
            → HasRooms (E.evaluation program.now) E.has_room P.room P.need self.old host.old
            → HasRooms (E.evaluation program.now) E.has_room P.room P.need self.new host.new
            × HasNoLackSo result }
    {
        let step = match self.planner.next(alloc, heap, host) {
            Ok(step) => step,
            Err(NoMemory) => return Moved::Rests(Rested::Unplanned(n)),
        };
        match step {
            Step::Over(close) => self.phase = Phase::Over(close),
            Step::Take => self.phase = Phase::Taking,
            Step::Await => self.phase = Phase::Awaiting,
            Step::Run { item, opening } => {
                return self.begin::<H>(alloc, program, heap, item, &opening, n);
            },
        }
        Moved::On(n)
    }

    /// Begins a run with the fuel that is left to the item.
    fn begin<H: Host>(
        &mut self,
        alloc: Global,
        program: &E::Program,
        heap: &mut Heap,
        item: u32,
        opening: &Opening,
        n: u64,
    ) -> Moved
    where
        E: Evaluator<H>,
        P: Planner<H>,
        requires { self.old.phase ≡ Phase.Asking }
        ensures grows { Grows heap.old heap.new }
        ensures keeps { Keeps (E.evaluation program.now) (going P.plan self.old)
            (going P.plan self.new) }
        ensures planner { self.new.planner ≡ self.old.planner }
        ensures begins { BeginsRun (E.evaluation program.now) item (opened opening.now)
            (going P.plan self.old) heap.old n (going P.plan self.new) heap.new result }
        ensures weighs { weight self.new.phase ≤ 2 }
        ensures memory { (host : H)
            → HasRooms (E.evaluation program.now) E.has_room P.room P.need self.old host
            → HasRooms (E.evaluation program.now) E.has_room P.room P.need self.new host
            × HasNoLackSo result }
    {
        match self
            .evaluator
            .begin(alloc, program, heap, opening, self.fuel)
        {
            Ok(()) => {
                self.phase = Phase::Running { item };
                Moved::On(n)
            },
            Err(Refused::Limit(limit)) => {
                let stop = Stop::Limit(limit);
                self.phase = Phase::Over(Close::Stopped { item, stop });
                Moved::On(n)
            },
            Err(Refused::Memory) => {
                self.phase = Phase::Running { item };
                Moved::Rests(Rested::Unrun { item })
            },
        }
    }

    /// Goes on with the run of this item.
    fn run_on<H: Host>(
        &mut self,
        alloc: Global,
        program: &E::Program,
        heap: &mut Heap,
        host: &mut H,
        item: u32,
        n: u64,
    ) -> Moved
    where
        E: Evaluator<H>,
        P: Planner<H>,
        requires fits { H.fits host.old heap.old }
        requires running { self.old.phase ≡ Phase.Running item }
        ensures fits { H.fits host.new heap.new }
        ensures grows { Grows heap.old heap.new }
        ensures keeps { Keeps (E.evaluation program.now) (going P.plan self.old)
            (going P.plan self.new) }
        ensures kept { P.kept self.old.planner self.new.planner }
        ensures moves { Moves (E.evaluation program.now) (going P.plan self.old) heap.old host.old n
            (going P.plan self.new) heap.new host.new result }
        ensures within { IsWithinTurn n result }
        ensures onward { IsOnward result (turns (P.steps self.new.planner) self.new.phase)
            (turns (P.steps self.old.planner) (Phase.Running item)) }
        ensures number { (number : H → ℕ) → KeepsNumber (E.evaluation program.now) P.plan number
            → HasNumberSo result (number host.old) (number host.new) }
        ensures memory { KeepsNumber (E.evaluation program.now) P.plan P.need
            → (IsTrue H.may_want_memory → ⊥)
            → HasRooms (E.evaluation program.now) E.has_room P.room P.need self.old host.old
            → HasRooms (E.evaluation program.now) E.has_room P.room P.need self.new host.new
            × HasNoLackSo result }
    {
        let fuel = self.evaluator.fuel_left();
        match self.evaluator.advance(alloc, program, heap, host, n) {
            Advance::Paused => Moved::Rests(Rested::Busy),
            Advance::Passed(used) => {
                self.fuel = fuel - used;
                self.phase = Phase::Asking;
                Moved::On(n - used)
            },
            Advance::Broken { stop, used } => {
                self.fuel = fuel - used;
                self.phase = Phase::Over(Close::Stopped { item, stop });
                Moved::On(n - used)
            },
            Advance::Memory => Moved::Rests(Rested::Unrun { item }),
        }
    }
}
