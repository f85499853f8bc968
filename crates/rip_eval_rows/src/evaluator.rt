use crate::completion::Stop;
use crate::step::Opening;
use rip_base::Refused;
use rip_heap::{Heap, Host};
use std::alloc::Global;

/// What some units of a run come to.
#[derive(Clone, Copy, Debug, PartialEq, Eq)]
pub enum Advance {
    /// The run is cut after them.
    Paused,
    /// The run has completed, in whatever way, with so many of them.
    Passed(u64),
    /// The run has met a fault or a limit, with so many of them.
    Broken { stop: Stop, used: u64 },
    Memory,
}

/// What runs the scripts and functions of a program, and can be cut after any unit.
pub trait Evaluator<H: Host> {
    ghost use Rattle.std.specs.Prelude.{◌≡◌, ◌≤◌, ℕ, IsTrue};
    ghost use Rattle.rip_heap.specs.Growth.{Grows};
    ghost use Rattle.rip_heap.specs.Step.{TakesNoMemory};
    ghost use Rattle.rip_eval_rows.specs.Evaluation.{Evaluation, Begins, Advances, RunsOnce, EndsByFuel};
    ghost use Rattle.rip_eval_rows.specs.Plan.{opened};

    type Program;

    // What runs of a program mean.
    ghost evaluation: { Self.Program → Evaluation Self H };

    // Whether the memory of runs with so much fuel was taken before, also that of the run that goes on.
    ghost has_room: { Self → ℕ → Type 0 };

    /// The fuel that is left to the run that goes on.
    fn fuel_left(&self) -> u64
        ensures { (program : Self.Program) → result ≡ (evaluation program).fuel self.now };

    /// Begins a run with so much fuel. One that would pass a limit does nothing, and one for which memory is wanting, since it
    /// was not taken for so much fuel, leaves all as it was.
    fn begin(
        &mut self,
        alloc: Global,
        program: &Self::Program,
        heap: &mut Heap,
        opening: &Opening,
        fuel: u64,
    ) -> Result<(), Refused>
        ensures keeps { (evaluation program.now).run self.new
            ≡ (evaluation program.now).run self.old }
        ensures begins { Begins (evaluation program.now) (opened opening.now) fuel self.old heap.old
            self.new heap.new result }
        ensures memory { (most : ℕ) → has_room self.old most → fuel ≤ most
            → TakesNoMemory result }
        ensures room { (most : ℕ) → has_room self.old most → fuel ≤ most
            → has_room self.new most }
        ensures grows { Grows heap.old heap.new };

    /// Goes on with the run for at most `n` units. Where its memory was taken, it is wanting only where the host may want it.
    fn advance(
        &mut self,
        alloc: Global,
        program: &Self::Program,
        heap: &mut Heap,
        host: &mut H,
        n: u64,
    ) -> Advance
        requires { H.fits host.old heap.old }
        ensures fits { H.fits host.new heap.new }
        ensures keeps { (evaluation program.now).run self.new
            ≡ (evaluation program.now).run self.old }
        ensures advances { Advances (evaluation program.now) n self.old heap.old host.old self.new
            heap.new host.new result }
        ensures memory { (most : ℕ) → has_room self.old most → result ≡ Advance.Memory
            → IsTrue H.may_want_memory }
        ensures room { (most : ℕ) → has_room self.old most → has_room self.new most }
        ensures grows { Grows heap.old heap.new };

    // More units change no run that has come to its end.
    ghost once: { (program : Self.Program) (evaluator : Self)
        → RunsOnce (evaluation program) evaluator };

    // A run with as many units as fuel comes to its end.
    ghost ends: { (program : Self.Program) (evaluator : Self)
        → EndsByFuel (evaluation program) evaluator };
}
