ghost use Rattle.std.specs.Prelude.{◌≡◌, ◌≤◌, ℕ};
ghost use Rattle.rip_heap.specs.Growth.{Grows};
ghost use Rattle.rip_heap.specs.Step.{TakesNoMemory};
ghost use Rattle.rip_eval_rows.specs.Evaluation.{Begins};
ghost use Rattle.rip_machine.specs.Plans.{HasRoom, advance_of, evaluation};
ghost use Rattle.rip_machine.specs.Starting.{arguments_in, started_of};

use crate::machine::Machine;
use crate::outcome::Start;
use rip_base::Refused;
use rip_eval_rows::{Advance, Evaluator, Opening, Outcome, Stop, Turned};
use rip_heap::{Heap, Host};
use rip_tree::Program;
use std::alloc::Global;

impl<H: Host> Evaluator<H> for Machine {
    ghost use Rattle.rip_machine.specs.Plans.{HasRoom, evaluation};
    ghost use Rattle.rip_machine.specs.PlanLaws.{ends, once};

    type Program = Program;

    ghost evaluation = { λ code. evaluation H.answers code };

    ghost has_room = { HasRoom };

    ghost once = { λ code m. once H.answers code m };

    ghost ends = { λ code m. ends H.answers code m };

    fn fuel_left(&self) -> u64 {
        self.fuel()
    }

    fn begin(
        &mut self,
        alloc: Global,
        program: &Program,
        heap: &mut Heap,
        opening: &Opening,
        fuel: u64,
    ) -> Result<(), Refused> {
        match opening {
            Opening::Script(script) => {
                let script = Start::Script(*script);
                self.begin_run::<H>(alloc, program, heap, &script, fuel)
            },
            Opening::Call {
                function,
                this,
                argument: None,
            } => {
                let call = Start::Function {
                    function: *function,
                    this: *this,
                    args: &[],
                };
                self.begin_run::<H>(alloc, program, heap, &call, fuel)
            },
            Opening::Call {
                function,
                this,
                argument: Some(v),
            } => {
                let args = [*v];
                let call = Start::Function {
                    function: *function,
                    this: *this,
                    args: &args,
                };
                self.begin_run::<H>(alloc, program, heap, &call, fuel)
            },
        }
    }

    fn advance(
        &mut self,
        alloc: Global,
        program: &Program,
        heap: &mut Heap,
        host: &mut H,
        n: u64,
    ) -> Advance {
        let before = self.spent();
        match self.resume(alloc, program, heap, host, n) {
            Turned::More => Advance::Paused,
            Turned::Done(outcome) => advance_of(outcome, self.spent() - before),
        }
    }
}

impl Machine {
    /// Begins a run, as plans see it.
    fn begin_run<H: Host>(
        &mut self,
        alloc: Global,
        program: &Program,
        heap: &mut Heap,
        s: &Start<'_>,
        fuel: u64,
    ) -> Result<(), Refused>
        ensures keeps { (evaluation H.answers program.now).run self.new
            ≡ (evaluation H.answers program.now).run self.old }
        ensures begins { Begins (evaluation H.answers program.now) (started_of s.now) fuel self.old
            heap.old self.new heap.new result }
        ensures memory { (most : ℕ) → HasRoom self.old most → arguments_in (started_of s.now) ≤ 1
            → TakesNoMemory result }
        ensures room { (most : ℕ) → HasRoom self.old most → arguments_in (started_of s.now) ≤ 1
            → fuel ≤ most → HasRoom self.new most }
        ensures grows { Grows heap.old heap.new }
    {
        self.start(alloc, program, heap, s, fuel)
    }
}

/// What an outcome is for a plan, after so many units.
fn advance_of(outcome: Outcome, used: u64) -> Advance
    ensures { result ≡ advance_of outcome used }
{
    match outcome {
        Outcome::Value(_) | Outcome::Thrown(_) => Advance::Passed(used),
        Outcome::Fault(fault) => {
            let stop = Stop::Fault(fault);
            Advance::Broken { stop, used }
        },
        Outcome::Limit(limit) => {
            let stop = Stop::Limit(limit);
            Advance::Broken { stop, used }
        },
        Outcome::Memory => Advance::Memory,
    }
}
