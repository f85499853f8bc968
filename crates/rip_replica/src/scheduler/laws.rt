ghost use Rattle.rip_replica.specs.Going.{going};
ghost use Rattle.rip_replica.specs.Laws.{CutsAdd, PlainCloses, PlansFold, PlaysOnce};

use crate::scheduler::planner::Planner;
use crate::scheduler::runner::Runner;
use rip_eval_rows::Evaluator;
use rip_heap::{Heap, Host};

/// A law, and no work: where a runner stands at a batch after j units, it stands there after j + n when n more are spent,
/// with what the outside changed in between. So two calls are one, however the units are cut.
pub fn cuts_add<H: Host, E: Evaluator<H>, P: Planner<H>>(
    runner: &Runner<E, P>,
    program: &E::Program,
    heap: &Heap,
    host: &H,
)
    ensures { CutsAdd (E.evaluation program.now) (going P.plan runner.now) heap.now host.now }
{
    let _ = runner;
    let _ = program;
    let _ = heap;
    let _ = host;
}

/// A law, and no work: a plan that has closed closes alike with more units, and needs none of them.
pub fn plays_once<H: Host, E: Evaluator<H>>(evaluator: &E, program: &E::Program)
    ensures { PlaysOnce (E.evaluation program.now) evaluator.now }
{
    let _ = evaluator;
    let _ = program;
}

/// A law, and no work: a plan that takes no unit but for fuel, and waits for nothing, closes where there are as many units
/// as fuel.
pub fn plain_closes<H: Host, E: Evaluator<H>>(evaluator: &E, program: &E::Program)
    ensures { PlainCloses (E.evaluation program.now) evaluator.now }
{
    let _ = evaluator;
    let _ = program;
}

/// A law, and no work: a plan and the next are played one after another, and the next begins with what the first did not
/// need.
pub fn plans_fold<H: Host, E: Evaluator<H>>(evaluator: &E, program: &E::Program)
    ensures { PlansFold (E.evaluation program.now) evaluator.now }
{
    let _ = evaluator;
    let _ = program;
}
