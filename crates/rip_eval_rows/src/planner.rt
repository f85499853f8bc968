use crate::step::Step;
use rip_base::NoMemory;
use rip_heap::{Heap, Host};
use std::alloc::Global;

/// What makes a plan step by step. It sees neither units nor fuel nor a program, and no run: a step that begins one is gone
/// on from in the world and the host after it.
pub trait Planner<H: Host> {
    ghost use Rattle.std.specs.Prelude.{◌≡◌, ◌<◌, ℕ, IfOk, OnErr};
    ghost use Rattle.rip_heap.specs.Growth.{Grows};
    ghost use Rattle.rip_heap.specs.World.{World};
    ghost use Rattle.rip_eval_rows.specs.Plan.{Plan, ahead, IsFewer};

    // What is left of the plan, from this world and this host on.
    ghost plan: { Self → World → H → Plan H };

    // A bound of the steps that are left.
    ghost steps: { Self → ℕ };

    // The room of the planner, and the least with which no step wants memory at this host.
    ghost room: { Self → ℕ };

    ghost need: { H → ℕ };

    /// The next step, with what is done in heap and host before it. Memory is wanting only where the room is too little, and
    /// then all is as before.
    fn next(&mut self, alloc: Global, heap: &mut Heap, host: &mut H) -> Result<Step, NoMemory>
        requires { H.fits host.old heap.old }
        ensures fits { H.fits host.new heap.new }
        ensures grows { Grows heap.old heap.new }
        ensures plan { IfOk result
            (λ step. plan self.old heap.old host.old ≡ ahead (plan self.new) step heap.new
            host.new) }
        ensures fewer { IfOk result (λ step. IsFewer step (steps self.new) (steps self.old)) }
        ensures memory { OnErr result
            ((plan self.new ≡ plan self.old) × (steps self.new ≡ steps self.old)
            × (heap.new ≡ heap.old) × (host.new ≡ host.old)) }
        ensures lack { OnErr result (room self.old < need host.old) }
        ensures room { room self.new ≡ room self.old };
}
