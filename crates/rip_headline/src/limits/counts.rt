ghost use Rattle.std.specs.Prelude.{◌≡◌, ◌≤◌, true, false};
ghost use Rattle.rip_app.specs.App.{Loaded};
ghost use Rattle.rip_history.specs.Stages.{Stage, is_done, is_ended};
ghost use Rattle.rip_session.specs.Application.{StandsAt, meaning_of_app};
ghost use Rattle.rip_headline.specs.Sessions.{IsAllowed, IsPageAllowed, IsUsedAtCut, IsUsedAtEnd, IsUsedBehind};
ghost use Rattle.rip_headline.specs.Within.{IsWithin, depth_of, open_in, used_in};

use rip_eval_rows::Phase;
use rip_heap::Heap;
use rip_host::Browser;
use rip_machine::Machine;
use rip_replica::{Place, Replica};
use rip_session::Session;

/// What a session has taken of its limits.
#[derive(Clone, Copy, Debug, PartialEq, Eq)]
pub struct Used {
    /// Cells of the heap.
    pub cells: u32,
    /// Units of its texts.
    pub units: u32,
    /// Nodes and attributes of the document.
    pub nodes: u32,
    /// Nodes of the program that are entered and not ended, and functions that are running: none where no run goes on.
    pub depth: u32,
    /// Bytes of the calls that wait to be reported.
    pub waiting: u32,
    /// Replies that are not delivered.
    pub replies: u32,
}

/// The cells that were charged.
fn cells(heap: &Heap) -> u32
    ensures used { result ≡ heap.now.cells }
    ensures within { result ≤ heap.now.limit }
{
    // What the heap tells of the cells that are left says that its limit is not passed.
    let _ = heap.free_cells();
    heap.used_cells()
}

/// The units that were charged.
fn units(heap: &Heap) -> u32
    ensures used { result ≡ heap.now.pool.used }
    ensures within { result ≤ heap.now.pool.limit }
{
    let pool = heap.pool();
    pool.limit() - pool.free()
}

/// How much of the depth is open in this phase.
fn run_depth(machine: &Machine, phase: Phase) -> u32
    ensures open { result ≡ depth_of phase machine.now }
    ensures within { result ≤ machine.now.depth }
{
    match phase {
        Phase::Asking => 0,
        Phase::Taking => 0,
        Phase::Awaiting => 0,
        Phase::Running { .. } => machine.depth(),
        Phase::Over(_) => 0,
    }
}

/// How much of the depth is open.
fn depth<I, T>(replica: &Replica<Machine, I, T, Browser>) -> u32
    ensures open { result ≡ open_in replica.now.place replica.now.runner.phase
        replica.now.runner.evaluator }
    ensures within { result ≤ replica.now.runner.evaluator.depth }
{
    match replica.place {
        Place::First => 0,
        Place::Between => 0,
        Place::Within => run_depth(&replica.runner.evaluator, replica.runner.phase),
        Place::Idle => 0,
    }
}

/// What a session has taken, wherever it stands: no count passes its limit.
pub fn used_by<I, T>(replica: &Replica<Machine, I, T, Browser>) -> Used
    ensures used { result ≡ used_in replica.now.heap
        (open_in replica.now.place replica.now.runner.phase replica.now.runner.evaluator) replica.now.host }
    ensures within { IsWithin result replica.now.heap replica.now.runner.evaluator
        replica.now.host }
{
    Used {
        cells: cells(&replica.heap),
        units: units(&replica.heap),
        nodes: replica.host.dom.used(),
        depth: depth(replica),
        waiting: replica.host.calls.used(),
        replies: replica.host.undelivered.count(),
    }
}

/// What a session of an application has taken, at whatever stage it stands: no count passes its limit, its heap passes none of
/// the manifest's, and while it lives its page and its runs pass none. Of a busy one they are the counts where its batch is cut,
/// of an idle one those behind its batch, and of one that an item ended those where that item left it.
pub fn used_by_session(session: &Session) -> Used
    ensures used { result ≡ used_in session.now.replica.heap
        (open_in session.now.replica.place session.now.replica.runner.phase session.now.replica.runner.evaluator)
        session.now.replica.host }
    ensures within { IsWithin result session.now.replica.heap session.now.replica.runner.evaluator
        session.now.replica.host }
    ensures allowed { (app : Loaded) (st : Stage) → StandsAt app session.now.replica st
        → IsAllowed app.manifest.limits result }
    ensures page { (app : Loaded) (st : Stage) → StandsAt app session.now.replica st
        → is_ended (meaning_of_app app) st ≡ false → IsPageAllowed app.manifest.limits result }
    ensures cut { (app : Loaded) (st : Stage) → StandsAt app session.now.replica st
        → is_done (meaning_of_app app) st ≡ false → IsUsedAtCut app st result }
    ensures idle { (app : Loaded) (st : Stage) → StandsAt app session.now.replica st
        → is_done (meaning_of_app app) st ≡ true → is_ended (meaning_of_app app) st ≡ false
        → IsUsedBehind app st result }
    ensures ended { (app : Loaded) (st : Stage) → StandsAt app session.now.replica st
        → is_ended (meaning_of_app app) st ≡ true → IsUsedAtEnd app st result }
{
    used_by(&session.replica)
}
